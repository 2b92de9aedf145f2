//! The index table segments, against the elements.

ghost use Rattle.std.specs.Prelude.{◌≡◌, ◌≤◌, ◌<◌, ◌+◌, ◌-◌, ◌*◌, ◌==◌, ◌≢◌, ◌↔◌, None, Some};
ghost use Rattle.std.specs.Prelude.{length, drop, filter, nat_eq, IsTrue, IfOk, IfSome, if◌then◌else◌};
ghost use Rattle.std.specs.List.{starts_with};
ghost use Rattle.klv.specs.Items.{Item};
ghost use Rattle.klv.specs.Reads.{IsItemAt};
ghost use Rattle.mxf_index.specs.Reads.{frames_of};
ghost use Rattle.mxf_index.specs.declared.fault.SegmentFault.{SegmentFault};
ghost use Rattle.mxf_index.specs.declared.tags.TheConstants.{ENTRY_SIZE};
ghost use Rattle.mxf_op1a.specs.Clauses.{broken_6, broken_9, stream_offsets};
ghost use Rattle.mxf_op1a.specs.Contents.{Placed, is_pack, is_segment, placed_from};
ghost use Rattle.mxf_op1a.specs.Partitions.{being, file_of, parts, up_to};
ghost use Rattle.take_disk.specs.Calls.{Stays};
ghost use Rattle.take_disk.specs.Elapsed.{Elapsed};
ghost use Rattle.take_disk.specs.Held.{Disk};
ghost use Rattle.take_disk.specs.declared.area.Area.{Area};
ghost use Rattle.mxf_reader.specs.Calls.{HasReadCause};
ghost use Rattle.mxf_reader.specs.declared.index.TheConstants.{ITEMS_LEN};
ghost use Rattle.mxf_reader.specs.inner.Files.{IsSeen};
ghost use Rattle.mxf_reader.specs.inner.Index.{added, streams_of};
ghost use Rattle.mxf_reader.specs.inner.Inside.{IsInside, IsMarkInside};
ghost use Rattle.mxf_reader.specs.inner.Items.{IsMarkOf};

use crate::fault::CheckFault;
use crate::file::SeenFile;
use crate::mark::Mark;
use crate::spans::read_span;
use klv::{SET_HEAD_LEN, items_are_unique};
use mxf_index::{
    ENTRY_SIZE, SEGMENT_LEN, Segment, SegmentFault, frames_are_of_segments, read_segment,
};
use mxf_op1a::items_stand_at_their_places;
use rec_bytes::Memory;
use std::alloc::Global;
use take_disk::{Area, TakeDisk};
use take_layout::Place;

/// Bytes of a segment's value without entries.
const ITEMS_LEN: usize = SEGMENT_LEN - SET_HEAD_LEN;

/// Where the index table segments don't join, or name other places than the elements', where elements stand only in bodies.
pub(crate) fn clause_9<D: TakeDisk>(
    alloc: Global,
    disk: &mut D,
    file: &SeenFile,
) -> Result<Option<u64>, CheckFault>
    requires inside { IsInside (D.length_of disk.old Area.Essence) file.now }
    ensures broken { IfOk result (λ place. (told : Disk) → D.told disk.old ≡ Some told
        → (seen : IsSeen told.essence.reads file.now)
        → broken_6 file.now.len (up_to is_pack (placed_from 0 seen.outline.items))
        (file_of (parts file.now.len (placed_from 0 seen.outline.items))) ≡ None
        → place ≡ broken_9 file.now.len 0
        (stream_offsets 0 (file_of (parts file.now.len (placed_from 0 seen.outline.items))).bodies)
        (filter (being is_segment) (placed_from 0 seen.outline.items))) }
    ensures stays { Stays (D.told disk.old) (D.told disk.new) (D.length_of disk.old) (D.length_of disk.new) }
    ensures time { Elapsed (D.moment disk.old) (D.moment disk.new) (D.images_since disk.old) (D.images_since disk.new)
        (D.made disk.old) (D.made disk.new) }
    ensures cause { HasReadCause (D.fault_count disk.old) (D.fault_count disk.new) result }
{
    items_stand_at_their_places();
    let mut count = 0usize;
    for m in &file.segments {
        let more = entries_at(
            alloc,
            disk,
            m,
            count as u64,
            elements_from(&file.elements, count),
        )?;
        match more {
            None => return Ok(Some(m.at)),
            Some(entries) => count += entries,
        }
    }
    Ok(end_broken(file.len, count as u64, file.elements.len() as u64))
}

/// The elements from a number on.
fn elements_from(elements: &[Place], count: usize) -> &[Place]
    requires { count ≤ length elements.now }
    ensures { result.now ≡ drop count elements.now }
{
    &elements[count..]
}

/// The file's length, where fewer entries stand than elements.
fn end_broken(len: u64, entries: u64, elements: u64) -> Option<u64>
    ensures { result ≡ (if elements - entries == 0 then None else Some len) }
{
    if entries < elements { Some(len) } else { None }
}

/// How many entries the segment at a place has that joins at a frame, none where it doesn't join or has other entries than
/// the elements from there on. It is read only where it may have no more than they are.
fn entries_at<D: TakeDisk>(
    alloc: Global,
    disk: &mut D,
    m: &Mark,
    first: u64,
    left: &[Place],
) -> Result<Option<usize>, CheckFault>
    requires inside { IsMarkInside (D.length_of disk.old Area.Essence) m.now }
    ensures added { IfOk result (λ more. (told : Disk) → D.told disk.old ≡ Some told
        → (p : Placed) → IsMarkOf told.essence.reads m.now p → more ≡ added first (streams_of left.now) (frames_of p.item)) }
    ensures few { IfOk result (λ more. IfSome more (λ entries. entries ≤ length left.now)) }
    ensures stays { Stays (D.told disk.old) (D.told disk.new) (D.length_of disk.old) (D.length_of disk.new) }
    ensures time { Elapsed (D.moment disk.old) (D.moment disk.new) (D.images_since disk.old) (D.images_since disk.new)
        (D.made disk.old) (D.made disk.new) }
    ensures cause { HasReadCause (D.fault_count disk.old) (D.fault_count disk.new) result }
{
    frames_are_of_segments();
    if !has_room(m.value_len, left.len() as u64) {
        return Ok(None);
    }
    let bytes = read_item(alloc, disk, m)?;
    match entries_in(alloc, &bytes, first, left) {
        Ok(more) => Ok(more),
        Err(Memory) => Err(CheckFault::Memory),
    }
}

/// A segment with a value of this length may have no more than so many entries.
fn has_room(value_len: u64, count: u64) -> bool
    ensures { IsTrue result ↔ value_len < ITEMS_LEN + ENTRY_SIZE * (count + 1) }
{
    value_len < ITEMS_LEN as u64 || (value_len - ITEMS_LEN as u64) / u64::from(ENTRY_SIZE) <= count
}

/// Reads an item.
fn read_item<D: TakeDisk>(alloc: Global, disk: &mut D, m: &Mark) -> Result<Vec<u8>, CheckFault>
    requires inside { IsMarkInside (D.length_of disk.old Area.Essence) m.now }
    ensures read { IfOk result (λ bytes. (told : Disk) → D.told disk.old ≡ Some told
        → (p : Placed) → IsMarkOf told.essence.reads m.now p → IsItemAt bytes.items 0 p.item) }
    ensures stays { Stays (D.told disk.old) (D.told disk.new) (D.length_of disk.old) (D.length_of disk.new) }
    ensures time { Elapsed (D.moment disk.old) (D.moment disk.new) (D.images_since disk.old) (D.images_since disk.new)
        (D.made disk.old) (D.made disk.new) }
    ensures cause { HasReadCause (D.fault_count disk.old) (D.fault_count disk.new) result }
{
    // The item ends inside the file, so the sum fits.
    let _len = disk.len(Area::Essence);
    read_span(alloc, disk, m.at, m.value_at + m.value_len)
}

/// How many entries the segment with which bytes begin has that joins at a frame.
fn entries_in(
    alloc: Global,
    bytes: &[u8],
    first: u64,
    left: &[Place],
) -> Result<Option<usize>, Memory>
    ensures added { IfOk result (λ more. (item : Item) → IsItemAt bytes.now 0 item
        → more ≡ added first (streams_of left.now) (frames_of item)) }
    ensures few { IfOk result (λ more. IfSome more (λ entries. entries ≤ length left.now)) }
{
    items_are_unique();
    match read_segment(alloc, bytes) {
        Ok(segment) => Ok(entries_of(&segment, first, left)),
        Err(fault) => no_entries(fault),
    }
}

/// What is refused has no entries, unless memory was wanted.
fn no_entries(fault: SegmentFault) -> Result<Option<usize>, Memory>
    ensures { IfOk result (λ more. (more ≡ None) × (fault ≢ SegmentFault.Memory)) }
{
    match fault {
        SegmentFault::Memory => Err(Memory),
        _ => Ok(None),
    }
}

/// How many entries a segment has that joins at a frame.
fn entries_of(segment: &Segment, first: u64, left: &[Place]) -> Option<usize>
    ensures added { result ≡ added first (streams_of left.now)
        (Some (record { first = segment.now.first; streams = segment.now.streams.items })) }
    ensures few { IfSome result (λ entries. entries ≤ length left.now) }
{
    if segment.first == first && begin_with(left, &segment.streams) {
        return Some(segment.streams.len());
    }
    None
}

/// The stream offsets of elements begin with these.
fn begin_with(elements: &[Place], streams: &[u64]) -> bool
    ensures begin { result ≡ starts_with nat_eq (streams_of elements.now) streams.now }
    ensures few { IsTrue result → length streams.now ≤ length elements.now }
{
    if elements.len() < streams.len() {
        return false;
    }
    'streams: for k in 0..streams.len() {
        if elements[k].stream != streams[k] {
            return false;
        }
    }
    true
}
