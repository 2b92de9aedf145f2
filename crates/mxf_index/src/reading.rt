//! An index table segment, read.

ghost use Rattle.std.specs.Prelude.{◌≡◌, ◌+◌, ◌-◌, ◌*◌, ◌^◌, ◌<◌, ◌≤◌, length, take, drop, None, Some, IfOk, IfErr, OnOk};
ghost use Rattle.mxf_index.specs.Dues.{first_fault, opening_dues};
ghost use Rattle.mxf_index.specs.Reads.{IsReadSegment, Refuses, count_in};
ghost use Rattle.mxf_index.specs.inner.Items.{Breaks, Says, items_fault, moved, place_of, rest_fault};
ghost use Rattle.mxf_index.specs.declared.segment.TheConstants.{DELTAS_LEN, ITEMS_LEN, OPENING_LEN};
ghost use Rattle.mxf_index.specs.declared.tags.TheConstants.{ENTRY_SIZE};

use crate::array::{first_fall, read_streams, u64_at};
use crate::due::{COUNT_AT, Due, FIRST_AT, Holds, opening_dues, read_due, read_dues};
use crate::fault::SegmentFault;
use crate::segment::{DELTAS_LEN, OPENING_LEN};
use crate::tags::*;
use klv::read_klv;
use mxf_names::INDEX_SEGMENT_KEY;
use rec_bytes::Memory;
use std::alloc::Global;

/// What an index table segment says of a run of frames.
#[derive(Debug, Drop)]
pub struct Segment {
    /// The number of the first frame.
    pub first: u64,
    /// The stream offset of each frame.
    pub streams: Vec<u64>,
}

/// Reads the index table segment with which bytes begin, whatever follows it.
pub fn read_segment(alloc: Global, bytes: &[u8]) -> Result<Segment, SegmentFault>
    ensures read { IfOk result (IsReadSegment bytes.now) }

    ensures refused { IfErr result (Refuses bytes.now) }
{
    let klv = match read_klv(bytes, 0) {
        Ok(klv) => klv,
        Err(_) => return Err(SegmentFault::SegmentCut { at: 0, tag: 0 }),
    };
    if klv.key != INDEX_SEGMENT_KEY {
        return Err(SegmentFault::SegmentField { at: 0, tag: 0 });
    }
    match read_value(alloc, part(bytes, klv.value_at, klv.end)) {
        Ok(segment) => Ok(segment),
        Err(fault) => Err(moved(fault, klv.value_at)),
    }
}

/// The bytes from a place on up to another.
fn part(bytes: &[u8], at: usize, end: usize) -> &[u8]
    requires rise { at ≤ end }
    requires within { end ≤ length bytes.now }
    ensures { result.now ≡ take (end - at) (drop at bytes.now) }
{
    &bytes[at..end]
}

/// A fault whose place counts from the first byte of a value that begins at a place.
fn moved(fault: SegmentFault, value_at: usize) -> SegmentFault
    requires { value_at + place_of fault < 2 ^ 64 }
    ensures { result ≡ moved value_at fault }
{
    match fault {
        SegmentFault::Memory => SegmentFault::Memory,
        SegmentFault::SegmentCut { at, tag } => SegmentFault::SegmentCut {
            at: value_at as u64 + at,
            tag,
        },
        SegmentFault::SegmentField { at, tag } => SegmentFault::SegmentField {
            at: value_at as u64 + at,
            tag,
        },
        SegmentFault::EntryOrder { entry } => SegmentFault::EntryOrder { entry },
    }
}

/// Reads the value of a segment.
fn read_value(alloc: Global, value: &[u8]) -> Result<Segment, SegmentFault>
    ensures read { IfOk result (Says value.now) }

    ensures near { IfErr result (λ fault. place_of fault ≤ length value.now) }
    ensures refused { IfErr result (Breaks value.now) }
{
    let count = read_items(value)?;
    let streams = match read_streams(alloc, value, count as usize) {
        Ok(streams) => streams,
        Err(Memory) => return Err(SegmentFault::Memory),
    };
    if let Some(entry) = first_fall(streams.as_slice()) {
        return Err(SegmentFault::EntryOrder { entry });
    }
    Ok(Segment {
        first: u64_at(value, FIRST_AT),
        streams,
    })
}

/// Reads the items of a value, behind which nothing may be left, and answers the number of frames.
fn read_items(value: &[u8]) -> Result<u64, SegmentFault>
    ensures read { IfOk result (λ count. items_fault value.now ≡ None) }
    ensures count { IfOk result (λ count. count ≡ count_in value.now) }
    ensures long { IfOk result (λ count. length value.now ≡ ITEMS_LEN + ENTRY_SIZE * count) }

    ensures near { IfErr result (λ fault. place_of fault ≤ length value.now) }
    ensures refused { IfErr result (λ fault. items_fault value.now ≡ Some fault) }
{
    read_opening(value)?;
    let count = u64_at(value, COUNT_AT);
    read_rest(value, count)?;
    Ok(count)
}

/// Reads the items up to the entries.
fn read_opening(value: &[u8]) -> Result<(), SegmentFault>
    ensures read { OnOk result (first_fault value.now 0 opening_dues ≡ None) }
    ensures within { OnOk result (OPENING_LEN + DELTAS_LEN ≤ length value.now) }

    ensures near { IfErr result (λ fault. place_of fault ≤ length value.now) }
    ensures refused { IfErr result (λ fault. first_fault value.now 0 opening_dues ≡ Some fault) }
{
    read_dues(value, &opening_dues())?;
    Ok(())
}

/// Reads the entries, of which there are so many, and what stands behind them.
fn read_rest(value: &[u8], count: u64) -> Result<(), SegmentFault>
    requires { OPENING_LEN + DELTAS_LEN ≤ length value.now }
    ensures read { OnOk result (rest_fault value.now count ≡ None) }
    ensures long { OnOk result (length value.now ≡ ITEMS_LEN + ENTRY_SIZE * count) }

    ensures near { IfErr result (λ fault. place_of fault ≤ length value.now) }
    ensures refused { IfErr result (λ fault. rest_fault value.now count ≡ Some fault) }
{
    let entries = Due::new(INDEX_ENTRIES, Holds::Entries(count));
    let closing_at = read_due(value, OPENING_LEN + DELTAS_LEN, &entries)?;
    let closing = Due::new(POS_TABLE_COUNT, Holds::Byte(0));
    let end = read_due(value, closing_at, &closing)?;
    if end != value.len() {
        return Err(SegmentFault::SegmentField {
            at: end as u64,
            tag: 0,
        });
    }
    Ok(())
}
