//! The random index pack at a file's end, against the partitions.

ghost use Rattle.std.specs.Prelude.{◌≡◌, ◌≤◌, ◌+◌, ◌-◌, ◌*◌, ◌==◌, None, Some, length, drop, if◌then◌else◌, IfOk};
ghost use Rattle.byteorder.specs.Endian.{big_number};
ghost use Rattle.klv.specs.Items.{Item, spelled};
ghost use Rattle.mxf_names.specs.declared.keys.TheConstants.{RANDOM_INDEX_KEY};
ghost use Rattle.mxf_op1a.specs.Clauses.{broken_2};
ghost use Rattle.mxf_op1a.specs.Contents.{Placed, placed_from};
ghost use Rattle.mxf_op1a.specs.Partitions.{parts};
ghost use Rattle.mxf_partitions.specs.declared.random_index.TheConstants.{PACK_END_LEN, PACK_ENTRY_LEN};
ghost use Rattle.take_disk.specs.Calls.{Stays};
ghost use Rattle.take_disk.specs.Elapsed.{Elapsed};
ghost use Rattle.take_disk.specs.Held.{Disk};
ghost use Rattle.take_disk.specs.declared.area.Area.{Area};
ghost use Rattle.mxf_reader.specs.Calls.{HasReadCause};
ghost use Rattle.mxf_reader.specs.inner.Files.{IsSeen};
ghost use Rattle.mxf_reader.specs.inner.Inside.{IsInside, IsMarkInside};
ghost use Rattle.mxf_reader.specs.inner.Items.{IsMarkOf};
ghost use Rattle.mxf_reader.specs.inner.Names.{IsNaming, is_entry_of, is_index, names_from};

use crate::fault::CheckFault;
use crate::file::SeenFile;
use crate::mark::{Kind, Mark};
use crate::part::SeenPart;
use crate::spans::read_span;
use byteorder::{BigEndian, ByteOrder};
use mxf_names::RANDOM_INDEX_KEY;
use mxf_op1a::items_stand_at_their_places;
use mxf_partitions::{
    PACK_END_LEN, PACK_ENTRY_LEN, PackEntry, count_pack_entries, read_pack_entry,
};
use std::alloc::Global;
use take_disk::{Area, TakeDisk};

/// Where the random index pack at the end doesn't name the partitions.
pub(crate) fn clause_2<D: TakeDisk>(
    alloc: Global,
    disk: &mut D,
    file: &SeenFile,
) -> Result<Option<u64>, CheckFault>
    requires inside { IsInside (D.length_of disk.old Area.Essence) file.now }
    ensures broken { IfOk result (λ place. (told : Disk) → D.told disk.old ≡ Some told
        → (seen : IsSeen told.essence.reads file.now)
        → place ≡ broken_2 (placed_from 0 seen.outline.items) (parts file.now.len (placed_from 0 seen.outline.items))) }
    ensures stays { Stays (D.told disk.old) (D.told disk.new) (D.length_of disk.old) (D.length_of disk.new) }
    ensures time { Elapsed (D.moment disk.old) (D.moment disk.new) (D.images_since disk.old) (D.images_since disk.new)
        (D.made disk.old) (D.made disk.new) }
    ensures cause { HasReadCause (D.fault_count disk.old) (D.fault_count disk.new) result }
{
    items_stand_at_their_places();
    match file.last {
        None => Ok(None),
        Some(m) => {
            let names = names_parts(alloc, disk, &m, &file.parts)?;
            Ok(unless(names, m.at))
        }
    }
}

/// A place, unless something holds.
fn unless(holds: bool, at: u64) -> Option<u64>
    ensures { result ≡ (if holds then None else Some at) }
{
    if holds { None } else { Some(at) }
}

/// Whether an item is a random index pack that names the partitions. The value is read only where it may have an entry for
/// each of them.
fn names_parts<D: TakeDisk>(
    alloc: Global,
    disk: &mut D,
    m: &Mark,
    parts: &[SeenPart],
) -> Result<bool, CheckFault>
    requires inside { IsMarkInside (D.length_of disk.old Area.Essence) m.now }
    ensures named { IfOk result (λ names. (told : Disk) → D.told disk.old ≡ Some told
        → (p : Placed) → IsMarkOf told.essence.reads m.now p → IsNaming p.item parts.now names) }
    ensures stays { Stays (D.told disk.old) (D.told disk.new) (D.length_of disk.old) (D.length_of disk.new) }
    ensures time { Elapsed (D.moment disk.old) (D.moment disk.new) (D.images_since disk.old) (D.images_since disk.new)
        (D.made disk.old) (D.made disk.new) }
    ensures cause { HasReadCause (D.fault_count disk.old) (D.fault_count disk.new) result }
{
    if !is_index(m) {
        return Ok(false);
    }
    if !holds_entries(m.value_len, parts.len() as u64) {
        return Ok(false);
    }
    // The item ends inside the file, so its length fits.
    let _len = disk.len(Area::Essence);
    let value = read_value(alloc, disk, m)?;
    Ok(names_each(&value, m.value_at - m.at + m.value_len, parts))
}

/// An item is a random index pack by its key.
fn is_index(m: &Mark) -> bool
    ensures { result ≡ is_index m.now.kind }
{
    matches!(m.kind, Kind::RandomIndexPack)
}

/// A value of this length is that of a random index pack with so many entries.
fn holds_entries(value_len: u64, count: u64) -> bool
    ensures { result ≡ (value_len == PACK_ENTRY_LEN * count + PACK_END_LEN) }
{
    if value_len < PACK_END_LEN as u64 {
        return false;
    }
    let len = value_len - PACK_END_LEN as u64;
    len % PACK_ENTRY_LEN as u64 == 0 && len / PACK_ENTRY_LEN as u64 == count
}

/// Reads an item's value.
fn read_value<D: TakeDisk>(alloc: Global, disk: &mut D, m: &Mark) -> Result<Vec<u8>, CheckFault>
    requires inside { IsMarkInside (D.length_of disk.old Area.Essence) m.now }
    ensures read { IfOk result (λ value. (told : Disk) → D.told disk.old ≡ Some told
        → (p : Placed) → IsMarkOf told.essence.reads m.now p → value.items ≡ p.item.value) }
    ensures long { IfOk result (λ value. length value.items ≡ m.now.value_len) }
    ensures stays { Stays (D.told disk.old) (D.told disk.new) (D.length_of disk.old) (D.length_of disk.new) }
    ensures time { Elapsed (D.moment disk.old) (D.moment disk.new) (D.images_since disk.old) (D.images_since disk.new)
        (D.made disk.old) (D.made disk.new) }
    ensures cause { HasReadCause (D.fault_count disk.old) (D.fault_count disk.new) result }
{
    // The value ends inside the file, so the sum fits.
    let _len = disk.len(Area::Essence);
    read_span(alloc, disk, m.value_at, m.value_at + m.value_len)
}

/// Whether a random index pack of this value, and of this size with key and length, names the partitions.
fn names_each(value: &[u8], size: u64, parts: &[SeenPart]) -> bool
    requires { length value.now ≡ PACK_ENTRY_LEN * length parts.now + PACK_END_LEN }
    ensures { (item : Item) → item.key ≡ RANDOM_INDEX_KEY → item.value ≡ value.now → length (spelled item) ≡ size
        → IsNaming item parts.now result }
{
    let last = last_word(value);
    match count_pack_entries(&RANDOM_INDEX_KEY, value.len() as u64, size, last) {
        None => false,
        Some(_) => names_in_order(value, parts),
    }
}

/// The number in the last four bytes of a value.
fn last_word(value: &[u8]) -> u32
    requires { PACK_END_LEN ≤ length value.now }
    ensures { result ≡ big_number 4 (drop (length value.now - PACK_END_LEN) value.now) }
{
    BigEndian::read_u32(&value[value.len() - PACK_END_LEN..])
}

/// Whether the entries of a value are those of the partitions, in order.
fn names_in_order(value: &[u8], parts: &[SeenPart]) -> bool
    requires { PACK_ENTRY_LEN * length parts.now ≤ length value.now }
    ensures { result ≡ names_from value.now 0 parts.now }
{
    'parts: for k in 0..parts.len() {
        if !is_entry_of(read_pack_entry(value, k), &parts[k]) {
            return false;
        }
    }
    true
}

/// An entry is that of a partition.
fn is_entry_of(entry: PackEntry, p: &SeenPart) -> bool
    ensures { result ≡ is_entry_of entry p.now }
{
    entry.body_sid == p.pack.body_sid && entry.at == p.at
}
