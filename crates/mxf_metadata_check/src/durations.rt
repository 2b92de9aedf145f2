//! Whether durations are a number of frames.

ghost use Rattle.std.specs.Prelude.{◌≡◌, ◌≤◌, ◌<◌, ◌^◌, ◌+◌, ◌||◌, not, ℕ, List, length, take, drop};
ghost use Rattle.std.specs.Str.{bytes_eq};
ghost use Rattle.byteorder.specs.Endian.{big_bytes};
ghost use Rattle.klv.specs.Items.{AreItems, Item};
ghost use Rattle.local_sets.specs.Reads.{items_in, raw_at};
ghost use Rattle.mxf_metadata.specs.Durations.{is_duration};
ghost use Rattle.mxf_metadata_reader.specs.PlacedSets.{is_set_key};
ghost use Rattle.mxf_metadata_check.specs.Metadata.{AreMetadata, first_other};
ghost use Rattle.mxf_metadata_check.specs.inner.Held.{all_last, other_among};

use crate::parts::{value_at, value_of};
use byteorder::{BigEndian, ByteOrder};
use klv::{Klv, items_are_unique, read_klv};
use local_sets::{ItemPlace, read_item};
use mxf_metadata::{CONTAINER_DURATION, DURATION};
use mxf_metadata_reader::kind_of;

/// Whether the values of a tag are durations.
fn is_duration(tag: u16) -> bool
    ensures { result ≡ is_duration tag }
{
    tag == DURATION || tag == CONTAINER_DURATION
}

/// Whether an item, if it is a duration, is this one.
fn item_lasts(value: &[u8], item: &ItemPlace, duration: &[u8; 8]) -> bool
    requires { item.now.value_at + item.now.value_len ≤ length value.now }
    ensures { result ≡ (not (is_duration item.now.tag) || bytes_eq (raw_at value.now item.now).value duration.now) }
{
    !is_duration(item.tag) || value_at(value, item) == &duration[..]
}

/// Whether each duration of a set with a value is this one.
fn set_lasts(value: &[u8], duration: &[u8; 8]) -> bool
    ensures { result ≡ all_last duration.now (items_in value.now) }
{
    let mut at = 0;
    while at < value.len() {
        match read_item(value, at) {
            None => return true,
            Some(item) => {
                if !item_lasts(value, &item, duration) {
                    return false;
                }
                at = item.value_at + item.value_len;
            }
        }
    }
    true
}

/// Whether each duration of an item, if it is a set, is this one.
fn klv_lasts(bytes: &[u8], klv: &Klv, duration: &[u8; 8]) -> bool
    requires { klv.now.value_at + klv.now.value_len ≤ length bytes.now }
    ensures { result ≡ (not (is_set_key klv.now.key)
        || all_last duration.now (items_in (take klv.now.value_len (drop klv.now.value_at bytes.now)))) }
{
    match kind_of(&klv.key) {
        None => true,
        Some(_) => set_lasts(value_of(bytes, klv), duration),
    }
}

/// A number of frames as the bytes of a duration.
fn duration_of(count: u64) -> [u8; 8]
    ensures { result ≡ big_bytes 8 count }
{
    let mut duration = [0u8; 8];
    BigEndian::write_u64(&mut duration, count);
    duration
}

/// The place in the file of the first set with another duration, among the items that stand from a place of the bytes on.
fn other_among(bytes: &[u8], start: usize, at: u64, duration: &[u8; 8]) -> Option<u64>
    requires place { start ≤ length bytes.now }
    requires fits { at + length bytes.now < 2 ^ 64 }
    ensures { (items : List Item) → AreItems (drop start bytes.now) items → other_among duration.now (at + start) items ≡ result }
{
    items_are_unique();
    let mut place = start;
    while place < bytes.len() {
        match read_klv(bytes, place) {
            Ok(klv) => {
                if !klv_lasts(bytes, &klv, duration) {
                    return Some(at + place as u64);
                }
                place = klv.end;
            }
            Err(_) => return None,
        }
    }
    None
}

/// The place of the first set behind a primer pack with a duration that isn't this number of frames. The pack stands in the
/// file from `at` on.
pub fn first_other_duration(bytes: &[u8], at: u64, count: u64) -> Option<u64>
    requires { at + length bytes.now < 2 ^ 64 }
    ensures { (primer : Item) (items : List Item) → AreMetadata bytes.now primer items → first_other count at primer items ≡ result }
{
    items_are_unique();
    let duration = duration_of(count);
    match read_klv(bytes, 0) {
        Ok(klv) => other_among(bytes, klv.end, at, &duration),
        Err(_) => None,
    }
}
