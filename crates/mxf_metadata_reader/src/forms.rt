//! Whether the items of sets are whole, known and of their sizes.

ghost use Rattle.std.specs.Prelude.{◌≡◌, ◌+◌, ◌*◌, ◌≤◌, ◌<◌, ◌^◌, ◌%◌, ℕ, List, length, take, drop};
ghost use Rattle.local_sets.specs.Reads.{items_in, rest_in, raw_at};
ghost use Rattle.mxf_metadata_reader.specs.Faults.{cut_tag, item_fault, items_fault, sets_fault};
ghost use Rattle.mxf_metadata_reader.specs.Sizes.{has_size, is_sized, size_among, size_of};
ghost use Rattle.mxf_metadata_reader.specs.inner.Places.{AreWithin, IsTable, sets_at};

use crate::fault::SetFault;
use crate::outline::SetPlace;
use crate::primer::is_batch_of;
use byteorder::{BigEndian, ByteOrder};
use local_sets::{ID_LEN, ItemPlace, read_item};
use mxf_metadata::{Size, TAGS, Tag};

/// The size that rows of the table of tags have for a tag.
#[tactic(auto, unfolding(crate::specs::Sizes::size_among))]
fn size_among(rows: &[Tag], tag: u16) -> Option<Size>
    ensures { result ≡ size_among rows.now tag }
{
    'rows: for row in rows {
        if row.tag == tag {
            return Some(row.size);
        }
    }
    None
}

/// The size that the values of a tag have.
pub fn size_of(tag: u16) -> Option<Size>
    ensures { result ≡ size_of tag }
{
    size_among(&TAGS, tag)
}

/// Whether a value has a size.
fn has_size(size: Size, value: &[u8]) -> bool
    ensures { result ≡ has_size size value.now }
{
    match size {
        Size::Fixed(count) => value.len() == usize::from(count),
        Size::Batch => is_batch_of(ID_LEN as u32, value),
        Size::Letters => value.len() % 2 == 0,
    }
}

/// Whether a value has the size of its tag.
pub fn is_sized(tag: u16, value: &[u8]) -> bool
    ensures { result ≡ is_sized tag value.now }
{
    match size_of(tag) {
        None => true,
        Some(size) => has_size(size, value),
    }
}

/// What is wrong with a whole item, which stands at a place.
fn item_fault(listed: &[bool], value: &[u8], item: &ItemPlace, at: u64) -> Option<SetFault>
    requires whole { length listed.now ≡ 2 ^ 16 }
    requires within { item.now.value_at + item.now.value_len ≤ length value.now }
    ensures { (tags : List ℕ) → IsTable listed.now tags → result ≡ item_fault tags at (raw_at value.now item.now) }
{
    let tag = u64::from(item.tag);
    if !listed[usize::from(item.tag)] {
        return Some(SetFault::UnknownTag { at, tag });
    }
    if !is_sized(
        item.tag,
        &value[item.value_at..item.value_at + item.value_len],
    ) {
        return Some(SetFault::ItemSize { at, tag });
    }
    None
}

/// The tag with which an item that is cut begins.
fn cut_tag(rest: &[u8]) -> u64
    ensures { result ≡ cut_tag rest.now }
{
    if rest.len() < 2 {
        return 0;
    }
    u64::from(BigEndian::read_u16(rest))
}

/// What is wrong first with the items of a set, whose value begins at a place.
fn set_fault(listed: &[bool], value: &[u8], start: u64) -> Option<SetFault>
    requires whole { length listed.now ≡ 2 ^ 16 }
    requires fits { start + length value.now < 2 ^ 64 }
    ensures { (tags : List ℕ) → IsTable listed.now tags
        → result ≡ items_fault tags start (items_in value.now) (rest_in value.now) }
{
    let mut at = 0;
    while at < value.len() {
        let place = start + at as u64;
        match read_item(value, at) {
            None => {
                return Some(SetFault::SetCut {
                    at: place,
                    tag: cut_tag(&value[at..]),
                });
            }
            Some(item) => match item_fault(listed, value, &item, place) {
                Some(fault) => return Some(fault),
                None => at = item.value_at + item.value_len,
            },
        }
    }
    None
}

/// What is wrong first with the items of sets.
pub(crate) fn sets_fault(listed: &[bool], bytes: &[u8], sets: &[SetPlace]) -> Option<SetFault>
    requires whole { length listed.now ≡ 2 ^ 16 }
    requires within { AreWithin (length bytes.now) sets.now }
    ensures { (tags : List ℕ) → IsTable listed.now tags → result ≡ sets_fault tags (sets_at bytes.now sets.now) }
{
    'sets: for set in sets {
        let value = value_at(bytes, set);
        match set_fault(listed, value, set.value_at as u64) {
            Some(fault) => return Some(fault),
            None => {}
        }
    }
    None
}

/// The value of a set.
pub(crate) fn value_at<'a>(bytes: &'a [u8], set: &SetPlace) -> &'a [u8]
    requires { set.now.value_at + set.now.value_len ≤ length bytes.now }
    ensures { result.now ≡ take set.now.value_len (drop set.now.value_at bytes.now) }
{
    &bytes[set.value_at..set.value_at + set.value_len]
}
