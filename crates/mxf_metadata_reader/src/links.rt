//! Whether the sets that items name are there.

ghost use Rattle.std.specs.Prelude.{◌≡◌, ◌+◌, ◌*◌, ◌≤◌, ◌<◌, ◌^◌, ◌||◌, ◌&&◌, ℕ, List, true, length, drop, OnOk, IfOk, IfSome};
ghost use Rattle.byteorder.specs.Endian.{big_number};
ghost use Rattle.std.specs.BTreeSet.{contains};
ghost use Rattle.std.specs.Ordering.{nat_cmp};
ghost use Rattle.local_sets.specs.Reads.{items_in, raw_at};
ghost use Rattle.mxf_metadata.specs.Nodes.{is_reference};
ghost use Rattle.mxf_metadata_reader.specs.Faults.{links_fault, name_fault, names_fault};
ghost use Rattle.mxf_metadata_reader.specs.PlacedSets.{PlacedSet};
ghost use Rattle.mxf_metadata_reader.specs.PrimerTags.{is_batch_of};
ghost use Rattle.mxf_metadata_reader.specs.References.{all_found, first_value, ids_in, is_found, names_of};
ghost use Rattle.mxf_metadata_reader.specs.Sizes.{is_sized};
ghost use Rattle.mxf_metadata_reader.specs.inner.Places.{AreWithin, HoldsIds, sets_at, value_of};
ghost use Rattle.mxf_metadata_reader.specs.inner.Own.{number_is, own_number};

use crate::fault::SetFault;
use crate::forms::{is_sized, size_of, value_at};
use crate::outline::SetPlace;
use byteorder::{BigEndian, ByteOrder};
use local_sets::{BATCH_HEAD_LEN, ID_LEN, ItemPlace, read_item};
use mxf_metadata::{
    CONTENT_STORAGE, DESCRIPTOR, ESSENCE_CONTAINER_DATA, IDENTIFICATIONS, PACKAGES, SEQUENCE,
    STRUCTURAL_COMPONENTS, Size, TRACKS,
};
use mxf_names::INSTANCE_ID;
use std::alloc::{AllocError, Global};
use std::collections::BTreeSet;

/// The first item of a set's value with a tag.
pub fn find_item(value: &[u8], tag: u16) -> Option<ItemPlace>
    ensures within { IfSome result (λ item. item.value_at + item.value_len ≤ length value.now) }
    ensures first { value_of value.now result ≡ first_value tag (items_in value.now) }
{
    let mut at = 0;
    while at < value.len() {
        match read_item(value, at) {
            None => return None,
            Some(item) => {
                if item.tag == tag {
                    return Some(item);
                }
                at = item.value_at + item.value_len;
            }
        }
    }
    None
}

/// The identifier of the set with a value, as a number, none where it doesn't have one of 16 bytes.
pub fn own_number(value: &[u8]) -> Option<u128>
    ensures { result ≡ own_number (items_in value.now) }
{
    match find_item(value, INSTANCE_ID) {
        None => None,
        Some(item) => {
            if item.value_len == ID_LEN {
                Some(BigEndian::read_u128(&value[item.value_at..]))
            } else {
                None
            }
        }
    }
}

/// Keeps a number, if there is one.
fn keep_number(ids: &mut BTreeSet<u128>, number: Option<u128>) -> Result<(), AllocError>
    ensures { OnOk result ((q : ℕ) → contains nat_cmp ids.new q ≡ (number_is q number || contains nat_cmp ids.old q)) }
{
    match number {
        None => Ok(()),
        Some(number) => match ids.insert(number) {
            Ok(_) => Ok(()),
            Err(_) => Err(AllocError),
        },
    }
}

/// The identifiers of sets.
pub(crate) fn ids_of(
    alloc: Global,
    bytes: &[u8],
    sets: &[SetPlace],
) -> Result<BTreeSet<u128>, AllocError>
    requires { AreWithin (length bytes.now) sets.now }
    ensures { IfOk result (λ ids. HoldsIds ids (sets_at bytes.now sets.now)) }
{
    let mut ids = BTreeSet::new(alloc);
    'sets: for set in sets {
        let value = value_at(bytes, set);
        keep_number(&mut ids, own_number(value))?;
    }
    Ok(ids)
}

/// Whether some set has an identifier.
fn is_found(ids: &BTreeSet<u128>, id: &[u8]) -> bool
    ensures { (sets : List PlacedSet) → HoldsIds ids.now sets → result ≡ is_found id.now sets }
{
    if id.len() != ID_LEN {
        return false;
    }
    ids.contains(&BigEndian::read_u128(id))
}

/// Whether so many identifiers, one after the other, are those of sets.
fn all_found(ids: &BTreeSet<u128>, bytes: &[u8], count: usize) -> bool
    requires { ID_LEN * count ≤ length bytes.now }
    ensures { (sets : List PlacedSet) → HoldsIds ids.now sets → result ≡ all_found sets (ids_in count bytes.now) }
{
    for k in 0..count {
        let at = ID_LEN * k;
        if !is_found(ids, &bytes[at..at + ID_LEN]) {
            return false;
        }
    }
    true
}

/// Whether an item with a tag names sets.
pub fn is_reference(tag: u16) -> bool
    ensures { result ≡ is_reference tag }
{
    tag == CONTENT_STORAGE
        || tag == IDENTIFICATIONS
        || tag == PACKAGES
        || tag == ESSENCE_CONTAINER_DATA
        || tag == TRACKS
        || tag == SEQUENCE
        || tag == STRUCTURAL_COMPONENTS
        || tag == DESCRIPTOR
}

/// Whether an item of a tag and a value names sets: the tag does, and the value has its size.
fn is_name(tag: u16, value: &[u8]) -> bool
    ensures { result ≡ (is_reference tag && is_sized tag value.now) }
{
    is_reference(tag) && is_sized(tag, value)
}

/// Whether the identifiers in a batch are those of sets.
fn batch_found(ids: &BTreeSet<u128>, value: &[u8]) -> bool
    requires { is_batch_of ID_LEN value.now ≡ true }
    ensures { (sets : List PlacedSet) → HoldsIds ids.now sets
        → result ≡ all_found sets (ids_in (big_number 4 value.now) (drop BATCH_HEAD_LEN value.now)) }
{
    let count = BigEndian::read_u32(value) as usize;
    all_found(ids, &value[BATCH_HEAD_LEN..], count)
}

/// Whether the sets that an item of a tag and a value names are there.
fn names_found(ids: &BTreeSet<u128>, tag: u16, value: &[u8]) -> bool
    ensures { (sets : List PlacedSet) → HoldsIds ids.now sets
        → result ≡ all_found sets (names_of (record { tag = tag; value = value.now })) }
{
    if !is_name(tag, value) {
        return true;
    }
    match size_of(tag) {
        None => is_found(ids, value),
        Some(size) => match size {
            Size::Batch => batch_found(ids, value),
            Size::Fixed(_) => is_found(ids, value),
            Size::Letters => is_found(ids, value),
        },
    }
}

/// What is wrong with what an item names, which stands at a place.
fn name_fault(ids: &BTreeSet<u128>, value: &[u8], item: &ItemPlace, at: u64) -> Option<SetFault>
    requires { item.now.value_at + item.now.value_len ≤ length value.now }
    ensures { (sets : List PlacedSet) → HoldsIds ids.now sets → result ≡ name_fault sets at (raw_at value.now item.now) }
{
    if names_found(
        ids,
        item.tag,
        &value[item.value_at..item.value_at + item.value_len],
    ) {
        return None;
    }
    Some(SetFault::BrokenReference {
        at,
        tag: u64::from(item.tag),
    })
}

/// What is wrong first with what a set names, whose value begins at a place.
fn names_fault(ids: &BTreeSet<u128>, value: &[u8], start: u64) -> Option<SetFault>
    requires { start + length value.now < 2 ^ 64 }
    ensures { (sets : List PlacedSet) → HoldsIds ids.now sets → result ≡ names_fault sets start (items_in value.now) }
{
    let mut at = 0;
    while at < value.len() {
        match read_item(value, at) {
            None => return None,
            Some(item) => match name_fault(ids, value, &item, start + at as u64) {
                Some(fault) => return Some(fault),
                None => at = item.value_at + item.value_len,
            },
        }
    }
    None
}

/// What is wrong first with what sets name.
pub(crate) fn links_fault(ids: &BTreeSet<u128>, bytes: &[u8], sets: &[SetPlace]) -> Option<SetFault>
    requires { AreWithin (length bytes.now) sets.now }
    ensures { (all : List PlacedSet) → HoldsIds ids.now all → result ≡ links_fault all (sets_at bytes.now sets.now) }
{
    'sets: for set in sets {
        let value = value_at(bytes, set);
        match names_fault(ids, value, set.value_at as u64) {
            Some(fault) => return Some(fault),
            None => {}
        }
    }
    None
}
