//! Which sets an item names.

ghost use Rattle.std.specs.Prelude.{◌≡◌, ◌&&◌, ℕ, List, length, drop};
ghost use Rattle.local_sets.specs.declared.value.TheConstants.{BATCH_HEAD_LEN};
ghost use Rattle.std.specs.List.{list_all};
ghost use Rattle.mxf_metadata.specs.Nodes.{is_reference};
ghost use Rattle.mxf_metadata_reader.specs.References.{names_of};
ghost use Rattle.mxf_metadata_reader.specs.Sizes.{is_sized, size_of};
ghost use Rattle.mxf_op1a.specs.Metadata.{SetAt};
ghost use Rattle.mxf_metadata_check.specs.inner.Firsts.{TellsFirsts, ids_within, is_batch, is_there};

use crate::firsts::is_there;
use local_sets::{BATCH_HEAD_LEN, ID_LEN};
use mxf_metadata::Size;
use mxf_metadata_reader::{is_reference, is_sized, size_of};
use std::collections::BTreeMap;

/// Whether the values of a tag are batches.
fn is_batch(tag: u16) -> bool
    ensures { result ≡ is_batch (size_of tag) }
{
    match size_of(tag) {
        None => false,
        Some(size) => match size {
            Size::Batch => true,
            Size::Fixed(_) => false,
            Size::Letters => false,
        },
    }
}

/// Whether an item of a tag and a value names sets.
fn is_name(tag: u16, value: &[u8]) -> bool
    ensures { result ≡ (is_reference tag && is_sized tag value.now) }
{
    is_reference(tag) && is_sized(tag, value)
}

/// The identifiers of the sets that an item of a tag and a value names, one after the other.
pub(crate) fn names_in<'a>(tag: u16, value: &'a [u8]) -> &'a [u8]
    ensures { names_of (record { tag = tag; value = value.now }) ≡ ids_within result.now }
{
    if !is_name(tag, value) {
        return &value[..0];
    }
    if is_batch(tag) {
        return behind_head(value);
    }
    value
}

/// The items of a batch.
fn behind_head(value: &[u8]) -> &[u8]
    ensures { result.now ≡ drop BATCH_HEAD_LEN value.now }
{
    if value.len() < BATCH_HEAD_LEN {
        return &value[value.len()..];
    }
    &value[BATCH_HEAD_LEN..]
}

/// Whether each of identifiers, one after the other, is that of a set.
pub(crate) fn are_there(firsts: &BTreeMap<u128, usize>, ids: &[u8]) -> bool
    ensures { (sets : List SetAt) → TellsFirsts firsts.now sets → result ≡ list_all (is_there sets) (ids_within ids.now) }
{
    let count = ids.len() / ID_LEN;
    for k in 0..count {
        let at = ID_LEN * k;
        if !is_there(firsts, &ids[at..at + ID_LEN]) {
            return false;
        }
    }
    true
}
