//! Reading the items of a set.

ghost use Rattle.std.specs.Prelude.{◌≡◌, ◌<◌, ◌≤◌, ℕ, List, [], ◌++◌, length, slice_index, Option, Some, None};
ghost use Rattle.std.specs.List.{AllByRecursion};
ghost use Rattle.local_sets.specs.Sets.{IsRawItem, RawItem, set_value};
ghost use Rattle.local_sets.specs.Reads.{IsItemPlace, first_item, items_in, rest_in};

use crate::set::ITEM_HEAD_LEN;
use byteorder::{BigEndian, ByteOrder};

/// An item of a set, by the place of its value.
#[derive(Clone, Copy, Debug, PartialEq, Eq)]
pub struct ItemPlace {
    /// The local tag.
    pub tag: u16,
    /// The place of the first byte of its value.
    pub value_at: usize,
    /// Bytes of its value.
    pub value_len: usize,
}

/// Reads the item at a place of a set's value, or none where the value ends inside it.
#[tactic(auto, unfolding(crate::specs::Reads::first_item))]
pub fn read_item(value: &[u8], at: usize) -> Option<ItemPlace>
    requires { at ≤ length value.now }
    ensures { IsItemPlace value.now at result }
{
    let left = value.len() - at;
    if left < ITEM_HEAD_LEN {
        return None;
    }
    let value_len = usize::from(BigEndian::read_u16(&value[at + 2..]));
    if left < ITEM_HEAD_LEN + value_len {
        return None;
    }
    Some(ItemPlace {
        tag: BigEndian::read_u16(&value[at..]),
        value_at: at + ITEM_HEAD_LEN,
        value_len,
    })
}

/// What is read of a value is all of it, and what was written is read. It does nothing: its clauses are the law.
pub fn set_items_are_read()
    ensures whole { (value : List ℕ) → ((k : ℕ) → slice_index value k < 256)
        → value ≡ set_value (items_in value) ++ rest_in value }
    ensures each { (value : List ℕ) → ((k : ℕ) → slice_index value k < 256) → AllByRecursion IsRawItem (items_in value) }
    // Behind the items no item begins.
    ensures ends { (value : List ℕ) → first_item (rest_in value) ≡ None }
    ensures items { (items : List RawItem) → AllByRecursion IsRawItem items → items_in (set_value items) ≡ items }
    ensures rest { (items : List RawItem) → AllByRecursion IsRawItem items → rest_in (set_value items) ≡ [] }
{}
