//! Items and sets.

ghost use Rattle.std.specs.Prelude.{◌≡◌, ◌+◌, ◌^◌, ◌<◌, ◌≤◌, length};
ghost use Rattle.rec_bytes.specs.Places.{with_bytes};
ghost use Rattle.klv.specs.declared.head.TheConstants.{SET_HEAD_LEN};
ghost use Rattle.local_sets.specs.Sets.{item, item_bytes, items_bytes, local_set};

use crate::value::{Value, put_value, value_len};
use klv::{Form, SET_HEAD_LEN, put_klv_head_at};
use rec_bytes::put_u16;

/// Bytes of an item before its value: its local tag and its length.
pub const ITEM_HEAD_LEN: usize = 2 + 2;

/// An item of a local set.
#[derive(Clone, Copy, Debug, PartialEq, Eq)]
pub struct Item {
    /// The local tag.
    pub tag: u16,
    /// What the item holds.
    pub value: Value,
}

impl Item {
    /// The item of a tag and a value.
    pub fn new(tag: u16, value: Value) -> Item
        ensures { result ≡ item tag value }
    {
        Item { tag, value }
    }
}

/// Bytes that items have as they are spelled.
pub fn items_len(items: &[Item]) -> usize
    requires { length (items_bytes items.now) < 2 ^ 32 }
    ensures { result ≡ length (items_bytes items.now) }
{
    let mut len = 0;
    'items: for item in items {
        len += item_len(item);
    }
    len
}

/// Writes items at a place, one after the other, and answers the place behind them.
pub fn put_items(items: &[Item], out: &mut [u8], at: usize) -> usize
    requires { at + length (items_bytes items.now) ≤ length out.old }
    ensures end { result ≡ at + length (items_bytes items.now) }
    ensures written { out.new ≡ with_bytes out.old at (items_bytes items.now) }
{
    let mut end = at;
    'items: for item in items {
        end = put_item(item, out, end);
    }
    end
}

/// Writes a set at a place, and answers the place behind it.
pub fn put_set(key: &[u8; 16], items: &[Item], out: &mut [u8], at: usize) -> usize
    requires room { at + SET_HEAD_LEN + length (items_bytes items.now) ≤ length out.old }
    requires fits { length (items_bytes items.now) < 2 ^ 24 }
    ensures end { result ≡ at + SET_HEAD_LEN + length (items_bytes items.now) }
    ensures written { out.new ≡ with_bytes out.old at (local_set key.now items.now) }
{
    let len = items_len(items) as u64;
    let start = put_klv_head_at(key, len, Form::Three, out, at);
    put_items(items, out, start)
}

fn item_len(item: &Item) -> usize
    ensures { result ≡ length (item_bytes item.now) }
{
    ITEM_HEAD_LEN + usize::from(value_len(&item.value))
}

fn put_item(item: &Item, out: &mut [u8], at: usize) -> usize
    requires { at + length (item_bytes item.now) ≤ length out.old }
    ensures end { result ≡ at + length (item_bytes item.now) }
    ensures written { out.new ≡ with_bytes out.old at (item_bytes item.now) }
{
    put_u16(out, at, item.tag);
    put_u16(out, at + 2, value_len(&item.value));
    put_value(&item.value, out, at + ITEM_HEAD_LEN)
}
