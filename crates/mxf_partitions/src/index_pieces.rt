//! The random index pack, read in pieces.

ghost use Rattle.std.specs.Prelude.{◌≡◌, ◌+◌, ◌-◌, ◌*◌, ◌/◌, ◌<◌, ℕ, List, Some, None, take, drop, IfSome, IfNone, if◌then◌else◌};
ghost use Rattle.klv.specs.Items.{Item};
ghost use Rattle.mxf_partitions.specs.Reads.{entries_in, entries_of, entry_at, entry_count};
ghost use Rattle.mxf_partitions.specs.Refusals.{IsIndexEnd};
ghost use Rattle.mxf_partitions.specs.inner.Fronts.{holds_count};
ghost use Rattle.mxf_partitions.specs.declared.random_index.TheConstants.{PACK_END_LEN, PACK_ENTRY_LEN};

use crate::random_index::{PACK_END_LEN, PACK_ENTRY_LEN};
use mxf_names::RANDOM_INDEX_KEY;

/// How many entries an item has as a random index pack, none where it is no such pack, by its key, the length of its value,
/// its own length and the last word of its value: for a reader that doesn't hold values.
pub fn count_pack_entries(key: &[u8; 16], value_len: u64, size: u64, last: u32) -> Option<u64>
    ensures some { IfSome result (λ count. (item : Item) → IsIndexEnd item key.now value_len size last
        → (entries_of item ≡ Some (entries_in item.value)) × (entry_count item.value ≡ count)) }
    ensures none { IfNone result ((item : Item) → IsIndexEnd item key.now value_len size last → entries_of item ≡ None) }
{
    if !holds_count(key, value_len, size, last) {
        return None;
    }
    Some((value_len - PACK_END_LEN as u64) / PACK_ENTRY_LEN as u64)
}

/// An item of this key, with a value of this length and of this last word, is a random index pack of this size.
fn holds_count(key: &[u8; 16], value_len: u64, size: u64, last: u32) -> bool
    ensures { result ≡ holds_count key.now value_len size last }
{
    if value_len < PACK_END_LEN as u64 {
        return false;
    }
    let count = (value_len - PACK_END_LEN as u64) / PACK_ENTRY_LEN as u64;
    *key == RANDOM_INDEX_KEY
        && value_len == PACK_ENTRY_LEN as u64 * count + PACK_END_LEN as u64
        && u64::from(last) == size
}

/// Entries are those of each piece of the value that begins with one of them. It does nothing: its clause is the law.
pub fn entries_stand_in_pieces()
    ensures { (value : List ℕ) (from count k : ℕ) → k < count
        → entry_at (take (PACK_ENTRY_LEN * count) (drop (PACK_ENTRY_LEN * from) value)) k ≡ entry_at value (from + k) }
{}
