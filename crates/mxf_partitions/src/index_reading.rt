//! The random index pack, read.

ghost use Rattle.std.specs.Prelude.{◌≡◌, ◌+◌, ◌*◌, ◌≤◌, ℕ, List, length, IfOk, IfErr, IfSome, IfNone};
ghost use Rattle.mxf_partitions.specs.Reads.{entries_in, entry_at, has_index_size};
ghost use Rattle.mxf_partitions.specs.Refusals.{IsFirstFall, IsReadIndex, RefusesIndex, RiseTo};
ghost use Rattle.mxf_partitions.specs.inner.Fronts.{HoldsIndex, HoldsNoIndex, holds_entries};
ghost use Rattle.mxf_partitions.specs.declared.fault.PackFault.{PackFault};
ghost use Rattle.mxf_partitions.specs.declared.random_index.PackEntry.{PackEntry};
ghost use Rattle.mxf_partitions.specs.declared.random_index.TheConstants.{PACK_END_LEN, PACK_ENTRY_LEN};

use crate::fault::PackFault;
use crate::fields::{part_of, u32_at, u64_at};
use crate::random_index::{PACK_END_LEN, PACK_ENTRY_LEN, PackEntry};
use klv::{items_are_unique, read_klv};
use mxf_names::RANDOM_INDEX_KEY;
use rec_bytes::Memory;
use std::alloc::Global;

/// Reads the random index pack with which bytes begin, whatever follows it.
pub fn read_random_index(alloc: Global, bytes: &[u8]) -> Result<Vec<PackEntry>, PackFault>
    ensures accepted { (entries : List PackEntry) → IsReadIndex bytes.now entries → IfErr result (λ fault. fault ≡ PackFault.Memory) }
    ensures read { IfOk result (λ entries. IsReadIndex bytes.now entries.items) }

    ensures refused { IfErr result (RefusesIndex bytes.now) }
{
    items_are_unique();
    let Some(value) = index_value(bytes) else {
        return Err(PackFault::IndexPackSize);
    };
    let entries = match read_entries(alloc, value) {
        Ok(entries) => entries,
        Err(Memory) => return Err(PackFault::Memory),
    };
    if let Some(entry) = first_fall(entries.as_slice()) {
        return Err(PackFault::IndexPackOrder {
            entry: entry as u64,
        });
    }
    Ok(entries)
}

/// Reads an entry of a random index pack's value, by its number.
pub fn read_pack_entry(value: &[u8], k: usize) -> PackEntry
    requires { PACK_ENTRY_LEN * k + PACK_ENTRY_LEN ≤ length value.now }
    ensures { result ≡ entry_at value.now k }
{
    PackEntry {
        body_sid: u32_at(value, PACK_ENTRY_LEN * k),
        at: u64_at(value, PACK_ENTRY_LEN * k + 4),
    }
}

/// The value of the random index pack with which bytes begin.
fn index_value(bytes: &[u8]) -> Option<&[u8]>
    ensures some { IfSome result (λ value. HoldsIndex bytes.now value.now) }
    ensures none { IfNone result (HoldsNoIndex bytes.now) }
{
    items_are_unique();
    let klv = match read_klv(bytes, 0) {
        Ok(klv) => klv,
        Err(_) => return None,
    };
    let value = part_of(bytes, klv.value_at, klv.end);
    if !holds_entries(&klv.key, value, klv.end) {
        return None;
    }
    Some(value)
}

/// An item of this key, this value and this size is a random index pack.
fn holds_entries(key: &[u8; 16], value: &[u8], size: usize) -> bool
    ensures { result ≡ holds_entries key.now value.now size }
{
    *key == RANDOM_INDEX_KEY && has_index_size(value, size)
}

/// A value is entries and the last word, and that word is this size.
#[tactic(auto, unfolding(crate::specs::Reads::has_index_size))]
fn has_index_size(value: &[u8], size: usize) -> bool
    ensures { result ≡ has_index_size value.now size }
{
    if value.len() < PACK_END_LEN {
        return false;
    }
    let end = (value.len() - PACK_END_LEN) / PACK_ENTRY_LEN * PACK_ENTRY_LEN;
    value.len() == end + PACK_END_LEN && u32_at(value, end) as usize == size
}

/// The entries of a value.
fn read_entries(alloc: Global, value: &[u8]) -> Result<Vec<PackEntry>, Memory>
    requires { PACK_END_LEN ≤ length value.now }
    ensures { IfOk result (λ entries. entries.items ≡ entries_in value.now) }
{
    let count = (value.len() - PACK_END_LEN) / PACK_ENTRY_LEN;
    let mut entries = match Vec::with_capacity(alloc, count) {
        Ok(entries) => entries,
        Err(_) => return Err(Memory),
    };
    'entries: for k in 0..count {
        entries.push_reserved(read_pack_entry(value, k));
    }
    Ok(entries)
}

/// The first entry whose place isn't above the one before.
fn first_fall(entries: &[PackEntry]) -> Option<usize>
    ensures some { IfSome result (IsFirstFall entries.now) }
    ensures none { IfNone result (RiseTo entries.now (length entries.now)) }
{
    'entries: for k in 1..entries.len() {
        if entries[k].at <= entries[k - 1].at {
            return Some(k);
        }
    }
    None
}
