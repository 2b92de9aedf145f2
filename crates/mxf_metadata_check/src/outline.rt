//! The sets among items.

ghost use Rattle.std.specs.Prelude.{◌≡◌, ◌≤◌, ◌<◌, ◌^◌, ◌+◌, ◌++◌, length, take, drop, IfOk, OnOk};
ghost use Rattle.mxf_metadata_reader.specs.inner.Places.{kind_of};
ghost use Rattle.mxf_metadata_check.specs.inner.Held.{AreWithin, HoldsSets, kept};

use klv::{Klv, items_are_unique, read_klv};
use mxf_metadata_reader::kind_of;
use std::alloc::{AllocError, Global};

/// A set, by the places of its key and of its value.
#[derive(Clone, Copy, Debug, PartialEq, Eq)]
pub struct Held {
    /// The place of its key in the file.
    pub at: u64,
    /// The set's kind.
    pub kind: u8,
    /// The place of the first byte of its value, in memory.
    pub value_at: usize,
    /// Bytes of its value.
    pub value_len: usize,
}

/// Keeps an item whose key stands at a place of the file, if it is a set.
fn keep_set(sets: &mut Vec<Held>, klv: &Klv, at: u64) -> Result<(), AllocError>
    ensures { OnOk result (sets.new.items ≡ sets.old.items ++ kept (kind_of klv.now.key) at klv.now) }
{
    match kind_of(&klv.key) {
        None => Ok(()),
        Some(kind) => {
            sets.push(Held {
                at,
                kind,
                value_at: klv.value_at,
                value_len: klv.value_len as usize,
            })?;
            Ok(())
        }
    }
}

/// The sets among the items that stand from a place of the bytes on, which stand in the file from `at` on.
pub(crate) fn sets_of(
    alloc: Global,
    bytes: &[u8],
    start: usize,
    at: u64,
) -> Result<Vec<Held>, AllocError>
    requires place { start ≤ length bytes.now }
    requires fits { at + length bytes.now < 2 ^ 64 }
    ensures sets { IfOk result (λ sets. HoldsSets bytes.now start at sets.items) }
    ensures within { IfOk result (λ sets. AreWithin (length bytes.now) sets.items) }
{
    items_are_unique();
    let mut sets = Vec::new(alloc);
    let mut place = start;
    while place < bytes.len() {
        match read_klv(bytes, place) {
            Ok(klv) => {
                keep_set(&mut sets, &klv, at + place as u64)?;
                place = klv.end;
            }
            Err(_) => return Ok(sets),
        }
    }
    Ok(sets)
}
