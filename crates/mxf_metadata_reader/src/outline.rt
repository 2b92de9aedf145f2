//! The sets among items.

ghost use Rattle.std.specs.Prelude.{◌≡◌, ◌≤◌, ℕ, ◌++◌, length, IfOk, OnOk};
ghost use Rattle.mxf_metadata_reader.specs.inner.Places.{IsOutline, kept, kind_of};

use klv::{Klv, read_klv};
use mxf_names::SET_KEY_START;
use std::alloc::{AllocError, Global};

/// A set, by the place of its value.
#[derive(Clone, Copy, Debug, PartialEq, Eq)]
pub struct SetPlace {
    /// The set's kind.
    pub kind: u8,
    /// The place of the first byte of its value.
    pub value_at: usize,
    /// Bytes of its value.
    pub value_len: usize,
}

/// The sets among items, and where the items end.
#[derive(Drop)]
pub(crate) struct Outline {
    /// The sets.
    pub sets: Vec<SetPlace>,
    /// The place behind the last item.
    pub stop: usize,
}

/// The kind of a set by its key, none where it is the key of no set.
pub fn kind_of(key: &[u8; 16]) -> Option<u8>
    ensures { result ≡ kind_of key.now }
{
    if key[..14] == SET_KEY_START[..] && key[15] == 0 {
        Some(key[14])
    } else {
        None
    }
}

/// Keeps the place of an item, if it is a set.
fn keep_set(sets: &mut Vec<SetPlace>, klv: &Klv) -> Result<(), AllocError>
    ensures { OnOk result (sets.new.items ≡ sets.old.items ++ kept (kind_of klv.now.key) klv.now) }
{
    match kind_of(&klv.key) {
        None => Ok(()),
        Some(kind) => {
            sets.push(SetPlace {
                kind,
                value_at: klv.value_at,
                value_len: klv.value_len as usize,
            })?;
            Ok(())
        }
    }
}

/// The sets among the items that stand from a place on, up to the first place where no item stands.
pub(crate) fn outline_of(alloc: Global, bytes: &[u8], start: usize) -> Result<Outline, AllocError>
    requires { start ≤ length bytes.now }
    ensures { IfOk result (IsOutline bytes.now start) }
{
    let mut sets = Vec::new(alloc);
    let mut at = start;
    while at < bytes.len() {
        match read_klv(bytes, at) {
            Ok(klv) => {
                keep_set(&mut sets, &klv)?;
                at = klv.end;
            }
            Err(_) => return Ok(Outline { sets, stop: at }),
        }
    }
    Ok(Outline { sets, stop: at })
}
