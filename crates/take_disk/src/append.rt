//! Writes into vectors that have room for them.

ghost use Rattle.std.specs.Prelude.{◌≡◌, ◌≤◌, ◌+◌, ◌++◌, [], ◌∷◌, length, vec_len, vec_capacity, max};
ghost use Rattle.rec_bytes.specs.Places.{with_bytes};

use crate::entry::Entry;
use rec_bytes::put_bytes;

// Appends bytes for which there is room, so that it can't fail.
pub(crate) fn append(bytes: &mut Vec<u8>, more: &[u8])
    requires room { vec_len bytes.old + length more.now ≤ vec_capacity bytes.old }
    ensures items { bytes.new.items ≡ bytes.old.items ++ more.now }
    ensures capacity { vec_capacity bytes.old ≤ vec_capacity bytes.new }
{
    let _appended = bytes.extend_from_slice(more);
}

// Puts bytes at a place up to the end, for which there is room.
pub(crate) fn paste(bytes: &mut Vec<u8>, at: usize, piece: &[u8])
    requires inside { at ≤ vec_len bytes.old }
    requires room { at + length piece.now ≤ vec_capacity bytes.old }
    ensures items { bytes.new.items ≡ with_bytes bytes.old.items at piece.now }
    ensures capacity { vec_capacity bytes.old ≤ vec_capacity bytes.new }
{
    let inside = piece.len().min(bytes.len() - at);
    put_bytes(bytes.as_mut_slice(), at, &piece[..inside]);
    append(bytes, &piece[inside..]);
}

// Appends an entry for which there is room.
pub(crate) fn enter(entries: &mut Vec<Entry>, entry: Entry)
    requires room { vec_len entries.old + 1 ≤ vec_capacity entries.old }
    ensures items { entries.new.items ≡ entries.old.items ++ entry ∷ [] }
    ensures len { vec_len entries.new ≡ vec_len entries.old + 1 }
    ensures capacity { vec_capacity entries.old ≤ vec_capacity entries.new }
{
    entries.push_reserved(entry);
}
