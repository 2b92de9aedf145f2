//! The note of a mark, 17 bytes.

ghost use Rattle.std.specs.Prelude.{◌≡◌, ◌≢◌, ◌<◌, ◌^◌, ◌∷◌, ◌++◌, [], true, false, List, ℕ, None, IfSome};
ghost use Rattle.commit_sidecar.specs.Notes.{note_of, Fits, IsAfter};
ghost use Rattle.commit_sidecar.specs.inner.Begins.{BeginsNote};
ghost use Rattle.take_core.specs.declared.mark.Mark.{Mark};

use byteorder::{BigEndian, ByteOrder};
use rec_bytes::{put_bytes, put_u64};
use take_core::Mark;

/// Bytes of a note.
pub const NOTE_LEN: usize = 17;

/// Bytes from one gate to the next: a gate and a note.
pub const RECORD_LEN: usize = 1 + NOTE_LEN;

/// Place of the length in a note.
pub const LENGTH_AT: usize = 8;

/// Place of the byte in a note that says whether the mark is closed.
pub const CLOSED_AT: usize = 16;

/// Writes the note of a mark, and the next gate, which isn't open.
pub fn put_note(mark: &Mark, out: &mut [u8; RECORD_LEN])
    ensures written { out.new ≡ note_of mark.now ++ 0 ∷ [] }
    ensures fits { Fits mark.now }
{
    numbers(mark.count, mark.length);
    let closed = if mark.closed { 1 } else { 0 };
    put_u64(out, 0, mark.count);
    put_u64(out, LENGTH_AT, mark.length);
    put_bytes(out, CLOSED_AT, &[closed, 0]);
}

/// Shows the ranges of a mark's numbers. It does nothing when it runs.
fn numbers(count: u64, length: u64)
    ensures count { count < 2 ^ 64 }
    ensures length { length < 2 ^ 64 }
{}

/// The mark whose note begins the bytes.
pub(crate) fn read_note(bytes: &[u8]) -> Option<Mark>
    ensures there { IfSome result (BeginsNote bytes.now) }
    ensures none { result ≡ None → (mark : Mark) (more : List ℕ) → bytes.now ≢ note_of mark ++ more }
{
    if bytes.len() < NOTE_LEN || bytes[CLOSED_AT] > 1 {
        return None;
    }
    Some(Mark {
        count: BigEndian::read_u64(bytes),
        length: BigEndian::read_u64(&bytes[LENGTH_AT..]),
        closed: bytes[CLOSED_AT] == 1,
    })
}

/// Whether a mark may stand behind the last one.
pub(crate) fn is_after(last: Option<Mark>, next: Mark) -> bool
    ensures after { result ≡ true → IsAfter last next }
    ensures not_after { result ≡ false → IsAfter last next → ⊥ }
{
    match last {
        None => true,
        Some(mark) => !mark.closed && mark.count <= next.count && mark.length <= next.length,
    }
}
