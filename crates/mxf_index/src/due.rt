//! The items that are due in an index table segment, one by one.

ghost use Rattle.std.specs.Prelude.{◌≡◌, ◌≤◌, ◌+◌, ◌*◌, ◌==◌, length, None, Some, IfNone, IfSome, IfOk, IfErr};
ghost use Rattle.std.specs.List.{list_all, range_with_len};
ghost use Rattle.local_sets.specs.declared.set.TheConstants.{ITEM_HEAD_LEN};
ghost use Rattle.local_sets.specs.declared.value.TheConstants.{BATCH_HEAD_LEN};
ghost use Rattle.mxf_index.specs.Dues.{due, fault_of, first_fault, is_due, is_frame_entry, item_at, may_be, opening_dues, size_of};
ghost use Rattle.mxf_index.specs.inner.Items.{dues_len, place_of};
ghost use Rattle.mxf_index.specs.declared.tags.TheConstants.{ENTRY_SIZE};

use crate::array::{are_entries, is_one_delta};
use crate::fault::SegmentFault;
use crate::tags::*;
use byteorder::{BigEndian, ByteOrder};
use local_sets::{BATCH_HEAD_LEN, ITEM_HEAD_LEN};
use mxf_names::{BODY_SID, ESSENCE_STREAM, INDEX_SID, INDEX_STREAM, INSTANCE_ID};

/// The first frame's place in a segment's value.
pub const FIRST_AT: usize = ITEM_HEAD_LEN + 16 + ITEM_HEAD_LEN + 8 + ITEM_HEAD_LEN;
/// The place of the number of frames.
pub const COUNT_AT: usize = FIRST_AT + 8 + ITEM_HEAD_LEN;
/// The place of the first entry.
pub const ENTRIES_AT: usize = COUNT_AT
    + (8 + ITEM_HEAD_LEN + 4 + ITEM_HEAD_LEN + 4 + ITEM_HEAD_LEN + 4 + ITEM_HEAD_LEN + 1)
    + (ITEM_HEAD_LEN + BATCH_HEAD_LEN + DELTA_SIZE as usize)
    + (ITEM_HEAD_LEN + BATCH_HEAD_LEN);
/// The place of the stream offset in an entry, behind temporal offset, key frame offset and flags.
pub const STREAM_AT: usize = 3;

/// What an item of a segment holds.
#[derive(Clone, Copy, Debug, PartialEq, Eq)]
pub enum Holds {
    /// So many bytes, whatever they are.
    Bytes(u16),
    /// A frame's number: 8 bytes, and below 2^63.
    Position,
    /// This number in one byte.
    Byte(u8),
    /// This number in four bytes.
    Word(u32),
    /// An array of one delta entry, all of whose bytes are 0.
    OneDelta,
    /// An array of so many index entries, each of a frame that needs no other.
    Entries(u64),
}

/// An item that is due in a segment.
#[derive(Clone, Copy, Debug, PartialEq, Eq)]
pub struct Due {
    /// The local tag.
    pub tag: u16,
    /// What the item holds.
    pub holds: Holds,
}

impl Due {
    /// The item of a tag and of what it holds.
    pub fn new(tag: u16, holds: Holds) -> Due
        ensures { result ≡ due tag holds }
    {
        Due { tag, holds }
    }
}

/// The items that are due up to the entries.
#[tactic(auto, unfolding(crate::specs::Dues::opening_dues))]
pub fn opening_dues() -> [Due; 9]
    ensures { result ≡ opening_dues }
{
    [
        Due::new(INSTANCE_ID, Holds::Bytes(16)),
        Due::new(INDEX_EDIT_RATE, Holds::Bytes(8)),
        Due::new(INDEX_START_POSITION, Holds::Position),
        Due::new(INDEX_DURATION, Holds::Bytes(8)),
        Due::new(EDIT_UNIT_BYTE_COUNT, Holds::Word(0)),
        Due::new(INDEX_SID, Holds::Word(INDEX_STREAM)),
        Due::new(BODY_SID, Holds::Word(ESSENCE_STREAM)),
        Due::new(SLICE_COUNT, Holds::Byte(0)),
        Due::new(DELTA_ENTRIES, Holds::OneDelta),
    ]
}

/// Reads items that are due one after the other from the front, and answers the place behind them.
pub fn read_dues(value: &[u8], dues: &[Due]) -> Result<usize, SegmentFault>
    ensures read { IfOk result (λ end. first_fault value.now 0 dues.now ≡ None) }
    ensures behind { IfOk result (λ end. end ≡ dues_len dues.now) }
    ensures within { IfOk result (λ end. end ≤ length value.now) }

    ensures near { IfErr result (λ fault. place_of fault ≤ length value.now) }
    ensures refused { IfErr result (λ fault. first_fault value.now 0 dues.now ≡ Some fault) }
{
    let mut end = 0;
    'dues: for due in dues {
        end = read_due(value, end, due)?;
    }
    Ok(end)
}

/// Reads the item that is due at a place, and answers the place behind it.
pub fn read_due(value: &[u8], at: usize, due: &Due) -> Result<usize, SegmentFault>
    requires { at ≤ length value.now }
    ensures read { IfOk result (λ end. fault_of at due.now (item_at value.now at) ≡ None) }
    ensures behind { IfOk result (λ end. end ≡ at + ITEM_HEAD_LEN + size_of due.now.holds) }
    ensures within { IfOk result (λ end. end ≤ length value.now) }

    ensures near { IfErr result (λ fault. place_of fault ≤ length value.now) }
    ensures refused { IfErr result (λ fault. fault_of at due.now (item_at value.now at) ≡ Some fault) }
{
    let Some((tag, held)) = item_at(value, at) else {
        return Err(SegmentFault::SegmentCut {
            at: at as u64,
            tag: u64::from(due.tag),
        });
    };
    if !is_due(due, tag, held) {
        return Err(SegmentFault::SegmentField {
            at: at as u64,
            tag: u64::from(due.tag),
        });
    }
    Ok(at + ITEM_HEAD_LEN + held.len())
}

/// The item at a place, by its tag and its value; none where the value of the set ends inside it.
#[tactic(auto, unfolding(crate::specs::Dues::item_at))]
fn item_at(value: &[u8], at: usize) -> Option<(u16, &[u8])>
    requires { at ≤ length value.now }
    ensures stands { IfSome result (λ item. item_at value.now at ≡ Some (record { tag = item.0; value = item.1.now })) }
    ensures within { IfSome result (λ item. at + ITEM_HEAD_LEN + length item.1.now ≤ length value.now) }
    ensures cut { IfNone result (item_at value.now at ≡ None) }
{
    if value.len() - at < ITEM_HEAD_LEN {
        return None;
    }
    let size = usize::from(BigEndian::read_u16(&value[at + 2..]));
    let held_at = at + ITEM_HEAD_LEN;
    if value.len() - held_at < size {
        return None;
    }
    Some((
        BigEndian::read_u16(&value[at..]),
        &value[held_at..held_at + size],
    ))
}

/// Whether an item is the one that is due.
fn is_due(due: &Due, tag: u16, held: &[u8]) -> bool
    ensures { result ≡ is_due due.now (record { tag = tag; value = held.now }) }
{
    tag == due.tag && is_sized(due.holds, held.len()) && may_be(due.holds, held)
}

/// Whether a value has the size of what an item holds.
#[tactic(auto, unfolding(crate::specs::Dues::size_of))]
fn is_sized(holds: Holds, len: usize) -> bool
    ensures { result ≡ (len == size_of holds) }
{
    match holds {
        Holds::Bytes(size) => len == usize::from(size),
        Holds::Position => len == 8,
        Holds::Byte(_) => len == 1,
        Holds::Word(_) => len == 4,
        Holds::OneDelta => len == BATCH_HEAD_LEN + DELTA_SIZE as usize,
        Holds::Entries(count) => is_entries_len(count, len),
    }
}

/// Whether so many entries have so many bytes with the head of their array.
fn is_entries_len(count: u64, len: usize) -> bool
    ensures { result ≡ (len == BATCH_HEAD_LEN + ENTRY_SIZE * count) }
{
    let entry_len = ENTRY_SIZE as u64;
    len >= BATCH_HEAD_LEN
        && (len - BATCH_HEAD_LEN) as u64 % entry_len == 0
        && (len - BATCH_HEAD_LEN) as u64 / entry_len == count
}

/// Whether a value of the right size may be that of an item that holds this.
#[tactic(auto, unfolding(crate::specs::Dues::may_be, crate::specs::Dues::size_of))]
fn may_be(holds: Holds, held: &[u8]) -> bool
    requires { length held.now ≡ size_of holds }
    ensures { result ≡ may_be holds held.now }
{
    match holds {
        Holds::Bytes(_) => true,
        Holds::Position => BigEndian::read_u64(held) < 1 << 63,
        Holds::Byte(number) => held[0] == number,
        Holds::Word(number) => BigEndian::read_u32(held) == number,
        Holds::OneDelta => is_one_delta(held),
        Holds::Entries(count) => are_entries(held, count),
    }
}
