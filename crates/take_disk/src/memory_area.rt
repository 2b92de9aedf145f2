//! An area of a disk in memory.

ghost use Rattle.std.specs.Prelude.{◌≡◌, ◌≤◌, ◌+◌, ◌*◌, ◌^◌, [], true, length, vec_len, vec_capacity, IfOk};
ghost use Rattle.take_disk.specs.Logs.{replay, fresh};
ghost use Rattle.take_disk.specs.inner.Counts.{IsSettledSo, changes, unsettled, pieces_end, is_sound};

use crate::entry::Entry;
use rec_bytes::Memory;
use std::alloc::Global;

/// An area of a disk in memory, with the record of what was done to it.
#[derive(Drop)]
pub struct MemoryArea {
    /// What it reads.
    pub bytes: Vec<u8>,
    /// What it read at first.
    pub start: Vec<u8>,
    /// What was done.
    pub entries: Vec<Entry>,
    /// The bytes written, one piece after the other.
    pub pieces: Vec<u8>,
    /// The moment up to which all is kept.
    pub synced: u64,
    /// Most bytes of the area that are written, and most bytes of pieces.
    pub room: u64,
    /// Most writes and cuts that are recorded.
    pub calls: u64,
    ghost reads: { (replay pieces.items entries.items (fresh start.items)).reads ≡ bytes.items },
    ghost settled: { IsSettledSo (replay pieces.items entries.items (fresh start.items)) synced },
    ghost sound: { is_sound pieces.items 0 (fresh start.items) entries.items ≡ true },
    ghost pieced: { pieces_end entries.items ≤ length pieces.items },
    ghost few: { vec_len entries + unsettled synced entries.items ≤ 2 * changes entries.items },
    ghost recorded: { changes entries.items ≤ calls },
    ghost entry_room: { 2 * calls ≤ vec_capacity entries },
    ghost piece_room: { room ≤ vec_capacity pieces },
    ghost byte_room: { room ≤ vec_capacity bytes },
}

impl MemoryArea {
    // An area with these bytes, synced, and room for so many bytes and calls.
    pub(crate) fn new(
        alloc: Global,
        bytes: &[u8],
        room: u64,
        calls: u64,
    ) -> Result<MemoryArea, Memory>
        requires few { calls ≤ 2 ^ 60 }
        ensures start { IfOk result (λ area. (area.start.items ≡ bytes.now) × (area.bytes.items ≡ bytes.now)) }
        ensures empty { IfOk result (λ area. (area.entries.items ≡ []) × (area.pieces.items ≡ []) × (area.synced ≡ 0)) }
        ensures limits { IfOk result (λ area. (area.room ≡ room) × (area.calls ≡ calls)) }
    {
        let mut now = Vec::with_capacity(alloc, room as usize)?;
        now.extend_from_slice(bytes)?;
        Ok(MemoryArea {
            bytes: now,
            start: bytes.to_vec(alloc)?,
            entries: Vec::with_capacity(alloc, calls as usize * 2)?,
            pieces: Vec::with_capacity(alloc, room as usize)?,
            synced: 0,
            room,
            calls,
        })
    }
}
