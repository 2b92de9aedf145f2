//! A disk in memory.

ghost use Rattle.std.specs.Prelude.{◌≡◌, ◌≤◌, ◌+◌, ◌^◌, [], length, None, IfOk};
ghost use Rattle.take_disk.specs.inner.Counts.{changes, latest};

use crate::memory_area::MemoryArea;
use rec_bytes::Memory;
use std::alloc::Global;

/// Most tickets of a disk in memory that name a moment.
pub const MAX_TICKETS: u64 = 1 << 62;

/// Most calls that a disk in memory records.
pub const MAX_CALLS: u64 = 1 << 60;

/// A disk in memory, which tells everything. It keeps nothing but what was settled: what was written or cut since is lost or
/// torn in its images.
///
/// Its calls of `read`, `write`, `cut` and `sync` are numbered from 0, and exactly those fail whose numbers are listed, are at
/// the stop or beyond, or beyond the calls that it records, or that pass its room. A failed call changes no byte, and what it
/// would have changed is unsettled where it is recorded.
#[derive(Drop)]
pub struct MemoryDisk {
    /// The essence.
    pub essence: MemoryArea,
    /// The commits.
    pub commits: MemoryArea,
    /// The calls that fail.
    pub fail: Vec<u64>,
    /// The first of the calls that all fail.
    pub stop: Option<u64>,
    /// The number of the next call, which stands still at its last value.
    pub number: u64,
    /// The tickets that were made.
    pub tickets: u64,
    /// How often a call has failed, which stands still at its last value.
    pub faults: u64,
    ghost same_room: { commits.room ≡ essence.room },
    ghost same_calls: { commits.calls ≡ essence.calls },
    ghost few_calls: { essence.calls ≤ 2 ^ 60 },
    ghost few_tickets: { tickets ≤ 2 ^ 62 },
    ghost piece_room: { length essence.pieces.items + length commits.pieces.items ≤ essence.room },
    ghost recorded: { changes essence.entries.items + changes commits.entries.items ≤ number },
    ghost essence_past: { latest essence.entries.items ≤ length essence.entries.items + length commits.entries.items + tickets },
    ghost commits_past: { latest commits.entries.items ≤ length essence.entries.items + length commits.entries.items + tickets },
    ghost essence_synced: { essence.synced ≤ length essence.entries.items + length commits.entries.items + tickets },
    ghost commits_synced: { commits.synced ≤ length essence.entries.items + length commits.entries.items + tickets },
}

impl MemoryDisk {
    /// A disk with these areas, synced, with room for so many bytes in each and in all pieces that are written, and for the
    /// record of so many calls.
    pub fn new(
        alloc: Global,
        essence: &[u8],
        commits: &[u8],
        room: u64,
        calls: u64,
        fail: &[u64],
        stop: Option<u64>,
    ) -> Result<MemoryDisk, Memory>
        ensures areas { IfOk result (λ disk. (disk.essence.bytes.items ≡ essence.now) × (disk.commits.bytes.items ≡ commits.now)) }
        ensures starts { IfOk result (λ disk. (disk.essence.start.items ≡ essence.now) × (disk.commits.start.items ≡ commits.now)) }
        ensures essence { IfOk result (λ disk. (disk.essence.entries.items ≡ []) × (disk.essence.synced ≡ 0)
            × (disk.essence.room ≡ room) × (disk.essence.calls ≡ calls)) }
        ensures commits { IfOk result (λ disk. (disk.commits.entries.items ≡ []) × (disk.commits.synced ≡ 0)) }
        ensures fresh { IfOk result (λ disk. (disk.fail.items ≡ fail.now) × (disk.stop ≡ stop) × (disk.number ≡ 0)
            × (disk.tickets ≡ 0) × (disk.faults ≡ 0)) }
    {
        if calls > MAX_CALLS {
            return Err(Memory);
        }
        Ok(MemoryDisk {
            essence: MemoryArea::new(alloc, essence, room, calls)?,
            commits: MemoryArea::new(alloc, commits, room, calls)?,
            fail: fail.to_vec(alloc)?,
            stop,
            number: 0,
            tickets: 0,
            faults: 0,
        })
    }
}
