//! What a crash leaves of a disk in memory.

ghost use Rattle.std.specs.Prelude.{◌≡◌, [], None, IfOk};
ghost use Rattle.take_disk.specs.Held.{Leaves};
ghost use Rattle.take_disk.specs.Logs.{disk_now};
ghost use Rattle.take_disk.specs.Picks.{IsPicked};
ghost use Rattle.take_disk.specs.Entered.{log_of};
ghost use Rattle.take_disk.specs.Recorded.{logs_of};

use crate::memory_disk::MemoryDisk;
use crate::pick::Pick;
use rec_bytes::Memory;
use std::alloc::Global;

impl MemoryDisk {
    /// A disk that is one image of this one, synced, with the same room for bytes and calls, and with no call that fails.
    pub fn image(&self, alloc: Global, pick: Pick) -> Result<MemoryDisk, Memory>
        ensures left { IfOk result (λ disk. Leaves (disk_now (logs_of self.now))
            (record { essence = disk.essence.bytes.items; commits = disk.commits.bytes.items })) }
        ensures essence { IfOk result (λ disk. IsPicked pick (log_of self.now.essence) disk.essence.bytes.items) }
        ensures commits { IfOk result (λ disk. IsPicked pick (log_of self.now.commits) disk.commits.bytes.items) }
        ensures synced { IfOk result (λ disk. (disk.essence.entries.items ≡ []) × (disk.commits.entries.items ≡ [])) }
        ensures fresh { IfOk result (λ disk. (disk.essence.room ≡ self.now.essence.room) × (disk.essence.calls ≡ self.now.essence.calls)
            × (disk.fail.items ≡ []) × (disk.stop ≡ None) × (disk.number ≡ 0) × (disk.faults ≡ 0)) }
    {
        let essence = self.essence.image(alloc, pick)?;
        let commits = self.commits.image(alloc, pick)?;
        let (room, calls) = (self.essence.room, self.essence.calls);
        MemoryDisk::new(alloc, &essence, &commits, room, calls, &[], None)
    }
}
