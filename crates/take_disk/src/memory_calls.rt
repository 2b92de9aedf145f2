//! The calls of a disk in memory.

ghost use Rattle.std.specs.Prelude.{◌≡◌, ◌≤◌, ◌<◌, ◌+◌, ◌||◌, Some, true, refl, length, take, drop, OnOk, OnErr};
ghost use Rattle.std.specs.Result.{is_err};
ghost use Rattle.rec_bytes.specs.Faults.{HasCause};
ghost use Rattle.take_disk.specs.declared.area.Area.{Area};
ghost use Rattle.take_disk.specs.declared.entry.Deed.TheVariants.{Fail};
ghost use Rattle.take_disk.specs.Entered.{enters};
ghost use Rattle.take_disk.specs.Held.{InArea, Settled, in_area};
ghost use Rattle.take_disk.specs.Calls.{WritesIn, Writes, CutsIn, Cuts, Grows, Shrinks, Stays};
ghost use Rattle.take_disk.specs.Logs.{LeavesSince, one, now, disk_now};
ghost use Rattle.take_disk.specs.Recorded.{IsMadeBy, PassesTime, MakesCall, logs_of, bytes_of, fails_next, passes_room};
ghost use Rattle.take_disk.specs.laws.LogLaws.{logs_crash, logs_earlier, logs_reads_so, logs_past};
ghost use Rattle.take_disk.specs.laws.MemoryLaws.{essence_current, commits_current, memory_long};

use crate::area::Area;
use crate::disk::TakeDisk;
use crate::done::Done;
use crate::memory_disk::{MAX_TICKETS, MemoryDisk};
use crate::ticket::Ticket;
use rec_bytes::Failed;

impl TakeDisk for MemoryDisk {
    ghost told = { λ d. Some (disk_now (logs_of d)) };

    ghost length_of = { λ d area. length (bytes_of d area) };

    ghost moment = { λ d. one (now (logs_of d)) };

    ghost images_since = { λ d moment image. LeavesSince (logs_of d) moment image };

    ghost made = { λ d ticket. IsMadeBy (logs_of d) ticket };

    ghost fault_count = { λ d. d.faults };

    ghost is_single = { true };

    ghost crash = { λ d disk image told left. logs_crash (logs_of d) disk image (essence_current d) (commits_current d) told left };

    ghost earlier = { λ d a b image before left. logs_earlier (logs_of d) a b image before left };

    ghost reads_so = { λ d disk told. logs_reads_so (logs_of d) disk (essence_current d) (commits_current d) told };

    ghost long = { λ d disk area told. memory_long d disk area told };

    ghost past = { λ d disk area told. logs_past (logs_of d) disk area d.essence_past d.commits_past told };

    ghost alone = { λ d is. refl };

    fn len(&self, area: Area) -> u64 {
        self.bytes(area).len() as u64
    }

    fn read(&mut self, area: Area, at: u64, out: &mut [u8]) -> Result<(), Failed>
        requires inside { at + length out.old ≤ length (bytes_of self.old area) }
        ensures read { OnOk result (out.new ≡ take (length out.old) (drop at ((in_area area (disk_now (logs_of self.old))).reads))) }

        ensures unchanged { Stays (Some (disk_now (logs_of self.old))) (Some (disk_now (logs_of self.new)))
            (λ a. length (bytes_of self.old a)) (λ a. length (bytes_of self.new a)) }
        ensures time { PassesTime (logs_of self.old) (logs_of self.new) }
        ensures cause { HasCause self.old.faults self.new.faults result }

        ensures refused { is_err result ≡ fails_next self.old }
        ensures call { MakesCall self.old self.new }
    {
        self.note_call()?;
        copy_part(self.bytes(area), at, out);
        Ok(())
    }

    fn write(&mut self, area: Area, at: u64, bytes: &[u8]) -> Result<(), Failed>
        requires inside { at ≤ length (bytes_of self.old area) }
        ensures torn { WritesIn area at (length bytes.now) (disk_now (logs_of self.old)) (disk_now (logs_of self.new)) }
        ensures written { OnOk result (Writes area at bytes.now (disk_now (logs_of self.old)) (disk_now (logs_of self.new))) }
        ensures lengths { Grows area (at + length bytes.now) (λ a. length (bytes_of self.old a)) (λ a. length (bytes_of self.new a)) result }

        ensures time { PassesTime (logs_of self.old) (logs_of self.new) }
        ensures cause { HasCause self.old.faults self.new.faults result }

        ensures refused { is_err result ≡ (fails_next self.old || passes_room self.old at (length bytes.now)) }
        ensures unsettled { OnErr result (self.old.number < self.old.essence.calls
            → logs_of self.new ≡ enters area (Fail at (at + length bytes.now)) (logs_of self.old)) }
        ensures call { MakesCall self.old self.new }
    {
        // Neither an area nor a piece has 2^63 bytes.
        let _len = self.bytes(area).len();
        let end = at + bytes.len() as u64;
        if self.fails() || self.passes(at, bytes.len()) {
            self.note_failure(area, at, end);
            return Err(Failed);
        }
        self.note_write(area, at, bytes);
        Ok(())
    }

    fn cut(&mut self, area: Area, len: u64) -> Result<(), Failed>
        requires inside { len ≤ length (bytes_of self.old area) }
        ensures torn { CutsIn area len (disk_now (logs_of self.old)) (disk_now (logs_of self.new)) }
        ensures cut { OnOk result (Cuts area len (disk_now (logs_of self.old)) (disk_now (logs_of self.new))) }
        ensures lengths { Shrinks area len (λ a. length (bytes_of self.old a)) (λ a. length (bytes_of self.new a)) result }

        ensures time { PassesTime (logs_of self.old) (logs_of self.new) }
        ensures cause { HasCause self.old.faults self.new.faults result }

        ensures refused { is_err result ≡ fails_next self.old }
        ensures unsettled { OnErr result (self.old.number < self.old.essence.calls
            → logs_of self.new ≡ enters area (Fail len (length (bytes_of self.old area))) (logs_of self.old)) }
        ensures call { MakesCall self.old self.new }
    {
        if self.fails() {
            let end = self.len(area);
            self.note_failure(area, len, end);
            return Err(Failed);
        }
        self.note_cut(area, len);
        Ok(())
    }

    fn sync(&mut self, area: Area) -> Result<(), Failed>
        ensures synced { OnOk result (InArea area (Settled (one (now (logs_of self.old)))) (disk_now (logs_of self.old)) (disk_now (logs_of self.new))) }
        ensures lengths { (a : Area) → length (bytes_of self.new a) ≡ length (bytes_of self.old a) }

        ensures unchanged { OnErr result (Some (disk_now (logs_of self.new)) ≡ Some (disk_now (logs_of self.old))) }
        ensures time { PassesTime (logs_of self.old) (logs_of self.new) }
        ensures cause { HasCause self.old.faults self.new.faults result }

        ensures refused { is_err result ≡ fails_next self.old }
        ensures call { MakesCall self.old self.new }
    {
        self.note_call()?;
        let moment = self.moment();
        self.note_settle(area, moment);
        Ok(())
    }

    fn ticket(&mut self, area: Area) -> Ticket {
        if self.tickets >= MAX_TICKETS {
            return Ticket {
                area,
                moment: u64::MAX,
                twin: None,
            };
        }
        self.tickets += 1;
        Ticket {
            area,
            moment: self.moment(),
            twin: None,
        }
    }

    fn settle(&mut self, done: Done) {
        let Ticket { area, moment, .. } = *done.ticket();
        self.note_settle(area, moment);
    }

    fn faults(&self) -> u64 {
        self.faults
    }
}

// Copies the bytes from a place on that fill `out`.
fn copy_part(bytes: &[u8], at: u64, out: &mut [u8])
    requires inside { at + length out.old ≤ length bytes.now }
    ensures { out.new ≡ take (length out.old) (drop at bytes.now) }
{
    let _len = bytes.len();
    let from = at as usize;
    out.copy_from_slice(&bytes[from..from + out.len()]);
}
