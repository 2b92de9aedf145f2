//! Calls of a disk in memory, counted and recorded.

ghost use Rattle.std.specs.Prelude.{◌≡◌, ◌≤◌, ◌<◌, ◌+◌, ◌-◌, ◌^◌, length, false};
ghost use Rattle.std.specs.Result.{is_err};
ghost use Rattle.rec_bytes.specs.Faults.{HasCause, Rose};
ghost use Rattle.take_disk.specs.declared.entry.Deed.TheVariants.{Cut, Fail};
ghost use Rattle.take_disk.specs.Logs.{now};
ghost use Rattle.take_disk.specs.Recorded.{logs_of, bytes_of, is_stopped, fails_next, passes_room, MakesCall, MakesNoCall};
ghost use Rattle.take_disk.specs.Entered.{enters, writes, Fails, SettlesIn};

use crate::area::Area;
use crate::memory_disk::MemoryDisk;
use rec_bytes::Failed;

impl MemoryDisk {
    /// What an area reads.
    pub fn bytes(&self, area: Area) -> &[u8]
        ensures shown { result.now ≡ bytes_of self.now area }
    {
        match area {
            Area::Essence => &self.essence.bytes,
            Area::Commits => &self.commits.bytes,
        }
    }

    // Counts a read or a sync.
    pub(crate) fn note_call(&mut self) -> Result<(), Failed>
        ensures runs { is_err result ≡ fails_next self.old }
        ensures logs { logs_of self.new ≡ logs_of self.old }
        ensures bytes { (area : _) → bytes_of self.new area ≡ bytes_of self.old area }
        ensures call { MakesCall self.old self.new }
        ensures cause { HasCause self.old.faults self.new.faults result }
    {
        let is_failing = self.fails();
        self.number = self.number.saturating_add(1);
        if is_failing {
            self.faults = self.faults.saturating_add(1);
            return Err(Failed);
        }
        Ok(())
    }

    // The moment.
    pub(crate) fn moment(&self) -> u64
        ensures now { result ≡ now (logs_of self.now) }
        ensures small { result ≤ 2 ^ 63 }
    {
        self.essence.entries.len() as u64 + self.commits.entries.len() as u64 + self.tickets
    }

    // Whether the next call fails whatever it does.
    pub(crate) fn fails(&self) -> bool
        ensures { result ≡ fails_next self.now }
    {
        self.fail.contains(&self.number) || self.is_stopped() || self.number >= self.essence.calls
    }

    // Whether a write passes the room of its area, or that of all pieces.
    pub(crate) fn passes(&self, at: u64, count: usize) -> bool
        ensures { result ≡ passes_room self.now at count }
    {
        let pieces = self.essence.pieces.len() + self.commits.pieces.len();
        let room = self.essence.room;
        at > room || count as u64 > room - at || count as u64 > room - pieces as u64
    }

    // Whether the next call is at the stop or beyond.
    fn is_stopped(&self) -> bool
        ensures { result ≡ is_stopped self.now.stop self.now.number }
    {
        match self.stop {
            Some(stop) => self.number >= stop,
            None => false,
        }
    }

    // Writes bytes in an area, as the next call.
    pub(crate) fn note_write(&mut self, area: Area, at: u64, bytes: &[u8])
        requires inside { at ≤ length (bytes_of self.old area) }
        requires runs { fails_next self.old ≡ false }
        requires room { passes_room self.old at (length bytes.now) ≡ false }
        ensures logs { logs_of self.new ≡ writes area at bytes.now (logs_of self.old) }
        ensures call { MakesCall self.old self.new }
        ensures faults { self.new.faults ≡ self.old.faults }
    {
        let moment = self.moment() + 1;
        self.number = self.number.saturating_add(1);
        match area {
            Area::Essence => self.essence.write(moment, at, bytes),
            Area::Commits => self.commits.write(moment, at, bytes),
        }
    }

    // Cuts an area, as the next call.
    pub(crate) fn note_cut(&mut self, area: Area, len: u64)
        requires inside { len ≤ length (bytes_of self.old area) }
        requires runs { fails_next self.old ≡ false }
        ensures logs { logs_of self.new ≡ enters area (Cut len (length (bytes_of self.old area))) (logs_of self.old) }
        ensures call { MakesCall self.old self.new }
        ensures faults { self.new.faults ≡ self.old.faults }
    {
        let moment = self.moment() + 1;
        self.number = self.number.saturating_add(1);
        match area {
            Area::Essence => self.essence.cut(moment, len),
            Area::Commits => self.commits.cut(moment, len),
        }
    }

    // Fails a write or cut between two places, as the next call, and records it where calls are recorded.
    pub(crate) fn note_failure(&mut self, area: Area, from: u64, to: u64)
        ensures logs { Fails area from to (logs_of self.old) (logs_of self.new) }
        ensures recorded { self.old.number < self.old.essence.calls → logs_of self.new ≡ enters area (Fail from to) (logs_of self.old) }
        ensures call { MakesCall self.old self.new }
        ensures faults { (self.old.faults ≤ self.new.faults) × Rose self.old.faults self.new.faults }
    {
        let moment = self.moment() + 1;
        let call = self.number;
        self.number = call.saturating_add(1);
        self.faults = self.faults.saturating_add(1);
        if call >= self.essence.calls {
            return;
        }
        match area {
            Area::Essence => self.essence.fail(moment, from, to),
            Area::Commits => self.commits.fail(moment, from, to),
        }
    }

    // Settles all that was done to an area up to a moment.
    pub(crate) fn note_settle(&mut self, area: Area, upto: u64)
        requires past { upto ≤ now (logs_of self.old) }
        ensures logs { SettlesIn area upto (logs_of self.old) (logs_of self.new) }
        ensures call { MakesNoCall self.old self.new }
        ensures faults { self.new.faults ≡ self.old.faults }
    {
        let moment = self.moment() + 1;
        match area {
            Area::Essence => self.essence.settle(moment, upto),
            Area::Commits => self.commits.settle(moment, upto),
        }
    }
}
