//! A barrier that keeps nothing.

ghost use Rattle.std.specs.Prelude.{◌≡◌, ◌+◌, ◌-◌, ◌^◌, ◌==◌, IfOk, min};
ghost use Rattle.std.specs.List.{list_any};
ghost use Rattle.std.specs.Result.{is_err};
ghost use Rattle.rec_bytes.specs.Faults.{HasCause};

use crate::barrier::Barrier;
use crate::done::Done;
use crate::fault_count::counted;
use crate::ticket::Ticket;
use rec_bytes::Failed;

/// A barrier that keeps nothing. Its runs are numbered from 0, and exactly those fail whose numbers are listed.
#[derive(Drop)]
pub struct MemoryBarrier<'a> {
    /// The runs that fail.
    pub fail: &'a [u64],
    /// The number of the next run, which stands still at its last value.
    pub runs: u64,
    /// How often a run has failed, which stands still at its last value.
    pub faults: u64,
}

impl<'a> MemoryBarrier<'a> {
    /// A barrier that has not run.
    pub fn new(fail: &'a [u64]) -> Self
        ensures fresh { (result.faults ≡ 0) × (result.runs ≡ 0) × (result.fail.now ≡ fail.now) }
    {
        MemoryBarrier {
            fail,
            runs: 0,
            faults: 0,
        }
    }
}

impl<'a> Barrier for MemoryBarrier<'a> {
    ghost fault_count = { λ b. b.faults };

    fn run(&mut self, ticket: Ticket) -> Result<Done, Failed>
        ensures done { IfOk result (λ done. done ≡ ticket) }
        ensures cause { HasCause self.old.faults self.new.faults result }

        ensures refused { is_err result ≡ list_any (λ n. n == self.old.runs) self.old.fail.now }
        ensures counted { (self.new.runs ≡ min (self.old.runs + 1) (2 ^ 64 - 1)) × (self.new.fail.now ≡ self.old.fail.now) }
    {
        let run = self.runs;
        self.runs = run.saturating_add(1);
        if self.fail.contains(&run) {
            self.faults = self.faults.saturating_add(1);
            return Err(Failed);
        }
        Done::of_run(ticket, Ok(()))
    }

    fn faults(&self) -> u64 {
        self.faults
    }
}
