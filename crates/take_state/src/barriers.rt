//! The barriers that a commit waits for.

ghost use Rattle.std.specs.Prelude.{◌≡◌, ◌≤◌, ◌∷◌, ◌++◌, Some, None, []};
ghost use Rattle.take_core.specs.declared.entry.Entry.TheVariants.{Stopped};
ghost use Rattle.take_core.specs.declared.event.Event.TheVariants.{Stop};
ghost use Rattle.take_core.specs.declared.snapshot.Phase.TheVariants.{Growing};
ghost use Rattle.take_disk.specs.Tickets.{IsNamed};
ghost use Rattle.commit_phases.specs.Phases.{IsOut, settled, waits_for};
ghost use Rattle.take_state.specs.Crashes.{CrashesSafely};
ghost use Rattle.take_state.specs.Events.{IsEvent, IsNoEvent};
ghost use Rattle.take_state.specs.Seen.{phase_of};

use crate::state::TakeState;
use crate::units::TakeUnits;
use commit_phases::{area_of, next_phase};
use take_core::Entry;
use take_disk::{Done, TakeDisk, Ticket};
use take_layout::TakeLayout;

impl<U: TakeUnits, L: TakeLayout, D: TakeDisk + Drop> TakeState<U, L, D> {
    /// A ticket for the barrier that the commit waits for. It takes the place of one that was made before.
    pub fn ticket(&mut self) -> Ticket
        requires growing { phase_of self.old ≡ Growing }
        requires out { IsOut self.old.commit }
        ensures area { result.area ≡ waits_for self.old.commit }
        ensures stands { self.new ≡ record self.old { disk = self.new.disk; out = Some result } }
        ensures no_event { IsNoEvent self.old self.new }
        ensures crash { CrashesSafely L.TakeLayout D.TakeDisk (U.units self.old.config) self.old self.new }
        ensures cause { D.fault_count self.new.disk ≡ D.fault_count self.old.disk }
    {
        let ticket = self.disk.ticket(area_of(self.commit));
        self.out = Some(ticket);
        ticket
    }

    /// The barrier has run for the ticket, and the commit goes on. What was published after the ticket stays unsettled.
    pub fn settle(&mut self, done: Done)
        requires growing { phase_of self.old ≡ Growing }
        requires out { self.old.out ≡ Some done }
        requires named { IsNamed done }
        ensures stands { self.new ≡ record self.old { disk = self.new.disk; commit = settled self.old.commit; out = None } }
        ensures no_event { IsNoEvent self.old self.new }
        ensures crash { CrashesSafely L.TakeLayout D.TakeDisk (U.units self.old.config) self.old self.new }
        ensures cause { D.fault_count self.new.disk ≡ D.fault_count self.old.disk }
    {
        self.disk.settle(done);
        self.commit = next_phase(self.commit);
        self.out = None;
    }

    /// The barrier has failed, whose count of faults is this: the take is stopped.
    pub fn fail(&mut self, faults: u64)
        requires growing { phase_of self.old ≡ Growing }
        requires out { IsOut self.old.commit }
        requires some { 1 ≤ faults }
        ensures stands { self.new ≡ record self.old { history = self.old.history ++ Stopped faults ∷ [] } }
        ensures event { IsEvent (Stop faults) self.old self.new }
        ensures crash { CrashesSafely L.TakeLayout D.TakeDisk (U.units self.old.config) self.old self.new }
    {
        self.history.add(Entry::Stopped { faults });
        self.stop = Some(faults);
    }
}
