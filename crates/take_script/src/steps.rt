//! The steps of a commit.

ghost use Rattle.std.specs.Prelude.{◌≡◌, ◌≢◌, ◌↔◌, ◌≤◌, IfOk, IfErr, IsTrue};
ghost use Rattle.take_core.specs.History.{latest};
ghost use Rattle.take_core.specs.declared.commit_phase.CommitPhase.TheVariants.{Idle, Opened};
ghost use Rattle.take_core.specs.declared.snapshot.Phase.TheVariants.{Growing};
ghost use Rattle.take_disk.specs.Tickets.{IsNamed};
ghost use Rattle.commit_phases.specs.Phases.{IsOut};
ghost use Rattle.take_state.specs.Crashes.{CrashesSafely};
ghost use Rattle.take_state.specs.Seen.{published, acked, phase_of};
ghost use Rattle.take_script.specs.declared.step.Step.{Step};
ghost use Rattle.take_script.specs.Steps.{IsStep, IsStopped, HasStepCause, IsCommitted, IsOver, MayEnd};

use crate::step::{Step, StepFault};
use take_core::{CommitPhase, Mark, Phase, Snapshot};
use take_disk::{Barrier, TakeDisk, Ticket};
use take_layout::TakeLayout;
use take_state::{TakeState, TakeUnits};

/// Takes the step that the take's commit asks for. Where none is on its way, a commit begins of the frames that aren't durable.
pub fn commit_step<U: TakeUnits, L: TakeLayout, D: TakeDisk + Drop, B: Barrier>(
    take: &mut TakeState<U, L, D>,
    barrier: &mut B,
) -> Result<Step, StepFault>
    ensures stepped { IfOk result (IsStep take.old take.new) }
    ensures rests { IfOk result (λ step. step ≡ Step.Nothing → IsCommitted take.old) }
    ensures kept { (take.new.config ≡ take.old.config) × (published take.new ≡ published take.old) }

    ensures stopped { IfErr result (IsStopped take.old take.new) }
    ensures crash { CrashesSafely L.TakeLayout D.TakeDisk (U.units take.old.config) take.old take.new }
    ensures cause { HasStepCause (D.fault_count take.old.disk) (D.fault_count take.new.disk)
        (B.fault_count barrier.old) (B.fault_count barrier.new) result }
{
    let seen = take.snapshot();
    if seen.phase != Phase::Growing {
        stays(take);
        return Ok(Step::Nothing);
    }
    match take.commit_phase() {
        CommitPhase::Idle => Ok(begin(take, seen)),
        CommitPhase::MarkOut(_) | CommitPhase::NoteOut(_) | CommitPhase::GateOut(_) => {
            settle(take, barrier)
        }
        CommitPhase::Marked(_) => {
            take.note_record().map_err(StepFault::Disk)?;
            Ok(Step::NoteOut)
        }
        CommitPhase::Noted(_) => {
            take.open_gate().map_err(StepFault::Disk)?;
            Ok(Step::GateOut)
        }
        CommitPhase::Opened(mark) => Ok(end(take, mark)),
    }
}

/// Takes the step that brings the take towards its end: where all frames are durable, the tail is written; else it is that of
/// `commit_step`.
pub fn tail_step<U: TakeUnits, L: TakeLayout, D: TakeDisk + Drop, B: Barrier>(
    take: &mut TakeState<U, L, D>,
    barrier: &mut B,
) -> Result<Step, StepFault>
    ensures stepped { IfOk result (IsStep take.old take.new) }
    ensures rests { IfOk result (λ step. step ≡ Step.Nothing → IsOver take.old) }
    ensures kept { (take.new.config ≡ take.old.config) × (published take.new ≡ published take.old) }

    ensures stopped { IfErr result (IsStopped take.old take.new) }
    ensures crash { CrashesSafely L.TakeLayout D.TakeDisk (U.units take.old.config) take.old take.new }
    ensures cause { HasStepCause (D.fault_count take.old.disk) (D.fault_count take.new.disk)
        (B.fault_count barrier.old) (B.fault_count barrier.new) result }
{
    if may_end(take) {
        let mark = take.write_tail().map_err(StepFault::Disk)?;
        return Ok(Step::TailOut(mark));
    }
    commit_step(take, barrier)
}

/// Begins a commit, where frames aren't durable.
fn begin<U: TakeUnits, L: TakeLayout, D: TakeDisk + Drop>(
    take: &mut TakeState<U, L, D>,
    seen: Snapshot,
) -> Step
    requires growing { phase_of take.old ≡ Growing }
    requires idle { take.old.commit ≡ Idle }
    requires seen { seen ≡ latest take.old.history }
    ensures stepped { IsStep take.old take.new result }
    ensures rests { result ≡ Step.Nothing → acked take.old ≡ published take.old }
    ensures kept { (take.new.config ≡ take.old.config) × (published take.new ≡ published take.old) }
    ensures crash { CrashesSafely L.TakeLayout D.TakeDisk (U.units take.old.config) take.old take.new }
    ensures cause { D.fault_count take.new.disk ≡ D.fault_count take.old.disk }
{
    stays(take);
    if seen.acked >= seen.published {
        return Step::Nothing;
    }
    Step::MarkOut(take.begin_commit())
}

/// Makes a ticket for the barrier that the commit waits for; where one is out, runs the barrier for it.
fn settle<U: TakeUnits, L: TakeLayout, D: TakeDisk + Drop, B: Barrier>(
    take: &mut TakeState<U, L, D>,
    barrier: &mut B,
) -> Result<Step, StepFault>
    requires growing { phase_of take.old ≡ Growing }
    requires out { IsOut take.old.commit }
    ensures stepped { IfOk result (IsStep take.old take.new) }
    ensures rests { IfOk result (λ step. step ≢ Step.Nothing) }
    ensures kept { (take.new.config ≡ take.old.config) × (published take.new ≡ published take.old) }

    ensures stopped { IfErr result (IsStopped take.old take.new) }
    ensures crash { CrashesSafely L.TakeLayout D.TakeDisk (U.units take.old.config) take.old take.new }
    ensures cause { HasStepCause (D.fault_count take.old.disk) (D.fault_count take.new.disk)
        (B.fault_count barrier.old) (B.fault_count barrier.new) result }
{
    let Some(ticket) = take.out() else {
        return Ok(Step::TicketOut(take.ticket()));
    };
    if !is_named(ticket) {
        stays(take);
        return Ok(Step::Unnamed);
    }
    let Ok(done) = barrier.run(ticket) else {
        let faults = barrier.faults();
        take.fail(faults);
        return Err(StepFault::Barrier { faults });
    };
    take.settle(done);
    Ok(Step::Settled(take.commit_phase()))
}

/// Tells that the frames of the mark are durable, or that the take is whole.
fn end<U: TakeUnits, L: TakeLayout, D: TakeDisk + Drop>(
    take: &mut TakeState<U, L, D>,
    mark: Mark,
) -> Step
    requires growing { phase_of take.old ≡ Growing }
    requires opened { take.old.commit ≡ Opened mark }
    ensures stepped { IsStep take.old take.new result }
    ensures rests { result ≢ Step.Nothing }
    ensures kept { (take.new.config ≡ take.old.config) × (published take.new ≡ published take.old) }
    ensures crash { CrashesSafely L.TakeLayout D.TakeDisk (U.units take.old.config) take.old take.new }
    ensures cause { D.fault_count take.new.disk ≡ D.fault_count take.old.disk }
{
    if mark.closed {
        take.finish();
        return Step::Closed;
    }
    Step::Acked {
        count: take.acknowledge().acked,
    }
}

/// Whether the take goes on, all its frames are durable, no commit is on its way and no tail is written.
fn may_end<U: TakeUnits, L: TakeLayout, D: TakeDisk + Drop>(take: &TakeState<U, L, D>) -> bool
    ensures { IsTrue result ↔ MayEnd take.now }
{
    let seen = take.snapshot();
    seen.phase == Phase::Growing
        && take.commit_phase() == CommitPhase::Idle
        && seen.acked == seen.published
        && !take.has_tail()
}

/// Shows what stands while nothing happens to a take. It does nothing when it runs.
fn stays<U: TakeUnits, L: TakeLayout, D: TakeDisk + Drop>(take: &TakeState<U, L, D>)
    ensures durable { acked take.now ≤ published take.now }
    ensures crash { CrashesSafely L.TakeLayout D.TakeDisk (U.units take.now.config) take.now take.now }
{
    take.stands();
}

/// Whether a ticket names a moment.
fn is_named(ticket: Ticket) -> bool
    ensures { IsTrue result ↔ IsNamed ticket }
{
    let is_twin_named = match ticket.twin {
        Some(twin) => twin < u64::MAX,
        None => true,
    };
    ticket.moment < u64::MAX && is_twin_named
}
