//! What a commit waits for.

ghost use Rattle.std.specs.Prelude.{◌≡◌};
ghost use Rattle.commit_phases.specs.Phases.{settled, waits_for};

use take_core::CommitPhase;
use take_disk::Area;

/// The phase behind one that waits for a barrier, once it has run. A phase that waits for none stays.
pub fn next_phase(phase: CommitPhase) -> CommitPhase
    ensures { result ≡ settled phase }
{
    match phase {
        CommitPhase::MarkOut(mark) => CommitPhase::Marked(mark),
        CommitPhase::NoteOut(mark) => CommitPhase::Noted(mark),
        CommitPhase::GateOut(mark) => CommitPhase::Opened(mark),
        other => other,
    }
}

/// The area whose barrier brings a phase on.
pub fn area_of(phase: CommitPhase) -> Area
    ensures { result ≡ waits_for phase }
{
    match phase {
        CommitPhase::Idle | CommitPhase::MarkOut(_) | CommitPhase::Marked(_) => Area::Essence,
        CommitPhase::NoteOut(_)
        | CommitPhase::Noted(_)
        | CommitPhase::GateOut(_)
        | CommitPhase::Opened(_) => Area::Commits,
    }
}
