//! How far a commit has come.

ghost use Rattle.std.specs.Prelude.{◌≡◌};
ghost use Rattle.take_core.specs.Phases.{core_phase};

use crate::mark::{CoreMark, Mark};

/// How far a commit has come, with the mark that it makes durable.
#[derive(Clone, Copy, Debug, PartialEq, Eq)]
pub enum CommitPhase {
    /// No commit is on its way.
    Idle,
    /// The essence of the mark is on its way to the disk.
    MarkOut(Mark),
    /// The essence of the mark is kept.
    Marked(Mark),
    /// The record of the mark is on its way.
    NoteOut(Mark),
    /// The record of the mark is kept.
    Noted(Mark),
    /// The gate that makes the record count is on its way.
    GateOut(Mark),
    /// The gate is kept, so that the mark is durable.
    Opened(Mark),
}

/// How far a commit has come, as the events of a take see it: what is on its way stands for what it will be.
#[derive(Clone, Copy, Debug, PartialEq, Eq)]
pub enum CorePhase {
    /// No commit is on its way.
    Idle,
    /// The essence of the mark is kept.
    Marked(CoreMark),
    /// The record of the mark is kept.
    Noted(CoreMark),
    /// The gate is kept, so that the mark is durable.
    Opened(CoreMark),
}

impl CommitPhase {
    /// The phase as the events of a take see it.
    pub fn in_core(self) -> CorePhase
        ensures { result ≡ core_phase self }
    {
        match self {
            CommitPhase::Idle => CorePhase::Idle,
            CommitPhase::MarkOut(mark) | CommitPhase::Marked(mark) => {
                CorePhase::Marked(mark.in_core())
            }
            CommitPhase::NoteOut(mark) | CommitPhase::Noted(mark) => {
                CorePhase::Noted(mark.in_core())
            }
            CommitPhase::GateOut(mark) | CommitPhase::Opened(mark) => {
                CorePhase::Opened(mark.in_core())
            }
        }
    }
}
