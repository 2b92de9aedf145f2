//! What a step of a commit did, or why it failed.

use take_core::{CommitPhase, Mark};
use take_disk::Ticket;
use take_state::DiskFault;
use thiserror::Error;

/// What a step of a commit did.
#[derive(Clone, Copy, Debug, PartialEq, Eq)]
pub enum Step {
    /// Nothing: nothing was due.
    Nothing,
    /// A commit of this mark has begun.
    MarkOut(Mark),
    /// The commit waits for a barrier with this ticket.
    TicketOut(Ticket),
    /// Nothing: the ticket that is out names no moment, so that no barrier is run for it.
    Unnamed,
    /// The barrier has run, and the commit has come to this phase.
    Settled(CommitPhase),
    /// The record of the mark is written.
    NoteOut,
    /// The gate of the record is written.
    GateOut,
    /// So many frames are durable.
    Acked { count: u64 },
    /// The tail is written, and a commit of this mark has begun.
    TailOut(Mark),
    /// The take is whole.
    Closed,
}

/// Why a step failed. The take is stopped.
#[derive(Debug, Drop, Error)]
pub enum StepFault {
    /// The disk failed.
    #[error(transparent)]
    Disk(DiskFault),
    /// The barrier failed.
    #[error("the barrier failed, {faults} faults so far")]
    Barrier { faults: u64 },
}
