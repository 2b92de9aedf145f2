//! What may happen to a take, and the core's answers.

use crate::snapshot::Snapshot;

/// What may happen to a take.
#[derive(Clone, Copy, Debug, PartialEq, Eq)]
pub enum Event {
    /// A slice of a frame is coded: its number in the frame, in the order of the file.
    SliceIn { frame: u64, index: u32 },
    /// The lowest frame is written, in so many bytes, and may be read.
    Publish { len: u64 },
    /// A commit of the published frames begins.
    BeginCommit,
    /// The commit's record is kept.
    NoteRecord,
    /// The gate that makes the record count is kept.
    OpenGate,
    /// The frames of the commit are told to be durable.
    Acknowledge,
    /// The footer is written, and a commit of the whole file begins.
    WriteTail,
    /// The take is told to be whole.
    Finish,
    /// A device failed, whose count of faults is this.
    Stop { faults: u64 },
    /// A reader looks.
    Look { reader: u32 },
}

/// What the core answers to an event.
#[derive(Clone, Copy, Debug, PartialEq, Eq)]
pub enum Answer {
    /// It happened.
    Done,
    /// What the reader sees.
    Seen(Snapshot),
    /// It may not happen now, and nothing changed. The number is the refusal's (docs/ARCHITECTURE.md, "The events of a
    /// take"), 0 where the event is only not due.
    Refused { number: u16 },
}
