use std::alloc::{AllocError, AllocFailed};
use thiserror::Error;

/// The answer of a program, which its exit status and its fault line say.
///
/// Code 0: done. 1: memory was wanted. 2: the words are no command. 3: the feed breaks its grammar at
/// `at`. 4: line `at` isn't a question. 5: a source failed. 6: the disk or the barrier failed. 7: the sink
/// failed. 8: what was read is refused. 9: the take exists. 10: the feed goes on after its last frame.
#[derive(Clone, Copy, Debug, PartialEq, Eq)]
pub struct Status {
    /// The exit status, 0 to 10.
    pub code: u8,
    /// The number of the refusal, 0 where there is none (docs/FORMATS.md, "Refusals").
    pub number: u16,
    /// The refusal's place, as its row says.
    pub at: u64,
    /// The refusal's second number, 0 where its row has none.
    pub other: u64,
}

impl Status {
    /// All was done.
    pub const DONE: Status = Status {
        code: 0,
        number: 0,
        at: 0,
        other: 0,
    };
}

/// A source, a sink, a disk or a barrier failed in this call, and its count of faults rose.
#[derive(Clone, Copy, Debug, PartialEq, Eq, Error)]
#[error("a device failed")]
pub struct Failed;

/// There was no memory left. An allocation of std that failed turns into it by `?`.
#[derive(Clone, Copy, Debug, PartialEq, Eq, Error)]
#[error("out of memory")]
pub struct Memory;

impl From<AllocError> for Memory {
    fn from(_fault: AllocError) -> Memory {
        Memory
    }
}

impl<T: Drop> From<AllocFailed<T>> for Memory {
    fn from(_fault: AllocFailed<T>) -> Memory {
        Memory
    }
}
