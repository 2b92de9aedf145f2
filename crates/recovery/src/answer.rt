//! What a recovery answers.

use thiserror::Error;

/// How a take was found, and closed.
#[derive(Clone, Copy, Debug, PartialEq, Eq)]
pub enum Recovered {
    /// It is closed now: so many frames, in an essence of so many bytes.
    Closed { count: u64, len: u64 },
    /// It was closed before, and nothing was written.
    Already { count: u64, len: u64 },
}

/// Why a take isn't recovered (docs/formats/commits.md, "Refusals"). `at` is a place in bytes from the start of the area that
/// `other` names: 0 is the essence, 1 the commits.
#[derive(Clone, Copy, Debug, PartialEq, Eq, Error)]
pub enum RecoverFault {
    /// Memory was wanted.
    #[error("out of memory")]
    Memory,
    /// The commits don't begin with a take's head.
    #[error("byte {at} of area {other} is no part of a take's head")]
    NoTake { at: u64, other: u64 },
    /// The commits break behind their head, or the essence isn't what they say.
    #[error("area {other} is damaged at byte {at}")]
    Damaged { at: u64, other: u64 },
    /// The disk failed, and has failed so often.
    #[error("the disk failed, {at} faults so far")]
    DiskFault { at: u64 },
}
