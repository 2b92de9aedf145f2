//! Why a take's file isn't read.

use thiserror::Error;

/// Why a take's file isn't read (docs/FORMATS.md, "Statuses").
#[derive(Clone, Copy, Debug, PartialEq, Eq, Error)]
pub enum CheckFault {
    /// Memory for what is kept of the file was wanted.
    #[error("out of memory")]
    Memory,
    /// The disk failed; this is its count of faults.
    #[error("the disk failed, {faults} faults so far")]
    DiskFault { faults: u64 },
    /// The file breaks a clause of OP1a, and this one first.
    #[error("not an OP1a file: clause {clause} is broken at {at}")]
    NotOp1a { clause: u64, at: u64 },
}

/// There are no more units than this.
#[derive(Clone, Copy, Debug, PartialEq, Eq, Error)]
#[error("the file has {count} frames")]
pub struct Past {
    pub count: u64,
}

/// Why a unit isn't read.
#[derive(Clone, Copy, Debug, PartialEq, Eq, Error)]
pub enum UnitFault {
    /// Memory for the unit was wanted.
    #[error("out of memory")]
    Memory,
    /// The disk failed; this is its count of faults.
    #[error("the disk failed, {faults} faults so far")]
    DiskFault { faults: u64 },
    /// The file has no more units than this.
    #[error("the file has {count} frames")]
    Past { count: u64 },
}
