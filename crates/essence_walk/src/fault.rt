//! Why the units of a take aren't found in its essence.

use thiserror::Error;

/// The number of the essence's area in a refusal.
pub const ESSENCE_AREA: u64 = 0;

/// Why the units of a take aren't found in its essence.
#[derive(Clone, Copy, Debug, PartialEq, Eq, Error)]
pub enum WalkFault {
    /// Memory for the places or for the bytes of a lead was wanted.
    #[error("out of memory")]
    Memory,
    /// The disk failed; this is its count of faults.
    #[error("the disk failed, {faults} faults so far")]
    DiskFault { faults: u64 },
    /// The essence isn't the file that the mark says. `at` is a place in bytes from its start, `other` the area, which is that
    /// of the essence.
    #[error("area {other} is damaged at byte {at}")]
    Damaged { at: u64, other: u64 },
}
