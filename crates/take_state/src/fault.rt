//! Why a call of a take fails.

ghost use Rattle.std.specs.Prelude.{◌≡◌};

use std::marker::Model;
use thiserror::Error;

/// The number of the essence's area in a refusal.
pub const ESSENCE_AREA: u64 = 0;

/// The number of the commits' area in a refusal.
pub const COMMITS_AREA: u64 = 1;

/// The disk failed in a call of a take. Only such a call makes one.
#[derive(Debug, Drop, Error)]
#[error("the disk failed, {faults} faults so far")]
pub struct DiskFault {
    faults: u64,
}

impl Model for DiskFault {
    ghost use Rattle.std.specs.Prelude.{ℕ};

    ghost Value = { ℕ };

    ghost view = { λ fault. fault.faults };
}

impl DiskFault {
    // A fault of the disk, whose count is this.
    pub(crate) fn of_count(faults: u64) -> DiskFault
        ensures { result ≡ faults }
    {
        DiskFault { faults }
    }

    /// The disk's count of faults after the call.
    pub fn faults(&self) -> u64
        ensures { result ≡ self.now }
    {
        self.faults
    }
}

/// Why a take isn't opened.
#[derive(Debug, Drop, Error)]
pub enum OpenCause {
    /// An area isn't empty: 0 is the essence, 1 the commits.
    #[error("area {area} of the take has {len} bytes")]
    TakeExists { len: u64, area: u64 },
    /// Memory was wanted.
    #[error("out of memory")]
    Memory,
    /// The disk failed.
    #[error(transparent)]
    Disk(DiskFault),
}

/// Why a take isn't opened, and the disk.
#[derive(Drop)]
pub struct OpenFault<D: Drop> {
    /// Why.
    pub cause: OpenCause,
    /// The disk.
    pub disk: D,
}

/// Why a frame isn't published.
#[derive(Debug, Drop, Error)]
pub enum PublishFault {
    /// A fault of this count has stopped the take.
    #[error("the take was stopped, {faults} faults so far")]
    Stopped { faults: u64 },
    /// The take's tail is written.
    #[error("the take has ended after {count} frames")]
    Ended { count: u64 },
    /// Another frame comes next.
    #[error("frame {got} comes in place of frame {want}")]
    OutOfTurn { want: u64, got: u64 },
    /// The take has all the frames that it may have.
    #[error("the take has room for {max} frames")]
    TakeFull { max: u64 },
    /// The commits are as far behind as they may be.
    #[error("{published} frames are published, and {acked} durable")]
    Lagging { published: u64, acked: u64 },
    /// The disk failed.
    #[error(transparent)]
    Disk(DiskFault),
}
