//! How a command that reads a feed ends.

ghost use Rattle.std.specs.Prelude.{◌≡◌};

use crate::unit::UnitFault;
use raw_feed::FeedFault;
use rec_bytes::{Failed, Memory};
use thiserror::Error;

/// How a feed ends behind the items that were read.
#[derive(Clone, Copy, Debug, PartialEq, Eq)]
pub enum FeedEnd {
    /// After a whole item.
    Clean,
    /// Another marker follows as many items as the configuration allows.
    Full { items: u64 },
    /// It can't be read on.
    Broken(FeedFault),
}

/// How far a command has read its feed.
#[derive(Clone, Copy, Debug, PartialEq, Eq)]
pub enum CommandEnd {
    /// To its end.
    Read(FeedEnd),
    /// Up to the unit of this number, which is refused.
    Refused { unit: u64, fault: UnitFault },
}

/// Why a command ends before it has written all.
#[derive(Clone, Copy, Debug, PartialEq, Eq, Error)]
pub enum PutFault {
    /// Memory was wanted.
    #[error("out of memory")]
    Memory,
    /// The sink failed.
    #[error("the sink has failed")]
    Sink,
}

impl From<Memory> for PutFault {
    fn from(_fault: Memory) -> PutFault
        ensures { result ≡ PutFault.Memory }
    {
        PutFault::Memory
    }
}

impl From<Failed> for PutFault {
    fn from(_fault: Failed) -> PutFault
        ensures { result ≡ PutFault.Sink }
    {
        PutFault::Sink
    }
}
