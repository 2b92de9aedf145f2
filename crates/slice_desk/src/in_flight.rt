//! Why a desk takes no picture.

use thiserror::Error;

/// As many frames are in flight as may be.
#[derive(Clone, Copy, Debug, PartialEq, Eq, Error)]
#[error("the frames from {lowest} up to {offered} are in flight, and no more may be")]
pub struct InFlight {
    /// The lowest frame in flight.
    pub lowest: u64,
    /// The number of the next frame.
    pub offered: u64,
}
