use thiserror::Error;

/// Why a feed can't be read on. `at` is a place in bytes from the start of the feed, unless it says
/// otherwise.
#[derive(Clone, Copy, Debug, PartialEq, Eq, Error)]
pub enum FeedFault {
    /// There isn't memory enough for the next unit.
    #[error("out of memory")]
    Memory,
    /// The first byte of the head that is no part of a magic and a configuration.
    #[error("byte {at} is no part of a feed's head")]
    FeedHead { at: u64 },
    /// The first byte of a wrong marker.
    #[error("the marker at byte {at} is wrong")]
    Marker { at: u64 },
    /// The length of a feed that ends inside its head or an item.
    #[error("the feed is cut at byte {at}")]
    FeedCut { at: u64 },
    /// The source failed; `at` is its count of faults.
    #[error("the source has failed, as its fault number {at}")]
    SourceFault { at: u64 },
    /// The feed goes on behind its limit.
    #[error("the feed has more than {at} bytes")]
    TooLong { at: u64 },
    /// The first byte of a picture's first sample above 1023.
    #[error("the sample at byte {at} is above 1023")]
    Sample { at: u64 },
    /// The first byte of a unit's length that is too large.
    #[error("the length at byte {at} is too large")]
    UnitLong { at: u64 },
}
