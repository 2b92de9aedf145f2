//! Which image a crash leaves.

/// Which image a crash leaves of a disk in memory.
#[derive(Clone, Copy, Debug, PartialEq, Eq)]
pub enum Pick {
    /// All that was written.
    Kept,
    /// Each area as it was when it was last settled.
    Lost,
    /// All that was written, with this byte in each place that is unsettled.
    Torn(u8),
}
