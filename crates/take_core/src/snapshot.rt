//! What a reader sees of a take.

/// Whether a take goes on, and how it ended.
#[derive(Clone, Copy, Debug, PartialEq, Eq)]
pub enum Phase {
    /// Frames may follow.
    Growing,
    /// All frames are durable, and the file has its footer.
    Closed,
    /// A fault ended the take.
    Stopped,
}

/// A take after so many entries of its history.
#[derive(Clone, Copy, Debug, PartialEq, Eq)]
pub struct Snapshot {
    /// Entries of the history.
    pub step: u64,
    /// Frames that may be read.
    pub published: u64,
    /// Frames that are durable.
    pub acked: u64,
    /// Whether the take goes on.
    pub phase: Phase,
}
