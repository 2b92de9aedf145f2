//! The entries of a take's history.

/// What happened to a take, once it is known to have happened.
#[derive(Clone, Copy, Debug, PartialEq, Eq)]
pub enum Entry {
    /// One frame more may be read, of a length in bytes.
    Published { len: u64 },
    /// So many frames are durable.
    Acked { count: u64 },
    /// The take is whole.
    Closed,
    /// The take ended by faults of its disk, of this count.
    Stopped { faults: u64 },
}
