//! What is recorded of an area in memory.

/// What was done to an area.
#[derive(Clone, Copy, Debug, PartialEq, Eq)]
pub enum Deed {
    /// Bytes were written at a place: a part of the pieces.
    Write { at: u64, from: u64, len: u64 },
    /// The area, which was so long before, was cut to a length.
    Cut { len: u64, end: u64 },
    /// A write or cut of the places from one up to another failed.
    Fail { from: u64, to: u64 },
    /// All that was done up to a moment was settled.
    Settle { upto: u64 },
}

/// A deed and its moment.
#[derive(Clone, Copy, Debug, PartialEq, Eq)]
pub struct Entry {
    /// The moment.
    pub moment: u64,
    /// What was done.
    pub deed: Deed,
}
