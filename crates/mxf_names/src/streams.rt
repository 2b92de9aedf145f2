//! The numbers of the streams of our files (own).

/// The essence stream: all picture elements, joined.
pub const ESSENCE_STREAM: u32 = 1;

/// The stream of index tables.
pub const INDEX_STREAM: u32 = 2;
