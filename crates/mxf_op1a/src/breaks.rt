//! Where a file isn't OP1a.

/// A clause that a file breaks, and the place of the first item that breaks it.
#[derive(Clone, Copy, Debug, PartialEq, Eq)]
pub struct Break {
    /// The clause, 1 to 10, as docs/formats/mxf.md counts them.
    pub clause: u64,
    /// The place of the item's key, or the file's length where an item is missing.
    pub at: u64,
}
