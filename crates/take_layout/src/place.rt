/// Where a unit of a take lies in its file.
#[derive(Clone, Copy, Debug, PartialEq, Eq)]
pub struct Place {
    /// The file's place of the unit's first byte.
    pub at: u64,
    /// The stream offset of the unit's index entry, in bytes.
    pub stream: u64,
    /// The unit's length, in bytes.
    pub len: u64,
}
