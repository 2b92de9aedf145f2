//! The areas of a take.

/// One of the two areas of a take on a disk.
#[derive(Clone, Copy, Debug, PartialEq, Eq)]
pub enum Area {
    /// The file of pictures.
    Essence,
    /// The commit file, which says how much of the essence counts.
    Commits,
}
