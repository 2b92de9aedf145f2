//! Why packs are refused.

use thiserror::Error;

/// Why bytes begin with no partition pack, or with no random index pack (docs/formats/mxf.md, "Partition packs",
/// "Random index pack").
#[derive(Clone, Copy, Debug, PartialEq, Eq, Error)]
pub enum PackFault {
    /// Memory for the entries was wanted.
    #[error("out of memory")]
    Memory,
    /// They don't begin with a whole item that has the key of a partition pack.
    #[error("no partition pack begins here")]
    NotPack,
    /// The value of the partition pack isn't its fields and labels.
    #[error("the partition pack has another size than that of its labels")]
    PackSize,
    /// The key of the partition pack names no kind, or no status.
    #[error("the partition pack is of no kind or of no status")]
    PackKind,
    /// They don't begin with a whole random index pack whose last word is its length.
    #[error("no random index pack of this length begins here")]
    IndexPackSize,
    /// The first entry of the random index pack whose place isn't above the one before.
    #[error("the place of entry {entry} isn't above the one before")]
    IndexPackOrder { entry: u64 },
}
