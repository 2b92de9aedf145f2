//! Why metadata is refused.

use thiserror::Error;

/// Why bytes are no metadata whose items and references are sound. `at` is the place of an item, and `tag` its local
/// tag.
#[derive(Clone, Copy, Debug, PartialEq, Eq, Error)]
pub enum SetFault {
    /// There is too little memory.
    #[error("there is too little memory")]
    Memory,
    /// The bytes don't begin with a whole primer pack.
    #[error("the bytes don't begin with a primer pack")]
    NotPrimer,
    /// The primer pack lacks the item's tag.
    #[error("the item at byte {at} has the tag {tag}, which the primer pack lacks")]
    UnknownTag { at: u64, tag: u64 },
    /// The set ends inside the item; or the item isn't one of a set, and has no length or passes the end, with tag 0.
    #[error("the item at byte {at} is cut")]
    SetCut { at: u64, tag: u64 },
    /// The item's value doesn't have the size of its tag.
    #[error("the item at byte {at} has the tag {tag} and another size")]
    ItemSize { at: u64, tag: u64 },
    /// The item names a set that isn't there.
    #[error("the item at byte {at} with the tag {tag} names no set")]
    BrokenReference { at: u64, tag: u64 },
}
