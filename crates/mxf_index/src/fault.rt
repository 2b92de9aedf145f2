use thiserror::Error;

/// Why bytes don't begin with an index table segment of this format (docs/FORMATS.md, "Index table segments"): the first
/// rule that they break. `at` is the byte of an item, counted from the first byte, and `tag` the local tag of the item
/// that is due there, 0 where the fault is the whole item's or that of what follows the last item.
#[derive(Clone, Copy, Debug, PartialEq, Eq, Error)]
pub enum SegmentFault {
    /// There was no memory left.
    #[error("out of memory")]
    Memory,
    /// The bytes don't begin with a whole item, or the value ends inside one.
    #[error("the index table segment ends inside the item at byte {at}, where tag {tag} is due")]
    SegmentCut { at: u64, tag: u64 },
    /// The key is another one, an item isn't the one due, or bytes stand behind the last item.
    #[error("what stands at byte {at} of the index table segment isn't what is due there, tag {tag}")]
    SegmentField { at: u64, tag: u64 },
    /// A frame's stream offset isn't above that of the frame before.
    #[error("entry {entry} of the index table segment isn't above the one before")]
    EntryOrder { entry: u64 },
}
