//! What an item's head says of it.

ghost use Rattle.std.specs.Prelude.{◌≡◌, ◌==◌, ◌&&◌, take, slice_index};
ghost use Rattle.std.specs.Str.{bytes_eq};
ghost use Rattle.mxf_metadata_reader.specs.PlacedSets.{is_set_key};
ghost use Rattle.mxf_names.specs.declared.keys.TheConstants.{PARTITION_KEY_START, PICTURE_ELEMENT_KEY};
ghost use Rattle.mxf_op1a.specs.Contents.{content_by_key};
ghost use Rattle.mxf_op1a.specs.declared.keys.TheConstants.{ELEMENT_KEY_LEN};
ghost use Rattle.mxf_reader.specs.inner.Marks.{kind_of, has_pack_start};

use mxf_names::{
    INDEX_SEGMENT_KEY, PARTITION_KEY_START, PICTURE_ELEMENT_KEY, PRIMER_KEY, RANDOM_INDEX_KEY,
    SET_KEY_START,
};
use mxf_op1a::{ELEMENT_KEY_LEN, FILL_KEY};
use mxf_partitions::Partition;

/// What an item is.
#[derive(Clone, Copy, Debug, PartialEq, Eq)]
pub enum Kind {
    /// Fill.
    Filler,
    /// The pack of a partition, which says this.
    PartitionPack(Partition),
    /// A primer pack.
    PrimerPack,
    /// A metadata set.
    MetadataSet,
    /// An index table segment.
    IndexSegment,
    /// A random index pack.
    RandomIndexPack,
    /// An element of essence.
    EssenceElement,
    /// Something else.
    Unknown,
}

/// What is kept of an item.
#[derive(Clone, Copy, Debug, PartialEq, Eq)]
pub struct Mark {
    /// The place of its key.
    pub at: u64,
    /// What it is.
    pub kind: Kind,
    /// Its key is the picture element's.
    pub is_picture: bool,
    /// The place of its value.
    pub value_at: u64,
    /// Bytes of its value.
    pub value_len: u64,
}

/// What an item is that is no partition pack.
pub(crate) fn kind_of_key(key: &[u8; 16]) -> Kind
    ensures { result ≡ kind_of (content_by_key key.now) }
{
    if *key == FILL_KEY {
        return Kind::Filler;
    }
    if *key == PRIMER_KEY {
        return Kind::PrimerPack;
    }
    if is_set_key(key) {
        return Kind::MetadataSet;
    }
    if *key == INDEX_SEGMENT_KEY {
        return Kind::IndexSegment;
    }
    if *key == RANDOM_INDEX_KEY {
        return Kind::RandomIndexPack;
    }
    if is_element_key(key) {
        return Kind::EssenceElement;
    }
    Kind::Unknown
}

/// A key is that of a metadata set.
fn is_set_key(key: &[u8; 16]) -> bool
    ensures { result ≡ is_set_key key.now }
{
    key[..14] == SET_KEY_START[..] && key[15] == 0
}

/// A key is that of an element of essence.
fn is_element_key(key: &[u8; 16]) -> bool
    ensures { result ≡ bytes_eq (take ELEMENT_KEY_LEN key.now) (take ELEMENT_KEY_LEN PICTURE_ELEMENT_KEY) }
{
    key[..ELEMENT_KEY_LEN] == PICTURE_ELEMENT_KEY[..ELEMENT_KEY_LEN]
}

/// A key is that of a picture element.
pub(crate) fn is_picture_key(key: &[u8; 16]) -> bool
    ensures { result ≡ bytes_eq key.now PICTURE_ELEMENT_KEY }
{
    *key == PICTURE_ELEMENT_KEY
}

/// A key begins as those of partition packs do.
pub(crate) fn has_pack_start(key: &[u8; 16]) -> bool
    ensures { result ≡ has_pack_start key.now }
{
    key[..13] == PARTITION_KEY_START[..]
}
