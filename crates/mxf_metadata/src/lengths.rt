//! How many bytes the parts of the metadata have.

use crate::tags::TAG_COUNT;
use klv::SET_HEAD_LEN;
use local_sets::BATCH_HEAD_LEN;

/// Bytes of an entry of the primer: a tag and a label.
pub const PRIMER_ENTRY_LEN: usize = 2 + 16;
/// Bytes of the primer's value.
pub const PRIMER_VALUE_LEN: usize = BATCH_HEAD_LEN + TAG_COUNT * PRIMER_ENTRY_LEN;
/// Bytes of the primer pack.
pub const PRIMER: usize = SET_HEAD_LEN + PRIMER_VALUE_LEN;

/// Bytes of a set's items: of the preface.
pub const PREFACE_ITEMS: usize = 154;
/// Of the identification.
pub const IDENTIFICATION_ITEMS: usize = 124;
/// Of the content storage.
pub const STORAGE_ITEMS: usize = 92;
/// Of the essence container data.
pub const CONTAINER_ITEMS: usize = 72;
/// Of the material package.
pub const MATERIAL_ITEMS: usize = 124;
/// Of the file package.
pub const FILE_ITEMS: usize = 144;
/// Of a track.
pub const TRACK_ITEMS: usize = 80;
/// Of a sequence.
pub const SEQUENCE_ITEMS: usize = 80;
/// Of a timecode component.
pub const TIMECODE_ITEMS: usize = 75;
/// Of a source clip.
pub const CLIP_ITEMS: usize = 108;
/// Of the picture descriptor.
pub const DESCRIPTOR_ITEMS: usize = 141;

/// Bytes of the sets of a timecode track.
pub const TIMECODE_TRACK: usize = 3 * SET_HEAD_LEN + TRACK_ITEMS + SEQUENCE_ITEMS + TIMECODE_ITEMS;
/// Bytes of the sets of a picture track.
pub const PICTURE_TRACK: usize = 3 * SET_HEAD_LEN + TRACK_ITEMS + SEQUENCE_ITEMS + CLIP_ITEMS;
/// Bytes of sets 1 to 5.
pub const STORAGE_SETS: usize = 5 * SET_HEAD_LEN
    + PREFACE_ITEMS
    + IDENTIFICATION_ITEMS
    + STORAGE_ITEMS
    + CONTAINER_ITEMS
    + MATERIAL_ITEMS;
/// Bytes of sets 1 to 11.
pub const MATERIAL_SETS: usize = STORAGE_SETS + TIMECODE_TRACK + PICTURE_TRACK;
/// Bytes of sets 12 to 19.
pub const FILE_SETS: usize = 2 * SET_HEAD_LEN
    + FILE_ITEMS
    + TIMECODE_TRACK
    + PICTURE_TRACK
    + DESCRIPTOR_ITEMS;
/// Bytes of the 19 sets.
pub const SETS: usize = MATERIAL_SETS + FILE_SETS;
/// Bytes of the whole metadata.
pub const METADATA: usize = PRIMER + SETS;
