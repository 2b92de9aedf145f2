//! Labels, kinds and numbers of tracks that the metadata alone fixes (SMPTE ST 377-1, and own choices).

/// The data definition of picture tracks.
pub const PICTURE_KIND: [u8; 16] = [
    0x06, 0x0e, 0x2b, 0x34, 0x04, 0x01, 0x01, 0x01, 0x01, 0x03, 0x02, 0x02, 0x01, 0x00, 0x00, 0x00,
];
/// The data definition of timecode tracks.
pub const TIMECODE_KIND: [u8; 16] = [
    0x06, 0x0e, 0x2b, 0x34, 0x04, 0x01, 0x01, 0x01, 0x01, 0x03, 0x02, 0x01, 0x01, 0x00, 0x00, 0x00,
];
/// The track of timecode in each package.
pub const TIMECODE_TRACK_ID: u32 = 1;
/// The track of pictures in each package.
pub const PICTURE_TRACK_ID: u32 = 2;
/// What a clip without a source names.
pub const NO_SOURCE: [u8; 32] = [0; 32];
/// The identifier of the product that writes these files.
pub const PRODUCT: [u8; 16] = [0x36; 16];
/// The kind of a preface.
pub const PREFACE_SET: u8 = 0x2f;
/// The kind of an identification.
pub const IDENTIFICATION_SET: u8 = 0x30;
/// The kind of a content storage.
pub const STORAGE_SET: u8 = 0x18;
/// The kind of essence container data.
pub const CONTAINER_SET: u8 = 0x23;
/// The kind of a material package.
pub const MATERIAL_SET: u8 = 0x36;
/// The kind of a file package.
pub const FILE_SET: u8 = 0x37;
/// The kind of a track.
pub const TRACK_SET: u8 = 0x3b;
/// The kind of a sequence.
pub const SEQUENCE_SET: u8 = 0x0f;
/// The kind of a timecode component.
pub const TIMECODE_SET: u8 = 0x14;
/// The kind of a source clip.
pub const CLIP_SET: u8 = 0x11;
/// The kind of a picture descriptor.
pub const DESCRIPTOR_SET: u8 = 0x28;

/// How the label of a local tag begins; the tag's two bytes follow (own).
pub const TAG_LABEL_HEAD: [u8; 14] = [
    0x06, 0x0e, 0x2b, 0x34, 0x01, 0x01, 0x01, 0x01, 0x0f, 0x70, 0x00, 0x00, 0x00, 0x00,
];
