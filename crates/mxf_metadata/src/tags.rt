//! The local tags of the metadata (SMPTE ST 377-1) and the sizes of their values.

use mxf_names::{BODY_SID, INDEX_SID, INSTANCE_ID};

/// How many bytes a value has.
#[derive(Clone, Copy, Debug, PartialEq, Eq)]
pub enum Size {
    /// Always so many.
    Fixed(u16),
    /// A batch of items of 16 bytes.
    Batch,
    /// A text in UTF-16: two bytes for each letter.
    Letters,
}

/// A local tag.
#[derive(Clone, Copy, Debug, PartialEq, Eq)]
pub struct Tag {
    /// Its number.
    pub tag: u16,
    /// Bytes of the values of the items that it names.
    pub size: Size,
}

/// Last Modified Date of the preface.
pub const LAST_MODIFIED: u16 = 0x3b02;
/// Version of the format.
pub const VERSION: u16 = 0x3b05;
/// Object Model Version.
pub const OBJECT_MODEL_VERSION: u16 = 0x3b07;
/// Content Storage: names that set.
pub const CONTENT_STORAGE: u16 = 0x3b03;
/// Identifications: names those sets.
pub const IDENTIFICATIONS: u16 = 0x3b06;
/// Operational Pattern.
pub const OPERATIONAL_PATTERN: u16 = 0x3b09;
/// Essence Containers: labels.
pub const ESSENCE_CONTAINERS: u16 = 0x3b0a;
/// DM Schemes: labels of descriptive metadata.
pub const DM_SCHEMES: u16 = 0x3b0b;
/// This Generation UID.
pub const THIS_GENERATION_ID: u16 = 0x3c09;
/// Company Name.
pub const COMPANY_NAME: u16 = 0x3c01;
/// Product Name.
pub const PRODUCT_NAME: u16 = 0x3c02;
/// Version String.
pub const VERSION_STRING: u16 = 0x3c04;
/// Product UID.
pub const PRODUCT_ID: u16 = 0x3c05;
/// Modification Date of an identification.
pub const MODIFICATION_DATE: u16 = 0x3c06;
/// Packages: names those sets.
pub const PACKAGES: u16 = 0x1901;
/// Essence Container Data: names those sets.
pub const ESSENCE_CONTAINER_DATA: u16 = 0x1902;
/// Linked Package UID: UMID of the package whose essence is described.
pub const LINKED_PACKAGE_ID: u16 = 0x2701;
/// Package UID: UMID of a package.
pub const PACKAGE_ID: u16 = 0x4401;
/// Package Modified Date.
pub const PACKAGE_MODIFIED: u16 = 0x4404;
/// Package Creation Date.
pub const PACKAGE_CREATED: u16 = 0x4405;
/// Tracks of a package: names those sets.
pub const TRACKS: u16 = 0x4403;
/// Track ID.
pub const TRACK_ID: u16 = 0x4801;
/// Track Number: links a track to essence elements.
pub const TRACK_NUMBER: u16 = 0x4804;
/// Edit Rate of a track.
pub const EDIT_RATE: u16 = 0x4b01;
/// Origin of a track.
pub const ORIGIN: u16 = 0x4b02;
/// Sequence of a track: names that set.
pub const SEQUENCE: u16 = 0x4803;
/// Data Definition: the kind of a component.
pub const DATA_DEFINITION: u16 = 0x0201;
/// Duration of a component.
pub const DURATION: u16 = 0x0202;
/// Structural Components of a sequence: names those sets.
pub const STRUCTURAL_COMPONENTS: u16 = 0x1001;
/// Start Timecode.
pub const START_TIMECODE: u16 = 0x1501;
/// Rounded Timecode Base: frames per second.
pub const ROUNDED_TIMECODE_BASE: u16 = 0x1502;
/// Drop Frame.
pub const DROP_FRAME: u16 = 0x1503;
/// Start Position of a source clip.
pub const START_POSITION: u16 = 0x1201;
/// Source Package ID: UMID of the package that a clip names.
pub const SOURCE_PACKAGE_ID: u16 = 0x1101;
/// Source Track ID: the track that a clip names.
pub const SOURCE_TRACK_ID: u16 = 0x1102;
/// Descriptor of a file package: names that set.
pub const DESCRIPTOR: u16 = 0x4701;
/// Linked Track ID: the track that a descriptor describes.
pub const LINKED_TRACK_ID: u16 = 0x3006;
/// Sample Rate.
pub const SAMPLE_RATE: u16 = 0x3001;
/// Container Duration.
pub const CONTAINER_DURATION: u16 = 0x3002;
/// Essence Container: a label.
pub const ESSENCE_CONTAINER: u16 = 0x3004;
/// Picture Essence Coding: a label.
pub const PICTURE_ESSENCE_CODING: u16 = 0x3201;
/// Frame Layout.
pub const FRAME_LAYOUT: u16 = 0x320c;
/// Stored Width, in samples.
pub const STORED_WIDTH: u16 = 0x3203;
/// Stored Height, in rows of a frame or of a field.
pub const STORED_HEIGHT: u16 = 0x3202;
/// Aspect Ratio.
pub const ASPECT_RATIO: u16 = 0x320e;
/// Component Depth, in bits.
pub const COMPONENT_DEPTH: u16 = 0x3301;
/// Horizontal Subsampling.
pub const HORIZONTAL_SUBSAMPLING: u16 = 0x3302;

/// How many tags the metadata has.
pub const TAG_COUNT: usize = 50;

/// The tags of the metadata, in the order of their first use.
pub const TAGS: [Tag; TAG_COUNT] = [
    Tag {
        tag: INSTANCE_ID,
        size: Size::Fixed(16),
    },
    Tag {
        tag: LAST_MODIFIED,
        size: Size::Fixed(8),
    },
    Tag {
        tag: VERSION,
        size: Size::Fixed(2),
    },
    Tag {
        tag: OBJECT_MODEL_VERSION,
        size: Size::Fixed(4),
    },
    Tag {
        tag: CONTENT_STORAGE,
        size: Size::Fixed(16),
    },
    Tag {
        tag: IDENTIFICATIONS,
        size: Size::Batch,
    },
    Tag {
        tag: OPERATIONAL_PATTERN,
        size: Size::Fixed(16),
    },
    Tag {
        tag: ESSENCE_CONTAINERS,
        size: Size::Batch,
    },
    Tag {
        tag: DM_SCHEMES,
        size: Size::Batch,
    },
    Tag {
        tag: THIS_GENERATION_ID,
        size: Size::Fixed(16),
    },
    Tag {
        tag: COMPANY_NAME,
        size: Size::Letters,
    },
    Tag {
        tag: PRODUCT_NAME,
        size: Size::Letters,
    },
    Tag {
        tag: VERSION_STRING,
        size: Size::Letters,
    },
    Tag {
        tag: PRODUCT_ID,
        size: Size::Fixed(16),
    },
    Tag {
        tag: MODIFICATION_DATE,
        size: Size::Fixed(8),
    },
    Tag {
        tag: PACKAGES,
        size: Size::Batch,
    },
    Tag {
        tag: ESSENCE_CONTAINER_DATA,
        size: Size::Batch,
    },
    Tag {
        tag: LINKED_PACKAGE_ID,
        size: Size::Fixed(32),
    },
    Tag {
        tag: INDEX_SID,
        size: Size::Fixed(4),
    },
    Tag {
        tag: BODY_SID,
        size: Size::Fixed(4),
    },
    Tag {
        tag: PACKAGE_ID,
        size: Size::Fixed(32),
    },
    Tag {
        tag: PACKAGE_MODIFIED,
        size: Size::Fixed(8),
    },
    Tag {
        tag: PACKAGE_CREATED,
        size: Size::Fixed(8),
    },
    Tag {
        tag: TRACKS,
        size: Size::Batch,
    },
    Tag {
        tag: TRACK_ID,
        size: Size::Fixed(4),
    },
    Tag {
        tag: TRACK_NUMBER,
        size: Size::Fixed(4),
    },
    Tag {
        tag: EDIT_RATE,
        size: Size::Fixed(8),
    },
    Tag {
        tag: ORIGIN,
        size: Size::Fixed(8),
    },
    Tag {
        tag: SEQUENCE,
        size: Size::Fixed(16),
    },
    Tag {
        tag: DATA_DEFINITION,
        size: Size::Fixed(16),
    },
    Tag {
        tag: DURATION,
        size: Size::Fixed(8),
    },
    Tag {
        tag: STRUCTURAL_COMPONENTS,
        size: Size::Batch,
    },
    Tag {
        tag: START_TIMECODE,
        size: Size::Fixed(8),
    },
    Tag {
        tag: ROUNDED_TIMECODE_BASE,
        size: Size::Fixed(2),
    },
    Tag {
        tag: DROP_FRAME,
        size: Size::Fixed(1),
    },
    Tag {
        tag: START_POSITION,
        size: Size::Fixed(8),
    },
    Tag {
        tag: SOURCE_PACKAGE_ID,
        size: Size::Fixed(32),
    },
    Tag {
        tag: SOURCE_TRACK_ID,
        size: Size::Fixed(4),
    },
    Tag {
        tag: DESCRIPTOR,
        size: Size::Fixed(16),
    },
    Tag {
        tag: LINKED_TRACK_ID,
        size: Size::Fixed(4),
    },
    Tag {
        tag: SAMPLE_RATE,
        size: Size::Fixed(8),
    },
    Tag {
        tag: CONTAINER_DURATION,
        size: Size::Fixed(8),
    },
    Tag {
        tag: ESSENCE_CONTAINER,
        size: Size::Fixed(16),
    },
    Tag {
        tag: PICTURE_ESSENCE_CODING,
        size: Size::Fixed(16),
    },
    Tag {
        tag: FRAME_LAYOUT,
        size: Size::Fixed(1),
    },
    Tag {
        tag: STORED_WIDTH,
        size: Size::Fixed(4),
    },
    Tag {
        tag: STORED_HEIGHT,
        size: Size::Fixed(4),
    },
    Tag {
        tag: ASPECT_RATIO,
        size: Size::Fixed(8),
    },
    Tag {
        tag: COMPONENT_DEPTH,
        size: Size::Fixed(4),
    },
    Tag {
        tag: HORIZONTAL_SUBSAMPLING,
        size: Size::Fixed(4),
    },
];
