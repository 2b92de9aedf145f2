//! The local tags that only an index table segment has (SMPTE ST 377-1), and the numbers that ours hold.

/// Index Edit Rate.
pub const INDEX_EDIT_RATE: u16 = 0x3f0b;
/// Index Start Position: the first frame.
pub const INDEX_START_POSITION: u16 = 0x3f0c;
/// Index Duration: how many frames.
pub const INDEX_DURATION: u16 = 0x3f0d;
/// Edit Unit Byte Count: 0 where frames differ in length.
pub const EDIT_UNIT_BYTE_COUNT: u16 = 0x3f05;
/// Slice Count: slices of an edit unit but the first.
pub const SLICE_COUNT: u16 = 0x3f08;
/// Delta Entry Array.
pub const DELTA_ENTRIES: u16 = 0x3f09;
/// Index Entry Array.
pub const INDEX_ENTRIES: u16 = 0x3f0a;
/// Pos Table Count: entries of the table of positions.
pub const POS_TABLE_COUNT: u16 = 0x3f0e;

/// Flags of an entry: the frame is coded without others, and can be decoded first.
pub const RANDOM_ACCESS: u8 = 0x80;
/// Bytes of a delta entry.
pub const DELTA_SIZE: u32 = 6;
/// Bytes of an index entry.
pub const ENTRY_SIZE: u32 = 11;
