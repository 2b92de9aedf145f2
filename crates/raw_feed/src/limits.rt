/// Most bytes of a unit.
pub const MAX_UNIT: u32 = 0x1000_0000;

/// The greatest sample of a picture.
pub const MAX_SAMPLE: u16 = 1023;

/// Most bytes of a feed.
pub const MAX_FEED: u64 = 0x1000_0000_0000;
