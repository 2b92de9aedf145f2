//! The keys of items that say nothing of the file, and of its elements.

/// The key of a fill item, whose value means nothing (our own constant, after SMPTE ST 377-1).
pub const FILL_KEY: [u8; 16] = [
    0x06, 0x0e, 0x2b, 0x34, 0x01, 0x01, 0x01, 0x02, 0x03, 0x01, 0x02, 0x10, 0x01, 0x00, 0x00, 0x00,
];

/// How many bytes of a picture element's key say that an item is an element of essence; the others say of which kind and
/// which track.
pub const ELEMENT_KEY_LEN: usize = 12;
