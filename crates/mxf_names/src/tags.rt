//! The local tags that more than one kind of set has (SMPTE ST 377-1).

/// Instance UID: the identifier of a set.
pub const INSTANCE_ID: u16 = 0x3c0a;
/// Index SID: the number of the stream that holds index table segments.
pub const INDEX_SID: u16 = 0x3f06;
/// Body SID: the number of the stream that holds essence.
pub const BODY_SID: u16 = 0x3f07;
