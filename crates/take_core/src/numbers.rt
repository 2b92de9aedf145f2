//! The numbers that the events of a take fix (docs/ARCHITECTURE.md, "The events of a take").

/// Frames whose slices may be in at one time: the lowest that isn't published, and those behind it.
pub const FLIGHT: u64 = 4;

/// Most bytes of a frame.
pub const MAX_UNIT: u64 = 1 << 28;

/// The number of a refusal that has none of its own: the event isn't due.
pub const NOT_DUE: u16 = 0;
/// The refusal of a frame where the commits lag.
pub const LAGGING: u16 = 91;
/// The refusal of an event in a take that a fault ended.
pub const STOPPED: u16 = 94;
/// The refusal of a frame more than the take may have.
pub const TAKE_FULL: u16 = 95;
/// The refusal of a frame behind the footer.
pub const ENDED: u16 = 96;
/// The refusal of a slice that is in.
pub const DOUBLE: u16 = 100;
/// The refusal of a slice that no frame has now.
pub const STRANGER: u16 = 101;
