//! The numbers that the configuration's format fixes (docs/FORMATS.md, "Configuration").

/// Bytes of a configuration.
pub const CONFIG_LEN: usize = 64;

/// Greatest width, in samples.
pub const MAX_WIDTH: u16 = 4096;
/// Greatest height, in rows.
pub const MAX_HEIGHT: u16 = 2304;
/// Greatest interlace mode: bottom field first.
pub const MAX_INTERLACE: u8 = 2;
/// Greatest frame rate code.
pub const MAX_RATE: u8 = 8;
/// Greatest aspect ratio code.
pub const MAX_ASPECT: u8 = 15;
/// Greatest binary logarithm of the macroblocks in a slice.
pub const MAX_LOG2: u8 = 3;
/// Greatest quantisation index.
pub const MAX_INDEX: u8 = 224;
/// Greatest number in `weights`: both matrices are loaded.
pub const MAX_WEIGHTS: u8 = 1;
/// Greatest number in `coding`.
pub const MAX_CODING: u8 = 3;
/// Greatest number in `drop`: drop frame timecode.
pub const MAX_DROP: u8 = 1;
/// Greatest budget, in bytes per macroblock.
pub const MAX_BUDGET: u16 = 4096;
/// Most frames per body partition.
pub const MAX_PART: u16 = 2000;
/// Most frames of a take.
pub const MAX_FRAMES: u32 = 1_000_000;
/// Most frames by which commits may lag.
pub const MAX_LAG: u16 = 1000;

/// Place of `width`.
pub const WIDTH_AT: usize = 0;
/// Place of `height`.
pub const HEIGHT_AT: usize = 2;
/// Place of `interlace`.
pub const INTERLACE_AT: usize = 4;
/// Place of `rate`.
pub const RATE_AT: usize = 5;
/// Place of `aspect`.
pub const ASPECT_AT: usize = 6;
/// Place of `primaries`.
pub const PRIMARIES_AT: usize = 7;
/// Place of `transfer`.
pub const TRANSFER_AT: usize = 8;
/// Place of `matrix`.
pub const MATRIX_AT: usize = 9;
/// Place of `log2`.
pub const LOG2_AT: usize = 10;
/// Place of `qmin`.
pub const QMIN_AT: usize = 11;
/// Place of `qmax`.
pub const QMAX_AT: usize = 12;
/// Place of `weights`.
pub const WEIGHTS_AT: usize = 13;
/// Place of `coding`.
pub const CODING_AT: usize = 14;
/// Place of `drop`.
pub const DROP_AT: usize = 15;
/// Place of `budget`.
pub const BUDGET_AT: usize = 16;
/// Place of `part`.
pub const PART_AT: usize = 18;
/// Place of `max_frames`.
pub const MAX_FRAMES_AT: usize = 20;
/// Place of `lag`.
pub const LAG_AT: usize = 24;
/// Place of the two zero bytes behind `lag`.
pub const ZERO_AT: usize = 26;
/// Place of `start`.
pub const START_AT: usize = 28;
/// Place of `take_id`.
pub const TAKE_ID_AT: usize = 32;
/// Place of `encoder`.
pub const ENCODER_AT: usize = 48;
/// Place of the zero bytes behind `encoder`, to the end.
pub const END_AT: usize = 52;
