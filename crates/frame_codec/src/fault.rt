//! Why a frame isn't decoded.

use frame_syntax::FrameFault;
use slice_codec::SliceFault;
use thiserror::Error;

/// Why a frame isn't decoded: the first rule that it breaks (docs/formats/frames.md, "Coded frames").
#[derive(Clone, Copy, Debug, PartialEq, Eq, Error)]
pub enum DecodeFault {
    /// Memory for the picture was wanted.
    #[error("out of memory")]
    Memory,
    /// The bytes are no frame.
    #[error(transparent)]
    Frame(FrameFault),
    /// The frame loads one of the two quantisation matrices alone, as the flags at this byte say.
    #[error("the frame loads one quantisation matrix alone, by byte {at}")]
    OneMatrix { at: u64 },
    /// The slice of this number, counted over both coded pictures, is no slice.
    #[error("slice {index}: {fault}")]
    Slice { index: u64, fault: SliceFault },
}
