//! Why bytes are no slice.

use thiserror::Error;

/// Why bytes are no slice: the first rule that they break (SMPTE RDD 36; the order is own).
#[derive(Clone, Copy, Debug, PartialEq, Eq, Error)]
pub enum SliceFault {
    /// Fewer than six bytes: `at` is how many there are.
    #[error("a slice of {at} bytes")]
    SliceShort { at: u64 },
    /// The header size is below six, or above the slice's length.
    #[error("the header size at byte {at} of the slice is out of range")]
    SliceHeader { at: u64 },
    /// The quantiser index is 0 or above 224.
    #[error("the quantiser index at byte {at} of the slice is out of range")]
    Index { at: u64 },
    /// Header, Y and Cb have more bytes together than the slice.
    #[error("the parts named at byte {at} of the slice pass it")]
    Parts { at: u64 },
    /// The bits of part 0, 1 or 2 end inside what is due at bit `at` of the part.
    #[error("the bits of part {part} end inside what is due at bit {at}")]
    BitsEnd { part: u8, at: u64 },
    /// The code at bit `at` of the part has more than 32 bits.
    #[error("the code at bit {at} of part {part} has more than 32 bits")]
    TooLong { part: u8, at: u64 },
    /// The run at bit `at` of the part passes the last level.
    #[error("the run at bit {at} of part {part} passes the last level")]
    RunPast { part: u8, at: u64 },
    /// The product at a raster place of a block of the first such part is above 2^22 in size.
    #[error("the product at place {place} of block {block} is above 2^22")]
    CoefficientRange { block: u64, place: u64 },
}
