use thiserror::Error;

/// The first rule that the bytes of a frame break (docs/formats/frames.md, "Refusals of frames"), in the order in which they are
/// tried. `at` is a place in the frame and `other` the number that breaks the rule, unless the variant says otherwise.
#[derive(Clone, Copy, Debug, PartialEq, Eq, Error)]
pub enum FrameFault {
    /// There are fewer bytes than the least frame header has. `at` is their number, `other` 0.
    #[error("the frame has {at} bytes, and a frame has at least 28")]
    FrameShort { at: u64, other: u64 },
    /// The frame's name is missing. `other` is 0.
    #[error("bytes 4 to 7 aren't icpf")]
    NotIcpf { at: u64, other: u64 },
    /// The frame size isn't the number of bytes.
    #[error("the frame size says {other} bytes, and there are more or fewer")]
    SizeWord { at: u64, other: u64 },
    /// The frame header is too short for its fields and the matrices that it loads, or passes the frame.
    #[error("the frame header's size of {other} is too small for it, or passes the frame")]
    HeadSize { at: u64, other: u64 },
    /// The bitstream version is above 1.
    #[error("the bitstream version is {other}, and not 0 or 1")]
    Version { at: u64, other: u64 },
    /// The chroma format isn't 4:2:2, which is 2.
    #[error("the chroma format is {other}, and not 2")]
    Chroma { at: u64, other: u64 },
    /// The interlace mode is the reserved one.
    #[error("the interlace mode is {other}, and not 0 to 2")]
    Interlace { at: u64, other: u64 },
    /// Width or height can't be configured: `at` says which.
    #[error("the size at byte {at} is {other}, which no take may have")]
    Dimensions { at: u64, other: u64 },
    /// There is an alpha channel.
    #[error("the alpha channel's type is {other}, and not 0")]
    Alpha { at: u64, other: u64 },
    /// A coded picture is too short for its header and its slice table, or passes the frame. `at` is where it begins,
    /// `other` its number, from 0.
    #[error("coded picture {other} at byte {at} is too short for its header and slice table, or passes the frame")]
    PictureSize { at: u64, other: u64 },
    /// A slice passes its coded picture. `at` is its place in the slice table, `other` its number in the frame.
    #[error("slice {other}, whose size stands at byte {at}, passes its coded picture")]
    SliceTable { at: u64, other: u64 },
}
