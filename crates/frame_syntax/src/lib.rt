//! The syntax of coded frames (SMPTE RDD 36), read and written.
//!
//! The crates above rest on `IsFrame` of `specs/Frames.antt`: what stands in the bytes of a frame, which `read_frame`
//! answers. Bytes are a frame or break one first rule, and not both (`refusals_are_exact`). A frame is written around
//! slices that lie in its bytes already: `put_frame_front` and `put_picture_front` write what stands before them, and the
//! whole is then `frame_bytes` of `specs/Written.antt`, a frame of just these slices (`written_frames_are_frames`).
//!
//! Terms: a *frame* is the bytes of one coded frame, its size and name included; a *coded picture* is a whole frame or
//! one field of it; a *slice* is a run of macroblocks, whose bytes are not looked into here; the *slice table* has the
//! bytes of each slice of a coded picture.
//!
//! Nothing is said of what stands in a slice. Nothing here takes memory.
#![tactic(auto)]

mod difference;
mod fault;
mod frame;
mod frame_head;
mod frame_slices;
mod front;
mod picture_head;
#[cfg(test)]
mod tests;

pub use difference::differs;
pub use fault::FrameFault;
pub use frame::{FrameParts, read_frame, refusals_are_exact};
pub use frame_head::{FrameHead, HEAD_AT, LOADS_AT, MATRIX_LEN};
pub use frame_slices::FrameSlices;
pub use front::{
    MACROBLOCK_ROOM, SLICE_ROOM, frame_room, head_of, put_frame_front, put_picture_front,
    written_frames_are_frames,
};
pub use picture_head::{ENTRY_LEN, LEAST_PICTURE_HEAD, PictureHead};
