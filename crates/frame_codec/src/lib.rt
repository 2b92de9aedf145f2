//! Frames of pictures, both ways, on one thread (SMPTE RDD 36; rate rule, weights and transform own).
//!
//! The crates above rest on two contracts: `FrameEncoder::encode` writes the frame that stands for a picture
//! (`IsCodedFrame` of specs/Coded.antt), and `decode_frame` answers the picture that bytes mean (`MeansFrame` of
//! specs/Frames.antt), or the first rule that they break (`Refuses` of specs/Faults.antt). A picture has one frame, bytes
//! mean one picture, and the frame of a picture means the one that its levels give back (`coded_frames_are_one`,
//! `frames_mean_one`, `coded_frames_mean`).
//!
//! Terms: a frame, a coded picture and a slice are those of frame_syntax; a picture is one of picture_plane. An encoder
//! takes its memory once, for any number of frames. Not promised: how long a frame is, beyond its bound, and how much is
//! lost.
#![tactic(auto)]

mod decoder;
#[cfg(test)]
mod decoder_tests;
mod encoder;
#[cfg(test)]
mod encoder_tests;
mod fault;
mod laws;
mod sample_source;
mod source;
#[cfg(test)]
mod tests;
mod writing;

pub use decoder::{decode_frame, open_frame, picture_of, setup_of};
pub use encoder::{FrameEncoder, encode_frame};
pub use fault::DecodeFault;
pub use laws::{
    coded_frames_are_one, coded_frames_are_short, coded_frames_mean, frames_mean_one,
    refusals_are_one, refused_means_nothing,
};
pub use sample_source::{SampleReader, SampleSource};
pub use source::{SLICE_MOST, SliceSource, SliceWriter, slices_are_short};
pub use writing::put_frame;
