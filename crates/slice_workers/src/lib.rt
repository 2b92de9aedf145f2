//! Frames of pictures, both ways, on several threads: the same as on one.
//!
//! The crates above rest on two contracts: `encode_with` gives the frame that stands for a picture (`IsCodedFrame` of
//! frame_codec), and `decode_with` the picture that a frame means, or the first rule that it breaks (`MeansFrame` and
//! `Refuses`), for any number of workers.
//!
//! A worker takes its next slice by one counter, and codes it into memory of its own; the slices are joined in the order
//! of the file, whoever coded them. A slice that no worker took is coded by the caller. A picture has one frame
//! (`coded_frames_are_one` of frame_codec), so this one is that of one thread.
//!
//! Not promised: how many threads run, and which slices each codes.
#![tactic(auto)]

mod decoder;
mod encoder;
mod hand;
mod jobs;
mod reader;
mod round;
#[cfg(test)]
mod row_tests;
mod stock;
#[cfg(test)]
mod tests;

pub use decoder::decode_with;
pub use encoder::{WorkerEncoder, encode_with};
