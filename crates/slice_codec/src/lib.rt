//! Slices of coded pictures, written and read (RDD 36; rate rule and refusals' order own).
//!
//! The crates above rest on two contracts: `SliceEncoder::encode` writes the bytes of the one slice that stands for samples
//! (`IsCodedSlice` of specs/Coded.antt: the least index at which the whole slice fits its budget, else the greatest), and
//! `SliceDecoder::decode` answers the samples that bytes mean (`MeansSlice` of specs/Slices.antt), or the first rule that
//! they break (`Refuses` of specs/Faults.antt). Bytes mean samples in one way, and a coded slice means the samples that
//! its levels give back (`slices_mean_one`, `coded_slices_mean`).
//!
//! A part is Y, Cb or Cr of a slice; a setup is what a frame says of all its slices: the scan and the weights. Nothing here
//! takes memory: encoder and decoder hold room for the numbers of one slice, so make each once for many slices. Not
//! promised: what stands in the room behind a slice that is written.
#![tactic(auto)]

mod choice;
mod coding;
mod decoder;
mod encoder;
mod fault;
mod head;
mod parts;
mod read_laws;
#[cfg(test)]
mod reading_tests;
mod search;
mod setup;
mod short;
#[cfg(test)]
mod tests;
mod weighing;
mod writing;

pub use coding::Coding;
pub use decoder::{SliceDecoder, decode_slice};
pub use encoder::{SliceEncoder, encode_slice};
pub use fault::SliceFault;
pub use read_laws::{coded_slices_mean, refusals_are_one, refused_means_nothing, slices_mean_one};
pub use setup::{SliceSetup, scan_of};
