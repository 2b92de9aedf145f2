//! Pictures in memory, how their frames are cut into slices, and the samples of a slice, both ways.
//!
//! The crates above rest on two relations of `specs/Blocks.antt`: `cut_slice` gives the samples that stand at the places
//! of a slice's blocks, past the edge the last line and column repeated (`AreCut`), and `place_slice` puts samples at
//! these places and leaves every other one (`IsPlaced`). Which slices a frame has is `IsSlice` of `specs/Slices.antt`.
//! `samples_are_covered`, `slices_keep_apart` and `slices_show_one_picture` say of all frames that each sample stands in
//! exactly one slice, so that slices put one by one keep each other and show one picture.
//!
//! Terms: a *coded picture* is a frame or one of its two fields; a *line* is a row of a coded picture; a *row* is one of
//! the frame; a *place* of a block is one of its 64 samples, row by row.
//!
//! A picture takes its memory in `new`, and nothing else here takes any. Nothing is said of a frame's bytes.
#![tactic(auto)]

mod cut;
mod cut_block;
mod frame_size;
mod laws;
mod part_blocks;
mod picture;
mod place;
mod planes;
mod rows;
mod runs;
mod samples;
mod slice_names;
mod slices;
#[cfg(test)]
mod tests;

pub use cut::cut_slice;
pub use frame_size::FrameSize;
pub use laws::{
    any_samples_are_shown, samples_are_covered, slices_keep_apart, slices_show_one_picture,
};
pub use picture::Picture;
pub use place::place_slice;
pub use planes::Plane;
pub use rows::cut_row;
pub use samples::SliceSamples;
pub use slice_names::{Field, SliceName};
pub use slices::{picture_slice, picture_slices, slice_count, slice_name};
