//! The metadata of a partition, judged as they stand in memory (SMPTE ST 377-1, ST 378).
//!
//! The crates above rest on three calls over the bytes of a primer pack and of the sets and fill behind it, which say what the
//! definitions of `mxf_op1a` say of those items (`specs/Metadata.antt`): `first_wrong`, the least place where they are wrong,
//! `first_other_duration`, the first set with a duration that isn't a number of frames, and `take_id`, the take that they are of.
//!
//! Terms: a set is *sound* where it is whole, and each of its items has a tag of the primer and its size, and names sets that
//! are there; it is *held* by the places of its key and its value. What is followed by names is kept set by set: of each
//! set the least place that follows from it, so that each set is read a few times, however often it is named.
//!
//! Nothing is said of bytes that aren't whole items, or of items that are neither sets nor fill.
#![tactic(auto)]

mod chain;
mod durations;
mod firsts;
mod flags;
mod judging;
mod names;
mod outline;
mod parts;
mod sound;
mod takes;
#[cfg(test)]
mod tests;

pub use durations::first_other_duration;
pub use judging::first_wrong;
pub use takes::take_id;
