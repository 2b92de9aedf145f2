//! Slices of up to four frames, on their way to workers and back.
//!
//! The crates above rest on the contract of `Desk`, whose value is a `DeskSeen` of specs/Desks.antt. `next_job` hands out each
//! slice once and in order (`HandsOut`), `hand_in` takes coded slices in in any order, and `take_frame` writes the frame of the
//! lowest picture in flight (`written`: `IsFrameFor` of specs/Frames.antt, by `IsCodedFrame` of frame_codec). What a slice is stands
//! in the types: a `Job` has the samples of its slice of its picture (`HasSamples` of specs/Slices.antt), a `SliceDone` this slice
//! coded (`IsDone`).
//!
//! Terms: a frame is *in flight* from its offer until it is taken. A slice is *in* from its being handed in until its frame is
//! taken. The *pictures* are those of the feed that N names, numbered from 0, and where that feed tells no bytes nothing is said of
//! them. P names the block of the slots and the configuration.
//!
//! Not promised: that a slice which was handed out comes back. Behind `Desk::new` nothing takes memory.
#![tactic(auto)]

mod desk;
mod done;
mod frame;
mod hand_in;
mod in_flight;
mod job;
mod names;
mod room;
mod shelf;
#[cfg(test)]
mod tests;
mod worker;

pub use desk::Desk;
pub use done::SliceDone;
pub use hand_in::HandIn;
pub use in_flight::InFlight;
pub use job::Job;
pub use names::DeskName;
pub use room::desk_block;
pub use shelf::FLIGHT;
pub use worker::{SliceWorker, do_job};
