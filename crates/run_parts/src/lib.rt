//! What the commands of the program share: their answers, and the file of a take on its way to a sink.
//!
//! The crates above rest on two contracts. Each fault of a feed and each refused unit has one answer, which `feed_status`
//! and `unit_status` give by `specs/Statuses.antt`. A `TakeFile` writes the parts of a layout's file one by one, and each
//! piece is written whole or, where the sink fails, up to some byte (`Writes`).
//! `HasDeviceCauses` (`specs/Causes.antt`) has what the counts of faults show about an answer, in every command alike.
//! `unit_fault` reads a unit as a frame (`specs/Units.antt`).
//! Terms: an answer is a `Status`; a feed's end is a `FeedEnd`; a piece is what one call writes.
//! Not promised: anything of what a head, a lead or a tail says, and how long a call takes.
#![tactic(auto)]

mod end;
mod status;
mod take_file;
mod unit;

pub use end::{CommandEnd, FeedEnd, PutFault};
pub use status::{FAULTY_WORDS, MEMORY, feed_status, refusal};
pub use take_file::TakeFile;
pub use unit::{UnitFault, unit_fault, unit_status};
