//! A take that was stopped is recovered to the closed file of its first units, of which none is missing that was acknowledged.
//!
//! The crates above rest on `stopped_takes_are_recovered`, which joins the state of a take with its recovery in every layout and
//! on every disk that tells: whatever a crash leaves of a take (`IsLeftOf` of `specs/Stopped.antt`), or of a recovery of that, is
//! not refused, and an answer is one of this take (`IsRecoveredTake`). In the layout of pictures that essence is the OP1a file of just these units
//! (`stopped_takes_are_op1a`).
//!
//! Terms: those of take_state and of recovery.
//!
//! Not promised: that a recovery comes to an answer, since its disk may fail; and nothing here runs.
#![tactic(auto)]

mod laws;
#[cfg(test)]
mod tests;

pub use laws::{stopped_takes_are_op1a, stopped_takes_are_recovered};
