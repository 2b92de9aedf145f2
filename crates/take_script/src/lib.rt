//! A take's commits on one thread, step by step, so that a take may be stopped between any two of them.
//!
//! The crates above rest on `commit_step` and `tail_step`. Each makes the one call that the take's commit phase asks for, and
//! says which event of the take that was (`IsStep` of `specs/Steps.antt`). They ask nothing of the take: what a call needs is
//! looked at.
//!
//! Terms: a *step* is one call of a take; with a barrier it is the run for the ticket that is out, and its settling.
//!
//! Not promised: that a take is ever durable, since its owner takes the steps.
#![tactic(auto)]

mod laws;
#[cfg(test)]
mod script;
mod step;
mod steps;
#[cfg(test)]
mod tests;

pub use laws::durable_frames_are_kept;
pub use step::{Step, StepFault};
pub use steps::{commit_step, tail_step};
