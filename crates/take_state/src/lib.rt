//! The locked state of a take that is recorded: its units are published, and commits make them durable while more are.
//!
//! The crates above rest on `TakeState`. Each call of it that succeeds is one event of a take, and each that fails is the event
//! that stops it (`IsEvent` and `IsPublish` of `specs/Events.antt`). What stands between calls is `IsTaken` of
//! `specs/Stands.antt`, which `TakeState::stands` shows. And whatever a crash leaves at a moment of a call is recovered to
//! published units, and to all that were durable when the call began (`CrashesSafely` of `specs/Crashes.antt`).
//!
//! Terms: a commit is *out* while it waits for a barrier, which the caller runs for the ticket of `ticket` while others publish;
//! `settle` then takes the commit on. The units of a take may be *named* by `TakeUnits`: then contracts speak of their bytes.
//!
//! It makes no sync but in `open`, takes no memory but there, and knows no frame's coding. Not promised: that a commit is ever
//! made, and that a barrier keeps what it says.
#![tactic(auto)]

mod barriers;
#[cfg(test)]
mod commit_tests;
mod commits;
mod fault;
#[cfg(test)]
mod open_tests;
mod publish;
#[cfg(test)]
mod publish_tests;
mod read;
#[cfg(test)]
mod read_tests;
mod start;
mod state;
#[cfg(test)]
mod turns;
mod units;
mod write;

pub use fault::{COMMITS_AREA, DiskFault, ESSENCE_AREA, OpenCause, OpenFault, PublishFault};
pub use state::TakeState;
pub use units::TakeUnits;
