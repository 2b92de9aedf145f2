//! The commands over a take: `check` and `frame`, which look at it, and `recover`, which closes it after a stop.
//!
//! The crates above rest on three calls, one for each command. Where the disk tells what it holds, what `check` and `frame`
//! write and answer is said by `Views` (`specs/Views.antt`) of `Checks` and of `Shows` (`specs/Checks.antt`,
//! `specs/Shows.antt`), by the bytes of the take's file alone, and the disk is only read; what `recover` leaves, writes and
//! answers is said by `RunsRecovery` (`specs/Recovers.antt`), by the contract of recovery. `HasTakeCauses`
//! (`specs/Causes.antt`) has the cause of each answer, whatever the disk tells.
//!
//! Terms: an answer is a `Status`; a unit is what the file holds of one frame.
#![tactic(auto)]

mod checks;
mod fault;
mod line;
mod output;
mod recovers;
mod shows;
#[cfg(test)]
mod tests;

pub use checks::check;
pub use fault::{TakeFault, take_status};
pub use recovers::recover;
pub use shows::frame;
