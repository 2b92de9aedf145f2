//! A take is closed after a stop, whatever a crash has left of it.
//!
//! The crates above rest on `recover`: where the areas are recovered to units (`Recovers` of commit_sidecar), it leaves their
//! closed file and the mark that says so (`Leads` of `specs/Recoveries.antt`); else it names the place at which they aren't a
//! take's (`Refuses`), and they are read as before. It may be stopped at any call of the disk and run again: what was safe at
//! the start stays safe (`StaysSafe` of `specs/Crashes.antt`).
//!
//! Terms: those of commit_sidecar and of commit_phases.
//!
//! Not promised: anything of an essence behind the length that the commits say, which is cut.
#![tactic(auto)]

mod answer;
mod close;
mod judging;
mod laws;
mod recovering;
mod settle;
#[cfg(test)]
mod tests;
mod window;

pub use answer::{RecoverFault, Recovered};
pub use laws::{acked_units_are_kept, recoveries_stand};
pub use recovering::recover;
