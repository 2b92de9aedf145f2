//! The phases of a commit: in each, what a disk holds of a take, and how far it is kept.
//!
//! The crates above rest on one record, `Table` of `specs/Table.antt`: whoever holds it knows that whatever a crash leaves is
//! recovered to units of the take, and to all that were acknowledged (`tables_are_safe`). The laws in `specs/laws` say what each
//! call of a disk does to it: the writes of a growing take, those of a commit, and what a barrier settles. `Goes` of
//! `specs/Goes.antt` carries this over any number of calls.
//!
//! Terms: a commit is *out* while it waits for a barrier; a phase is *settled* once the barrier has run for it.
//!
//! Nothing here touches a disk.
#![tactic(auto)]

mod laws;
mod phases;
#[cfg(test)]
mod tests;

pub use laws::{lays_out, tables_are_safe};
pub use phases::{area_of, next_phase};
