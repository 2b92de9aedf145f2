//! A take as the crates above see it: what may happen to it, event by event. The layout of its file is a crate of its
//! own, passed on, so that an edit of the events doesn't prove the file again.
//!
//! The crates above rest on one relation, `Steps` of `specs/Steps.antt`: which answer an event has in a state, and which
//! state it leads to. `Core::step` is this relation. `steps_are_one`, `runs_are_legal`, `published_slices_were_in` and
//! `looks_see_the_history` say what holds of every run, whatever events come, and `states_stay_sound` what each event keeps
//! (`specs/Sound.antt`). Who keeps a take's entries without its slices has `History`. Of a take's file they rest on the laws
//! of `TakeLayout` and on `GrowingFile`.
//!
//! Terms: an *entry* is what is known to have happened, and the *history* is the entries in order; a *step* counts
//! entries; a *snapshot* is what the first entries show; a frame is *published* once it may be read, and *acked* once it
//! is told to be durable; a *commit* makes the frames of a *mark* durable.
//!
//! A `Core` takes its memory in `new`, and none in a step. Not promised: that any event comes, that what an event says of
//! a disk is so, and anything of what a head, a lead or a tail says.
#![tactic(auto)]

mod commit_phase;
mod core_steps;
mod entry;
mod event;
mod history;
mod laws;
mod mark;
mod numbers;
mod slice_flags;
mod snapshot;
#[cfg(test)]
mod tests;

pub use commit_phase::{CommitPhase, CorePhase};
pub use core_steps::Core;
pub use entry::Entry;
pub use event::{Answer, Event};
pub use history::History;
pub use laws::{
    histories_fit, looks_see_the_history, published_slices_were_in, runs_are_legal,
    states_stay_sound, steps_are_one,
};
pub use mark::{CoreMark, Mark};
pub use numbers::{
    DOUBLE, ENDED, FLIGHT, LAGGING, MAX_UNIT, NOT_DUE, STOPPED, STRANGER, TAKE_FULL,
};
pub use snapshot::{Phase, Snapshot};
pub use take_layout::{
    GrowingFile, Place, TakeLayout, Walk, files_are_one, files_fit, growing_begins, looks_decide,
    rooms_suffice, units_lie,
};
