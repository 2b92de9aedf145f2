//! A take as the crates above see it, whatever its file looks like: where its units lie, and the layout of the file.
//!
//! The crates above rest on the laws of the trait `TakeLayout`: the growing file of no units is the head, of one unit
//! more it is longer by the unit's lead and the unit, and the closed file is the growing one and the tail. What follows of
//! them for lists of units is stated once, on functions that do nothing (`units_lie`, `looks_decide`, `files_are_one`,
//! ..). `GrowingFile` keeps in memory where the units lie and where the file ends.
//!
//! Terms: a *unit* is a coded frame; a *lead* is what stands in the file between a unit and the bytes before it; the
//! *growing file* is the file of the units so far, before it is closed; the *places* say where its units lie.
//!
//! Not promised: anything of what a head, a lead or a tail says.
#![tactic(auto)]

mod growing;
mod laws;
mod layout;
mod place;
mod walk;

pub use growing::GrowingFile;
pub use laws::{files_are_one, files_fit, growing_begins, looks_decide, rooms_suffice, units_lie};
pub use layout::TakeLayout;
pub use place::Place;
pub use walk::Walk;
