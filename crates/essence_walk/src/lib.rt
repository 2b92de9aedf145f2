//! The walk over the essence of a take after a stop: where the units lie that a commit's mark says are durable.
//!
//! The crates above rest on `walk_essence`. It answers places exactly where the mark names units in the essence, in any layout
//! (`Names` of `specs/Essences.antt`), and else says that the essence is damaged, and where (`IsDamaged`). An essence has one
//! answer (`essences_have_one_answer`), and the units that a mark names are those that the two areas are recovered to
//! (`marks_recover_units`).
//!
//! Of the essence the head, the leads and the tail are read, each byte once, and of a unit only what the layout asks for to
//! tell its length.
//!
//! Nothing is said of an essence that the disk doesn't tell, but for its faults, and that what is found lies inside.
#![tactic(auto)]

mod bytes;
mod ends;
mod fault;
mod laws;
mod look;
#[cfg(test)]
mod tests;
mod walk;

pub use fault::{ESSENCE_AREA, WalkFault};
pub use laws::{essences_have_one_answer, marks_recover_units};
pub use walk::walk_essence;
