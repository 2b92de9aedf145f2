//! One part of a slice, written and read: the levels of a component's blocks (RDD 36).
//!
//! The crates above rest on `write_part` and `read_part` (`write_part_with` and `read_part_with` are the same with tables,
//! and faster; `read_short_part` is faster still, and leaves what it can't read to `read_part_with`). They meet one
//! grammar: DC levels, each by its difference from the one before, and then pairs of a run of zeros and a level.
//! `write_part` writes the bytes of the one spelling (`IsSpelled`, `IsPadded`) exactly where it has room; `read_part`
//! answers levels exactly where the bits are their spelling and zeros (`IsComponent`), and else the first fault
//! (`Breaks`). `least_bits` answers a number of bits that no spelling of a part at a scale is below (`part_bound` of
//! specs/Bound.antt, `part_bound_is_low`).
//!
//! Levels are interleaved: scan position k of block b stands at entry k * blocks + b. What samples, weights and scans
//! make of them is for the crates above. Laws of spellings, for proofs to cite, are in specs/laws.
//!
//! Nothing here takes memory. Not promised: that levels above 2^13 in size have a spelling.
#![tactic(auto)]

mod bound;
mod dc;
mod fault;
mod pairs;
mod part;
mod short_pairs;
mod short_part;
mod symbols;

pub use bound::{Least, least_bits};
pub use fault::PartFault;
pub use part::{read_part, read_part_with, write_part, write_part_with};
pub use short_part::read_short_part;
