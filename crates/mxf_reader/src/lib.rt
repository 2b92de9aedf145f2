//! An MXF file on a take's disk, read back (SMPTE ST 377-1, ST 378).
//!
//! The crates above rest on `Catalogue`: a file is accepted exactly where it is an OP1a file of a list of units
//! (`IsCatalogueOf` of `specs/Catalogues.antt`), and else the first clause that it breaks is named, and where (`BreaksBy`). It
//! keeps where each unit lies, so that one can be read by its number.
//!
//! Inside, `walk` goes once over the file's items and keeps what the clauses are judged by: a few numbers for each partition,
//! element and segment (`AreSeen` of `specs/inner/Files.antt`, by the definitions of mxf_op1a). It reads of each item the bytes
//! before its value, and of a partition pack its fields, and never an element's value. Six clauses follow from what is kept;
//! for the others the random index pack, the metadata of header and footer, and the segments are read, one at a time.
//!
//! Terms: a *mark* is what an item's head says of it; a *run* is a primer with the sets behind it, or a segment with those
//! behind it, up to what is neither of the kind nor fill.
//!
//! Nothing is said of a disk that doesn't tell what it holds, but for its faults, its lengths and that each call ends.
#![tactic(auto)]

mod catalogue;
mod clauses;
mod fault;
mod file;
mod index;
mod items;
mod judge;
mod kinds;
mod mark;
mod metadata;
mod names;
mod part;
mod seen;
mod spans;
#[cfg(test)]
mod tests;

pub use catalogue::{Catalogue, Summary};
pub use fault::{CheckFault, Past, UnitFault};
