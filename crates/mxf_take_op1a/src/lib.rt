//! The closed file of a take is an MXF file of operational pattern OP1a (SMPTE ST 377-1, ST 378) of the take's units.
//!
//! The crates above rest on `closed_files_are_op1a`: `IsOp1a` of mxf_op1a, which names no layout, holds of `closed` of
//! mxf_take_file, the layout that is written. What the ten clauses leave free, and such a file says, is the law
//! `closed_files_name_their_take`: the take, durations that the header doesn't know, the numbers of streams, and the kinds of
//! sets that are named.
//!
//! The proofs come in two parts. In `proofs/Shapes.antt` a *shape* is any file of a header, bodies that begin before some
//! of the units, and a footer; the ten clauses hold of each shape whose packs and index tables say what stands there. The
//! layout is such a shape: `proofs/TakeShape.antt` and the files behind it.
//!
//! Nothing is said of files that grow, and nothing here runs.
#![tactic(auto)]

mod laws;

pub use laws::{closed_files_are_op1a, closed_files_name_their_take};
