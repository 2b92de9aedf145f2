//! What an MXF file of operational pattern OP1a is (SMPTE ST 377-1, ST 378), in ten clauses over its items.
//!
//! The crates above rest on `IsOp1a` of `specs/Op1a.antt`, which ties bytes to the units whose file they are and names no
//! layout, and on `first_broken` there, the first clause that bytes break and where: both come from the same ten tests of
//! `specs/Clauses.antt`. Bytes are a file of one list of units or break one clause first (`files_are_judged_once`). What
//! the tests mean is said without them: they are a file where they are items that keep the relations of `specs/Kept.antt`
//! (`files_are_items_in_partitions`), and break a clause where `specs/FirstBroken.antt` says
//! (`first_broken_clause_is_named`).
//!
//! Terms: a *partition* is a pack and the items behind it up to the next; a *body* is a partition but the first and the
//! last; the *essence stream* is what bodies hold from their first element on.
//!
//! Nothing here reads files, and nothing is said of which bytes a layout writes.
#![tactic(auto)]

mod breaks;
mod keys;
mod laws;
mod places;
mod whole;

pub use breaks::Break;
pub use keys::{ELEMENT_KEY_LEN, FILL_KEY};
pub use laws::{
    elements_are_relations, files_are_judged_once, kept_clauses_are_relations,
    partitions_are_relations,
};
pub use places::{breaks_are_named, first_breaks_are_named, first_broken_clause_is_named};
pub use whole::{files_are_items_in_partitions, items_stand_at_their_places};
