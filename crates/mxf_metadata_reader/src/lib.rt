//! The header metadata of an MXF file (SMPTE ST 377-1), read.
//!
//! The crates above rest on `read_sets`, which answers what the sets of any metadata say of a take, or the first
//! rule that they break (`IsReadSets` and `Refuses` of `specs/Reads.antt`, one at most by `set_refusals_are_exact`). The
//! metadata that `put_metadata` writes is read as it was written (`metadata_is_read`).
//! The definitions look at items of key, length and value alone: the tags that a primer pack lists (`tags_of_primer`), the
//! set that an item is (`set_of`), the size of an item's value (`is_sized`), and the sets that it names (`names_of`,
//! `find`). Where they say something, the item is a set or a primer pack by the writers' relations (`sets_are_items`).
//!
//! Terms: a set is *cut* where its value ends inside an item; a *reference* is an item that names other sets by
//! their instance identifiers.
//!
//! Nothing is said of sets that nothing names, of sets of other kinds, or of what stands in a clip or a package.
#![tactic(auto)]

#[cfg(test)]
mod bare_tests;
mod fault;
mod fields;
mod forms;
mod laws;
mod links;
mod outline;
mod primer;
mod reading;
#[cfg(test)]
mod tests;

pub use fault::SetFault;
pub use fields::Sets;
pub use forms::{is_sized, size_of};
pub use laws::sets_are_items;
pub use links::{find_item, is_reference, own_number};
pub use outline::kind_of;
pub use primer::{Primer, is_batch_of, read_primer};
pub use reading::{metadata_is_read, read_sets, set_refusals_are_exact};
