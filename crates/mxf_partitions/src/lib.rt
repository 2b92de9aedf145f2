//! Partition packs and the random index pack of an MXF file (SMPTE ST 377-1), written and read.
//!
//! The crates above rest on what an item says as a pack, `pack_of` and `entries_of` of `specs/Reads.antt`. `read_partition`
//! and `read_random_index` answer that of the item with which bytes begin, or the one refusal that stands there
//! (`pack_refusals_are_exact`); `read_pack` and `count_pack_entries` do so for a reader that doesn't hold values, which may
//! read entries in pieces (`entries_stand_in_pieces`). `put_partition` writes
//! `partition_pack`, and `put_random_index`, or the three functions for its pieces, `random_index_pack`: what they write is
//! read back (`packs_read_back`), and an item says what stands in it (`IsPack`, `IsRandomIndex`) and nothing else
//! (`packs_say_what_stands`). Lengths, and the pieces of a random index pack, are laws in `specs/laws/Lengths.antt`.
//!
//! Terms: a *partition pack* is the item with which a partition of the file begins; a *SID* is the number of a
//! stream of essence or of index tables; the *random index pack* is the file's last item, which names the
//! partitions.
//!
//! Nothing is said of where packs stand, nor of whether what they tell of the file is so.
#![tactic(auto)]

#[cfg(test)]
mod examples;
mod fault;
mod fields;
mod index_pieces;
mod index_reading;
#[cfg(test)]
mod index_tests;
mod laws;
mod partition;
mod random_index;
mod read_laws;
mod reading;
#[cfg(test)]
mod reading_tests;

pub use fault::PackFault;
pub use index_pieces::{count_pack_entries, entries_stand_in_pieces};
pub use index_reading::{read_pack_entry, read_random_index};
pub use laws::packs_are_items;
pub use mxf_names::{PartitionKind, PartitionStatus};
pub use partition::{LABEL_LEN, PACK_FIELDS_LEN, PACK_LEN, Partition, put_partition};
pub use random_index::{
    MAX_ENTRIES, PACK_END_LEN, PACK_ENTRY_LEN, PackEntry, put_pack_entry, put_random_index,
    put_random_index_end, put_random_index_head, random_index_len,
};
pub use read_laws::{pack_refusals_are_exact, packs_read_back, packs_say_what_stands};
pub use reading::{PACK_FRONT_LEN, read_pack, read_partition};
