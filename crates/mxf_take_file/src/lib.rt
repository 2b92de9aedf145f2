//! The file of a take: a closed MXF file of operational pattern OP1a (SMPTE ST 377-1, ST 378), and the same file while
//! it grows.
//!
//! The crates above rest on `PictureLayout`, which keeps the laws of `TakeLayout`; what its bytes are is said in
//! `specs/Layout.antt`, as `growing` and `closed` over whole lists of units. What those bytes say of the file is in nine laws:
//! of the packs `packs_stand_where_they_say`, `packs_name_the_one_before`, `packs_count_what_stands`,
//! `packs_name_their_streams` and `packs_say_what_they_begin`, of the index `random_index_names_packs`,
//! `index_names_elements` and `index_segments_join`, of the whole `closed_files_are_items`.
//!
//! Terms: a *body partition* begins before every `part`-th unit with a pack and the index table segment of the units of
//! the one before; the *essence stream* is all picture elements, joined; a *stream offset* is a place in it.
//!
//! Nothing here reads a file back, but for `walk`, which looks at one lead.
#![tactic(auto)]

#[cfg(test)]
mod five_frames;
mod kept;
mod laws;
mod lead;
mod packs;
mod picture_layout;
mod put;
mod tail;
#[cfg(test)]
mod tests;
mod walk;

pub use laws::{
    closed_files_are_items, index_names_elements, index_segments_join, packs_count_what_stands,
    packs_name_the_one_before, packs_name_their_streams, packs_say_what_they_begin,
    packs_stand_where_they_say, random_index_names_packs,
};
pub use picture_layout::PictureLayout;
