//! Items of key, length and value (SMPTE ST 336), of which MXF files and streams are made.
//!
//! The crates above rest on the definition of a list of items, `AreItems`, and on its law: bytes are one
//! such list at most, in keys, values and even the forms of the lengths (`items_are_unique`). Bytes of which only
//! a part is items have an `Outline`, the items and a rest, and no other (`outlines_are_one`). What they
//! write begins with `put_klv_head_at`, whose bytes are `klv_head`. What stands at a place is read by
//! `read_klv`, or by `read_head` where the value isn't held: an item (`IsItemAt` of `specs/Reads.antt`),
//! or the one refusal that stands there (`refusals_are_exact`).
//!
//! An item's *form* is the number of bytes that follow the first byte of its length: 0 where that byte is
//! the length itself, and otherwise 1 to 8. The readers take all nine; the writer here has two, three bytes
//! for sets and packs and seven bytes for picture elements. An item's *head* is its key and its length.
//!
//! Nothing is said of what a key means or of what stands in a value.
#![tactic(auto)]

mod head;
mod item;
mod items;
mod outline;

pub use head::{
    ELEMENT_HEAD_LEN, Form, Head, KlvFault, MAX_HEAD_LEN, SET_HEAD_LEN, put_klv_head,
    put_klv_head_at, read_head,
};
pub use item::{Klv, read_klv, refusals_are_exact};
pub use items::{items_are_unique, items_have_lengths};
pub use outline::outlines_are_one;
