//! Local sets (SMPTE ST 336): a key, a length, and items of a local tag, a length and a value.
//!
//! The crates above rest on `put_set`, which writes the `local_set` of a list of items, and on `put_items`,
//! which writes the items alone. Both are of `specs/Sets.antt`, so each set of a format is a table of items
//! there and the same table in code, and one loop writes any of them. What stands in the bytes of any set is
//! `set_value`, a list of raw items of tag and value, of which ours are an instance (`raw`); bytes are one such
//! list at most (`set_items_are_unique`). `read_item` reads the item at a place of any value; the whole items with
//! which a value begins are `items_in`, and what is left `rest_in` (`specs/Reads.antt`, `set_items_are_read`).
//!
//! Terms: a *local tag* is a number of two bytes that names an item inside its set; a *batch* is a count, the
//! size of an item, and the items. Lengths have two bytes in items and three in sets that are written.
//!
//! Nothing is said of what a tag means.
#![tactic(auto)]

mod laws;
mod reading;
mod set;
#[cfg(test)]
mod tests;
mod value;

pub use laws::set_items_are_unique;
pub use reading::{ItemPlace, read_item, set_items_are_read};
pub use set::{ITEM_HEAD_LEN, Item, items_len, put_items, put_set};
pub use value::{BATCH_HEAD_LEN, ID_LEN, Value};
