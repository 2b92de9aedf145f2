//! The names that the parts of a take's MXF file share: keys, labels, numbers of streams, local tags, identifiers, the
//! edit rate, and the item that carries a coded frame.
//!
//! The crates above rest on `Ids::new`, which makes the identifiers of a take (`ids_of` of `specs/Identifiers.antt`), on
//! `partition_key` and `set_key` of `specs/Keys.antt`, and on `picture_element` of `specs/Picture.antt`. What two names
//! have in common is the law `names_agree`.
//!
//! Terms: a *key* begins an item and says what it is; a *label* names a kind of file or of essence; a *local tag* names an
//! item inside its set; a *unit* is the bytes of one coded frame.
//!
//! Nothing is said of where in a file any of them stands.
#![tactic(auto)]

mod edit_rates;
mod ids;
mod keys;
mod labels;
mod laws;
mod partition_keys;
mod picture;
mod streams;
mod tags;
#[cfg(test)]
mod tests;

pub use edit_rates::edit_rate;
pub use ids::{Ids, set_id, show_sizes, umid};
pub use keys::{
    INDEX_SEGMENT_KEY, PARTITION_KEY_START, PICTURE_ELEMENT_KEY, PICTURE_TRACK_NUMBER, PRIMER_KEY,
    RANDOM_INDEX_KEY, SET_KEY_START, set_key,
};
pub use labels::{ESSENCE_CONTAINER_LABEL, OPERATIONAL_PATTERN_1A, UMID_HEAD};
pub use laws::names_agree;
pub use partition_keys::{PartitionKind, PartitionStatus, partition_key};
pub use picture::picture_elements_are_items;
pub use streams::{ESSENCE_STREAM, INDEX_STREAM};
pub use tags::{BODY_SID, INDEX_SID, INSTANCE_ID};
