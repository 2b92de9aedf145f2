//! The header metadata of a take's file (SMPTE ST 377-1): the primer pack and the structural metadata sets.
//!
//! The crates above rest on `put_metadata`, which writes the `metadata` of a configuration, of identifiers and of
//! a number of frames. Two laws hold of all metadata: `metadata_holds` (always as many bytes, only what the primer lists,
//! each value of its tag's size, each duration the number of frames) and `sets_are_linked` (each set has one identifier of
//! its own, each reference names one set of its tag's kind, and the material package shows the file package). The
//! definitions are tables: one of tags in `src/tags.rt`, one for each set in `specs/Sets.antt`.
//!
//! Terms: a *set* is a local set of the metadata, named by its instance identifier; the *primer* lists the local
//! tags that the sets use, each with a label; a *package* is material (what is shown) or a file (what is stored).
//!
//! Nothing here reads metadata (`mxf_metadata_reader` does), and nothing says where in a file it stands.
#![tactic(auto)]

mod labels;
mod laws;
mod lengths;
mod pictures;
mod primer;
mod sets;
mod tags;
#[cfg(test)]
mod tests;
mod writing;

pub use labels::{
    CLIP_SET, DESCRIPTOR_SET, FILE_SET, MATERIAL_SET, PICTURE_KIND, SEQUENCE_SET, TRACK_SET,
};
pub use laws::{metadata_holds, sets_are_linked};
pub use lengths::{METADATA, PRIMER, PRIMER_ENTRY_LEN};
pub use tags::{
    CONTAINER_DURATION, CONTENT_STORAGE, DATA_DEFINITION, DESCRIPTOR, DURATION,
    ESSENCE_CONTAINER_DATA, IDENTIFICATIONS, PACKAGE_ID, PACKAGES, SAMPLE_RATE, SEQUENCE,
    SOURCE_PACKAGE_ID, STORED_HEIGHT, STORED_WIDTH, STRUCTURAL_COMPONENTS, Size, TAGS, TRACKS, Tag,
};
pub use writing::put_metadata;
