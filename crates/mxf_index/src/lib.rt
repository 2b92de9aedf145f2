//! Index table segments of an MXF file (SMPTE ST 377-1), written and read.
//!
//! The crates above rest on `index_segment` of `specs/Segments.antt`, which `put_segment` writes, and on `frames_of` of
//! `specs/Reads.antt`, what an item says of frames, which `read_segment` answers; else it answers the first rule that is
//! broken (`segment_refusals_are_exact`). What is written is an instance of what stands in the bytes of any segment,
//! `IsSegment` (`segments_are_items`), and is read back (`segments_are_read_back`). An item says something of frames
//! exactly where it is a segment of the kind that is written (`frames_are_of_segments`). Its length is a law in
//! `specs/laws/Lengths.antt`.
//!
//! Terms: an *index table segment* is the set that says for a run of frames where each stands in the essence
//! stream; a *stream offset* is a place in that stream, counted from its first byte; a *delta entry* says where an
//! element stands in its edit unit; an item of a set is *due* where the order of a segment's items asks for it.
//!
//! Nothing is said of whether the offsets are those of the frames.
#![tactic(auto)]

mod array;
mod due;
#[cfg(test)]
mod example;
mod fault;
mod laws;
mod reading;
mod segment;
mod tags;
#[cfg(test)]
mod tests;

pub use fault::SegmentFault;
pub use laws::{
    frames_are_of_segments, segment_refusals_are_exact, segments_are_items, segments_are_read_back,
};
pub use reading::{Segment, read_segment};
pub use segment::{MAX_ENTRIES, SEGMENT_LEN, put_segment, segment_len};
pub use tags::ENTRY_SIZE;
