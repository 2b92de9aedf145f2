//! Where the bytes of a run come from and go to, and the feeds of items that are read from them.
//!
//! A `Source` gives the bytes of a feed piece by piece, and a `Sink` takes what a program writes.
//! Both have a count of faults that never falls, and both may tell their bytes: those in memory do,
//! and streams don't. The contract that the crates above rest on is `FeedReader::next_unit`, with
//! the laws of what its calls add up to: `HasRead` of `specs/HasRead.antt` starts with a head and
//! grows by items (`readings_grow`), and ends as the reading of the feed (`readings_end`), which is
//! one (`feeds_are_one`); `FeedReader::next_picture` and its pictures likewise (`specs/Pictures.antt`).
//! Terms: a unit is the bytes of one coded frame, or of a picture's samples; an item is its marker, a
//! unit's length and the unit; the `Kind` of a feed says what its items are; a break is the first byte at
//! which a feed breaks its grammar, and an ending is judged by the bytes up to `judged_to`. Not
//! promised: anything of the bytes of a source or a sink that doesn't tell them, and how long a
//! call takes.
#![tactic(auto)]

mod fault;
mod head;
mod kind;
mod law;
mod limits;
mod memory_sink;
mod memory_source;
mod part;
mod picture;
#[cfg(test)]
mod picture_tests;
mod reader;
mod samples;
mod sink;
mod source;
mod stage;
mod stream_sink;
mod stream_source;
#[cfg(test)]
mod tests;
mod unit;
mod unit_buffer;

pub use fault::FeedFault;
pub use head::FEED_HEAD_LEN;
pub use kind::{
    Kind, MAGIC_LEN, MARKER_LEN, PICTURE_MARKER, PICTURES_MAGIC, SAMPLE_LEN, UNIT_HEAD_LEN,
    UNIT_MARKER, UNITS_MAGIC,
};
pub use law::{faults_are_placed, feeds_are_one, pictures_are_one, readings_end, readings_grow};
pub use limits::{MAX_FEED, MAX_SAMPLE, MAX_UNIT};
pub use memory_sink::MemorySink;
pub use memory_source::MemorySource;
pub use reader::FeedReader;
pub use sink::{Sink, put_all};
pub use source::{Feed, Source};
pub use stage::Stage;
pub use stream_sink::StreamSink;
pub use stream_source::StreamSource;
pub use unit_buffer::UnitBuffer;
