//! The arrays of an index table segment: delta entries and index entries.

ghost use Rattle.std.specs.Prelude.{◌≡◌, ◌≤◌, ◌<◌, ◌+◌, ◌*◌, ◌==◌, ◌&&◌, length, map, drop, IfOk};
ghost use Rattle.std.specs.List.{list_all, range_with_len};
ghost use Rattle.byteorder.specs.Endian.{big_number};
ghost use Rattle.local_sets.specs.declared.value.TheConstants.{BATCH_HEAD_LEN};
ghost use Rattle.mxf_index.specs.Dues.{is_array, is_frame_entry};
ghost use Rattle.mxf_index.specs.Reads.{falls, first_fall, stream_in};
ghost use Rattle.mxf_index.specs.declared.due.TheConstants.{ENTRIES_AT};
ghost use Rattle.mxf_index.specs.declared.tags.TheConstants.{DELTA_SIZE, ENTRY_SIZE};

use crate::due::{ENTRIES_AT, STREAM_AT};
use crate::tags::*;
use byteorder::{BigEndian, ByteOrder};
use local_sets::BATCH_HEAD_LEN;
use rec_bytes::Memory;
use std::alloc::Global;

/// Whether an array is one of a delta entry whose bytes are all 0.
pub fn is_one_delta(held: &[u8]) -> bool
    requires { BATCH_HEAD_LEN + DELTA_SIZE ≤ length held.now }
    ensures { result ≡ (is_array 1 DELTA_SIZE held.now && big_number DELTA_SIZE (drop BATCH_HEAD_LEN held.now) == 0) }
{
    is_array(held, 1, DELTA_SIZE)
        && BigEndian::read_uint(&held[BATCH_HEAD_LEN..], DELTA_SIZE as usize) == 0
}

/// Whether an array is one of so many index entries, each of a frame that needs no other.
pub fn are_entries(held: &[u8], count: u64) -> bool
    requires { length held.now ≡ BATCH_HEAD_LEN + ENTRY_SIZE * count }
    ensures { result ≡ (is_array count ENTRY_SIZE held.now && list_all (is_frame_entry held.now) (range_with_len 0 count)) }
{
    is_array(held, count, ENTRY_SIZE) && are_frame_entries(held, count as usize)
}

/// Whether an array is headed by this count and this size of an entry.
fn is_array(held: &[u8], count: u64, size: u32) -> bool
    requires { BATCH_HEAD_LEN ≤ length held.now }
    ensures { result ≡ is_array count size held.now }
{
    u64::from(BigEndian::read_u32(held)) == count && BigEndian::read_u32(&held[4..]) == size
}

#[tactic(auto, using(crate::proofs::RangeLemmas::all_more, crate::proofs::RangeLemmas::not_all))]
fn are_frame_entries(held: &[u8], count: usize) -> bool
    requires { BATCH_HEAD_LEN + ENTRY_SIZE * count ≤ length held.now }
    ensures { result ≡ list_all (is_frame_entry held.now) (range_with_len 0 count) }
{
    'entries: for k in 0..count {
        if !is_frame_entry(held, k) {
            return false;
        }
    }
    true
}

/// Whether entry k has the temporal offset 0, the key frame offset 0 and the flag of random access alone.
fn is_frame_entry(held: &[u8], k: usize) -> bool
    requires { BATCH_HEAD_LEN + ENTRY_SIZE * (k + 1) ≤ length held.now }
    ensures { result ≡ is_frame_entry held.now k }
{
    let entry_at = BATCH_HEAD_LEN + ENTRY_SIZE as usize * k;
    BigEndian::read_uint(&held[entry_at..], STREAM_AT) == u64::from(RANDOM_ACCESS)
}

/// The stream offsets of so many entries of a segment's value.
pub fn read_streams(alloc: Global, value: &[u8], count: usize) -> Result<Vec<u64>, Memory>
    requires { ENTRIES_AT + ENTRY_SIZE * count ≤ length value.now }
    ensures { IfOk result (λ streams. streams.items ≡ map (stream_in value.now) (range_with_len 0 count)) }
{
    let mut streams = Vec::with_capacity(alloc, count)?;
    'entries: for k in 0..count {
        streams.push_reserved(stream_at(value, k));
    }
    Ok(streams)
}

/// The stream offset of frame k.
fn stream_at(value: &[u8], k: usize) -> u64
    requires { ENTRIES_AT + ENTRY_SIZE * (k + 1) ≤ length value.now }
    ensures { result ≡ stream_in value.now k }
{
    u64_at(value, ENTRIES_AT + ENTRY_SIZE as usize * k + STREAM_AT)
}

/// The number of eight bytes at a place.
pub fn u64_at(bytes: &[u8], at: usize) -> u64
    requires { at + 8 ≤ length bytes.now }
    ensures { result ≡ big_number 8 (drop at bytes.now) }
{
    BigEndian::read_u64(&bytes[at..])
}

/// The first frame whose offset isn't above that of the frame before.
#[tactic(auto, using(crate::proofs::RangeLemmas::none_more, crate::proofs::RangeLemmas::first_is))]
pub fn first_fall(streams: &[u64]) -> Option<u64>
    ensures { result ≡ first_fall streams.now }
{
    'frames: for k in 0..streams.len() {
        if falls(streams, k) {
            return Some(k as u64);
        }
    }
    None
}

/// Whether the offset of frame k isn't above that of the frame before.
fn falls(streams: &[u64], k: usize) -> bool
    requires { k < length streams.now }
    ensures { result ≡ falls streams.now k }
{
    k > 0 && streams[k] <= streams[k - 1]
}
