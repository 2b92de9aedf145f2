//! Writes of the parts of a file at a place.

ghost use Rattle.std.specs.Prelude.{◌≡◌, ◌+◌, ◌-◌, ◌≤◌, ◌<◌, ◌^◌, ℕ, Option, length, take, drop, map, IfSome};
ghost use Rattle.klv.specs.Items.{klv_head};
ghost use Rattle.klv.specs.declared.head.TheConstants.{ELEMENT_HEAD_LEN};
ghost use Rattle.mxf_names.specs.declared.keys.TheConstants.{PICTURE_ELEMENT_KEY};
ghost use Rattle.rec_bytes.specs.Places.{with_bytes};
ghost use Rattle.rec_bytes.specs.Ranges.{IsInRange};
ghost use Rattle.rec_bytes.specs.Views.{view};
ghost use Rattle.mxf_names.specs.Identifiers.{ids_of};
ghost use Rattle.mxf_metadata.specs.Metadata.{metadata};
ghost use Rattle.mxf_metadata.specs.declared.lengths.TheConstants.{METADATA};
ghost use Rattle.rec_bytes.specs.declared.config_fields.TheConstants.{MAX_PART};
ghost use Rattle.mxf_take_file.specs.declared.picture_layout.TheConstants.{MAX_UNIT};
ghost use Rattle.mxf_partitions.specs.Partitions.{partition_pack};
ghost use Rattle.mxf_partitions.specs.declared.partition.TheConstants.{PACK_LEN};
ghost use Rattle.mxf_take_file.specs.inner.Kept.{AreSmall, extents_kept};
ghost use Rattle.mxf_take_file.specs.Segments.{segment_from};
ghost use Rattle.take_layout.specs.declared.place.Place.{Place};

use klv::{Form, put_klv_head_at};
use mxf_index::put_segment;
use mxf_metadata::put_metadata;
use mxf_names::{Ids, PICTURE_ELEMENT_KEY};
use mxf_partitions::{PACK_LEN, Partition, put_partition};
use rec_bytes::{Config, MAX_PART, put_bytes};
use take_layout::Place;

/// Writes the pack of a partition, and answers the place behind.
pub fn put_pack(pack: &Partition, out: &mut [u8], at: usize) -> usize
    requires label { pack.now.label_count ≡ 1 }
    requires room { at + PACK_LEN ≤ length out.old }
    ensures behind { result ≡ at + PACK_LEN }
    ensures written { out.new ≡ with_bytes out.old at (partition_pack pack.now) }
{
    let mut bytes = [0u8; PACK_LEN];
    put_partition(pack, &mut bytes);
    put_bytes(out, at, &bytes);
    at + PACK_LEN
}

/// Writes the header metadata, and answers the place behind.
pub fn put_sets(cfg: &Config, frames: Option<u64>, out: &mut [u8], at: usize) -> usize
    requires few { IfSome frames (λ n. n < 2 ^ 63) }
    requires room { at + METADATA ≤ length out.old }
    ensures behind { result ≡ at + METADATA }
    ensures written { out.new ≡ with_bytes out.old at (metadata (view cfg.now) (ids_of (view cfg.now)) frames) }
{
    let ids = Ids::new(cfg);
    at + put_metadata(cfg, &ids, frames, &mut out[at..])
}

/// Writes the key and the length of a picture element.
pub fn put_element_head(unit_len: u64, out: &mut [u8], at: usize)
    requires small { unit_len ≤ MAX_UNIT }
    requires room { at + ELEMENT_HEAD_LEN ≤ length out.old }
    ensures written { out.new ≡ with_bytes out.old at (klv_head PICTURE_ELEMENT_KEY 7 unit_len) }
{
    put_klv_head_at(&PICTURE_ELEMENT_KEY, unit_len, Form::Seven, out, at);
}

/// Writes the index table segment of the units from a number on, and answers the place behind. Where there are no
/// such units it writes nothing.
pub fn put_segment_from(
    cfg: &Config,
    places: &[Place],
    first: usize,
    out: &mut [u8],
    at: usize,
) -> usize
    requires within { first ≤ length places.now }
    requires few { length places.now - first ≤ MAX_PART }
    requires small { AreSmall places.now }
    requires room { at + length (segment_from (view cfg.now) (extents_kept places.now) first) ≤ length out.old }
    ensures behind { result ≡ at + length (segment_from (view cfg.now) (extents_kept places.now) first) }
    ensures written { out.new ≡ with_bytes out.old at (segment_from (view cfg.now) (extents_kept places.now) first) }
{
    if first == places.len() {
        return at;
    }
    let mut streams = [0u64; MAX_PART as usize];
    let count = gather(places, first, &mut streams);
    let ids = Ids::new(cfg);
    at + put_segment(cfg, &ids, first as u64, &streams[..count], &mut out[at..])
}

/// Puts the stream offsets of the units from a number on at the front, and answers how many they are.
fn gather(places: &[Place], first: usize, streams: &mut [u64]) -> usize
    requires within { first ≤ length places.now }
    requires room { length places.now - first ≤ length streams.old }
    ensures count { result ≡ length places.now - first }
    ensures kept { length streams.new ≡ length streams.old }
    ensures gathered { take result streams.new ≡ map (λ (place : Place). place.stream) (drop first places.now) }
{
    let count = places.len() - first;
    for k in 0..count {
        streams[k] = places[first + k].stream;
    }
    count
}
