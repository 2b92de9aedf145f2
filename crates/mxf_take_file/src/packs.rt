//! What the packs of a take's file say.

ghost use Rattle.std.specs.Prelude.{◌≡◌, ◌≤◌, ◌*◌, length};
ghost use Rattle.rec_bytes.specs.Ranges.{IsInRange};
ghost use Rattle.rec_bytes.specs.Views.{view};
ghost use Rattle.mxf_take_file.specs.inner.Kept.{AreSmall, extents_kept};
ghost use Rattle.mxf_take_file.specs.Packs.{bare_pack, header_pack, body_pack, footer_pack, index_stream};
ghost use Rattle.mxf_take_file.specs.Segments.{whole_first, last_first, pack_before, segment_size};
ghost use Rattle.mxf_take_file.specs.Extents.{body_count, segment_bytes};
ghost use Rattle.rec_bytes.specs.declared.config_fields.TheConstants.{MAX_PART};

use crate::kept::{end_of, total_of};
use mxf_index::segment_len;
use mxf_metadata::METADATA;
use mxf_names::{ESSENCE_CONTAINER_LABEL, ESSENCE_STREAM, INDEX_STREAM, OPERATIONAL_PATTERN_1A};
use mxf_partitions::{Partition, PartitionKind, PartitionStatus};
use rec_bytes::Config;
use take_layout::Place;

/// How many body partitions so many units have.
pub fn body_count(part: u16, count: usize) -> usize
    requires { 1 ≤ part }
    ensures count { result ≡ body_count part count }
    ensures few { result ≤ count }
{
    count.div_ceil(usize::from(part))
}

/// The unit at which the body partition before one that begins now began.
pub fn whole_first(cfg: &Config, places: &[Place]) -> usize
    ensures first { result ≡ whole_first (view cfg.now) (extents_kept places.now) }
    ensures within { result ≤ length places.now }
{
    places.len().saturating_sub(usize::from(cfg.part))
}

/// The unit at which the last body partition began.
pub fn last_first(cfg: &Config, places: &[Place]) -> usize
    requires range { IsInRange (view cfg.now) }
    ensures first { result ≡ last_first (view cfg.now) (extents_kept places.now) }
    ensures within { result ≤ length places.now }
{
    if places.is_empty() {
        return 0;
    }
    (body_count(cfg.part, places.len()) - 1) * usize::from(cfg.part)
}

/// The place of the pack of the body partition that began at a unit; where there are no units that of the header.
fn pack_before(places: &[Place], first: usize) -> u64
    requires within { first ≤ length places.now }
    requires small { AreSmall places.now }
    ensures { result ≡ pack_before (extents_kept places.now) first }
{
    if places.is_empty() {
        return 0;
    }
    end_of(places, first)
}

/// Bytes of an index table segment of so many entries, which there isn't where there are none.
pub fn segment_size(entries: usize) -> u64
    requires { entries ≤ MAX_PART }
    ensures size { result ≡ segment_size entries }
    ensures few { result ≤ segment_bytes MAX_PART }
{
    if entries == 0 {
        return 0;
    }
    segment_len(entries as u32) as u64
}

fn index_stream(bytes: u64) -> u32
    ensures { result ≡ index_stream bytes }
{
    if bytes == 0 { 0 } else { INDEX_STREAM }
}

fn bare_pack(kind: PartitionKind, status: PartitionStatus) -> Partition
    ensures { result ≡ bare_pack kind status }
{
    Partition {
        kind,
        status,
        major: 1,
        minor: 3,
        kag: 1,
        this: 0,
        previous: 0,
        footer: 0,
        header_bytes: 0,
        index_bytes: 0,
        index_sid: 0,
        body_offset: 0,
        body_sid: 0,
        pattern: OPERATIONAL_PATTERN_1A,
        label_count: 1,
        label: ESSENCE_CONTAINER_LABEL,
    }
}

/// The header's pack.
pub fn header_pack() -> Partition
    ensures { result ≡ header_pack }
{
    let header_bytes = METADATA as u64;
    Partition {
        header_bytes,
        ..bare_pack(PartitionKind::Header, PartitionStatus::OpenIncomplete)
    }
}

/// The pack of the body partition that begins behind the units.
pub fn body_pack(cfg: &Config, places: &[Place]) -> Partition
    requires range { IsInRange (view cfg.now) }
    requires small { AreSmall places.now }
    ensures { result ≡ body_pack (view cfg.now) (extents_kept places.now) }
{
    let first = whole_first(cfg, places);
    let index_bytes = segment_size(places.len() - first);
    Partition {
        this: end_of(places, places.len()),
        previous: pack_before(places, first),
        index_bytes,
        index_sid: index_stream(index_bytes),
        body_offset: total_of(places),
        body_sid: ESSENCE_STREAM,
        ..bare_pack(PartitionKind::Body, PartitionStatus::OpenIncomplete)
    }
}

/// The footer's pack.
pub fn footer_pack(cfg: &Config, places: &[Place]) -> Partition
    requires range { IsInRange (view cfg.now) }
    requires small { AreSmall places.now }
    ensures { result ≡ footer_pack (view cfg.now) (extents_kept places.now) }
{
    let first = last_first(cfg, places);
    let index_bytes = segment_size(places.len() - first);
    Partition {
        this: end_of(places, places.len()),
        previous: pack_before(places, first),
        footer: end_of(places, places.len()),
        header_bytes: METADATA as u64,
        index_bytes,
        index_sid: index_stream(index_bytes),
        ..bare_pack(PartitionKind::Footer, PartitionStatus::ClosedComplete)
    }
}
