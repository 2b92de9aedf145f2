//! The writers of the sets, one behind the other.

ghost use Rattle.std.specs.Prelude.{◌≡◌, ◌+◌, ◌^◌, ◌<◌, ◌≤◌, [], ◌∷◌, length, IfSome};
ghost use Rattle.local_sets.specs.Sets.{items_bytes};
ghost use Rattle.rec_bytes.specs.Places.{with_bytes};
ghost use Rattle.rec_bytes.specs.Views.{view};
ghost use Rattle.mxf_metadata.specs.Metadata.{metadata_set, storage_sets, material_sets, file_sets};
ghost use Rattle.mxf_metadata.specs.Metadata.{timecode_track, picture_track, sets, metadata};
ghost use Rattle.mxf_metadata.specs.inner.Writing.{Written};

use crate::labels::*;
use crate::lengths::*;
use crate::primer::put_primer;
use crate::sets;
use klv::SET_HEAD_LEN;
use local_sets::{Item, put_set};
use mxf_names::{Ids, PICTURE_TRACK_NUMBER, set_key, umid};
use rec_bytes::Config;

/// Writes the metadata of a take at the front, with durations where the number of frames is known, and answers
/// how many bytes that is.
pub fn put_metadata(cfg: &Config, ids: &Ids, frames: Option<u64>, out: &mut [u8]) -> usize
    requires room { METADATA ≤ length out.old }
    requires signed { IfSome frames (λ count. count < 2 ^ 63) }
    ensures end { result ≡ METADATA }
    ensures written { out.new ≡ with_bytes out.old 0 (metadata (view cfg.now) ids.now frames) }
{
    put_primer(out);
    put_sets(cfg, ids, frames, out, PRIMER)
}

/// Writes the 19 sets.
#[tactic(auto, unfolding(crate::specs::Metadata::sets))]
fn put_sets(cfg: &Config, ids: &Ids, frames: Option<u64>, out: &mut [u8], at: usize) -> usize
    requires room { at + SETS ≤ length out.old }
    ensures end { result ≡ at + SETS }
    ensures written { Written out.old at (sets (view cfg.now) ids.now frames) result out.new }
{
    let file_at = put_material_sets(cfg, ids, frames, out, at);
    put_file_sets(cfg, ids, frames, out, file_at)
}

/// Writes sets 1 to 11.
fn put_material_sets(
    cfg: &Config,
    ids: &Ids,
    frames: Option<u64>,
    out: &mut [u8],
    at: usize,
) -> usize
    requires room { at + MATERIAL_SETS ≤ length out.old }
    ensures end { result ≡ at + MATERIAL_SETS }
    ensures written { Written out.old at (material_sets (view cfg.now) ids.now frames) result out.new }
{
    let timecode_at = put_storage_sets(ids, out, at);
    let picture_at = put_timecode_track(cfg, ids, frames, 6, out, timecode_at);
    put_picture_track(
        cfg,
        ids,
        frames,
        9,
        0,
        &umid(&ids.file),
        PICTURE_TRACK_ID,
        out,
        picture_at,
    )
}

/// Writes sets 12 to 19.
fn put_file_sets(cfg: &Config, ids: &Ids, frames: Option<u64>, out: &mut [u8], at: usize) -> usize
    requires room { at + FILE_SETS ≤ length out.old }
    ensures end { result ≡ at + FILE_SETS }
    ensures written { Written out.old at (file_sets (view cfg.now) ids.now frames) result out.new }
{
    let timecode_at = put_one(FILE_SET, &sets::file_package(ids), out, at);
    let picture_at = put_timecode_track(cfg, ids, frames, 13, out, timecode_at);
    let descriptor_at = put_picture_track(
        cfg,
        ids,
        frames,
        16,
        PICTURE_TRACK_NUMBER,
        &NO_SOURCE,
        0,
        out,
        picture_at,
    );
    put_one(
        DESCRIPTOR_SET,
        &sets::descriptor(cfg, ids, frames),
        out,
        descriptor_at,
    )
}

/// Writes sets 1 to 5.
fn put_storage_sets(ids: &Ids, out: &mut [u8], at: usize) -> usize
    requires room { at + STORAGE_SETS ≤ length out.old }
    ensures end { result ≡ at + STORAGE_SETS }
    ensures written { Written out.old at (storage_sets ids.now) result out.new }
{
    let second = put_one(PREFACE_SET, &sets::preface(ids), out, at);
    let third = put_one(IDENTIFICATION_SET, &sets::identification(ids), out, second);
    let fourth = put_one(STORAGE_SET, &sets::content_storage(ids), out, third);
    let fifth = put_one(CONTAINER_SET, &sets::essence_container(ids), out, fourth);
    put_one(MATERIAL_SET, &sets::material_package(ids), out, fifth)
}

/// Writes a track of timecode, whose sets have numbers from this one on.
fn put_timecode_track(
    cfg: &Config,
    ids: &Ids,
    frames: Option<u64>,
    number: u64,
    out: &mut [u8],
    at: usize,
) -> usize
    requires room { at + TIMECODE_TRACK ≤ length out.old }
    requires small { number < 2 ^ 16 }
    ensures end { result ≡ at + TIMECODE_TRACK }
    ensures written { Written out.old at (timecode_track (view cfg.now) ids.now frames number) result out.new }
{
    let second = put_one(
        TRACK_SET,
        &sets::track(cfg, ids, number, TIMECODE_TRACK_ID, 0),
        out,
        at,
    );
    let third = put_one(
        SEQUENCE_SET,
        &sets::sequence(ids, number + 1, &TIMECODE_KIND, frames),
        out,
        second,
    );
    put_one(
        TIMECODE_SET,
        &sets::timecode(cfg, ids, number + 2, frames),
        out,
        third,
    )
}

/// Writes a track of pictures, whose sets have numbers from this one on.
fn put_picture_track(
    cfg: &Config,
    ids: &Ids,
    frames: Option<u64>,
    number: u64,
    track_number: u32,
    source: &[u8; 32],
    track_id: u32,
    out: &mut [u8],
    at: usize,
) -> usize
    requires room { at + PICTURE_TRACK ≤ length out.old }
    requires small { number < 2 ^ 16 }
    ensures end { result ≡ at + PICTURE_TRACK }
    ensures written { Written out.old at (picture_track (view cfg.now) ids.now frames number track_number source.now track_id) result out.new }
{
    let second = put_one(
        TRACK_SET,
        &sets::track(cfg, ids, number, PICTURE_TRACK_ID, track_number),
        out,
        at,
    );
    let third = put_one(
        SEQUENCE_SET,
        &sets::sequence(ids, number + 1, &PICTURE_KIND, frames),
        out,
        second,
    );
    put_one(
        CLIP_SET,
        &sets::source_clip(ids, number + 2, frames, source, track_id),
        out,
        third,
    )
}

/// Writes a set of a kind.
fn put_one(kind: u8, items: &[Item], out: &mut [u8], at: usize) -> usize
    requires room { at + SET_HEAD_LEN + length (items_bytes items.now) ≤ length out.old }
    requires fits { length (items_bytes items.now) < 2 ^ 24 }
    ensures end { result ≡ at + SET_HEAD_LEN + length (items_bytes items.now) }
    ensures written { Written out.old at (metadata_set kind items.now ∷ []) result out.new }
{
    put_set(&set_key(kind), items, out, at)
}
