//! Tails.

ghost use Rattle.std.specs.Prelude.{◌≡◌, ◌+◌, ◌*◌, ◌≤◌, length};
ghost use Rattle.std.specs.List.{flat_map};
ghost use Rattle.rec_bytes.specs.Places.{with_bytes};
ghost use Rattle.rec_bytes.specs.Ranges.{IsInRange};
ghost use Rattle.rec_bytes.specs.Views.{view};
ghost use Rattle.mxf_partitions.specs.RandomIndex.{random_index_pack, entry_bytes};
ghost use Rattle.mxf_partitions.specs.declared.random_index.TheConstants.{PACK_ENTRY_LEN};
ghost use Rattle.mxf_take_file.specs.Extents.{body_count};
ghost use Rattle.mxf_take_file.specs.inner.Kept.{AreSmall, extents_kept};
ghost use Rattle.mxf_take_file.specs.Layout.{tail_of};
ghost use Rattle.mxf_take_file.specs.Packs.{body_entries, pack_entries};

use crate::kept::end_of;
use crate::packs::{body_count, footer_pack, last_first, segment_size};
use crate::put::{put_pack, put_segment_from, put_sets};
use mxf_metadata::METADATA;
use mxf_names::ESSENCE_STREAM;
use mxf_partitions::{
    PACK_LEN, PackEntry, put_pack_entry, put_random_index_end, put_random_index_head,
    random_index_len,
};
use rec_bytes::Config;
use take_layout::Place;

/// Bytes of the tail behind the units at the places.
pub fn tail_len(cfg: &Config, places: &[Place]) -> u64
    requires range { IsInRange (view cfg.now) }
    requires small { AreSmall places.now }
    ensures { result ≡ length (tail_of (view cfg.now) (extents_kept places.now)) }
{
    let entries = places.len() - last_first(cfg, places);
    let partitions = (body_count(cfg.part, places.len()) + 2) as u32;
    PACK_LEN as u64 + METADATA as u64 + segment_size(entries) + random_index_len(partitions) as u64
}

/// Writes the tail behind the units at the places.
pub fn put_tail(cfg: &Config, places: &[Place], out: &mut [u8])
    requires range { IsInRange (view cfg.now) }
    requires small { AreSmall places.now }
    requires room { length out.old ≡ length (tail_of (view cfg.now) (extents_kept places.now)) }
    ensures { out.new ≡ tail_of (view cfg.now) (extents_kept places.now) }
{
    let sets_at = put_pack(&footer_pack(cfg, places), out, 0);
    let segment_at = put_sets(cfg, Some(places.len() as u64), out, sets_at);
    let packs_at = put_segment_from(cfg, places, last_first(cfg, places), out, segment_at);
    put_packs(cfg, places, out, packs_at);
}

/// Writes the random index pack.
fn put_packs(cfg: &Config, places: &[Place], out: &mut [u8], at: usize)
    requires range { IsInRange (view cfg.now) }
    requires small { AreSmall places.now }
    requires room { at + length (random_index_pack (pack_entries (view cfg.now) (extents_kept places.now))) ≤ length out.old }
    ensures { out.new ≡ with_bytes out.old at (random_index_pack (pack_entries (view cfg.now) (extents_kept places.now))) }
{
    let bodies = body_count(cfg.part, places.len());
    let first_at = put_random_index_head((bodies + 2) as u32, out, at);
    let header = PackEntry { body_sid: 0, at: 0 };
    let bodies_at = put_pack_entry(&header, out, first_at);
    let footer_at = put_bodies(cfg.part, places, bodies, out, bodies_at);
    let footer = PackEntry {
        body_sid: 0,
        at: end_of(places, places.len()),
    };
    let end_at = put_pack_entry(&footer, out, footer_at);
    put_random_index_end((bodies + 2) as u32, out, end_at);
}

/// Writes the entries of the body partitions, and answers the place behind.
fn put_bodies(part: u16, places: &[Place], bodies: usize, out: &mut [u8], at: usize) -> usize
    requires some { 1 ≤ part }
    requires small { AreSmall places.now }
    requires all { bodies ≡ body_count part (length places.now) }
    requires room { at + PACK_ENTRY_LEN * bodies ≤ length out.old }
    ensures behind { result ≡ at + PACK_ENTRY_LEN * bodies }
    ensures written { out.new ≡ with_bytes out.old at (flat_map entry_bytes (body_entries part (extents_kept places.now) bodies)) }
{
    let mut end = at;
    'bodies: for k in 0..bodies {
        let at = end_of(places, k * usize::from(part));
        let entry = PackEntry {
            body_sid: ESSENCE_STREAM,
            at,
        };
        end = put_pack_entry(&entry, out, end);
    }
    end
}
