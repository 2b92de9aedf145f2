//! Head and leads.

ghost use Rattle.std.specs.Prelude.{◌≡◌, ◌+◌, ◌≤◌, ◌<◌, ◌^◌, ◌%◌, ◌==◌, [], if◌then◌else◌, length};
ghost use Rattle.klv.specs.declared.head.TheConstants.{ELEMENT_HEAD_LEN};
ghost use Rattle.rec_bytes.specs.Places.{with_bytes};
ghost use Rattle.rec_bytes.specs.Ranges.{IsInRange};
ghost use Rattle.rec_bytes.specs.Views.{view};
ghost use Rattle.rec_bytes.specs.declared.config_fields.TheConstants.{MAX_PART};
ghost use Rattle.mxf_partitions.specs.declared.partition.TheConstants.{PACK_LEN};
ghost use Rattle.mxf_take_file.specs.Extents.{segment_bytes};
ghost use Rattle.mxf_take_file.specs.declared.picture_layout.TheConstants.{MAX_UNIT};
ghost use Rattle.mxf_take_file.specs.inner.Kept.{AreSmall, extents_kept};
ghost use Rattle.mxf_take_file.specs.Layout.{head, body_start, lead_of, start_of};

use crate::packs::{body_pack, header_pack, segment_size, whole_first};
use crate::put::{put_element_head, put_pack, put_segment_from, put_sets};
use klv::ELEMENT_HEAD_LEN;
use mxf_metadata::METADATA;
use mxf_partitions::PACK_LEN;
use rec_bytes::Config;
use take_layout::Place;

/// Bytes of the head: the pack and the metadata of the header partition.
pub const HEADER_LEN: u64 = (PACK_LEN + METADATA) as u64;

/// Writes the head.
pub fn put_head(cfg: &Config, out: &mut [u8])
    requires range { IsInRange (view cfg.now) }
    requires room { length out.old ≡ length (head (view cfg.now)) }
    ensures { out.new ≡ head (view cfg.now) }
{
    let at = put_pack(&header_pack(), out, 0);
    put_sets(cfg, None, out, at);
}

/// Bytes of the start of a body partition.
fn body_start_len(cfg: &Config, places: &[Place]) -> u64
    requires range { IsInRange (view cfg.now) }
    ensures size { result ≡ length (body_start (view cfg.now) (extents_kept places.now)) }
    ensures few { result ≤ PACK_LEN + segment_bytes MAX_PART }
{
    PACK_LEN as u64 + segment_size(places.len() - whole_first(cfg, places))
}

/// Writes the start of a body partition at the front, and answers the place behind.
fn put_body_start(cfg: &Config, places: &[Place], out: &mut [u8]) -> usize
    requires range { IsInRange (view cfg.now) }
    requires small { AreSmall places.now }
    requires room { length (body_start (view cfg.now) (extents_kept places.now)) ≤ length out.old }
    ensures behind { result ≡ length (body_start (view cfg.now) (extents_kept places.now)) }
    ensures written { out.new ≡ with_bytes out.old 0 (body_start (view cfg.now) (extents_kept places.now)) }
{
    let at = put_pack(&body_pack(cfg, places), out, 0);
    put_segment_from(cfg, places, whole_first(cfg, places), out, at)
}

/// Writes the start of a body partition at the front where one is due, and answers the place behind.
fn put_start(cfg: &Config, places: &[Place], out: &mut [u8]) -> usize
    requires range { IsInRange (view cfg.now) }
    requires small { AreSmall places.now }
    requires room { length (start_of (view cfg.now) (extents_kept places.now)) ≤ length out.old }
    ensures behind { result ≡ length (start_of (view cfg.now) (extents_kept places.now)) }
    ensures written { out.new ≡ with_bytes out.old 0 (start_of (view cfg.now) (extents_kept places.now)) }
{
    if places.len() % usize::from(cfg.part) != 0 {
        return 0;
    }
    put_body_start(cfg, places, out)
}

/// Bytes of the lead of a unit behind those at the places.
pub fn lead_len(cfg: &Config, places: &[Place]) -> u64
    requires range { IsInRange (view cfg.now) }
    ensures { result ≡ length (start_of (view cfg.now) (extents_kept places.now)) + ELEMENT_HEAD_LEN }
{
    if places.len() % usize::from(cfg.part) != 0 {
        return ELEMENT_HEAD_LEN as u64;
    }
    body_start_len(cfg, places) + ELEMENT_HEAD_LEN as u64
}

/// Writes the lead of a unit behind those at the places.
pub fn put_lead(cfg: &Config, places: &[Place], unit_len: u64, out: &mut [u8])
    requires range { IsInRange (view cfg.now) }
    requires small { AreSmall places.now }
    requires unit { unit_len ≤ MAX_UNIT }
    requires room { length out.old ≡ length (lead_of (view cfg.now) (extents_kept places.now) unit_len) }
    ensures { out.new ≡ lead_of (view cfg.now) (extents_kept places.now) unit_len }
{
    let at = put_start(cfg, places, out);
    put_element_head(unit_len, out, at);
}
