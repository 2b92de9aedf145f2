//! The layout of a take's picture file.

ghost use Rattle.std.specs.Prelude.{◌≡◌, ◌≤◌, length};

use crate::lead::HEADER_LEN;
use crate::packs::body_count;
use crate::{lead, tail, walk};
use klv::ELEMENT_HEAD_LEN;
use mxf_index::segment_len;
use mxf_metadata::METADATA;
use mxf_partitions::{PACK_LEN, random_index_len};
use rec_bytes::Config;
use take_layout::{Place, TakeLayout, Walk};

/// Most bytes of a unit.
pub const MAX_UNIT: u64 = 1 << 28;

/// The layout of a closed or growing MXF file with pictures alone, edition 1 (own; SMPTE ST 377-1, ST 378).
pub struct PictureLayout;

impl TakeLayout for PictureLayout {
    ghost use Rattle.mxf_take_file.specs.Layout.{is_unit, head, lead, tail, growing, closed, places_of, stream_of, lead_most, tail_most};
    ghost use Rattle.mxf_take_file.specs.laws.Trait.{starts, grows, no_places, more_places, head_fits, rooms_fit, lead_fits, tail_fits, unit_fits};
    ghost use Rattle.mxf_take_file.specs.laws.Next.{one_next};
    ghost use Rattle.std.specs.Prelude.{refl};

    ghost is_unit = { is_unit };

    ghost head = { head };

    ghost lead = { lead };

    ghost tail = { tail };

    ghost growing = { growing };

    ghost closed = { closed };

    ghost places_of = { places_of };

    ghost stream_of = { stream_of };

    ghost lead_most = { lead_most };

    ghost tail_most = { tail_most };

    fn head_len(cfg: &Config) -> u64 {
        cfg.ranges();
        HEADER_LEN
    }

    fn lead_room(cfg: &Config) -> u64 {
        cfg.ranges();
        (PACK_LEN + segment_len(u32::from(cfg.part)) + ELEMENT_HEAD_LEN) as u64
    }

    fn tail_room(cfg: &Config) -> u64 {
        cfg.ranges();
        let partitions = (body_count(cfg.part, cfg.max_frames as usize) + 2) as u32;
        let segment = segment_len(u32::from(cfg.part));
        (PACK_LEN + METADATA + segment + random_index_len(partitions)) as u64
    }

    fn put_head(cfg: &Config, out: &mut [u8]) {
        cfg.ranges();
        lead::put_head(cfg, out);
    }

    fn stream(cfg: &Config, places: &[Place]) -> u64 {
        cfg.ranges();
        crate::kept::total_of(places)
    }

    fn lead_len(cfg: &Config, places: &[Place]) -> u64 {
        cfg.ranges();
        lead::lead_len(cfg, places)
    }

    fn put_lead(cfg: &Config, places: &[Place], unit_len: u64, out: &mut [u8]) {
        cfg.ranges();
        lead::put_lead(cfg, places, unit_len, out);
    }

    fn tail_len(cfg: &Config, places: &[Place]) -> u64 {
        cfg.ranges();
        tail::tail_len(cfg, places)
    }

    fn put_tail(cfg: &Config, places: &[Place], out: &mut [u8]) {
        cfg.ranges();
        tail::put_tail(cfg, places, out);
    }

    fn walk(cfg: &Config, bytes: &[u8], from: u64) -> Walk {
        cfg.ranges();
        walk::look(cfg.part, bytes, from)
    }

    ghost starts = { starts };

    ghost grows = { grows };

    ghost closes = { λ cfg units. refl };

    ghost no_places = { no_places };

    ghost more_places = { more_places };

    ghost head_fits = { head_fits };

    ghost rooms_fit = { rooms_fit };

    ghost lead_fits = { λ cfg units unit h are. lead_fits cfg units unit h };

    ghost tail_fits = { tail_fits };

    ghost unit_fits = { unit_fits };

    ghost one_next = { λ cfg units unit other rest other_rest h are are_other e. one_next cfg units unit other rest other_rest are are_other e };
}
