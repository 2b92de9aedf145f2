//! The memory of a desk's slots.

ghost use Rattle.std.specs.Prelude.{IfOk};
ghost use Rattle.rec_bytes.specs.Views.{view};
ghost use Rattle.slice_desk.specs.Slices.{IsRoomFor};

use crate::shelf::FLIGHT;
use frame_syntax::{MACROBLOCK_ROOM, SLICE_ROOM};
use picture_plane::slice_count;
use rec_bytes::{Config, Memory};
use slot_pool::Block;
use std::alloc::Global;

/// A block of slots for a desk of this configuration: one for each slice of four frames, of the bytes of the longest slice.
pub fn desk_block(alloc: Global, cfg: &Config) -> Result<Block, Memory>
    ensures { IfOk result (λ block. IsRoomFor (view cfg.now) block) }
{
    cfg.ranges();
    let size = MACROBLOCK_ROOM * (1 << cfg.log2) + SLICE_ROOM;
    Block::new(alloc, FLIGHT as u32 * slice_count(cfg), size as u32)
}
