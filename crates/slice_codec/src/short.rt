//! Parts whose levels and products have 16 bits, back into samples.

ghost use Rattle.std.specs.Prelude.{◌≡◌, ◌≢◌, ◌≤◌, ◌*◌, pos, length, take, replicate, IsTrue};
ghost use Rattle.bit_io.specs.Bits.{bits_of};
ghost use Rattle.slice_levels.specs.Coefficients.{AreSamples};
ghost use Rattle.slice_levels.specs.Products.{InRange};
ghost use Rattle.slice_levels.specs.Rebuilt.{AreRebuilt};
ghost use Rattle.slice_parts.specs.Component.{IsComponent};
ghost use Rattle.picture_plane.specs.declared.planes.Plane.{Plane};
ghost use Rattle.picture_plane.specs.Blocks.{blocks_in, blocks_of};
ghost use Rattle.slice_codec.specs.Views.{as_setup};
ghost use Rattle.slice_codec.specs.Slices.{HasHead, MeansPart, index_of, part_bytes};

use crate::decoder::{Room, block_count, scale_at, weights_of};
use crate::head::part_of;
use crate::setup::SliceSetup;
use picture_plane::{Plane, SliceSamples};
use prores_codes::Heads;
use prores_scan::Scan;
use slice_levels::{Lanes, rebuild_short};
use slice_parts::read_short_part;

/// Reads a part, and says whether it could: its levels and products have 16 bits. Where it couldn't, nothing is said of
/// the part.
pub fn decode_short(
    tables: &Heads,
    setup: &SliceSetup,
    bytes: &[u8],
    plane: Plane,
    count: u8,
    room: &mut Room,
    out: &mut SliceSamples,
) -> bool
    requires count { (1 ≤ count) × (count ≤ 8) }
    requires head { HasHead bytes.now }
    ensures counted { IsTrue result → length (blocks_in out.new plane count) ≡ blocks_of plane count }
    ensures means { IsTrue result → MeansPart (as_setup setup.now) (index_of bytes.now) plane (part_bytes bytes.now plane) (blocks_in out.new plane count) }
    ensures others { (other : Plane) → other ≢ plane → blocks_in out.new other count ≡ blocks_in out.old other count }
{
    let blocks = block_count(plane, count);
    if !read_levels(tables, bytes, plane, count, &mut room.short[..64 * blocks]) {
        return false;
    }
    let weights = weights_of(setup, plane);
    let scale = scale_at(bytes[1]);
    if !rebuild_blocks(
        &room.short,
        blocks,
        setup.scan,
        weights,
        scale,
        &mut room.lanes,
        &mut room.blocks,
    ) {
        return false;
    }
    out.put_blocks(plane, count, &room.blocks[..blocks]);
    true
}

/// Reads the levels of a part, whatever they were before, and says whether each has 16 bits.
fn read_levels(tables: &Heads, bytes: &[u8], plane: Plane, count: u8, levels: &mut [i16]) -> bool
    requires count { (1 ≤ count) × (count ≤ 8) }
    requires head { HasHead bytes.now }
    requires long { length levels.old ≡ 64 * blocks_of plane count }
    ensures coded { IsTrue result → IsComponent (blocks_of plane count) (bits_of (part_bytes bytes.now plane)) levels.new }
{
    clear(levels);
    read_short_part(
        tables,
        part_of(bytes, plane),
        block_count(plane, count),
        levels,
    )
}

/// Clears levels in two halves, since a call of memset for 4 KB is slower than two for 2 KB each.
#[inline(always)]
fn clear(levels: &mut [i16])
    ensures { levels.new ≡ replicate (length levels.old) (pos 0) }
{
    let middle = levels.len() / 2;
    put_zeros(&mut levels[..middle]);
    put_zeros(&mut levels[middle..]);
}

#[inline(always)]
fn put_zeros(levels: &mut [i16])
    ensures { levels.new ≡ replicate (length levels.old) (pos 0) }
{
    levels.fill(0);
}

/// Gives so many blocks back from their levels, and says whether each product has 16 bits.
fn rebuild_blocks(
    levels: &[i16; 2048],
    blocks: usize,
    scan: Scan,
    weights: &[u8; 64],
    scale: u16,
    lanes: &mut Lanes,
    out: &mut [[u16; 64]; 32],
) -> bool
    requires blocks { blocks ≤ 32 }
    requires scale { scale ≤ 512 }
    ensures in_range { IsTrue result → InRange scan weights.now scale blocks (take (64 * blocks) levels.now) }
    ensures rebuilt { IsTrue result → AreRebuilt scan weights.now scale (take (64 * blocks) levels.now) (take blocks out.new) }
    ensures range { IsTrue result → AreSamples (take blocks out.new) }
{
    rebuild_short(
        &levels[..64 * blocks],
        scan,
        weights,
        scale,
        lanes,
        &mut out[..blocks],
    )
}
