//! Slices that are put into a picture.

ghost use Rattle.std.specs.Prelude.{◌≡◌, ◌≤◌, ◌<◌, ◌+◌, ◌*◌, ◌^◌, ℕ, length, slice_index};
ghost use Rattle.picture_plane.specs.Blocks.{blocks_of, IsPlaced};
ghost use Rattle.picture_plane.specs.Pictures.{columns, sample_count};
ghost use Rattle.picture_plane.specs.Slices.{FitsSize, HasField, line_count};
ghost use Rattle.picture_plane.specs.Views.{as_size};
ghost use Rattle.picture_plane.specs.inner.Placing.{AreBlocksPlaced, AreRowsPlaced, IsBlockPlaced, IsRowPlaced};

use crate::cut::{columns_to, lines_to, macroblock_width};
use crate::cut_block::{row_at, row_step};
use crate::frame_size::FrameSize;
use crate::picture::Picture;
use crate::planes::Plane;
use crate::runs::{put_eight, put_run};
use crate::samples::{SliceSamples, block_count};
use crate::slice_names::{Field, SliceName};

/// Puts a slice's samples into a picture. Those past the last line or column of the coded picture are dropped.
pub fn place_slice(picture: &mut Picture, name: SliceName, samples: &SliceSamples)
    requires { FitsSize picture.old.size name }
    ensures { IsPlaced picture.old picture.new name samples.now }
{
    let size = picture.size;
    place_planes(picture.samples.as_mut_slice(), size, name, samples);
}

/// Puts a slice's samples among all samples of a picture.
fn place_planes(out: &mut [u16], size: FrameSize, name: SliceName, samples: &SliceSamples)
    requires fits { FitsSize (as_size size) name }
    requires all { length out.old ≡ sample_count (as_size size) }
    requires small { (k : ℕ) → slice_index out.old k < 1024 }
    ensures placed { IsPlaced (record { size = as_size size; samples = out.old }) (record { size = as_size size; samples = out.new }) name samples.now }
    ensures small { (k : ℕ) → slice_index out.new k < 1024 }
{
    place_plane(out, size, name, Plane::Y, samples);
    place_plane(out, size, name, Plane::Cb, samples);
    place_plane(out, size, name, Plane::Cr, samples);
}

/// Puts the blocks of a plane.
fn place_plane(
    out: &mut [u16],
    size: FrameSize,
    name: SliceName,
    plane: Plane,
    samples: &SliceSamples,
)
    requires fits { FitsSize (as_size size) name }
    requires all { length out.old ≡ sample_count (as_size size) }
    requires small { (k : ℕ) → slice_index out.old k < 1024 }
    ensures { AreBlocksPlaced (blocks_of plane name.count) (as_size size) name plane samples.now out.old out.new }
{
    let line = 16 * usize::from(name.row);
    let column = macroblock_width(plane) * usize::from(name.first);
    for b in 0..block_count(plane, name.count) {
        place_block(
            out,
            size,
            name.field,
            plane,
            line + lines_to(plane, b),
            column + columns_to(plane, b),
            samples.block(plane, b),
        );
    }
}

/// Puts a block whose first sample stands at a line and a column of a coded picture.
#[inline(always)]
fn place_block(
    out: &mut [u16],
    size: FrameSize,
    field: Field,
    plane: Plane,
    line: usize,
    column: usize,
    block: &[u16; 64],
)
    requires field { HasField size.interlace field }
    requires lines { line + 8 < 2 ^ 32 }
    requires columns { column + 8 < 2 ^ 32 }
    requires all { length out.old ≡ sample_count (as_size size) }
    requires small { (k : ℕ) → slice_index out.old k < 1024 }
    requires block_small { (k : ℕ) → slice_index block.now k < 1024 }
    ensures { IsBlockPlaced 64 (as_size size) field plane line column block.now out.old out.new }
{
    if line + 8 <= usize::from(size.line_count()) && column + 8 <= size.columns(plane) {
        place_inside(out, size, field, plane, line, column, block);
    } else {
        place_edge(out, size, field, plane, line, column, block);
    }
}

/// Puts a block that lies inside the coded picture.
#[inline(always)]
fn place_inside(
    out: &mut [u16],
    size: FrameSize,
    field: Field,
    plane: Plane,
    line: usize,
    column: usize,
    block: &[u16; 64],
)
    requires field { HasField size.interlace field }
    requires lines { line + 8 ≤ line_count (as_size size) }
    requires columns { column + 8 ≤ columns (as_size size) plane }
    requires all { length out.old ≡ sample_count (as_size size) }
    requires small { (k : ℕ) → slice_index out.old k < 1024 }
    requires block_small { (k : ℕ) → slice_index block.now k < 1024 }
    ensures { IsBlockPlaced 64 (as_size size) field plane line column block.now out.old out.new }
{
    let start = size.row_start(plane, row_at(field, line)) + column;
    place_rows(out, start, row_step(field) * size.columns(plane), block);
}

/// Puts the rows of a block, the first from `start` on, each further one `step` samples behind.
#[inline(always)]
fn place_rows(out: &mut [u16], start: usize, step: usize, block: &[u16; 64])
    requires room { start + 7 * step + 8 ≤ length out.old }
    requires apart { 8 ≤ step }
    requires small { (k : ℕ) → slice_index out.old k < 1024 }
    requires block_small { (k : ℕ) → slice_index block.now k < 1024 }
    ensures { AreRowsPlaced 8 start step block.now out.old out.new }
{
    for r in 0..8 {
        place_row(out, start + r * step, 8, 0, block, r);
    }
}

/// Puts a block at the edge of the coded picture.
fn place_edge(
    out: &mut [u16],
    size: FrameSize,
    field: Field,
    plane: Plane,
    line: usize,
    column: usize,
    block: &[u16; 64],
)
    requires field { HasField size.interlace field }
    requires lines { line + 8 < 2 ^ 32 }
    requires columns { column + 8 < 2 ^ 32 }
    requires all { length out.old ≡ sample_count (as_size size) }
    requires small { (k : ℕ) → slice_index out.old k < 1024 }
    requires block_small { (k : ℕ) → slice_index block.now k < 1024 }
    ensures { IsBlockPlaced 64 (as_size size) field plane line column block.now out.old out.new }
{
    let lines = usize::from(size.line_count());
    for r in 0..8 {
        if line + r < lines {
            place_row(
                out,
                size.row_start(plane, row_at(field, line + r)),
                size.columns(plane),
                column,
                block,
                r,
            );
        }
    }
}

/// Puts a row of a block into the row of a picture that begins at `start` and has `wide` samples.
#[inline(always)]
fn place_row(out: &mut [u16], start: usize, wide: usize, column: usize, block: &[u16; 64], r: usize)
    requires r { r < 8 }
    requires room { start + wide ≤ length out.old }
    requires columns { column + 8 < 2 ^ 32 }
    requires small { (k : ℕ) → slice_index out.old k < 1024 }
    requires block_small { (k : ℕ) → slice_index block.now k < 1024 }
    ensures { IsRowPlaced start wide column block.now r out.old out.new }
{
    if column + 8 <= wide {
        put_eight(out, start + column, &block[8 * r..8 * r + 8]);
    } else if column < wide {
        put_run(out, start + column, &block[8 * r..8 * r + (wide - column)]);
    }
}
