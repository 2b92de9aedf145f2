//! Slices that are cut out of a picture.

ghost use Rattle.std.specs.Prelude.{◌≡◌, ◌≤◌, ◌<◌, ◌+◌, ◌*◌, ◌/◌, ◌%◌, ℕ, [], get_or};
ghost use Rattle.picture_plane.specs.Blocks.{blocks_of, columns_before, first_block, macroblock_columns, line_of, column_of, lines_above, repeated_at, sample_of, AreCut, AreSamples};
ghost use Rattle.picture_plane.specs.Slices.{FitsSize};

use crate::cut_block::cut_block;
use crate::picture::Picture;
use crate::planes::Plane;
use crate::samples::{SliceSamples, block_count, first_of};
use crate::slice_names::SliceName;

/// Copies a slice's samples out of a picture, past the last line and column of the coded picture these repeated.
pub fn cut_slice(picture: &Picture, name: SliceName, out: &mut SliceSamples)
    requires { FitsSize picture.now.size name }
    ensures { AreCut picture.now name out.new }
{
    cut_plane(picture, name, Plane::Y, &mut out.blocks);
    cut_plane(picture, name, Plane::Cb, &mut out.blocks);
    cut_plane(picture, name, Plane::Cr, &mut out.blocks);
}

/// Copies a slice's samples of a plane.
fn cut_plane(picture: &Picture, name: SliceName, plane: Plane, blocks: &mut [[u16; 64]; 64])
    requires fits { FitsSize picture.now.size name }
    requires samples { AreSamples blocks.old }
    ensures cut { (b k : ℕ) → b < blocks_of plane name.count → k < 64
        → sample_of blocks.new plane b k ≡ repeated_at picture.now name.field plane (line_of name plane b k) (column_of name plane b k) }
    ensures before { (n : ℕ) → n < first_block plane → get_or blocks.new n [] ≡ get_or blocks.old n [] }
    ensures behind { (n : ℕ) → first_block plane + blocks_of plane name.count ≤ n → get_or blocks.new n [] ≡ get_or blocks.old n [] }
    ensures samples { AreSamples blocks.new }
{
    let line = 16 * usize::from(name.row);
    let column = macroblock_width(plane) * usize::from(name.first);
    let first = first_of(plane);
    for b in 0..block_count(plane, name.count) {
        cut_block(
            picture,
            name.field,
            plane,
            line + lines_to(plane, b),
            column + columns_to(plane, b),
            &mut blocks[first + b],
        );
    }
}

/// Samples of a row of a macroblock.
#[inline(always)]
pub(crate) fn macroblock_width(plane: Plane) -> usize
    ensures value { result ≡ macroblock_columns plane }
    ensures most { result ≤ 16 }
{
    match plane {
        Plane::Y => 16,
        Plane::Cb => 8,
        Plane::Cr => 8,
    }
}

/// Lines of the slice above a block.
#[inline(always)]
pub(crate) fn lines_to(plane: Plane, block: usize) -> usize
    ensures value { result ≡ lines_above plane block }
    ensures most { result ≤ 8 }
{
    match plane {
        Plane::Y => 8 * (block % 4 / 2),
        Plane::Cb => 8 * (block % 2),
        Plane::Cr => 8 * (block % 2),
    }
}

/// Columns of the slice left of a block.
#[inline(always)]
pub(crate) fn columns_to(plane: Plane, block: usize) -> usize
    requires { block < 32 }
    ensures value { result ≡ columns_before plane block }
    ensures most { result ≤ 136 }
{
    match plane {
        Plane::Y => 16 * (block / 4) + 8 * (block % 2),
        Plane::Cb => 8 * (block / 2),
        Plane::Cr => 8 * (block / 2),
    }
}
