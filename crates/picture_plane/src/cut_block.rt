//! Blocks of 8 by 8 that are cut out of a picture.

ghost use Rattle.std.specs.Prelude.{◌≡◌, ◌≢◌, ◌≤◌, ◌<◌, ◌+◌, ◌-◌, ◌*◌, ◌/◌, ◌%◌, ◌^◌, ℕ, length, min, slice_index};
ghost use Rattle.picture_plane.specs.Blocks.{frame_row, repeated_at};
ghost use Rattle.picture_plane.specs.Pictures.{columns, row_of};
ghost use Rattle.picture_plane.specs.Slices.{HasField, line_count};
ghost use Rattle.picture_plane.specs.inner.Lines.{IsRow, lines_step};

use crate::picture::Picture;
use crate::planes::Plane;
use crate::runs::{put_eight, put_run};
use crate::slice_names::Field;

/// Copies the block whose first sample stands at a line and a column of a coded picture; past the last line and column
/// these are repeated.
pub(crate) fn cut_block(
    picture: &Picture,
    field: Field,
    plane: Plane,
    line: usize,
    column: usize,
    block: &mut [u16; 64],
)
    requires field { HasField picture.now.size.interlace field }
    requires lines { line + 8 < 2 ^ 32 }
    requires columns { column + 8 < 2 ^ 32 }
    ensures samples { (k : ℕ) → k < 64 → slice_index block.new k ≡ repeated_at picture.now field plane (line + k / 8) (column + k % 8) }
    ensures small { (k : ℕ) → slice_index block.new k < 1024 }
    ensures long { length block.new ≡ 64 }
{
    let size = picture.size();
    if line + 8 <= usize::from(size.line_count()) && column + 8 <= size.columns(plane) {
        cut_inside(picture, field, plane, line, column, block);
    } else {
        cut_edge(picture, field, plane, line, column, block);
    }
}

/// Copies a block that lies inside the coded picture.
#[inline(always)]
fn cut_inside(
    picture: &Picture,
    field: Field,
    plane: Plane,
    line: usize,
    column: usize,
    block: &mut [u16; 64],
)
    requires field { HasField picture.now.size.interlace field }
    requires lines { line + 8 ≤ line_count picture.now.size }
    requires columns { column + 8 ≤ columns picture.now.size plane }
    ensures samples { (k : ℕ) → k < 64 → slice_index block.new k ≡ repeated_at picture.now field plane (line + k / 8) (column + k % 8) }
    ensures small { (k : ℕ) → slice_index block.new k < 1024 }
    ensures long { length block.new ≡ 64 }
{
    picture.ranges();
    let size = picture.size();
    let start = size.row_start(plane, row_at(field, line)) + column;
    put_rows(
        picture.samples(),
        start,
        row_step(field) * size.columns(plane),
        block,
    );
}

/// Copies the rows of a block from samples, the first from `start` on, each further one `step` samples behind.
#[inline(always)]
fn put_rows(samples: &[u16], start: usize, step: usize, block: &mut [u16; 64])
    requires room { start + 7 * step + 8 ≤ length samples.now }
    ensures rows { (k : ℕ) → k < 64 → slice_index block.new k ≡ slice_index samples.now (start + k / 8 * step + k % 8) }
    ensures long { length block.new ≡ 64 }
{
    for r in 0..8 {
        let at = start + r * step;
        put_eight(block, 8 * r, &samples[at..at + 8]);
    }
}

/// Rows of the frame from a line of a coded picture to the next.
#[inline(always)]
pub(crate) fn row_step(field: Field) -> usize
    ensures value { result ≡ lines_step field }
    ensures most { result ≤ 2 }
{
    match field {
        Field::Whole => 1,
        Field::Top => 2,
        Field::Bottom => 2,
    }
}

/// Copies a block at the edge of the coded picture.
fn cut_edge(
    picture: &Picture,
    field: Field,
    plane: Plane,
    line: usize,
    column: usize,
    block: &mut [u16; 64],
)
    requires field { HasField picture.now.size.interlace field }
    requires lines { line + 8 < 2 ^ 32 }
    requires columns { column + 8 < 2 ^ 32 }
    ensures samples { (k : ℕ) → k < 64 → slice_index block.new k ≡ repeated_at picture.now field plane (line + k / 8) (column + k % 8) }
    ensures small { (k : ℕ) → slice_index block.new k < 1024 }
    ensures long { length block.new ≡ 64 }
{
    picture.ranges();
    for r in 0..8 {
        put_block_row(block, r, line_at(picture, field, plane, line + r), column);
    }
}

/// A line of a coded picture, the last one past it.
#[inline(always)]
fn line_at(picture: &Picture, field: Field, plane: Plane, line: usize) -> &[u16]
    requires field { HasField picture.now.size.interlace field }
    ensures value { result.now ≡ row_of picture.now plane (frame_row field (min line (line_count picture.now.size - 1))) }
    ensures length { length result.now ≡ columns picture.now.size plane }
{
    let last = usize::from(picture.size().line_count()) - 1;
    picture.row(plane, row_at(field, line.min(last)))
}

/// The frame's row that is a line of a coded picture.
#[inline(always)]
pub(crate) fn row_at(field: Field, line: usize) -> usize
    requires { line < 2 ^ 32 }
    ensures { result ≡ frame_row field line }
{
    match field {
        Field::Whole => line,
        Field::Top => 2 * line,
        Field::Bottom => 2 * line + 1,
    }
}

/// Copies a row of a block from a column of a row of samples, whose last one is repeated.
#[inline(always)]
fn put_block_row(block: &mut [u16; 64], r: usize, row: &[u16], column: usize)
    requires r { r < 8 }
    requires some { 0 < length row.now }
    requires columns { column + 8 < 2 ^ 64 }
    ensures row { IsRow block.new r row.now column }
    ensures others { (k : ℕ) → k / 8 ≢ r → slice_index block.new k ≡ slice_index block.old k }
{
    if column + 8 <= row.len() {
        put_run(block, 8 * r, &row[column..column + 8]);
    } else {
        put_repeated(block, r, row, column);
    }
}

/// Copies a row of a block sample by sample.
fn put_repeated(block: &mut [u16; 64], r: usize, row: &[u16], column: usize)
    requires r { r < 8 }
    requires some { 0 < length row.now }
    requires columns { column + 8 < 2 ^ 64 }
    ensures row { IsRow block.new r row.now column }
    ensures others { (k : ℕ) → k / 8 ≢ r → slice_index block.new k ≡ slice_index block.old k }
{
    for x in 0..8 {
        block[8 * r + x] = row[(column + x).min(row.len() - 1)];
    }
}
