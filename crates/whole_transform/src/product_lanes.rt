//! Eight blocks at once, all in 32 bits. Their numbers stand side by side, eight of each place, so that each statement
//! is one over eight blocks. The sums of the columns stand where the samples come, so no other room is cleared or lent.

ghost use Rattle.std.specs.Prelude.{◌≡◌, ◌≢◌, ◌≤◌, ◌<◌, ◌+◌, ◌*◌, ◌^◌, ℕ, pos, ◌+ℤ◌, ◌-ℤ◌, ◌*ℤ◌, ◌≤ℤ◌, slice_index};
ghost use Rattle.std.specs.Int.RustNames.{unsigned_abs};
ghost use Rattle.whole_transform.specs.inner.Passes.{inverse_of, lane_at};
ghost use Rattle.whole_transform.specs.Sums.{at};
ghost use Rattle.whole_transform.specs.Transform.{IsInverseOfEach, floored, lane_cell, sample};

use crate::narrow;
use crate::samples::clamped_sample;
use crate::shifts::{halves, shifted_sum};

/// One half, which rounds, and 512, both times 2^14.
const HALF_AND_MIDDLE: i32 = (1 << 13) + (512 << 14);

/// Transforms eight blocks of products of 16 bits into their samples, 4 to 1019: the number of block `b` at a row and a
/// column stands at `64 * row + 8 * column + b`, in `products` as in `samples`.
pub fn inverse_lanes(products: &[i16; 512], samples: &mut [i32; 512])
    ensures samples { IsInverseOfEach products.now samples.new }
    ensures range { (k : ℕ) → k < 512 → (pos 4 ≤ℤ at samples.new k) × (at samples.new k ≤ℤ pos 1019) }
{
    lane_columns(products, samples);
    lane_rows(samples);
}

/// Transforms each column of each block.
#[inline(always)]
fn lane_columns(products: &[i16; 512], columns: &mut [i32; 512])
    ensures sums { (y j : ℕ) → y < 8 → j < 64 → lane_at columns.new y j ≡ inverse_of (λ v. lane_at products.now v j) y }
    ensures small { (y j : ℕ) → y < 8 → j < 64 → unsigned_abs (lane_at columns.new y j) ≤ 2 ^ 15 * 43284 }
{
    for j in 0..64 {
        put_lane_column(
            columns,
            j,
            narrow::inverse_eight(lane_column_of(products, j)),
        );
    }
}

/// The products of a column.
#[inline(always)]
fn lane_column_of(products: &[i16; 512], column: usize) -> [i32; 8]
    requires { column < 64 }
    ensures values { (v : ℕ) → v < 8 → at result v ≡ lane_at products.now v column }
    ensures small { (v : ℕ) → v < 8 → unsigned_abs (at result v) ≤ 2 ^ 15 }
{
    [
        i32::from(products[column]),
        i32::from(products[64 + column]),
        i32::from(products[128 + column]),
        i32::from(products[192 + column]),
        i32::from(products[256 + column]),
        i32::from(products[320 + column]),
        i32::from(products[384 + column]),
        i32::from(products[448 + column]),
    ]
}

/// Writes a column.
#[inline(always)]
fn put_lane_column(columns: &mut [i32; 512], column: usize, values: [i32; 8])
    requires { column < 64 }
    ensures placed { (y : ℕ) → y < 8 → lane_at columns.new y column ≡ at values y }
    ensures kept { (y j : ℕ) → j < 64 → j ≢ column → lane_at columns.new y j ≡ lane_at columns.old y j }
{
    for y in 0..8 {
        columns[64 * y + column] = values[y];
    }
}

/// Transforms each row of each block into its samples.
#[inline(always)]
fn lane_rows(blocks: &mut [i32; 512])
    requires { (y j : ℕ) → y < 8 → j < 64 → unsigned_abs (lane_at blocks.now y j) ≤ 2 ^ 15 * 43284 }
    ensures { (b y x : ℕ) → b < 8 → y < 8 → x < 8 →
        lane_cell blocks.new b y x ≡ pos (sample (inverse_of (lane_cell blocks.old b y) x)) }
{
    for y in 0..8 {
        lane_row(blocks, y);
    }
}

/// Transforms a row of each block into its samples.
#[inline(always)]
fn lane_row(blocks: &mut [i32; 512], row: usize)
    requires place { row < 8 }
    requires small { (j : ℕ) → j < 64 → unsigned_abs (lane_at blocks.now row j) ≤ 2 ^ 15 * 43284 }
    ensures samples { (b x : ℕ) → b < 8 → x < 8 →
        lane_cell blocks.new b row x ≡ pos (sample (inverse_of (lane_cell blocks.old b row) x)) }
    ensures kept { (y j : ℕ) → j < 64 → y ≢ row → lane_at blocks.new y j ≡ lane_at blocks.old y j }
{
    for lane in 0..8 {
        let samples = samples_of_sums(lane_row_of(blocks, row, lane));
        put_lane_samples(blocks, row, lane, samples);
    }
}

/// The values of a row of one block.
#[inline(always)]
fn lane_row_of(blocks: &[i32; 512], row: usize, lane: usize) -> [i32; 8]
    requires place { (row < 8) × (lane < 8) }
    ensures { (u : ℕ) → u < 8 → at result u ≡ lane_cell blocks.now lane row u }
{
    let start = 64 * row + lane;
    [
        blocks[start],
        blocks[start + 8],
        blocks[start + 16],
        blocks[start + 24],
        blocks[start + 32],
        blocks[start + 40],
        blocks[start + 48],
        blocks[start + 56],
    ]
}

/// Writes a row of samples of one block.
#[inline(always)]
fn put_lane_samples(blocks: &mut [i32; 512], row: usize, lane: usize, values: [u16; 8])
    requires place { (row < 8) × (lane < 8) }
    ensures placed { (x : ℕ) → x < 8 → lane_cell blocks.new lane row x ≡ pos (slice_index values x) }
    ensures lanes { (b x : ℕ) → b < 8 → x < 8 → b ≢ lane → lane_cell blocks.new b row x ≡ lane_cell blocks.old b row x }
    ensures rows { (y j : ℕ) → j < 64 → y ≢ row → lane_at blocks.new y j ≡ lane_at blocks.old y j }
{
    for x in 0..8 {
        blocks[64 * row + (8 * x + lane)] = i32::from(values[x]);
    }
}

/// The samples of a row, two by two, by the sums of the upper and of the lower halves of its values.
#[inline(always)]
pub fn samples_of_sums(values: [i32; 8]) -> [u16; 8]
    requires { (u : ℕ) → u < 8 → unsigned_abs (at values u) ≤ 2 ^ 15 * 43284 }
    ensures { (x : ℕ) → x < 8 → slice_index result x ≡ sample (inverse_of (at values) x) }
{
    let (high, low) = split(values);
    let even_high = narrow::even_part(HALF_AND_MIDDLE, high);
    let even_low = narrow::even_part(0, low);
    let odd_high = narrow::odd_part(high);
    let odd_low = narrow::odd_part(low);
    let (a, h) = mirrored_samples(0, even_high, odd_high, even_low, odd_low);
    let (b, g) = mirrored_samples(1, even_high, odd_high, even_low, odd_low);
    let (c, f) = mirrored_samples(2, even_high, odd_high, even_low, odd_low);
    let (d, e) = mirrored_samples(3, even_high, odd_high, even_low, odd_low);
    [a, b, c, d, e, f, g, h]
}

/// The samples at a place and at the one as far from the end, by the even and the odd part of the sums of the upper and
/// of the lower halves. The even part of the upper ones has one half and 512 besides.
#[inline(always)]
fn mirrored_samples(
    x: usize,
    even_high: [i32; 4],
    odd_high: [i32; 4],
    even_low: [i32; 4],
    odd_low: [i32; 4],
) -> (u16, u16)
    requires place { x < 4 }
    requires high { unsigned_abs (at even_high x) + unsigned_abs (at odd_high x) ≤ 21643 * 43284 + (2 ^ 23 + 2 ^ 13) }
    requires low { unsigned_abs (at even_low x) + unsigned_abs (at odd_low x) ≤ 2 ^ 15 * 43284 }
    ensures first { result.0 ≡ sample (pos 65536 *ℤ ((at even_high x +ℤ at odd_high x) -ℤ pos (2 ^ 23 + 2 ^ 13))
        +ℤ (at even_low x +ℤ at odd_low x)) }
    ensures last { result.1 ≡ sample (pos 65536 *ℤ ((at even_high x -ℤ at odd_high x) -ℤ pos (2 ^ 23 + 2 ^ 13))
        +ℤ (at even_low x -ℤ at odd_low x)) }
{
    let (first_high, last_high) = sum_and_difference(even_high[x], odd_high[x]);
    let (first_low, last_low) = sum_and_difference(even_low[x], odd_low[x]);
    (
        joined_sample(first_high, first_low),
        joined_sample(last_high, last_low),
    )
}

/// Two numbers added and subtracted.
#[inline(always)]
fn sum_and_difference(a: i32, b: i32) -> (i32, i32)
    requires { unsigned_abs a + unsigned_abs b < 2 ^ 31 }
    ensures sum { result.0 ≡ a +ℤ b }
    ensures difference { result.1 ≡ a -ℤ b }
{
    (a + b, a - b)
}

/// Each value in two: its nearest multiple of 65536, over it, and what is left.
#[inline(always)]
fn split(values: [i32; 8]) -> ([i32; 8], [i32; 8])
    requires { (u : ℕ) → u < 8 → unsigned_abs (at values u) ≤ 2 ^ 15 * 43284 }
    ensures whole { (u : ℕ) → u < 8 → at values u ≡ pos 65536 *ℤ at result.0 u +ℤ at result.1 u }
    ensures high { (u : ℕ) → u < 8 → unsigned_abs (at result.0 u) ≤ 21643 }
    ensures low { (u : ℕ) → u < 8 → unsigned_abs (at result.1 u) ≤ 2 ^ 15 }
{
    let [a, b, c, d, e, f, g, h] = values;
    let (a, i) = halves(a);
    let (b, j) = halves(b);
    let (c, k) = halves(c);
    let (d, l) = halves(d);
    let (e, m) = halves(e);
    let (f, n) = halves(f);
    let (g, o) = halves(g);
    let (h, p) = halves(h);
    ([a, b, c, d, e, f, g, h], [i, j, k, l, m, n, o, p])
}

/// The sample of a sum that is given by its halves' sums, that of the upper ones with one half and 512 besides.
#[inline(always)]
fn joined_sample(high: i32, low: i32) -> u16
    requires high { unsigned_abs high ≤ 21643 * 43284 + (2 ^ 23 + 2 ^ 13) }
    requires low { unsigned_abs low ≤ 2 ^ 15 * 43284 }
    ensures { result ≡ sample (pos 65536 *ℤ (high -ℤ pos (2 ^ 23 + 2 ^ 13)) +ℤ low) }
{
    let carried = shifted_sum(low, 0, 16);
    clamped_sample(shifted_sum(high, carried, 14))
}
