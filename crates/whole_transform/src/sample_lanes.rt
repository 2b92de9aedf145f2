//! Eight blocks of samples at once, rows first and then columns, all in 32 bits. Their numbers stand side by side, eight
//! of each place. A row is read into room of its own, so that the compiler sees that it and the sums are apart.

ghost use Rattle.std.specs.Prelude.{◌≡◌, ◌≢◌, ◌⊎◌, ◌≤◌, ◌<◌, ◌+◌, ◌*◌, ◌/◌, ◌^◌, ℕ, pos, ◌+ℤ◌, ◌-ℤ◌, ◌*ℤ◌, neg_ℤ, slice_index};
ghost use Rattle.std.specs.Int.RustNames.{unsigned_abs};
ghost use Rattle.whole_transform.specs.inner.Passes.{IsKept, forward_of, lane_at};
ghost use Rattle.whole_transform.specs.Sums.{at};
ghost use Rattle.whole_transform.specs.Transform.{IsForwardOfEach, StandsAt, forward_sum, floored, lane_cell, lane_centred, minus_of};

use crate::columns::{even_sums, odd_sums};
use crate::narrow::forward_eight;
use crate::shifts::shifted_sum;

/// Transforms eight blocks of samples below 1024 into the sizes of their coefficients over 2^25, rounded down, and their
/// signs, 1 for minus and else 0: the number of block `b` at a row and a column stands at `64 * row + 8 * column + b`,
/// in `samples` as in `sizes` and `negative`. `rows` is room for the sums of the rows. No coefficient is above 512 *
/// 46344^2 in size. (own)
pub fn forward_lanes(
    samples: &[u16; 512],
    rows: &mut [i32; 512],
    sizes: &mut [u16; 512],
    negative: &mut [u16; 512],
)
    requires samples { (k : ℕ) → slice_index samples.now k < 1024 }
    ensures coefficients { IsForwardOfEach samples.now sizes.new negative.new }
    ensures range { (k : ℕ) → k < 512 → (slice_index sizes.new k ≤ 32772) × (slice_index negative.new k ≤ 1) }
    ensures small { (b v u : ℕ) → b < 8 → v < 8 → u < 8 →
        unsigned_abs (forward_sum (lane_centred samples.now b) v u) ≤ 512 * 46344 ^ 2 }
{
    forward_rows(samples, rows);
    even_columns(rows, sizes, negative);
    odd_columns(rows, sizes, negative);
}

/// Transforms each row of each block.
#[inline(always)]
fn forward_rows(samples: &[u16; 512], rows: &mut [i32; 512])
    requires { (k : ℕ) → slice_index samples.now k < 1024 }
    ensures sums { (b y u : ℕ) → b < 8 → y < 8 → u < 8 →
        lane_cell rows.new b y u ≡ forward_of (lane_centred samples.now b y) u }
    ensures small { (y j : ℕ) → y < 8 → j < 64 → unsigned_abs (lane_at rows.new y j) ≤ 512 * 46344 }
{
    let mut values = [0i16; 64];
    for y in 0..8 {
        centre_row(samples, y, &mut values);
        forward_row(&values, y, rows);
    }
}

/// Reads a row of each block, less 512.
#[inline(always)]
fn centre_row(samples: &[u16; 512], row: usize, values: &mut [i16; 64])
    requires place { row < 8 }
    requires samples { (k : ℕ) → slice_index samples.now k < 1024 }
    ensures values { (j : ℕ) → j < 64 → at values.new j ≡ pos (slice_index samples.now (64 * row + j)) -ℤ pos 512 }
    ensures small { (j : ℕ) → j < 64 → unsigned_abs (at values.new j) ≤ 512 }
{
    for j in 0..64 {
        values[j] = less_512(samples[64 * row + j]);
    }
}

/// A sample less 512.
#[inline(always)]
fn less_512(sample: u16) -> i16
    requires { sample < 1024 }
    ensures value { result ≡ pos sample -ℤ pos 512 }
    ensures small { unsigned_abs result ≤ 512 }
{
    sample as i16 - 512
}

/// Transforms a row of each block.
#[inline(always)]
fn forward_row(values: &[i16; 64], row: usize, rows: &mut [i32; 512])
    requires place { row < 8 }
    requires values { (j : ℕ) → j < 64 → unsigned_abs (at values.now j) ≤ 512 }
    ensures sums { (b u : ℕ) → b < 8 → u < 8 →
        lane_cell rows.new b row u ≡ forward_of (λ x. at values.now (8 * x + b)) u }
    ensures kept { (b y u : ℕ) → b < 8 → u < 8 → y ≢ row → lane_cell rows.new b y u ≡ lane_cell rows.old b y u }
{
    for lane in 0..8 {
        put_lane_row(rows, row, lane, forward_eight(lane_of(values, lane)));
    }
}

/// The values of one block.
#[inline(always)]
fn lane_of(values: &[i16; 64], lane: usize) -> [i16; 8]
    requires place { lane < 8 }
    ensures { (x : ℕ) → x < 8 → at result x ≡ at values.now (8 * x + lane) }
{
    [
        values[lane],
        values[8 + lane],
        values[16 + lane],
        values[24 + lane],
        values[32 + lane],
        values[40 + lane],
        values[48 + lane],
        values[56 + lane],
    ]
}

/// Writes a row of one block.
#[inline(always)]
fn put_lane_row(rows: &mut [i32; 512], row: usize, lane: usize, sums: [i32; 8])
    requires place { (row < 8) × (lane < 8) }
    ensures placed { (u : ℕ) → u < 8 → lane_cell rows.new lane row u ≡ at sums u }
    ensures kept { (b y u : ℕ) → b < 8 → u < 8 → (b ≢ lane) ⊎ (y ≢ row) → lane_cell rows.new b y u ≡ lane_cell rows.old b y u }
{
    for u in 0..8 {
        rows[64 * row + (8 * u + lane)] = sums[u];
    }
}

/// The coefficients of the even basis numbers of each column.
#[inline(always)]
fn even_columns(rows: &[i32; 512], sizes: &mut [u16; 512], negative: &mut [u16; 512])
    requires { (y j : ℕ) → y < 8 → j < 64 → unsigned_abs (lane_at rows.now y j) ≤ 512 * 46344 }
    ensures { (k j : ℕ) → k < 4 → j < 64 →
        StandsAt sizes.new negative.new (128 * k + j) (forward_of (λ y. lane_at rows.now y j) (2 * k)) }
{
    for j in 0..64 {
        let (high, low) = even_sums(column_of(rows, j));
        put_coefficients(sizes, negative, j, high, low);
    }
}

/// The coefficients of the odd basis numbers of each column.
#[inline(always)]
fn odd_columns(rows: &[i32; 512], sizes: &mut [u16; 512], negative: &mut [u16; 512])
    requires { (y j : ℕ) → y < 8 → j < 64 → unsigned_abs (lane_at rows.now y j) ≤ 512 * 46344 }
    ensures odd { (k j : ℕ) → k < 4 → j < 64 →
        StandsAt sizes.new negative.new (128 * k + (64 + j)) (forward_of (λ y. lane_at rows.now y j) (2 * k + 1)) }
    ensures even { (k j : ℕ) → j < 64 → IsKept sizes.old negative.old sizes.new negative.new (128 * k + j) }
{
    for j in 0..64 {
        let (high, low) = odd_sums(column_of(rows, j));
        put_coefficients(sizes, negative, 64 + j, high, low);
    }
}

/// The values of a column.
#[inline(always)]
fn column_of(rows: &[i32; 512], column: usize) -> [i32; 8]
    requires { column < 64 }
    ensures { (y : ℕ) → y < 8 → at result y ≡ lane_at rows.now y column }
{
    [
        rows[column],
        rows[64 + column],
        rows[128 + column],
        rows[192 + column],
        rows[256 + column],
        rows[320 + column],
        rows[384 + column],
        rows[448 + column],
    ]
}

/// Writes every second coefficient of a column, by the sums of the upper and of the lower halves.
#[inline(always)]
fn put_coefficients(
    sizes: &mut [u16; 512],
    negative: &mut [u16; 512],
    place: usize,
    high: [i32; 4],
    low: [i32; 4],
)
    requires place { place < 128 }
    requires high { (k : ℕ) → k < 4 → unsigned_abs (at high k) < 2 ^ 30 }
    requires low { (k : ℕ) → k < 4 → unsigned_abs (at low k) < 2 ^ 30 }
    requires small { (k : ℕ) → k < 4 → unsigned_abs (pos 65536 *ℤ at high k +ℤ at low k) ≤ 512 * 46344 ^ 2 }
    ensures placed { (k : ℕ) → k < 4 →
        StandsAt sizes.new negative.new (128 * k + place) (pos 65536 *ℤ at high k +ℤ at low k) }
    ensures kept { (k j : ℕ) → j < 128 → j ≢ place → IsKept sizes.old negative.old sizes.new negative.new (128 * k + j) }
{
    for k in 0..4 {
        put_coefficient(sizes, negative, 128 * k + place, high[k], low[k]);
    }
}

/// Writes a coefficient.
#[inline(always)]
fn put_coefficient(
    sizes: &mut [u16; 512],
    negative: &mut [u16; 512],
    place: usize,
    high: i32,
    low: i32,
)
    requires place { place < 512 }
    requires high { unsigned_abs high < 2 ^ 30 }
    requires low { unsigned_abs low < 2 ^ 30 }
    requires small { unsigned_abs (pos 65536 *ℤ high +ℤ low) ≤ 512 * 46344 ^ 2 }
    ensures placed { StandsAt sizes.new negative.new place (pos 65536 *ℤ high +ℤ low) }
    ensures kept { (k : ℕ) → k ≢ place → IsKept sizes.old negative.old sizes.new negative.new k }
{
    let (size, sign) = size_and_sign(high, low);
    sizes[place] = size;
    negative[place] = sign;
}

/// The size over 2^25 and the sign of a coefficient that is given by its halves' sums.
#[inline(always)]
fn size_and_sign(high: i32, low: i32) -> (u16, u16)
    requires high { unsigned_abs high < 2 ^ 30 }
    requires low { unsigned_abs low < 2 ^ 30 }
    requires small { unsigned_abs (pos 65536 *ℤ high +ℤ low) ≤ 512 * 46344 ^ 2 }
    ensures size { result.0 ≡ unsigned_abs (pos 65536 *ℤ high +ℤ low) / 2 ^ 25 }
    ensures sign { result.1 ≡ minus_of (pos 65536 *ℤ high +ℤ low) }
{
    let sign = sign_of(high, low);
    let steps = steps_of(high, low, sign);
    if sign < 0 {
        ((-1 - steps) as u16, 1)
    } else {
        (steps as u16, 0)
    }
}

/// -1 where a coefficient is below 0, else 0.
#[inline(always)]
fn sign_of(high: i32, low: i32) -> i32
    requires high { unsigned_abs high < 2 ^ 30 }
    requires low { unsigned_abs low < 2 ^ 30 }
    ensures { result ≡ neg_ℤ (pos (minus_of (pos 65536 *ℤ high +ℤ low))) }
{
    shifted_sum(high, shifted_sum(low, 0, 16), 31)
}

/// A coefficient over 2^25, rounded down. One below 0 is lessened by 1 first: where it then gives n, its size over 2^25,
/// rounded down, is -1 - n.
#[inline(always)]
fn steps_of(high: i32, low: i32, sign: i32) -> i32
    requires high { unsigned_abs high < 2 ^ 30 }
    requires low { unsigned_abs low < 2 ^ 30 }
    requires sign { unsigned_abs sign ≤ 1 }
    ensures { result ≡ floored ((pos 65536 *ℤ high +ℤ low) +ℤ sign) (2 ^ 25) }
{
    shifted_sum(high, shifted_sum(low, sign, 16), 9)
}
