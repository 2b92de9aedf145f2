//! Eight blocks side by side: the number of block `b` at the raster place `p` stands at `8 * p + b`.

ghost use Rattle.std.specs.Prelude.{◌≡◌, ◌≢◌, ◌≤◌, ◌<◌, ◌+◌, ◌*◌, ◌^◌, ℕ, [], pos, ◌≤ℤ◌, length, get_or, slice_index};
ghost use Rattle.std.specs.Int.RustNames.{unsigned_abs};
ghost use Rattle.prores_scan.specs.Scans.{place_of};
ghost use Rattle.slice_levels.specs.Coefficients.{AreSamples};
ghost use Rattle.slice_levels.specs.Interleaved.{entry_of};
ghost use Rattle.whole_transform.specs.Sums.{at};

use prores_scan::{Scan, place};
use std::simd::prelude::*;

/// Room for the numbers of eight blocks side by side, lent to each call that works on them. What it holds between calls
/// matters to none.
#[derive(Drop)]
pub struct Lanes {
    /// Samples of ten bits.
    pub(crate) samples: [u16; 512],
    /// Sizes of coefficients.
    pub(crate) sizes: [u16; 512],
    /// Their signs, 1 for minus.
    pub(crate) negative: [u16; 512],
    /// Products of 16 bits.
    pub(crate) products: [i16; 512],
    /// Sums, and the samples that they give.
    pub(crate) sums: [i32; 512],
}

impl Lanes {
    /// Clears the room.
    pub fn new() -> Self {
        Lanes {
            samples: [0; 512],
            sizes: [0; 512],
            negative: [0; 512],
            products: [0; 512],
            sums: [0; 512],
        }
    }
}

/// Writes the samples of eight blocks from the first of them on. Where there are fewer, the last one stands in for the
/// others.
#[inline(always)]
pub fn put_blocks(blocks: &[[u16; 64]], first: usize, lanes: &mut [u16; 512])
    requires first { first < length blocks.now }
    requires samples { AreSamples blocks.now }
    ensures placed { (lane p : ℕ) → lane < 8 → first + lane < length blocks.now → p < 64
        → slice_index lanes.new (8 * p + lane) ≡ slice_index (get_or blocks.now (first + lane) []) p }
    ensures samples { (n : ℕ) → slice_index lanes.new n < 1024 }
{
    for lane in 0..8 {
        put_block(&blocks[(first + lane).min(blocks.len() - 1)], lane, lanes);
    }
}

/// Writes the samples of one block.
#[inline(always)]
fn put_block(block: &[u16; 64], lane: usize, lanes: &mut [u16; 512])
    requires { lane < 8 }
    ensures placed { (p : ℕ) → p < 64 → slice_index lanes.new (8 * p + lane) ≡ slice_index block.now p }
    ensures kept { (p j : ℕ) → p < 64 → j < 8 → j ≢ lane → slice_index lanes.new (8 * p + j) ≡ slice_index lanes.old (8 * p + j) }
{
    for p in 0..64 {
        lanes[8 * p + lane] = block[p];
    }
}

/// Writes the products of eight blocks of an interleaved list, or of as many as it has from the first of them on.
#[inline(always)]
pub fn put_group(products: &[i32], scan: Scan, count: usize, first: usize, lanes: &mut [i16; 512])
    requires room { length products.now ≡ 64 * count }
    requires first { first < count }
    requires small { (n : ℕ) → unsigned_abs (at products.now n) < 2 ^ 15 }
    ensures { (lane k : ℕ) → lane < 8 → first + lane < count → k < 64
        → at lanes.new (8 * place_of scan k + lane) ≡ at products.now (entry_of count k (first + lane)) }
{
    let filled = (count - first).min(8);
    for k in 0..64 {
        put_place(
            products,
            k as usize * count + first,
            filled,
            lanes,
            place(scan, k) as usize,
        );
    }
}

/// Writes a few neighbouring products to a raster place. Eight is told to the compiler, so that they go in one piece.
#[inline(always)]
fn put_place(products: &[i32], from: usize, filled: usize, lanes: &mut [i16; 512], p: usize)
    requires room { from + filled ≤ length products.now }
    requires filled { filled ≤ 8 }
    requires place { p < 64 }
    requires small { (n : ℕ) → unsigned_abs (at products.now n) < 2 ^ 15 }
    ensures placed { (lane : ℕ) → lane < filled → at lanes.new (8 * p + lane) ≡ at products.now (from + lane) }
    ensures kept { (q lane : ℕ) → lane < 8 → q ≢ p → at lanes.new (8 * q + lane) ≡ at lanes.old (8 * q + lane) }
{
    if filled == 8 {
        put_few(products, from, 8, lanes, p);
    } else {
        put_few(products, from, filled, lanes, p);
    }
}

#[inline(always)]
fn put_few(products: &[i32], from: usize, filled: usize, lanes: &mut [i16; 512], p: usize)
    requires room { from + filled ≤ length products.now }
    requires filled { filled ≤ 8 }
    requires place { p < 64 }
    requires small { (n : ℕ) → unsigned_abs (at products.now n) < 2 ^ 15 }
    ensures placed { (lane : ℕ) → lane < filled → at lanes.new (8 * p + lane) ≡ at products.now (from + lane) }
    ensures kept { (q lane : ℕ) → lane < 8 → q ≢ p → at lanes.new (8 * q + lane) ≡ at lanes.old (8 * q + lane) }
{
    for lane in 0..filled {
        lanes[8 * p + lane] = short_at(products, from + lane);
    }
}

/// A product of 16 bits.
#[inline(always)]
fn short_at(products: &[i32], n: usize) -> i16
    requires within { n < length products.now }
    requires small { (n : ℕ) → unsigned_abs (at products.now n) < 2 ^ 15 }
    ensures { result ≡ at products.now n }
{
    products[n] as i16
}

/// Copies the samples of one of eight blocks, row by row.
#[inline(always)]
pub fn take_block(sums: &[i32; 512], lane: usize, out: &mut [u16; 64])
    requires lane { lane < 8 }
    requires range { (k : ℕ) → k < 512 → (pos 4 ≤ℤ at sums.now k) × (at sums.now k ≤ℤ pos 1019) }
    ensures { (p : ℕ) → p < 64 → at sums.now (8 * p + lane) ≡ pos (slice_index out.new p) }
{
    for r in 0..8 {
        put_samples(row_of(sums, 64 * r + lane), out, r);
    }
}

/// Eight samples, each eight places behind the one before. As a vector they are stored at once.
#[inline(always)]
fn row_of(sums: &[i32; 512], first: usize) -> u16x8
    requires within { first + 56 < 512 }
    requires range { (k : ℕ) → k < 512 → (pos 4 ≤ℤ at sums.now k) × (at sums.now k ≤ℤ pos 1019) }
    ensures { (x : ℕ) → x < 8 → at sums.now (first + 8 * x) ≡ pos (slice_index result x) }
{
    u16x8::from_array([
        sample_at(sums, first),
        sample_at(sums, first + 8),
        sample_at(sums, first + 16),
        sample_at(sums, first + 24),
        sample_at(sums, first + 32),
        sample_at(sums, first + 40),
        sample_at(sums, first + 48),
        sample_at(sums, first + 56),
    ])
}

#[inline(always)]
fn sample_at(sums: &[i32; 512], n: usize) -> u16
    requires within { n < 512 }
    requires range { (k : ℕ) → k < 512 → (pos 4 ≤ℤ at sums.now k) × (at sums.now k ≤ℤ pos 1019) }
    ensures { at sums.now n ≡ pos result }
{
    sums[n] as u16
}

/// Puts a row of a block.
#[inline(always)]
fn put_samples(row: u16x8, out: &mut [u16; 64], r: usize)
    requires { r < 8 }
    ensures put { (x : ℕ) → x < 8 → slice_index out.new (8 * r + x) ≡ slice_index row x }
    ensures before { (p : ℕ) → p < 8 * r → slice_index out.new p ≡ slice_index out.old p }
{
    row.copy_to_slice(&mut out[8 * r..8 * r + 8]);
}
