//! From the blocks of a part to the half steps of its coefficients.

ghost use Rattle.std.specs.Prelude.{◌≡◌, ◌≢◌, ◌≤◌, ◌<◌, ◌+◌, ◌*◌, ◌^◌, ◌⊎◌, ℕ, [], length, get_or, slice_index};
ghost use Rattle.prores_scan.specs.HalfSteps.{half_steps_of, AreShort};
ghost use Rattle.slice_levels.specs.Coefficients.{AreSamples, coefficient, AreHalfStepsOf};
ghost use Rattle.slice_levels.specs.Interleaved.{entry_of, weight_of};
ghost use Rattle.slice_levels.specs.inner.Weighed.{IsWeighed};
ghost use Rattle.prores_scan.specs.Scans.{place_of};

use crate::lanes::{Lanes, put_blocks};
use crate::weighing::Weighing;
use prores_scan::{Reciprocal, eight_half_steps, half_steps_from, place};
use whole_transform::forward_lanes;

/// Writes the half steps of the coefficients of a part's blocks into the interleaved list `out`: each a size in 2^25 times
/// the weight, rounded down, with its sign as the last bit. Blocks are 8 by 8, row by row, of samples below 1024.
pub fn put_half_steps(blocks: &[[u16; 64]], weighing: &Weighing, lanes: &mut Lanes, out: &mut [u16])
    requires samples { AreSamples blocks.now }
    requires room { length out.old ≡ 64 * length blocks.now }
    ensures half_steps { AreHalfStepsOf weighing.now.scan weighing.now.weights blocks.now out.new }
    ensures short { AreShort out.new }
{
    for group in 0..blocks.len().div_ceil(8) {
        group_half_steps(blocks, 8 * group, weighing, lanes, out);
    }
}

/// The half steps of eight blocks, or of as many as there are from the first of them on.
fn group_half_steps(
    blocks: &[[u16; 64]],
    first: usize,
    weighing: &Weighing,
    lanes: &mut Lanes,
    out: &mut [u16],
)
    requires samples { AreSamples blocks.now }
    requires first { first < length blocks.now }
    requires room { length out.old ≡ 64 * length blocks.now }
    ensures half_steps { (b k : ℕ) → first ≤ b → b < first + 8 → b < length blocks.now → k < 64
        → slice_index out.new (entry_of (length blocks.now) k b)
        ≡ half_steps_of (coefficient weighing.now.scan (get_or blocks.now b []) k) (weight_of weighing.now.scan weighing.now.weights k) }
    ensures kept { (b k : ℕ) → b < first → k < 64
        → slice_index out.new (entry_of (length blocks.now) k b) ≡ slice_index out.old (entry_of (length blocks.now) k b) }
{
    put_blocks(blocks, first, &mut lanes.samples);
    forward_lanes(
        &lanes.samples,
        &mut lanes.sums,
        &mut lanes.sizes,
        &mut lanes.negative,
    );
    put_weighed(
        &lanes.sizes,
        &lanes.negative,
        weighing,
        blocks.len(),
        first,
        out,
    );
}

/// The half steps of eight blocks whose sizes and signs are given, or of as many as a part has from the first of them on.
#[inline(always)]
fn put_weighed(
    sizes: &[u16; 512],
    negative: &[u16; 512],
    weighing: &Weighing,
    count: usize,
    first: usize,
    out: &mut [u16],
)
    requires sizes { (n : ℕ) → n < 512 → (slice_index sizes.now n ≤ 32772) × (slice_index negative.now n ≤ 1) }
    requires first { first < count }
    requires room { length out.old ≡ 64 * count }
    ensures half_steps { (lane k : ℕ) → lane < 8 → first + lane < count → k < 64
        → IsWeighed sizes.now negative.now (8 * place_of weighing.now.scan k + lane)
        (weight_of weighing.now.scan weighing.now.weights k) (slice_index out.new (entry_of count k (first + lane))) }
    ensures kept { (b k : ℕ) → b < first → k < 64
        → slice_index out.new (entry_of count k b) ≡ slice_index out.old (entry_of count k b) }
{
    let filled = (count - first).min(8);
    let scan = weighing.scan;
    for k in 0..64 {
        let p = place(scan, k) as usize;
        let to = k as usize * count + first;
        put_place(sizes, negative, p, weighing.reciprocal(p), filled, out, to);
    }
}

/// Writes the half steps of as many blocks at a raster place as are filled. Eight go in one piece.
#[inline(always)]
fn put_place(
    sizes: &[u16; 512],
    negative: &[u16; 512],
    p: usize,
    weight: Reciprocal,
    filled: usize,
    out: &mut [u16],
    to: usize,
)
    requires sizes { (n : ℕ) → n < 512 → (slice_index sizes.now n ≤ 32772) × (slice_index negative.now n ≤ 1) }
    requires place { p < 64 }
    requires weight { 4 ≤ weight.divisor }
    requires filled { filled ≤ 8 }
    requires room { to + filled ≤ length out.old }
    ensures placed { (lane : ℕ) → lane < filled
        → IsWeighed sizes.now negative.now (8 * p + lane) weight.divisor (slice_index out.new (to + lane)) }
    ensures kept { (n : ℕ) → (n < to) ⊎ (to + filled ≤ n) → slice_index out.new n ≡ slice_index out.old n }
{
    if filled == 8 {
        eight_half_steps(sizes, negative, 8 * p, weight, out, to);
    } else {
        put_few(sizes, negative, p, weight, filled, out, to);
    }
}

/// The same, one by one.
fn put_few(
    sizes: &[u16; 512],
    negative: &[u16; 512],
    p: usize,
    weight: Reciprocal,
    filled: usize,
    out: &mut [u16],
    to: usize,
)
    requires sizes { (n : ℕ) → n < 512 → (slice_index sizes.now n ≤ 32772) × (slice_index negative.now n ≤ 1) }
    requires place { p < 64 }
    requires weight { 4 ≤ weight.divisor }
    requires filled { filled ≤ 8 }
    requires room { to + filled ≤ length out.old }
    ensures placed { (lane : ℕ) → lane < filled
        → IsWeighed sizes.now negative.now (8 * p + lane) weight.divisor (slice_index out.new (to + lane)) }
    ensures kept { (n : ℕ) → (n < to) ⊎ (to + filled ≤ n) → slice_index out.new n ≡ slice_index out.old n }
{
    for lane in 0..filled {
        out[to + lane] = half_steps_from(sizes[8 * p + lane], negative[8 * p + lane], weight);
    }
}
