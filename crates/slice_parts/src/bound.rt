//! A number of bits that the spelling of a part has at least, from its half steps.

ghost use Rattle.std.specs.Prelude.{◌≡◌, ◌<◌, ◌≤◌, ◌+◌, ◌-◌, ◌*◌, ◌%◌, ◌^◌, ℕ, ℤ, List, length, drop, map, slice_index};
ghost use Rattle.prores_scan.specs.HalfSteps.{AreShort};
ghost use Rattle.prores_scan.specs.Thresholds.{IsThreshold};
ghost use Rattle.slice_parts.specs.Bound.{ac_bound, dc_bound, changes_at, least_change, part_bound, size_at, numbers_at, AreLeft};
ghost use Rattle.slice_parts.specs.Component.{signed_levels};
ghost use Rattle.slice_parts.specs.inner.Counted.{AreAbove, AreNear, AreSome, Carries, IsBack, gap, passed, run_at, sum_to};

use prores_scan::{Reciprocal, change_bound, reached, threshold};

/// The sizes from which on a level has one bit more, by whichever code.
pub static GROWN: [u16; 10] = [2, 3, 5, 7, 13, 15, 29, 31, 61, 63];

/// Numbers of bits that the spelling of a part has at least.
#[derive(Clone, Copy)]
pub struct Least {
    /// In all.
    pub bits: u32,
    /// In the levels from the first entry of each 64 on, by their places; none of the first 64.
    pub left: [u16; 33],
}

impl Least {
    /// No bits, which each spelling has.
    pub fn none() -> Least
        ensures bits { result.bits ≡ 0 }
        ensures left { (levels : List ℤ) → AreLeft levels result.left }
    {
        Least {
            bits: 0,
            left: [0; 33],
        }
    }
}

/// Numbers of bits that the spelling of a part's levels at a scale has at least. The half steps are interleaved, 64 for
/// each of the 1 to 32 blocks, and `double` divides by twice the scale.
pub fn least_bits(half_steps: &[u16], blocks: usize, double: Reciprocal) -> Least
    requires blocks { (1 ≤ blocks) × (blocks ≤ 32) }
    requires long { length half_steps.now ≡ 64 * blocks }
    requires short { AreShort half_steps.now }
    ensures low { (scale : ℕ) → double.divisor ≡ 2 * scale → result.bits ≤ part_bound scale blocks half_steps.now }
    ensures left { (scale : ℕ) → double.divisor ≡ 2 * scale → AreLeft (signed_levels (numbers_at scale half_steps.now)) result.left }
    ensures small { result.bits ≤ 1240 * blocks }
{
    let Least { bits, left } = ac_bits(half_steps, blocks, double.divisor / 2);
    Least {
        bits: dc_bits(&half_steps[..blocks], double) + bits,
        left,
    }
}

/// The bits of the DC levels, less the one that the first run's code may save.
fn dc_bits(half_steps: &[u16], double: Reciprocal) -> u32
    requires some { 1 ≤ length half_steps.now }
    requires few { length half_steps.now ≤ 32 }
    requires short { AreShort half_steps.now }
    ensures low { (scale : ℕ) → double.divisor ≡ 2 * scale → result ≡ 5 + dc_bound (changes_at scale half_steps.now) }
    ensures small { result ≤ 12 * length half_steps.now }
{
    let mut bits = 5;
    for k in 1..half_steps.len() {
        bits += change_bits(change_bound(half_steps[k - 1], half_steps[k], double));
    }
    bits
}

/// The fewest bits of a DC level that differs from the one before by this much or more.
#[inline(always)]
#[tactic(auto, using(crate::proofs::ChangeLemmas::below_three, crate::proofs::ChangeLemmas::below_five, crate::proofs::ChangeLemmas::below_thirteen, crate::proofs::ChangeLemmas::below_29, crate::proofs::ChangeLemmas::below_61, crate::proofs::ChangeLemmas::from_61))]
fn change_bits(change: u16) -> u32
    ensures value { result ≡ least_change change }
    ensures small { result ≤ 12 }
{
    if change < 3 {
        u32::from(change) + 1
    } else if change < 5 {
        4
    } else if change < 13 {
        6
    } else if change < 29 {
        8
    } else if change < 61 {
        10
    } else {
        12
    }
}

/// The bits of the AC levels. What stands before a word changes its bits by 8 at most.
fn ac_bits(half_steps: &[u16], blocks: usize, scale: u16) -> Least
    requires blocks { (1 ≤ blocks) × (blocks ≤ 32) }
    requires long { length half_steps.now ≡ 64 * blocks }
    requires short { AreShort half_steps.now }
    requires scale { (1 ≤ scale) × (scale ≤ 512) }
    ensures low { result.bits ≤ ac_bound 0 (map (λ v. size_at scale v) (drop blocks half_steps.now)) }
    ensures left { AreLeft (signed_levels (numbers_at scale half_steps.now)) result.left }
    ensures small { result.bits ≤ 1216 * blocks }
{
    let least = threshold(1, scale);
    let first = marks_from(half_steps, 0, blocks, least);
    let mut left = [0; 33];
    let mut bits = 0;
    let mut word = blocks - 1;
    let mut marks = marks_from(half_steps, 64 * word, 0, least);
    while word > 0 {
        let before = marks_before(half_steps, word, blocks, first, least);
        bits += word_bits(half_steps, 64 * word, 0, scale, marks, before);
        left[word] = bits.saturating_sub(8) as u16;
        marks = before;
        word -= 1;
    }
    bits += word_bits(half_steps, 0, blocks, scale, first, u64::MAX);
    Least { bits, left }
}

/// The marks of the 64 entries before those of a word. `first` are those of the first word, without the DC levels.
#[inline(always)]
fn marks_before(half_steps: &[u16], word: usize, blocks: usize, first: u64, threshold: u16) -> u64
    requires word { 1 ≤ word }
    requires inside { 64 * word ≤ length half_steps.now }
    requires blocks { blocks ≤ 32 }
    requires short { AreShort half_steps.now }
    ensures first { word ≡ 1 → result ≡ first * 2 ^ blocks % 2 ^ 64 }
    ensures others { 2 ≤ word → (size scale : ℕ) → IsThreshold size scale threshold
        → AreAbove half_steps.now scale (64 * (word - 1) + 0) (64 - 0) size result }
{
    if word == 1 {
        first << blocks
    } else {
        marks_from(half_steps, 64 * (word - 1), 0, threshold)
    }
}

/// The marks of the half steps at a threshold or above it, of the 64 from a place on without the first ones.
#[inline(always)]
fn marks_from(half_steps: &[u16], at: usize, skip: usize, threshold: u16) -> u64
    requires inside { at + 64 ≤ length half_steps.now }
    requires skip { skip ≤ 32 }
    requires short { AreShort half_steps.now }
    ensures { (size scale : ℕ) → IsThreshold size scale threshold
        → AreAbove half_steps.now scale (at + skip) (64 - skip) size result }
{
    reached(half_steps, at, threshold) >> skip
}

/// The bits of the levels of 64 entries from a place on without the first ones. `marks` tells which aren't zero, and
/// `before` which of the 64 entries before.
#[inline(always)]
fn word_bits(half_steps: &[u16], at: usize, skip: usize, scale: u16, marks: u64, before: u64) -> u32
    requires inside { at + 64 ≤ length half_steps.now }
    requires skip { skip ≤ 32 }
    requires short { AreShort half_steps.now }
    requires scale { (1 ≤ scale) × (scale ≤ 512) }
    requires marks { AreAbove half_steps.now scale (at + skip) (64 - skip) 1 marks }
    ensures low { (run : ℕ) → Carries before run → (sizes : List ℕ)
        → sizes ≡ drop (at + skip) (map (λ v. size_at scale v) half_steps.now)
        → result + ac_bound (run_at (64 - skip) run sizes) (drop (64 - skip) sizes) ≤ ac_bound run sizes }
    ensures small { result ≤ 1216 }
{
    if marks == 0 {
        return 0;
    }
    3 * marks.count_ones() + gap_bits(marks, before) + size_bits(half_steps, at, skip, scale)
}

/// The bits that the sizes of these levels have more than one.
#[inline(always)]
fn size_bits(half_steps: &[u16], at: usize, skip: usize, scale: u16) -> u32
    requires inside { at + 64 ≤ length half_steps.now }
    requires skip { skip ≤ 32 }
    requires short { AreShort half_steps.now }
    requires scale { (1 ≤ scale) × (scale ≤ 512) }
    ensures low { result ≤ sum_to (64 - skip) (λ i. passed 10 (size_at scale (slice_index half_steps.now (at + skip + i)))) }
    ensures small { result ≤ 640 }
{
    let mut bits = 0;
    for l in 0..10usize {
        let marks = marks_from(half_steps, at, skip, threshold(GROWN[l], scale));
        if marks == 0 {
            return bits;
        }
        bits += marks.count_ones();
    }
    bits
}

/// The bits that the runs before marked levels have more than one.
#[inline(always)]
fn gap_bits(marks: u64, before: u64) -> u32
    ensures low { (n run : ℕ) (sizes : List ℕ) → n ≤ 64 → n ≤ length sizes → Carries before run → AreSome sizes n marks
        → result ≤ sum_to n (λ i. gap 1 (slice_index sizes i) (run_at i run sizes)) + sum_to n (λ i. gap 2 (slice_index sizes i) (run_at i run sizes))
        + sum_to n (λ i. gap 3 (slice_index sizes i) (run_at i run sizes)) + sum_to n (λ i. gap 6 (slice_index sizes i) (run_at i run sizes))
        + sum_to n (λ i. gap 8 (slice_index sizes i) (run_at i run sizes)) + sum_to n (λ i. gap 16 (slice_index sizes i) (run_at i run sizes)) }
    ensures small { result ≤ 384 }
{
    let one = nearer(0, 1, marks, before);
    let two = nearer(one, 2, marks, before);
    let three = nearer(two, 3, marks, before);
    let four = nearer(three, 4, marks, before);
    let five = nearer(four, 5, marks, before);
    let six = nearer(five, 6, marks, before);
    let seven = nearer(six, 7, marks, before);
    let eight = nearer(seven, 8, marks, before);
    let sixteen = farther(eight);
    gaps(marks, one)
        + gaps(marks, two)
        + gaps(marks, three)
        + gaps(marks, six)
        + gaps(marks, eight)
        + gaps(marks, sixteen)
}

/// How many marks have none so near before them.
#[inline(always)]
fn gaps(marks: u64, near: u64) -> u32
    ensures low { (before r n run : ℕ) (sizes : List ℕ) → r ≤ 16 → n ≤ 64 → n ≤ length sizes → AreNear marks before r near
        → Carries before run → AreSome sizes n marks → result ≤ sum_to n (λ i. gap r (slice_index sizes i) (run_at i run sizes)) }
    ensures small { result ≤ 64 }
{
    (marks & !near).count_ones()
}

/// The places that have a mark one place farther before them, or one that was near already.
#[inline(always)]
fn nearer(near: u64, j: u32, marks: u64, before: u64) -> u64
    requires { (1 ≤ j) × (j ≤ 8) }
    ensures { AreNear marks before (j - 1) near → AreNear marks before j result }
{
    near | back(j, marks, before)
}

/// The places that have a mark at most 16 places before them, of those that have one at most 8 before them. The first 8
/// places are among them, since the marks of the entries before aren't looked at.
#[inline(always)]
fn farther(near: u64) -> u64
    ensures { (marks before : ℕ) → AreNear marks before 8 near → AreNear marks before 16 result }
{
    let clear = !near;
    !(clear & (clear << 8))
}

/// The places that have a mark so many places before them.
#[inline(always)]
fn back(j: u32, marks: u64, before: u64) -> u64
    requires { (1 ≤ j) × (j ≤ 8) }
    ensures { IsBack marks before j result }
{
    marks << j | before >> (64 - j)
}

#[cfg(test)]
mod tests {
    use super::*;

    /// Half steps of zero.
    fn none() -> [u16; 128]
        ensures long { length result ≡ 128 }
        ensures short { AreShort result }
    {
        [0; 128]
    }

    #[tactic(auto, using(crate::proofs::ShortLemmas::short_set))]
    fn put(half_steps: &mut [u16; 128], at: usize, value: u16)
        requires short { AreShort half_steps.old }
        requires value { value < 2 ^ 15 }
        ensures short { AreShort half_steps.new }
    {
        half_steps[at % 128] = value;
    }

    #[test]
    fn runs_sizes_and_changes_count_the_fewest_bits(rt: HostRuntime) {
        // entries, half steps, bits at scale 1: docs/formats/frames.md, "Rate rule", by hand
        let rows: [([usize; 2], [u16; 2], u32); 6] = [
            ([2, 2], [1, 1], 6),
            ([2, 3], [2, 1], 9),
            ([2, 3], [2, 3], 12),
            ([9, 9], [10, 10], 15),
            ([60, 70], [2, 2], 23),
            ([1, 1], [6, 6], 7),
        ];
        for (at, values, want) in rows {
            let mut half_steps = none();
            put(&mut half_steps, at[0], values[0] % 32768);
            put(&mut half_steps, at[1], values[1] % 32768);
            let least = least_bits(&half_steps, 2, Reciprocal::new(2));
            assert_eq!(rt; least.bits, want, "{} at {}", values[0], at[0]);
        }
    }
}
