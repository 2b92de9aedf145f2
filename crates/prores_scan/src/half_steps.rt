//! The half steps of coefficients: their sizes in 2^25 times the weight, with their signs.

ghost use Rattle.std.specs.Prelude.{◌≡◌, ◌≤◌, ◌<◌, ◌+◌, ◌^◌, ◌⊎◌, ℕ, ℤ, length, slice_index};
ghost use Rattle.prores_scan.specs.HalfSteps.{half_steps_of, IsSized, AreShort, AreAtMost};

use crate::reciprocals::Reciprocal;

/// The half steps of a coefficient of which only the size in whole 2^25 and the sign are known, where `negative` is 1
/// below 0 and else 0. A loop over coefficients of one weight compiles to eight at a time.
#[inline(always)]
pub fn half_steps_from(size: u16, negative: u16, weight: Reciprocal) -> u16
    requires size { size ≤ 32800 }
    requires negative { negative ≤ 1 }
    requires weight { 4 ≤ weight.divisor }
    ensures half_steps { (g : ℤ) → IsSized g size negative → result ≡ half_steps_of g weight.divisor }
    ensures short { result < 2 ^ 15 }
{
    2 * weight.quotient(size) + negative
}

/// The half steps of eight neighbouring coefficients of one weight, whose sizes and signs stand from `from` on, as
/// `half_steps_from` takes each, into `out` from `to` on. All are read before the first is written, and so this compiles
/// to lanes without a test whether the slices overlap.
#[inline(always)]
pub fn eight_half_steps(
    sizes: &[u16],
    negative: &[u16],
    from: usize,
    weight: Reciprocal,
    out: &mut [u16],
    to: usize,
)
    requires places { (from + 8 ≤ length sizes.now) × (from + 8 ≤ length negative.now) × (to + 8 ≤ length out.old) }
    requires sizes { AreAtMost 32800 sizes.now }
    requires negative { AreAtMost 1 negative.now }
    requires weight { 4 ≤ weight.divisor }
    ensures half_steps { (b : ℕ) → b < 8 → (g : ℤ) → IsSized g (slice_index sizes.now (from + b)) (slice_index negative.now (from + b))
        → slice_index out.new (to + b) ≡ half_steps_of g weight.divisor }
    ensures kept { (k : ℕ) → (k < to) ⊎ (to + 8 ≤ k) → slice_index out.new k ≡ slice_index out.old k }
    ensures short { AreShort out.old → AreShort out.new }
{
    put_eight(out, to, eight_from(sizes, negative, from, weight));
}

#[inline(always)]
fn eight_from(sizes: &[u16], negative: &[u16], from: usize, weight: Reciprocal) -> [u16; 8]
    requires places { (from + 8 ≤ length sizes.now) × (from + 8 ≤ length negative.now) }
    requires sizes { AreAtMost 32800 sizes.now }
    requires negative { AreAtMost 1 negative.now }
    requires weight { 4 ≤ weight.divisor }
    ensures half_steps { (b : ℕ) → b < 8 → (g : ℤ) → IsSized g (slice_index sizes.now (from + b)) (slice_index negative.now (from + b))
        → slice_index result b ≡ half_steps_of g weight.divisor }
    ensures short { AreShort result }
{
    [
        half_steps_from(sizes[from], negative[from], weight),
        half_steps_from(sizes[from + 1], negative[from + 1], weight),
        half_steps_from(sizes[from + 2], negative[from + 2], weight),
        half_steps_from(sizes[from + 3], negative[from + 3], weight),
        half_steps_from(sizes[from + 4], negative[from + 4], weight),
        half_steps_from(sizes[from + 5], negative[from + 5], weight),
        half_steps_from(sizes[from + 6], negative[from + 6], weight),
        half_steps_from(sizes[from + 7], negative[from + 7], weight),
    ]
}

#[inline(always)]
fn put_eight(out: &mut [u16], to: usize, values: [u16; 8])
    requires { to + 8 ≤ length out.old }
    ensures placed { (b : ℕ) → b < 8 → slice_index out.new (to + b) ≡ slice_index values b }
    ensures kept { (k : ℕ) → (k < to) ⊎ (to + 8 ≤ k) → slice_index out.new k ≡ slice_index out.old k }
{
    for b in 0..8 {
        out[to + b] = values[b];
    }
}

#[cfg(test)]
mod tests {
    use super::*;
    use crate::divisors::weight_reciprocals;
    use crate::weights_and_scales::weights;

    #[test]
    fn eight_coefficients_have_their_own_half_steps(rt: HostRuntime) {
        // 2 * (size / 9), and 1 more below 0: by long division; 9 is the weight of the sixth column
        let sizes = [5u16, 0, 0, 8, 9, 17, 18, 32_771, 32_772];
        let negative = [1u16, 0, 1, 0, 1, 0, 1, 0, 1];
        let weight = weight_reciprocals(&weights(1, true))[5];
        let mut out = [7u16; 11];
        eight_half_steps(&sizes, &negative, 1, weight, &mut out, 2);
        assert_eq!(rt; out, [7, 7, 0, 1, 0, 3, 2, 5, 7282, 7283, 7]);
    }
}
