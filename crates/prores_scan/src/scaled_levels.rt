//! The levels of coefficients at any scale, from their half steps.

ghost use Rattle.std.specs.Prelude.{◌≡◌, ◌≤◌, ◌<◌, ◌^◌, ◌+◌, ◌-◌, ◌*◌, ◌/◌, ◌%◌, ◌-ℤ◌, ℕ, length};
ghost use Rattle.std.specs.Int.RustNames.{unsigned_abs};
ghost use Rattle.prores_scan.specs.HalfSteps.{AreShort, AreAtMost};
ghost use Rattle.prores_scan.specs.ScaledLevels.{signed_of, AreLevels, AreApart};

use crate::reciprocals::Reciprocal;

/// The number that a size with its sign as the last bit means: 2n is n, and 2n + 1 is -n.
pub fn signed(number: u16) -> i16
    ensures { result ≡ signed_of number }
{
    let size = (number / 2) as i16;
    if number % 2 == 0 { size } else { -size }
}

/// The levels at a scale, each a size with its sign as the last bit, of coefficients whose half
/// steps are given, where `double` divides by twice the scale. 1 stands for 0 as well.
pub fn levels_at(half_steps: &[u16], double: Reciprocal, out: &mut [u16])
    requires half_steps { AreShort half_steps.now }
    requires room { length out.old ≡ length half_steps.now }
    ensures levels { (scale : ℕ) → double.divisor ≡ 2 * scale → AreLevels half_steps.now scale out.new }
    ensures small { AreAtMost (2 ^ 14 + 1) out.new }
{
    let scale = double.divisor / 2;
    for k in 0..half_steps.len() {
        out[k] = level_at(half_steps[k], scale, double);
    }
}

/// The size is (n + scale) / (2 * scale), where n is the half steps' size.
#[inline(always)]
fn level_at(half_steps: u16, scale: u16, double: Reciprocal) -> u16
    requires half_steps { half_steps < 2 ^ 15 }
    requires scale { scale ≡ double.divisor / 2 }
    ensures level { result ≡ 2 * ((half_steps / 2 + scale) / double.divisor) + half_steps % 2 }
    ensures small { result ≤ 2 ^ 14 + 1 }
{
    2 * double.quotient(half_steps / 2 + scale) + half_steps % 2
}

/// A number that the levels of two coefficients with these half steps differ by at least, where
/// `double` divides by twice the scale.
#[inline(always)]
pub fn change_bound(from: u16, to: u16, double: Reciprocal) -> u16
    requires from { from < 2 ^ 15 }
    requires to { to < 2 ^ 15 }
    ensures bound { result ≡ (unsigned_abs (signed_of to -ℤ signed_of from) - 1) / double.divisor }
    ensures apart { (scale : ℕ) → double.divisor ≡ 2 * scale → AreApart from to scale result }
{
    let change = change(from, to);
    if change == 0 {
        0
    } else {
        double.quotient(change - 1)
    }
}

#[inline(always)]
fn change(from: u16, to: u16) -> u16
    requires from { from < 2 ^ 15 }
    requires to { to < 2 ^ 15 }
    ensures change { result ≡ unsigned_abs (signed_of to -ℤ signed_of from) }
    ensures small { result < 2 ^ 15 }
{
    (signed(to) - signed(from)).unsigned_abs()
}

#[cfg(test)]
mod tests {
    use super::*;
    use crate::half_steps::half_steps_from;

    #[test]
    fn ties_go_away_from_zero_in_lanes(rt: HostRuntime) {
        // 5793 half steps of weight 4 below 0, whose level at scale 1 is a tie
        let tie = half_steps_from(23_172, 1, Reciprocal::new(4));
        assert_eq!(rt; tie, 2 * 5793 + 1);
        // 5792 over 2
        assert_eq!(rt; change_bound(0, tie, Reciprocal::new(2)), 2896);
        // scale, level: 5793 over twice the scale, by long division
        let rows = [(1, -2897), (2, -1448), (3, -966), (512, -6)];
        for (scale, want) in rows {
            let mut levels = [7u16; 2];
            levels_at(&[0, tie], Reciprocal::new(2 * scale), &mut levels);
            assert_eq!(rt; signed(levels[1]), want, "at {scale}");
            assert_eq!(rt; signed(levels[0]), 0);
        }
    }
}
