//! The half steps from which on a level has a size or more.

ghost use Rattle.std.specs.Prelude.{◌≤◌, ◌+◌, length};
ghost use Rattle.prores_scan.specs.Thresholds.{IsThreshold, AreReached};

use std::simd::prelude::*;

/// The least half steps at which a level has this size, or 65,535 where no half steps give it.
pub fn threshold(size: u16, scale: u16) -> u16
    requires size { 1 ≤ size }
    requires scale { (1 ≤ scale) × (scale ≤ 512) }
    ensures { IsThreshold size scale result }
{
    let least = (2 * u32::from(size) - 1) * (2 * u32::from(scale));
    least.min(65_535) as u16
}

/// Which of the 64 half steps from a place on are at a threshold or above it: a bit each, the lowest for the first.
#[inline(always)]
pub fn reached(half_steps: &[u16], at: usize, threshold: u16) -> u64
    requires { at + 64 ≤ length half_steps.now }
    ensures { AreReached half_steps.now at threshold result }
{
    let entries = u16x64::from_slice(&half_steps[at..]);
    entries.simd_ge(u16x64::splat(threshold)).to_bitmask()
}

#[cfg(test)]
mod tests {
    use super::*;

    #[test]
    fn the_entries_at_a_threshold_are_marked(rt: HostRuntime) {
        // size, scale, half steps: (2 * size - 1) times twice the scale
        let rows = [
            (1, 1, 2),
            (2, 3, 18),
            (8192, 1, 32_766),
            (32, 512, 64_512),
            (33, 512, u16::MAX),
            (u16::MAX, 512, u16::MAX),
        ];
        for (size, scale, want) in rows {
            assert_eq!(rt; threshold(size, scale), want, "of {size} at {scale}");
        }
        let mut half_steps = [17u16; 66];
        half_steps[0] = 18;
        half_steps[1] = 18;
        half_steps[3] = 18;
        half_steps[64] = 32_767;
        half_steps[65] = 19;
        assert_eq!(rt; reached(&half_steps, 1, 18), (1 << 63) + 5);
        assert_eq!(rt; reached(&half_steps, 2, 18), (3 << 62) + 2);
    }
}
