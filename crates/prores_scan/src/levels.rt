//! The level of a coefficient.

ghost use Rattle.std.specs.Prelude.{◌≡◌, ◌≤◌, ◌<◌, ◌^◌, ◌*◌, ◌/◌};
ghost use Rattle.std.specs.Int.RustNames.{unsigned_abs};
ghost use Rattle.prores_scan.specs.Levels.{step_of, nearest_quotient, with_sign_of, level_of, IsNearest};

/// The level of the coefficient `g`: `g / (2^26 * weight * scale)`, rounded to the nearest whole
/// number, halves away from zero (our own).
pub fn quantise(g: i64, weight: u8, scale: u16) -> i32
    requires g { unsigned_abs g < 2 ^ 41 }
    requires weight { (2 ≤ weight) × (weight ≤ 63) }
    requires scale { 1 ≤ scale }
    ensures level { result ≡ level_of g weight scale }
    ensures nearest { IsNearest g (step_of weight scale) result }
{
    with_sign(g, quotient(g.unsigned_abs(), step(weight, scale)))
}

fn step(weight: u8, scale: u16) -> u64
    ensures step { result ≡ step_of weight scale }
    ensures small { result < 2 ^ 50 }
{
    (u64::from(weight) * u64::from(scale)) << 26
}

fn quotient(size: u64, step: u64) -> u32
    requires size { size < 2 ^ 41 }
    requires least { 2 ^ 27 ≤ step }
    requires most { step < 2 ^ 50 }
    ensures quotient { result ≡ nearest_quotient size step }
    ensures small { result < 2 ^ 31 }
{
    ((size + step / 2) / step) as u32
}

fn with_sign(g: i64, size: u32) -> i32
    requires { size < 2 ^ 31 }
    ensures { result ≡ with_sign_of g size }
{
    let size = size as i32;
    if g < 0 { -size } else { size }
}

#[cfg(test)]
mod tests {
    use super::*;

    // 64 * 5793^2, by which a flat block's first coefficient is its samples' distance from 512.
    const FLAT: i64 = 2_147_766_336;

    #[test]
    fn halves_go_away_from_zero(rt: HostRuntime) {
        // coefficient, weight, scale, level: by long division
        let rows = [
            (1 << 27, 4, 1, 1),
            (-(1 << 27), 4, 1, -1),
            ((1 << 27) - 1, 4, 1, 0),
            (1 - (1 << 27), 4, 1, 0),
            (-777_523_298_304, 4, 1, -2897),
            (-508 * FLAT, 4, 1, -4065),
            (507 * FLAT, 4, 1, 4057),
            (3 << 26, 2, 1, 2),
        ];
        for (g, weight, scale, want) in rows {
            assert_eq!(rt; quantise(g, weight, scale), want, "at {g}");
        }
    }
}
