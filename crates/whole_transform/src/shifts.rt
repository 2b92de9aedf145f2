//! Sums over a power of two, and numbers in two halves of 16 bits.

ghost use Rattle.std.specs.Prelude.{◌≡◌, ◌≤◌, ◌<◌, ◌+◌, ◌*◌, ◌^◌, ℕ, pos, ◌+ℤ◌, ◌*ℤ◌};
ghost use Rattle.std.specs.Int.RustNames.{unsigned_abs};
ghost use Rattle.whole_transform.specs.Transform.{floored};

/// A sum over a power of two, rounded down.
#[inline(always)]
pub fn shifted_sum(a: i32, b: i32, bits: u32) -> i32
    requires sum { unsigned_abs a + unsigned_abs b < 2 ^ 31 }
    requires bits { bits < 32 }
    ensures { result ≡ floored (a +ℤ b) (2 ^ bits) }
{
    (a + b) >> bits
}

/// One value in two, both of 16 bits. The shift shows this of the upper half, the cast of the lower.
#[inline(always)]
pub fn halves(value: i32) -> (i32, i32)
    requires { unsigned_abs value ≤ 2 ^ 15 * 43284 }
    ensures whole { value ≡ pos 65536 *ℤ result.0 +ℤ result.1 }
    ensures high { unsigned_abs result.0 ≤ 21643 }
    ensures low { unsigned_abs result.1 ≤ 2 ^ 15 }
{
    let high = shifted_sum(value, 32768, 16);
    (high, i32::from((value - 65536 * high) as i16))
}
