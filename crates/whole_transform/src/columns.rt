//! Eight values of 32 bits and the eight basis numbers. Each sum comes in two, of the upper and of the lower halves of the
//! values: together they would need 42 bits.

ghost use Rattle.std.specs.Prelude.{◌≡◌, ◌≤◌, ◌<◌, ◌+◌, ◌-◌, ◌*◌, ◌^◌, ℕ, ℤ, pos, ◌+ℤ◌, ◌-ℤ◌, ◌*ℤ◌};
ghost use Rattle.std.specs.Int.RustNames.{unsigned_abs};
ghost use Rattle.whole_transform.specs.inner.Passes.{forward_of};
ghost use Rattle.whole_transform.specs.Sums.{at};

use crate::narrow::{even_products, odd_half};
use crate::shifts::halves;

/// The sums of eight values with the even basis numbers.
#[inline(always)]
pub fn even_sums(x: [i32; 8]) -> ([i32; 4], [i32; 4])
    requires { (k : ℕ) → k < 8 → unsigned_abs (at x k) ≤ 512 * 46344 }
    ensures sums { (k : ℕ) → k < 4 → pos 65536 *ℤ at result.0 k +ℤ at result.1 k ≡ forward_of (at x) (2 * k) }
    ensures high { (k : ℕ) → k < 4 → unsigned_abs (at result.0 k) < 2 ^ 30 }
    ensures low { (k : ℕ) → k < 4 → unsigned_abs (at result.1 k) < 2 ^ 30 }
{
    let (high, low) = split(folded(mirrored_sums(x)));
    (even_products(high), even_products(low))
}

/// The sums of eight values with the odd basis numbers.
#[inline(always)]
pub fn odd_sums(x: [i32; 8]) -> ([i32; 4], [i32; 4])
    requires { (k : ℕ) → k < 8 → unsigned_abs (at x k) ≤ 512 * 46344 }
    ensures sums { (k : ℕ) → k < 4 → pos 65536 *ℤ at result.0 k +ℤ at result.1 k ≡ forward_of (at x) (2 * k + 1) }
    ensures high { (k : ℕ) → k < 4 → unsigned_abs (at result.0 k) < 2 ^ 30 }
    ensures low { (k : ℕ) → k < 4 → unsigned_abs (at result.1 k) < 2 ^ 30 }
{
    let (high, low) = split(mirrored_differences(x));
    (odd_half(high), odd_half(low))
}

/// The sums of the first and the last value, then of the second and the last but one, and so on.
#[inline(always)]
fn mirrored_sums(x: [i32; 8]) -> [i32; 4]
    requires { (k : ℕ) → k < 8 → unsigned_abs (at x k) ≤ 512 * 46344 }
    ensures sums { (k : ℕ) → k < 4 → at result k ≡ at x k +ℤ at x (7 - k) }
    ensures small { (k : ℕ) → k < 4 → unsigned_abs (at result k) ≤ 2 * (512 * 46344) }
{
    let [a, b, c, d, e, f, g, h] = x;
    [a + h, b + g, c + f, d + e]
}

/// Their differences.
#[inline(always)]
fn mirrored_differences(x: [i32; 8]) -> [i32; 4]
    requires { (k : ℕ) → k < 8 → unsigned_abs (at x k) ≤ 512 * 46344 }
    ensures differences { (k : ℕ) → k < 4 → at result k ≡ at x k -ℤ at x (7 - k) }
    ensures small { (k : ℕ) → k < 4 → unsigned_abs (at result k) ≤ 2 * (512 * 46344) }
{
    let [a, b, c, d, e, f, g, h] = x;
    [a - h, b - g, c - f, d - e]
}

/// Two sums of mirrored values, then their differences.
#[inline(always)]
fn folded(x: [i32; 4]) -> [i32; 4]
    requires { (k : ℕ) → k < 4 → unsigned_abs (at x k) ≤ 2 * (512 * 46344) }
    ensures sums { (k : ℕ) → k < 2 → at result k ≡ at x k +ℤ at x (3 - k) }
    ensures differences { (k : ℕ) → k < 2 → at result (2 + k) ≡ at x k -ℤ at x (3 - k) }
    ensures small { (k : ℕ) → k < 4 → unsigned_abs (at result k) ≤ 4 * (512 * 46344) }
{
    let [a, b, c, d] = x;
    [a + d, b + c, a - d, b - c]
}

/// The upper and the lower halves of four values.
#[inline(always)]
fn split(x: [i32; 4]) -> ([i32; 4], [i32; 4])
    requires { (k : ℕ) → k < 4 → unsigned_abs (at x k) ≤ 4 * (512 * 46344) }
    ensures whole { (k : ℕ) → k < 4 → at x k ≡ pos 65536 *ℤ at result.0 k +ℤ at result.1 k }
    ensures high { (k : ℕ) → k < 4 → unsigned_abs (at result.0 k) ≤ 21643 }
    ensures low { (k : ℕ) → k < 4 → unsigned_abs (at result.1 k) ≤ 2 ^ 15 }
{
    let [a, b, c, d] = x;
    let (a, e) = halves(a);
    let (b, f) = halves(b);
    let (c, g) = halves(c);
    let (d, h) = halves(d);
    ([a, b, c, d], [e, f, g, h])
}
