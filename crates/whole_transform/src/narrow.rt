//! Eight values and the eight basis numbers in 32 bits, by even and odd halves: 22 products for eight sums. What is
//! multiplied has 16 bits wherever the code shows it, since a product of 16 bits by 16 costs half of one of 32.

ghost use Rattle.std.specs.Prelude.{◌≡◌, ◌≤◌, ◌<◌, ◌+◌, ◌-◌, ◌*◌, ◌^◌, ℕ, ℤ, pos, ◌+ℤ◌, ◌-ℤ◌, ◌*ℤ◌};
ghost use Rattle.std.specs.Int.RustNames.{unsigned_abs};
ghost use Rattle.whole_transform.specs.inner.Passes.{even_of, forward_of, inverse_of, odd_of};
ghost use Rattle.whole_transform.specs.Sums.{at, sum_to};
ghost use Rattle.whole_transform.specs.Transform.{basis};

use crate::basis::{C1, C2, C3, C4, C5, C6, C7};

/// The sums of eight values with each basis number.
#[inline(always)]
pub fn forward_eight(x: [i16; 8]) -> [i32; 8]
    requires { (k : ℕ) → k < 8 → unsigned_abs (at x k) ≤ 2 ^ 12 }
    ensures { (k : ℕ) → k < 8 → at result k ≡ forward_of (at x) k }
{
    let (sums, differences) = mirrored(x);
    let [zeroth, second, fourth, sixth] = even_half(sums);
    let [first, third, fifth, seventh] = odd_half(widened(differences));
    [zeroth, first, second, third, fourth, fifth, sixth, seventh]
}

/// The sums of the eight basis numbers at each place with eight values.
#[inline(always)]
pub fn inverse_eight(x: [i32; 8]) -> [i32; 8]
    requires { (k : ℕ) → k < 8 → unsigned_abs (at x k) ≤ 2 ^ 15 }
    ensures { (j : ℕ) → j < 8 → at result j ≡ inverse_of (at x) j }
{
    unmirrored(even_part(0, x), odd_part(x))
}

/// The even part of these sums at the first four places, each begun with a number: two additions, where the eight sums
/// would take eight.
#[inline(always)]
pub fn even_part(start: i32, x: [i32; 8]) -> [i32; 4]
    requires start { unsigned_abs start ≤ 2 ^ 23 + 2 ^ 13 }
    requires values { (k : ℕ) → k < 8 → unsigned_abs (at x k) ≤ 2 ^ 15 }
    ensures sums { (j : ℕ) → j < 4 → at result j ≡ even_of start (at x) j }
    ensures small { (j : ℕ) → j < 4 → unsigned_abs (at result j) ≤ 4 * (8035 * 2 ^ 15) + (2 ^ 24 + 2 ^ 14) }
{
    let [zeroth, _, second, _, fourth, _, sixth, _] = x;
    inverse_even(start, [zeroth, second, fourth, sixth])
}

/// The odd part at the first four places.
#[inline(always)]
pub fn odd_part(x: [i32; 8]) -> [i32; 4]
    requires { (k : ℕ) → k < 8 → unsigned_abs (at x k) ≤ 2 ^ 15 }
    ensures sums { (j : ℕ) → j < 4 → at result j ≡ odd_of (at x) j }
    ensures small { (j : ℕ) → j < 4 → unsigned_abs (at result j) ≤ 4 * (8035 * 2 ^ 15) }
{
    let [_, first, _, third, _, fifth, _, seventh] = x;
    odd_half([first, third, fifth, seventh])
}

/// The sums of the first and the last value, then of the second and the last but one, and the differences likewise.
#[inline(always)]
fn mirrored(x: [i16; 8]) -> ([i16; 4], [i16; 4])
    requires { (k : ℕ) → k < 8 → unsigned_abs (at x k) ≤ 2 ^ 12 }
    ensures sums { (k : ℕ) → k < 4 → at result.0 k ≡ at x k +ℤ at x (7 - k) }
    ensures differences { (k : ℕ) → k < 4 → at result.1 k ≡ at x k -ℤ at x (7 - k) }
{
    let [a, b, c, d, e, f, g, h] = x;
    ([a + h, b + g, c + f, d + e], [a - h, b - g, c - f, d - e])
}

/// Four sums, then four differences from the last to the first.
#[inline(always)]
fn unmirrored(even: [i32; 4], odd: [i32; 4]) -> [i32; 8]
    requires even { (k : ℕ) → k < 4 → unsigned_abs (at even k) ≤ 4 * (8035 * 2 ^ 15) + (2 ^ 24 + 2 ^ 14) }
    requires odd { (k : ℕ) → k < 4 → unsigned_abs (at odd k) ≤ 4 * (8035 * 2 ^ 15) }
    ensures first { (k : ℕ) → k < 4 → at result k ≡ at even k +ℤ at odd k }
    ensures last { (k : ℕ) → k < 4 → at result (7 - k) ≡ at even k -ℤ at odd k }
{
    let [a, b, c, d] = even;
    let [e, f, g, h] = odd;
    [a + e, b + f, c + g, d + h, d - h, c - g, b - f, a - e]
}

/// The even basis numbers at the first four places with four values.
#[inline(always)]
fn even_half(x: [i16; 4]) -> [i32; 4]
    requires { (k : ℕ) → k < 4 → unsigned_abs (at x k) ≤ 2 ^ 13 }
    ensures sums { (k : ℕ) → k < 4 → at result k ≡ sum_to 4 (λ j. basis (2 * k) j *ℤ at x j) }
    ensures small { (k : ℕ) → k < 4 → unsigned_abs (at result k) ≤ 2 * (8035 * 2 ^ 15) }
{
    even_products(widened(folded(x)))
}

/// The same by columns: the basis numbers at each of the four places with the four values of the even ones, each sum
/// begun with a number.
#[inline(always)]
fn inverse_even(start: i32, x: [i32; 4]) -> [i32; 4]
    requires start { unsigned_abs start ≤ 2 ^ 23 + 2 ^ 13 }
    requires values { (k : ℕ) → k < 4 → unsigned_abs (at x k) ≤ 2 ^ 15 }
    ensures sums { (j : ℕ) → j < 4 → at result j ≡ start +ℤ sum_to 4 (λ k. basis (2 * k) j *ℤ at x k) }
    ensures small { (j : ℕ) → j < 4 → unsigned_abs (at result j) ≤ 4 * (8035 * 2 ^ 15) + (2 ^ 24 + 2 ^ 14) }
{
    let [zeroth, second, fourth, sixth] = x;
    crossed(with_start(start, even_products([zeroth, fourth, second, sixth])))
}

/// Two sums of mirrored values, then their differences.
#[inline(always)]
fn folded(x: [i16; 4]) -> [i16; 4]
    requires { (k : ℕ) → k < 4 → unsigned_abs (at x k) ≤ 2 ^ 13 }
    ensures sums { (k : ℕ) → k < 2 → at result k ≡ at x k +ℤ at x (3 - k) }
    ensures differences { (k : ℕ) → k < 2 → at result (2 + k) ≡ at x k -ℤ at x (3 - k) }
{
    let [a, b, c, d] = x;
    [a + d, b + c, a - d, b - c]
}

/// Four numbers of 16 bits in 32. The compiler then multiplies 16 bits by 16.
#[inline(always)]
fn widened(x: [i16; 4]) -> [i32; 4]
    ensures same { (k : ℕ) → k < 4 → at result k ≡ at x k }
    ensures small { (k : ℕ) → k < 4 → unsigned_abs (at result k) ≤ 2 ^ 15 }
{
    let [a, b, c, d] = x;
    [i32::from(a), i32::from(b), i32::from(c), i32::from(d)]
}

/// The products of the even basis numbers at the first two places.
#[inline(always)]
pub fn even_products(x: [i32; 4]) -> [i32; 4]
    requires { (k : ℕ) → k < 4 → unsigned_abs (at x k) ≤ 2 ^ 15 }
    ensures fourth { (k : ℕ) → k < 2 → at result (2 * k) ≡ basis (4 * k) 0 *ℤ at x 0 +ℤ basis (4 * k) 1 *ℤ at x 1 }
    ensures second { (k : ℕ) → k < 2 →
        at result (2 * k + 1) ≡ basis (4 * k + 2) 0 *ℤ at x 2 +ℤ basis (4 * k + 2) 1 *ℤ at x 3 }
    ensures small { (k : ℕ) → k < 4 → unsigned_abs (at result k) ≤ 2 * (8035 * 2 ^ 15) }
{
    let [a, b, c, d] = x;
    let (sum, difference) = middle_products(a, b);
    [
        sum,
        two_products(C2, c, C6, d),
        difference,
        two_products(C6, c, -C2, d),
    ]
}

/// The products of the basis number that is the same at each place but for its sign. Each value is multiplied alone,
/// since its product is one of 16 bits by 16, and that of a sum may not be.
#[inline(always)]
fn middle_products(a: i32, b: i32) -> (i32, i32)
    requires first { unsigned_abs a ≤ 2 ^ 15 }
    requires second { unsigned_abs b ≤ 2 ^ 15 }
    ensures sum { result.0 ≡ (pos 5793 *ℤ a) +ℤ (pos 5793 *ℤ b) }
    ensures difference { result.1 ≡ (pos 5793 *ℤ a) -ℤ (pos 5793 *ℤ b) }
    ensures small { (unsigned_abs result.0 ≤ 2 * (8035 * 2 ^ 15)) × (unsigned_abs result.1 ≤ 2 * (8035 * 2 ^ 15)) }
{
    let (p, q) = (C4 * a, C4 * b);
    (p + q, p - q)
}

/// The four numbers of the even half, the first and the third begun with a number. Each sum of the even half has one
/// of these two.
#[inline(always)]
fn with_start(start: i32, x: [i32; 4]) -> [i32; 4]
    requires start { unsigned_abs start ≤ 2 ^ 23 + 2 ^ 13 }
    requires products { (k : ℕ) → k < 4 → unsigned_abs (at x k) ≤ 2 * (8035 * 2 ^ 15) }
    ensures begun { (k : ℕ) → k < 2 → at result (2 * k) ≡ start +ℤ at x (2 * k) }
    ensures same { (k : ℕ) → k < 2 → at result (2 * k + 1) ≡ at x (2 * k + 1) }
    ensures small { (k : ℕ) → k < 4 → unsigned_abs (at result k) ≤ 2 * (8035 * 2 ^ 15) + (2 ^ 23 + 2 ^ 13) }
{
    let [a, b, c, d] = x;
    [start + a, b, start + c, d]
}

/// The sums and differences of the products of the even half.
#[inline(always)]
fn crossed(x: [i32; 4]) -> [i32; 4]
    requires { (k : ℕ) → k < 4 → unsigned_abs (at x k) ≤ 2 * (8035 * 2 ^ 15) + (2 ^ 23 + 2 ^ 13) }
    ensures outer { (at result 0 ≡ at x 0 +ℤ at x 1) × (at result 3 ≡ at x 0 -ℤ at x 1) }
    ensures inner { (at result 1 ≡ at x 2 +ℤ at x 3) × (at result 2 ≡ at x 2 -ℤ at x 3) }
    ensures small { (k : ℕ) → k < 4 → unsigned_abs (at result k) ≤ 4 * (8035 * 2 ^ 15) + (2 ^ 24 + 2 ^ 14) }
{
    let [a, b, c, d] = x;
    [a + b, c + d, c - d, a - b]
}

/// The odd basis numbers at the first four places with four values. They are the same by rows and by columns.
#[inline(always)]
pub fn odd_half(x: [i32; 4]) -> [i32; 4]
    requires { (k : ℕ) → k < 4 → unsigned_abs (at x k) ≤ 2 ^ 15 }
    ensures sums { (k : ℕ) → k < 4 → at result k ≡ sum_to 4 (λ j. basis (2 * k + 1) j *ℤ at x j) }
    ensures small { (k : ℕ) → k < 4 → unsigned_abs (at result k) ≤ 4 * (8035 * 2 ^ 15) }
{
    let [a, b, c, d] = x;
    [
        four_products(C1, a, C3, b, C5, c, C7, d),
        four_products(C3, a, -C7, b, -C1, c, -C5, d),
        four_products(C5, a, -C1, b, C7, c, C3, d),
        four_products(C7, a, -C5, b, C3, c, -C1, d),
    ]
}

/// The sum of four products.
#[inline(always)]
fn four_products(p: i32, a: i32, q: i32, b: i32, r: i32, c: i32, s: i32, d: i32) -> i32
    requires first { (unsigned_abs p ≤ 8035) × (unsigned_abs a ≤ 2 ^ 15) }
    requires second { (unsigned_abs q ≤ 8035) × (unsigned_abs b ≤ 2 ^ 15) }
    requires third { (unsigned_abs r ≤ 8035) × (unsigned_abs c ≤ 2 ^ 15) }
    requires fourth { (unsigned_abs s ≤ 8035) × (unsigned_abs d ≤ 2 ^ 15) }
    ensures value { result ≡ ((p *ℤ a) +ℤ (q *ℤ b)) +ℤ ((r *ℤ c) +ℤ (s *ℤ d)) }
    ensures small { unsigned_abs result ≤ 4 * (8035 * 2 ^ 15) }
{
    two_products(p, a, q, b) + two_products(r, c, s, d)
}

/// The sum of two products.
#[inline(always)]
fn two_products(p: i32, a: i32, q: i32, b: i32) -> i32
    requires first { (unsigned_abs p ≤ 8035) × (unsigned_abs a ≤ 2 ^ 15) }
    requires second { (unsigned_abs q ≤ 8035) × (unsigned_abs b ≤ 2 ^ 15) }
    ensures value { result ≡ (p *ℤ a) +ℤ (q *ℤ b) }
    ensures small { unsigned_abs result ≤ 2 * (8035 * 2 ^ 15) }
{
    p * a + q * b
}
