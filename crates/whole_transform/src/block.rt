//! One block, each sum by eight products: the definition's face, and the way of products that don't fit 16 bits.

ghost use Rattle.std.specs.Prelude.{◌≡◌, ◌≤◌, ◌<◌, ◌+◌, ◌*◌, ◌^◌, ℕ, pos, ◌+ℤ◌, ◌-ℤ◌, ◌*ℤ◌, slice_index};
ghost use Rattle.std.specs.Int.RustNames.{unsigned_abs};
ghost use Rattle.whole_transform.specs.inner.Passes.{forward_of, inverse_of, AreUpTo};
ghost use Rattle.whole_transform.specs.Sums.{at};
ghost use Rattle.whole_transform.specs.Transform.{IsForward, IsInverse, cell};

use crate::basis::basis_number;
use crate::samples::sample_of;

/// Transforms a block of samples, row by row, into its coefficients, row by row.
pub fn forward(block: &[u16; 64], out: &mut [i64; 64])
    requires samples { (k : ℕ) → slice_index block.now k < 1024 }
    ensures sums { IsForward block.now out.new }
    ensures small { (k : ℕ) → k < 64 → unsigned_abs (at out.new k) < 2 ^ 41 }
{
    let mut columns = [0i64; 64];
    for k in 0..64 {
        out[k] = i64::from(block[k]) - 512;
    }
    forward_columns(out, &mut columns);
    forward_columns(&columns, out);
}

/// Transforms a block of products, row by row, into its samples, row by row.
pub fn inverse(products: &[i32; 64], out: &mut [u16; 64])
    requires sizes { (k : ℕ) → unsigned_abs (at products.now k) ≤ 2 ^ 22 }
    ensures samples { IsInverse products.now out.new }
    ensures range { (k : ℕ) → slice_index out.new k ≤ 1019 }
{
    let mut sums = [0i64; 64];
    inverse_sums(products, &mut sums);
    for k in 0..64 {
        out[k] = sample_of(sums[k]);
    }
}

/// The sums of a block of products.
fn inverse_sums(products: &[i32; 64], sums: &mut [i64; 64])
    requires { (k : ℕ) → unsigned_abs (at products.now k) ≤ 2 ^ 22 }
    ensures sums { (y x : ℕ) → y < 8 → x < 8 →
        cell sums.new y x ≡ inverse_of (λ u. inverse_of (λ v. cell products.now v u) y) x }
    ensures small { AreUpTo (2 ^ 53) sums.new }
{
    let mut columns = [0i64; 64];
    for k in 0..64 {
        sums[k] = i64::from(products[k]);
    }
    inverse_columns(sums, &mut columns);
    inverse_columns(&columns, sums);
}

/// The sums of each column with the basis numbers, written as a row.
fn forward_columns(values: &[i64; 64], out: &mut [i64; 64])
    requires { AreUpTo (2 ^ 40) values.now }
    ensures sums { (c k : ℕ) → c < 8 → k < 8 → cell out.new c k ≡ forward_of (λ j. cell values.now j c) k }
    ensures small { (m : ℕ) → AreUpTo m values.now → AreUpTo (m * 46344) out.new }
{
    for place in 0..64 {
        out[place] = forward_column(values, place / 8, place % 8);
    }
}

/// The sum of a column with a basis number.
fn forward_column(values: &[i64; 64], column: usize, k: usize) -> i64
    requires place { (column < 8) × (k < 8) }
    requires values { AreUpTo (2 ^ 40) values.now }
    ensures { result ≡ forward_of (λ j. cell values.now j column) k }
{
    let mut sum = 0;
    for j in 0..8 {
        sum = add_product(sum, basis_number(k, j), values[8 * j + column]);
    }
    sum
}

/// The sums of each column with the basis numbers at each place, written as a row.
fn inverse_columns(values: &[i64; 64], out: &mut [i64; 64])
    requires { AreUpTo (2 ^ 40) values.now }
    ensures sums { (c j : ℕ) → c < 8 → j < 8 → cell out.new c j ≡ inverse_of (λ k. cell values.now k c) j }
    ensures small { (m : ℕ) → AreUpTo m values.now → AreUpTo (m * 43284) out.new }
{
    for place in 0..64 {
        out[place] = inverse_column(values, place / 8, place % 8);
    }
}

/// The sum of a column with the basis numbers at a place.
fn inverse_column(values: &[i64; 64], column: usize, j: usize) -> i64
    requires place { (column < 8) × (j < 8) }
    requires values { AreUpTo (2 ^ 40) values.now }
    ensures { result ≡ inverse_of (λ k. cell values.now k column) j }
{
    let mut sum = 0;
    for k in 0..8 {
        sum = add_product(sum, basis_number(k, j), values[8 * k + column]);
    }
    sum
}

/// A sum and one product more.
fn add_product(sum: i64, a: i64, b: i64) -> i64
    requires sum { unsigned_abs sum ≤ 7 * (8035 * 2 ^ 40) }
    requires a { unsigned_abs a ≤ 8035 }
    requires b { unsigned_abs b ≤ 2 ^ 40 }
    ensures value { result ≡ sum +ℤ (a *ℤ b) }
    ensures small { unsigned_abs result ≤ unsigned_abs sum + 8035 * 2 ^ 40 }
{
    sum + a * b
}
