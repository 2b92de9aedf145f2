//! From the levels of a part to its products.

ghost use Rattle.std.specs.Prelude.{◌≡◌, ◌≢◌, ◌≤◌, ◌<◌, ◌+◌, ◌*◌, ◌/◌, ◌%◌, ◌^◌, ◌↔◌, ℕ, pos, ◌*ℤ◌, length, slice_index, IsOk, IsTrue, IfSome, IfNone, IfErr, OnOk};
ghost use Rattle.std.specs.Int.RustNames.{unsigned_abs};
ghost use Rattle.prores_scan.specs.Products.{AreBounded};
ghost use Rattle.prores_scan.specs.Scans.{place_of, IsPosition};
ghost use Rattle.slice_levels.specs.Interleaved.{entry_of, weight_of};
ghost use Rattle.slice_levels.specs.Products.{product_at, AreProductsOf, InRange, IsFirstAbove};
ghost use Rattle.whole_transform.specs.Sums.{at};

use prores_scan::{CoefficientRange, Scan, place, position};

/// The greatest size of a product.
const MOST: i64 = 1 << 22;

/// Writes the products of the levels of so many blocks, each to the entry of its level. After a refusal `out` holds
/// anything.
pub fn put_products(
    levels: &[i64],
    count: usize,
    scan: Scan,
    weights: &[u8; 64],
    scale: u16,
    out: &mut [i32],
) -> Result<(), CoefficientRange>
    requires whole { length levels.now ≡ 64 * count }
    requires room { length out.old ≡ length levels.now }
    requires levels { AreBounded levels.now }
    requires scale { scale ≤ 512 }
    ensures accepted { IsOk result ↔ InRange scan weights.now scale count levels.now }
    ensures products { OnOk result (AreProductsOf scan weights.now scale count levels.now out.new) }

    ensures refused { IfErr result (IsFirstAbove scan weights.now scale count levels.now) }
{
    for k in 0..64 {
        let weight = weights[place(scan, k) as usize];
        let factor = u32::from(weight) * u32::from(scale);
        if !put_position(levels, k as usize * count, count, factor, out) {
            return refusal(levels, count, scan, weights, scale);
        }
    }
    Ok(())
}

/// Writes the products of one scan position, up to the first above 2^22 in size, and says whether there was none.
#[inline(always)]
fn put_position(levels: &[i64], from: usize, count: usize, factor: u32, out: &mut [i32]) -> bool
    requires within { from + count ≤ length levels.now }
    requires room { length out.old ≡ length levels.now }
    requires levels { AreBounded levels.now }
    requires factor { factor ≤ 2 ^ 17 }
    ensures accepted { IsTrue result ↔ ((b : ℕ) → b < count → unsigned_abs (at levels.now (from + b) *ℤ pos factor) ≤ 2 ^ 22) }
    ensures products { IsTrue result → (b : ℕ) → b < count → at out.new (from + b) ≡ at levels.now (from + b) *ℤ pos factor }
    ensures before { (n : ℕ) → n < from → at out.new n ≡ at out.old n }
{
    for b in 0..count {
        match product(levels[from + b], factor) {
            Some(product) => out[from + b] = product,
            None => return false,
        }
    }
    true
}

/// The product of a level, if its size is at most 2^22.
#[inline(always)]
fn product(level: i64, factor: u32) -> Option<i32>
    requires level { unsigned_abs level < 2 ^ 40 }
    requires factor { factor ≤ 2 ^ 17 }
    ensures product { IfSome result (λ p. p ≡ level *ℤ pos factor) }
    ensures in_range { IfSome result (λ p. unsigned_abs (level *ℤ pos factor) ≤ 2 ^ 22) }
    ensures above { IfNone result (2 ^ 22 < unsigned_abs (level *ℤ pos factor)) }
{
    let product = level * i64::from(factor);
    if -MOST <= product && product <= MOST {
        Some(product as i32)
    } else {
        None
    }
}

/// Names the first product above 2^22 in size, if there is one.
#[inline(never)]
fn refusal(
    levels: &[i64],
    count: usize,
    scan: Scan,
    weights: &[u8; 64],
    scale: u16,
) -> Result<(), CoefficientRange>
    requires whole { length levels.now ≡ 64 * count }
    requires levels { AreBounded levels.now }
    requires scale { scale ≤ 512 }
    ensures none { OnOk result (InRange scan weights.now scale count levels.now) }
    ensures refused { IfErr result (IsFirstAbove scan weights.now scale count levels.now) }
{
    for b in 0..count {
        if let Some(place) = first_above(levels, count, scan, weights, scale, b) {
            return Err(CoefficientRange {
                block: b as u64,
                place: u64::from(place),
            });
        }
    }
    Ok(())
}

/// The first raster place of a block whose product is above 2^22 in size.
fn first_above(
    levels: &[i64],
    count: usize,
    scan: Scan,
    weights: &[u8; 64],
    scale: u16,
    b: usize,
) -> Option<u8>
    requires whole { length levels.now ≡ 64 * count }
    requires within { b < count }
    requires levels { AreBounded levels.now }
    requires scale { scale ≤ 512 }
    ensures none { IfNone result ((k : ℕ) → k < 64 → unsigned_abs (product_at scan weights.now scale count levels.now k b) ≤ 2 ^ 22) }
    ensures above { IfSome result (λ p. (k : ℕ) × IsPosition scan p k × (2 ^ 22 < unsigned_abs (product_at scan weights.now scale count levels.now k b))) }
    ensures first { IfSome result (λ p. (j : ℕ) → j < 64 → place_of scan j < p
        → unsigned_abs (product_at scan weights.now scale count levels.now j b) ≤ 2 ^ 22) }
{
    for p in 0..64 {
        let k = position(scan, p) as usize;
        let factor = u32::from(weights[p as usize]) * u32::from(scale);
        if product(levels[k * count + b], factor).is_none() {
            return Some(p);
        }
    }
    None
}
