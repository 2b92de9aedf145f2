//! From the products of a part to its blocks of samples.

ghost use Rattle.std.specs.Prelude.{◌≡◌, ◌≤◌, ◌<◌, ◌+◌, ◌*◌, ◌^◌, ℕ, [], length, get_or};
ghost use Rattle.std.specs.Int.RustNames.{unsigned_abs};
ghost use Rattle.slice_levels.specs.Coefficients.{AreSamples};
ghost use Rattle.slice_levels.specs.Interleaved.{IsBlockOf};
ghost use Rattle.slice_levels.specs.Rebuilt.{IsInverseOf, AreInversesOf};
ghost use Rattle.whole_transform.specs.Sums.{at};

use crate::lanes::{Lanes, put_group, take_block};
use prores_scan::{Scan, place};
use whole_transform::{inverse, inverse_lanes};

/// The blocks of samples of the products of an interleaved list: each 8 by 8, row by row.
pub fn put_samples(products: &[i32], scan: Scan, lanes: &mut Lanes, out: &mut [[u16; 64]])
    requires room { length products.now ≡ 64 * length out.old }
    requires sizes { (n : ℕ) → unsigned_abs (at products.now n) ≤ 2 ^ 22 }
    ensures inverse { AreInversesOf scan products.now out.new }
    ensures range { AreSamples out.new }
{
    if greatest_size(products) < 1 << 15 {
        short_samples(products, scan, lanes, out);
    } else {
        wide_samples(products, scan, out);
    }
}

/// The greatest size of a product.
fn greatest_size(products: &[i32]) -> u32
    ensures { (n : ℕ) → unsigned_abs (at products.now n) ≤ result }
{
    let mut greatest = 0u32;
    for product in products {
        greatest = greatest.max(product.unsigned_abs());
    }
    greatest
}

/// The blocks of products below 2^15 in size, eight at a time.
fn short_samples(products: &[i32], scan: Scan, lanes: &mut Lanes, out: &mut [[u16; 64]])
    requires room { length products.now ≡ 64 * length out.old }
    requires small { (n : ℕ) → unsigned_abs (at products.now n) < 2 ^ 15 }
    ensures { AreInversesOf scan products.now out.new }
{
    for group in 0..out.len().div_ceil(8) {
        short_group(products, scan, 8 * group, lanes, out);
    }
}

/// Eight blocks, or as many as there are from the first of them on.
fn short_group(products: &[i32], scan: Scan, first: usize, lanes: &mut Lanes, out: &mut [[u16; 64]])
    requires room { length products.now ≡ 64 * length out.old }
    requires first { first < length out.old }
    requires small { (n : ℕ) → unsigned_abs (at products.now n) < 2 ^ 15 }
    ensures inverse { (b : ℕ) → first ≤ b → b < first + 8 → b < length out.old
        → IsInverseOf scan (length out.old) products.now b (get_or out.new b []) }
    ensures before { (b : ℕ) → b < first → get_or out.new b [] ≡ get_or out.old b [] }
{
    put_group(products, scan, out.len(), first, &mut lanes.products);
    inverse_lanes(&lanes.products, &mut lanes.sums);
    for lane in 0..(out.len() - first).min(8) {
        take_block(&lanes.sums, lane, &mut out[first + lane]);
    }
}

/// The blocks of products of every size that is allowed, one at a time.
fn wide_samples(products: &[i32], scan: Scan, out: &mut [[u16; 64]])
    requires room { length products.now ≡ 64 * length out.old }
    requires sizes { (n : ℕ) → unsigned_abs (at products.now n) ≤ 2 ^ 22 }
    ensures { AreInversesOf scan products.now out.new }
{
    for b in 0..out.len() {
        let raster = raster_of(products, scan, out.len(), b);
        inverse(&raster, &mut out[b]);
    }
}

/// The products of one block, in raster order.
fn raster_of(products: &[i32], scan: Scan, count: usize, b: usize) -> [i32; 64]
    requires room { length products.now ≡ 64 * count }
    requires within { b < count }
    requires sizes { (n : ℕ) → unsigned_abs (at products.now n) ≤ 2 ^ 22 }
    ensures ordered { IsBlockOf scan count products.now b result }
    ensures sizes { (n : ℕ) → unsigned_abs (at result n) ≤ 2 ^ 22 }
{
    let mut raster = [0; 64];
    for k in 0..64 {
        raster[place(scan, k) as usize] = products[k as usize * count + b];
    }
    raster
}
