//! From levels of 16 bits to blocks of samples, where products have 16 bits too.

ghost use Rattle.std.specs.Prelude.{◌≡◌, ◌≤◌, ◌<◌, ◌+◌, ◌*◌, ◌^◌, ℕ, [], length, get_or, IsTrue};
ghost use Rattle.std.specs.Int.RustNames.{unsigned_abs};
ghost use Rattle.slice_levels.specs.Coefficients.{AreSamples};
ghost use Rattle.slice_levels.specs.Products.{product_at, InRange};
ghost use Rattle.slice_levels.specs.Rebuilt.{IsInverseOf, AreRebuilt};
ghost use Rattle.slice_levels.specs.inner.Short.{products_of};

use crate::lanes::{Lanes, take_block};
use crate::short_products::put_short_group;
use prores_scan::Scan;
use whole_transform::inverse_lanes;

/// Writes the blocks of samples that the levels of an interleaved list give, each 8 by 8, row by row, and says whether it
/// could: each product has 16 bits. Where it couldn't, `out` holds anything, and nothing is said of the products: `rebuild`
/// takes levels of every size.
pub fn rebuild_short(
    levels: &[i16],
    scan: Scan,
    weights: &[u8; 64],
    scale: u16,
    lanes: &mut Lanes,
    out: &mut [[u16; 64]],
) -> bool
    requires whole { length levels.now ≡ 64 * length out.old }
    requires scale { scale ≤ 512 }
    ensures in_range { IsTrue result → InRange scan weights.now scale (length out.old) levels.now }
    ensures rebuilt { IsTrue result → AreRebuilt scan weights.now scale levels.now out.new }
    ensures range { IsTrue result → AreSamples out.new }
    ensures long { length out.new ≡ length out.old }
{
    for group in 0..out.len().div_ceil(8) {
        if !rebuild_group(levels, scan, weights, scale, 8 * group, lanes, out) {
            return false;
        }
    }
    true
}

/// Writes eight blocks, or as many as there are from the first of them on.
fn rebuild_group(
    levels: &[i16],
    scan: Scan,
    weights: &[u8; 64],
    scale: u16,
    first: usize,
    lanes: &mut Lanes,
    out: &mut [[u16; 64]],
) -> bool
    requires whole { length levels.now ≡ 64 * length out.old }
    requires scale { scale ≤ 512 }
    requires first { first < length out.old }
    ensures small { IsTrue result → (b k : ℕ) → first ≤ b → b < first + 8 → b < length out.old → k < 64
        → unsigned_abs (product_at scan weights.now scale (length out.old) levels.now k b) < 2 ^ 15 }
    ensures inverse { IsTrue result → (b : ℕ) → first ≤ b → b < first + 8 → b < length out.old
        → IsInverseOf scan (length out.old) (products_of scan weights.now scale (length out.old) levels.now) b (get_or out.new b []) }
    ensures before { IsTrue result → (b : ℕ) → b < first → get_or out.new b [] ≡ get_or out.old b [] }
    ensures long { length out.new ≡ length out.old }
{
    let count = out.len();
    if !put_short_group(
        levels,
        scan,
        weights,
        scale,
        count,
        first,
        &mut lanes.products,
    ) {
        return false;
    }
    inverse_lanes(&lanes.products, &mut lanes.sums);
    for lane in 0..(count - first).min(8) {
        take_block(&lanes.sums, lane, &mut out[first + lane]);
    }
    true
}
