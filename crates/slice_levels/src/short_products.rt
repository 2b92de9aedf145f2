//! From levels of 16 bits to products of 16 bits, eight blocks side by side.

ghost use Rattle.std.specs.Prelude.{◌≡◌, ◌≢◌, ◌≤◌, ◌<◌, ◌+◌, ◌*◌, ◌^◌, ℕ, pos, ◌*ℤ◌, length, slice_index, IsTrue};
ghost use Rattle.std.specs.Int.RustNames.{unsigned_abs};
ghost use Rattle.prores_scan.specs.Scans.{place_of};
ghost use Rattle.slice_levels.specs.Products.{product_at};
ghost use Rattle.slice_levels.specs.inner.Short.{ArePut};
ghost use Rattle.whole_transform.specs.Sums.{at};

use prores_scan::{Scan, place};

/// What a factor and the size of a product stay below.
const LIMIT: u32 = 1 << 15;

/// Writes the products of eight blocks of an interleaved list of levels, or of as many as it has from the first of them on,
/// and says whether each has 16 bits.
#[inline(always)]
pub fn put_short_group(
    levels: &[i16],
    scan: Scan,
    weights: &[u8; 64],
    scale: u16,
    count: usize,
    first: usize,
    lanes: &mut [i16; 512],
) -> bool
    requires room { length levels.now ≡ 64 * count }
    requires first { first < count }
    requires scale { scale ≤ 512 }
    ensures { IsTrue result → (lane k : ℕ) → lane < 8 → first + lane < count → k < 64
        → ArePut (8 * place_of scan k + lane) lanes.new (product_at scan weights.now scale count levels.now k (first + lane)) }
{
    if count - first >= 8 {
        put_eight(levels, scan, weights, scale, count, first, lanes)
    } else {
        put_fewer(levels, scan, weights, scale, count, first, lanes)
    }
}

/// Writes the products of eight blocks. Whether they have 16 bits is asked once, behind the last.
#[inline(always)]
fn put_eight(
    levels: &[i16],
    scan: Scan,
    weights: &[u8; 64],
    scale: u16,
    count: usize,
    first: usize,
    lanes: &mut [i16; 512],
) -> bool
    requires room { length levels.now ≡ 64 * count }
    requires first { first + 8 ≤ count }
    requires scale { scale ≤ 512 }
    ensures { IsTrue result → (lane k : ℕ) → lane < 8 → k < 64
        → ArePut (8 * place_of scan k + lane) lanes.new (product_at scan weights.now scale count levels.now k (first + lane)) }
{
    let mut greatest = [0u32; 8];
    let mut from = first;
    for k in 0..64 {
        let p = place(scan, k) as usize;
        let factor = u32::from(weights[p]) * u32::from(scale);
        if factor >= LIMIT {
            return false;
        }
        let products = eight_products(levels, from, factor as u16);
        put_row(&products, p, lanes);
        grow(&mut greatest, &products);
        from += count;
    }
    are_short(&greatest)
}

/// Eight levels times a factor.
#[inline(always)]
fn eight_products(levels: &[i16], from: usize, factor: u16) -> [i32; 8]
    requires room { from + 8 ≤ length levels.now }
    requires factor { factor < 2 ^ 15 }
    ensures { (lane : ℕ) → lane < 8 → at result lane ≡ at levels.now (from + lane) *ℤ pos factor }
{
    let mut products = [0i32; 8];
    for lane in 0..8 {
        products[lane] = product(levels[from + lane], factor);
    }
    products
}

/// A level times a factor, each of 16 bits with a sign.
#[inline(always)]
fn product(level: i16, factor: u16) -> i32
    requires { factor < 2 ^ 15 }
    ensures { result ≡ level *ℤ pos factor }
{
    i32::from(level) * i32::from(factor as i16)
}

/// Writes eight products to a raster place, each as it is where it has 16 bits.
#[inline(always)]
fn put_row(products: &[i32; 8], p: usize, lanes: &mut [i16; 512])
    requires place { p < 64 }
    ensures placed { (lane : ℕ) → lane < 8 → unsigned_abs (at products.now lane) < 2 ^ 15 → at lanes.new (8 * p + lane) ≡ at products.now lane }
    ensures kept { (q lane : ℕ) → lane < 8 → q ≢ p → at lanes.new (8 * q + lane) ≡ at lanes.old (8 * q + lane) }
{
    for lane in 0..8 {
        lanes[8 * p + lane] = narrowed(products[lane]);
    }
}

/// A product where it has 16 bits, and else the nearest number that has.
#[inline(always)]
fn narrowed(product: i32) -> i16
    ensures { unsigned_abs product < 2 ^ 15 → result ≡ product }
{
    product.max(-32768).min(32767) as i16
}

/// Takes the sizes of eight products into the greatest ones.
#[inline(always)]
fn grow(greatest: &mut [u32; 8], products: &[i32; 8])
    ensures grown { (lane : ℕ) → lane < 8 → slice_index greatest.old lane ≤ slice_index greatest.new lane }
    ensures most { (lane : ℕ) → lane < 8 → unsigned_abs (at products.now lane) ≤ slice_index greatest.new lane }
{
    for lane in 0..8 {
        greatest[lane] = greatest[lane].max(products[lane].unsigned_abs());
    }
}

/// Whether all sizes are of 16 bits with a sign.
#[inline(always)]
fn are_short(sizes: &[u32; 8]) -> bool
    ensures { IsTrue result → (lane : ℕ) → lane < 8 → slice_index sizes.now lane < 2 ^ 15 }
{
    for lane in 0..8 {
        if sizes[lane] >= LIMIT {
            return false;
        }
    }
    true
}

/// Writes the products of fewer than eight blocks.
#[inline(never)]
fn put_fewer(
    levels: &[i16],
    scan: Scan,
    weights: &[u8; 64],
    scale: u16,
    count: usize,
    first: usize,
    lanes: &mut [i16; 512],
) -> bool
    requires room { length levels.now ≡ 64 * count }
    requires first { first < count }
    requires few { count < first + 8 }
    requires scale { scale ≤ 512 }
    ensures { IsTrue result → (lane k : ℕ) → lane < 8 → first + lane < count → k < 64
        → ArePut (8 * place_of scan k + lane) lanes.new (product_at scan weights.now scale count levels.now k (first + lane)) }
{
    for k in 0..64 {
        let p = place(scan, k) as usize;
        let factor = u32::from(weights[p]) * u32::from(scale);
        if factor >= LIMIT {
            return false;
        }
        if !put_some(
            levels,
            k as usize * count + first,
            count - first,
            factor as u16,
            p,
            lanes,
        ) {
            return false;
        }
    }
    true
}

/// Writes a few products to a raster place, and says whether each has 16 bits.
fn put_some(
    levels: &[i16],
    from: usize,
    filled: usize,
    factor: u16,
    p: usize,
    lanes: &mut [i16; 512],
) -> bool
    requires room { from + filled ≤ length levels.now }
    requires filled { filled ≤ 8 }
    requires place { p < 64 }
    requires factor { factor < 2 ^ 15 }
    ensures placed { IsTrue result → (lane : ℕ) → lane < filled → ArePut (8 * p + lane) lanes.new (at levels.now (from + lane) *ℤ pos factor) }
    ensures kept { (q lane : ℕ) → lane < 8 → q ≢ p → at lanes.new (8 * q + lane) ≡ at lanes.old (8 * q + lane) }
{
    for lane in 0..filled {
        let product = product(levels[from + lane], factor);
        if product.unsigned_abs() >= LIMIT {
            return false;
        }
        lanes[8 * p + lane] = narrowed(product);
    }
    true
}
