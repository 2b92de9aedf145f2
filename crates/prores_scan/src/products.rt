//! The products of the levels of whole blocks.

ghost use Rattle.std.specs.Prelude.{◌≡◌, ◌≤◌, ◌<◌, ◌^◌, ◌*◌, ◌%◌, length, drop, OnOk, IfErr, IfSome, IfNone};
ghost use Rattle.std.specs.Int.RustNames.{unsigned_abs};
ghost use Rattle.prores_scan.specs.Levels.{product_of};
ghost use Rattle.prores_scan.specs.Products.{AreBounded, Written, IsFirstAbove, fault_at};

use thiserror::Error;

/// The first product above 2^22 in size.
#[derive(Clone, Copy, Debug, PartialEq, Eq, Error)]
#[error("the product at place {place} of block {block} is above 2^22")]
pub struct CoefficientRange {
    /// The block, from 0.
    pub block: u64,
    /// The raster place in the block.
    pub place: u64,
}

/// The greatest size of a product.
const MOST: i64 = 1 << 22;

/// Writes the products of whole blocks of levels in raster order. After a refusal `out` has the
/// products before the one that is refused, and is as it was from there on.
pub fn dequantise(
    levels: &[i64],
    weights: &[u8; 64],
    scale: u16,
    out: &mut [i32],
) -> Result<(), CoefficientRange>
    requires blocks { length levels.now % 64 ≡ 0 }
    requires room { length out.old ≡ length levels.now }
    requires levels { AreBounded levels.now }
    requires scale { scale ≤ 512 }
    ensures products { OnOk result (Written levels.now weights.now scale out.new (length levels.now)) }

    ensures refused { IfErr result (IsFirstAbove levels.now weights.now scale) }
    ensures before { IfErr result (λ e. Written levels.now weights.now scale out.new (fault_at e)) }
    ensures unchanged { IfErr result (λ e. drop (fault_at e) out.new ≡ drop (fault_at e) out.old) }
{
    for n in 0..levels.len() {
        match product(levels[n], weights[n % 64], scale) {
            Some(product) => out[n] = product,
            None => {
                return Err(CoefficientRange {
                    block: (n / 64) as u64,
                    place: (n % 64) as u64,
                });
            }
        }
    }
    Ok(())
}

/// The product of a level, if its size is at most 2^22.
fn product(level: i64, weight: u8, scale: u16) -> Option<i32>
    requires level { unsigned_abs level < 2 ^ 40 }
    requires scale { scale ≤ 512 }
    ensures product { IfSome result (λ p. p ≡ product_of level weight scale) }
    ensures in_range { IfSome result (λ p. unsigned_abs (product_of level weight scale) ≤ 2 ^ 22) }
    ensures above { IfNone result (2 ^ 22 < unsigned_abs (product_of level weight scale)) }
{
    let product = level * i64::from(u32::from(weight) * u32::from(scale));
    if -MOST <= product && product <= MOST {
        Some(product as i32)
    } else {
        None
    }
}

#[cfg(test)]
mod tests {
    use super::*;

    #[test]
    fn a_product_above_the_range_is_named(rt: HostRuntime) {
        let mut levels = [-3i64; 128];
        levels[8] = 1 << 20;
        levels[73] = 1 << 21;
        let mut out = [7i32; 128];
        let found = dequantise(&levels, &[4; 64], 1, &mut out);
        assert_eq!(rt; found, Err(CoefficientRange { block: 1, place: 9 }));
        assert_eq!(rt; (out[0], out[8], out[72], out[73]), (-12, 1 << 22, -12, 7));
        let found = dequantise(&levels[64..], &[4; 64], 1, &mut out[64..]);
        assert_eq!(rt; found, Err(CoefficientRange { block: 0, place: 9 }));
    }
}
