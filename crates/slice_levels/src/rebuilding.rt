//! From the levels of a part to its blocks of samples.

ghost use Rattle.std.specs.Prelude.{◌≡◌, ◌≤◌, ◌*◌, ◌↔◌, length, IsOk, IfErr, OnOk, OnErr};
ghost use Rattle.prores_scan.specs.Products.{AreBounded};
ghost use Rattle.slice_levels.specs.Coefficients.{AreSamples};
ghost use Rattle.slice_levels.specs.Products.{InRange, IsFirstAbove};
ghost use Rattle.slice_levels.specs.Rebuilt.{AreRebuilt};

use crate::lanes::Lanes;
use crate::products::put_products;
use crate::samples::put_samples;
use prores_scan::{CoefficientRange, Scan};

/// Writes the blocks of samples that the levels of an interleaved list give, each 8 by 8, row by row. `products` is room
/// for as many products as levels. After a refusal `out` is as it was.
pub fn rebuild(
    levels: &[i64],
    scan: Scan,
    weights: &[u8; 64],
    scale: u16,
    products: &mut [i32],
    lanes: &mut Lanes,
    out: &mut [[u16; 64]],
) -> Result<(), CoefficientRange>
    requires whole { length levels.now ≡ 64 * length out.old }
    requires room { length products.old ≡ length levels.now }
    requires levels { AreBounded levels.now }
    requires scale { scale ≤ 512 }
    ensures accepted { IsOk result ↔ InRange scan weights.now scale (length out.old) levels.now }
    ensures rebuilt { OnOk result (AreRebuilt scan weights.now scale levels.now out.new) }
    ensures range { OnOk result (AreSamples out.new) }

    ensures refused { IfErr result (IsFirstAbove scan weights.now scale (length out.old) levels.now) }
    ensures unchanged { OnErr result (out.new ≡ out.old) }
{
    put_products(levels, out.len(), scan, weights, scale, products)?;
    put_samples(products, scan, lanes, out);
    Ok(())
}
