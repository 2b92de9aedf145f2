//! A weight matrix with what dividing by it takes.

ghost use Rattle.std.specs.Prelude.{◌≡◌, ◌≤◌, ◌<◌, slice_index};
ghost use Rattle.prores_scan.specs.Divisors.{DivideBy};
ghost use Rattle.slice_levels.specs.Coefficients.{AreWeighable};

use prores_scan::{Reciprocal, Scan, weight_reciprocals};

/// A scan and a weight matrix with the reciprocals of its weights, made once for many parts.
#[derive(Clone, Copy, Debug)]
pub struct Weighing {
    /// The order of a block's coefficients.
    pub scan: Scan,
    /// The weights, from 4 on, in raster order.
    pub weights: [u8; 64],
    reciprocals: [Reciprocal; 64],
    ghost large: { AreWeighable weights },
    ghost exact: { DivideBy weights reciprocals },
}

impl Weighing {
    /// Finds the reciprocals, by one division each.
    pub fn new(scan: Scan, weights: &[u8; 64]) -> Self
        requires { AreWeighable weights.now }
        ensures scan { result.scan ≡ scan }
        ensures weights { result.weights ≡ weights.now }
    {
        let weights = *weights;
        let reciprocals = weight_reciprocals(&weights);
        Weighing {
            scan,
            weights,
            reciprocals,
        }
    }

    /// The reciprocal of the weight at a raster place.
    #[inline(always)]
    pub(crate) fn reciprocal(&self, p: usize) -> Reciprocal
        requires { p < 64 }
        ensures weight { result.divisor ≡ slice_index self.now.weights p }
        ensures least { 4 ≤ result.divisor }
    {
        self.reciprocals[p]
    }
}
