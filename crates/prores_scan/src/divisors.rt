//! The divisors of a weight matrix.

ghost use Rattle.prores_scan.specs.Divisors.{AreDivisors, DivideBy};

use crate::reciprocals::Reciprocal;

/// The reciprocal of each weight of a matrix, in raster order.
pub fn weight_reciprocals(weights: &[u8; 64]) -> [Reciprocal; 64]
    requires { AreDivisors weights.now }
    ensures { DivideBy weights.now result }
{
    let mut reciprocals = [Reciprocal::new(2); 64];
    for p in 0..64 {
        reciprocals[p] = Reciprocal::new(u16::from(weights[p]));
    }
    reciprocals
}
