//! The scans, weights, scales and levels of ProRes blocks.
//!
//! A block has 64 coefficients. `place` and `position` lead between scan order (elsewhere called
//! zigzag) and raster order (`place_of`, `IsPosition` of `specs/Scans.antt`). `quantise` gives the
//! level of a coefficient (`level_of` of `specs/Levels.antt`), and `dequantise` the products of
//! levels (`product_of`). `eight_half_steps` and `levels_at` give the same levels by lanes and
//! without dividing (`half_steps_of` of `specs/HalfSteps.antt`, `AreLevels` of
//! `specs/ScaledLevels.antt`); `threshold` and `reached` tell sizes from half steps alone.
//!
//! Terms: a weight is an entry of a weight matrix, a scale is what a slice's index stands for, a
//! step is 2^26 times weight times scale, and a half step is 2^25 times the weight: half the step
//! at scale 1.
//!
//! Nothing here takes memory. Nothing is promised of weights that half steps aren't counted by:
//! below 4 or above 63.
#![tactic(auto)]

mod divisors;
mod half_steps;
mod levels;
mod products;
mod reciprocals;
mod scaled_levels;
mod scans;
mod thresholds;
mod weights_and_scales;

pub use divisors::weight_reciprocals;
pub use half_steps::{eight_half_steps, half_steps_from};
pub use levels::quantise;
pub use products::{CoefficientRange, dequantise};
pub use reciprocals::Reciprocal;
pub use scaled_levels::{change_bound, levels_at, signed};
pub use scans::{Scan, place, position};
pub use thresholds::{reached, threshold};
pub use weights_and_scales::{scale, weights};
