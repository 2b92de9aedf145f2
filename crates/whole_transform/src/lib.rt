//! The whole-number transform of a block of 8 by 8: `forward` from samples to coefficients, `inverse` from products to
//! samples, and of eight blocks at once `forward_lanes`, to sizes and signs of coefficients, and `inverse_lanes`, from
//! products of 16 bits.
//!
//! The crates above rest on `IsForward`, `IsInverse`, `IsForwardOfEach` and `IsInverseOfEach` of specs/Transform.antt:
//! each coefficient, and each sample before it is rounded and clamped, is a double sum over the block with two numbers
//! of the basis. The basis is whole numbers, so the sums are exact and every machine gives the same.
//!
//! Numbers that occur as bounds: 46344 is 8 * 5793, the greatest sum of one basis number's sizes over the eight places,
//! and 43284 the sum of the sizes of the eight basis numbers at a place, 5793 and those of `C1` to `C7`. By so much a
//! pass makes a number greater at most. 21643 is half of 43284 and one: the upper half of a number up to 2^15 * 43284
//! is that over 2^16, rounded. 8035 is `C1`, the greatest number of the basis.
//!
//! A coefficient is what the format divides by 2^26, the weight and the scale; its size over 2^25 and its sign are all
//! that this takes. A product is a level times its weight and the scale. Neither happens here. Nothing is promised of
//! how near the basis is to the cosines.
#![tactic(auto)]

mod basis;
mod block;
mod columns;
mod narrow;
mod product_lanes;
mod sample_lanes;
mod samples;
mod shifts;
#[cfg(test)]
mod tests;

pub use block::{forward, inverse};
pub use product_lanes::inverse_lanes;
pub use sample_lanes::forward_lanes;
