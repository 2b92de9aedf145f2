//! The levels of a slice's part from its blocks of samples, and its blocks from levels. A part is the blocks of one
//! component; its numbers stand in the interleaved list, scan position by scan position those of all blocks.
//!
//! The crates above rest on `put_half_steps` (`AreHalfStepsOf` of `specs/Coefficients.antt`): half steps are the
//! coefficients as far as any scale needs them, and `prores_scan::levels_at` gives the levels at a scale from them
//! (`AreLevelsOf`, by the law `levels_of_half_steps` of `specs/laws/LevelLaws.antt`). Back, they rest on `rebuild`
//! (`AreRebuilt` of `specs/Rebuilt.antt`), on its two halves `put_products` and `put_samples`, or on `rebuild_short`,
//! which is faster, and leaves to `rebuild` what has more than 16 bits.
//!
//! Terms: an entry is a place of the interleaved list, a lane one of eight blocks that are worked on side by side.
//!
//! Nothing here takes memory or knows of bits. Laws say that blocks have one list of levels, that levels give one block,
//! and that our own levels are in range at weights of 4 to 18. Nothing is promised of weights below 4 on the way to
//! levels.
#![tactic(auto)]

mod half_steps;
mod lanes;
mod products;
mod rebuilding;
mod samples;
mod short_products;
mod short_rebuilding;
#[cfg(test)]
mod tests;
mod weighing;

pub use half_steps::put_half_steps;
pub use lanes::Lanes;
pub use products::put_products;
pub use rebuilding::rebuild;
pub use samples::put_samples;
pub use short_rebuilding::rebuild_short;
pub use weighing::Weighing;
