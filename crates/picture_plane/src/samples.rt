//! The samples of a slice, block by block.

ghost use Rattle.std.specs.Prelude.{◌≡◌, ◌≤◌, ◌<◌, ◌+◌, ℕ, [], get_or, replicate, slice_index};
ghost use Rattle.picture_plane.specs.Blocks.{block_of, blocks_in, blocks_of, first_block, with_block, AreSamples};

use crate::planes::Plane;
use std::marker::Model;

/// The samples of a slice: 32 blocks of Y and 16 of each chroma, each 64 samples row by row, below 1024. A slice of
/// fewer macroblocks has its blocks in front.
#[derive(Drop)]
pub struct SliceSamples {
    pub(crate) blocks: [[u16; 64]; 64],
}

impl Model for SliceSamples {
    ghost use Rattle.std.specs.Prelude.{ℕ, List};
    ghost use Rattle.picture_plane.specs.Blocks.{AreSamples};

    ghost Value = { List (List ℕ) };

    ghost view = { λ s. s.blocks };

    ghost invariant = { λ s. AreSamples s.blocks };
}

impl SliceSamples {
    /// Samples of zero.
    pub fn new() -> SliceSamples
        ensures { result ≡ replicate 64 (replicate 64 0) }
    {
        SliceSamples {
            blocks: [[0; 64]; 64],
        }
    }

    /// Shows what the type keeps. It does nothing when it runs.
    pub fn ranges(&self)
        ensures { AreSamples self.now }
    {
        let _blocks = &self.blocks;
    }

    /// A block of a plane, from 0 in the order of the macroblocks: of Y top left, top right, bottom left and bottom
    /// right, of chroma top and bottom.
    pub fn block(&self, plane: Plane, block: usize) -> &[u16; 64]
        requires { block < blocks_of plane 8 }
        ensures value { result.now ≡ block_of self.now plane block }
        ensures small { (k : ℕ) → slice_index result.now k < 1024 }
    {
        &self.blocks[first_of(plane) + block]
    }

    /// The blocks of a plane of a slice of so many macroblocks, in their order.
    pub fn blocks(&self, plane: Plane, count: u8) -> &[[u16; 64]]
        requires { count ≤ 8 }
        ensures value { result.now ≡ blocks_in self.now plane count }
        ensures small { (b k : ℕ) → slice_index (get_or result.now b []) k < 1024 }
    {
        let first = first_of(plane);
        &self.blocks[first..first + block_count(plane, count)]
    }

    /// Puts a block of a plane.
    pub fn set_block(&mut self, plane: Plane, block: usize, samples: &[u16; 64])
        requires there { block < blocks_of plane 8 }
        requires small { (k : ℕ) → slice_index samples.now k < 1024 }
        ensures { self.new ≡ with_block self.old plane block samples.now }
    {
        self.blocks[first_of(plane) + block] = *samples;
    }
}

/// The first block of a plane.
#[inline(always)]
pub(crate) fn first_of(plane: Plane) -> usize
    ensures value { result ≡ first_block plane }
    ensures room { result + blocks_of plane 8 ≤ 64 }
{
    match plane {
        Plane::Y => 0,
        Plane::Cb => 32,
        Plane::Cr => 48,
    }
}

/// Blocks of a plane in so many macroblocks.
#[inline(always)]
pub(crate) fn block_count(plane: Plane, count: u8) -> usize
    ensures { result ≡ blocks_of plane count }
{
    match plane {
        Plane::Y => 4 * usize::from(count),
        Plane::Cb => 2 * usize::from(count),
        Plane::Cr => 2 * usize::from(count),
    }
}
