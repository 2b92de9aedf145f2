//! The blocks of a plane, put all at once.

ghost use Rattle.std.specs.Prelude.{◌≡◌, ◌≢◌, ◌≤◌, ◌<◌, ℕ, [], length, slice_index, get_or};
ghost use Rattle.picture_plane.specs.Blocks.{blocks_in, blocks_of};
ghost use Rattle.picture_plane.specs.declared.planes.Plane.{Plane};

use crate::planes::Plane;
use crate::samples::{SliceSamples, first_of};

impl SliceSamples {
    /// Puts the blocks of a plane of a slice of so many macroblocks.
    pub fn put_blocks(&mut self, plane: Plane, count: u8, blocks: &[[u16; 64]])
        requires count { count ≤ 8 }
        requires long { length blocks.now ≡ blocks_of plane count }
        requires small { (b k : ℕ) → b < length blocks.now → k < 64 → slice_index (get_or blocks.now b []) k < 1024 }
        ensures put { blocks_in self.new plane count ≡ blocks.now }
        ensures others { (other : Plane) → other ≢ plane → blocks_in self.new other count ≡ blocks_in self.old other count }
    {
        let first = first_of(plane);
        self.blocks[first..first + blocks.len()].copy_from_slice(blocks);
    }
}
