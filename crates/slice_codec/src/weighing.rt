//! The half steps of a slice's samples.

ghost use Rattle.std.specs.Prelude.{◌≡◌, ◌≤◌, ◌*◌, ℕ, length, take};
ghost use Rattle.picture_plane.specs.Blocks.{blocks_in, blocks_of};
ghost use Rattle.slice_codec.specs.Setups.{Setup, weights_of};
ghost use Rattle.slice_codec.specs.Codings.{setup_of};
ghost use Rattle.slice_codec.specs.inner.Weighed.{AreHalves, IsWeighed, IsWeighedSlice};

use crate::coding::Coding;
use picture_plane::{Plane, SliceSamples};
use slice_levels::{Lanes, Weighing, put_half_steps};

/// Writes the half steps of the planes of a slice, each into the front of its array.
pub fn weigh_slice(
    coding: &Coding,
    samples: &SliceSamples,
    count: u8,
    lanes: &mut Lanes,
    y: &mut [u16; 2048],
    cb: &mut [u16; 1024],
    cr: &mut [u16; 1024],
)
    requires some { 1 ≤ count }
    requires few { count ≤ 8 }
    ensures y { AreHalves (take (64 * (4 * count)) y.new) }
    ensures cb { AreHalves (take (64 * (2 * count)) cb.new) }
    ensures cr { AreHalves (take (64 * (2 * count)) cr.new) }
    ensures weighed { IsWeighedSlice (setup_of coding.now) count samples.now
        (take (64 * (4 * count)) y.new) (take (64 * (2 * count)) cb.new) (take (64 * (2 * count)) cr.new) }
{
    weigh(samples, Plane::Y, count, &coding.luma, lanes, y);
    weigh(samples, Plane::Cb, count, &coding.chroma, lanes, cb);
    weigh(samples, Plane::Cr, count, &coding.chroma, lanes, cr);
}

/// Writes the half steps of a plane's blocks into the front.
fn weigh(
    samples: &SliceSamples,
    plane: Plane,
    count: u8,
    weighing: &Weighing,
    lanes: &mut Lanes,
    out: &mut [u16],
)
    requires some { 1 ≤ count }
    requires few { count ≤ 8 }
    requires room { 64 * blocks_of plane count ≤ length out.old }
    ensures halves { AreHalves (take (64 * blocks_of plane count) out.new) }
    ensures weighed { (setup : Setup) → setup.scan ≡ weighing.now.scan → weights_of setup plane ≡ weighing.now.weights
        → IsWeighed setup plane (blocks_in samples.now plane count) (take (64 * blocks_of plane count) out.new) }
{
    weigh_blocks(
        samples,
        plane,
        count,
        weighing,
        lanes,
        &mut out[..entry_count(plane, count)],
    );
}

/// Writes the half steps of a plane's blocks.
fn weigh_blocks(
    samples: &SliceSamples,
    plane: Plane,
    count: u8,
    weighing: &Weighing,
    lanes: &mut Lanes,
    out: &mut [u16],
)
    requires some { 1 ≤ count }
    requires few { count ≤ 8 }
    requires room { length out.old ≡ 64 * blocks_of plane count }
    ensures halves { AreHalves out.new }
    ensures weighed { (setup : Setup) → setup.scan ≡ weighing.now.scan → weights_of setup plane ≡ weighing.now.weights
        → IsWeighed setup plane (blocks_in samples.now plane count) out.new }
{
    samples.ranges();
    put_half_steps(samples.blocks(plane, count), weighing, lanes, out);
}

/// The half steps of a plane of so many macroblocks.
pub fn entry_count(plane: Plane, count: u8) -> usize
    requires { count ≤ 8 }
    ensures { result ≡ 64 * blocks_of plane count }
{
    match plane {
        Plane::Y => 64 * (4 * usize::from(count)),
        Plane::Cb | Plane::Cr => 64 * (2 * usize::from(count)),
    }
}
