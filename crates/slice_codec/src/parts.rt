//! The parts of a slice at an index.

ghost use Rattle.std.specs.Prelude.{◌≡◌, ◌<◌, ◌≤◌, ◌+◌, ◌-◌, ◌*◌, ◌/◌, ◌%◌, ℕ, List, None, length, IfSome, IsSome};
ghost use Rattle.bit_io.specs.Bits.{bytes_for};
ghost use Rattle.prores_scan.specs.HalfSteps.{AreShort};
ghost use Rattle.prores_scan.specs.WeightsAndScales.{scale_of};
ghost use Rattle.picture_plane.specs.declared.planes.Plane.{Plane};
ghost use Rattle.slice_codec.specs.Setups.{Setup};
ghost use Rattle.picture_plane.specs.declared.planes.Plane.TheVariants.{Cb, Cr};
ghost use Rattle.slice_parts.specs.Bound.{numbers_at, AreLeft};
ghost use Rattle.slice_parts.specs.Component.{signed_levels};
ghost use Rattle.slice_codec.specs.inner.Bounded.{AreLeast, IsLeast};
ghost use Rattle.slice_codec.specs.inner.Weighed.{AreHalves, IsWeighed, IsWeighedSlice, IsWritten, most_bits};
ghost use Rattle.slice_codec.specs.inner.Written.{AreChroma, AreParts, ChromaPasses, PartsPass};

use crate::search::Bounds;
use prores_codes::Pairs;
use prores_scan::{Reciprocal, levels_at};
use slice_parts::write_part_with;

/// Writes a part at an index of which `double` is the reciprocal of twice the scale, and answers its bytes, or none
/// where they don't fit before the last `reserve` bytes. It stops where what is `left` of it at least has no room.
/// `numbers` is room for the levels.
pub fn write_plane(
    tables: &Pairs,
    half_steps: &[u16],
    double: Reciprocal,
    left: &[u16; 33],
    reserve: usize,
    numbers: &mut [u16; 2048],
    out: &mut [u8],
) -> Option<usize>
    requires halves { AreHalves half_steps.now }
    requires even { double.divisor % 2 ≡ 0 }
    requires left { (scale : ℕ) → double.divisor ≡ 2 * scale → AreLeft (signed_levels (numbers_at scale half_steps.now)) left.now }
    ensures written { (setup : Setup) (index : ℕ) (plane : Plane) (blocks : List (List ℕ))
        → double.divisor ≡ 2 * scale_of index → IsWeighed setup plane blocks half_steps.now
        → IsWritten setup index plane blocks (length out.old - reserve) result out.new }
    ensures within { IfSome result (λ used. used ≤ length out.new) }
    ensures few { IfSome result (λ used. 8 * used ≤ most_bits half_steps.now) }
    ensures roomy { most_bits half_steps.now + 8 * reserve ≤ 8 * length out.old → IsSome result }
{
    let levels = &mut numbers[..half_steps.len()];
    levels_at(half_steps, double, levels);
    let room = out.len().saturating_sub(reserve);
    write_part_with(
        tables,
        left,
        levels,
        half_steps.len() / 64,
        &mut out[..room],
    )
}

/// The bytes of so many bits.
fn bytes_of(bits: u32) -> usize
    ensures { result ≡ bytes_for bits }
{
    (bits as usize + 7) / 8
}

/// Writes the parts of Cb and Cr, one behind the other, and answers the bytes of each.
pub fn write_chroma(
    tables: &Pairs,
    cb: &[u16],
    cr: &[u16],
    double: Reciprocal,
    bounds: &Bounds,
    numbers: &mut [u16; 2048],
    out: &mut [u8],
) -> Option<(usize, usize)>
    requires cb { AreHalves cb.now }
    requires cr { AreHalves cr.now }
    requires even { double.divisor % 2 ≡ 0 }
    requires cb_least { (scale : ℕ) → double.divisor ≡ 2 * scale → IsLeast scale cb.now bounds.now.cb }
    requires cr_least { (scale : ℕ) → double.divisor ≡ 2 * scale → IsLeast scale cr.now bounds.now.cr }
    ensures written { (setup : Setup) (index : ℕ) (cb_blocks cr_blocks : List (List ℕ)) → double.divisor ≡ 2 * scale_of index
        → IsWeighed setup Cb cb_blocks cb.now → IsWeighed setup Cr cr_blocks cr.now
        → IfSome result (λ used. AreChroma setup index cb_blocks cr_blocks used.0 used.1 out.new) }
    ensures within { IfSome result (λ used. used.0 + used.1 ≤ length out.new) }
    ensures few { IfSome result (λ used. (8 * used.0 ≤ most_bits cb.now) × (8 * used.1 ≤ most_bits cr.now)) }
    ensures roomy { most_bits cb.now + most_bits cr.now ≤ 8 * length out.old → IsSome result }

    ensures refused { (setup : Setup) (index : ℕ) (cb_blocks cr_blocks : List (List ℕ)) → double.divisor ≡ 2 * scale_of index
        → IsWeighed setup Cb cb_blocks cb.now → IsWeighed setup Cr cr_blocks cr.now
        → result ≡ None → ChromaPasses setup index cb_blocks cr_blocks (length out.old) }
{
    let reserve = bytes_of(bounds.cr.bits);
    let cb_len = write_plane(tables, cb, double, &bounds.cb.left, reserve, numbers, out)?;
    let rest = &mut out[cb_len..];
    let cr_len = write_plane(tables, cr, double, &bounds.cr.left, 0, numbers, rest)?;
    Some((cb_len, cr_len))
}

/// Writes the parts of Y, Cb and Cr, one behind the other, and answers the bytes of each.
pub fn write_parts(
    tables: &Pairs,
    y: &[u16],
    cb: &[u16],
    cr: &[u16],
    double: Reciprocal,
    bounds: &Bounds,
    numbers: &mut [u16; 2048],
    out: &mut [u8],
) -> Option<(usize, usize, usize)>
    requires y { AreHalves y.now }
    requires cb { AreHalves cb.now }
    requires cr { AreHalves cr.now }
    requires even { double.divisor % 2 ≡ 0 }
    requires least { (scale : ℕ) → double.divisor ≡ 2 * scale → AreLeast scale y.now cb.now cr.now bounds.now }
    ensures written { (setup : Setup) (index count : ℕ) (samples : List (List ℕ)) → double.divisor ≡ 2 * scale_of index
        → IsWeighedSlice setup count samples y.now cb.now cr.now
        → IfSome result (λ used. AreParts setup index count samples used.0 used.1 used.2 out.new) }
    ensures within { IfSome result (λ used. used.0 + used.1 + used.2 ≤ length out.new) }
    ensures few { IfSome result (λ used. (8 * used.0 ≤ most_bits y.now) × (8 * used.1 ≤ most_bits cb.now) × (8 * used.2 ≤ most_bits cr.now)) }
    ensures roomy { most_bits y.now + most_bits cb.now + most_bits cr.now ≤ 8 * length out.old → IsSome result }

    ensures refused { (setup : Setup) (index count : ℕ) (samples : List (List ℕ)) → double.divisor ≡ 2 * scale_of index
        → IsWeighedSlice setup count samples y.now cb.now cr.now
        → result ≡ None → PartsPass setup index count samples (length out.old) }
{
    let reserve = bytes_of(bounds.cb.bits) + bytes_of(bounds.cr.bits);
    let y_len = write_plane(tables, y, double, &bounds.y.left, reserve, numbers, out)?;
    let rest = &mut out[y_len..];
    let (cb_len, cr_len) = write_chroma(tables, cb, cr, double, bounds, numbers, rest)?;
    Some((y_len, cb_len, cr_len))
}
