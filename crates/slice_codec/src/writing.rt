//! A slice at an index.

ghost use Rattle.std.specs.Prelude.{◌≡◌, ◌<◌, ◌≤◌, ◌+◌, ◌*◌, ◌/◌, ◌%◌, ◌∷◌, ◌^◌, ℕ, List, None, length, take, drop, IfSome, IsSome};
ghost use Rattle.prores_scan.specs.WeightsAndScales.{scale_of};
ghost use Rattle.slice_codec.specs.Setups.{Setup};
ghost use Rattle.slice_codec.specs.Coded.{IsSliceAt};
ghost use Rattle.slice_codec.specs.inner.Bounded.{AreLeast};
ghost use Rattle.slice_codec.specs.inner.Weighed.{AreHalves, IsWeighedSlice, most_bits};
ghost use Rattle.slice_codec.specs.inner.Written.{SlicePasses};

use crate::parts::write_parts;
use crate::search::Bounds;
use prores_codes::Pairs;
use prores_scan::{Reciprocal, scale};

/// Writes the slice of half steps at an index, and answers its bytes, or none where they don't fit. It stops where what the
/// parts have left at least by `bounds` has no room. `numbers` is room for the levels.
pub fn write_slice(
    tables: &Pairs,
    y: &[u16],
    cb: &[u16],
    cr: &[u16],
    index: u8,
    bounds: &Bounds,
    numbers: &mut [u16; 2048],
    out: &mut [u8],
) -> Option<usize>
    requires y { AreHalves y.now }
    requires cb { AreHalves cb.now }
    requires cr { AreHalves cr.now }
    requires index { (1 ≤ index) × (index ≤ 224) }
    requires least { AreLeast (scale_of index) y.now cb.now cr.now bounds.now }
    ensures written { (setup : Setup) (count : ℕ) (samples : List (List ℕ)) → IsWeighedSlice setup count samples y.now cb.now cr.now
        → IfSome result (λ used. IsSliceAt setup count samples index (take used out.new)) }
    ensures within { IfSome result (λ used. used ≤ length out.new) }
    ensures few { IfSome result (λ used. 8 * used ≤ 48 + most_bits y.now + most_bits cb.now + most_bits cr.now) }
    ensures roomy { 48 + most_bits y.now + most_bits cb.now + most_bits cr.now ≤ 8 * length out.old → IsSome result }

    ensures refused { (setup : Setup) (count : ℕ) (samples : List (List ℕ)) → IsWeighedSlice setup count samples y.now cb.now cr.now
        → result ≡ None → SlicePasses setup count samples index (length out.old) }
{
    if out.len() < 6 {
        return None;
    }
    let double = double_scale(index);
    let parts = &mut out[6..];
    let (y_len, cb_len, cr_len) = write_parts(tables, y, cb, cr, double, bounds, numbers, parts)?;
    put_head(index, y_len as u16, cb_len as u16, out);
    Some(6 + y_len + cb_len + cr_len)
}

/// The reciprocal of twice the scale of an index.
pub(crate) fn double_scale(index: u8) -> Reciprocal
    requires { (1 ≤ index) × (index ≤ 224) }
    ensures { result.divisor ≡ 2 * scale_of index }
{
    match scale(index) {
        Some(scale) => Reciprocal::new(2 * scale),
        None => unreachable!(),
    }
}

/// Writes the header of a slice: its own length, the index, and the lengths of Y and Cb.
fn put_head(index: u8, y_len: u16, cb_len: u16, out: &mut [u8])
    requires { 6 ≤ length out.old }
    ensures { out.new ≡ 48 ∷ index ∷ y_len / 256 ∷ y_len % 256 ∷ cb_len / 256 ∷ cb_len % 256 ∷ drop 6 out.old }
{
    let head = [
        48,
        index,
        (y_len / 256) as u8,
        (y_len % 256) as u8,
        (cb_len / 256) as u8,
        (cb_len % 256) as u8,
    ];
    out[..6].copy_from_slice(&head);
}
