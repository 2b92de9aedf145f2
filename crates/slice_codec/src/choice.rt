//! The rate rule: the least index at which a slice fits.

ghost use Rattle.std.specs.Prelude.{◌≡◌, ◌<◌, ◌≤◌, ◌+◌, ◌*◌, ℕ, List, length, take};
ghost use Rattle.slice_codec.specs.Setups.{Setup};
ghost use Rattle.slice_codec.specs.inner.Weighed.{AreHalves, IsWeighedSlice, most_bits};
ghost use Rattle.slice_codec.specs.inner.Written.{IsChosenSlice};

use crate::search::{Bounds, first_possible};
use crate::writing::write_slice;
use prores_codes::Pairs;

/// The indices that a slice may have, and the bytes that it may take at all but the last.
#[derive(Clone, Copy)]
pub struct Rule {
    /// The least.
    pub first: u8,
    /// The greatest.
    pub last: u8,
    /// The bytes.
    pub room: usize,
}

/// Writes the slice of half steps at the least index that fits, or at the last, and answers its bytes. The search for that
/// index begins near `hint`.
pub fn write_chosen(
    tables: &Pairs,
    y: &[u16],
    cb: &[u16],
    cr: &[u16],
    rule: Rule,
    hint: u8,
    numbers: &mut [u16; 2048],
    out: &mut [u8],
) -> usize
    requires y { AreHalves y.now }
    requires cb { AreHalves cb.now }
    requires cr { AreHalves cr.now }
    requires some { 1 ≤ rule.first }
    requires order { rule.first ≤ rule.last }
    requires most { rule.last ≤ 224 }
    requires room { rule.room ≤ length out.old }
    requires roomy { 48 + most_bits y.now + most_bits cb.now + most_bits cr.now ≤ 8 * length out.old }
    ensures chosen { (setup : Setup) (count : ℕ) (samples : List (List ℕ)) → IsWeighedSlice setup count samples y.now cb.now cr.now
        → IsChosenSlice setup count samples rule.room rule.first rule.last (take result out.new) }
    ensures few { 8 * result ≤ 48 + most_bits y.now + most_bits cb.now + most_bits cr.now }
{
    let start = first_possible(y, cb, cr, rule, hint);
    for index in start.index..rule.last {
        let bounds = start.bounds.at(index);
        let lent = &mut out[..rule.room];
        match write_slice(tables, y, cb, cr, index, &bounds, numbers, lent) {
            Some(used) => return used,
            None => {}
        }
    }
    match write_slice(tables, y, cb, cr, rule.last, &Bounds::none(), numbers, out) {
        Some(used) => used,
        None => unreachable!(),
    }
}
