//! The indices at which a slice can't fit, told by a bound of its bits.

ghost use Rattle.std.specs.Prelude.{◌≡◌, ◌<◌, ◌≤◌, ◌+◌, ◌*◌, ◌/◌, ℕ, List, length, true};
ghost use Rattle.prores_scan.specs.WeightsAndScales.{scale_of};
ghost use Rattle.slice_codec.specs.inner.Bounded.{AllPass, AreLeast, IsLeast, slice_bound};
ghost use Rattle.slice_codec.specs.inner.Weighed.{AreHalves};

use crate::choice::Rule;
use crate::writing::double_scale;
use prores_scan::Reciprocal;
use slice_parts::{Least, least_bits};

/// Numbers of bits that the parts of a slice have at least at an index.
#[derive(Clone, Copy)]
pub struct Bounds {
    /// The index, or 0 where no part is told to have any.
    pub index: u8,
    /// Y.
    pub y: Least,
    /// Cb.
    pub cb: Least,
    /// Cr.
    pub cr: Least,
}

impl Bounds {
    /// No bits, which each part has at each index.
    pub fn none() -> Bounds
        ensures index { result.index ≡ 0 }
        ensures least { (scale : ℕ) (y cb cr : List ℕ) → AreLeast scale y cb cr result }
    {
        let least = Least::none();
        Bounds {
            index: 0,
            y: least,
            cb: least,
            cr: least,
        }
    }

    /// These at their own index, and none at another.
    pub fn at(&self, index: u8) -> Bounds
        ensures { (y cb cr : List ℕ) → AreLeast (scale_of self.now.index) y cb cr self.now → AreLeast (scale_of index) y cb cr result }
    {
        if index == self.index {
            *self
        } else {
            Bounds::none()
        }
    }
}

/// Where the tries of a slice begin.
#[derive(Drop)]
pub struct Start {
    /// An index before which the slice fits at none.
    pub index: u8,
    /// What the bound is at an index that it doesn't refuse.
    pub bounds: Bounds,
}

/// An index before which the slice fits at none. It is found by guesses, of which the first is near `hint`: 0 stands for
/// no hint. No guess changes more than the time that it takes.
pub fn first_possible(y: &[u16], cb: &[u16], cr: &[u16], rule: Rule, hint: u8) -> Start
    requires y { AreHalves y.now }
    requires cb { AreHalves cb.now }
    requires cr { AreHalves cr.now }
    requires some { 1 ≤ rule.first }
    requires order { rule.first ≤ rule.last }
    requires most { rule.last ≤ 224 }
    ensures from { rule.first ≤ result.index }
    ensures to { result.index ≤ rule.last }
    ensures passed { AllPass rule.room rule.first result.index y.now cb.now cr.now }
    ensures least { AreLeast (scale_of result.bounds.index) y.now cb.now cr.now result.bounds }
{
    let mut bounds = Bounds::none();
    let mut low = rule.first;
    let mut high = rule.last;
    let mut guess = first_guess(hint);
    while low < high {
        let index = guess.max(low).min(high - 1);
        let counted = slice_bounds(y, cb, cr, index);
        let bits = counted.y.bits + counted.cb.bits + counted.cr.bits;
        let step = step(bits, rule.room, index);
        if passes(bits, rule.room) {
            low = index + 1;
            if step < 2 {
                break;
            }
            guess = index.saturating_add(step);
        } else {
            bounds = counted;
            high = index;
            guess = index.saturating_sub(step).saturating_sub(1);
        }
    }
    Start { index: low, bounds }
}

/// The first guess, a little below the hint, so that it is mostly the last index that the bound refuses.
fn first_guess(hint: u8) -> u8 {
    if hint == 0 { 4 } else { hint - hint / 8 - 1 }
}

/// How far from an index the next guess should lie, where the bound there is known.
fn step(bits: u32, room: usize, index: u8) -> u8
    requires { bits ≤ 120000 }
{
    let want = 8 * room.min(32_768).max(7) as u32 - 48;
    let away = if bits < want {
        want - bits
    } else {
        bits - want
    };
    (away / 4 * (9 * u32::from(index)) / want).min(255) as u8
}

/// Whether the parts of a slice with so many bits or more have no room behind the header.
fn passes(bits: u32, room: usize) -> bool
    requires { bits ≤ 120000 }
    ensures { result ≡ true → 8 * room < 48 + bits }
{
    room < (bits as usize + 55) / 8
}

/// Numbers of bits that the parts of the slice have at least at an index.
fn slice_bounds(y: &[u16], cb: &[u16], cr: &[u16], index: u8) -> Bounds
    requires y { AreHalves y.now }
    requires cb { AreHalves cb.now }
    requires cr { AreHalves cr.now }
    requires index { (1 ≤ index) × (index ≤ 224) }
    ensures least { AreLeast (scale_of result.index) y.now cb.now cr.now result }
    ensures low { result.y.bits + result.cb.bits + result.cr.bits ≤ slice_bound index y.now cb.now cr.now }
    ensures small { result.y.bits + result.cb.bits + result.cr.bits ≤ 120000 }
{
    let double = double_scale(index);
    let y = plane_bounds(y, double);
    let cb = plane_bounds(cb, double);
    let cr = plane_bounds(cr, double);
    Bounds { index, y, cb, cr }
}

/// Those of one part.
fn plane_bounds(half_steps: &[u16], double: Reciprocal) -> Least
    requires { AreHalves half_steps.now }
    ensures least { (scale : ℕ) → double.divisor ≡ 2 * scale → IsLeast scale half_steps.now result }
    ensures small { result.bits ≤ 40000 }
{
    least_bits(half_steps, half_steps.len() / 64, double)
}
