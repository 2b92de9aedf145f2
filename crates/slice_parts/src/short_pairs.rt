//! The AC levels of a part, read pair by pair where each level has 16 bits.

ghost use Rattle.std.specs.Prelude.{◌≡◌, ◌<◌, ◌≤◌, ◌-◌, ◌%◌, ℕ, pos, length, replicate, IsTrue, IfSome, IfNone};
ghost use Rattle.bit_io.specs.Read.{Reading};
ghost use Rattle.std.specs.Int.RustNames.{unsigned_abs};
ghost use Rattle.prores_codes.specs.Heads.{IsRunRow, IsLevelRow};
ghost use Rattle.slice_parts.specs.Pairs.{PairSpells, pair_state, pair_of};
ghost use Rattle.slice_parts.specs.inner.Progress.{ReadsOne, HasPairs, PairsRead};

use crate::pairs::{Found, get_pair};
use bit_io::BitReader;
use prores_codes::{Heads, level_row, run_row};

/// A pair that was read, and the rows of the codes behind it.
#[derive(Drop)]
struct ShortPair {
    run: u32,
    level: i16,
    runs: u16,
    levels: u16,
}

/// How far pairs are read: the last one, the rows of the codes behind it, the entry behind its level, and the bits left. It
/// goes from hand to hand, so that the machine keeps it in registers.
#[derive(Drop)]
struct ShortState<'a> {
    last: ShortPair,
    at: usize,
    bits: BitReader<'a>,
}

/// Reads pairs to the end of the bits into levels that are zero, and says whether it could. Where it couldn't, `out` holds
/// anything, and nothing is said of the bits.
pub fn read_short_pairs(heads: &Heads, bits: BitReader<'_>, out: &mut [i16]) -> bool
    requires zeros { out.old ≡ replicate (length out.old) (pos 0) }
    ensures read { IsTrue result → HasPairs bits.entry out.new }
    ensures long { length out.new ≡ length out.old }
{
    let mut state = ShortState {
        last: ShortPair {
            run: 4,
            level: 2,
            runs: run_row(4),
            levels: level_row(1),
        },
        at: 0,
        bits,
    };
    for _turn in 0..out.len() {
        let ShortState { last, at, bits } = state;
        match head_pairs(
            heads,
            last.run,
            last.level,
            last.runs,
            last.levels,
            at,
            bits,
            out,
        ) {
            Some(next) => {
                if next.bits.rest_is_zero() {
                    return true;
                }
                match code_pair(next, out) {
                    Some(behind) => state = behind,
                    None => return false,
                }
            }
            None => return false,
        }
    }
    false
}

/// Reads pairs by the tables as far as they say, or to the end of the bits. None where a run passes the last level. Numbers
/// go one by one: out of one struct the compiler would take several into a vector.
#[inline(never)]
fn head_pairs<'a>(
    heads: &Heads,
    run: u32,
    level: i16,
    runs: u16,
    levels: u16,
    at: usize,
    bits: BitReader<'a>,
    out: &mut [i16],
) -> Option<ShortState<'a>>
    requires rows { IsRunRow run runs × IsLevelRow (unsigned_abs level - 1) levels }
    requires within { at ≤ length out.old }
    ensures read { (start : Reading) → PairsRead start bits.entry (length out.old) run (unsigned_abs level - 1) at out.old
        → IfSome result (λ s. PairsRead start s.bits (length out.old) s.last.run (unsigned_abs s.last.level - 1) s.at out.new) }
    ensures rows { IfSome result (λ s. IsRunRow s.last.run s.last.runs × IsLevelRow (unsigned_abs s.last.level - 1) s.last.levels) }
    ensures within { IfSome result (λ s. (at ≤ s.at) × (s.at ≤ length out.old)) }
    ensures long { length out.new ≡ length out.old }
{
    let mut last = ShortPair {
        run,
        level,
        runs,
        levels,
    };
    let mut at = at;
    let mut bits = bits;
    while !bits.rest_is_zero() {
        let free = out.len() - at;
        match head_pair(heads, last.runs, last.levels, &mut bits) {
            Some(found) => {
                if found.run as usize >= free {
                    return None;
                }
                at += found.run as usize;
                out[at] = found.level;
                at += 1;
                last = found;
            }
            None => break,
        }
    }
    Some(ShortState { last, at, bits })
}

/// Reads a pair by the tables, or none where they don't say.
#[inline(always)]
fn head_pair(heads: &Heads, runs: u16, levels: u16, bits: &mut BitReader<'_>) -> Option<ShortPair>
    requires runs { (runs < 3072) × (runs % 512 ≡ 0) }
    requires levels { (levels < 3072) × (levels % 512 ≡ 0) }
    ensures read { (run size_less_one : ℕ) → IsRunRow run runs → IsLevelRow size_less_one levels
        → IfSome result (λ f. ReadsOne PairSpells (pair_state run size_less_one) bits.old bits.new (pair_of f.run f.level)) }
    ensures rows { IfSome result (λ f. IsRunRow f.run f.runs × IsLevelRow (unsigned_abs f.level - 1) f.levels) }
    ensures unchanged { IfNone result (bits.new ≡ bits.old) }
{
    match heads.read(runs, levels, bits) {
        Some((one, two)) => Some(ShortPair {
            run: u32::from(one.run),
            level: i16::from(two.level),
            runs: one.row,
            levels: two.row,
        }),
        None => None,
    }
}

/// Reads a pair by its codes.
#[inline(never)]
fn code_pair<'a>(state: ShortState<'a>, out: &mut [i16]) -> Option<ShortState<'a>>
    requires rows { IsRunRow state.last.run state.last.runs × IsLevelRow (unsigned_abs state.last.level - 1) state.last.levels }
    requires within { state.at ≤ length out.old }
    ensures read { (start : Reading) → PairsRead start state.entry.bits (length out.old) state.entry.last.run (unsigned_abs state.entry.last.level - 1) state.entry.at out.old
        → IfSome result (λ s. PairsRead start s.bits (length out.old) s.last.run (unsigned_abs s.last.level - 1) s.at out.new) }
    ensures rows { IfSome result (λ s. IsRunRow s.last.run s.last.runs × IsLevelRow (unsigned_abs s.last.level - 1) s.last.levels) }
    ensures within { IfSome result (λ s. (state.entry.at < s.at) × (s.at ≤ length out.old)) }
    ensures long { length out.new ≡ length out.old }
{
    let mut bits = state.bits;
    match short_pair(state.last, out.len() - state.at, &mut bits) {
        Some(last) => {
            let at = state.at + last.run as usize;
            out[at] = last.level;
            Some(ShortState {
                last,
                at: at + 1,
                bits,
            })
        }
        None => None,
    }
}

/// Reads a pair of which so many levels are free, if its level has 16 bits.
fn short_pair(before: ShortPair, free: usize, bits: &mut BitReader<'_>) -> Option<ShortPair>
    requires rows { IsRunRow before.run before.runs × IsLevelRow (unsigned_abs before.level - 1) before.levels }
    ensures read { IfSome result (λ f. ReadsOne PairSpells (pair_state before.run (unsigned_abs before.level - 1)) bits.old bits.new (pair_of f.run f.level)) }
    ensures rows { IfSome result (λ f. IsRunRow f.run f.runs × IsLevelRow (unsigned_abs f.level - 1) f.levels) }
    ensures inside { IfSome result (λ f. f.run < free) }
{
    let size_less_one = u32::from(before.level.unsigned_abs()).saturating_sub(1);
    match get_pair(
        None,
        before.runs,
        before.levels,
        before.run,
        size_less_one,
        free,
        bits,
    ) {
        Ok(found) => shortened(found),
        Err(_) => None,
    }
}

/// A pair whose level has 16 bits.
fn shortened(found: Found) -> Option<ShortPair>
    requires size { found.size_less_one ≡ unsigned_abs found.level - 1 }
    requires rows { IsRunRow found.run found.runs × IsLevelRow found.size_less_one found.levels }
    ensures run { IfSome result (λ f. f.run ≡ found.run) }
    ensures level { IfSome result (λ f. f.level ≡ found.level) }
    ensures rows { IfSome result (λ f. IsRunRow f.run f.runs × IsLevelRow (unsigned_abs f.level - 1) f.levels) }
{
    if found.level < -32768 || found.level > 32767 {
        return None;
    }
    Some(ShortPair {
        run: found.run,
        level: found.level as i16,
        runs: found.runs,
        levels: found.levels,
    })
}
