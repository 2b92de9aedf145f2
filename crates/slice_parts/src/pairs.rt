//! The AC levels of a part, as pairs of a run and a level.

ghost use Rattle.std.specs.Prelude.{◌≡◌, ◌≢◌, ◌≤◌, ◌<◌, ◌+◌, ◌-◌, ◌*◌, ◌/◌, ◌%◌, ◌^◌, ◌↔◌, ◌∷◌, [], ℕ, ℤ, List, pos, length, drop, replicate, slice_index, IsOk, IfOk, IfErr, OnOk};
ghost use Rattle.std.specs.Int.RustNames.{unsigned_abs};
ghost use Rattle.bit_io.specs.Written.{lender, room, Puts};
ghost use Rattle.prores_codes.specs.Heads.{IsRunRow, IsLevelRow};
ghost use Rattle.prores_codes.specs.Pairs.{IsPairRow};
ghost use Rattle.prores_codes.specs.Codes.{parameters, Spells};
ghost use Rattle.prores_scan.specs.ScaledLevels.{signed_of};
ghost use Rattle.slice_parts.specs.Pairs.{PairSpells, ArePairsOf, pair_state, pair_of, first_pair, sign_bit};
ghost use Rattle.prores_scan.specs.HalfSteps.{AreAtMost};
ghost use Rattle.slice_parts.specs.Component.{signed_levels};
ghost use Rattle.slice_parts.specs.Bound.{AreLeft};
ghost use Rattle.slice_parts.specs.Faults.{NoPair, PairsBreak};
ghost use Rattle.slice_parts.specs.inner.Marks.{AreDue, size_before};
ghost use Rattle.slice_parts.specs.inner.Progress.{ReadsOne, HasPairs};

use crate::fault::PartFault;
use crate::symbols::{read_level, read_run};
use bit_io::{BitReader, BitWriter, Full};
use prores_codes::{
    Code, Heads, Pairs, level_code, level_row, pair_row, run_code, run_row, small_fits, write,
};
use prores_scan::reached;

/// Writes the pairs of a part's AC levels, each given as a size with its sign as the last bit. Tables make short pairs
/// faster. `left` tells how many bits are left at least behind each 64 entries: where they have no room no more is
/// written.
pub fn write_pairs(
    tables: Option<&Pairs>,
    left: &[u16; 33],
    numbers: &[u16],
    blocks: usize,
    out: &mut BitWriter<'_>,
) -> Result<(), Full>
    requires blocks { (1 ≤ blocks) × (blocks ≤ 32) }
    requires long { length numbers.now ≡ 64 * blocks }
    requires small { AreAtMost (2 ^ 14 + 1) numbers.now }
    requires left { AreLeft (signed_levels numbers.now) left.now }
    ensures same_reference { lender out.new ≡ lender out.old }
    ensures accepted { (s : List ℕ) → ArePairsOf first_pair 0 (drop blocks (signed_levels numbers.now)) s → (IsOk result ↔ (length s ≤ room out.old)) }
    ensures spelled { (s : List ℕ) → ArePairsOf first_pair 0 (drop blocks (signed_levels numbers.now)) s → OnOk result (Puts out.old out.new s) }
{
    let mut run = 4;
    let mut last = 4;
    let mut row = pair_row(4, 1);
    let mut next = blocks;
    let mut skip = blocks;
    for word in 0..blocks {
        let mut marks = due_marks(numbers, 64 * word, skip);
        skip = 0;
        while marks != 0 {
            let place = 64 * word + marks.trailing_zeros() as usize;
            let number = numbers[place];
            let zeros = (place - next) as u32;
            row = put_pair(tables, row, run, last, zeros, number, out)?;
            run = zeros;
            last = number;
            next = place + 1;
            marks = marks & (marks - 1);
        }
        out.fits(u32::from(left[word + 1]))?;
    }
    Ok(())
}

/// The marks of the levels in 64 entries from a place on that aren't zero, without those of the first entries.
#[inline(always)]
fn due_marks(numbers: &[u16], at: usize, skip: usize) -> u64
    requires inside { at + 64 ≤ length numbers.now }
    requires skip { skip ≤ 32 }
    ensures { AreDue numbers.now at (at + skip) result }
{
    reached(numbers, at, 2) >> skip << skip
}

/// Writes a pair of so many zeros and a level, behind a run and a level whose row is given, and answers the row behind it.
#[inline(always)]
fn put_pair(
    tables: Option<&Pairs>,
    row: u16,
    run: u32,
    last: u16,
    zeros: u32,
    number: u16,
    out: &mut BitWriter<'_>,
) -> Result<u16, Full>
    requires row { IsPairRow run (size_before last) row }
    requires last { (2 ≤ last) × (last ≤ 2 ^ 14 + 1) }
    requires some { 2 ≤ number }
    requires small { number ≤ 2 ^ 14 + 1 }
    requires few { zeros ≤ 4096 }
    ensures same_reference { lender out.new ≡ lender out.old }
    ensures accepted { (s : List ℕ) → PairSpells (pair_state run (size_before last)) s (pair_of zeros (signed_of number)) → (IsOk result ↔ (length s ≤ room out.old)) }
    ensures spelled { (s : List ℕ) → PairSpells (pair_state run (size_before last)) s (pair_of zeros (signed_of number)) → OnOk result (Puts out.old out.new s) }
    ensures row { IfOk result (IsPairRow zeros (size_before number)) }
{
    match tables {
        Some(tables) if (2 * zeros | u32::from(number)) < 16 => {
            put_short_pair(tables, row, zeros, number, out)
        }
        _ => {
            put_large_pair(run, size_less_one(last), zeros, number, out)?;
            Ok(pair_row(zeros, size_less_one(number)))
        }
    }
}

/// Writes a pair of the table, and answers the row behind it.
#[inline(always)]
fn put_short_pair(
    tables: &Pairs,
    row: u16,
    zeros: u32,
    number: u16,
    out: &mut BitWriter<'_>,
) -> Result<u16, Full>
    requires row { (row < 4608) × (row % 128 ≡ 0) }
    requires number { (2 ≤ number) × (number < 16) }
    requires zeros { zeros < 8 }
    ensures same_reference { lender out.new ≡ lender out.old }
    ensures accepted { (run size : ℕ) (s : List ℕ) → IsPairRow run size row → PairSpells (pair_state run size) s (pair_of zeros (signed_of number))
        → (IsOk result ↔ (length s ≤ room out.old)) }
    ensures spelled { (run size : ℕ) (s : List ℕ) → IsPairRow run size row → PairSpells (pair_state run size) s (pair_of zeros (signed_of number))
        → OnOk result (Puts out.old out.new s) }
    ensures row { IfOk result (IsPairRow zeros (unsigned_abs (signed_of number) - 1)) }
{
    let pair = tables.get(usize::from(row), zeros as usize, usize::from(number));
    out.put(pair.size, pair.number)?;
    Ok(pair.row)
}

/// Writes a pair that no table has.
fn put_large_pair(
    run: u32,
    size: u32,
    zeros: u32,
    number: u16,
    out: &mut BitWriter<'_>,
) -> Result<(), Full>
    requires some { 2 ≤ number }
    requires small { number ≤ 2 ^ 14 + 1 }
    requires few { zeros ≤ 4096 }
    ensures same_reference { lender out.new ≡ lender out.old }
    ensures accepted { (s : List ℕ) → PairSpells (pair_state run size) s (pair_of zeros (signed_of number)) → (IsOk result ↔ (length s ≤ room out.old)) }
    ensures spelled { (s : List ℕ) → PairSpells (pair_state run size) s (pair_of zeros (signed_of number)) → OnOk result (Puts out.old out.new s) }
{
    put_small(run_code(run), zeros, out)?;
    put_small(level_code(size), size_less_one(number), out)?;
    put_sign(number, out)?;
    Ok(())
}

/// The size of a level, less one.
fn size_less_one(number: u16) -> u32
    requires some { 2 ≤ number }
    requires small { number ≤ 2 ^ 14 + 1 }
    ensures value { result ≡ unsigned_abs (signed_of number) - 1 }
    ensures small { result < 2 ^ 13 }
{
    u32::from(number / 2) - 1
}

/// Writes a number of at most 2^13.
fn put_small(code: Code, n: u32, out: &mut BitWriter<'_>) -> Result<(), Full>
    requires { n ≤ 2 ^ 13 }
    ensures same_reference { lender out.new ≡ lender out.old }
    ensures accepted { (s : List ℕ) → Spells (parameters code) s n → (IsOk result ↔ (length s ≤ room out.old)) }
    ensures spelled { (s : List ℕ) → Spells (parameters code) s n → OnOk result (Puts out.old out.new s) }
{
    small_fits(code, n, 15);
    write(code, n, out)
}

/// Writes the sign bit of a level.
fn put_sign(number: u16, out: &mut BitWriter<'_>) -> Result<(), Full>
    requires { 2 ≤ number }
    ensures same_reference { lender out.new ≡ lender out.old }
    ensures accepted { (s : List ℕ) → s ≡ sign_bit (signed_of number) ∷ [] → (IsOk result ↔ (length s ≤ room out.old)) }
    ensures spelled { (s : List ℕ) → s ≡ sign_bit (signed_of number) ∷ [] → OnOk result (Puts out.old out.new s) }
{
    out.put(1, u32::from(number % 2))
}

/// Reads pairs to the end of the bits into levels that are zero. Tables make short codes faster.
pub fn read_pairs(
    heads: Option<&Heads>,
    bits: &mut BitReader<'_>,
    out: &mut [i64],
) -> Result<(), PartFault>
    requires zeros { out.old ≡ replicate (length out.old) (pos 0) }
    ensures read { OnOk result (HasPairs bits.old out.new) }
    ensures long { length out.new ≡ length out.old }

    ensures refused { IfErr result (PairsBreak bits.old (length out.old)) }
{
    let mut run = 4;
    let mut size_less_one = 1;
    let mut runs = run_row(4);
    let mut levels = level_row(1);
    let mut at = 0;
    while !bits.rest_is_zero() {
        let free = out.len() - at;
        let found = get_pair(heads, runs, levels, run, size_less_one, free, bits)?;
        at += found.run as usize;
        out[at] = found.level;
        at += 1;
        run = found.run;
        size_less_one = found.size_less_one;
        runs = found.runs;
        levels = found.levels;
    }
    Ok(())
}

/// A pair that was read, and the rows of the codes behind it.
#[derive(Drop)]
pub struct Found {
    pub run: u32,
    pub size_less_one: u32,
    pub level: i64,
    pub runs: u16,
    pub levels: u16,
}

/// Reads a pair, of which so many levels are free.
#[inline(always)]
pub fn get_pair(
    heads: Option<&Heads>,
    runs: u16,
    levels: u16,
    run: u32,
    size_less_one: u32,
    free: usize,
    bits: &mut BitReader<'_>,
) -> Result<Found, PartFault>
    requires rows { IsRunRow run runs × IsLevelRow size_less_one levels }
    ensures read { IfOk result (λ f. ReadsOne PairSpells (pair_state run size_less_one) bits.old bits.new (pair_of f.run f.level)) }
    ensures size { IfOk result (λ f. f.size_less_one ≡ unsigned_abs f.level - 1) }
    ensures rows { IfOk result (λ f. IsRunRow f.run f.runs × IsLevelRow f.size_less_one f.levels) }
    ensures inside { IfOk result (λ f. f.run < free) }

    ensures refused { IfErr result (NoPair (pair_state run size_less_one) free bits.old) }
{
    let at = bits.place();
    let run = read_run(heads, runs, run, bits)?;
    if run.run as usize >= free {
        return Err(PartFault::RunPast { at });
    }
    let level = read_level(heads, levels, size_less_one, bits)?;
    Ok(Found {
        run: run.run,
        size_less_one: level.size_less_one,
        level: level.level,
        runs: run.row,
        levels: level.row,
    })
}
