ghost use Rattle.std.specs.Prelude.{◌≡◌, ◌+◌, ◌-◌, ◌*◌, ◌/◌, ◌%◌, ◌^◌, ◌<◌, ◌≤◌, ℕ, slice_index, IfSome, IfNone};
ghost use Rattle.std.specs.Int.RustNames.{unsigned_abs};
ghost use Rattle.prores_codes.specs.Choices.{run_parameters, level_parameters};
ghost use Rattle.prores_codes.specs.Codes.{parameters};
ghost use Rattle.prores_codes.specs.Heads.{IsRunRow, IsRunHead, IsLevelRow, IsLevelHead, AreRunHeads, AreLevelHeads, ReadsPair, sign_bit};
ghost use Rattle.prores_codes.specs.inner.Forms.{IsFound};

use crate::choices::{level_code, run_code};
use crate::classes::{FIRST_RUNS, FIRST_SIZES, level_class, run_class};
use crate::code::Code;
use crate::forms::{Found, find};
use bit_io::BitReader;
use std::marker::Model;

/// A run that bits begin with.
#[derive(Clone, Copy, Debug, PartialEq, Eq)]
pub struct RunHead {
    /// The run.
    pub run: u8,
    /// The bits of its spelling, or 64 where the table doesn't say.
    pub size: u8,
    /// The row of the code of the next run.
    pub row: u16,
}

/// A level that bits begin with.
#[derive(Clone, Copy, Debug, PartialEq, Eq)]
pub struct LevelHead {
    /// The level, with its sign.
    pub level: i8,
    /// The bits of its spelling and of the sign, or 64 where the table doesn't say.
    pub size: u8,
    /// The row of the code of the next level.
    pub row: u16,
}

/// The row of the code that follows a run.
pub fn run_row(run: u32) -> u16
    ensures { IsRunRow run result }
{
    512 * u16::from(run_class(run))
}

/// The row of the code that follows a size less one.
pub fn level_row(size_less_one: u32) -> u16
    ensures { IsLevelRow size_less_one result }
{
    512 * u16::from(level_class(size_less_one))
}

/// The runs and levels that all nine bits begin with, in each of the six codes (own). It has 24 KB and is made of half a
/// million steps: make it once a run of the program, and lend it.
#[derive(Drop)]
pub struct Heads {
    runs: [RunHead; 3072],
    levels: [LevelHead; 3072],
}

impl Model for Heads {
    ghost use Rattle.prores_codes.specs.Heads.{AreRunHeads, AreLevelHeads};

    ghost Value = { Unit {0} };

    ghost view = { λ h. tt };

    ghost invariant = { λ h. AreRunHeads h.runs 3072 × AreLevelHeads h.levels 3072 };
}

impl Heads {
    /// Reads them all.
    pub fn new() -> Heads {
        Heads {
            runs: run_heads(),
            levels: level_heads(),
        }
    }

    /// The run that the next nine bits, as a number, begin with by the code of a row, which is that of the run before or
    /// of `run_row`.
    #[inline(always)]
    pub fn run(&self, row: usize, nine: usize) -> RunHead
        requires row { (row < 3072) × (row % 512 ≡ 0) }
        requires nine { nine < 512 }
        ensures { IsRunHead row nine result }
    {
        self.runs[row + nine]
    }

    /// The level that the next nine bits, as a number, begin with by the code of a row, which is that of the level before
    /// or of `level_row`.
    #[inline(always)]
    pub fn level(&self, row: usize, nine: usize) -> LevelHead
        requires row { (row < 3072) × (row % 512 ≡ 0) }
        requires nine { nine < 512 }
        ensures { IsLevelHead row nine result }
    {
        self.levels[row + nine]
    }

    /// Reads a run and the level behind it by the codes of two rows, where the table has both.
    #[inline(always)]
    pub fn read(
        &self,
        run_row: u16,
        level_row: u16,
        bits: &mut BitReader<'_>,
    ) -> Option<(RunHead, LevelHead)>
        requires run_row { (run_row < 3072) × (run_row % 512 ≡ 0) }
        requires level_row { (level_row < 3072) × (level_row % 512 ≡ 0) }
        ensures read { (run_before size_before : ℕ) → IsRunRow run_before run_row → IsLevelRow size_before level_row
            → IfSome result (λ heads. ReadsPair run_before size_before bits.old bits.new heads.0.run heads.1.level) }
        ensures next { IfSome result (λ heads. IsRunRow heads.0.run heads.0.row × IsLevelRow (unsigned_abs heads.1.level - 1) heads.1.row) }

        ensures unchanged { IfNone result (bits.new ≡ bits.old) }
    {
        let next = bits.peek();
        let one = self.run(usize::from(run_row), (next >> 23) as usize);
        let two = self.level(usize::from(level_row), behind(next, one.size));
        let size = one.size + two.size;
        if size > 32 {
            return None;
        }
        match bits.skip(size) {
            Ok(()) => Some((one, two)),
            Err(_) => None,
        }
    }
}

// The nine bits behind the first ones, where so few are first.
#[inline(always)]
fn behind(next: u32, size: u8) -> usize
    ensures nine { result < 512 }
    ensures value { size ≤ 9 → result ≡ next * 2 ^ size % 2 ^ 32 / 2 ^ 23 }
{
    (next << (size & 31) >> 23) as usize
}

fn run_heads() -> [RunHead; 3072]
    ensures { AreRunHeads result 3072 }
{
    let mut heads = [RunHead {
        run: 0,
        size: 0,
        row: 0,
    }; 3072];
    for k in 0..3072usize {
        heads[k] = run_head((k / 512) as u8, (k % 512) as u32);
    }
    heads
}

fn level_heads() -> [LevelHead; 3072]
    ensures { AreLevelHeads result 3072 }
{
    let mut heads = [LevelHead {
        level: 1,
        size: 0,
        row: 0,
    }; 3072];
    for k in 0..3072usize {
        heads[k] = level_head((k / 512) as u8, (k % 512) as u32);
    }
    heads
}

fn run_head(class: u8, nine: u32) -> RunHead
    requires class { class < 6 }
    requires nine { nine < 512 }
    ensures { IsRunHead (512 * class) nine result }
{
    let found = run_in(class, nine);
    RunHead {
        run: found.number as u8,
        size: marked(found.size, 0),
        row: run_row(found.number),
    }
}

fn level_head(class: u8, nine: u32) -> LevelHead
    requires class { class < 6 }
    requires nine { nine < 512 }
    ensures { IsLevelHead (512 * class) nine result }
{
    let found = level_in(class, nine);
    LevelHead {
        level: signed(found.number, (nine >> (8 - found.size)) % 2),
        size: marked(found.size, 1),
        row: level_row(found.number),
    }
}

// A spelling's size with that of what follows it, or 64 where there is no spelling.
fn marked(size: u8, more: u8) -> u8
    requires { size + more ≤ 9 }
    ensures small { result ≤ 64 }
    ensures marked { result < 64 → (0 < size) × (result ≡ size + more) }
{
    if size == 0 { 64 } else { size + more }
}

fn signed(size_less_one: u32, sign: u32) -> i8
    requires size { size_less_one < 64 }
    requires sign { sign < 2 }
    ensures size { unsigned_abs result ≡ size_less_one + 1 }
    ensures sign { sign_bit result ≡ sign }
{
    let size = size_less_one as i8;
    if sign == 1 { -1 - size } else { size + 1 }
}

fn run_in(class: u8, nine: u32) -> Found
    requires class { class < 6 }
    requires nine { nine < 512 }
    ensures size { result.size ≤ 9 }
    ensures small { result.number < 64 }
    ensures found { 0 < result.size → IsFound (run_parameters (slice_index FIRST_RUNS class)) (nine * 2 ^ 23) result.size result.number }
{
    small_head(run_code(FIRST_RUNS[class as usize]), nine, 9)
}

fn level_in(class: u8, nine: u32) -> Found
    requires class { class < 6 }
    requires nine { nine < 512 }
    ensures size { result.size ≤ 8 }
    ensures small { result.number < 64 }
    ensures found { 0 < result.size → IsFound (level_parameters (slice_index FIRST_SIZES class)) (nine * 2 ^ 23) result.size result.number }
{
    small_head(level_code(FIRST_SIZES[class as usize]), nine, 8)
}

// The number that nine bits begin with, where it is small and its spelling has so many bits at most, or size 0.
fn small_head(code: Code, nine: u32, most: u8) -> Found
    requires nine { nine < 512 }
    ensures size { result.size ≤ most }
    ensures small { result.number < 64 }
    ensures found { 0 < result.size → IsFound (parameters code) (nine * 2 ^ 23) result.size result.number }
{
    if let Some(found) = find(code, nine << 23) {
        if found.size <= most && found.number < 64 {
            return found;
        }
    }
    Found { size: 0, number: 0 }
}

#[cfg(test)]
mod tests {
    use super::*;

    #[test]
    fn nearly_all_nine_bits_are_answered(rt: HostRuntime) {
        let heads = Heads::new();
        let mut runs = 0u32;
        let mut levels = 0u32;
        for k in 0..3072usize {
            let row = k - k % 512;
            runs = runs.saturating_add(u32::from(heads.run(row, k % 512).size < 64));
            levels = levels.saturating_add(u32::from(heads.level(row, k % 512).size < 64));
        }
        // counted by another program: spellings of 9 bits at most, of 8 before a sign, of numbers below 64
        assert_eq!(rt; (runs, levels), (2952, 2896));
    }

    #[test]
    fn heads_are_read_with_their_signs(rt: HostRuntime) {
        let heads = Heads::new();
        // by hand: 00100 and four more bits; 01, 1 and six more
        let run = heads.run(usize::from(run_row(4)), 0b0_0100_1111);
        assert_eq!(rt; (run.run, run.size, run.row), (3, 5, run_row(2)));
        let level = heads.level(usize::from(level_row(1)), 0b0_1101_0101);
        assert_eq!(rt; (level.level, level.size, level.row), (-2, 3, level_row(1)));
    }

    #[test]
    fn a_run_and_a_level_are_read_in_one_step(rt: HostRuntime) {
        // by hand: 00100, 01, 1 and five zeros
        let heads = Heads::new();
        let mut reader = BitReader::new(&[0x23, 0]);
        let (run, level) = (run_row(4), level_row(1));
        match heads.read(run, level, &mut reader) {
            Some((one, two)) => assert_eq!(rt; (one.run, two.level), (3, -2)),
            None => assert!(rt; false),
        }
        assert!(rt; heads.read(run, level, &mut reader).is_none());
        assert_eq!(rt; reader.place(), 8);
    }
}
