//! Numbers, runs and levels, read by tables where those say, and else code by code.

ghost use Rattle.std.specs.Prelude.{◌≡◌, ◌≢◌, ◌≤◌, ◌<◌, ◌+◌, ◌-◌, ◌%◌, ◌∷◌, [], ℕ, pos, IfOk, IfErr, IfSome, IfNone};
ghost use Rattle.std.specs.Int.RustNames.{unsigned_abs};
ghost use Rattle.bit_io.specs.Read.{Takes, place_number};
ghost use Rattle.prores_codes.specs.Codes.{parameters};
ghost use Rattle.prores_codes.specs.Choices.{run_parameters, level_parameters};
ghost use Rattle.prores_codes.specs.Heads.{IsRunRow, IsLevelRow, SpellsLevel};
ghost use Rattle.prores_codes.specs.Spellings.{Reads};
ghost use Rattle.slice_parts.specs.Pairs.{sign_bit};
ghost use Rattle.slice_parts.specs.Faults.{NoCode};
ghost use Rattle.slice_parts.specs.inner.Progress.{ReadsOne, NoLevel};

use crate::fault::{PartFault, of_code};
use bit_io::{BitReader, BitsEnd};
use prores_codes::{Code, Heads, level_code, level_row, read, run_code, run_row};

/// Reads a number.
pub fn read_number(code: Code, bits: &mut BitReader<'_>) -> Result<u32, PartFault>
    ensures read { IfOk result (Reads (parameters code) bits.old bits.new) }
    ensures refused { IfErr result (NoCode (parameters code) bits.old) }
{
    match read(code, bits) {
        Ok(n) => Ok(n),
        Err(fault) => Err(of_code(fault)),
    }
}

/// A run that was read.
#[derive(Drop)]
pub struct RunRead {
    pub run: u32,
    /// The row of the code of the next run.
    pub row: u16,
}

/// Reads a run behind one whose row is given.
#[inline(always)]
pub fn read_run(
    heads: Option<&Heads>,
    row: u16,
    run: u32,
    bits: &mut BitReader<'_>,
) -> Result<RunRead, PartFault>
    requires { IsRunRow run row }
    ensures read { IfOk result (λ f. Reads (run_parameters run) bits.old bits.new f.run) }
    ensures row { IfOk result (λ f. IsRunRow f.run f.row) }
    ensures refused { IfErr result (NoCode (run_parameters run) bits.old) }
{
    if let Some(heads) = heads {
        if let Some(found) = head_run(heads, row, bits) {
            return Ok(found);
        }
    }
    plain_run(run, bits)
}

/// Reads a run by the table, or none where it doesn't say.
#[inline(always)]
fn head_run(heads: &Heads, row: u16, bits: &mut BitReader<'_>) -> Option<RunRead>
    requires { (row < 3072) × (row % 512 ≡ 0) }
    ensures read { IfSome result (λ f. (before : ℕ) → IsRunRow before row → Reads (run_parameters before) bits.old bits.new f.run) }
    ensures row { IfSome result (λ f. IsRunRow f.run f.row) }
    ensures unchanged { IfNone result (bits.new ≡ bits.old) }
{
    let head = heads.run(usize::from(row), (bits.peek() >> 23) as usize);
    if head.size >= 64 {
        return None;
    }
    match bits.skip(head.size) {
        Ok(()) => Some(RunRead {
            run: u32::from(head.run),
            row: head.row,
        }),
        Err(_) => None,
    }
}

/// Reads a run by its code.
fn plain_run(run: u32, bits: &mut BitReader<'_>) -> Result<RunRead, PartFault>
    ensures read { IfOk result (λ f. Reads (run_parameters run) bits.old bits.new f.run) }
    ensures row { IfOk result (λ f. IsRunRow f.run f.row) }
    ensures refused { IfErr result (NoCode (run_parameters run) bits.old) }
{
    let run = read_number(run_code(run), bits)?;
    Ok(RunRead {
        run,
        row: run_row(run),
    })
}

/// A level that was read.
#[derive(Drop)]
pub struct LevelRead {
    pub level: i64,
    pub size_less_one: u32,
    /// The row of the code of the next level.
    pub row: u16,
}

/// Reads a level behind one whose row is given.
#[inline(always)]
pub fn read_level(
    heads: Option<&Heads>,
    row: u16,
    size_less_one: u32,
    bits: &mut BitReader<'_>,
) -> Result<LevelRead, PartFault>
    requires { IsLevelRow size_less_one row }
    ensures read { IfOk result (λ f. ReadsOne SpellsLevel (level_parameters size_less_one) bits.old bits.new f.level) }
    ensures size { IfOk result (λ f. f.size_less_one ≡ unsigned_abs f.level - 1) }
    ensures row { IfOk result (λ f. IsLevelRow f.size_less_one f.row) }
    ensures refused { IfErr result (NoLevel (level_parameters size_less_one) bits.old) }
{
    if let Some(heads) = heads {
        if let Some(found) = head_level(heads, row, bits) {
            return Ok(found);
        }
    }
    plain_level(size_less_one, bits)
}

/// Reads a level by the table, or none where it doesn't say.
#[inline(always)]
fn head_level(heads: &Heads, row: u16, bits: &mut BitReader<'_>) -> Option<LevelRead>
    requires { (row < 3072) × (row % 512 ≡ 0) }
    ensures read { IfSome result (λ f. (before : ℕ) → IsLevelRow before row → ReadsOne SpellsLevel (level_parameters before) bits.old bits.new f.level) }
    ensures size { IfSome result (λ f. f.size_less_one ≡ unsigned_abs f.level - 1) }
    ensures row { IfSome result (λ f. IsLevelRow f.size_less_one f.row) }
    ensures unchanged { IfNone result (bits.new ≡ bits.old) }
{
    let head = heads.level(usize::from(row), (bits.peek() >> 23) as usize);
    if head.size >= 64 {
        return None;
    }
    match bits.skip(head.size) {
        Ok(()) => Some(LevelRead {
            level: i64::from(head.level),
            size_less_one: u32::from(head.level.unsigned_abs()).saturating_sub(1),
            row: head.row,
        }),
        Err(_) => None,
    }
}

/// Reads a level by its code.
fn plain_level(size_less_one: u32, bits: &mut BitReader<'_>) -> Result<LevelRead, PartFault>
    ensures read { IfOk result (λ f. ReadsOne SpellsLevel (level_parameters size_less_one) bits.old bits.new f.level) }
    ensures size { IfOk result (λ f. f.size_less_one ≡ unsigned_abs f.level - 1) }
    ensures row { IfOk result (λ f. IsLevelRow f.size_less_one f.row) }
    ensures refused { IfErr result (NoLevel (level_parameters size_less_one) bits.old) }
{
    let size_less_one = read_number(level_code(size_less_one), bits)?;
    let sign = read_sign(bits)?;
    Ok(LevelRead {
        level: level_of(size_less_one, sign),
        size_less_one,
        row: level_row(size_less_one),
    })
}

/// Reads the sign bit.
fn read_sign(bits: &mut BitReader<'_>) -> Result<u32, PartFault>
    ensures read { IfOk result (λ sign. Takes bits.old bits.new (sign ∷ [])) }
    ensures bit { IfOk result (λ sign. sign ≤ 1) }

    ensures refused { IfErr result (λ fault. fault ≡ PartFault.BitsEnd (place_number bits.old.place)) }
    ensures ended { IfErr result (λ fault. bits.old.left ≡ []) }
{
    match bits.get(1) {
        Ok(sign) => Ok(sign),
        Err(BitsEnd { at }) => Err(PartFault::BitsEnd { at }),
    }
}

/// The level of a size less one and a sign bit.
fn level_of(size_less_one: u32, sign: u32) -> i64
    requires { sign ≤ 1 }
    ensures size { unsigned_abs result ≡ size_less_one + 1 }
    ensures sign { sign_bit result ≡ sign }
    ensures some { result ≢ pos 0 }
{
    let size = i64::from(size_less_one) + 1;
    if sign == 0 { size } else { -size }
}
