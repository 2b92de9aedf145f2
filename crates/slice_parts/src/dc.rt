//! The DC levels of a part's blocks.

ghost use Rattle.std.specs.Prelude.{◌≡◌, ◌≤◌, ◌<◌, ◌+◌, ◌-◌, ◌*◌, ◌^◌, ◌↔◌, ◌-ℤ◌, ℕ, ℤ, List, length, slice_index, IsOk, IfOk, IfErr, OnOk};
ghost use Rattle.std.specs.Int.RustNames.{unsigned_abs};
ghost use Rattle.bit_io.specs.Written.{lender, room, Puts};
ghost use Rattle.prores_codes.specs.Codes.{Fits, parameters};
ghost use Rattle.prores_codes.specs.Choices.{dc_parameters};
ghost use Rattle.prores_scan.specs.ScaledLevels.{signed_of};
ghost use Rattle.slice_parts.specs.Joined.{ReadsAll};
ghost use Rattle.slice_parts.specs.Dc.{DcSpells, IsDc, turned, dc_number, dc_next, dc_code_of};
ghost use Rattle.slice_parts.specs.Dc.DcState.{First, Behind};
ghost use Rattle.prores_scan.specs.HalfSteps.{AreAtMost};
ghost use Rattle.slice_parts.specs.Component.{signed_levels, level_at};
ghost use Rattle.slice_parts.specs.Faults.{NoCode, DcBreaks};
ghost use Rattle.slice_parts.specs.inner.Progress.{ReadsOne};

use crate::fault::PartFault;
use crate::symbols::read_number;
use bit_io::{BitReader, BitWriter, Full};
use prores_codes::{Code, dc_code, first_code, fold, small_fits, unfold, write};
use prores_scan::signed;

/// Writes DC levels, each given as a size with its sign as the last bit.
pub fn write_dc(numbers: &[u16], out: &mut BitWriter<'_>) -> Result<(), Full>
    requires some { 1 ≤ length numbers.now }
    requires small { AreAtMost (2 ^ 14 + 1) numbers.now }
    ensures same_reference { lender out.new ≡ lender out.old }
    ensures accepted { (s : List ℕ) → IsDc First (signed_levels numbers.now) s → (IsOk result ↔ (length s ≤ room out.old)) }
    ensures spelled { (s : List ℕ) → IsDc First (signed_levels numbers.now) s → OnOk result (Puts out.old out.new s) }
{
    put_first(numbers, out)?;
    let mut difference = 3;
    for k in 1..numbers.len() {
        difference = put_level(numbers, k, difference, out)?;
    }
    Ok(())
}

/// Writes the first level of all.
fn put_first(numbers: &[u16], out: &mut BitWriter<'_>) -> Result<(), Full>
    requires some { 1 ≤ length numbers.now }
    requires small { AreAtMost (2 ^ 14 + 1) numbers.now }
    ensures same_reference { lender out.new ≡ lender out.old }
    ensures accepted { (s : List ℕ) → DcSpells First s (level_at (signed_levels numbers.now) 0) → (IsOk result ↔ (length s ≤ room out.old)) }
    ensures spelled { (s : List ℕ) → DcSpells First s (level_at (signed_levels numbers.now) 0) → OnOk result (Puts out.old out.new s) }
{
    let n = first_number(number_level(numbers, 0));
    let code = first_code();
    small_fits(code, n, 16);
    write(code, n, out)
}

/// Writes the level at a place behind the one before, and answers the difference.
fn put_level(
    numbers: &[u16],
    k: usize,
    difference: i64,
    out: &mut BitWriter<'_>,
) -> Result<i64, Full>
    requires place { (1 ≤ k) × (k < length numbers.now) }
    requires small { AreAtMost (2 ^ 14 + 1) numbers.now }
    ensures same_reference { lender out.new ≡ lender out.old }
    ensures accepted { (s : List ℕ) → DcSpells (Behind (level_at (signed_levels numbers.now) (k - 1)) difference) s (level_at (signed_levels numbers.now) k)
        → (IsOk result ↔ (length s ≤ room out.old)) }
    ensures spelled { (s : List ℕ) → DcSpells (Behind (level_at (signed_levels numbers.now) (k - 1)) difference) s (level_at (signed_levels numbers.now) k)
        → OnOk result (Puts out.old out.new s) }
    ensures difference { IfOk result (λ d. d ≡ level_at (signed_levels numbers.now) k -ℤ level_at (signed_levels numbers.now) (k - 1)) }
{
    let level = number_level(numbers, k - 1);
    let next = number_level(numbers, k);
    let n = number(level, difference, next);
    let code = difference_code(difference, n);
    write(code, n, out)?;
    Ok(next - level)
}

/// The level at a place.
fn number_level(numbers: &[u16], k: usize) -> i64
    requires place { k < length numbers.now }
    requires small { AreAtMost (2 ^ 14 + 1) numbers.now }
    ensures level { result ≡ level_at (signed_levels numbers.now) k }
    ensures small { unsigned_abs result ≤ 2 ^ 13 }
{
    i64::from(signed(numbers[k]))
}

/// The code of a difference behind another one, by which the number has a spelling.
fn difference_code(difference: i64, n: u32) -> Code
    requires { n ≤ 2 ^ 15 }
    ensures code { parameters result ≡ dc_parameters (unsigned_abs difference) }
    ensures fits { Fits (parameters result) n }
{
    let code = dc_code(difference);
    small_fits(code, n, 16);
    code
}

/// The number of a level behind another one.
fn number(level: i64, difference: i64, next: i64) -> u32
    requires before { unsigned_abs level ≤ 2 ^ 13 }
    requires next { unsigned_abs next ≤ 2 ^ 13 }
    ensures number { result ≡ dc_number (Behind level difference) next }
    ensures small { result ≤ 2 ^ 15 }
{
    fold(turned(difference, next - level) as i32)
}

/// The number of the first level of all.
fn first_number(level: i64) -> u32
    requires { unsigned_abs level ≤ 2 ^ 13 }
    ensures number { result ≡ dc_number First level }
    ensures small { result ≤ 2 ^ 15 }
{
    fold(level as i32)
}

/// A difference, negated where the one before is negative.
fn turned(difference: i64, step: i64) -> i64
    requires { unsigned_abs step ≤ 2 ^ 31 }
    ensures turned { result ≡ turned difference step }
    ensures size { unsigned_abs result ≡ unsigned_abs step }
{
    if difference < 0 { -step } else { step }
}

/// Reads DC levels.
pub fn read_dc(bits: &mut BitReader<'_>, out: &mut [i64]) -> Result<(), PartFault>
    requires some { 1 ≤ length out.old }
    requires few { length out.old ≤ 32 }
    ensures read { OnOk result (ReadsAll DcSpells dc_next First bits.old bits.new out.new) }
    ensures long { length out.new ≡ length out.old }

    ensures refused { IfErr result (DcBreaks bits.old (length out.old)) }
{
    let mut level = get_first(bits)?;
    out[0] = level;
    let mut difference = 3;
    for k in 1..out.len() {
        let next = get_level(level, difference, bits)?;
        out[k] = next;
        difference = next - level;
        level = next;
    }
    Ok(())
}

/// Reads the first level of all.
fn get_first(bits: &mut BitReader<'_>) -> Result<i64, PartFault>
    ensures read { IfOk result (ReadsOne DcSpells First bits.old bits.new) }
    ensures near { IfOk result (λ next. unsigned_abs next ≤ 2 ^ 31) }
    ensures refused { IfErr result (NoCode (dc_code_of First) bits.old) }
{
    let n = read_number(first_code(), bits)?;
    Ok(i64::from(unfold(n)))
}

/// Reads a level behind another one.
fn get_level(level: i64, difference: i64, bits: &mut BitReader<'_>) -> Result<i64, PartFault>
    requires { unsigned_abs level < 2 ^ 40 }
    ensures read { IfOk result (ReadsOne DcSpells (Behind level difference) bits.old bits.new) }
    ensures near { IfOk result (λ next. unsigned_abs (next -ℤ level) ≤ 2 ^ 31) }
    ensures refused { IfErr result (NoCode (dc_code_of (Behind level difference)) bits.old) }
{
    let n = read_number(dc_code(difference), bits)?;
    Ok(level_of(level, difference, n))
}

/// The level whose number follows another one.
fn level_of(level: i64, difference: i64, n: u32) -> i64
    requires { unsigned_abs level < 2 ^ 40 }
    ensures number { dc_number (Behind level difference) result ≡ n }
    ensures near { unsigned_abs (result -ℤ level) ≤ 2 ^ 31 }
{
    level + turned(difference, i64::from(unfold(n)))
}
