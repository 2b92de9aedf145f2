//! A part, written and read.

ghost use Rattle.std.specs.Prelude.{◌≡◌, ◌≤◌, ◌+◌, ◌*◌, ◌^◌, ◌↔◌, ℕ, ℤ, List, pos, length, take, drop, replicate, IsOk, IfErr, OnOk, IsSome, IfSome};
ghost use Rattle.bit_io.specs.Bits.{bits_of, bytes_for};
ghost use Rattle.bit_io.specs.Written.{lender, room, Puts};
ghost use Rattle.prores_scan.specs.HalfSteps.{AreAtMost};
ghost use Rattle.slice_parts.specs.Component.{signed_levels, IsSpelled, IsComponent, IsPadded};
ghost use Rattle.slice_parts.specs.Bound.{AreLeft};
ghost use Rattle.slice_parts.specs.Faults.{Breaks};

use crate::bound::Least;
use crate::dc::{read_dc, write_dc};
use crate::fault::PartFault;
use crate::pairs::{read_pairs, write_pairs};
use bit_io::{BitReader, BitWriter, Full};
use prores_codes::{Heads, Pairs};

/// Writes a part's bytes, and answers how many they are, or none where they don't fit. The levels are interleaved, each
/// given as a size with its sign as the last bit (1 stands for 0 as well), 64 for each of the 1 to 32 blocks. Bytes of
/// `out` behind the part, and all of them where it doesn't fit, may have changed.
pub fn write_part(numbers: &[u16], blocks: usize, out: &mut [u8]) -> Option<usize>
    requires blocks { (1 ≤ blocks) × (blocks ≤ 32) }
    requires long { length numbers.now ≡ 64 * blocks }
    requires small { AreAtMost (2 ^ 14 + 1) numbers.now }
    ensures accepted { (s : List ℕ) → IsSpelled blocks (signed_levels numbers.now) s → (IsSome result ↔ (bytes_for (length s) ≤ length out.old)) }
    ensures written { (s : List ℕ) → IsSpelled blocks (signed_levels numbers.now) s → IfSome result (λ used. IsPadded s (take used out.new)) }
    ensures used { (s : List ℕ) → IsSpelled blocks (signed_levels numbers.now) s → IfSome result (λ used. used ≡ bytes_for (length s)) }
    ensures within { IfSome result (λ used. used ≤ length out.new) }
{
    write_by(None, &Least::none().left, numbers, blocks, out)
}

/// `write_part` with the tables of short pairs, which are made once, and with what is left of the part at least (`Least`),
/// so that it stops early where it doesn't fit: faster, and the same bytes.
pub fn write_part_with(
    tables: &Pairs,
    left: &[u16; 33],
    numbers: &[u16],
    blocks: usize,
    out: &mut [u8],
) -> Option<usize>
    requires blocks { (1 ≤ blocks) × (blocks ≤ 32) }
    requires long { length numbers.now ≡ 64 * blocks }
    requires small { AreAtMost (2 ^ 14 + 1) numbers.now }
    requires left { AreLeft (signed_levels numbers.now) left.now }
    ensures accepted { (s : List ℕ) → IsSpelled blocks (signed_levels numbers.now) s → (IsSome result ↔ (bytes_for (length s) ≤ length out.old)) }
    ensures written { (s : List ℕ) → IsSpelled blocks (signed_levels numbers.now) s → IfSome result (λ used. IsPadded s (take used out.new)) }
    ensures used { (s : List ℕ) → IsSpelled blocks (signed_levels numbers.now) s → IfSome result (λ used. used ≡ bytes_for (length s)) }
    ensures within { IfSome result (λ used. used ≤ length out.new) }
{
    write_by(Some(tables), left, numbers, blocks, out)
}

fn write_by(
    tables: Option<&Pairs>,
    left: &[u16; 33],
    numbers: &[u16],
    blocks: usize,
    out: &mut [u8],
) -> Option<usize>
    requires blocks { (1 ≤ blocks) × (blocks ≤ 32) }
    requires long { length numbers.now ≡ 64 * blocks }
    requires small { AreAtMost (2 ^ 14 + 1) numbers.now }
    requires left { AreLeft (signed_levels numbers.now) left.now }
    ensures accepted { (s : List ℕ) → IsSpelled blocks (signed_levels numbers.now) s → (IsSome result ↔ (bytes_for (length s) ≤ length out.old)) }
    ensures written { (s : List ℕ) → IsSpelled blocks (signed_levels numbers.now) s → IfSome result (λ used. IsPadded s (take used out.new)) }
    ensures used { (s : List ℕ) → IsSpelled blocks (signed_levels numbers.now) s → IfSome result (λ used. used ≡ bytes_for (length s)) }
    ensures within { IfSome result (λ used. used ≤ length out.new) }
{
    let mut writer = BitWriter::new(out);
    match put_part(tables, left, numbers, blocks, &mut writer) {
        Ok(()) => Some(writer.pad()),
        Err(_) => None,
    }
}

/// Puts a part's bits.
fn put_part(
    tables: Option<&Pairs>,
    left: &[u16; 33],
    numbers: &[u16],
    blocks: usize,
    out: &mut BitWriter<'_>,
) -> Result<(), Full>
    requires blocks { (1 ≤ blocks) × (blocks ≤ 32) }
    requires long { length numbers.now ≡ 64 * blocks }
    requires small { AreAtMost (2 ^ 14 + 1) numbers.now }
    requires left { AreLeft (signed_levels numbers.now) left.now }
    ensures same_reference { lender out.new ≡ lender out.old }
    ensures accepted { (s : List ℕ) → IsSpelled blocks (signed_levels numbers.now) s → (IsOk result ↔ (length s ≤ room out.old)) }
    ensures spelled { (s : List ℕ) → IsSpelled blocks (signed_levels numbers.now) s → OnOk result (Puts out.old out.new s) }
{
    write_dc(&numbers[..blocks], out)?;
    write_pairs(tables, left, numbers, blocks, out)?;
    Ok(())
}

/// Reads a part into levels that are zero, 64 for each of the 1 to 32 blocks, interleaved. After a fault `out` holds
/// anything.
pub fn read_part(bytes: &[u8], blocks: usize, out: &mut [i64]) -> Result<(), PartFault>
    requires blocks { (1 ≤ blocks) × (blocks ≤ 32) }
    requires long { length out.old ≡ 64 * blocks }
    requires zeros { out.old ≡ replicate (length out.old) (pos 0) }
    ensures read { OnOk result (IsComponent blocks (bits_of bytes.now) out.new) }
    ensures again { (levels : List ℤ) → IsComponent blocks (bits_of bytes.now) levels → IsOk result × (out.new ≡ levels) }

    ensures refused { IfErr result (Breaks blocks (bits_of bytes.now)) }
{
    read_by(None, bytes, blocks, out)
}

/// `read_part` with the tables of short codes, which are made once: faster, and the same levels and faults.
pub fn read_part_with(
    tables: &Heads,
    bytes: &[u8],
    blocks: usize,
    out: &mut [i64],
) -> Result<(), PartFault>
    requires blocks { (1 ≤ blocks) × (blocks ≤ 32) }
    requires long { length out.old ≡ 64 * blocks }
    requires zeros { out.old ≡ replicate (length out.old) (pos 0) }
    ensures read { OnOk result (IsComponent blocks (bits_of bytes.now) out.new) }
    ensures again { (levels : List ℤ) → IsComponent blocks (bits_of bytes.now) levels → IsOk result × (out.new ≡ levels) }

    ensures refused { IfErr result (Breaks blocks (bits_of bytes.now)) }
{
    read_by(Some(tables), bytes, blocks, out)
}

fn read_by(
    tables: Option<&Heads>,
    bytes: &[u8],
    blocks: usize,
    out: &mut [i64],
) -> Result<(), PartFault>
    requires blocks { (1 ≤ blocks) × (blocks ≤ 32) }
    requires long { length out.old ≡ 64 * blocks }
    requires zeros { out.old ≡ replicate (length out.old) (pos 0) }
    ensures read { OnOk result (IsComponent blocks (bits_of bytes.now) out.new) }
    ensures again { (levels : List ℤ) → IsComponent blocks (bits_of bytes.now) levels → IsOk result × (out.new ≡ levels) }

    ensures refused { IfErr result (Breaks blocks (bits_of bytes.now)) }
{
    match read_levels(tables, bytes, blocks, out) {
        Ok(()) => Ok(()),
        Err(fault) => Err(fault),
    }
}

/// Reads DC levels and pairs.
fn read_levels(
    tables: Option<&Heads>,
    bytes: &[u8],
    blocks: usize,
    out: &mut [i64],
) -> Result<(), PartFault>
    requires blocks { (1 ≤ blocks) × (blocks ≤ 32) }
    requires long { length out.old ≡ 64 * blocks }
    requires zeros { out.old ≡ replicate (length out.old) (pos 0) }
    ensures read { OnOk result (IsComponent blocks (bits_of bytes.now) out.new) }
    ensures refused { IfErr result (Breaks blocks (bits_of bytes.now)) }
{
    let mut bits = BitReader::new(bytes);
    read_dc(&mut bits, &mut out[..blocks])?;
    read_pairs(tables, &mut bits, &mut out[blocks..])?;
    Ok(())
}

#[cfg(test)]
mod tests {
    use super::*;
    use prores_scan::signed;

    // Blocks, the entries that aren't 0 (each a size with its sign as the last bit), and the part's bytes as another
    // program wrote them.
    const ROWS: [(usize, &[(usize, u16)], &[u8]); 9] = [
        // DC levels 0, 1, 0, 1
        (4, &[(1, 2), (3, 2)], &[0x82, 0xbc]),
        // a run of 251, and 1 at the last entry
        (4, &[(255, 2)], &[0x82, 0x30, 0x1f, 0x90]),
        // -4065 and 4057 in all blocks
        (
            4,
            &[(0, 8131), (1, 8131), (2, 8131), (3, 8131)],
            &[0x01, 0xfe, 0x18, 0xc0],
        ),
        (2, &[(0, 8131), (1, 8131)], &[0x01, 0xfe, 0x18]),
        (
            4,
            &[(0, 8114), (1, 8114), (2, 8114), (3, 8114)],
            &[0x01, 0xfd, 0x28, 0xc0],
        ),
        (32, &[], &[0x82, 0x3f, 0xff, 0xff, 0xff]),
        // 1 stands for 0 as well
        (1, &[(0, 1), (63, 1)], &[0x80]),
        // 100, -50, 3, -1, then -2, 1 and -9
        (
            2,
            &[
                (0, 200),
                (1, 101),
                (2, 6),
                (3, 3),
                (7, 5),
                (30, 2),
                (127, 19),
            ],
            &[0x3a, 0x01, 0x33, 0x93, 0x89, 0x82, 0xd0, 0x64, 0x09, 0x80],
        ),
        // the greatest sizes
        (
            8,
            &[
                (0, 16384),
                (1, 16385),
                (2, 16384),
                (3, 16384),
                (4, 16385),
                (8, 16385),
                (9, 16384),
                (511, 3),
            ],
            &[
                0x00, 0x40, 0x20, 0x00, 0x08, 0x00, 0x70, 0x00, 0x80, 0x07, 0x80, 0x00, 0x10, 0x00,
                0x00, 0x02, 0x00, 0x3c, 0x60, 0x00, 0xff, 0xfe, 0x00, 0x20, 0x03, 0x00, 0x1f, 0x49,
            ],
        ),
    ];

    /// The number at an entry.
    fn number_at(entries: &[(usize, u16)], entry: usize) -> u16
        ensures { result ≤ 2 ^ 14 + 1 }
    {
        for &(at, number) in entries {
            if at == entry && number <= 16385 {
                return number;
            }
        }
        0
    }

    fn put_numbers(entries: &[(usize, u16)], out: &mut [u16])
        ensures small { AreAtMost (2 ^ 14 + 1) out.new }
        ensures long { length out.new ≡ length out.old }
    {
        for k in 0..out.len() {
            out[k] = number_at(entries, k);
        }
    }

    fn written(
        tables: Option<&Pairs>,
        blocks: usize,
        entries: &[(usize, u16)],
        out: &mut [u8],
    ) -> Option<usize>
        requires { (1 ≤ blocks) × (blocks ≤ 32) }
    {
        let mut all = [0u16; 2048];
        let numbers = &mut all[..64 * blocks];
        put_numbers(entries, numbers);
        match tables {
            Some(tables) => write_part_with(tables, &Least::none().left, numbers, blocks, out),
            None => write_part(numbers, blocks, out),
        }
    }

    /// Whether a part's levels are those of the entries.
    fn reads(
        tables: Option<&Heads>,
        blocks: usize,
        entries: &[(usize, u16)],
        bytes: &[u8],
    ) -> Result<bool, PartFault>
        requires { (1 ≤ blocks) × (blocks ≤ 32) }
    {
        let mut all = [0i64; 2048];
        let levels = &mut all[..64 * blocks];
        match tables {
            Some(tables) => read_part_with(tables, bytes, blocks, levels)?,
            None => read_part(bytes, blocks, levels)?,
        }
        for k in 0..levels.len() {
            if levels[k] != i64::from(signed(number_at(entries, k))) {
                return Ok(false);
            }
        }
        Ok(true)
    }

    #[test]
    fn parts_are_the_bytes_that_another_program_wrote(rt: HostRuntime) {
        let tables = Pairs::new();
        let heads = Heads::new();
        for (blocks, entries, bytes) in ROWS {
            assert!(rt; 1 <= blocks && blocks <= 32 && 1 <= bytes.len() && bytes.len() <= 64);
            let mut out = [0u8; 64];
            assert_eq!(rt;
                written(None, blocks, entries, &mut out),
                Some(bytes.len()),
                "{bytes:?}"
            );
            assert_eq!(rt; &out[..bytes.len()], bytes);
            let mut again = [0u8; 64];
            assert_eq!(rt;
                written(Some(&tables), blocks, entries, &mut again),
                Some(bytes.len())
            );
            assert_eq!(rt; again, out);
            assert_eq!(rt;
                written(Some(&tables), blocks, entries, &mut out[..bytes.len() - 1]),
                None
            );
            assert_eq!(rt; reads(None, blocks, entries, bytes), Ok(true), "{bytes:?}");
            assert_eq!(rt;
                reads(Some(&heads), blocks, entries, bytes),
                Ok(true),
                "{bytes:?}"
            );
        }
    }

    #[test]
    fn the_first_fault_is_named(rt: HostRuntime) {
        let heads = Heads::new();
        let cases: [(&[u8], PartFault); 7] = [
            (&[], PartFault::BitsEnd { at: 0 }),
            (&[0, 0, 0], PartFault::TooLong { at: 0 }),
            // zeros behind the first DC level are no end
            (&[0x80], PartFault::BitsEnd { at: 6 }),
            (&[0x80, 0, 0], PartFault::TooLong { at: 6 }),
            // a run of 252
            (&[0x82, 0x30, 0x1f, 0xb0], PartFault::RunPast { at: 12 }),
            // a run of 0 and no size, a run of 1 and a size of 1 and no sign
            (&[0x82, 0x38], PartFault::BitsEnd { at: 13 }),
            (&[0x82, 0x35], PartFault::BitsEnd { at: 16 }),
        ];
        for (bytes, fault) in cases {
            assert_eq!(rt; reads(None, 4, &[], bytes), Err(fault), "{bytes:?}");
            assert_eq!(rt; reads(Some(&heads), 4, &[], bytes), Err(fault), "{bytes:?}");
        }
    }
}
