ghost use Rattle.std.specs.Prelude.{◌≡◌, ◌↔◌, ◌+◌, ◌*◌, ◌^◌, ◌≤◌, ◌++◌, ℕ, List, Ok, length, IsTrue, IsOk, IfOk, IfErr, OnOk, OnErr};
ghost use Rattle.bit_io.specs.Written.{lender, room, Puts, Overfills};
ghost use Rattle.prores_codes.specs.Codes.{Spells, Fits, parameters};
ghost use Rattle.prores_codes.specs.Spellings.{Reads, Refuses};

use crate::code::Code;
use crate::fault::CodeFault;
use crate::forms::{find, form_of, has_form, many_zeros};
use bit_io::{BitReader, BitWriter, BitsEnd, Full};

/// Whether a number's spelling has at most 32 bits.
pub fn fits(code: Code, n: u32) -> bool
    ensures { IsTrue result ↔ Fits (parameters code) n }
{
    has_form(code, n)
}

/// Shows that a small number has a spelling: where the number and 2^e together have at most `digits` binary digits, and
/// a long spelling of so many has at most 32 bits.
pub fn small_fits(code: Code, n: u32, digits: u8)
    requires small { n + 2 ^ code.e ≤ 2 ^ digits }
    requires short { code.a + 2 * digits ≤ 32 + code.e }
    ensures { Fits (parameters code) n }
{
    let _ = (code, n, digits);
}

/// Writes the spelling of a number.
pub fn write(code: Code, n: u32, out: &mut BitWriter<'_>) -> Result<(), Full>
    requires { Fits (parameters code) n }
    ensures same_reference { lender out.new ≡ lender out.old }
    ensures accepted { (spelling : List ℕ) → Spells (parameters code) spelling n
        → (IsOk result ↔ (length spelling ≤ room out.old)) }
    ensures spelled { (spelling : List ℕ) → Spells (parameters code) spelling n
        → OnOk result (Puts out.old out.new spelling) }

    ensures refused { (spelling : List ℕ) → Spells (parameters code) spelling n
        → IfErr result (Overfills out.old (length spelling)) }
    ensures unchanged { OnErr result (out.new ≡ out.old) }
{
    let form = form_of(code, n);
    out.put(form.size, form.number)
}

/// Reads the number whose spelling is next.
pub fn read(code: Code, bits: &mut BitReader<'_>) -> Result<u32, CodeFault>
    ensures spelled { IfOk result (Reads (parameters code) bits.old bits.new) }
    ensures again { (n : ℕ) (spelling rest : List ℕ) → Spells (parameters code) spelling n
        → bits.old.left ≡ spelling ++ rest → (result ≡ Ok n) × (bits.new.left ≡ rest) }

    ensures refused { IfErr result (Refuses (parameters code) bits.old) }
    ensures unchanged { OnErr result (bits.new ≡ bits.old) }
{
    match find(code, bits.peek()) {
        Some(found) => match bits.skip(found.size) {
            Ok(()) => Ok(found.number),
            Err(BitsEnd { at }) => Err(CodeFault::BitsEnd { at }),
        },
        None => {
            let at = bits.place();
            if bits.has(many_zeros(code)) {
                Err(CodeFault::TooLong { at })
            } else {
                Err(CodeFault::BitsEnd { at })
            }
        }
    }
}

#[cfg(test)]
mod tests {
    use super::*;
    use crate::choices::first_code;
    use crate::folded::{fold, unfold};

    fn code(a: u8, r: u8, e: u8) -> Code
        requires { (a ≤ 2) × (r ≤ 5) × (e ≤ 6) }
    {
        Code { a, r, e }
    }

    #[test]
    fn numbers_have_the_standards_spellings(rt: HostRuntime) {
        // worked out by hand from the two cases
        let cases: [(Code, u32, &[u8], u64); 11] = [
            (first_code(), 0, &[0x80], 6),
            // 8161 in 13 digits behind 7 zeros
            (first_code(), 8129, &[0x01, 0xfe, 0x10], 20),
            (code(0, 0, 1), 0, &[0x80], 1),
            (code(0, 0, 1), 1, &[0x40], 3),
            (code(0, 0, 1), 2, &[0x60], 3),
            (code(0, 0, 1), 3, &[0x20], 5),
            (code(2, 0, 2), 2, &[0x20], 3),
            (code(2, 0, 2), 3, &[0x10], 6),
            (code(1, 2, 3), 5, &[0x50], 4),
            (code(1, 2, 3), 8, &[0x20], 6),
            (code(0, 0, 1), 65534, &[0x00, 0x01, 0xff, 0xfe], 31),
        ];
        for (code, n, spelling, size) in cases {
            assert!(rt; fits(code, n), "{n}");
            let mut bytes = [0u8; 4];
            let mut writer = BitWriter::new(&mut bytes);
            assert_eq!(rt; write(code, n, &mut writer), Ok(()), "{n}");
            let used = writer.pad();
            assert!(rt; used <= 4);
            assert_eq!(rt; &bytes[..used], spelling, "{n}");
            let mut reader = BitReader::new(spelling);
            assert_eq!(rt; read(code, &mut reader), Ok(n), "{n}");
            assert_eq!(rt; reader.place(), size, "{n}");
        }
        assert!(rt; !fits(code(0, 0, 1), 65535));
        assert_eq!(rt; fold(-4065), 8129);
        assert_eq!(rt; unfold(8129), -4065);
    }

    #[test]
    fn a_code_that_is_too_long_or_cut_is_refused_at_its_first_bit(rt: HostRuntime) {
        let cases: [(&[u8], CodeFault); 5] = [
            (&[0, 0, 0, 0], CodeFault::TooLong { at: 0 }),
            (&[0, 0], CodeFault::TooLong { at: 0 }),
            // 15 zeros want 16 digits
            (&[0, 1, 0xff], CodeFault::BitsEnd { at: 0 }),
            (&[0], CodeFault::BitsEnd { at: 0 }),
            (&[], CodeFault::BitsEnd { at: 0 }),
        ];
        for (bytes, fault) in cases {
            let mut reader = BitReader::new(bytes);
            assert_eq!(rt; read(code(0, 0, 1), &mut reader), Err(fault), "{bytes:?}");
        }
        let mut none: [u8; 0] = [];
        let mut writer = BitWriter::new(&mut none);
        assert!(rt; fits(first_code(), 8129));
        assert_eq!(rt;
            write(first_code(), 8129, &mut writer),
            Err(Full { need: 20, room: 0 })
        );
        let mut reader = BitReader::new(&[0x80, 0]);
        assert_eq!(rt; read(code(0, 0, 1), &mut reader), Ok(0));
        assert_eq!(rt;
            read(code(0, 0, 1), &mut reader),
            Err(CodeFault::BitsEnd { at: 1 })
        );
    }
}
