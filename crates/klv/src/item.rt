//! An item at a place.

ghost use Rattle.std.specs.Prelude.{◌≡◌, ◌+◌, ◌≤◌, ◌↔◌, ℕ, List, length, take, drop, IsOk, IfOk, IfErr};
ghost use Rattle.klv.specs.Reads.{HasItemAt, IsKlvAt, Refuses};

use crate::head::{KlvFault, head_of};

/// An item that stands at a place.
#[derive(Clone, Copy, Debug, PartialEq, Eq)]
pub struct Klv {
    /// The item's key.
    pub key: [u8; 16],
    /// The place of the first byte of its value.
    pub value_at: usize,
    /// Bytes of its value.
    pub value_len: u64,
    /// The place behind the item.
    pub end: usize,
}

/// Reads the item at a place, whatever follows it.
pub fn read_klv(bytes: &[u8], at: usize) -> Result<Klv, KlvFault>
    requires { at ≤ length bytes.now }
    ensures accepted { IsOk result ↔ HasItemAt bytes.now at }
    ensures stands { IfOk result (IsKlvAt bytes.now at) }

    ensures refused { IfErr result (Refuses bytes.now at) }
{
    let head = head_of(&bytes[at..], at as u64, (bytes.len() - at) as u64)?;
    let key = key_at(bytes, at);
    let value_at = at + head.head_len as usize;
    Ok(Klv {
        key,
        value_at,
        value_len: head.value_len,
        end: value_at + head.value_len as usize,
    })
}

/// At a place stands an item or one refusal, and not both. It does nothing: its clauses are the law.
pub fn refusals_are_exact()
    ensures none { (bytes : List ℕ) (at : ℕ) (fault : KlvFault) → Refuses bytes at fault → ¬ HasItemAt bytes at }
    ensures one { (bytes : List ℕ) (at : ℕ) (a b : KlvFault) → Refuses bytes at a → Refuses bytes at b → a ≡ b }
{}

/// The 16 bytes from a place on.
fn key_at(bytes: &[u8], at: usize) -> [u8; 16]
    requires { at + 16 ≤ length bytes.now }
    ensures { result ≡ take 16 (drop at bytes.now) }
{
    let mut key = [0u8; 16];
    key.copy_from_slice(&bytes[at..at + 16]);
    key
}

#[cfg(test)]
mod tests {
    use super::*;
    use KlvFault::{KeyShort, LengthForm, ValueShort};

    // docs/FORMATS.md, "Items": the length 2 in each of the nine forms, then lengths that the bytes don't keep.
    #[test]
    fn each_form_is_read_and_each_refusal_names_the_key(rt: HostRuntime) {
        let cases: [(usize, &[u8], Result<(usize, u64, usize), KlvFault>); 22] = [
            (16, &[2, 7, 7, 9], Ok((20, 2, 22))),
            (16, &[0x81, 2, 7, 7, 9], Ok((21, 2, 23))),
            (16, &[0x82, 0, 2, 7, 7, 9], Ok((22, 2, 24))),
            (16, &[0x83, 0, 0, 2, 7, 7, 9], Ok((23, 2, 25))),
            (16, &[0x84, 0, 0, 0, 2, 7, 7, 9], Ok((24, 2, 26))),
            (16, &[0x85, 0, 0, 0, 0, 2, 7, 7, 9], Ok((25, 2, 27))),
            (16, &[0x86, 0, 0, 0, 0, 0, 2, 7, 7, 9], Ok((26, 2, 28))),
            (16, &[0x87, 0, 0, 0, 0, 0, 0, 2, 7, 7, 9], Ok((27, 2, 29))),
            (
                16,
                &[0x88, 0, 0, 0, 0, 0, 0, 0, 2, 7, 7, 9],
                Ok((28, 2, 30)),
            ),
            (16, &[2, 7, 7], Ok((20, 2, 22))),
            (16, &[0], Ok((20, 0, 20))),
            (0, &[], Err(KeyShort { at: 3 })),
            (15, &[], Err(KeyShort { at: 3 })),
            (16, &[], Err(ValueShort { at: 3 })),
            (16, &[0x80], Err(LengthForm { at: 3 })),
            (
                16,
                &[0x89, 0, 0, 0, 0, 0, 0, 0, 0, 2, 7, 7],
                Err(LengthForm { at: 3 }),
            ),
            (16, &[0xff, 7], Err(LengthForm { at: 3 })),
            (16, &[2, 7], Err(ValueShort { at: 3 })),
            (16, &[0x82, 0], Err(ValueShort { at: 3 })),
            (16, &[0x82, 0, 2, 7], Err(ValueShort { at: 3 })),
            (
                16,
                &[0x88, 255, 255, 255, 255, 255, 255, 255, 255],
                Err(ValueShort { at: 3 }),
            ),
            (
                16,
                &[0x88, 255, 255, 255, 255, 255, 255, 255, 255, 7, 7],
                Err(ValueShort { at: 3 }),
            ),
        ];
        for (key_len, rest, answer) in cases {
            let mut bytes = [6u8; 40];
            let len = 3 + key_len + rest.len();
            bytes[3 + key_len..len].copy_from_slice(rest);
            let read = read_klv(&bytes[..len], 3);
            let read = read.map(|klv| {
                assert_eq!(rt; klv.key, [6; 16], "{rest:?} behind {key_len}");
                (klv.value_at, klv.value_len, klv.end)
            });
            assert_eq!(rt; read, answer, "{rest:?} behind {key_len}");
        }
    }
}
