//! What stands before a value: its key and its length.

ghost use Rattle.std.specs.Prelude.{◌≡◌, ◌+◌, ◌^◌, ◌<◌, ◌≤◌, ℕ, List, length, take, drop, min, IfOk, IfErr};
ghost use Rattle.rec_bytes.specs.Places.{with_bytes};
ghost use Rattle.klv.specs.Head.{form_of};
ghost use Rattle.klv.specs.Items.{klv_head, length_bytes};
ghost use Rattle.klv.specs.Reads.{IsFrontAt, IsHeadAt, Refuses};
ghost use Rattle.klv.specs.inner.Heads.{fitted, head_at, length_at, sees};

use byteorder::{BigEndian, ByteOrder};
use rec_bytes::{put_bytes, put_u8};
use thiserror::Error;

/// Bytes that stand before the value of a set or a pack: its key, `83h` and three bytes.
pub const SET_HEAD_LEN: usize = 16 + 1 + 3;

/// Bytes that stand before the value of a picture element: its key, `87h` and seven bytes.
pub const ELEMENT_HEAD_LEN: usize = 16 + 1 + 7;

/// Most bytes that stand before a value: its key, `88h` and eight bytes.
pub const MAX_HEAD_LEN: usize = 16 + 1 + 8;

/// How many bytes follow the first one of a length (SMPTE ST 336).
#[derive(Clone, Copy, Debug, PartialEq, Eq)]
pub enum Form {
    /// Three bytes after `83h`: sets and packs.
    Three,
    /// Seven bytes after `87h`: picture elements.
    Seven,
}

/// Writes what stands before a value of `len` bytes, and answers how many bytes that is: `SET_HEAD_LEN` or
/// `ELEMENT_HEAD_LEN`.
pub fn put_klv_head(key: &[u8; 16], len: u64, form: Form, out: &mut [u8]) -> usize
    requires room { 17 + form_of form ≤ length out.old }
    requires fits { len < 256 ^ form_of form }
    ensures count { result ≡ 17 + form_of form }
    ensures written { take result out.new ≡ klv_head key.now (form_of form) len }
    ensures unchanged { drop result out.new ≡ drop result out.old }
{
    put_klv_head_at(key, len, form, out, 0)
}

/// Writes what stands before a value of `len` bytes at a place, and answers the place behind it.
pub fn put_klv_head_at(key: &[u8; 16], len: u64, form: Form, out: &mut [u8], at: usize) -> usize
    requires fits { len < 256 ^ form_of form }
    requires room { at + 17 + form_of form ≤ length out.old }
    ensures behind { result ≡ at + 17 + form_of form }
    ensures written { out.new ≡ with_bytes out.old at (klv_head key.now (form_of form) len) }
{
    put_bytes(out, at, key);
    put_length(len, form, out, at + 16)
}

/// Writes a length at a place, and answers the place behind it.
fn put_length(len: u64, form: Form, out: &mut [u8], at: usize) -> usize
    requires fits { len < 256 ^ form_of form }
    requires room { at + 1 + form_of form ≤ length out.old }
    ensures behind { result ≡ at + 1 + form_of form }
    ensures written { out.new ≡ with_bytes out.old at (length_bytes (form_of form) len) }
{
    let count = length_count(form);
    put_u8(out, at, 0x80 + count);
    BigEndian::write_uint(&mut out[at + 1..], len, usize::from(count));
    at + 1 + usize::from(count)
}

/// What stands before a value, and how long the value is.
#[derive(Clone, Copy, Debug, PartialEq, Eq)]
pub struct Head {
    /// Bytes of the key and of the length.
    pub head_len: u64,
    /// Bytes of the value.
    pub value_len: u64,
}

/// Why no item stands at a place. `at` is that place, where its key would be.
#[derive(Clone, Copy, Debug, PartialEq, Eq, Error)]
pub enum KlvFault {
    /// Fewer than 16 bytes are left.
    #[error("the key at byte {at} is cut")]
    KeyShort { at: u64 },
    /// The first byte of the length begins none of the nine forms.
    #[error("the item at byte {at} has a length of no form")]
    LengthForm { at: u64 },
    /// The length or the value passes the end.
    #[error("the item at byte {at} is cut")]
    ValueShort { at: u64 },
}

/// Reads what stands before the value of the item at a place, for a reader that doesn't hold values: `front` has the
/// first 25 bytes from there on, or all where fewer are `left`.
pub fn read_head(front: &[u8], at: u64, left: u64) -> Result<Head, KlvFault>
    requires { min left MAX_HEAD_LEN ≤ length front.now }
    ensures head { IfOk result (λ head. (bytes : List ℕ) → IsFrontAt bytes at front.now left → IsHeadAt bytes at head) }
    ensures some { IfOk result (λ head. 17 ≤ head.head_len) }
    ensures within { IfOk result (λ head. head.head_len + head.value_len ≤ left) }

    ensures refused { IfErr result (λ fault. (bytes : List ℕ) → IsFrontAt bytes at front.now left → Refuses bytes at fault) }
{
    match head_of(front, at, left) {
        Ok(head) => Ok(head),
        Err(fault) => Err(fault),
    }
}

/// The head with which bytes begin, of which so many are left.
#[tactic(auto, unfolding(crate::specs::inner::Heads::head_at))]
pub(crate) fn head_of(front: &[u8], at: u64, left: u64) -> Result<Head, KlvFault>
    requires { min left MAX_HEAD_LEN ≤ length front.now }
    ensures seen { sees result (head_at front.now at left) }
    ensures some { IfOk result (λ head. 17 ≤ head.head_len) }
    ensures within { IfOk result (λ head. head.head_len + head.value_len ≤ left) }
{
    if left < 16 {
        return Err(KlvFault::KeyShort { at });
    }
    if left == 16 {
        return Err(KlvFault::ValueShort { at });
    }
    read_length(front, at, left, front[16])
}

/// The head whose length begins with this byte.
#[tactic(auto, unfolding(crate::specs::inner::Heads::length_at))]
fn read_length(front: &[u8], at: u64, left: u64, first: u8) -> Result<Head, KlvFault>
    requires left { 17 ≤ left }
    requires front { min left MAX_HEAD_LEN ≤ length front.now }
    ensures seen { sees result (length_at front.now at left first) }
    ensures some { IfOk result (λ head. 17 ≤ head.head_len) }
    ensures within { IfOk result (λ head. head.head_len + head.value_len ≤ left) }
{
    if first < 0x80 {
        return fit(17, u64::from(first), at, left);
    }
    if first == 0x80 || first > 0x88 {
        return Err(KlvFault::LengthForm { at });
    }
    let count = usize::from(first - 0x80);
    if left < 17 + count as u64 {
        return Err(KlvFault::ValueShort { at });
    }
    let value_len = BigEndian::read_uint(&front[17..], count);
    fit(17 + count as u64, value_len, at, left)
}

/// A head and a value that lie within the bytes that are left.
fn fit(head_len: u64, value_len: u64, at: u64, left: u64) -> Result<Head, KlvFault>
    requires { head_len ≤ left }
    ensures seen { sees result (fitted head_len value_len at left) }
    ensures within { IfOk result (λ head. head.head_len + head.value_len ≤ left) }
    ensures head { IfOk result (λ head. head.head_len ≡ head_len) }
{
    if left - head_len < value_len {
        return Err(KlvFault::ValueShort { at });
    }
    Ok(Head {
        head_len,
        value_len,
    })
}

fn length_count(form: Form) -> u8
    ensures { result ≡ form_of form }
{
    match form {
        Form::Three => 3,
        Form::Seven => 7,
    }
}

#[cfg(test)]
mod tests {
    use super::*;

    // docs/FORMATS.md, "Picture elements".
    const KEY: [u8; 16] = [
        0x06, 0x0e, 0x2b, 0x34, 0x01, 0x02, 0x01, 0x01, 0x0d, 0x01, 0x03, 0x01, 0x15, 0x01, 0x17,
        0x01,
    ];

    // docs/FORMATS.md, "Items": the bytes of each length are worked out by hand.
    #[test]
    fn both_forms_are_written_high_byte_first_and_nothing_around(rt: HostRuntime) {
        let cases: [(Form, u64, &[u8]); 4] = [
            (Form::Three, 0, &[0x83, 0, 0, 0]),
            (Form::Three, 0x01_0203, &[0x83, 1, 2, 3]),
            (Form::Seven, 50, &[0x87, 0, 0, 0, 0, 0, 0, 50]),
            (
                Form::Seven,
                0x0a_0b0c_0d0e_0f10,
                &[0x87, 10, 11, 12, 13, 14, 15, 16],
            ),
        ];
        for (form, len, spelled) in cases {
            let mut out = [0xee; 30];
            let count = put_klv_head(&KEY, len, form, &mut out);
            let mut expected = [0xee; 30];
            expected[..16].copy_from_slice(&KEY);
            expected[16..16 + spelled.len()].copy_from_slice(spelled);
            assert_eq!(rt;
                (count, out),
                (16 + spelled.len(), expected),
                "the length {len}"
            );

            let mut out = [0xee; 30];
            let behind = put_klv_head_at(&KEY, len, form, &mut out, 3);
            let mut expected = [0xee; 30];
            expected[3..19].copy_from_slice(&KEY);
            expected[19..19 + spelled.len()].copy_from_slice(spelled);
            assert_eq!(rt;
                (behind, out),
                (19 + spelled.len(), expected),
                "the length {len} at 3"
            );
        }
        assert_eq!(rt; (SET_HEAD_LEN, ELEMENT_HEAD_LEN), (20, 24));
    }

    // Worked out by hand: 25 bytes before the value, and 2^64 - 1 left in all.
    #[test]
    fn a_head_is_read_alone_up_to_the_longest_value(rt: HostRuntime) {
        let at = 1 << 44;
        let cases: [(u8, u64, Result<Head, KlvFault>); 4] = [
            (
                0xe6,
                u64::MAX,
                Ok(Head {
                    head_len: 25,
                    value_len: u64::MAX - 25,
                }),
            ),
            (0xe7, u64::MAX, Err(KlvFault::ValueShort { at })),
            (0xff, u64::MAX, Err(KlvFault::ValueShort { at })),
            (0xe6, u64::MAX - 1, Err(KlvFault::ValueShort { at })),
        ];
        for (last, left, answer) in cases {
            let mut front = [255; MAX_HEAD_LEN];
            front[16] = 0x88;
            front[24] = last;
            assert_eq!(rt;
                read_head(&front, at, left),
                answer,
                "last byte {last}, {left} left"
            );
        }
    }
}
