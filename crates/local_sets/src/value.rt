//! Values of items.

ghost use Rattle.std.specs.Prelude.{◌≡◌, ◌+◌, ◌≤◌, [], ◌∷◌, ◌++◌, length, take};
ghost use Rattle.byteorder.specs.Endian.{big_bytes};
ghost use Rattle.rec_bytes.specs.Places.{with_bytes};
ghost use Rattle.local_sets.specs.declared.value.TheConstants.{BATCH_HEAD_LEN, ID_LEN};
ghost use Rattle.local_sets.specs.Values.{value_bytes, duration_bytes, batch_bytes, utf16_bytes};

use rec_bytes::{put_bytes, put_u8, put_u16, put_u32, put_u64};

/// Bytes of a label or an identifier.
pub const ID_LEN: usize = 16;

/// Bytes of a batch before its items: how many there are, and the bytes of each.
pub const BATCH_HEAD_LEN: usize = 4 + 4;

/// A value of an item, spelled high byte first.
#[derive(Clone, Copy, Debug, PartialEq, Eq)]
pub enum Value {
    /// A number of 8 bits.
    Byte(u8),
    /// A number of 16 bits.
    Short(u16),
    /// A number of 32 bits.
    Word(u32),
    /// A number of 64 bits.
    Long(u64),
    /// A rational: numerator and denominator of 32 bits each.
    Ratio(u32, u32),
    /// A duration in 64 bits: -1, which is all ones, where it isn't known.
    Duration(Option<u64>),
    /// A label or an identifier.
    Label([u8; 16]),
    /// A unique material identifier (SMPTE ST 330).
    Umid([u8; 32]),
    /// A batch of no items, whose items would have 16 bytes.
    EmptyBatch,
    /// A batch of one label or identifier.
    BatchOfOne([u8; 16]),
    /// A batch of two labels or identifiers.
    BatchOfTwo([u8; 16], [u8; 16]),
    /// A text: ASCII letters, and how many of them count. It is spelled in UTF-16, two bytes a letter.
    Text([u8; 16], u8),
}

/// Bytes of a value as it is spelled.
pub fn value_len(value: &Value) -> u16
    ensures { result ≡ length (value_bytes value.now) }
{
    match *value {
        Value::Byte(_) => 1,
        Value::Short(_) => 2,
        Value::Word(_) => 4,
        Value::Long(_) | Value::Ratio(_, _) | Value::Duration(_) | Value::EmptyBatch => 8,
        Value::Label(bytes) => id_len(&bytes),
        Value::Umid(bytes) => umid_len(&bytes),
        Value::BatchOfOne(item) => BATCH_HEAD_LEN as u16 + id_len(&item),
        Value::BatchOfTwo(first, second) => BATCH_HEAD_LEN as u16
            + id_len(&first)
            + id_len(&second),
        Value::Text(letters, count) => text_len(letters_of(&letters, count)),
    }
}

fn id_len(bytes: &[u8; 16]) -> u16
    ensures count { result ≡ 16 }
    ensures long { length bytes.now ≡ 16 }
{
    16
}

fn umid_len(bytes: &[u8; 32]) -> u16
    ensures count { result ≡ 32 }
    ensures long { length bytes.now ≡ 32 }
{
    32
}

fn text_len(letters: &[u8]) -> u16
    requires { length letters.now ≤ 16 }
    ensures { result ≡ length (utf16_bytes letters.now) }
{
    2 * letters.len() as u16
}

/// Writes a value at a place, and answers the place behind it.
pub fn put_value(value: &Value, out: &mut [u8], at: usize) -> usize
    requires { at + length (value_bytes value.now) ≤ length out.old }
    ensures end { result ≡ at + length (value_bytes value.now) }
    ensures written { out.new ≡ with_bytes out.old at (value_bytes value.now) }
{
    match *value {
        Value::Byte(number) => put_byte(number, out, at),
        Value::Short(number) => put_short(number, out, at),
        Value::Word(number) => put_word(number, out, at),
        Value::Long(number) => put_long(number, out, at),
        Value::Ratio(numerator, denominator) => put_words(numerator, denominator, out, at),
        Value::Duration(count) => put_duration(count, out, at),
        Value::Label(bytes) => put_id(&bytes, out, at),
        Value::Umid(bytes) => put_umid(&bytes, out, at),
        Value::EmptyBatch => put_batch_head(0, out, at),
        Value::BatchOfOne(item) => put_batch_of_one(&item, out, at),
        Value::BatchOfTwo(first, second) => put_batch_of_two(&first, &second, out, at),
        Value::Text(letters, count) => put_text(letters_of(&letters, count), out, at),
    }
}

fn put_byte(number: u8, out: &mut [u8], at: usize) -> usize
    requires { at + 1 ≤ length out.old }
    ensures end { result ≡ at + 1 }
    ensures written { out.new ≡ with_bytes out.old at (big_bytes 1 number) }
{
    put_u8(out, at, number);
    at + 1
}

fn put_short(number: u16, out: &mut [u8], at: usize) -> usize
    requires { at + 2 ≤ length out.old }
    ensures end { result ≡ at + 2 }
    ensures written { out.new ≡ with_bytes out.old at (big_bytes 2 number) }
{
    put_u16(out, at, number);
    at + 2
}

fn put_word(number: u32, out: &mut [u8], at: usize) -> usize
    requires { at + 4 ≤ length out.old }
    ensures end { result ≡ at + 4 }
    ensures written { out.new ≡ with_bytes out.old at (big_bytes 4 number) }
{
    put_u32(out, at, number);
    at + 4
}

fn put_long(number: u64, out: &mut [u8], at: usize) -> usize
    requires { at + 8 ≤ length out.old }
    ensures end { result ≡ at + 8 }
    ensures written { out.new ≡ with_bytes out.old at (big_bytes 8 number) }
{
    put_u64(out, at, number);
    at + 8
}

/// Writes two numbers of 32 bits.
fn put_words(first: u32, second: u32, out: &mut [u8], at: usize) -> usize
    requires { at + 8 ≤ length out.old }
    ensures end { result ≡ at + 8 }
    ensures written { out.new ≡ with_bytes out.old at (big_bytes 4 first ++ big_bytes 4 second) }
{
    put_u32(out, at, first);
    put_word(second, out, at + 4)
}

fn put_duration(count: Option<u64>, out: &mut [u8], at: usize) -> usize
    requires { at + 8 ≤ length out.old }
    ensures end { result ≡ at + 8 }
    ensures written { out.new ≡ with_bytes out.old at (duration_bytes count) }
{
    match count {
        None => put_long(u64::MAX, out, at),
        Some(frames) => put_long(frames, out, at),
    }
}

/// Writes a label or an identifier.
fn put_id(bytes: &[u8; 16], out: &mut [u8], at: usize) -> usize
    requires { at + length bytes.now ≤ length out.old }
    ensures end { result ≡ at + length bytes.now }
    ensures written { out.new ≡ with_bytes out.old at bytes.now }
{
    put_bytes(out, at, bytes);
    at + ID_LEN
}

fn put_umid(bytes: &[u8; 32], out: &mut [u8], at: usize) -> usize
    requires { at + length bytes.now ≤ length out.old }
    ensures end { result ≡ at + length bytes.now }
    ensures written { out.new ≡ with_bytes out.old at bytes.now }
{
    put_bytes(out, at, bytes);
    at + 32
}

/// Writes what stands before the items of a batch: how many there are, and the bytes of each.
fn put_batch_head(count: u32, out: &mut [u8], at: usize) -> usize
    requires { at + BATCH_HEAD_LEN ≤ length out.old }
    ensures end { result ≡ at + BATCH_HEAD_LEN }
    ensures written { out.new ≡ with_bytes out.old at (big_bytes 4 count ++ big_bytes 4 ID_LEN) }
{
    put_words(count, ID_LEN as u32, out, at)
}

/// Writes a batch of one label or identifier.
fn put_batch_of_one(item: &[u8; 16], out: &mut [u8], at: usize) -> usize
    requires { at + length (batch_bytes (item.now ∷ [])) ≤ length out.old }
    ensures end { result ≡ at + length (batch_bytes (item.now ∷ [])) }
    ensures written { out.new ≡ with_bytes out.old at (batch_bytes (item.now ∷ [])) }
{
    let items = put_batch_head(1, out, at);
    put_id(item, out, items)
}

/// Writes a batch of two labels or identifiers.
fn put_batch_of_two(first: &[u8; 16], second: &[u8; 16], out: &mut [u8], at: usize) -> usize
    requires { at + length (batch_bytes (first.now ∷ second.now ∷ [])) ≤ length out.old }
    ensures end { result ≡ at + length (batch_bytes (first.now ∷ second.now ∷ [])) }
    ensures written { out.new ≡ with_bytes out.old at (batch_bytes (first.now ∷ second.now ∷ [])) }
{
    let items = put_batch_head(2, out, at);
    let next = put_id(first, out, items);
    put_id(second, out, next)
}

/// The letters of a text that count.
fn letters_of(letters: &[u8; 16], count: u8) -> &[u8]
    ensures few { length result.now ≤ 16 }
    ensures first { result.now ≡ take count letters.now }
{
    &letters[..usize::from(count).min(16)]
}

fn put_text(letters: &[u8], out: &mut [u8], at: usize) -> usize
    requires { at + length (utf16_bytes letters.now) ≤ length out.old }
    ensures end { result ≡ at + length (utf16_bytes letters.now) }
    ensures written { out.new ≡ with_bytes out.old at (utf16_bytes letters.now) }
{
    let mut end = at;
    'letters: for letter in letters {
        end = put_short(u16::from(*letter), out, end);
    }
    end
}
