//! What the sets say of a take.

ghost use Rattle.std.specs.Prelude.{◌≡◌, ◌+◌, ◌≤◌, length, take, drop};
ghost use Rattle.byteorder.specs.Endian.{big_number};
ghost use Rattle.local_sets.specs.Reads.{items_in};
ghost use Rattle.mxf_metadata_reader.specs.Fields.{fields_of, frames_in, items_of_kind, known, or_zeros, pair_of};
ghost use Rattle.mxf_metadata_reader.specs.References.{first_value};
ghost use Rattle.mxf_metadata_reader.specs.inner.Places.{AreWithin, sets_at};

use crate::forms::value_at;
use crate::links::find_item;
use crate::outline::SetPlace;
use byteorder::{BigEndian, ByteOrder};
use mxf_metadata::{
    CONTAINER_DURATION, DESCRIPTOR_SET, MATERIAL_SET, PACKAGE_ID, SAMPLE_RATE, STORED_HEIGHT,
    STORED_WIDTH,
};

/// What the sets say of a take.
#[derive(Clone, Copy, Debug, PartialEq, Eq)]
pub struct Sets {
    /// The duration of the first picture descriptor, in frames; none where it is below 0 or missing.
    pub frames: Option<u64>,
    /// The last 16 bytes of the identifier of the first material package, zeros where it is missing.
    pub take_id: [u8; 16],
    /// The stored width of that descriptor, 0 where it is missing.
    pub width: u32,
    /// Its stored height, of a frame or of a field, 0 where it is missing.
    pub height: u32,
    /// Its sample rate: numerator and denominator, zeros where it is missing.
    pub rate: (u32, u32),
}

/// The value of the first set of a kind, no bytes where there is none.
fn value_of_kind<'a>(bytes: &'a [u8], sets: &[SetPlace], kind: u8) -> &'a [u8]
    requires { AreWithin (length bytes.now) sets.now }
    ensures { items_in result.now ≡ items_of_kind kind (sets_at bytes.now sets.now) }
{
    'sets: for set in sets {
        if set.kind == kind {
            return value_at(bytes, set);
        }
    }
    &bytes[..0]
}

/// The number of frames in the first item with a tag.
fn frames_in(value: &[u8], tag: u16) -> Option<u64>
    ensures { result ≡ frames_in (first_value tag (items_in value.now)) }
{
    match find_item(value, tag) {
        None => None,
        Some(item) => {
            if item.value_len == 8 {
                known(BigEndian::read_u64(&value[item.value_at..]))
            } else {
                None
            }
        }
    }
}

/// A duration of 64 bits, none where it is below 0.
fn known(duration: u64) -> Option<u64>
    ensures { result ≡ known duration }
{
    if duration < 1 << 63 {
        Some(duration)
    } else {
        None
    }
}

/// The number of 32 bits in the first item with a tag.
fn word_in(value: &[u8], tag: u16) -> u32
    ensures { result ≡ big_number 4 (or_zeros 4 (first_value tag (items_in value.now))) }
{
    match find_item(value, tag) {
        None => 0,
        Some(item) => {
            if item.value_len == 4 {
                BigEndian::read_u32(&value[item.value_at..])
            } else {
                0
            }
        }
    }
}

/// The two numbers of 32 bits in the first item with a tag.
fn pair_in(value: &[u8], tag: u16) -> (u32, u32)
    ensures { result ≡ pair_of (or_zeros 8 (first_value tag (items_in value.now))) }
{
    match find_item(value, tag) {
        None => (0, 0),
        Some(item) => {
            if item.value_len == 8 {
                (
                    BigEndian::read_u32(&value[item.value_at..]),
                    BigEndian::read_u32(&value[item.value_at + 4..]),
                )
            } else {
                (0, 0)
            }
        }
    }
}

/// The last 16 bytes of the first item of 32 bytes with a tag.
fn half_in(value: &[u8], tag: u16) -> [u8; 16]
    ensures { result ≡ drop 16 (or_zeros 32 (first_value tag (items_in value.now))) }
{
    match find_item(value, tag) {
        None => [0; 16],
        Some(item) => {
            if item.value_len == 32 {
                half_at(value, item.value_at + 16)
            } else {
                [0; 16]
            }
        }
    }
}

/// The 16 bytes from a place on.
fn half_at(bytes: &[u8], at: usize) -> [u8; 16]
    requires { at + 16 ≤ length bytes.now }
    ensures { result ≡ take 16 (drop at bytes.now) }
{
    let mut half = [0u8; 16];
    half.copy_from_slice(&bytes[at..at + 16]);
    half
}

/// What sets say of a take.
pub(crate) fn fields_of(bytes: &[u8], sets: &[SetPlace]) -> Sets
    requires { AreWithin (length bytes.now) sets.now }
    ensures { result ≡ fields_of (sets_at bytes.now sets.now) }
{
    let descriptor = value_of_kind(bytes, sets, DESCRIPTOR_SET);
    let package = value_of_kind(bytes, sets, MATERIAL_SET);
    Sets {
        frames: frames_in(descriptor, CONTAINER_DURATION),
        take_id: half_in(package, PACKAGE_ID),
        width: word_in(descriptor, STORED_WIDTH),
        height: word_in(descriptor, STORED_HEIGHT),
        rate: pair_in(descriptor, SAMPLE_RATE),
    }
}
