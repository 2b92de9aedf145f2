//! A look at a file's bytes from a place on: the lead that stands there, and the length of its unit.

ghost use Rattle.std.specs.Prelude.{◌≡◌, ◌+◌, ◌≤◌, ◌<◌, ◌^◌, ℕ, length};
ghost use Rattle.std.specs.Str.{bytes_eq};
ghost use Rattle.klv.specs.declared.head.TheConstants.{ELEMENT_HEAD_LEN};
ghost use Rattle.mxf_take_file.specs.declared.walk.Stand.TheVariants.{At};
ghost use Rattle.mxf_take_file.specs.inner.Standing.{body_key, stands, stand_at, stand_behind_pack, stand_first, found_at, look_at};

use crate::picture_layout::MAX_UNIT;
use byteorder::{BigEndian, ByteOrder};
use klv::ELEMENT_HEAD_LEN;
use mxf_index::segment_len;
use mxf_names::{
    INDEX_SEGMENT_KEY, PICTURE_ELEMENT_KEY, PartitionKind, PartitionStatus, partition_key,
};
use mxf_partitions::PACK_LEN;
use take_layout::Walk;

/// Where the key of the picture element stands at the end of a lead, as a place behind the lead's first byte.
#[derive(Clone, Copy, Debug, PartialEq, Eq)]
pub enum Stand {
    /// There.
    At(usize),
    /// Too few bytes to tell: so many are needed.
    More(usize),
    /// Nowhere: at this place stands what no lead has.
    Broken(usize),
}

/// Whether a key stands at a place.
#[tactic(auto, unfolding(crate::specs::inner::Standing::stands))]
fn key_stands(bytes: &[u8], at: usize, key: &[u8; 16]) -> bool
    requires { at + 16 ≤ length bytes.now }
    ensures { result ≡ stands bytes.now at key.now }
{
    bytes[at..at + 16] == key[..]
}

/// The key of the picture element at a place behind a whole lead.
#[tactic(auto, unfolding(crate::specs::inner::Standing::stand_at))]
fn element_at(bytes: &[u8], at: usize) -> Stand
    requires { at < 2 ^ 32 }
    ensures stand { result ≡ stand_at bytes.now at }
    ensures room { (k : ℕ) → result ≡ At k → k + ELEMENT_HEAD_LEN ≤ length bytes.now }
{
    if bytes.len() < at + ELEMENT_HEAD_LEN {
        return Stand::More(at + ELEMENT_HEAD_LEN);
    }
    if key_stands(bytes, at, &PICTURE_ELEMENT_KEY) {
        return Stand::At(at);
    }
    Stand::Broken(at)
}

/// The same behind a body partition's pack, by the frames of a body partition.
#[tactic(auto, unfolding(crate::specs::inner::Standing::stand_behind_pack))]
fn element_behind_pack(part: u16, bytes: &[u8]) -> Stand
    ensures stand { result ≡ stand_behind_pack part bytes.now }
    ensures room { (k : ℕ) → result ≡ At k → k + ELEMENT_HEAD_LEN ≤ length bytes.now }
{
    if bytes.len() < PACK_LEN + ELEMENT_HEAD_LEN {
        return Stand::More(PACK_LEN + ELEMENT_HEAD_LEN);
    }
    if key_stands(bytes, PACK_LEN, &PICTURE_ELEMENT_KEY) {
        return Stand::At(PACK_LEN);
    }
    if !key_stands(bytes, PACK_LEN, &INDEX_SEGMENT_KEY) {
        return Stand::Broken(PACK_LEN);
    }
    element_at(bytes, PACK_LEN + segment_len(u32::from(part)))
}

/// The same from the front of a lead on.
#[tactic(auto, unfolding(crate::specs::inner::Standing::stand_first))]
fn element_of_lead(part: u16, bytes: &[u8]) -> Stand
    ensures stand { result ≡ stand_first part bytes.now }
    ensures room { (k : ℕ) → result ≡ At k → k + ELEMENT_HEAD_LEN ≤ length bytes.now }
{
    if bytes.len() < ELEMENT_HEAD_LEN {
        return Stand::More(ELEMENT_HEAD_LEN);
    }
    if key_stands(bytes, 0, &PICTURE_ELEMENT_KEY) {
        return Stand::At(0);
    }
    if !key_stands(bytes, 0, &body_key()) {
        return Stand::Broken(0);
    }
    element_behind_pack(part, bytes)
}

/// The key of the pack of a body partition that is open and incomplete.
fn body_key() -> [u8; 16]
    ensures { result ≡ body_key }
{
    partition_key(PartitionKind::Body, PartitionStatus::OpenIncomplete)
}

/// What a picture element at a place says of its unit.
#[tactic(auto, unfolding(crate::specs::inner::Standing::found_at))]
fn unit_at(bytes: &[u8], at: usize, from: u64) -> Walk
    requires { at + ELEMENT_HEAD_LEN ≤ length bytes.now }
    ensures { result ≡ found_at bytes.now at from }
{
    if bytes[at + 16] != 0x87 {
        return Walk::Broken {
            at: from.saturating_add(at as u64 + 16),
        };
    }
    let unit_len = BigEndian::read_uint(&bytes[at + 17..], 7);
    if unit_len > MAX_UNIT {
        return Walk::Broken {
            at: from.saturating_add(at as u64 + 17),
        };
    }
    match from.checked_add(at as u64 + ELEMENT_HEAD_LEN as u64) {
        Some(unit_at) => Walk::Lead { unit_at, unit_len },
        None => Walk::Broken { at: u64::MAX },
    }
}

/// Looks at bytes of a file from a place on, by the frames of a body partition.
#[tactic(auto, unfolding(crate::specs::inner::Standing::look_at))]
pub fn look(part: u16, bytes: &[u8], from: u64) -> Walk
    ensures { result ≡ look_at part bytes.now from }
{
    match element_of_lead(part, bytes) {
        Stand::At(at) => unit_at(bytes, at, from),
        Stand::More(need) => Walk::More { need: need as u64 },
        Stand::Broken(at) => Walk::Broken {
            at: from.saturating_add(at as u64),
        },
    }
}
