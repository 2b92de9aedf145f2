//! Reading a primer pack.

ghost use Rattle.std.specs.Prelude.{◌≡◌, ◌+◌, ◌*◌, ◌^◌, ◌≤◌, ℕ, [], ◌&&◌, length, take, drop, true, IfOk, IfErr};
ghost use Rattle.std.specs.Str.{bytes_eq};
ghost use Rattle.mxf_metadata_reader.specs.PrimerTags.{entry_tags, is_batch_of, value_tags};
ghost use Rattle.mxf_metadata_reader.specs.inner.Places.{IsTable};
ghost use Rattle.mxf_metadata_reader.specs.inner.Primers.{IsPrimer, IsNoPrimer};

use crate::fault::SetFault;
use byteorder::{BigEndian, ByteOrder};
use klv::{Klv, items_are_unique, read_klv};
use local_sets::BATCH_HEAD_LEN;
use mxf_metadata::PRIMER_ENTRY_LEN;
use mxf_names::PRIMER_KEY;
use std::alloc::{AllocError, Global};

/// A place for each tag.
const TAG_PLACES: usize = 0x1_0000;

/// A primer pack that was read.
#[derive(Drop)]
pub struct Primer {
    /// Whether each tag is listed.
    pub listed: Vec<bool>,
    /// The place behind the pack.
    pub end: usize,
}

/// Whether bytes are a batch of items of a size.
pub fn is_batch_of(size: u32, bytes: &[u8]) -> bool
    requires { size ≤ 18 }
    ensures { result ≡ is_batch_of size bytes.now }
{
    if bytes.len() < BATCH_HEAD_LEN {
        return false;
    }
    let count = BigEndian::read_u32(bytes);
    if bytes.len() as u64 != BATCH_HEAD_LEN as u64 + u64::from(size) * u64::from(count) {
        return false;
    }
    BigEndian::read_u32(&bytes[4..]) == size
}

/// A table in which no tag is listed.
fn no_tags(alloc: Global, places: usize) -> Result<Vec<bool>, AllocError>
    requires { places ≡ 2 ^ 16 }
    ensures { IfOk result (λ listed. IsTable listed.items []) }
{
    let listed = vec![in alloc; false; places]?;
    Ok(listed)
}

/// A table in which each tag of so many entries is listed.
fn tags_of_entries(alloc: Global, entries: &[u8], count: usize) -> Result<Vec<bool>, AllocError>
    requires { PRIMER_ENTRY_LEN * count ≤ length entries.now }
    ensures { IfOk result (λ listed. IsTable listed.items (entry_tags count entries.now)) }
{
    let mut listed = no_tags(alloc, TAG_PLACES)?;
    for k in 0..count {
        let tag = BigEndian::read_u16(&entries[PRIMER_ENTRY_LEN * k..]);
        listed[usize::from(tag)] = true;
    }
    Ok(listed)
}

/// A table of the tags in a primer pack's value.
fn tags_of_value(alloc: Global, value: &[u8]) -> Result<Vec<bool>, AllocError>
    requires { is_batch_of PRIMER_ENTRY_LEN value.now ≡ true }
    ensures { IfOk result (λ listed. IsTable listed.items (value_tags value.now)) }
{
    let count = BigEndian::read_u32(value) as usize;
    tags_of_entries(alloc, &value[BATCH_HEAD_LEN..], count)
}

/// Whether an item of a key and a value is a primer pack.
fn is_primer(key: &[u8; 16], value: &[u8]) -> bool
    ensures { result ≡ (bytes_eq key.now PRIMER_KEY && is_batch_of PRIMER_ENTRY_LEN value.now) }
{
    key == &PRIMER_KEY && is_batch_of(PRIMER_ENTRY_LEN as u32, value)
}

/// The value of an item that was read.
fn value_of<'a>(bytes: &'a [u8], klv: &Klv) -> &'a [u8]
    requires { klv.now.value_at + klv.now.value_len ≤ length bytes.now }
    ensures { result.now ≡ take klv.now.value_len (drop klv.now.value_at bytes.now) }
{
    let len = klv.value_len as usize;
    &bytes[klv.value_at..klv.value_at + len]
}

/// Reads the primer pack with which bytes begin.
pub fn read_primer(alloc: Global, bytes: &[u8]) -> Result<Primer, SetFault>
    ensures read { IfOk result (IsPrimer bytes.now) }
    ensures refused { IfErr result (IsNoPrimer bytes.now) }
{
    items_are_unique();
    let klv = match read_klv(bytes, 0) {
        Ok(klv) => klv,
        Err(_) => return Err(SetFault::NotPrimer),
    };
    let value = value_of(bytes, &klv);
    if !is_primer(&klv.key, value) {
        return Err(SetFault::NotPrimer);
    }
    match tags_of_value(alloc, value) {
        Ok(listed) => Ok(Primer {
            listed,
            end: klv.end,
        }),
        Err(_) => Err(SetFault::Memory),
    }
}
