//! The take that metadata are of.

ghost use Rattle.std.specs.Prelude.{◌≡◌, ◌≤◌, ◌+◌, ℕ, List, length, take, drop};
ghost use Rattle.klv.specs.Items.{AreItems, Item};
ghost use Rattle.local_sets.specs.Reads.{items_in};
ghost use Rattle.mxf_metadata_reader.specs.Fields.{or_zeros};
ghost use Rattle.mxf_metadata_reader.specs.References.{first_value};
ghost use Rattle.mxf_metadata_check.specs.Metadata.{AreMetadata, behind, take_id_in};
ghost use Rattle.mxf_metadata_check.specs.inner.Takes.{is_of_kind, kind_among};
ghost use Rattle.mxf_op1a.specs.Metadata.{sets_behind};

use crate::parts::value_of;
use klv::{items_are_unique, read_klv};
use mxf_metadata::{MATERIAL_SET, PACKAGE_ID};
use mxf_metadata_reader::{find_item, kind_of};

/// Whether a key is that of a set of a kind.
fn is_of_kind(key: &[u8; 16], kind: u8) -> bool
    ensures { result ≡ is_of_kind kind key.now }
{
    match kind_of(key) {
        None => false,
        Some(own) => own == kind,
    }
}

/// The value of the first set of a kind among the items that stand from a place on, no bytes where there is none.
fn value_of_kind<'a>(bytes: &'a [u8], start: usize, kind: u8) -> &'a [u8]
    requires { start ≤ length bytes.now }
    ensures { (at : ℕ) (items : List Item) → AreItems (drop start bytes.now) items
        → kind_among kind (at + start) items ≡ items_in result.now }
{
    items_are_unique();
    let mut place = start;
    while place < bytes.len() {
        match read_klv(bytes, place) {
            Ok(klv) => {
                if is_of_kind(&klv.key, kind) {
                    return value_of(bytes, &klv);
                }
                place = klv.end;
            }
            Err(_) => return &bytes[..0],
        }
    }
    &bytes[..0]
}

/// The 16 bytes from a place on.
fn half_at(bytes: &[u8], at: usize) -> [u8; 16]
    requires { at + 16 ≤ length bytes.now }
    ensures { result ≡ take 16 (drop at bytes.now) }
{
    let mut half = [0u8; 16];
    half.copy_from_slice(&bytes[at..at + 16]);
    half
}

/// The last 16 bytes of a set's first item with a tag, zeros where it hasn't 32 bytes or is missing.
fn half_in(value: &[u8], tag: u16) -> [u8; 16]
    ensures { result ≡ drop 16 (or_zeros 32 (first_value tag (items_in value.now))) }
{
    match find_item(value, tag) {
        None => [0; 16],
        Some(item) => {
            if item.value_len == 32 {
                half_at(value, item.value_at + 16)
            } else {
                [0; 16]
            }
        }
    }
}

/// The take's identifier, as the sets behind a primer pack name it: the last 16 bytes of the first material package's
/// identifier, zeros where it is missing.
pub fn take_id(bytes: &[u8]) -> [u8; 16]
    ensures { (at : ℕ) (primer : Item) (items : List Item) → AreMetadata bytes.now primer items
        → take_id_in (sets_behind (behind at primer items)) ≡ result }
{
    items_are_unique();
    match read_klv(bytes, 0) {
        Ok(klv) => half_in(value_of_kind(bytes, klv.end, MATERIAL_SET), PACKAGE_ID),
        Err(_) => [0; 16],
    }
}
