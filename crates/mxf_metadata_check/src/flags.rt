//! Which sets keep the rules of pictures, clips and files.

ghost use Rattle.std.specs.Prelude.{◌≡◌, ◌≤◌, ◌<◌, ◌+◌, ℕ, List, length, Some, IfOk, IfSome};
ghost use Rattle.local_sets.specs.Reads.{items_in};
ghost use Rattle.mxf_metadata.specs.declared.labels.TheConstants.{PICTURE_KIND, FILE_SET, CLIP_SET};
ghost use Rattle.mxf_metadata.specs.declared.tags.TheConstants.{DATA_DEFINITION, PACKAGE_ID, SOURCE_PACKAGE_ID};
ghost use Rattle.mxf_metadata_reader.specs.References.{first_value};
ghost use Rattle.mxf_metadata_reader.specs.inner.Places.{value_of};
ghost use Rattle.mxf_op1a.specs.Metadata.{SetAt, all_of_kind, are_same, has_one_clip, is_of_file, is_value, of_kind, set_with};
ghost use Rattle.mxf_metadata_check.specs.inner.Chain.{IsNext, IsNth, Tells, is_picture, with_ids};
ghost use Rattle.mxf_metadata_check.specs.inner.Firsts.{TellsFirsts, ids_within};
ghost use Rattle.mxf_metadata_check.specs.inner.Held.{AreWithin, sets_held};

use crate::chain::ids_at;
use crate::firsts::{first_of, held_value};
use crate::outline::Held;
use crate::parts::value_at;
use local_sets::{ID_LEN, ItemPlace};
use mxf_metadata::{
    CLIP_SET, DATA_DEFINITION, FILE_SET, PACKAGE_ID, PICTURE_KIND, SOURCE_PACKAGE_ID,
    STRUCTURAL_COMPONENTS,
};
use mxf_metadata_reader::find_item;
use std::alloc::{AllocError, Global};
use std::collections::BTreeMap;

/// Whether a sequence with a value is of pictures.
fn is_picture(value: &[u8]) -> bool
    ensures { result ≡ is_value PICTURE_KIND (first_value DATA_DEFINITION (items_in value.now)) }
{
    match find_item(value, DATA_DEFINITION) {
        None => false,
        Some(item) => value_at(value, &item) == &PICTURE_KIND[..],
    }
}

/// For each set, whether it is of pictures, as a sequence.
pub(crate) fn pictures(alloc: Global, bytes: &[u8], sets: &[Held]) -> Result<Vec<bool>, AllocError>
    requires { AreWithin (length bytes.now) sets.now }
    ensures { IfOk result (λ flags. Tells is_picture (sets_held bytes.now sets.now) flags.items) }
{
    let mut flags = Vec::new(alloc);
    for k in 0..sets.len() {
        flags.push(is_picture(held_value(bytes, &sets[k])))?;
    }
    Ok(flags)
}

/// How many of the sets by this number there are of a kind: one or none.
fn count_if(sets: &[Held], kind: u8, k: usize) -> usize
    ensures one { result ≤ 1 }
    ensures count { (bytes : List ℕ) (s : SetAt) → IsNth (sets_held bytes sets.now) k s → result ≡ length (of_kind kind (Some s)) }
{
    if k >= sets.len() {
        return 0;
    }
    if sets[k].kind != kind {
        return 0;
    }
    1
}

/// How many sets of a kind an identifier names: one or none.
fn count_one(firsts: &BTreeMap<u128, usize>, sets: &[Held], kind: u8, id: &[u8]) -> usize
    ensures one { result ≤ 1 }
    ensures count { (bytes : List ℕ) → TellsFirsts firsts.now (sets_held bytes sets.now)
        → result ≡ length (of_kind kind (set_with (sets_held bytes sets.now) id.now)) }
{
    match first_of(firsts, id) {
        None => 0,
        Some(k) => count_if(sets, kind, k),
    }
}

/// How many sets of a kind identifiers name, one after the other.
fn count_with(firsts: &BTreeMap<u128, usize>, sets: &[Held], kind: u8, ids: &[u8]) -> usize
    ensures { (bytes : List ℕ) → TellsFirsts firsts.now (sets_held bytes sets.now)
        → result ≡ length (with_ids (sets_held bytes sets.now) kind (ids_within ids.now)) }
{
    let count = ids.len() / ID_LEN;
    let mut found = 0;
    for k in 0..count {
        let at = ID_LEN * k;
        found += count_one(firsts, sets, kind, &ids[at..at + ID_LEN]);
    }
    found
}

/// For each set, whether it names one clip, as a sequence.
pub(crate) fn one_clips(
    alloc: Global,
    bytes: &[u8],
    sets: &[Held],
    firsts: &BTreeMap<u128, usize>,
) -> Result<Vec<bool>, AllocError>
    requires within { AreWithin (length bytes.now) sets.now }
    requires firsts { TellsFirsts firsts.now (sets_held bytes.now sets.now) }
    ensures { IfOk result (λ flags. Tells (has_one_clip (sets_held bytes.now sets.now)) (sets_held bytes.now sets.now) flags.items) }
{
    let mut flags = Vec::new(alloc);
    for k in 0..sets.len() {
        let ids = ids_at(held_value(bytes, &sets[k]), STRUCTURAL_COMPONENTS);
        flags.push(count_with(firsts, sets, CLIP_SET, ids) == 1)?;
    }
    Ok(flags)
}

/// The next set of a kind from a number on.
fn next_of_kind(sets: &[Held], kind: u8, start: usize) -> Option<usize>
    ensures within { IfSome result (λ k. k < length sets.now) }
    ensures next { (bytes : List ℕ) → IsNext (sets_held bytes sets.now) kind start result }
{
    let mut k = start;
    while k < sets.len() {
        if sets[k].kind == kind {
            return Some(k);
        }
        k += 1;
    }
    None
}

/// The value of the one file package, no bytes where there is none or there are more.
fn file_value<'a>(bytes: &'a [u8], sets: &[Held]) -> &'a [u8]
    requires { AreWithin (length bytes.now) sets.now }
    ensures { (clip : SetAt) → is_of_file (all_of_kind FILE_SET (sets_held bytes.now sets.now)) clip
        ≡ are_same (first_value PACKAGE_ID (items_in result.now)) (first_value SOURCE_PACKAGE_ID clip.set.items) }
{
    match next_of_kind(sets, FILE_SET, 0) {
        None => &bytes[..0],
        Some(k) => match next_of_kind(sets, FILE_SET, k + 1) {
            None => held_value(bytes, &sets[k]),
            Some(_) => &bytes[..0],
        },
    }
}

/// Whether the package that a clip with a value names is the one that this item of a file package's value tells.
fn is_of_file(file: &[u8], own: Option<ItemPlace>, value: &[u8]) -> bool
    requires { IfSome own (λ item. item.value_at + item.value_len ≤ length file.now) }
    ensures { result ≡ are_same (value_of file.now own) (first_value SOURCE_PACKAGE_ID (items_in value.now)) }
{
    match own {
        None => false,
        Some(own) => match find_item(value, SOURCE_PACKAGE_ID) {
            None => false,
            Some(source) => value_at(value, &source) == value_at(file, &own),
        },
    }
}

/// For each set, whether it is of the one file package, as a clip.
pub(crate) fn of_files(alloc: Global, bytes: &[u8], sets: &[Held]) -> Result<Vec<bool>, AllocError>
    requires { AreWithin (length bytes.now) sets.now }
    ensures { IfOk result (λ flags. Tells (is_of_file (all_of_kind FILE_SET (sets_held bytes.now sets.now)))
        (sets_held bytes.now sets.now) flags.items) }
{
    let file = file_value(bytes, sets);
    let own = find_item(file, PACKAGE_ID);
    let mut flags = Vec::new(alloc);
    for k in 0..sets.len() {
        flags.push(is_of_file(file, own, held_value(bytes, &sets[k])))?;
    }
    Ok(flags)
}
