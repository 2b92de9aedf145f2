//! What is kept of each set, and of those that it names.

ghost use Rattle.std.specs.Prelude.{◌≡◌, ◌≤◌, ◌<◌, ℕ, Bool, List, length, Some, IfOk};
ghost use Rattle.std.specs.List.{flat_map};
ghost use Rattle.local_sets.specs.Reads.{items_in};
ghost use Rattle.mxf_metadata_reader.specs.References.{first_value};
ghost use Rattle.mxf_op1a.specs.Metadata.{SetAt, all_of_kind, ids_in_value, least, named, of_kind, set_with};
ghost use Rattle.mxf_metadata_check.specs.inner.Chain.{HasLeast, IsNth, Tells, place_but, places_if, with_ids};
ghost use Rattle.mxf_metadata_check.specs.inner.Firsts.{TellsFirsts, ids_within};
ghost use Rattle.mxf_metadata_check.specs.inner.Held.{AreWithin, sets_held};

use crate::firsts::{first_of, held_value};
use crate::names::names_in;
use crate::outline::Held;
use crate::parts::value_at;
use crate::sound::lesser;
use local_sets::ID_LEN;
use mxf_metadata_reader::find_item;
use std::alloc::{AllocError, Global};
use std::collections::BTreeMap;

/// The identifiers that the first item of a value with a tag names, one after the other.
pub(crate) fn ids_at(value: &[u8], tag: u16) -> &[u8]
    ensures { ids_in_value tag (first_value tag (items_in value.now)) ≡ ids_within result.now }
{
    match find_item(value, tag) {
        None => &value[..0],
        Some(item) => names_in(tag, value_at(value, &item)),
    }
}

/// What is kept of a set by its number, if it is of a kind.
fn value_if(sets: &[Held], values: &[Option<u64>], kind: u8, k: usize) -> Option<u64>
    requires { length values.now ≡ length sets.now }
    ensures { (bytes : List ℕ) (places : SetAt → List ℕ) (s : SetAt) → HasLeast places (sets_held bytes sets.now) values.now
        → IsNth (sets_held bytes sets.now) k s → result ≡ least (flat_map places (of_kind kind (Some s))) }
{
    if k >= sets.len() {
        return None;
    }
    if sets[k].kind != kind {
        return None;
    }
    values[k]
}

/// What is kept of the set with an identifier, if it is of a kind.
fn value_with(
    firsts: &BTreeMap<u128, usize>,
    sets: &[Held],
    values: &[Option<u64>],
    kind: u8,
    id: &[u8],
) -> Option<u64>
    requires { length values.now ≡ length sets.now }
    ensures { (bytes : List ℕ) (places : SetAt → List ℕ) → TellsFirsts firsts.now (sets_held bytes sets.now)
        → HasLeast places (sets_held bytes sets.now) values.now
        → result ≡ least (flat_map places (of_kind kind (set_with (sets_held bytes sets.now) id.now))) }
{
    match first_of(firsts, id) {
        None => None,
        Some(k) => value_if(sets, values, kind, k),
    }
}

/// The least of what is kept of the sets with identifiers, one after the other, that are of a kind.
fn least_with(
    firsts: &BTreeMap<u128, usize>,
    sets: &[Held],
    values: &[Option<u64>],
    kind: u8,
    ids: &[u8],
) -> Option<u64>
    requires { length values.now ≡ length sets.now }
    ensures { (bytes : List ℕ) (places : SetAt → List ℕ) → TellsFirsts firsts.now (sets_held bytes sets.now)
        → HasLeast places (sets_held bytes sets.now) values.now
        → result ≡ least (flat_map places (with_ids (sets_held bytes sets.now) kind (ids_within ids.now))) }
{
    let count = ids.len() / ID_LEN;
    let mut found = None;
    for k in 0..count {
        let at = ID_LEN * k;
        found = lesser(
            found,
            value_with(firsts, sets, values, kind, &ids[at..at + ID_LEN]),
        );
    }
    found
}

/// For each set, the least of what is kept of the sets of a kind that its first item with a tag names.
pub(crate) fn least_named(
    alloc: Global,
    bytes: &[u8],
    sets: &[Held],
    firsts: &BTreeMap<u128, usize>,
    values: &[Option<u64>],
    tag: u16,
    kind: u8,
) -> Result<Vec<Option<u64>>, AllocError>
    requires within { AreWithin (length bytes.now) sets.now }
    requires firsts { TellsFirsts firsts.now (sets_held bytes.now sets.now) }
    requires values { length values.now ≡ length sets.now }
    ensures long { IfOk result (λ found. length found.items ≡ length sets.now) }
    ensures least { IfOk result (λ found. (places : SetAt → List ℕ) → HasLeast places (sets_held bytes.now sets.now) values.now
        → HasLeast (λ s. flat_map places (named (sets_held bytes.now sets.now) tag kind s)) (sets_held bytes.now sets.now) found.items) }
{
    let mut found = Vec::new(alloc);
    for k in 0..sets.len() {
        let ids = ids_at(held_value(bytes, &sets[k]), tag);
        found.push(least_with(firsts, sets, values, kind, ids))?;
    }
    Ok(found)
}

/// What is kept of a set by its number, if it keeps a test.
fn value_where(flags: &[bool], values: &[Option<u64>], k: usize) -> Option<u64>
    requires flag { k < length flags.now }
    requires value { k < length values.now }
    ensures { (all : List SetAt) (test : SetAt → Bool) (places : SetAt → List ℕ) (s : SetAt) → Tells test all flags.now
        → HasLeast places all values.now → IsNth all k s → result ≡ least (places_if test places s) }
{
    if flags[k] { values[k] } else { None }
}

/// For each set that keeps a test, what is kept of it.
pub(crate) fn where_true(
    alloc: Global,
    flags: &[bool],
    values: &[Option<u64>],
) -> Result<Vec<Option<u64>>, AllocError>
    requires { length flags.now ≡ length values.now }
    ensures long { IfOk result (λ found. length found.items ≡ length values.now) }
    ensures least { IfOk result (λ found. (all : List SetAt) (test : SetAt → Bool) (places : SetAt → List ℕ) → Tells test all flags.now
        → HasLeast places all values.now → HasLeast (places_if test places) all found.items) }
{
    let mut found = Vec::new(alloc);
    for k in 0..values.len() {
        found.push(value_where(flags, values, k))?;
    }
    Ok(found)
}

/// The place of a set by its number, if it doesn't keep a test.
fn place_but(sets: &[Held], flags: &[bool], k: usize) -> Option<u64>
    requires flag { k < length flags.now }
    requires held { k < length sets.now }
    ensures { (bytes : List ℕ) (test : SetAt → Bool) (s : SetAt) → Tells test (sets_held bytes sets.now) flags.now
        → IsNth (sets_held bytes sets.now) k s → result ≡ least (place_but test s) }
{
    if flags[k] { None } else { Some(sets[k].at) }
}

/// For each set that doesn't keep a test, its place.
pub(crate) fn places_but(
    alloc: Global,
    sets: &[Held],
    flags: &[bool],
) -> Result<Vec<Option<u64>>, AllocError>
    requires { length flags.now ≡ length sets.now }
    ensures long { IfOk result (λ found. length found.items ≡ length sets.now) }
    ensures least { IfOk result (λ found. (bytes : List ℕ) (test : SetAt → Bool) → Tells test (sets_held bytes sets.now) flags.now
        → HasLeast (place_but test) (sets_held bytes sets.now) found.items) }
{
    let mut found = Vec::new(alloc);
    for k in 0..sets.len() {
        found.push(place_but(sets, flags, k))?;
    }
    Ok(found)
}

/// The least of what is kept of the sets of a kind.
pub(crate) fn least_of_kind(sets: &[Held], values: &[Option<u64>], kind: u8) -> Option<u64>
    requires { length values.now ≡ length sets.now }
    ensures { (bytes : List ℕ) (places : SetAt → List ℕ) → HasLeast places (sets_held bytes sets.now) values.now
        → result ≡ least (flat_map places (all_of_kind kind (sets_held bytes sets.now))) }
{
    let mut found = None;
    for k in 0..sets.len() {
        found = lesser(found, value_if(sets, values, kind, k));
    }
    found
}
