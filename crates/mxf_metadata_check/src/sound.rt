//! Whether sets are whole, and their items known, of their sizes, and name sets that are there.

ghost use Rattle.std.specs.Prelude.{◌≡◌, ◌≤◌, ◌+◌, ◌^◌, ℕ, List, [], ◌∷◌, length};
ghost use Rattle.local_sets.specs.Reads.{raw_at};
ghost use Rattle.mxf_metadata_reader.specs.inner.Places.{IsTable};
ghost use Rattle.mxf_op1a.specs.Metadata.{SetAt, is_sound, is_sound_item, least, places_but};
ghost use Rattle.mxf_metadata_check.specs.inner.Firsts.{TellsFirsts, all_whole};
ghost use Rattle.mxf_metadata_check.specs.inner.Held.{AreWithin, lesser, set_held, sets_held};

use crate::firsts::held_value;
use crate::names::{are_there, names_in};
use crate::outline::Held;
use crate::parts::value_at;
use local_sets::{ItemPlace, read_item};
use mxf_metadata_reader::is_sized;
use std::collections::BTreeMap;

/// The lesser of two places that may be missing.
pub(crate) fn lesser(one: Option<u64>, other: Option<u64>) -> Option<u64>
    ensures { result ≡ lesser one other }
{
    match one {
        None => other,
        Some(place) => match other {
            None => Some(place),
            Some(other) => Some(if place < other { place } else { other }),
        },
    }
}

/// Whether an item of a value has a tag that is listed and its size, and names sets that are there.
fn is_sound_item(
    listed: &[bool],
    firsts: &BTreeMap<u128, usize>,
    value: &[u8],
    item: &ItemPlace,
) -> bool
    requires whole { length listed.now ≡ 2 ^ 16 }
    requires within { item.now.value_at + item.now.value_len ≤ length value.now }
    ensures { (tags : List ℕ) (sets : List SetAt) → IsTable listed.now tags → TellsFirsts firsts.now sets
        → result ≡ is_sound_item tags sets (raw_at value.now item.now) }
{
    let own = value_at(value, item);
    listed[usize::from(item.tag)]
        && is_sized(item.tag, own)
        && are_there(firsts, names_in(item.tag, own))
}

/// Whether a value is whole items that are sound.
fn is_sound(listed: &[bool], firsts: &BTreeMap<u128, usize>, value: &[u8]) -> bool
    requires { length listed.now ≡ 2 ^ 16 }
    ensures { (tags : List ℕ) (sets : List SetAt) → IsTable listed.now tags → TellsFirsts firsts.now sets
        → result ≡ all_whole (is_sound_item tags sets) value.now }
{
    let mut at = 0;
    while at < value.len() {
        match read_item(value, at) {
            None => return false,
            Some(item) => {
                if !is_sound_item(listed, firsts, value, &item) {
                    return false;
                }
                at = item.value_at + item.value_len;
            }
        }
    }
    true
}

/// The place of a set that isn't sound.
fn unsound_place(
    listed: &[bool],
    firsts: &BTreeMap<u128, usize>,
    bytes: &[u8],
    held: &Held,
) -> Option<u64>
    requires whole { length listed.now ≡ 2 ^ 16 }
    requires within { held.now.value_at + held.now.value_len ≤ length bytes.now }
    ensures { (tags : List ℕ) (sets : List SetAt) → IsTable listed.now tags → TellsFirsts firsts.now sets
        → result ≡ least (places_but (is_sound tags sets) (set_held bytes.now held.now ∷ [])) }
{
    if is_sound(listed, firsts, held_value(bytes, held)) {
        None
    } else {
        Some(held.at)
    }
}

/// The least place of a set that isn't sound.
pub(crate) fn least_unsound(
    listed: &[bool],
    firsts: &BTreeMap<u128, usize>,
    bytes: &[u8],
    sets: &[Held],
) -> Option<u64>
    requires whole { length listed.now ≡ 2 ^ 16 }
    requires within { AreWithin (length bytes.now) sets.now }
    ensures { (tags : List ℕ) (all : List SetAt) → IsTable listed.now tags → TellsFirsts firsts.now all
        → result ≡ least (places_but (is_sound tags all) (sets_held bytes.now sets.now)) }
{
    let mut bad = None;
    for k in 0..sets.len() {
        bad = lesser(bad, unsound_place(listed, firsts, bytes, &sets[k]));
    }
    bad
}
