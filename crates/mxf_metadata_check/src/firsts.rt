//! Which set has an identifier first.

ghost use Rattle.std.specs.Prelude.{◌≡◌, ◌≤◌, ◌+◌, ℕ, List, length, take, drop, IfOk, OnOk};
ghost use Rattle.std.specs.BTreeMap.{get};
ghost use Rattle.std.specs.Option.{option_or};
ghost use Rattle.std.specs.Ordering.{nat_cmp};
ghost use Rattle.mxf_metadata_reader.specs.inner.Own.{number_is};
ghost use Rattle.mxf_op1a.specs.Metadata.{SetAt};
ghost use Rattle.mxf_metadata_check.specs.inner.Firsts.{TellsFirsts, index_with, is_there, some_if};
ghost use Rattle.mxf_metadata_check.specs.inner.Held.{AreWithin, sets_held};

use crate::outline::Held;
use byteorder::{BigEndian, ByteOrder};
use local_sets::ID_LEN;
use mxf_metadata_reader::own_number;
use std::alloc::{AllocError, Global};
use std::collections::BTreeMap;

/// Keeps the number of a set under that of its identifier, if it has one that no set before has.
fn keep_first(
    firsts: &mut BTreeMap<u128, usize>,
    number: Option<u128>,
    k: usize,
) -> Result<(), AllocError>
    ensures { OnOk result ((q : ℕ) → get nat_cmp firsts.new q ≡ option_or (get nat_cmp firsts.old q) (some_if (number_is q number) k)) }
{
    match number {
        None => Ok(()),
        Some(number) => {
            if firsts.contains_key(&number) {
                return Ok(());
            }
            match firsts.insert(number, k) {
                Ok(_) => Ok(()),
                Err(_) => Err(AllocError),
            }
        }
    }
}

/// The value of a set.
pub(crate) fn held_value<'a>(bytes: &'a [u8], held: &Held) -> &'a [u8]
    requires { held.now.value_at + held.now.value_len ≤ length bytes.now }
    ensures { result.now ≡ take held.now.value_len (drop held.now.value_at bytes.now) }
{
    &bytes[held.value_at..held.value_at + held.value_len]
}

/// The number of the first set with each identifier.
pub(crate) fn firsts_of(
    alloc: Global,
    bytes: &[u8],
    sets: &[Held],
) -> Result<BTreeMap<u128, usize>, AllocError>
    requires { AreWithin (length bytes.now) sets.now }
    ensures { IfOk result (λ firsts. TellsFirsts firsts (sets_held bytes.now sets.now)) }
{
    let mut firsts = BTreeMap::new(alloc);
    for k in 0..sets.len() {
        let value = held_value(bytes, &sets[k]);
        keep_first(&mut firsts, own_number(value), k)?;
    }
    Ok(firsts)
}

/// The number of the first set with an identifier.
pub(crate) fn first_of(firsts: &BTreeMap<u128, usize>, id: &[u8]) -> Option<usize>
    ensures { (sets : List SetAt) → TellsFirsts firsts.now sets → result ≡ index_with sets id.now }
{
    if id.len() != ID_LEN {
        return None;
    }
    match firsts.get(&BigEndian::read_u128(id)) {
        None => None,
        Some(k) => Some(*k),
    }
}

/// Whether a set has an identifier.
pub(crate) fn is_there(firsts: &BTreeMap<u128, usize>, id: &[u8]) -> bool
    ensures { (sets : List SetAt) → TellsFirsts firsts.now sets → result ≡ is_there sets id.now }
{
    first_of(firsts, id).is_some()
}
