//! Reading metadata.

ghost use Rattle.std.specs.Prelude.{◌≡◌, ◌≤◌, ◌^◌, ◌<◌, ℕ, List, Option, length, drop, IfOk, IfErr, IfSome};
ghost use Rattle.rec_bytes.specs.Configuration.{Fields};
ghost use Rattle.rec_bytes.specs.Ranges.{IsInRange};
ghost use Rattle.mxf_names.specs.Identifiers.{AreIds};
ghost use Rattle.mxf_names.specs.declared.ids.Ids.{Ids};
ghost use Rattle.mxf_metadata.specs.Metadata.{metadata};
ghost use Rattle.mxf_metadata_reader.specs.Written.{said};
ghost use Rattle.mxf_metadata_reader.specs.Reads.{IsReadSets, Refuses, fault_of};
ghost use Rattle.mxf_metadata_reader.specs.inner.Places.{AreWithin, HoldsIds, IsTable, sets_at};

use crate::fault::SetFault;
use crate::fields::{Sets, fields_of};
use crate::forms::sets_fault;
use crate::links::{ids_of, links_fault};
use crate::outline::{SetPlace, outline_of};
use crate::primer::read_primer;
use klv::items_are_unique;
use mxf_metadata::sets_are_linked;
use std::alloc::Global;
use std::collections::BTreeSet;

/// Reads what the sets of metadata say of a take.
pub fn read_sets(alloc: Global, bytes: &[u8]) -> Result<Sets, SetFault>
    ensures read { IfOk result (IsReadSets bytes.now) }

    ensures refused { IfErr result (Refuses bytes.now) }
{
    let primer = match read_primer(alloc, bytes) {
        Ok(primer) => primer,
        Err(fault) => return Err(fault),
    };
    let outline = match outline_of(alloc, bytes, primer.end) {
        Ok(outline) => outline,
        Err(_) => return Err(SetFault::Memory),
    };
    let ids = match ids_of(alloc, bytes, &outline.sets) {
        Ok(ids) => ids,
        Err(_) => return Err(SetFault::Memory),
    };
    match first_fault(&primer.listed, bytes, &outline.sets, outline.stop, &ids) {
        Some(fault) => Err(fault),
        None => Ok(fields_of(bytes, &outline.sets)),
    }
}

/// What is wrong first with sets, and with what is left behind them at a place.
fn first_fault(
    listed: &[bool],
    bytes: &[u8],
    sets: &[SetPlace],
    stop: usize,
    ids: &BTreeSet<u128>,
) -> Option<SetFault>
    requires whole { length listed.now ≡ 2 ^ 16 }
    requires within { AreWithin (length bytes.now) sets.now }
    requires place { stop ≤ length bytes.now }
    requires holds { HoldsIds ids.now (sets_at bytes.now sets.now) }
    ensures { (tags : List ℕ) → IsTable listed.now tags
        → result ≡ fault_of tags (sets_at bytes.now sets.now) stop (drop stop bytes.now) }
{
    match sets_fault(listed, bytes, sets) {
        Some(fault) => return Some(fault),
        None => {}
    }
    if stop < bytes.len() {
        return Some(SetFault::SetCut {
            at: stop as u64,
            tag: 0,
        });
    }
    links_fault(ids, bytes, sets)
}

/// Metadata says one thing, or breaks one rule first. It does nothing when it runs.
pub fn set_refusals_are_exact()
    ensures read { (bytes : List ℕ) (a b : Sets) → IsReadSets bytes a → IsReadSets bytes b → a ≡ b }
    ensures none { (bytes : List ℕ) (sets : Sets) (fault : SetFault) → IsReadSets bytes sets → Refuses bytes fault
        → fault ≡ SetFault.Memory }
    ensures one { (bytes : List ℕ) (a b : SetFault) → Refuses bytes a → Refuses bytes b
        → (a ≡ SetFault.Memory → ⊥) → (b ≡ SetFault.Memory → ⊥) → a ≡ b }
{
    items_are_unique();
}

/// What the metadata of a take says is read of it. It does nothing when it runs.
pub fn metadata_is_read()
    ensures { (cfg : Fields) (ids : Ids) (frames : Option ℕ) → AreIds ids → IsInRange cfg
        → IfSome frames (λ count. count < 2 ^ 63) → IsReadSets (metadata cfg ids frames) (said cfg ids frames) }
{
    sets_are_linked();
}
