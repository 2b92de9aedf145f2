//! What is wrong with metadata.

ghost use Rattle.std.specs.Prelude.{◌≡◌, ◌≤◌, ◌<◌, ◌^◌, ◌+◌, ℕ, List, length, drop, Some, IfOk};
ghost use Rattle.std.specs.List.{flat_map};
ghost use Rattle.klv.specs.Items.{AreItems, Item};
ghost use Rattle.mxf_metadata.specs.declared.labels.TheConstants.{FILE_SET, MATERIAL_SET};
ghost use Rattle.mxf_metadata_reader.specs.inner.Places.{IsTable};
ghost use Rattle.mxf_op1a.specs.Metadata.{SetAt, all_of_kind, has_one_clip, is_of_file, least, material_clips, places_but, sequences_of, wrong_sets};
ghost use Rattle.mxf_metadata_check.specs.Metadata.{AreMetadata, least_wrong};
ghost use Rattle.mxf_metadata_check.specs.inner.Chain.{HasLeast, Tells, is_picture};
ghost use Rattle.mxf_metadata_check.specs.inner.Firsts.{TellsFirsts};
ghost use Rattle.mxf_metadata_check.specs.inner.Held.{AreWithin, sets_among, sets_held};

use crate::chain::{least_named, least_of_kind, places_but, where_true};
use crate::firsts::firsts_of;
use crate::flags::{of_files, one_clips, pictures};
use crate::outline::{Held, sets_of};
use crate::sound::{least_unsound, lesser};
use klv::items_are_unique;
use mxf_metadata::{
    CLIP_SET, FILE_SET, MATERIAL_SET, SEQUENCE, SEQUENCE_SET, STRUCTURAL_COMPONENTS, TRACK_SET,
    TRACKS,
};
use mxf_metadata_reader::{SetFault, read_primer};
use rec_bytes::Memory;
use std::alloc::{AllocError, Global};
use std::collections::BTreeMap;

/// The least of what is kept of the picture sequences of packages of a kind.
fn least_of_sequences(
    alloc: Global,
    bytes: &[u8],
    sets: &[Held],
    firsts: &BTreeMap<u128, usize>,
    pictures: &[bool],
    values: &[Option<u64>],
    kind: u8,
) -> Result<Option<u64>, AllocError>
    requires within { AreWithin (length bytes.now) sets.now }
    requires firsts { TellsFirsts firsts.now (sets_held bytes.now sets.now) }
    requires pictures { Tells is_picture (sets_held bytes.now sets.now) pictures.now }
    requires values { length values.now ≡ length sets.now }
    ensures { IfOk result (λ place. (places : SetAt → List ℕ) → HasLeast places (sets_held bytes.now sets.now) values.now
        → place ≡ least (flat_map places (sequences_of (sets_held bytes.now sets.now) kind))) }
{
    let pictured = where_true(alloc, pictures, values)?;
    let tracks = least_named(
        alloc,
        bytes,
        sets,
        firsts,
        &pictured,
        SEQUENCE,
        SEQUENCE_SET,
    )?;
    let packages = least_named(alloc, bytes, sets, firsts, &tracks, TRACKS, TRACK_SET)?;
    Ok(least_of_kind(sets, &packages, kind))
}

/// The least place of a clip of the material package's picture sequences that isn't of the file package.
fn least_clip(
    alloc: Global,
    bytes: &[u8],
    sets: &[Held],
    firsts: &BTreeMap<u128, usize>,
    pictures: &[bool],
    ones: &[bool],
) -> Result<Option<u64>, AllocError>
    requires within { AreWithin (length bytes.now) sets.now }
    requires firsts { TellsFirsts firsts.now (sets_held bytes.now sets.now) }
    requires pictures { Tells is_picture (sets_held bytes.now sets.now) pictures.now }
    requires ones { Tells (has_one_clip (sets_held bytes.now sets.now)) (sets_held bytes.now sets.now) ones.now }
    ensures { IfOk result (λ place. place
        ≡ least (places_but (is_of_file (all_of_kind FILE_SET (sets_held bytes.now sets.now))) (material_clips (sets_held bytes.now sets.now)))) }
{
    let files = of_files(alloc, bytes, sets)?;
    let others = places_but(alloc, sets, &files)?;
    let named = least_named(
        alloc,
        bytes,
        sets,
        firsts,
        &others,
        STRUCTURAL_COMPONENTS,
        CLIP_SET,
    )?;
    let clips = where_true(alloc, ones, &named)?;
    least_of_sequences(alloc, bytes, sets, firsts, pictures, &clips, MATERIAL_SET)
}

/// The least place of a picture sequence of packages of a kind that doesn't name one clip.
fn least_clipless(
    alloc: Global,
    bytes: &[u8],
    sets: &[Held],
    firsts: &BTreeMap<u128, usize>,
    pictures: &[bool],
    ones: &[bool],
    kind: u8,
) -> Result<Option<u64>, AllocError>
    requires within { AreWithin (length bytes.now) sets.now }
    requires firsts { TellsFirsts firsts.now (sets_held bytes.now sets.now) }
    requires pictures { Tells is_picture (sets_held bytes.now sets.now) pictures.now }
    requires ones { Tells (has_one_clip (sets_held bytes.now sets.now)) (sets_held bytes.now sets.now) ones.now }
    ensures { IfOk result (λ place. place
        ≡ least (places_but (has_one_clip (sets_held bytes.now sets.now)) (sequences_of (sets_held bytes.now sets.now) kind))) }
{
    let clipless = places_but(alloc, sets, ones)?;
    least_of_sequences(alloc, bytes, sets, firsts, pictures, &clipless, kind)
}

/// The least place of a set that is wrong.
fn least_wrong(
    alloc: Global,
    listed: &[bool],
    bytes: &[u8],
    sets: &[Held],
) -> Result<Option<u64>, AllocError>
    requires whole { length listed.now ≡ 2 ^ 16 }
    requires within { AreWithin (length bytes.now) sets.now }
    ensures { IfOk result (λ place. (tags : List ℕ) → IsTable listed.now tags → place ≡ least (wrong_sets tags (sets_held bytes.now sets.now))) }
{
    let firsts = firsts_of(alloc, bytes, sets)?;
    let pictures = pictures(alloc, bytes, sets)?;
    let ones = one_clips(alloc, bytes, sets, &firsts)?;
    let unsound = least_unsound(listed, &firsts, bytes, sets);
    let material = least_clipless(alloc, bytes, sets, &firsts, &pictures, &ones, MATERIAL_SET)?;
    let file = least_clipless(alloc, bytes, sets, &firsts, &pictures, &ones, FILE_SET)?;
    let clip = least_clip(alloc, bytes, sets, &firsts, &pictures, &ones)?;
    Ok(lesser(lesser(lesser(unsound, material), file), clip))
}

/// The least place of a set that is wrong, behind a primer pack that ends at a place of the bytes.
fn wrong_behind(
    alloc: Global,
    listed: &[bool],
    bytes: &[u8],
    start: usize,
    at: u64,
) -> Result<Option<u64>, AllocError>
    requires whole { length listed.now ≡ 2 ^ 16 }
    requires place { start ≤ length bytes.now }
    requires fits { at + length bytes.now < 2 ^ 64 }
    ensures { IfOk result (λ place. (tags : List ℕ) (items : List Item) → IsTable listed.now tags → AreItems (drop start bytes.now) items
        → least (wrong_sets tags (sets_among (at + start) items)) ≡ place) }
{
    let sets = sets_of(alloc, bytes, start, at)?;
    least_wrong(alloc, listed, bytes, &sets)
}

/// The least place where metadata are wrong: that of the primer pack where it lists no tags, and else of a set. The pack
/// stands in the file from `at` on.
pub fn first_wrong(alloc: Global, bytes: &[u8], at: u64) -> Result<Option<u64>, Memory>
    requires { at + length bytes.now < 2 ^ 64 }
    ensures { IfOk result (λ place. (primer : Item) (items : List Item) → AreMetadata bytes.now primer items
        → least_wrong at primer items ≡ place) }
{
    items_are_unique();
    match read_primer(alloc, bytes) {
        Ok(primer) => match wrong_behind(alloc, &primer.listed, bytes, primer.end, at) {
            Ok(place) => Ok(place),
            Err(_) => Err(Memory),
        },
        Err(fault) => without_primer(fault, at),
    }
}

/// The place of a primer pack that lists no tags.
fn without_primer(fault: SetFault, at: u64) -> Result<Option<u64>, Memory>
    ensures { IfOk result (λ place. (place ≡ Some at) × (fault ≡ SetFault.Memory → ⊥)) }
{
    match fault {
        SetFault::Memory => Err(Memory),
        SetFault::NotPrimer => Ok(Some(at)),
        SetFault::UnknownTag { .. } => Ok(Some(at)),
        SetFault::SetCut { .. } => Ok(Some(at)),
        SetFault::ItemSize { .. } => Ok(Some(at)),
        SetFault::BrokenReference { .. } => Ok(Some(at)),
    }
}
