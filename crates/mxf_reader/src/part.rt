//! What is kept of a partition, as its items go by.

ghost use Rattle.std.specs.Prelude.{◌≡◌, ◌≤◌, ◌++◌, List, Option, OnOk};
ghost use Rattle.mxf_reader.specs.inner.Parts.{IsWithin, closed_at, closed_one, due_behind, element_place, end_next, ended, first_of, fresh};
ghost use Rattle.mxf_reader.specs.inner.Parts.{going_next, is_first, item_next, offset_at, other_place, primer_place};
ghost use Rattle.mxf_reader.specs.inner.Parts.{segment_place, segments_end, sets_end, with_item};

use crate::mark::{Kind, Mark};
use mxf_partitions::Partition;
use std::alloc::AllocError;

/// What is kept of a partition. Places are those of keys.
#[derive(Clone, Copy, Debug, PartialEq, Eq)]
pub struct SeenPart {
    /// Its pack's place.
    pub at: u64,
    /// What the pack says.
    pub pack: Partition,
    /// It is the file's first.
    pub is_first: bool,
    /// What the partitions before it, but the first, add to the essence stream.
    pub due: u64,
    /// Its first element.
    pub element: Option<u64>,
    /// Its first element whose key isn't the picture element's.
    pub other: Option<u64>,
    /// Its first primer.
    pub primer: Option<u64>,
    /// What ends the sets behind that primer, none where they go on to the partition's end.
    pub primer_end: Option<u64>,
    /// Its first segment.
    pub segment: Option<u64>,
    /// What ends the segments behind that one, none where they go on to the partition's end.
    pub segment_end: Option<u64>,
    /// Where it ends.
    pub end: u64,
}

/// The place of an item that is an element.
pub(crate) fn element_place(m: &Mark) -> Option<u64>
    ensures { result ≡ element_place m.now.kind m.now.at }
{
    match m.kind {
        Kind::EssenceElement => Some(m.at),
        _ => None,
    }
}

/// The place of an item that is an element with another key than the picture element's.
fn other_place(m: &Mark) -> Option<u64>
    ensures { result ≡ other_place m.now.is_picture m.now.kind m.now.at }
{
    if m.is_picture {
        return None;
    }
    element_place(m)
}

/// The place of an item that is a primer.
fn primer_place(m: &Mark) -> Option<u64>
    ensures { result ≡ primer_place m.now.kind m.now.at }
{
    match m.kind {
        Kind::PrimerPack => Some(m.at),
        _ => None,
    }
}

/// The place of an item that is a segment.
fn segment_place(m: &Mark) -> Option<u64>
    ensures { result ≡ segment_place m.now.kind m.now.at }
{
    match m.kind {
        Kind::IndexSegment => Some(m.at),
        _ => None,
    }
}

/// The place of an item that is neither a set nor fill.
fn sets_end(m: &Mark) -> Option<u64>
    ensures { result ≡ sets_end m.now.kind m.now.at }
{
    match m.kind {
        Kind::MetadataSet | Kind::Filler => None,
        _ => Some(m.at),
    }
}

/// The place of an item that is neither a segment nor fill.
fn segments_end(m: &Mark) -> Option<u64>
    ensures { result ≡ segments_end m.now.kind m.now.at }
{
    match m.kind {
        Kind::IndexSegment | Kind::Filler => None,
        _ => Some(m.at),
    }
}

/// The first of two places.
pub(crate) fn first_of(first: Option<u64>, next: Option<u64>) -> Option<u64>
    ensures { result ≡ first_of first next }
{
    match first {
        Some(at) => Some(at),
        None => next,
    }
}

/// Where a run ends, one place later.
fn end_next(first: Option<u64>, end: Option<u64>, next: Option<u64>) -> Option<u64>
    ensures { result ≡ end_next first end next }
{
    match first {
        None => None,
        Some(_) => match end {
            Some(at) => Some(at),
            None => next,
        },
    }
}

/// A partition with one more item.
fn with_item(p: &SeenPart, m: &Mark) -> SeenPart
    ensures { result ≡ with_item p.now m.now }
{
    SeenPart {
        at: p.at,
        pack: p.pack,
        is_first: p.is_first,
        due: p.due,
        element: first_of(p.element, element_place(m)),
        other: first_of(p.other, other_place(m)),
        primer: first_of(p.primer, primer_place(m)),
        primer_end: end_next(p.primer, p.primer_end, sets_end(m)),
        segment: first_of(p.segment, segment_place(m)),
        segment_end: end_next(p.segment, p.segment_end, segments_end(m)),
        end: p.end,
    }
}

/// The bytes of the essence stream before a place behind the partition's first element.
pub(crate) fn offset_at(p: &SeenPart, at: u64) -> u64
    requires { IsWithin at (Option.Some p.now) }
    ensures offset { result ≡ offset_at p.now at }
    ensures least { result ≤ at }
{
    match p.element {
        Some(first) => p.due + (at - first),
        None => p.due,
    }
}

/// What the partitions so far, but the first, add to the essence stream, where the one that goes on ends.
fn due_behind(going: &Option<SeenPart>, end: u64) -> u64
    requires { IsWithin end going.now }
    ensures due { result ≡ due_behind going.now end }
    ensures least { result ≤ end }
{
    match going {
        None => 0,
        Some(p) => { if p.is_first { 0 } else { offset_at(p, end) } }
    }
}

/// The partition that a pack begins.
fn fresh(going: &Option<SeenPart>, at: u64, pack: Partition) -> SeenPart
    requires { IsWithin at going.now }
    ensures fresh { result ≡ fresh (is_first going.now) (due_behind going.now at) at pack }
    ensures within { IsWithin at (Option.Some result) }
{
    SeenPart {
        at,
        pack,
        is_first: going.is_none(),
        due: due_behind(going, at),
        element: None,
        other: None,
        primer: None,
        primer_end: None,
        segment: None,
        segment_end: None,
        end: at,
    }
}

/// The partition that goes on with an item that is no pack.
fn item_next(going: &Option<SeenPart>, m: &Mark) -> Option<SeenPart>
    requires { IsWithin m.now.at going.now }
    ensures next { result ≡ item_next going.now m.now }
    ensures within { IsWithin m.now.at result }
{
    match going {
        None => None,
        Some(p) => Some(with_item(p, m)),
    }
}

/// The partition that goes on behind an item.
pub(crate) fn going_next(going: &Option<SeenPart>, m: &Mark) -> Option<SeenPart>
    requires { IsWithin m.now.at going.now }
    ensures next { result ≡ going_next going.now m.now }
    ensures within { IsWithin m.now.at result }
{
    match m.kind {
        Kind::PartitionPack(pack) => Some(fresh(going, m.at, pack)),
        _ => item_next(going, m),
    }
}

/// A partition that ends at a place.
fn ended(end: u64, p: &SeenPart) -> SeenPart
    ensures { result ≡ ended end p.now }
{
    SeenPart {
        at: p.at,
        pack: p.pack,
        is_first: p.is_first,
        due: p.due,
        element: p.element,
        other: p.other,
        primer: p.primer,
        primer_end: p.primer_end,
        segment: p.segment,
        segment_end: p.segment_end,
        end,
    }
}

/// Keeps the partition that ends at a place.
pub(crate) fn close_at(
    closed: &mut Vec<SeenPart>,
    going: &Option<SeenPart>,
    end: u64,
) -> Result<(), AllocError>
    ensures { OnOk result (closed.new.items ≡ closed.old.items ++ closed_at end going.now) }
{
    match going {
        None => Ok(()),
        Some(p) => {
            closed.push(ended(end, p))?;
            Ok(())
        }
    }
}

/// Keeps the partition that ends where an item begins, if it is a pack.
pub(crate) fn keep_closed(
    closed: &mut Vec<SeenPart>,
    going: &Option<SeenPart>,
    m: &Mark,
) -> Result<(), AllocError>
    ensures { OnOk result (closed.new.items ≡ closed.old.items ++ closed_one going.now m.now) }
{
    match m.kind {
        Kind::PartitionPack(_) => close_at(closed, going, m.at),
        _ => Ok(()),
    }
}
