//! What is kept of the items of a file.

ghost use Rattle.std.specs.Prelude.{◌≡◌, ◌≤◌, ◌+◌, ◌++◌, [], ◌∷◌, List, Option, OnOk};
ghost use Rattle.mxf_reader.specs.inner.Inside.{IsSeenInside};
ghost use Rattle.mxf_reader.specs.inner.Kept.{IsKept, element_of, front_place, last_next, offset_in, seen_element, segment_of};
ghost use Rattle.mxf_reader.specs.inner.Parts.{IsWithin};

use crate::mark::{Kind, Mark};
use crate::part::{SeenPart, element_place, first_of, going_next, keep_closed, offset_at};
use std::alloc::{AllocError, Global};
use take_layout::Place;

/// What is kept of items.
#[derive(Debug, Drop)]
pub struct Seen {
    /// The partitions that ended.
    pub closed: Vec<SeenPart>,
    /// The partition that goes on.
    pub going: Option<SeenPart>,
    /// The first element before all packs.
    pub front: Option<u64>,
    /// Where the elements' values lie.
    pub elements: Vec<Place>,
    /// The index table segments.
    pub segments: Vec<Mark>,
    /// The last item that isn't fill.
    pub last: Option<Mark>,
}

/// The place of an element before all packs.
fn front_place(going: &Option<SeenPart>, m: &Mark) -> Option<u64>
    ensures { result ≡ front_place going.now m.now }
{
    match going {
        None => element_place(m),
        Some(_) => None,
    }
}

/// The last item that isn't fill.
fn last_next(last: Option<Mark>, m: &Mark) -> Option<Mark>
    ensures { result ≡ last_next last m.now }
{
    match m.kind {
        Kind::Filler => last,
        _ => Some(*m),
    }
}

/// An element's place in the essence stream.
fn offset_in(going: &Option<SeenPart>, at: u64) -> u64
    requires { IsWithin at going.now }
    ensures { result ≡ offset_in going.now at }
{
    match going {
        None => 0,
        Some(p) => offset_at(p, at),
    }
}

/// Keeps an item that is an element.
fn keep_element(
    elements: &mut Vec<Place>,
    going: &Option<SeenPart>,
    m: &Mark,
) -> Result<(), AllocError>
    requires { IsWithin m.now.at going.now }
    ensures { OnOk result (elements.new.items ≡ elements.old.items ++ element_of going.now m.now) }
{
    match m.kind {
        Kind::EssenceElement => {
            elements.push(Place {
                at: m.value_at,
                stream: offset_in(going, m.at),
                len: m.value_len,
            })?;
            Ok(())
        }
        _ => Ok(()),
    }
}

/// Keeps an item that is a segment.
fn keep_segment(segments: &mut Vec<Mark>, m: &Mark) -> Result<(), AllocError>
    ensures { OnOk result (segments.new.items ≡ segments.old.items ++ segment_of m.now) }
{
    match m.kind {
        Kind::IndexSegment => {
            segments.push(*m)?;
            Ok(())
        }
        _ => Ok(()),
    }
}

/// Nothing is kept yet.
pub(crate) fn nothing(alloc: Global) -> Seen
    ensures none { IsKept result [] }
    ensures inside { IsSeenInside 0 result }
    ensures going { result.going ≡ Option.None }
{
    Seen {
        closed: Vec::new(alloc),
        going: None,
        front: None,
        elements: Vec::new(alloc),
        segments: Vec::new(alloc),
        last: None,
    }
}

/// Keeps what an item says.
pub(crate) fn keep(seen: &mut Seen, m: &Mark) -> Result<(), AllocError>
    requires { IsWithin m.now.at seen.old.going }
    ensures kept { OnOk result ((ms : List Mark) → IsKept seen.old ms → IsKept seen.new (ms ++ m.now ∷ [])) }
    ensures within { OnOk result (IsWithin m.now.at seen.new.going) }
    ensures inside { OnOk result (IsSeenInside m.now.at seen.old → m.now.at ≤ m.now.value_at
        → IsSeenInside (m.now.value_at + m.now.value_len) seen.new) }
{
    keep_closed(&mut seen.closed, &seen.going, m)?;
    keep_element(&mut seen.elements, &seen.going, m)?;
    keep_segment(&mut seen.segments, m)?;
    seen.front = first_of(seen.front, front_place(&seen.going, m));
    seen.going = going_next(&seen.going, m);
    seen.last = last_next(seen.last, m);
    Ok(())
}
