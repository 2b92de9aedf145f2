//! The clauses of OP1a that what is kept of a file tells.

ghost use Rattle.std.specs.Prelude.{◌≡◌, ◌-◌, ◌≤◌, List, length, take, drop};
ghost use Rattle.mxf_op1a.specs.Clauses.{broken_1, broken_3, broken_5, broken_6, broken_10};
ghost use Rattle.mxf_op1a.specs.Contents.{Placed, is_pack};
ghost use Rattle.mxf_op1a.specs.Partitions.{file_of, parts, up_to};
ghost use Rattle.mxf_reader.specs.inner.Files.{AreSeen};
ghost use Rattle.mxf_reader.specs.inner.Rules.{end_seen, first_bad, first_other, keeps, lack_seen, lacks_element};
ghost use Rattle.mxf_reader.specs.inner.Rules.{misplaced_behind, run_len, seen_1, seen_6};

use crate::file::SeenFile;
use crate::mark::{Kind, Mark};
use crate::part::{SeenPart, first_of};

/// What each of some partitions is to keep.
#[derive(Clone, Copy, Debug, PartialEq, Eq)]
pub(crate) enum Rule {
    /// It names its own place and that of the one before.
    Places,
    /// Its body offset is what is before it in the essence stream.
    Offset,
    /// Header bytes and index bytes are the lengths of what stands there.
    Lengths,
}

/// The bytes of a run.
fn run_len(first: Option<u64>, until: Option<u64>, end: u64) -> u64
    ensures { result ≡ run_len first until end }
{
    match first {
        None => 0,
        Some(at) => match until {
            None => end.saturating_sub(at),
            Some(place) => place.saturating_sub(at),
        },
    }
}

/// The lengths that a pack says are those of what stands there.
fn has_lengths(p: &SeenPart) -> bool
    ensures { result ≡ keeps Rule.Lengths 0 p.now }
{
    p.pack.header_bytes == run_len(p.primer, p.primer_end, p.end)
        && p.pack.index_bytes == run_len(p.segment, p.segment_end, p.end)
}

/// A partition keeps a rule.
fn keeps(rule: Rule, before: u64, p: &SeenPart) -> bool
    ensures { result ≡ keeps rule before p.now }
{
    match rule {
        Rule::Places => p.pack.this == p.at && p.pack.previous == before,
        Rule::Offset => p.pack.body_offset == p.due,
        Rule::Lengths => has_lengths(p),
    }
}

/// The first of partitions that doesn't keep a rule.
fn first_bad(rule: Rule, parts: &[SeenPart]) -> Option<u64>
    ensures { result ≡ first_bad rule 0 parts.now }
{
    let mut before = 0u64;
    for p in parts {
        if !keeps(rule, before, p) {
            return Some(p.at);
        }
        before = p.at;
    }
    None
}

/// The file's length, where the last item is no random index pack.
fn end_seen(len: u64, last: Option<Mark>) -> Option<u64>
    ensures { result ≡ end_seen len last }
{
    match last {
        None => Some(len),
        Some(m) => match m.kind {
            Kind::RandomIndexPack => None,
            _ => Some(len),
        },
    }
}

/// Where the file isn't items with a random index pack at their end.
pub(crate) fn clause_1(file: &SeenFile) -> Option<u64>
    ensures { (items : List Placed) → AreSeen items file.now → result ≡ broken_1 file.now.stop file.now.len items }
{
    if file.stop < file.len {
        return Some(file.stop);
    }
    end_seen(file.len, file.last)
}

/// Where a pack doesn't name its own place or that of the one before.
pub(crate) fn clause_3(file: &SeenFile) -> Option<u64>
    ensures { (items : List Placed) → AreSeen items file.now → result ≡ broken_3 0 (parts file.now.len items) }
{
    first_bad(Rule::Places, &file.parts)
}

/// The partitions between the first and the last.
fn bodies(parts: &[SeenPart]) -> &[SeenPart]
    requires { 2 ≤ length parts.now }
    ensures { result.now ≡ take (length parts.now - 2) (drop 1 parts.now) }
{
    &parts[1..parts.len() - 1]
}

/// The first element of bodies whose key isn't the picture element's.
fn first_other(bodies: &[SeenPart]) -> Option<u64>
    ensures { result ≡ first_other bodies.now }
{
    for body in bodies {
        if body.other.is_some() {
            return body.other;
        }
    }
    None
}

/// A body has no element.
fn lacks_element(bodies: &[SeenPart]) -> bool
    ensures { result ≡ lacks_element bodies.now }
{
    for body in bodies {
        if body.element.is_none() {
            return true;
        }
    }
    false
}

/// Where a body's offset isn't what is before it in the essence stream.
pub(crate) fn clause_5(file: &SeenFile) -> Option<u64>
    ensures { (items : List Placed) → AreSeen items file.now → result ≡ broken_5 0 (file_of (parts file.now.len items)).bodies }
{
    if file.parts.len() < 2 {
        return None;
    }
    first_bad(Rule::Offset, bodies(&file.parts))
}

/// The file's length, where a body has no element.
fn lack_seen(len: u64, bodies: &[SeenPart]) -> Option<u64>
    ensures { result ≡ lack_seen len bodies.now }
{
    if lacks_element(bodies) {
        Some(len)
    } else {
        None
    }
}

/// Behind the header, the first element with another key than the picture element's or in the footer, or the file's length
/// where a body has none.
fn misplaced_behind(len: u64, rest: &[SeenPart]) -> Option<u64>
    ensures { result ≡ misplaced_behind len rest.now }
{
    if rest.len() == 0 {
        return None;
    }
    let bodies = &rest[..rest.len() - 1];
    let footer = rest[rest.len() - 1];
    let lacking = first_of(footer.element, lack_seen(len, bodies));
    first_of(first_other(bodies), lacking)
}

/// The first element of partitions that stands elsewhere than in a body, or has another key than the picture element's, or
/// the file's length where a body has none.
fn misplaced(len: u64, parts: &[SeenPart]) -> Option<u64>
    ensures { result ≡ seen_6 len parts.now }
{
    if parts.len() == 0 {
        return None;
    }
    let header = parts[0];
    first_of(header.element, misplaced_behind(len, &parts[1..]))
}

/// The first element that stands elsewhere than in a body, or has another key than the picture element's, or the file's
/// length where a body has none.
pub(crate) fn clause_6(file: &SeenFile) -> Option<u64>
    ensures { (items : List Placed) → AreSeen items file.now
        → result ≡ broken_6 file.now.len (up_to is_pack items) (file_of (parts file.now.len items)) }
{
    first_of(file.front, misplaced(file.len, &file.parts))
}

/// Where header bytes or index bytes aren't the lengths of what stands there.
pub(crate) fn clause_10(file: &SeenFile) -> Option<u64>
    ensures { (items : List Placed) → AreSeen items file.now → result ≡ broken_10 (parts file.now.len items) }
{
    first_bad(Rule::Lengths, &file.parts)
}
