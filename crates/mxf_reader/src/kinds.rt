//! The kinds of a file's partitions, in order.

ghost use Rattle.std.specs.Prelude.{◌≡◌, ◌∷◌, List};
ghost use Rattle.mxf_op1a.specs.Clauses.{broken_4, is_body};
ghost use Rattle.mxf_op1a.specs.Contents.{Placed};
ghost use Rattle.mxf_op1a.specs.Partitions.{parts};
ghost use Rattle.mxf_reader.specs.inner.Files.{AreSeen};
ghost use Rattle.mxf_reader.specs.inner.Rules.{bad_behind, is_first_kept, is_last_kept, seen_4};

use crate::file::SeenFile;
use crate::part::SeenPart;
use mxf_partitions::{PartitionKind, PartitionStatus};

/// A partition's pack is a body's.
fn is_body(p: &SeenPart) -> bool
    ensures { result ≡ is_body p.now.pack.kind }
{
    match p.pack.kind {
        PartitionKind::Body => true,
        PartitionKind::Header | PartitionKind::Footer => false,
    }
}

/// A partition's pack is an open and incomplete header's.
fn is_first_kept(p: &SeenPart) -> bool
    ensures { result ≡ is_first_kept p.now }
{
    matches!(p.pack.kind, PartitionKind::Header)
        && matches!(p.pack.status, PartitionStatus::OpenIncomplete)
}

/// A partition's pack is a closed and complete footer's that names itself.
fn is_last_kept(p: &SeenPart) -> bool
    ensures { result ≡ is_last_kept p.now }
{
    matches!(p.pack.kind, PartitionKind::Footer)
        && matches!(p.pack.status, PartitionStatus::ClosedComplete)
        && p.pack.footer == p.at
}

/// The first of partitions behind the header that is no body, or the last where it is no such footer.
fn bad_behind(first: &SeenPart, rest: &[SeenPart]) -> Option<u64>
    ensures { result ≡ bad_behind (first.now ∷ rest.now) }
{
    let mut last = *first;
    for p in rest {
        if !is_body(&last) {
            return Some(last.at);
        }
        last = *p;
    }
    if is_last_kept(&last) {
        None
    } else {
        Some(last.at)
    }
}

/// The first of a file's partitions that is of another kind than it should be, or the file's length where there is none.
fn bad_kind(len: u64, parts: &[SeenPart]) -> Option<u64>
    ensures { result ≡ seen_4 len parts.now }
{
    if parts.len() == 0 {
        return Some(len);
    }
    if parts.len() == 1 {
        return Some(parts[0].at);
    }
    if !is_first_kept(&parts[0]) {
        return Some(parts[0].at);
    }
    bad_behind(&parts[1], &parts[2..])
}

/// Where a partition is of another kind than it should be, or the file's length where there is none.
pub(crate) fn clause_4(file: &SeenFile) -> Option<u64>
    ensures { (items : List Placed) → AreSeen items file.now → result ≡ broken_4 file.now.len (parts file.now.len items) }
{
    bad_kind(file.len, &file.parts)
}
