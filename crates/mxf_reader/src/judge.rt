//! The first clause of OP1a that a file breaks.

ghost use Rattle.std.specs.Prelude.{◌≡◌, List, None, Some, length, IfOk};
ghost use Rattle.take_disk.specs.Calls.{Stays};
ghost use Rattle.take_disk.specs.Held.{Disk};
ghost use Rattle.take_disk.specs.declared.area.Area.{Area};
ghost use Rattle.mxf_op1a.specs.Clauses.{broken_6};
ghost use Rattle.mxf_op1a.specs.Contents.{Placed, is_pack, placed_from};
ghost use Rattle.mxf_op1a.specs.Op1a.{first_broken, or_next};
ghost use Rattle.mxf_op1a.specs.Partitions.{file_of, parts, up_to};
ghost use Rattle.take_disk.specs.Elapsed.{Elapsed};
ghost use Rattle.mxf_reader.specs.Calls.{HasReadCause};
ghost use Rattle.mxf_reader.specs.inner.Files.{AreSeen, IsSeen};
ghost use Rattle.mxf_reader.specs.inner.Inside.{IsInside};
ghost use Rattle.mxf_reader.specs.inner.Judged.{contents_broken, order_broken, structure_broken};

use crate::clauses::{clause_1, clause_3, clause_5, clause_6, clause_10};
use crate::fault::CheckFault;
use crate::file::SeenFile;
use crate::index::clause_9;
use crate::kinds::clause_4;
use crate::metadata::{clause_7, clause_8};
use crate::names::clause_2;
use mxf_op1a::Break;
use std::alloc::Global;
use take_disk::{Area, TakeDisk};

/// The first clause that a file breaks, and where.
pub(crate) fn judge<D: TakeDisk>(
    alloc: Global,
    disk: &mut D,
    file: &SeenFile,
) -> Result<Option<Break>, CheckFault>
    requires inside { IsInside (D.length_of disk.old Area.Essence) file.now }
    ensures broken { IfOk result (λ broken. (told : Disk) → D.told disk.old ≡ Some told → (seen : IsSeen told.essence.reads file.now)
        → first_broken (length told.essence.reads) seen.outline.items ≡ broken) }
    ensures stays { Stays (D.told disk.old) (D.told disk.new) (D.length_of disk.old) (D.length_of disk.new) }
    ensures time { Elapsed (D.moment disk.old) (D.moment disk.new) (D.images_since disk.old) (D.images_since disk.new)
        (D.made disk.old) (D.made disk.new) }
    ensures cause { HasReadCause (D.fault_count disk.old) (D.fault_count disk.new) result }
{
    match judge_structure(alloc, disk, file)? {
        Some(broken) => Ok(Some(broken)),
        None => judge_contents(alloc, disk, file),
    }
}

/// The first that a file breaks of the clauses on partitions and on where elements stand.
fn judge_structure<D: TakeDisk>(
    alloc: Global,
    disk: &mut D,
    file: &SeenFile,
) -> Result<Option<Break>, CheckFault>
    requires inside { IsInside (D.length_of disk.old Area.Essence) file.now }
    ensures broken { IfOk result (λ broken. (told : Disk) → D.told disk.old ≡ Some told → (seen : IsSeen told.essence.reads file.now)
        → structure_broken file.now.len file.now.stop (placed_from 0 seen.outline.items) ≡ broken) }
    ensures stays { Stays (D.told disk.old) (D.told disk.new) (D.length_of disk.old) (D.length_of disk.new) }
    ensures time { Elapsed (D.moment disk.old) (D.moment disk.new) (D.images_since disk.old) (D.images_since disk.new)
        (D.made disk.old) (D.made disk.new) }
    ensures cause { HasReadCause (D.fault_count disk.old) (D.fault_count disk.new) result }
{
    if let Some(at) = clause_1(file) {
        return Ok(Some(Break { clause: 1, at }));
    }
    match clause_2(alloc, disk, file)? {
        Some(at) => Ok(Some(Break { clause: 2, at })),
        None => Ok(judge_order(file)),
    }
}

/// The first that a file breaks of the clauses that what is kept of it tells by itself, behind its end.
fn judge_order(file: &SeenFile) -> Option<Break>
    ensures { (items : List Placed) → AreSeen items file.now → result ≡ order_broken file.now.len items }
{
    let elements = or_next(6, clause_6(file), None);
    let offsets = or_next(5, clause_5(file), elements);
    let kinds = or_next(4, clause_4(file), offsets);
    or_next(3, clause_3(file), kinds)
}

/// The first that a file breaks of the clauses on metadata, index tables and lengths, where elements stand only in bodies.
fn judge_contents<D: TakeDisk>(
    alloc: Global,
    disk: &mut D,
    file: &SeenFile,
) -> Result<Option<Break>, CheckFault>
    requires inside { IsInside (D.length_of disk.old Area.Essence) file.now }
    ensures broken { IfOk result (λ broken. (told : Disk) → D.told disk.old ≡ Some told → (seen : IsSeen told.essence.reads file.now)
        → broken_6 file.now.len (up_to is_pack (placed_from 0 seen.outline.items)) (file_of (parts file.now.len (placed_from 0 seen.outline.items))) ≡ None
        → contents_broken file.now.len (placed_from 0 seen.outline.items) ≡ broken) }
    ensures stays { Stays (D.told disk.old) (D.told disk.new) (D.length_of disk.old) (D.length_of disk.new) }
    ensures time { Elapsed (D.moment disk.old) (D.moment disk.new) (D.images_since disk.old) (D.images_since disk.new)
        (D.made disk.old) (D.made disk.new) }
    ensures cause { HasReadCause (D.fault_count disk.old) (D.fault_count disk.new) result }
{
    if let Some(at) = clause_7(alloc, disk, file)? {
        return Ok(Some(Break { clause: 7, at }));
    }
    if let Some(at) = clause_8(alloc, disk, file)? {
        return Ok(Some(Break { clause: 8, at }));
    }
    if let Some(at) = clause_9(alloc, disk, file)? {
        return Ok(Some(Break { clause: 9, at }));
    }
    Ok(or_next(10, clause_10(file), None))
}

/// A clause where it is broken, or else what is broken behind it.
fn or_next(clause: u64, place: Option<u64>, next: Option<Break>) -> Option<Break>
    ensures { result ≡ or_next clause place next }
{
    match place {
        Some(at) => Some(Break { clause, at }),
        None => next,
    }
}
