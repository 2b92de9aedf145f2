//! What is kept of a whole file.

ghost use Rattle.std.specs.Prelude.{◌≡◌, Some, IfOk};
ghost use Rattle.take_disk.specs.Calls.{Stays};
ghost use Rattle.take_disk.specs.Held.{Disk};
ghost use Rattle.take_disk.specs.declared.area.Area.{Area};
ghost use Rattle.take_disk.specs.Elapsed.{Elapsed};
ghost use Rattle.mxf_reader.specs.Calls.{HasReadCause};
ghost use Rattle.mxf_reader.specs.inner.Files.{IsClosed, IsSeen};
ghost use Rattle.mxf_reader.specs.inner.Inside.{IsInside};

use crate::fault::CheckFault;
use crate::items::{Walked, walk_items};
use crate::mark::Mark;
use crate::part::{SeenPart, close_at};
use crate::seen::Seen;
use std::alloc::{AllocError, Global};
use take_disk::{Area, TakeDisk};
use take_layout::Place;

/// What is kept of a whole file.
#[derive(Debug, Drop)]
pub struct SeenFile {
    /// Its partitions.
    pub parts: Vec<SeenPart>,
    /// The first element before all packs.
    pub front: Option<u64>,
    /// Where the elements' values lie.
    pub elements: Vec<Place>,
    /// The index table segments.
    pub segments: Vec<Mark>,
    /// The last item that isn't fill.
    pub last: Option<Mark>,
    /// Where the items end.
    pub stop: u64,
    /// The file's length.
    pub len: u64,
}

/// The last partition ends with the file.
fn close(walked: Walked, len: u64) -> Result<SeenFile, AllocError>
    ensures { IfOk result (IsClosed walked len) }
{
    let Walked { seen, stop } = walked;
    let Seen {
        closed,
        going,
        front,
        elements,
        segments,
        last,
    } = seen;
    let mut parts = closed;
    close_at(&mut parts, &going, len)?;
    Ok(SeenFile {
        parts,
        front,
        elements,
        segments,
        last,
        stop,
        len,
    })
}

/// Walks over a take's file, and keeps what its clauses are judged by.
pub fn walk<D: TakeDisk>(alloc: Global, disk: &mut D) -> Result<SeenFile, CheckFault>
    ensures seen { IfOk result (λ file. (told : Disk) → D.told disk.old ≡ Some told → IsSeen told.essence.reads file) }

    ensures inside { IfOk result (IsInside (D.length_of disk.old Area.Essence)) }
    ensures cause { HasReadCause (D.fault_count disk.old) (D.fault_count disk.new) result }
    ensures stays { Stays (D.told disk.old) (D.told disk.new) (D.length_of disk.old) (D.length_of disk.new) }
    ensures time { Elapsed (D.moment disk.old) (D.moment disk.new) (D.images_since disk.old) (D.images_since disk.new)
        (D.made disk.old) (D.made disk.new) }
{
    let walked = walk_items(alloc, disk)?;
    let len = disk.len(Area::Essence);
    match close(walked, len) {
        Ok(file) => Ok(file),
        Err(_) => Err(CheckFault::Memory),
    }
}
