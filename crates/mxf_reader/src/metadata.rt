//! The metadata of a file's header and footer.

ghost use Rattle.std.specs.Prelude.{◌≡◌, ◌<◌, ◌^◌, ◌+◌, None, Some, length, IfOk};
ghost use Rattle.std.specs.List.{flat_map};
ghost use Rattle.byteorder.specs.Endian.{big_bytes};
ghost use Rattle.take_disk.specs.Calls.{Stays};
ghost use Rattle.take_disk.specs.Held.{Disk};
ghost use Rattle.take_disk.specs.declared.area.Area.{Area};
ghost use Rattle.take_disk.specs.Elapsed.{Elapsed};
ghost use Rattle.mxf_metadata_check.specs.Metadata.{take_id_in};
ghost use Rattle.mxf_op1a.specs.Clauses.{broken_7, broken_8, first_place};
ghost use Rattle.mxf_op1a.specs.Contents.{placed_from};
ghost use Rattle.mxf_op1a.specs.Metadata.{lasts, least, places_but, sets_of, wrong_metadata};
ghost use Rattle.mxf_op1a.specs.Partitions.{Part, elements, file_of, parts};
ghost use Rattle.mxf_reader.specs.Calls.{HasReadCause};
ghost use Rattle.mxf_reader.specs.inner.Files.{IsSeen};
ghost use Rattle.mxf_reader.specs.inner.Inside.{IsInside, IsPartInside};
ghost use Rattle.mxf_reader.specs.inner.Metadata.{HoldsMetadata, IsPartOf, lesser, metadata_end};

use crate::fault::CheckFault;
use crate::file::SeenFile;
use crate::part::SeenPart;
use crate::spans::read_span;
use mxf_metadata_check::{first_other_duration, first_wrong, take_id};
use std::alloc::Global;
use take_disk::{Area, TakeDisk};

/// Where metadata end that begin at a place, in a file whose items end at another.
fn metadata_end(part: &SeenPart, first: u64, stop: u64) -> u64
    ensures { result ≡ metadata_end part.now first stop }
{
    let end = match part.primer_end {
        None => part.end,
        Some(at) => at,
    };
    end.min(stop).max(first)
}

/// Reads the metadata of a partition whose first primer stands at a place.
fn read_metadata<D: TakeDisk>(
    alloc: Global,
    disk: &mut D,
    part: &SeenPart,
    first: u64,
    stop: u64,
) -> Result<Vec<u8>, CheckFault>
    requires inside { IsPartInside (D.length_of disk.old Area.Essence) part.now }
    requires primer { part.now.primer ≡ Some first }
    ensures held { IfOk result (λ bytes. (told : Disk) → D.told disk.old ≡ Some told → (whole : Part)
        → IsPartOf told.essence.reads stop part.now whole → HoldsMetadata bytes.items first whole) }
    ensures fits { IfOk result (λ bytes. first + length bytes.items < 2 ^ 64) }
    ensures stays { Stays (D.told disk.old) (D.told disk.new) (D.length_of disk.old) (D.length_of disk.new) }
    ensures time { Elapsed (D.moment disk.old) (D.moment disk.new) (D.images_since disk.old) (D.images_since disk.new)
        (D.made disk.old) (D.made disk.new) }
    ensures cause { HasReadCause (D.fault_count disk.old) (D.fault_count disk.new) result }
{
    let end = metadata_end(part, first, stop);
    read_span(alloc, disk, first, end)
}

/// The least place where a partition's metadata are wrong, the file's length where there is no primer.
fn wrong_in<D: TakeDisk>(
    alloc: Global,
    disk: &mut D,
    part: &SeenPart,
    stop: u64,
    len: u64,
) -> Result<Option<u64>, CheckFault>
    requires { IsPartInside (D.length_of disk.old Area.Essence) part.now }
    ensures wrong { IfOk result (λ place. (told : Disk) → D.told disk.old ≡ Some told → (whole : Part)
        → IsPartOf told.essence.reads stop part.now whole → place ≡ least (wrong_metadata len whole)) }
    ensures stays { Stays (D.told disk.old) (D.told disk.new) (D.length_of disk.old) (D.length_of disk.new) }
    ensures time { Elapsed (D.moment disk.old) (D.moment disk.new) (D.images_since disk.old) (D.images_since disk.new)
        (D.made disk.old) (D.made disk.new) }
    ensures cause { HasReadCause (D.fault_count disk.old) (D.fault_count disk.new) result }
{
    match part.primer {
        None => Ok(Some(len)),
        Some(first) => {
            let bytes = read_metadata(alloc, disk, part, first, stop)?;
            match first_wrong(alloc, &bytes, first) {
                Ok(place) => Ok(place),
                Err(_) => Err(CheckFault::Memory),
            }
        }
    }
}

/// The place of the first set of a partition with a duration that isn't this number of frames.
fn other_in<D: TakeDisk>(
    alloc: Global,
    disk: &mut D,
    part: &SeenPart,
    stop: u64,
    count: u64,
) -> Result<Option<u64>, CheckFault>
    requires { IsPartInside (D.length_of disk.old Area.Essence) part.now }
    ensures other { IfOk result (λ place. (told : Disk) → D.told disk.old ≡ Some told → (whole : Part)
        → IsPartOf told.essence.reads stop part.now whole
        → place ≡ first_place (places_but (lasts (big_bytes 8 count)) (sets_of whole))) }
    ensures stays { Stays (D.told disk.old) (D.told disk.new) (D.length_of disk.old) (D.length_of disk.new) }
    ensures time { Elapsed (D.moment disk.old) (D.moment disk.new) (D.images_since disk.old) (D.images_since disk.new)
        (D.made disk.old) (D.made disk.new) }
    ensures cause { HasReadCause (D.fault_count disk.old) (D.fault_count disk.new) result }
{
    match part.primer {
        None => Ok(None),
        Some(first) => {
            let bytes = read_metadata(alloc, disk, part, first, stop)?;
            Ok(first_other_duration(&bytes, first, count))
        }
    }
}

/// The take that a partition's sets name.
fn id_in<D: TakeDisk>(
    alloc: Global,
    disk: &mut D,
    part: &SeenPart,
    stop: u64,
) -> Result<[u8; 16], CheckFault>
    requires { IsPartInside (D.length_of disk.old Area.Essence) part.now }
    ensures id { IfOk result (λ id. (told : Disk) → D.told disk.old ≡ Some told → (whole : Part)
        → IsPartOf told.essence.reads stop part.now whole → id ≡ take_id_in (sets_of whole)) }
    ensures stays { Stays (D.told disk.old) (D.told disk.new) (D.length_of disk.old) (D.length_of disk.new) }
    ensures time { Elapsed (D.moment disk.old) (D.moment disk.new) (D.images_since disk.old) (D.images_since disk.new)
        (D.made disk.old) (D.made disk.new) }
    ensures cause { HasReadCause (D.fault_count disk.old) (D.fault_count disk.new) result }
{
    match part.primer {
        None => Ok([0; 16]),
        Some(first) => {
            let bytes = read_metadata(alloc, disk, part, first, stop)?;
            Ok(take_id(&bytes))
        }
    }
}

/// The lesser of two places that may be missing.
fn lesser(a: Option<u64>, b: Option<u64>) -> Option<u64>
    ensures { result ≡ lesser a b }
{
    match a {
        None => b,
        Some(place) => match b {
            None => a,
            Some(other) => Some(place.min(other)),
        },
    }
}

/// The least place where the metadata of header or footer are wrong.
pub(crate) fn clause_7<D: TakeDisk>(
    alloc: Global,
    disk: &mut D,
    file: &SeenFile,
) -> Result<Option<u64>, CheckFault>
    requires inside { IsInside (D.length_of disk.old Area.Essence) file.now }
    ensures broken { IfOk result (λ place. (told : Disk) → D.told disk.old ≡ Some told → (seen : IsSeen told.essence.reads file.now)
        → place ≡ broken_7 file.now.len (file_of (parts file.now.len (placed_from 0 seen.outline.items)))) }
    ensures stays { Stays (D.told disk.old) (D.told disk.new) (D.length_of disk.old) (D.length_of disk.new) }
    ensures time { Elapsed (D.moment disk.old) (D.moment disk.new) (D.images_since disk.old) (D.images_since disk.new)
        (D.made disk.old) (D.made disk.new) }
    ensures cause { HasReadCause (D.fault_count disk.old) (D.fault_count disk.new) result }
{
    let count = file.parts.len();
    if count == 0 {
        return Ok(None);
    }
    let header = wrong_in(alloc, disk, &file.parts[0], file.stop, file.len)?;
    if count < 2 {
        return Ok(header);
    }
    let footer = wrong_in(alloc, disk, &file.parts[count - 1], file.stop, file.len)?;
    Ok(lesser(header, footer))
}

/// The first set of the footer with a duration that isn't the number of elements.
pub(crate) fn clause_8<D: TakeDisk>(
    alloc: Global,
    disk: &mut D,
    file: &SeenFile,
) -> Result<Option<u64>, CheckFault>
    requires inside { IsInside (D.length_of disk.old Area.Essence) file.now }
    ensures broken { IfOk result (λ place. (told : Disk) → D.told disk.old ≡ Some told → (seen : IsSeen told.essence.reads file.now)
        → place ≡ broken_8 (length (elements (placed_from 0 seen.outline.items))) (file_of (parts file.now.len (placed_from 0 seen.outline.items)))) }
    ensures stays { Stays (D.told disk.old) (D.told disk.new) (D.length_of disk.old) (D.length_of disk.new) }
    ensures time { Elapsed (D.moment disk.old) (D.moment disk.new) (D.images_since disk.old) (D.images_since disk.new)
        (D.made disk.old) (D.made disk.new) }
    ensures cause { HasReadCause (D.fault_count disk.old) (D.fault_count disk.new) result }
{
    let count = file.parts.len();
    if count < 2 {
        return Ok(None);
    }
    other_in(
        alloc,
        disk,
        &file.parts[count - 1],
        file.stop,
        file.elements.len() as u64,
    )
}

/// The take that the header's sets name.
pub(crate) fn read_take_id<D: TakeDisk>(
    alloc: Global,
    disk: &mut D,
    file: &SeenFile,
) -> Result<[u8; 16], CheckFault>
    requires inside { IsInside (D.length_of disk.old Area.Essence) file.now }
    ensures id { IfOk result (λ id. (told : Disk) → D.told disk.old ≡ Some told → (seen : IsSeen told.essence.reads file.now)
        → id ≡ take_id_in (flat_map sets_of (file_of (parts file.now.len (placed_from 0 seen.outline.items))).header)) }
    ensures stays { Stays (D.told disk.old) (D.told disk.new) (D.length_of disk.old) (D.length_of disk.new) }
    ensures time { Elapsed (D.moment disk.old) (D.moment disk.new) (D.images_since disk.old) (D.images_since disk.new)
        (D.made disk.old) (D.made disk.new) }
    ensures cause { HasReadCause (D.fault_count disk.old) (D.fault_count disk.new) result }
{
    if file.parts.len() == 0 {
        return Ok([0; 16]);
    }
    id_in(alloc, disk, &file.parts[0], file.stop)
}
