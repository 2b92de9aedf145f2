//! The command `frame`: the samples of one picture of a take.

ghost use Rattle.std.specs.Prelude.{◌≡◌, IfOk, IfErr};
ghost use Rattle.raw_feed.specs.Pictures.{picture_bytes};
ghost use Rattle.take_disk.specs.Calls.{Stays};
ghost use Rattle.take_disk.specs.Elapsed.{Elapsed};
ghost use Rattle.take_commands.specs.Answers.{take_answer};
ghost use Rattle.take_commands.specs.Causes.{HasTakeCauses};
ghost use Rattle.take_commands.specs.Shows.{HasUnit, Shows};
ghost use Rattle.take_commands.specs.Views.{Views, devices};
ghost use Rattle.take_commands.specs.inner.Steps.{HasDiskCause, IsToAnswer, IsToWrite, OfReads};

use crate::fault::{TakeFault, check_fault, decode_fault, unit_fault};
use crate::output::put_samples;
use frame_codec::decode_frame;
use mxf_reader::Catalogue;
use picture_plane::Picture;
use raw_feed::Sink;
use std::alloc::Global;
use take_disk::TakeDisk;

/// Writes the samples of the picture that unit `number` of a take's file means, counted from 0.
pub fn frame<D: TakeDisk, W: Sink>(
    alloc: Global,
    disk: &mut D,
    number: u64,
    out: &mut W,
) -> Result<(), TakeFault>
    ensures ran { Views (Shows number)
        (devices (D.told disk.old) (D.fault_count disk.old) (W.written out.old) (W.fault_count out.old))
        (devices (D.told disk.new) (D.fault_count disk.new) (W.written out.new) (W.fault_count out.new)) (take_answer result) }
    ensures stays { Stays (D.told disk.old) (D.told disk.new) (D.length_of disk.old) (D.length_of disk.new) }
    ensures time { Elapsed (D.moment disk.old) (D.moment disk.new) (D.images_since disk.old) (D.images_since disk.new)
        (D.made disk.old) (D.made disk.new) }
    ensures cause { HasTakeCauses
        (devices (D.told disk.old) (D.fault_count disk.old) (W.written out.old) (W.fault_count out.old))
        (devices (D.told disk.new) (D.fault_count disk.new) (W.written out.new) (W.fault_count out.new)) (take_answer result) }
{
    let picture = read_picture(alloc, disk, number)?;
    put_samples(picture.samples(), out)
}

/// The picture that a unit of a take's file means. The unit is let go with the call.
fn read_picture<D: TakeDisk>(alloc: Global, disk: &mut D, number: u64) -> Result<Picture, TakeFault>
    ensures picture { IfOk result (λ picture. IsToWrite (Shows number) (D.told disk.old) (picture_bytes picture)) }

    ensures refused { IfErr result (IsToAnswer (Shows number) (D.told disk.old)) }
    ensures stays { Stays (D.told disk.old) (D.told disk.new) (D.length_of disk.old) (D.length_of disk.new) }
    ensures time { Elapsed (D.moment disk.old) (D.moment disk.new) (D.images_since disk.old) (D.images_since disk.new)
        (D.made disk.old) (D.made disk.new) }
    ensures cause { HasDiskCause (D.fault_count disk.old) (D.fault_count disk.new) result }
{
    let unit = read_unit(alloc, disk, number)?;
    match decode_frame(alloc, unit.as_slice()) {
        Ok(picture) => Ok(picture),
        Err(fault) => Err(decode_fault(number, fault)),
    }
}

/// A unit of a take's file. What is kept of the file is let go with the call.
fn read_unit<D: TakeDisk>(alloc: Global, disk: &mut D, number: u64) -> Result<Vec<u8>, TakeFault>
    ensures unit { IfOk result (λ unit. OfReads (D.told disk.old) (λ bytes. HasUnit number bytes (λ is. is ≡ unit.items))) }

    ensures refused { IfErr result (IsToAnswer (Shows number) (D.told disk.old)) }
    ensures stays { Stays (D.told disk.old) (D.told disk.new) (D.length_of disk.old) (D.length_of disk.new) }
    ensures time { Elapsed (D.moment disk.old) (D.moment disk.new) (D.images_since disk.old) (D.images_since disk.new)
        (D.made disk.old) (D.made disk.new) }
    ensures cause { HasDiskCause (D.fault_count disk.old) (D.fault_count disk.new) result }
{
    let catalogue = match Catalogue::read(alloc, disk) {
        Ok(catalogue) => catalogue,
        Err(fault) => return Err(check_fault(fault)),
    };
    match catalogue.unit(alloc, disk, number) {
        Ok(unit) => Ok(unit),
        Err(fault) => Err(unit_fault(number, fault)),
    }
}
