//! Bytes of a take's file.

ghost use Rattle.std.specs.Prelude.{◌≡◌, ◌≤◌, ◌-◌, Some, length, take, drop, IfOk};
ghost use Rattle.take_disk.specs.Calls.{Stays};
ghost use Rattle.take_disk.specs.Held.{Disk};
ghost use Rattle.take_disk.specs.declared.area.Area.{Area};
ghost use Rattle.take_disk.specs.Elapsed.{Elapsed};
ghost use Rattle.mxf_reader.specs.Calls.{HasReadCause};

use crate::fault::CheckFault;
use std::alloc::Global;
use take_disk::{Area, TakeDisk};

/// Reads the bytes between two places.
pub(crate) fn read_span<D: TakeDisk>(
    alloc: Global,
    disk: &mut D,
    from: u64,
    to: u64,
) -> Result<Vec<u8>, CheckFault>
    requires order { from ≤ to }
    requires inside { to ≤ D.length_of disk.old Area.Essence }
    ensures read { IfOk result (λ bytes. (told : Disk) → D.told disk.old ≡ Some told
        → bytes.items ≡ take (to - from) (drop from told.essence.reads)) }
    ensures long { IfOk result (λ bytes. length bytes.items ≡ to - from) }
    ensures stays { Stays (D.told disk.old) (D.told disk.new) (D.length_of disk.old) (D.length_of disk.new) }
    ensures time { Elapsed (D.moment disk.old) (D.moment disk.new) (D.images_since disk.old) (D.images_since disk.new)
        (D.made disk.old) (D.made disk.new) }
    ensures cause { HasReadCause (D.fault_count disk.old) (D.fault_count disk.new) result }
{
    let Ok(mut bytes) = vec![in alloc; 0u8; (to - from) as usize] else {
        return Err(CheckFault::Memory);
    };
    match disk.read(Area::Essence, from, bytes.as_mut_slice()) {
        Ok(()) => Ok(bytes),
        Err(_) => Err(CheckFault::DiskFault {
            faults: disk.faults(),
        }),
    }
}
