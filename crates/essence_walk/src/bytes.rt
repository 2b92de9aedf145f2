//! Bytes of an essence.

ghost use Rattle.std.specs.Prelude.{◌≡◌, ◌≢◌, ◌≤◌, ◌<◌, ◌+◌, ◌^◌, true, false, Some, length, take, drop, IfOk, OnOk};
ghost use Rattle.rec_bytes.specs.Faults.{HasCause};
ghost use Rattle.take_disk.specs.Calls.{Stays};
ghost use Rattle.take_disk.specs.Held.{Disk};
ghost use Rattle.take_disk.specs.declared.area.Area.{Area};
ghost use Rattle.take_disk.specs.Elapsed.{Elapsed};
ghost use Rattle.essence_walk.specs.Rests.{Rests};

use rec_bytes::Failed;
use take_disk::{Area, TakeDisk};

/// Whether a buffer begins with the bytes that are due.
pub(crate) fn holds(buffer: &[u8], due: &[u8]) -> bool
    requires { length due.now ≤ length buffer.now }
    ensures same { result ≡ true → take (length due.now) buffer.now ≡ due.now }
    ensures other { result ≡ false → take (length due.now) buffer.now ≢ due.now }
{
    buffer[..due.len()] == due[..]
}

/// Whether the bytes that are due stand at a place. They are read into a buffer.
pub(crate) fn stands<D: TakeDisk>(
    disk: &mut D,
    at: u64,
    due: &[u8],
    buffer: &mut [u8],
) -> Result<bool, Failed>
    requires inside { at + length due.now ≤ D.length_of disk.old Area.Essence }
    requires room { length due.now ≤ length buffer.old }
    ensures same { IfOk result (λ same. same ≡ true → (told : Disk) → D.told disk.old ≡ Some told
        → take (length due.now) (drop at told.essence.reads) ≡ due.now) }
    ensures other { IfOk result (λ same. same ≡ false → (told : Disk) → D.told disk.old ≡ Some told
        → take (length due.now) (drop at told.essence.reads) ≢ due.now) }

    ensures stays { Stays (D.told disk.old) (D.told disk.new) (D.length_of disk.old) (D.length_of disk.new) }
    ensures rests { Rests D.TakeDisk disk.old disk.new }
    ensures time { Elapsed (D.moment disk.old) (D.moment disk.new) (D.images_since disk.old) (D.images_since disk.new)
        (D.made disk.old) (D.made disk.new) }
    ensures cause { HasCause (D.fault_count disk.old) (D.fault_count disk.new) result }
{
    disk.read(Area::Essence, at, &mut buffer[..due.len()])?;
    Ok(holds(buffer, due))
}

/// Reads on from a place: the buffer holds so many bytes, and then as many as are needed.
pub(crate) fn read_on<D: TakeDisk>(
    disk: &mut D,
    at: u64,
    have: u64,
    need: u64,
    buffer: &mut [u8],
) -> Result<(), Failed>
    requires order { have ≤ need }
    requires inside { at + need ≤ D.length_of disk.old Area.Essence }
    requires small { at + need < 2 ^ 64 }
    requires room { need ≤ length buffer.old }
    ensures held { OnOk result ((told : Disk) → D.told disk.old ≡ Some told
        → take have buffer.old ≡ take have (drop at told.essence.reads)
        → take need buffer.new ≡ take need (drop at told.essence.reads)) }

    ensures stays { Stays (D.told disk.old) (D.told disk.new) (D.length_of disk.old) (D.length_of disk.new) }
    ensures rests { Rests D.TakeDisk disk.old disk.new }
    ensures time { Elapsed (D.moment disk.old) (D.moment disk.new) (D.images_since disk.old) (D.images_since disk.new)
        (D.made disk.old) (D.made disk.new) }
    ensures cause { HasCause (D.fault_count disk.old) (D.fault_count disk.new) result }
{
    disk.read(
        Area::Essence,
        at + have,
        &mut buffer[have as usize..need as usize],
    )
}
