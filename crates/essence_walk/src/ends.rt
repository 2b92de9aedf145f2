//! The ends of a take's file: its head, and its tail where it is closed.

ghost use Rattle.std.specs.Prelude.{◌≡◌, ◌≢◌, ◌≤◌, ◌+◌, ◌++◌, ℕ, true, false, Some, List, length, take, drop, IfOk};
ghost use Rattle.commit_sidecar.specs.Recovers.{file_of};
ghost use Rattle.rec_bytes.specs.Faults.{HasCause};
ghost use Rattle.rec_bytes.specs.Views.{view};
ghost use Rattle.take_disk.specs.Calls.{Stays};
ghost use Rattle.take_disk.specs.Held.{Disk};
ghost use Rattle.take_disk.specs.declared.area.Area.{Area};
ghost use Rattle.take_disk.specs.Elapsed.{Elapsed};
ghost use Rattle.essence_walk.specs.Rests.{Rests};
ghost use Rattle.essence_walk.specs.inner.Looks.{Ends, EndsBy, HasRoom};

use crate::bytes::stands;
use crate::look::found_len;
use rec_bytes::{Config, Failed};
use take_core::Mark;
use take_disk::TakeDisk;
use take_layout::{GrowingFile, TakeLayout, rooms_suffice};

/// Whether the essence begins with the head of a take, up to a place.
pub(crate) fn has_head<L: TakeLayout, D: TakeDisk>(
    disk: &mut D,
    cfg: &Config,
    limit: u64,
    found: &mut [u8],
    due: &mut [u8],
) -> Result<bool, Failed>
    requires inside { limit ≤ D.length_of disk.old Area.Essence }
    requires found { HasRoom L.TakeLayout (view cfg.now) (length found.old) }
    requires due { HasRoom L.TakeLayout (view cfg.now) (length due.old) }
    ensures long { IfOk result (λ same. same ≡ true → length (L.head (view cfg.now)) ≤ limit) }
    ensures same { IfOk result (λ same. same ≡ true → (told : Disk) → D.told disk.old ≡ Some told
        → take (length (L.head (view cfg.now))) told.essence.reads ≡ L.head (view cfg.now)) }
    ensures other { IfOk result (λ same. same ≡ false → (told : Disk) → D.told disk.old ≡ Some told
        → length (L.head (view cfg.now)) ≤ limit → take (length (L.head (view cfg.now))) told.essence.reads ≢ L.head (view cfg.now)) }

    ensures stays { Stays (D.told disk.old) (D.told disk.new) (D.length_of disk.old) (D.length_of disk.new) }
    ensures rests { Rests D.TakeDisk disk.old disk.new }
    ensures time { Elapsed (D.moment disk.old) (D.moment disk.new) (D.images_since disk.old) (D.images_since disk.new)
        (D.made disk.old) (D.made disk.new) }
    ensures cause { HasCause (D.fault_count disk.old) (D.fault_count disk.new) result }
{
    let len = L::head_len(cfg);
    if len > limit {
        return Ok(false);
    }
    let head = &mut due[..len as usize];
    L::put_head(cfg, head);
    stands(disk, 0, head, found)
}

/// Whether the file of the units that were found ends at the mark.
pub(crate) fn has_end<L: TakeLayout, D: TakeDisk>(
    disk: &mut D,
    file: &GrowingFile<L>,
    mark: Mark,
    found: &mut [u8],
    due: &mut [u8],
) -> Result<bool, Failed>
    requires ends { EndsBy L.TakeLayout file.now.config file.now.places mark.length }
    requires inside { mark.length ≤ D.length_of disk.old Area.Essence }
    requires found { HasRoom L.TakeLayout file.now.config (length found.old) }
    requires due { HasRoom L.TakeLayout file.now.config (length due.old) }
    ensures length_is { IfOk result (λ same. same ≡ true → (units : List (List ℕ)) → file.now.places ≡ L.places_of file.now.config units
        → mark.length ≡ length (file_of L.TakeLayout mark.closed file.now.config units)) }
    ensures same { IfOk result (λ same. same ≡ true → (told : Disk) → D.told disk.old ≡ Some told → (units : List (List ℕ)) (rest : List ℕ)
        → file.now.places ≡ L.places_of file.now.config units → told.essence.reads ≡ L.growing file.now.config units ++ rest
        → Ends L.TakeLayout file.now.config mark told.essence.reads units) }
    ensures other { IfOk result (λ same. same ≡ false → (told : Disk) → D.told disk.old ≡ Some told → (units : List (List ℕ)) (rest : List ℕ)
        → file.now.places ≡ L.places_of file.now.config units → told.essence.reads ≡ L.growing file.now.config units ++ rest
        → Ends L.TakeLayout file.now.config mark told.essence.reads units → ⊥) }

    ensures stays { Stays (D.told disk.old) (D.told disk.new) (D.length_of disk.old) (D.length_of disk.new) }
    ensures rests { Rests D.TakeDisk disk.old disk.new }
    ensures time { Elapsed (D.moment disk.old) (D.moment disk.new) (D.images_since disk.old) (D.images_since disk.new)
        (D.made disk.old) (D.made disk.new) }
    ensures cause { HasCause (D.fault_count disk.old) (D.fault_count disk.new) result }
{
    if mark.closed {
        has_tail(disk, file, mark.length, found, due)
    } else {
        Ok(file.len() == mark.length)
    }
}

/// Whether the tail behind the units that were found ends at a place.
fn has_tail<L: TakeLayout, D: TakeDisk>(
    disk: &mut D,
    file: &GrowingFile<L>,
    limit: u64,
    found: &mut [u8],
    due: &mut [u8],
) -> Result<bool, Failed>
    requires ends { EndsBy L.TakeLayout file.now.config file.now.places limit }
    requires inside { limit ≤ D.length_of disk.old Area.Essence }
    requires found { HasRoom L.TakeLayout file.now.config (length found.old) }
    requires due { HasRoom L.TakeLayout file.now.config (length due.old) }
    ensures long { IfOk result (λ same. same ≡ true → (units : List (List ℕ)) → file.now.places ≡ L.places_of file.now.config units
        → limit ≡ length (L.growing file.now.config units) + length (L.tail file.now.config units)) }
    ensures same { IfOk result (λ same. same ≡ true → (told : Disk) → D.told disk.old ≡ Some told → (units : List (List ℕ))
        → file.now.places ≡ L.places_of file.now.config units
        → take (length (L.tail file.now.config units)) (drop (length (L.growing file.now.config units)) told.essence.reads)
        ≡ L.tail file.now.config units) }
    ensures other { IfOk result (λ same. same ≡ false → (told : Disk) → D.told disk.old ≡ Some told → (units : List (List ℕ))
        → file.now.places ≡ L.places_of file.now.config units
        → limit ≡ length (L.growing file.now.config units) + length (L.tail file.now.config units)
        → take (length (L.tail file.now.config units)) (drop (length (L.growing file.now.config units)) told.essence.reads)
        ≢ L.tail file.now.config units) }

    ensures stays { Stays (D.told disk.old) (D.told disk.new) (D.length_of disk.old) (D.length_of disk.new) }
    ensures rests { Rests D.TakeDisk disk.old disk.new }
    ensures time { Elapsed (D.moment disk.old) (D.moment disk.new) (D.images_since disk.old) (D.images_since disk.new)
        (D.made disk.old) (D.made disk.new) }
    ensures cause { HasCause (D.fault_count disk.old) (D.fault_count disk.new) result }
{
    let at = found_len(file, limit);
    let left = limit - at;
    if tail_len(file) != left {
        return Ok(false);
    }
    let tail = &mut due[..left as usize];
    put_tail(file, tail);
    stands(disk, at, tail, found)
}

/// Bytes of the tail behind the units that were found.
fn tail_len<L: TakeLayout>(file: &GrowingFile<L>) -> u64
    ensures within { result ≤ L.tail_most file.now.config }
    ensures long { (units : List (List ℕ)) → file.now.places ≡ L.places_of file.now.config units → result ≡ length (L.tail file.now.config units) }
{
    rooms_suffice::<L>();
    file.config().ranges();
    L::tail_len(file.config(), file.places())
}

/// Writes the tail behind the units that were found.
fn put_tail<L: TakeLayout>(file: &GrowingFile<L>, out: &mut [u8])
    requires { (units : List (List ℕ)) → file.now.places ≡ L.places_of file.now.config units
        → length out.old ≡ length (L.tail file.now.config units) }
    ensures { (units : List (List ℕ)) → file.now.places ≡ L.places_of file.now.config units → out.new ≡ L.tail file.now.config units }
{
    L::put_tail(file.config(), file.places(), out);
}
