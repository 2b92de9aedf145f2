//! Both areas are kept as they are read.

ghost use Rattle.std.specs.Prelude.{◌≡◌, OnOk};
ghost use Rattle.rec_bytes.specs.Faults.{HasCause};
ghost use Rattle.take_disk.specs.Calls.{Steps};
ghost use Rattle.take_disk.specs.Elapsed.{Elapsed};
ghost use Rattle.take_disk.specs.declared.area.Area.{Area};
ghost use Rattle.essence_walk.specs.Rests.{Rests};
ghost use Rattle.recovery.specs.inner.Settles.{Settles, SettlesAll};

use rec_bytes::Failed;
use take_disk::{Area, TakeDisk};

/// Keeps all of both areas. A crash leaves nothing that it might not have left before.
pub(crate) fn settle_both<D: TakeDisk>(disk: &mut D) -> Result<(), Failed>
    ensures kept { OnOk result (Steps (D.told disk.old) (D.told disk.new) SettlesAll) }
    ensures settles { Steps (D.told disk.old) (D.told disk.new) Settles }
    ensures lengths { (area : Area) → D.length_of disk.new area ≡ D.length_of disk.old area }
    ensures rests { Rests D.TakeDisk disk.old disk.new }
    ensures time { Elapsed (D.moment disk.old) (D.moment disk.new) (D.images_since disk.old) (D.images_since disk.new)
        (D.made disk.old) (D.made disk.new) }
    ensures cause { HasCause (D.fault_count disk.old) (D.fault_count disk.new) result }
{
    disk.sync(Area::Essence)?;
    disk.sync(Area::Commits)?;
    Ok(())
}
