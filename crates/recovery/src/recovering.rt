//! A take is closed after a stop.

ghost use Rattle.std.specs.Prelude.{◌≡◌, ◌≤◌, ◌<◌, ◌+◌, ◌^◌, false, IfOk, IfErr};
ghost use Rattle.take_disk.specs.Calls.{IfTold, Steps};
ghost use Rattle.take_disk.specs.Elapsed.{Elapsed};
ghost use Rattle.take_disk.specs.Held.{Areas};
ghost use Rattle.take_disk.specs.declared.area.Area.{Area};
ghost use Rattle.essence_walk.specs.Walks.{LieInside};
ghost use Rattle.recovery.specs.Causes.{HasRecoverCause};
ghost use Rattle.recovery.specs.Crashes.{StaysSafe, StaysOne};
ghost use Rattle.recovery.specs.Recoveries.{Leads, Refuses, ReadsAsBefore, as_read};
ghost use Rattle.recovery.specs.inner.Found.{ClosesSafely, IsReady};

use crate::answer::{RecoverFault, Recovered};
use crate::close::{close_both, tail_of};
use crate::judging::{Found, judge};
use crate::settle::settle_both;
use commit_phases::lays_out;
use commit_sidecar::{commits_say, marks_follow};
use std::alloc::Global;
use take_core::Mark;
use take_disk::TakeDisk;
use take_layout::TakeLayout;

/// Closes the take whose areas a stop has left on a disk. It may be stopped at any call of the disk, and run again.
///
/// All memory is taken before the first byte is written.
pub fn recover<L: TakeLayout, D: TakeDisk>(
    alloc: Global,
    disk: &mut D,
) -> Result<Recovered, RecoverFault>
    ensures recovered { IfOk result (λ done. Steps (D.told disk.old) (D.told disk.new) (λ old new. Leads L.TakeLayout done (as_read old) new)) }

    ensures refused { IfErr result (λ fault. IfTold (D.told disk.old) (λ held. Refuses L.TakeLayout fault (as_read held))) }
    ensures unchanged { IfErr result (λ fault. Steps (D.told disk.old) (D.told disk.new) (ReadsAsBefore fault)) }
    ensures cause { HasRecoverCause (D.fault_count disk.old) (D.fault_count disk.new) result }
    ensures safe { StaysSafe L.TakeLayout D.TakeDisk disk.old disk.new }
    ensures one { StaysOne L.TakeLayout D.TakeDisk disk.old disk.new }
    ensures time { Elapsed (D.moment disk.old) (D.moment disk.new) (D.images_since disk.old) (D.images_since disk.new)
        (D.made disk.old) (D.made disk.new) }
{
    lays_out::<L>();
    if settle_both(disk).is_err() {
        return Err(RecoverFault::DiskFault { at: disk.faults() });
    }
    let found = judge::<L, D>(alloc, disk)?;
    if found.mark.closed {
        return Ok(Recovered::Already {
            count: found.mark.count,
            len: found.mark.length,
        });
    }
    close(alloc, disk, &found)
}

/// Closes a take that is found open.
fn close<L: TakeLayout, D: TakeDisk>(
    alloc: Global,
    disk: &mut D,
    found: &Found<L>,
) -> Result<Recovered, RecoverFault>
    requires goes_on { found.now.mark.closed ≡ false }
    requires ready { IfTold (D.told disk.old) (IsReady L.TakeLayout found.now.file found.now.gate found.now.mark) }
    requires inside { LieInside L.TakeLayout found.now.file.config found.now.mark (D.length_of disk.old Area.Essence) found.now.file }
    requires gate { found.now.gate + 1 ≤ D.length_of disk.old Area.Commits }
    requires small { found.now.gate + 1 < 2 ^ 64 }
    ensures recovered { IfOk result (λ done. Steps (D.told disk.old) (D.told disk.new) (λ old new. Leads L.TakeLayout done (as_read old) new)) }

    ensures refused { IfErr result (λ fault. (areas : Areas) → Refuses L.TakeLayout fault areas) }
    ensures unchanged { IfErr result (λ fault. Steps (D.told disk.old) (D.told disk.new) (ReadsAsBefore fault)) }
    ensures cause { HasRecoverCause (D.fault_count disk.old) (D.fault_count disk.new) result }
    ensures safe { ClosesSafely L.TakeLayout D.TakeDisk found.now.file found.now.gate found.now.mark disk.old disk.new }
    ensures time { Elapsed (D.moment disk.old) (D.moment disk.new) (D.images_since disk.old) (D.images_since disk.new)
        (D.made disk.old) (D.made disk.new) }
{
    lays_out::<L>();
    commits_say();
    marks_follow();
    let Ok(tail) = tail_of(alloc, &found.file) else {
        return Err(RecoverFault::Memory);
    };
    let len = found.mark.length + tail.len() as u64;
    let mark = Mark {
        count: found.mark.count,
        length: len,
        closed: true,
    };
    match close_both::<L, D>(disk, found.mark.length, tail.as_slice(), found.gate, mark) {
        Ok(()) => Ok(Recovered::Closed {
            count: found.mark.count,
            len,
        }),
        Err(_) => Err(RecoverFault::DiskFault { at: disk.faults() }),
    }
}
