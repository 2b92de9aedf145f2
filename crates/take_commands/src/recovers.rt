//! The command `recover`: closes a take after a stop, and says how it was found.

ghost use Rattle.take_disk.specs.Elapsed.{Elapsed};
ghost use Rattle.recovery.specs.Crashes.{StaysOne, StaysSafe};
ghost use Rattle.take_commands.specs.Answers.{take_answer};
ghost use Rattle.take_commands.specs.Causes.{HasTakeCauses};
ghost use Rattle.take_commands.specs.Recovers.{RunsRecovery};
ghost use Rattle.take_commands.specs.Views.{devices};

use crate::fault::{TakeFault, recover_fault};
use crate::line::recover_line;
use crate::output::put_piece;
use raw_feed::Sink;
use std::alloc::Global;
use take_disk::TakeDisk;
use take_layout::TakeLayout;

/// Closes the take whose areas a stop has left on a disk, and writes one line that says how it was found. It may be stopped
/// at any call of the disk, and run again.
pub fn recover<L: TakeLayout, D: TakeDisk, W: Sink>(
    alloc: Global,
    disk: &mut D,
    out: &mut W,
) -> Result<(), TakeFault>
    ensures ran { RunsRecovery L.TakeLayout
        (devices (D.told disk.old) (D.fault_count disk.old) (W.written out.old) (W.fault_count out.old))
        (devices (D.told disk.new) (D.fault_count disk.new) (W.written out.new) (W.fault_count out.new)) (take_answer result) }
    ensures safe { StaysSafe L.TakeLayout D.TakeDisk disk.old disk.new }
    ensures one { StaysOne L.TakeLayout D.TakeDisk disk.old disk.new }
    ensures time { Elapsed (D.moment disk.old) (D.moment disk.new) (D.images_since disk.old) (D.images_since disk.new)
        (D.made disk.old) (D.made disk.new) }
    ensures cause { HasTakeCauses
        (devices (D.told disk.old) (D.fault_count disk.old) (W.written out.old) (W.fault_count out.old))
        (devices (D.told disk.new) (D.fault_count disk.new) (W.written out.new) (W.fault_count out.new)) (take_answer result) }
{
    match recovery::recover::<L, D>(alloc, disk) {
        Ok(done) => put_piece(recover_line(done).as_str().as_bytes(), out),
        Err(fault) => Err(recover_fault(fault)),
    }
}
