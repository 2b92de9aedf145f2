//! What follows of takes that were stopped, stated once for the crates above. No function here does anything.

ghost use Rattle.std.specs.Prelude.{◌≡◌, ℕ, List, take, Option};
ghost use Rattle.rec_bytes.specs.Configuration.{Fields};
ghost use Rattle.rec_bytes.specs.Ranges.{IsInRange};
ghost use Rattle.take_disk.specs.Held.{Areas, Disk};
ghost use Rattle.take_layout.specs.Takes.{AreUnits};
ghost use Rattle.mxf_take_file.specs.Layout.{is_unit};
ghost use Rattle.mxf_op1a.specs.Op1a.{IsOp1a};
ghost use Rattle.recovery.specs.Crashes.{StaysSafe};
ghost use Rattle.recovery.specs.Recoveries.{IsRefusal, KeepsAcked, Leads, Refuses, mark_in};
ghost use Rattle.recovery.specs.declared.answer.Recovered.{Recovered};
ghost use Rattle.recovery.specs.declared.answer.RecoverFault.{RecoverFault};
ghost use Rattle.take_state.specs.Seen.{TakeSeen};
ghost use Rattle.stopped_takes.specs.Stopped.{Holds, IsLeftOf, IsRecoveredTake, IsSafeFor};

use commit_sidecar::recoveries_are_one;
use mxf_take_file::PictureLayout;
use mxf_take_op1a::closed_files_are_op1a;
use recovery::{acked_units_are_kept, recoveries_stand};
use take_disk::TakeDisk;
use take_layout::TakeLayout;

/// Whatever a crash leaves of a take is safe for it, and so is what a crash leaves of a recovery of safe areas, at any moment since
/// it began. Safe areas aren't refused, and an answer is one of this take.
pub fn stopped_takes_are_recovered<L: TakeLayout, D: TakeDisk>()
    ensures left { (named : Option (List (List ℕ))) (seen : TakeSeen D) (image : Areas)
        → IsLeftOf L.TakeLayout D.TakeDisk named seen image → IsSafeFor L.TakeLayout D.TakeDisk named seen image }
    ensures again { (named : Option (List (List ℕ))) (seen : TakeSeen D) (image other : Areas) (first disk : D)
        → IsSafeFor L.TakeLayout D.TakeDisk named seen image → Holds D.TakeDisk image first → StaysSafe L.TakeLayout D.TakeDisk first disk
        → D.images_since disk (D.moment first) other → IsSafeFor L.TakeLayout D.TakeDisk named seen other }
    ensures accepted { (named : Option (List (List ℕ))) (seen : TakeSeen D) (image : Areas) (fault : RecoverFault)
        → IsSafeFor L.TakeLayout D.TakeDisk named seen image → IsRefusal fault → Refuses L.TakeLayout fault image → ⊥ }
    ensures recovered { (named : Option (List (List ℕ))) (seen : TakeSeen D) (image : Areas) (done : Recovered) (now : Disk)
        → IsSafeFor L.TakeLayout D.TakeDisk named seen image → Leads L.TakeLayout done image now
        → IsRecoveredTake L.TakeLayout D.TakeDisk named seen done now }
{
    recoveries_are_one::<L>();
    recoveries_stand::<L, D>();
    acked_units_are_kept::<L, D>();
}

/// The essence of a recovered take is the OP1a file of just the units that the answer counts. So it is wherever acknowledged units
/// are kept, as of a take that was stopped inside a call.
pub fn stopped_takes_are_op1a<D: TakeDisk>()
    ensures recovered { (named : Option (List (List ℕ))) (seen : TakeSeen D) (done : Recovered) (now : Disk)
        (is : IsRecoveredTake ⟦<PictureLayout as TakeLayout>⟧ D.TakeDisk named seen done now)
        → IsOp1a now.essence.reads (take (mark_in done).count is.units) }
    ensures kept { (cfg : Fields) (units : List (List ℕ)) (acked : ℕ) (done : Recovered) (now : Disk) → IsInRange cfg
        → AreUnits (is_unit cfg) cfg.max_frames units → KeepsAcked ⟦<PictureLayout as TakeLayout>⟧ cfg units acked done now
        → IsOp1a now.essence.reads (take (mark_in done).count units) }
{
    closed_files_are_op1a();
}
