//! What follows of takes and recoveries, stated once for the crates above. No function here does anything.

ghost use Rattle.std.specs.Prelude.{◌≡◌, List, ℕ, Some, take};
ghost use Rattle.take_disk.specs.Held.{Areas, Disk};
ghost use Rattle.recovery.specs.Recoveries.{KeepsAcked, Leads};
ghost use Rattle.recovery.specs.declared.answer.Recovered.{Recovered};
ghost use Rattle.take_state.specs.Crashes.{CrashesSafely};
ghost use Rattle.take_state.specs.Seen.{TakeSeen, acked, published};

use recovery::acked_units_are_kept;
use take_disk::TakeDisk;
use take_layout::TakeLayout;
use take_state::TakeUnits;

/// Whatever a crash leaves at a moment of a take's call, an answer of its recovery keeps every frame that was durable when the
/// call began, and no frame but published ones.
pub fn durable_frames_are_kept<U: TakeUnits, L: TakeLayout, D: TakeDisk>()
    ensures { (old new : TakeSeen D) (all : List (List ℕ)) (held now : Disk) (image : Areas) (done : Recovered)
        → U.units old.config ≡ Some all → D.told old.disk ≡ Some held
        → CrashesSafely L.TakeLayout D.TakeDisk (U.units old.config) old new → D.images_since new.disk (D.moment old.disk) image
        → Leads L.TakeLayout done image now
        → KeepsAcked L.TakeLayout old.config (take (published new) all) (acked old) done now }
{
    acked_units_are_kept::<L, D>();
}
