//! What follows of marks and essences, stated once for the crates above. No function here does anything.

ghost use Rattle.std.specs.Prelude.{◌≡◌, ℕ, List};
ghost use Rattle.rec_bytes.specs.Configuration.{Fields};
ghost use Rattle.rec_bytes.specs.Ranges.{IsInRange};
ghost use Rattle.take_core.specs.declared.mark.Mark.{Mark};
ghost use Rattle.take_disk.specs.Held.{Areas};
ghost use Rattle.commit_sidecar.specs.Says.{Says};
ghost use Rattle.commit_sidecar.specs.Recovers.{Recovers, mark_of};
ghost use Rattle.essence_walk.specs.Essences.{Names, IsDamaged};

use commit_sidecar::files_say_one_thing;
use take_layout::{TakeLayout, files_are_one};

/// A mark names one list of units in an essence, or the essence is damaged at one place, and not both.
pub fn essences_have_one_answer<L: TakeLayout>()
    ensures one { (cfg : Fields) (mark : Mark) (essence : List ℕ) (units others : List (List ℕ)) → IsInRange cfg
        → Names L.TakeLayout cfg mark essence units → Names L.TakeLayout cfg mark essence others → units ≡ others }
    ensures named { (cfg : Fields) (mark : Mark) (essence : List ℕ) (units : List (List ℕ)) (at : ℕ)
        → Names L.TakeLayout cfg mark essence units → IsDamaged L.TakeLayout cfg mark essence at → ⊥ }
    ensures damaged { (cfg : Fields) (mark : Mark) (essence : List ℕ) (at other : ℕ)
        → IsDamaged L.TakeLayout cfg mark essence at → IsDamaged L.TakeLayout cfg mark essence other → at ≡ other }
{
    files_are_one::<L>();
}

/// Two areas are recovered to the units that the commits' mark names in the essence.
pub fn marks_recover_units<L: TakeLayout>()
    ensures recovered { (areas : Areas) (cfg : Fields) (marks : List Mark) (units : List (List ℕ)) → Says areas.commits cfg marks
        → Names L.TakeLayout cfg (mark_of L.TakeLayout cfg marks) areas.essence units → Recovers L.TakeLayout cfg units areas }
    ensures named { (areas : Areas) (cfg : Fields) (marks : List Mark) (units : List (List ℕ)) → Says areas.commits cfg marks
        → Recovers L.TakeLayout cfg units areas → Names L.TakeLayout cfg (mark_of L.TakeLayout cfg marks) areas.essence units }
{
    files_say_one_thing();
}
