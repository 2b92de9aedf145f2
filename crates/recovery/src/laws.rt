//! What follows of recoveries, stated once for the crates above. No function here does anything.

ghost use Rattle.std.specs.Prelude.{◌≡◌, ◌++◌, ℕ, List, Some};
ghost use Rattle.rec_bytes.specs.Configuration.{Fields, Spells, spelling};
ghost use Rattle.take_disk.specs.Held.{Areas, Disk};
ghost use Rattle.commit_sidecar.specs.Says.{head_of};
ghost use Rattle.commit_sidecar.specs.Recovers.{IsSafe, Recovers};
ghost use Rattle.commit_phases.specs.Table.{AllSafe};
ghost use Rattle.recovery.specs.Crashes.{StaysSafe};
ghost use Rattle.recovery.specs.Recoveries.{AreKept, IsClosedFor, IsRefusal, KeepsAcked, Leads, Refuses, as_read};
ghost use Rattle.recovery.specs.declared.answer.Recovered.{Recovered};
ghost use Rattle.recovery.specs.declared.answer.RecoverFault.{RecoverFault};
ghost use Rattle.recovery.specs.declared.answer.RecoverFault.TheVariants.{NoTake};

use commit_sidecar::{files_say_one_thing, recoveries_are_one};
use essence_walk::essences_have_one_answer;
use take_disk::TakeDisk;
use take_layout::TakeLayout;

/// After an answer, whatever a crash leaves is the closed file of the units that the areas were recovered to, with the mark that
/// says so: it is recovered to the same units again. Areas that are recovered to units aren't refused, and others in one way.
/// Commits that begin with a take's head are never called no take.
pub fn recoveries_stand<L: TakeLayout, D: TakeDisk>()
    ensures closed { (disk : D) (now : Disk) (was image : Areas) (done : Recovered) → D.told disk ≡ Some now
        → Leads L.TakeLayout done was now → D.images_since disk (D.moment disk) image → IsClosedFor L.TakeLayout was done image }
    ensures refused { (areas : Areas) (cfg : Fields) (units : List (List ℕ)) (fault : RecoverFault) → Recovers L.TakeLayout cfg units areas
        → IsRefusal fault → Refuses L.TakeLayout fault areas → ⊥ }
    ensures once { (areas : Areas) (fault other : RecoverFault) → IsRefusal fault → IsRefusal other → Refuses L.TakeLayout fault areas
        → Refuses L.TakeLayout other areas → fault ≡ other }
    ensures headed { (areas : Areas) (cfg : Fields) (rest : List ℕ) (at other : ℕ) → Spells (spelling cfg) cfg
        → areas.commits ≡ head_of cfg ++ rest → Refuses L.TakeLayout (NoTake at other) areas → ⊥ }
{
    files_say_one_thing();
    essences_have_one_answer::<L>();
}

/// Where areas are safe, an answer keeps every acknowledged unit. So does one for whatever a crash has left of another recovery,
/// at any moment since it began, if all was safe then. What is left so is safe, and a disk that holds it has all safe again: so
/// a recovery may be stopped any number of times.
pub fn acked_units_are_kept<L: TakeLayout, D: TakeDisk>()
    ensures safe { (cfg : Fields) (units : List (List ℕ)) (acked : ℕ) (was : Areas) (done : Recovered) (now : Disk)
        → IsSafe L.TakeLayout cfg units acked was → Leads L.TakeLayout done was now → KeepsAcked L.TakeLayout cfg units acked done now }
    ensures stopped { (cfg : Fields) (units : List (List ℕ)) (acked : ℕ) (first disk : D) (held now : Disk) (image : Areas)
        (done : Recovered) → D.told first ≡ Some held → AllSafe L.TakeLayout cfg units acked held
        → StaysSafe L.TakeLayout D.TakeDisk first disk → D.images_since disk (D.moment first) image → Leads L.TakeLayout done image now
        → KeepsAcked L.TakeLayout cfg units acked done now }
    ensures stays { (cfg : Fields) (units : List (List ℕ)) (acked : ℕ) (first disk : D) (held : Disk) (image : Areas) → D.told first ≡ Some held
        → AllSafe L.TakeLayout cfg units acked held → StaysSafe L.TakeLayout D.TakeDisk first disk
        → D.images_since disk (D.moment first) image → IsSafe L.TakeLayout cfg units acked image }
    ensures again { (cfg : Fields) (units : List (List ℕ)) (acked : ℕ) (held : Disk) → AreKept held
        → IsSafe L.TakeLayout cfg units acked (as_read held) → AllSafe L.TakeLayout cfg units acked held }
{
    recoveries_are_one::<L>();
}
