//! A take that was found open is closed.

ghost use Rattle.std.specs.Prelude.{◌≡◌, ◌≤◌, ◌<◌, ◌+◌, ◌^◌, ◌∷◌, ◌++◌, [], ℕ, List, true, length, None, OnOk, IfOk};
ghost use Rattle.rec_bytes.specs.Configuration.{Fields};
ghost use Rattle.rec_bytes.specs.Faults.{HasCause};
ghost use Rattle.rec_bytes.specs.Places.{with_bytes};
ghost use Rattle.take_core.specs.declared.commit_phase.CommitPhase.TheVariants.{Marked};
ghost use Rattle.take_disk.specs.Calls.{IfTold, Steps};
ghost use Rattle.take_disk.specs.Elapsed.{Elapsed};
ghost use Rattle.take_disk.specs.declared.area.Area.{Area};
ghost use Rattle.commit_sidecar.specs.Notes.{note_of, Fits};
ghost use Rattle.commit_sidecar.specs.Says.{gate_place};
ghost use Rattle.commit_phases.specs.Goes.{LeavesSafe};
ghost use Rattle.commit_phases.specs.Table.{IsClosed, Table};
ghost use Rattle.recovery.specs.Recoveries.{closed_mark};
ghost use Rattle.recovery.specs.inner.Found.{MayClose, MayNote};

use commit_phases::lays_out;
use commit_sidecar::{RECORD_LEN, put_note};
use rec_bytes::{Failed, Memory};
use std::alloc::Global;
use take_core::Mark;
use take_disk::{Area, TakeDisk};
use take_layout::{GrowingFile, TakeLayout};

/// The tail behind the units of a file.
pub(crate) fn tail_of<L: TakeLayout>(
    alloc: Global,
    file: &GrowingFile<L>,
) -> Result<Vec<u8>, Memory>
    ensures tail { IfOk result (λ tail. (units : List (List ℕ)) → file.now.places ≡ L.places_of file.now.config units
        → tail.items ≡ L.tail file.now.config units) }
    ensures small { IfOk result (λ tail. (at : ℕ) → ((units : List (List ℕ)) → file.now.places ≡ L.places_of file.now.config units
        → at ≡ length (L.growing file.now.config units)) → at + length tail.items < 2 ^ 64) }
{
    lays_out::<L>();
    file.config().ranges();
    let len = L::tail_len(file.config(), file.places());
    let Ok(mut tail) = vec![in alloc; 0u8; len as usize] else {
        return Err(Memory);
    };
    L::put_tail(file.config(), file.places(), tail.as_mut_slice());
    Ok(tail)
}

/// Closes the essence, whose growing file ends at a place, and then the commits, whose first gate that isn't open stands at another.
pub(crate) fn close_both<L: TakeLayout, D: TakeDisk>(
    disk: &mut D,
    at: u64,
    tail: &[u8],
    gate: u64,
    mark: Mark,
) -> Result<(), Failed>
    requires inside { at ≤ D.length_of disk.old Area.Essence }
    requires gate { gate + 1 ≤ D.length_of disk.old Area.Commits }
    requires small { gate + 1 < 2 ^ 64 }
    ensures safe { (cfg : Fields) (units : List (List ℕ)) (records : ℕ)
        → IfTold (D.told disk.old) (MayClose L.TakeLayout cfg units records at tail.now) → gate ≡ gate_place records
        → mark ≡ closed_mark (length units) (at + length tail.now)
        → LeavesSafe L.TakeLayout D.TakeDisk cfg units (length units) disk.old disk.new }
    ensures closed { OnOk result ((cfg : Fields) (units : List (List ℕ)) (records : ℕ)
        → IfTold (D.told disk.old) (MayClose L.TakeLayout cfg units records at tail.now) → gate ≡ gate_place records
        → mark ≡ closed_mark (length units) (at + length tail.now)
        → IfTold (D.told disk.new) (IsClosed L.TakeLayout cfg units (records + 1))) }
    ensures noted { OnOk result (Steps (D.told disk.old) (D.told disk.new) (λ old new.
        new.commits.reads ≡ with_bytes (with_bytes old.commits.reads (gate + 1) (note_of mark ++ 0 ∷ [])) gate (1 ∷ []))) }
    ensures fits { OnOk result (Fits mark) }
    ensures telling { Steps (D.told disk.old) (D.told disk.new) (λ old new. Unit {0}) }
    ensures time { Elapsed (D.moment disk.old) (D.moment disk.new) (D.images_since disk.old) (D.images_since disk.new)
        (D.made disk.old) (D.made disk.new) }
    ensures cause { HasCause (D.fault_count disk.old) (D.fault_count disk.new) result }
{
    close_essence::<L, D>(disk, at, tail)?;
    close_commits::<L, D>(disk, gate, mark)?;
    Ok(())
}

/// Closes the essence, whose growing file ends at a place: the rest is cut, the tail written, and all is kept. It may be stopped
/// at any call of the disk: the same units are recovered.
pub(crate) fn close_essence<L: TakeLayout, D: TakeDisk>(
    disk: &mut D,
    at: u64,
    tail: &[u8],
) -> Result<(), Failed>
    requires inside { at ≤ D.length_of disk.old Area.Essence }
    ensures safe { (cfg : Fields) (units : List (List ℕ)) (records : ℕ)
        → IfTold (D.told disk.old) (MayClose L.TakeLayout cfg units records at tail.now)
        → LeavesSafe L.TakeLayout D.TakeDisk cfg units (length units) disk.old disk.new }
    ensures closed { OnOk result ((cfg : Fields) (units : List (List ℕ)) (records : ℕ)
        → IfTold (D.told disk.old) (MayClose L.TakeLayout cfg units records at tail.now)
        → IfTold (D.told disk.new) (Table L.TakeLayout cfg units (length units) records true
        (Marked (closed_mark (length units) (at + length tail.now))) None)) }
    ensures commits { Steps (D.told disk.old) (D.told disk.new) (λ old new. new.commits ≡ old.commits) }
    ensures lengths { D.length_of disk.new Area.Commits ≡ D.length_of disk.old Area.Commits }
    ensures time { Elapsed (D.moment disk.old) (D.moment disk.new) (D.images_since disk.old) (D.images_since disk.new)
        (D.made disk.old) (D.made disk.new) }
    ensures cause { HasCause (D.fault_count disk.old) (D.fault_count disk.new) result }
{
    lays_out::<L>();
    disk.cut(Area::Essence, at)?;
    disk.write(Area::Essence, at, tail)?;
    disk.sync(Area::Essence)?;
    Ok(())
}

/// Notes the mark behind the gate at a place, whatever byte it is, and keeps it; then opens the gate by a write of its own, and
/// keeps it. It may be stopped at any call of the disk: the same units are recovered.
pub(crate) fn close_commits<L: TakeLayout, D: TakeDisk>(
    disk: &mut D,
    gate: u64,
    mark: Mark,
) -> Result<(), Failed>
    requires inside { gate + 1 ≤ D.length_of disk.old Area.Commits }
    requires small { gate + 1 < 2 ^ 64 }
    ensures safe { (cfg : Fields) (units : List (List ℕ)) (records : ℕ)
        → IfTold (D.told disk.old) (MayNote L.TakeLayout cfg units records gate mark)
        → LeavesSafe L.TakeLayout D.TakeDisk cfg units (length units) disk.old disk.new }
    ensures closed { OnOk result ((cfg : Fields) (units : List (List ℕ)) (records : ℕ)
        → IfTold (D.told disk.old) (MayNote L.TakeLayout cfg units records gate mark)
        → IfTold (D.told disk.new) (IsClosed L.TakeLayout cfg units (records + 1))) }
    ensures noted { OnOk result (Steps (D.told disk.old) (D.told disk.new) (λ old new.
        new.commits.reads ≡ with_bytes (with_bytes old.commits.reads (gate + 1) (note_of mark ++ 0 ∷ [])) gate (1 ∷ []))) }
    ensures fits { OnOk result (Fits mark) }
    ensures telling { Steps (D.told disk.old) (D.told disk.new) (λ old new. Unit {0}) }
    ensures time { Elapsed (D.moment disk.old) (D.moment disk.new) (D.images_since disk.old) (D.images_since disk.new)
        (D.made disk.old) (D.made disk.new) }
    ensures cause { HasCause (D.fault_count disk.old) (D.fault_count disk.new) result }
{
    lays_out::<L>();
    let mut note = [0u8; RECORD_LEN];
    put_note(&mark, &mut note);
    disk.write(Area::Commits, gate + 1, &note)?;
    disk.sync(Area::Commits)?;
    disk.write(Area::Commits, gate, &[1])?;
    disk.sync(Area::Commits)?;
    Ok(())
}
