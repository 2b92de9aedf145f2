//! What follows of the table of phases, stated once for the crates above. No function here does anything.

ghost use Rattle.std.specs.Prelude.{ℕ, Bool, List, length, Option};
ghost use Rattle.rec_bytes.specs.Configuration.{Fields};
ghost use Rattle.take_core.specs.declared.commit_phase.CommitPhase.{CommitPhase};
ghost use Rattle.take_disk.specs.Held.{Disk};
ghost use Rattle.take_disk.specs.declared.ticket.Ticket.{Ticket};
ghost use Rattle.commit_phases.specs.Layouts.{LaysOut};
ghost use Rattle.commit_phases.specs.Table.{Table, AllSafe, IsClosed};

use take_layout::{TakeLayout, files_are_one, files_fit, growing_begins};

/// Every layout has what the phases of a commit need.
pub fn lays_out<L: TakeLayout>()
    ensures { LaysOut L.TakeLayout }
{
    growing_begins::<L>();
    files_fit::<L>();
    files_are_one::<L>();
}

/// Whatever a crash leaves of a disk that keeps the table of phases is recovered to units of the take, and to all that were
/// acknowledged. What it leaves of a closed take is recovered to all of its units.
pub fn tables_are_safe<L: TakeLayout>()
    ensures growing { (cfg : Fields) (units : List (List ℕ)) (acked records : ℕ) (tail : Bool) (phase : CommitPhase) (out : Option Ticket)
        (held : Disk) → Table L.TakeLayout cfg units acked records tail phase out held → AllSafe L.TakeLayout cfg units acked held }
    ensures closed { (cfg : Fields) (units : List (List ℕ)) (records : ℕ) (held : Disk) → IsClosed L.TakeLayout cfg units records held
        → AllSafe L.TakeLayout cfg units (length units) held }
{
    lays_out::<L>();
}
