//! The calls of a commit, one after the other.

ghost use Rattle.std.specs.Prelude.{◌≡◌, ◌≤◌, ◌<◌, ◌∷◌, ◌++◌, ℕ, List, true, false, None, [], length, IfOk, IfErr, OnOk};
ghost use Rattle.rec_bytes.specs.Faults.{HasCause};
ghost use Rattle.take_core.specs.History.{latest};
ghost use Rattle.take_core.specs.declared.commit_phase.CommitPhase.TheVariants.{Idle, MarkOut, Marked, NoteOut, Noted, GateOut, Opened};
ghost use Rattle.take_core.specs.declared.entry.Entry.TheVariants.{Acked, Closed};
ghost use Rattle.take_core.specs.declared.event.Event.TheVariants.{BeginCommit, NoteRecord, OpenGate, Acknowledge, WriteTail, Finish};
ghost use Rattle.take_core.specs.declared.mark.Mark.{Mark};
ghost use Rattle.take_core.specs.declared.snapshot.Phase.TheVariants.{Growing};
ghost use Rattle.take_state.specs.Causes.{HasFaultCause};
ghost use Rattle.take_state.specs.Crashes.{CrashesSafely};
ghost use Rattle.take_state.specs.Events.{IsEvent, Stops};
ghost use Rattle.take_state.specs.Seen.{published, acked, phase_of};
ghost use Rattle.take_state.specs.inner.Writing.{Wrote};

use crate::fault::DiskFault;
use crate::state::TakeState;
use crate::units::TakeUnits;
use crate::write::{note_stop, write_at};
use commit_sidecar::{RECORD_LEN, gate_at, put_note};
use rec_bytes::Failed;
use take_core::{CommitPhase, Entry, Mark, Snapshot};
use take_disk::{Area, TakeDisk};
use take_layout::{GrowingFile, TakeLayout, rooms_suffice};

impl<U: TakeUnits, L: TakeLayout, D: TakeDisk + Drop> TakeState<U, L, D> {
    /// Begins to make the published frames durable, and waits for a barrier of the essence. It makes no call of the disk.
    pub fn begin_commit(&mut self) -> Mark
        requires growing { phase_of self.old ≡ Growing }
        requires idle { self.old.commit ≡ Idle }
        requires behind { acked self.old < published self.old }
        ensures mark { result ≡ record { count = published self.old; length = D.length_of self.old.disk Area.Essence; closed = false } }
        ensures stands { self.new ≡ record self.old { commit = MarkOut result; out = None } }
        ensures event { IsEvent BeginCommit self.old self.new }
        ensures crash { CrashesSafely L.TakeLayout D.TakeDisk (U.units self.old.config) self.old self.new }
    {
        let mark = Mark {
            count: self.history.latest().published,
            length: self.file.len(),
            closed: false,
        };
        self.commit = CommitPhase::MarkOut(mark);
        self.out = None;
        mark
    }

    /// Writes the record of the mark behind the gate that isn't open, with the next gate, and waits for a barrier of the
    /// commits.
    pub fn note_record(&mut self) -> Result<(), DiskFault>
        requires growing { phase_of self.old ≡ Growing }
        requires marked { (mark : Mark) × (self.old.commit ≡ Marked mark) }
        ensures stands { OnOk result ((mark : Mark) → self.old.commit ≡ Marked mark
            → self.new ≡ record self.old { disk = self.new.disk; commit = NoteOut mark; out = None }) }
        ensures event { OnOk result (IsEvent NoteRecord self.old self.new) }

        ensures stopped { IfErr result (Stops self.old self.new) }
        ensures crash { CrashesSafely L.TakeLayout D.TakeDisk (U.units self.old.config) self.old self.new }
        ensures cause { HasFaultCause (D.fault_count self.old.disk) (D.fault_count self.new.disk) result }
    {
        let mark = mark_on(self.commit);
        let mut note = [0u8; RECORD_LEN];
        put_note(&mark, &mut note);
        let at = gate_at(self.records) + 1;
        if write_at(&mut self.disk, Area::Commits, at, &note).is_err() {
            let faults = self.disk.faults();
            return Err(note_stop(&mut self.history, &mut self.stop, faults));
        }
        self.commit = CommitPhase::NoteOut(mark);
        self.out = None;
        Ok(())
    }

    /// Opens the gate of the record, by a write of its own, and waits for a barrier of the commits.
    pub fn open_gate(&mut self) -> Result<(), DiskFault>
        requires growing { phase_of self.old ≡ Growing }
        requires noted { (mark : Mark) × (self.old.commit ≡ Noted mark) }
        ensures stands { OnOk result ((mark : Mark) → self.old.commit ≡ Noted mark
            → self.new ≡ record self.old { disk = self.new.disk; commit = GateOut mark; out = None }) }
        ensures event { OnOk result (IsEvent OpenGate self.old self.new) }

        ensures stopped { IfErr result (Stops self.old self.new) }
        ensures crash { CrashesSafely L.TakeLayout D.TakeDisk (U.units self.old.config) self.old self.new }
        ensures cause { HasFaultCause (D.fault_count self.old.disk) (D.fault_count self.new.disk) result }
    {
        let mark = mark_on(self.commit);
        let at = gate_at(self.records);
        if write_at(&mut self.disk, Area::Commits, at, &[1]).is_err() {
            let faults = self.disk.faults();
            return Err(note_stop(&mut self.history, &mut self.stop, faults));
        }
        self.commit = CommitPhase::GateOut(mark);
        self.out = None;
        Ok(())
    }

    /// Tells that the frames of the commit are durable.
    pub fn acknowledge(&mut self) -> Snapshot
        requires growing { phase_of self.old ≡ Growing }
        requires opened { (mark : Mark) × (self.old.commit ≡ Opened mark) × (mark.closed ≡ false) }
        ensures shows { result ≡ latest self.new.history }
        ensures stands { (mark : Mark) → self.old.commit ≡ Opened mark
            → self.new ≡ record self.old { history = self.old.history ++ Acked mark.count ∷ []; commit = Idle; out = None } }
        ensures event { IsEvent Acknowledge self.old self.new }
        ensures crash { CrashesSafely L.TakeLayout D.TakeDisk (U.units self.old.config) self.old self.new }
    {
        let mark = mark_on(self.commit);
        self.history.add(Entry::Acked { count: mark.count });
        self.records += 1;
        self.commit = CommitPhase::Idle;
        self.out = None;
        self.history.latest()
    }

    /// Writes the tail behind all frames, which are durable, begins to make the closed file durable, and waits for a barrier
    /// of the essence.
    pub fn write_tail(&mut self) -> Result<Mark, DiskFault>
        requires growing { phase_of self.old ≡ Growing }
        requires idle { self.old.commit ≡ Idle }
        requires level { acked self.old ≡ published self.old }
        requires no_tail { self.old.tail ≡ false }
        ensures mark { IfOk result (λ mark.
            mark ≡ record { count = published self.old; length = D.length_of self.new.disk Area.Essence; closed = true }) }
        ensures stands { IfOk result (λ mark.
            self.new ≡ record self.old { disk = self.new.disk; commit = MarkOut mark; tail = true; out = None }) }
        ensures event { OnOk result (IsEvent WriteTail self.old self.new) }

        ensures stopped { IfErr result (Stops self.old self.new) }
        ensures crash { CrashesSafely L.TakeLayout D.TakeDisk (U.units self.old.config) self.old self.new }
        ensures cause { HasFaultCause (D.fault_count self.old.disk) (D.fault_count self.new.disk) result }
    {
        let at = self.file.len();
        if put_tail(&self.file, at, self.buffer.as_mut_slice(), &mut self.disk).is_err() {
            let faults = self.disk.faults();
            return Err(note_stop(&mut self.history, &mut self.stop, faults));
        }
        let mark = Mark {
            count: self.history.latest().published,
            length: self.disk.len(Area::Essence),
            closed: true,
        };
        self.tail = true;
        self.commit = CommitPhase::MarkOut(mark);
        self.out = None;
        Ok(mark)
    }

    /// Tells that the take is whole.
    pub fn finish(&mut self) -> Snapshot
        requires growing { phase_of self.old ≡ Growing }
        requires opened { (mark : Mark) × (self.old.commit ≡ Opened mark) × (mark.closed ≡ true) }
        ensures shows { result ≡ latest self.new.history }
        ensures stands { self.new ≡ record self.old { history = self.old.history ++ Closed ∷ []; commit = Idle; out = None } }
        ensures event { IsEvent Finish self.old self.new }
        ensures crash { CrashesSafely L.TakeLayout D.TakeDisk (U.units self.old.config) self.old self.new }
    {
        self.history.add(Entry::Closed);
        self.records += 1;
        self.commit = CommitPhase::Idle;
        self.out = None;
        self.history.latest()
    }
}

/// The mark of a commit that waits for no barrier.
fn mark_on(commit: CommitPhase) -> Mark
    ensures marked { (mark : Mark) → commit ≡ Marked mark → result ≡ mark }
    ensures noted { (mark : Mark) → commit ≡ Noted mark → result ≡ mark }
    ensures opened { (mark : Mark) → commit ≡ Opened mark → result ≡ mark }
{
    match commit {
        CommitPhase::Marked(mark) | CommitPhase::Noted(mark) | CommitPhase::Opened(mark) => mark,
        _ => Mark {
            count: 0,
            length: 0,
            closed: false,
        },
    }
}

/// Writes the tail at the end of the file of the units, by a buffer that has room for it.
fn put_tail<L: TakeLayout, D: TakeDisk>(
    file: &GrowingFile<L>,
    at: u64,
    buffer: &mut [u8],
    disk: &mut D,
) -> Result<(), Failed>
    requires room { L.tail_most file.now.config ≤ length buffer.old }
    requires inside { at ≤ D.length_of disk.old Area.Essence }
    ensures wrote { (units : List (List ℕ)) → file.now.places ≡ L.places_of file.now.config units
        → Wrote D.TakeDisk Area.Essence at (L.tail file.now.config units) disk.old disk.new result }
    ensures cause { HasCause (D.fault_count disk.old) (D.fault_count disk.new) result }
{
    let cfg = *file.config();
    cfg.ranges();
    rooms_suffice::<L>();
    let tail = &mut buffer[..L::tail_len(&cfg, file.places()) as usize];
    L::put_tail(&cfg, file.places(), tail);
    write_at(disk, Area::Essence, at, tail)
}
