//! The locked state of a take.

ghost use Rattle.std.specs.Prelude.{◌≡◌};
ghost use Rattle.rec_bytes.specs.Views.{view};
ghost use Rattle.take_core.specs.History.{latest};
ghost use Rattle.take_state.specs.Stands.{IsTaken};

use crate::units::TakeUnits;
use rec_bytes::Config;
use std::marker::{Model, PhantomData};
use take_core::{CommitPhase, Entry, History, Snapshot};
use take_disk::{TakeDisk, Ticket};
use take_layout::{GrowingFile, TakeLayout};

/// The locked state of a take that is recorded, with its disk. `U` names its units.
#[derive(Drop)]
pub struct TakeState<U: TakeUnits, L: TakeLayout, D: TakeDisk + Drop> {
    pub(crate) disk: D,
    pub(crate) file: GrowingFile<L>,
    pub(crate) history: History,
    pub(crate) records: u64,
    pub(crate) commit: CommitPhase,
    pub(crate) tail: bool,
    pub(crate) out: Option<Ticket>,
    pub(crate) stop: Option<u64>,
    pub(crate) buffer: Vec<u8>,
    pub(crate) of: PhantomData<U>,
}

impl<U: TakeUnits, L: TakeLayout, D: TakeDisk + Drop> Model for TakeState<U, L, D> {
    ghost use Rattle.std.specs.Prelude.{length};
    ghost use Rattle.take_state.specs.Seen.{TakeSeen};
    ghost use Rattle.take_state.specs.inner.Keeping.{KeepsTake};

    ghost Value = { TakeSeen D };

    ghost view = { λ s. record {
      config = s.file.config;
      disk = s.disk;
      history = s.history.entries;
      commit = s.commit;
      tail = s.tail;
      out = s.out;
    } };

    ghost invariant = { λ s. KeepsTake L.TakeLayout D.TakeDisk U.units (record {
      disk = s.disk;
      file = s.file;
      history = s.history;
      records = s.records;
      commit = s.commit;
      tail = s.tail;
      out = s.out;
      stop = s.stop;
      buffer = length s.buffer.items;
    }) };
}

impl<U: TakeUnits, L: TakeLayout, D: TakeDisk + Drop> TakeState<U, L, D> {
    /// Shows what stands in every take. It does nothing when it runs.
    pub fn stands(&self)
        ensures { IsTaken L.TakeLayout D.TakeDisk (U.units self.now.config) self.now }
    {
        let _tail = self.tail;
    }

    /// The take's configuration.
    pub fn config(&self) -> &Config
        ensures { view result.now ≡ self.now.config }
    {
        self.file.config()
    }

    /// The take after its history.
    pub fn snapshot(&self) -> Snapshot
        ensures { result ≡ latest self.now.history }
    {
        self.history.latest()
    }

    /// How far a commit has come.
    pub fn commit_phase(&self) -> CommitPhase
        ensures { result ≡ self.now.commit }
    {
        self.commit
    }

    /// Whether the tail is written.
    pub fn has_tail(&self) -> bool
        ensures { result ≡ self.now.tail }
    {
        self.tail
    }

    /// What happened to the take, in order.
    pub fn history(&self) -> &[Entry]
        ensures { result.now ≡ self.now.history }
    {
        self.history.entries()
    }

    /// The ticket whose barrier is on its way.
    pub fn out(&self) -> Option<Ticket>
        ensures { result ≡ self.now.out }
    {
        self.out
    }

    /// The disk's count of faults.
    pub fn faults(&self) -> u64
        ensures { result ≡ D.fault_count self.now.disk }
    {
        self.disk.faults()
    }

    /// The disk and the history.
    pub fn into_parts(self) -> (D, Vec<Entry>)
        ensures disk { result.0 ≡ self.disk }
        ensures history { result.1.items ≡ self.history }
    {
        let TakeState { disk, history, .. } = self;
        (disk, history.into_entries())
    }
}
