//! The history of a take in memory, with the numbers that it shows.

ghost use Rattle.std.specs.Prelude.{◌≡◌, ◌<◌, [], ◌∷◌, ◌++◌, length, IfOk};
ghost use Rattle.take_core.specs.History.{latest};

use crate::entry::Entry;
use crate::snapshot::{Phase, Snapshot};
use rec_bytes::Memory;
use std::alloc::Global;
use std::marker::Model;

/// The history of a take, with the numbers that it shows.
#[derive(Drop)]
pub struct History {
    entries: Vec<Entry>,
    published: u64,
    acked: u64,
    phase: Phase,
}

impl Model for History {
    ghost use Rattle.std.specs.Vec.{vec_capacity};
    ghost use Rattle.take_core.specs.Recorded.{Recorded};
    ghost use Rattle.take_core.specs.inner.Shows.{Shows};

    ghost Value = { Recorded };

    ghost view = { λ h. record { entries = h.entries.items; room = vec_capacity h.entries } };

    ghost invariant = { λ h. Shows h.entries.items h.published h.acked h.phase };
}

impl History {
    /// A history without entries. It takes memory for so many.
    pub fn new(alloc: Global, room: usize) -> Result<History, Memory>
        ensures { IfOk result (λ h. h ≡ record { entries = []; room = room }) }
    {
        Ok(History {
            entries: Vec::with_capacity(alloc, room)?,
            published: 0,
            acked: 0,
            phase: Phase::Growing,
        })
    }

    /// The snapshot after all entries.
    pub fn latest(&self) -> Snapshot
        ensures { result ≡ latest self.now.entries }
    {
        Snapshot {
            step: self.entries.len() as u64,
            published: self.published,
            acked: self.acked,
            phase: self.phase,
        }
    }

    /// All entries, in order.
    pub fn entries(&self) -> &[Entry]
        ensures { result.now ≡ self.now.entries }
    {
        self.entries.as_slice()
    }

    /// Adds an entry, without taking memory.
    pub fn add(&mut self, entry: Entry)
        requires { length self.old.entries < self.old.room }
        ensures { self.new ≡ record self.old { entries = self.old.entries ++ entry ∷ [] } }
    {
        match entry {
            Entry::Published { .. } => self.published += 1,
            Entry::Acked { count } => self.acked = count,
            Entry::Closed => self.phase = Phase::Closed,
            Entry::Stopped { .. } => self.phase = Phase::Stopped,
        }
        self.entries.push_reserved(entry);
    }
    /// All entries, alone.
    pub fn into_entries(self) -> Vec<Entry>
        ensures { result.items ≡ self.entries }
    {
        let History { entries, .. } = self;
        entries
    }
}
