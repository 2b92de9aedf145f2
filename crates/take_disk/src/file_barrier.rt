//! A barrier over two files.

ghost use Rattle.std.specs.Prelude.{◌≡◌};

use crate::area::Area;
use crate::area_file::sync_file;
use crate::barrier::Barrier;
use crate::done::Done;
use crate::fault_count::counted;
use crate::ticket::Ticket;
use rec_bytes::Failed;
use std::fs::OpenFile;

/// A barrier over the two files of a take. Each run settles the bytes of one.
#[derive(Drop)]
pub struct FileBarrier<F: OpenFile + Drop> {
    essence: Option<F>,
    commits: Option<F>,
    faults: u64,
}

impl<F: OpenFile + Drop> FileBarrier<F> {
    /// A barrier over these files; each run on one that is none fails.
    pub fn new(essence: Option<F>, commits: Option<F>) -> Self
        ensures fresh { ⟦<FileBarrier<F> as Barrier>⟧.fault_count result ≡ 0 }
    {
        FileBarrier {
            essence,
            commits,
            faults: 0,
        }
    }

    // Settles a file's bytes.
    fn sync(&self, area: Area) -> Result<(), Failed> {
        let is_synced = match area {
            Area::Essence => sync_file(&self.essence),
            Area::Commits => sync_file(&self.commits),
        };
        if is_synced { Ok(()) } else { Err(Failed) }
    }
}

impl<F: OpenFile + Drop> Barrier for FileBarrier<F> {
    ghost fault_count = { λ b. b.faults };

    fn run(&mut self, ticket: Ticket) -> Result<Done, Failed> {
        let run = self.sync(ticket.area);
        Done::of_run(ticket, counted(&mut self.faults, run))
    }

    fn faults(&self) -> u64 {
        self.faults
    }
}
