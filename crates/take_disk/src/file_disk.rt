//! A disk of two files.

ghost use Rattle.std.specs.Prelude.{◌≡◌, None, true, refl, IfOk};
ghost use Rattle.take_disk.specs.inner.Lengths.{lengths_of};
ghost use Rattle.take_disk.specs.laws.Untold.{untold};

use crate::area::Area;
use crate::area_file::AreaFile;
use crate::barrier::Barrier;
use crate::disk::TakeDisk;
use crate::done::Done;
use crate::fault_count::counted;
use crate::file_barrier::FileBarrier;
use crate::ticket::Ticket;
use rec_bytes::{Failed, Memory};
use std::alloc::Global;
use std::fs::{File, Files, OpenFile, OpenOptions};
use std::os::unix::fs::FileExt;

/// What a take's files are opened for.
#[derive(Clone, Copy, Debug, PartialEq, Eq)]
pub enum Access {
    /// Reading alone.
    Look,
    /// Reading and writing, where they are there.
    Change,
    /// Reading and writing; files that aren't there are made.
    Make,
}

/// A disk of two files, which tells no content.
///
/// Essence and commits are `take.mxf` and `take.commits` of a folder. A file that isn't there is an empty one that can't be
/// written. One that can't be opened has length 0, and each call on it fails. Reads and writes go on where a piece is moved, and calls that are interrupted are made again.
#[derive(Drop)]
pub struct FileDisk<F: FileExt + OpenFile + Drop> {
    essence: AreaFile<F>,
    commits: AreaFile<F>,
    folder: Option<F>,
    tickets: u64,
    faults: u64,
}

impl<F: FileExt + OpenFile + Drop> FileDisk<F> {
    /// A disk of files that are open, and whose names are settled in their folder.
    pub fn new(essence: Option<F>, commits: Option<F>) -> Self
        ensures fresh { ⟦<FileDisk<F> as TakeDisk>⟧.fault_count result ≡ 0 }
    {
        FileDisk {
            essence: AreaFile::new(essence, true),
            commits: AreaFile::new(commits, true),
            folder: None,
            tickets: 0,
            faults: 0,
        }
    }

    /// Opens the files of a take in a folder.
    pub fn open<R: Files<File = F>>(
        rt: &R,
        alloc: Global,
        folder: &str,
        access: Access,
    ) -> Result<Self, Memory>
        ensures fresh { IfOk result (λ disk. ⟦<FileDisk<F> as TakeDisk>⟧.fault_count disk ≡ 0) }
    {
        let mut how = OpenOptions::new();
        how.read(true);
        how.write(access != Access::Look);
        how.create(access == Access::Make);
        let essence = format!(in alloc; "{folder}/take.mxf")?;
        let commits = format!(in alloc; "{folder}/take.commits")?;
        let is_named = access == Access::Look;
        Ok(FileDisk {
            essence: AreaFile::opened(how.open(rt, essence.as_str()), is_named),
            commits: AreaFile::opened(how.open(rt, commits.as_str()), is_named),
            folder: File::open(rt, folder).ok(),
            tickets: 0,
            faults: 0,
        })
    }

    /// A barrier over the same files. Where the system has no second handle of one, each run on it fails.
    pub fn barrier(&self) -> FileBarrier<F>
        ensures fresh { ⟦<FileBarrier<F> as Barrier>⟧.fault_count result ≡ 0 }
    {
        FileBarrier::new(another(&self.essence.file), another(&self.commits.file))
    }
}

// Another handle of the same file.
fn another<F: OpenFile + Drop>(file: &Option<F>) -> Option<F> {
    match file {
        Some(file) => file.try_clone().ok(),
        None => None,
    }
}

impl<F: FileExt + OpenFile + Drop> TakeDisk for FileDisk<F> {
    ghost told = { λ d. None };

    ghost length_of = { λ d. lengths_of d.essence.len d.commits.len };

    ghost moment = { λ d. record { first = d.tickets; second = 0 } };

    ghost images_since = { λ d moment image. Unit {0} };

    ghost made = { λ d ticket. Unit {0} };

    ghost fault_count = { λ d. d.faults };

    ghost is_single = { true };

    ghost crash = { λ d disk image told left. untold disk told };

    ghost earlier = { λ d a b image before left. tt };

    ghost reads_so = { λ d disk told. tt };

    ghost long = { λ d disk area told. untold disk told };

    ghost past = { λ d disk area told. untold disk told };

    ghost alone = { λ d is. refl };

    fn len(&self, area: Area) -> u64 {
        match area {
            Area::Essence => self.essence.len,
            Area::Commits => self.commits.len,
        }
    }

    fn read(&mut self, area: Area, at: u64, out: &mut [u8]) -> Result<(), Failed> {
        match area {
            Area::Essence => counted(&mut self.faults, self.essence.read(at, out)),
            Area::Commits => counted(&mut self.faults, self.commits.read(at, out)),
        }
    }

    fn write(&mut self, area: Area, at: u64, bytes: &[u8]) -> Result<(), Failed> {
        match area {
            Area::Essence => counted(&mut self.faults, self.essence.write(at, bytes)),
            Area::Commits => counted(&mut self.faults, self.commits.write(at, bytes)),
        }
    }

    fn cut(&mut self, area: Area, len: u64) -> Result<(), Failed> {
        match area {
            Area::Essence => counted(&mut self.faults, self.essence.cut(len)),
            Area::Commits => counted(&mut self.faults, self.commits.cut(len)),
        }
    }

    fn sync(&mut self, area: Area) -> Result<(), Failed> {
        match area {
            Area::Essence => counted(&mut self.faults, self.essence.sync(&self.folder)),
            Area::Commits => counted(&mut self.faults, self.commits.sync(&self.folder)),
        }
    }

    fn ticket(&mut self, area: Area) -> Ticket {
        self.tickets = self.tickets.saturating_add(1);
        Ticket {
            area,
            moment: self.tickets,
            twin: None,
        }
    }

    fn settle(&mut self, _done: Done) {}

    fn faults(&self) -> u64 {
        self.faults
    }
}
