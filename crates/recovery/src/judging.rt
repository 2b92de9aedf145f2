//! What is found of a take: what its commits say, and where its units lie.

ghost use Rattle.std.specs.Prelude.{◌≡◌, ◌≤◌, ◌<◌, ◌+◌, ◌^◌, length, Option, IfOk, IfErr};
ghost use Rattle.rec_bytes.specs.Views.{view};
ghost use Rattle.take_disk.specs.Calls.{IfTold, Stays};
ghost use Rattle.take_disk.specs.Elapsed.{Elapsed};
ghost use Rattle.take_disk.specs.declared.area.Area.{Area};
ghost use Rattle.commit_sidecar.specs.Says.{counting};
ghost use Rattle.essence_walk.specs.Rests.{Rests};
ghost use Rattle.essence_walk.specs.Walks.{LieInside};
ghost use Rattle.recovery.specs.Causes.{HasRecoverCause};
ghost use Rattle.recovery.specs.Recoveries.{Refuses, as_read};
ghost use Rattle.recovery.specs.inner.Faults.{walk_answer};
ghost use Rattle.recovery.specs.inner.Found.{IsFound};

use crate::answer::RecoverFault;
use crate::window::read_commits;
use essence_walk::{WalkFault, walk_essence};
use rec_bytes::Config;
use std::alloc::Global;
use take_core::Mark;
use take_disk::TakeDisk;
use take_layout::{GrowingFile, TakeLayout};

/// A take as it is found.
#[derive(Drop)]
pub(crate) struct Found<L: TakeLayout> {
    /// Where its units lie.
    pub file: GrowingFile<L>,
    /// The place of the gate that isn't open.
    pub gate: u64,
    /// The mark that counts.
    pub mark: Mark,
}

/// The mark that counts: the last one, or where there is none no frames and the essence's head.
fn mark_that_counts<L: TakeLayout>(cfg: &Config, last: Option<Mark>) -> Mark
    ensures { result ≡ counting (length (L.head (view cfg.now))) last }
{
    match last {
        Some(mark) => mark,
        None => Mark {
            count: 0,
            length: L::head_len(cfg),
            closed: false,
        },
    }
}

/// The answer to a fault of the walk.
fn walk_fault(fault: WalkFault) -> RecoverFault
    ensures { result ≡ walk_answer fault }
{
    match fault {
        WalkFault::Memory => RecoverFault::Memory,
        WalkFault::DiskFault { faults } => RecoverFault::DiskFault { at: faults },
        WalkFault::Damaged { at, other } => RecoverFault::Damaged { at, other },
    }
}

/// Judges what is read, the commits before the essence. Nothing is written.
pub(crate) fn judge<L: TakeLayout, D: TakeDisk>(
    alloc: Global,
    disk: &mut D,
) -> Result<Found<L>, RecoverFault>
    ensures found { IfOk result (λ found. IfTold (D.told disk.old)
        (λ told. IsFound L.TakeLayout found.file found.gate found.mark (as_read told))) }
    ensures inside { IfOk result (λ found.
        LieInside L.TakeLayout found.file.config found.mark (D.length_of disk.old Area.Essence) found.file) }
    ensures gate { IfOk result (λ found. (found.gate + 1 ≤ D.length_of disk.old Area.Commits) × (found.gate + 1 < 2 ^ 64)) }

    ensures refused { IfErr result (λ fault. IfTold (D.told disk.old) (λ told. Refuses L.TakeLayout fault (as_read told))) }
    ensures stays { Stays (D.told disk.old) (D.told disk.new) (D.length_of disk.old) (D.length_of disk.new) }
    ensures rests { Rests D.TakeDisk disk.old disk.new }
    ensures time { Elapsed (D.moment disk.old) (D.moment disk.new) (D.images_since disk.old) (D.images_since disk.new)
        (D.made disk.old) (D.made disk.new) }
    ensures cause { HasRecoverCause (D.fault_count disk.old) (D.fault_count disk.new) result }
{
    let commits = read_commits(disk)?;
    let mark = mark_that_counts::<L>(&commits.config, commits.mark);
    match walk_essence::<L, D>(alloc, disk, &commits.config, mark) {
        Ok(file) => Ok(Found {
            file,
            gate: commits.gate,
            mark,
        }),
        Err(fault) => Err(walk_fault(fault)),
    }
}
