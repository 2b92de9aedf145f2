//! The commits, read through a window that moves over them.

ghost use Rattle.std.specs.Prelude.{◌≡◌, ◌≤◌, ◌<◌, ◌+◌, ◌^◌, length, drop, min, Option, IfOk, IfErr, OnOk};
ghost use Rattle.rec_bytes.specs.Views.{view};
ghost use Rattle.rec_bytes.specs.Faults.{HasCause};
ghost use Rattle.take_disk.specs.Calls.{IfTold, Stays};
ghost use Rattle.take_disk.specs.Elapsed.{Elapsed};
ghost use Rattle.take_disk.specs.declared.area.Area.{Area};
ghost use Rattle.commit_sidecar.specs.Looks.{BeginsHead, Sees};
ghost use Rattle.commit_sidecar.specs.declared.head.TheConstants.{HEAD_LEN};
ghost use Rattle.essence_walk.specs.Rests.{Rests};
ghost use Rattle.recovery.specs.Causes.{HasRecoverCause};
ghost use Rattle.recovery.specs.declared.window.TheConstants.{WINDOW_LEN};
ghost use Rattle.recovery.specs.inner.Windows.{HasPlace, HasRecord, RefusesIn, SaysUpTo, Shows, SeesWithin};

use crate::answer::RecoverFault;
use commit_sidecar::{
    COMMITS_AREA, HEAD_LEN, Look, RECORD_LEN, first_bytes_decide, look_at, read_head, reading_ends,
    records_are_read,
};
use rec_bytes::{Config, Failed};
use take_core::Mark;
use take_disk::{Area, TakeDisk};

/// Records that a window holds.
pub(crate) const WINDOW_RECORDS: usize = 128;

/// Bytes that a window holds.
pub(crate) const WINDOW_LEN: usize = WINDOW_RECORDS * RECORD_LEN;

/// What the commits of a take say.
#[derive(Clone, Copy)]
pub(crate) struct Commits {
    /// The take's configuration.
    pub config: Config,
    /// The place of the gate that isn't open.
    pub gate: u64,
    /// The mark of the last open record.
    pub mark: Option<Mark>,
}

/// Which bytes of the commits a buffer holds: so many from a place on.
#[derive(Clone, Copy)]
pub(crate) struct Window {
    pub at: u64,
    pub held: usize,
}

impl Window {
    /// Fills the buffer from a place on.
    fn fill<D: TakeDisk>(&mut self, disk: &mut D, at: u64, bytes: &mut [u8]) -> Result<(), Failed>
        requires room { length bytes.old ≡ WINDOW_LEN }
        requires inside { at ≤ D.length_of disk.old Area.Commits }
        ensures shows { OnOk result (IfTold (D.told disk.old) (λ told. Shows self.new bytes.new told.commits.reads)) }
        ensures reached { OnOk result (HasRecord self.new (D.length_of disk.old Area.Commits) at) }
        ensures stays { Stays (D.told disk.old) (D.told disk.new) (D.length_of disk.old) (D.length_of disk.new) }
        ensures rests { Rests D.TakeDisk disk.old disk.new }
        ensures time { Elapsed (D.moment disk.old) (D.moment disk.new) (D.images_since disk.old) (D.images_since disk.new)
            (D.made disk.old) (D.made disk.new) }
        ensures cause { HasCause (D.fault_count disk.old) (D.fault_count disk.new) result }
    {
        let held = (disk.len(Area::Commits) - at).min(WINDOW_LEN as u64) as usize;
        self.at = at;
        self.held = held;
        disk.read(Area::Commits, at, &mut bytes[..held])
    }

    /// Fills the buffer, where it holds neither the record at a place nor all up to the end.
    fn reach<D: TakeDisk>(&mut self, disk: &mut D, at: u64, bytes: &mut [u8]) -> Result<(), Failed>
        requires room { length bytes.old ≡ WINDOW_LEN }
        requires place { HasPlace self.old (D.length_of disk.old Area.Commits) at }
        requires shows { IfTold (D.told disk.old) (λ told. Shows self.old bytes.old told.commits.reads) }
        ensures reached { OnOk result (HasRecord self.new (D.length_of disk.old Area.Commits) at) }
        ensures shows { OnOk result (IfTold (D.told disk.old) (λ told. Shows self.new bytes.new told.commits.reads)) }
        ensures stays { Stays (D.told disk.old) (D.told disk.new) (D.length_of disk.old) (D.length_of disk.new) }
        ensures rests { Rests D.TakeDisk disk.old disk.new }
        ensures time { Elapsed (D.moment disk.old) (D.moment disk.new) (D.images_since disk.old) (D.images_since disk.new)
            (D.made disk.old) (D.made disk.new) }
        ensures cause { HasCause (D.fault_count disk.old) (D.fault_count disk.new) result }
    {
        let end = self.at + self.held as u64;
        if end - at >= RECORD_LEN as u64 {
            return Ok(());
        }
        if end == disk.len(Area::Commits) {
            return Ok(());
        }
        self.fill(disk, at, bytes)
    }

    /// Looks at what stands at a place behind open records, of which the last has a mark.
    fn look<D: TakeDisk>(
        &mut self,
        disk: &mut D,
        at: u64,
        last: Option<Mark>,
        bytes: &mut [u8],
    ) -> Result<Look, Failed>
        requires room { length bytes.old ≡ WINDOW_LEN }
        requires place { HasPlace self.old (D.length_of disk.old Area.Commits) at }
        requires shows { IfTold (D.told disk.old) (λ told. Shows self.old bytes.old told.commits.reads) }
        ensures sees { IfOk result (λ look. IfTold (D.told disk.old) (λ told. Sees last (drop at told.commits.reads) look)) }
        ensures within { IfOk result (SeesWithin self.new (D.length_of disk.old Area.Commits) at) }
        ensures shows { OnOk result (IfTold (D.told disk.old) (λ told. Shows self.new bytes.new told.commits.reads)) }
        ensures stays { Stays (D.told disk.old) (D.told disk.new) (D.length_of disk.old) (D.length_of disk.new) }
        ensures rests { Rests D.TakeDisk disk.old disk.new }
        ensures time { Elapsed (D.moment disk.old) (D.moment disk.new) (D.images_since disk.old) (D.images_since disk.new)
            (D.made disk.old) (D.made disk.new) }
        ensures cause { HasCause (D.fault_count disk.old) (D.fault_count disk.new) result }
    {
        first_bytes_decide();
        self.reach(disk, at, bytes)?;
        Ok(look_at(&bytes[(at - self.at) as usize..self.held], last))
    }
}

/// Reads what the commits of a disk say. Of more than a window's bytes no more is held at a time.
pub(crate) fn read_commits<D: TakeDisk>(disk: &mut D) -> Result<Commits, RecoverFault>
    ensures says { IfOk result (λ commits. IfTold (D.told disk.old) (λ told. SaysUpTo told.commits.reads commits)) }
    ensures inside { IfOk result (λ commits. (commits.gate + 1 ≤ D.length_of disk.old Area.Commits) × (commits.gate + 1 < 2 ^ 64)) }

    ensures refused { IfErr result (λ fault. IfTold (D.told disk.old) (λ told. RefusesIn told.commits.reads fault)) }
    ensures stays { Stays (D.told disk.old) (D.told disk.new) (D.length_of disk.old) (D.length_of disk.new) }
    ensures rests { Rests D.TakeDisk disk.old disk.new }
    ensures time { Elapsed (D.moment disk.old) (D.moment disk.new) (D.images_since disk.old) (D.images_since disk.new)
        (D.made disk.old) (D.made disk.new) }
    ensures cause { HasRecoverCause (D.fault_count disk.old) (D.fault_count disk.new) result }
{
    let config = read_config(disk)?;
    read_records(disk, config)
}

/// Reads the head of the commits.
fn read_config<D: TakeDisk>(disk: &mut D) -> Result<Config, RecoverFault>
    ensures head { IfOk result (λ config. IfTold (D.told disk.old) (λ told. BeginsHead told.commits.reads (view config))) }
    ensures inside { OnOk result (HEAD_LEN ≤ D.length_of disk.old Area.Commits) }

    ensures refused { IfErr result (λ fault. IfTold (D.told disk.old) (λ told. RefusesIn told.commits.reads fault)) }
    ensures stays { Stays (D.told disk.old) (D.told disk.new) (D.length_of disk.old) (D.length_of disk.new) }
    ensures rests { Rests D.TakeDisk disk.old disk.new }
    ensures time { Elapsed (D.moment disk.old) (D.moment disk.new) (D.images_since disk.old) (D.images_since disk.new)
        (D.made disk.old) (D.made disk.new) }
    ensures cause { HasRecoverCause (D.fault_count disk.old) (D.fault_count disk.new) result }
{
    let mut head = [0u8; HEAD_LEN];
    let len = disk.len(Area::Commits).min(HEAD_LEN as u64) as usize;
    read_front(disk, &mut head[..len])
}

/// Reads the head of the commits by a buffer of as many bytes as a head has, or of as many as there are.
fn read_front<D: TakeDisk>(disk: &mut D, front: &mut [u8]) -> Result<Config, RecoverFault>
    requires room { length front.old ≡ min (D.length_of disk.old Area.Commits) HEAD_LEN }
    ensures head { IfOk result (λ config. IfTold (D.told disk.old) (λ told. BeginsHead told.commits.reads (view config))) }
    ensures inside { OnOk result (HEAD_LEN ≤ D.length_of disk.old Area.Commits) }

    ensures refused { IfErr result (λ fault. IfTold (D.told disk.old) (λ told. RefusesIn told.commits.reads fault)) }
    ensures stays { Stays (D.told disk.old) (D.told disk.new) (D.length_of disk.old) (D.length_of disk.new) }
    ensures rests { Rests D.TakeDisk disk.old disk.new }
    ensures time { Elapsed (D.moment disk.old) (D.moment disk.new) (D.images_since disk.old) (D.images_since disk.new)
        (D.made disk.old) (D.made disk.new) }
    ensures cause { HasRecoverCause (D.fault_count disk.old) (D.fault_count disk.new) result }
{
    first_bytes_decide();
    if disk.read(Area::Commits, 0, front).is_err() {
        return Err(RecoverFault::DiskFault { at: disk.faults() });
    }
    match read_head(front) {
        Ok(config) => Ok(config),
        Err(at) => Err(RecoverFault::NoTake {
            at,
            other: COMMITS_AREA,
        }),
    }
}

/// Reads the records behind the head of a configuration.
fn read_records<D: TakeDisk>(disk: &mut D, config: Config) -> Result<Commits, RecoverFault>
    requires head { IfTold (D.told disk.old) (λ told. BeginsHead told.commits.reads (view config)) }
    requires inside { HEAD_LEN ≤ D.length_of disk.old Area.Commits }
    ensures says { IfOk result (λ commits. IfTold (D.told disk.old) (λ told. SaysUpTo told.commits.reads commits)) }
    ensures inside { IfOk result (λ commits. (commits.gate + 1 ≤ D.length_of disk.old Area.Commits) × (commits.gate + 1 < 2 ^ 64)) }

    ensures refused { IfErr result (λ fault. IfTold (D.told disk.old) (λ told. RefusesIn told.commits.reads fault)) }
    ensures stays { Stays (D.told disk.old) (D.told disk.new) (D.length_of disk.old) (D.length_of disk.new) }
    ensures rests { Rests D.TakeDisk disk.old disk.new }
    ensures time { Elapsed (D.moment disk.old) (D.moment disk.new) (D.images_since disk.old) (D.images_since disk.new)
        (D.made disk.old) (D.made disk.new) }
    ensures cause { HasRecoverCause (D.fault_count disk.old) (D.fault_count disk.new) result }
{
    records_are_read();
    reading_ends();
    let mut bytes = [0u8; WINDOW_LEN];
    let mut window = Window {
        at: HEAD_LEN as u64,
        held: 0,
    };
    let mut gate = HEAD_LEN as u64;
    let mut mark = None;
    'records: loop {
        match window.look(disk, gate, mark, &mut bytes) {
            Ok(Look::Shut) => return Ok(Commits { config, gate, mark }),
            Ok(Look::Open(next)) => {
                gate += RECORD_LEN as u64;
                mark = Some(next);
            }
            Ok(Look::Broken) => {
                return Err(RecoverFault::Damaged {
                    at: gate,
                    other: COMMITS_AREA,
                });
            }
            Err(_) => return Err(RecoverFault::DiskFault { at: disk.faults() }),
        }
    }
}
