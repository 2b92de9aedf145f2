//! The start of a take on an empty disk.

ghost use Rattle.std.specs.Prelude.{◌≡◌, ◌≤◌, ◌*◌, ◌+◌, ℕ, List, None, [], length, IsOk, IfOk, IfErr, OnOk};
ghost use Rattle.rec_bytes.specs.Configuration.{Fields};
ghost use Rattle.rec_bytes.specs.Faults.{HasCause};
ghost use Rattle.rec_bytes.specs.Views.{view};
ghost use Rattle.take_core.specs.declared.numbers.TheConstants.{MAX_UNIT};
ghost use Rattle.take_state.specs.Causes.{HasOpenCause};
ghost use Rattle.take_state.specs.Refusals.{open_refusal, RefusesOpen};
ghost use Rattle.take_state.specs.Seen.{fresh_take};
ghost use Rattle.take_state.specs.inner.Keeping.{HasRoom, Begun};

use crate::fault::{COMMITS_AREA, DiskFault, ESSENCE_AREA, OpenCause, OpenFault};
use crate::state::TakeState;
use crate::units::TakeUnits;
use crate::write::write_at;
use commit_phases::lays_out;
use commit_sidecar::{FIRST_GATE, put_head};
use rec_bytes::{Config, Failed, Memory};
use std::alloc::Global;
use std::marker::PhantomData;
use take_core::{CommitPhase, History, histories_fit, states_stay_sound};
use take_disk::{Area, TakeDisk};
use take_layout::{GrowingFile, TakeLayout, units_lie};

impl<U: TakeUnits, L: TakeLayout, D: TakeDisk + Drop> TakeState<U, L, D> {
    /// Begins a take on a disk whose areas are empty. All memory is taken here, before the disk is written.
    pub fn open(alloc: Global, cfg: &Config, disk: D) -> Result<TakeState<U, L, D>, OpenFault<D>>
        requires units { (other : Fields) (unit : List ℕ) → length unit ≤ MAX_UNIT → L.is_unit other unit }
        ensures accepted { IsOk result → open_refusal (D.length_of disk Area.Essence) (D.length_of disk Area.Commits) ≡ None }
        ensures opened { IfOk result (λ take. take ≡ fresh_take (view cfg.now) take.disk) }

        ensures refused { IfErr result (λ fault.
            RefusesOpen (D.length_of disk Area.Essence) (D.length_of disk Area.Commits) disk fault.disk fault.cause) }
        ensures counted { IfOk result (λ take. D.fault_count take.disk ≡ D.fault_count disk) }
        ensures cause { HasOpenCause D.fault_count (D.fault_count disk) result }
    {
        let mut disk = disk;
        if let Some(cause) = other_take(&disk) {
            return Err(OpenFault { cause, disk });
        }
        let Ok(memory) = TakeMemory::<L>::take(alloc, cfg) else {
            return Err(OpenFault {
                cause: OpenCause::Memory,
                disk,
            });
        };
        let TakeMemory {
            file,
            history,
            mut buffer,
        } = memory;
        if begin_areas::<L, D>(cfg, buffer.as_mut_slice(), &mut disk).is_err() {
            let faults = disk.faults();
            return Err(OpenFault {
                cause: OpenCause::Disk(DiskFault::of_count(faults)),
                disk,
            });
        }
        lays_out::<L>();
        units_lie::<L>();
        states_stay_sound();
        histories_fit();
        cfg.ranges();
        Ok(TakeState {
            disk,
            file,
            history,
            records: 0,
            commit: CommitPhase::Idle,
            tail: false,
            out: None,
            stop: None,
            buffer,
            of: PhantomData,
        })
    }
}

/// The area that isn't empty, where one isn't.
fn other_take<D: TakeDisk>(disk: &D) -> Option<OpenCause>
    ensures { result ≡ open_refusal (D.length_of disk.now Area.Essence) (D.length_of disk.now Area.Commits) }
{
    let essence = disk.len(Area::Essence);
    if essence != 0 {
        return Some(OpenCause::TakeExists {
            len: essence,
            area: ESSENCE_AREA,
        });
    }
    let commits = disk.len(Area::Commits);
    if commits != 0 {
        return Some(OpenCause::TakeExists {
            len: commits,
            area: COMMITS_AREA,
        });
    }
    None
}

/// The memory of a take.
#[derive(Drop)]
struct TakeMemory<L: TakeLayout> {
    file: GrowingFile<L>,
    history: History,
    buffer: Vec<u8>,
}

impl<L: TakeLayout> TakeMemory<L> {
    /// Takes it, for as much as a take of the configuration may need.
    fn take(alloc: Global, cfg: &Config) -> Result<TakeMemory<L>, Memory>
        ensures file { IfOk result (λ memory. (memory.file.config ≡ view cfg.now) × (memory.file.places ≡ [])) }
        ensures places { IfOk result (λ memory. cfg.now.max_frames ≤ memory.file.room) }
        ensures history { IfOk result (λ memory. memory.history ≡ record { entries = []; room = 2 * cfg.now.max_frames + 2 }) }
        ensures buffer { IfOk result (λ memory. HasRoom L.TakeLayout (view cfg.now) (length memory.buffer.items)) }
    {
        let mut file = GrowingFile::new(alloc, cfg);
        file.reserve(cfg.max_frames as usize)?;
        let history = History::new(alloc, 2 * cfg.max_frames as usize + 2)?;
        let mut buffer = Vec::new(alloc);
        buffer.resize(room::<L>(cfg), 0)?;
        Ok(TakeMemory {
            file,
            history,
            buffer,
        })
    }
}

/// Bytes of a buffer that has room for the head, for any lead and for any tail.
fn room<L: TakeLayout>(cfg: &Config) -> usize
    ensures { HasRoom L.TakeLayout (view cfg.now) result }
{
    cfg.ranges();
    L::head_len(cfg)
        .max(L::lead_room(cfg))
        .max(L::tail_room(cfg)) as usize
}

/// Writes the head of the essence and that of the commits with the first gate, and keeps each before the next is written.
fn begin_areas<L: TakeLayout, D: TakeDisk>(
    cfg: &Config,
    buffer: &mut [u8],
    disk: &mut D,
) -> Result<(), Failed>
    requires empty { (area : Area) → D.length_of disk.old area ≡ 0 }
    requires room { HasRoom L.TakeLayout (view cfg.now) (length buffer.old) }
    ensures begun { OnOk result (Begun L.TakeLayout D.TakeDisk (view cfg.now) disk.new) }
    ensures cause { HasCause (D.fault_count disk.old) (D.fault_count disk.new) result }
{
    lays_out::<L>();
    let head = &mut buffer[..L::head_len(cfg) as usize];
    L::put_head(cfg, head);
    write_at(disk, Area::Essence, 0, head)?;
    disk.sync(Area::Essence)?;
    let mut commits = [0u8; FIRST_GATE];
    put_head(cfg, &mut commits);
    write_at(disk, Area::Commits, 0, &commits)?;
    disk.sync(Area::Commits)
}
