//! A take of three named frames is stopped, and what a crash leaves of it is recovered. The lengths are those of
//! docs/FORMATS.md, "A take's file", by hand: the closed files of none, two and three frames of 50 bytes have 6,626, 7,072 and
//! 7,157 bytes.

ghost use Rattle.std.specs.Prelude.{◌≤◌, IfOk};
ghost use Rattle.take_disk.specs.Calls.{IfTold};
ghost use Rattle.stopped_takes.specs.Stopped.{IsRecoveredTake};

use crate::laws::{stopped_takes_are_op1a, stopped_takes_are_recovered};
use commit_phases::tables_are_safe;
use commit_sidecar::recoveries_are_one;
use mxf_take_file::PictureLayout;
use rec_bytes::{Config, read_config};
use recovery::{Recovered, recover};
use std::alloc::Global;
use std::test::Fail;
use take_disk::{MemoryBarrier, MemoryDisk, Pick, TakeDisk};
use take_layout::TakeLayout;
use take_script::{Step, commit_step};
use take_state::{TakeState, TakeUnits};

/// Names three frames of 50 bytes.
struct ThreeFrames;

impl TakeUnits for ThreeFrames {
    ghost use Rattle.std.specs.Prelude.{Some, replicate};

    ghost units = { λ cfg. Some (replicate 3 (replicate 50 7)) };
}

/// A take of these over a disk in memory.
type NamedTake = TakeState<ThreeFrames, PictureLayout, MemoryDisk>;

/// Each of the frames.
const FRAME: [u8; 50] = [7; 50];

/// A configuration of 16 by 16 pictures, with 250 frames in a body partition, 100 in the take, and a lag of 8.
fn small_config() -> Result<Config, Fail> {
    let mut bytes = [0u8; 64];
    let start = [
        0, 16, 0, 16, 0, 3, 1, 1, 1, 1, 0, 1, 224, 0, 0, 0, 16, 0, 0, 250, 0, 0, 0, 100, 0, 8,
    ];
    bytes[..26].copy_from_slice(&start);
    Ok(read_config(&bytes)?)
}

/// Takes the steps of a commit.
fn commit(take: &mut NamedTake) -> Result<(), Fail> {
    let mut barrier = MemoryBarrier::new(&[]);
    for _ in 0..16 {
        if commit_step(take, &mut barrier)? == Step::Nothing {
            break;
        }
    }
    Ok(())
}

/// A take of all three frames, of which the first ones were committed: none, two, or all.
fn published(alloc: Global, durable: u64) -> Result<NamedTake, Fail> {
    let cfg = small_config()?;
    let disk = MemoryDisk::new(alloc, &[], &[], 16_384, 64, &[], None)?;
    let opened = NamedTake::open(alloc, &cfg, disk).ok();
    let mut take = opened.ok_or("not opened")?;
    take.publish(0, &FRAME)?;
    take.publish(1, &FRAME)?;
    if durable == 2 {
        commit(&mut take)?;
    }
    take.publish(2, &FRAME)?;
    if durable == 3 {
        commit(&mut take)?;
    }
    Ok(take)
}

/// Stops a take, and recovers what a crash leaves of its disk.
fn recover_stopped(
    alloc: Global,
    take: NamedTake,
    pick: Pick,
) -> Result<(MemoryDisk, Recovered), Fail>
    ensures { IfOk result (λ left. IfTold (⟦<MemoryDisk as TakeDisk>⟧.told left.0)
        (IsRecoveredTake ⟦<PictureLayout as TakeLayout>⟧ ⟦<MemoryDisk as TakeDisk>⟧ (⟦<ThreeFrames as TakeUnits>⟧.units take.config) take left.1)) }
{
    stopped_takes_are_recovered::<PictureLayout, MemoryDisk>();
    take.stands();
    let (disk, _) = take.into_parts();
    let mut image = disk.image(alloc, pick)?;
    let done = recover::<PictureLayout, MemoryDisk>(alloc, &mut image)?;
    Ok((image, done))
}

// The frames that were durable, and the length of their closed file.
#[test]
fn durable_frames_are_recovered(rt: HostRuntime) -> Result<(), Fail> {
    stopped_takes_are_op1a::<MemoryDisk>();
    recoveries_are_one::<PictureLayout>();
    tables_are_safe::<PictureLayout>();
    let alloc = rt.alloc();
    for (count, len) in [(0, 6626), (2, 7072), (3, 7157)] {
        for pick in [Pick::Lost, Pick::Kept, Pick::Torn(7), Pick::Torn(1)] {
            let take = published(alloc, count)?;
            let (_disk, done) = recover_stopped(alloc, take, pick)?;
            assert_eq!(rt; done, Recovered::Closed { count, len }, "{count} durable");
        }
    }
    Ok(())
}
