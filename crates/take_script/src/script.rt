//! The script of the tests, over a disk in memory: three frames of 50 bytes are published, committed and closed.
//!
//! Its steps are calls of the disk and runs of the barrier, in one order from 0 on: the opening is calls 0 to 3, each frame two
//! calls, so that the last is 9; from then on runs and calls take turns, the run of each even step for the call of the odd one
//! before it. The commit is 10 to 14, the close 15 to 20.

ghost use Rattle.std.specs.Prelude.{◌≤◌};

use crate::step::Step;
use crate::steps::{commit_step, tail_step};
use mxf_take_file::PictureLayout;
use rec_bytes::{Config, Memory, read_config};
use recovery::{RecoverFault, Recovered, recover};
use std::alloc::Global;
use std::marker::Brand;
use std::test::Fail;
use take_disk::{Area, MemoryBarrier, MemoryDisk, Pick};
use take_state::TakeState;

/// A take over a disk in memory.
pub type MemoryTake = TakeState<Brand, PictureLayout, MemoryDisk>;

/// What a recovery answers.
pub type Answer = Result<Recovered, RecoverFault>;

/// A frame. A take doesn't look into it.
pub const FRAME: [u8; 50] = [7; 50];

/// A configuration of 16 by 16 pictures, with 250 frames in a body partition, 100 in the take, and a lag of 8.
pub fn small_config() -> Result<Config, Fail> {
    let mut bytes = [0u8; 64];
    let start = [
        0, 16, 0, 16, 0, 3, 1, 1, 1, 1, 0, 1, 224, 0, 0, 0, 16, 0, 0, 250, 0, 0, 0, 100, 0, 8,
    ];
    bytes[..26].copy_from_slice(&start);
    Ok(read_config(&bytes)?)
}

/// An empty disk whose calls fail that are listed, and those of these numbers on, which leave nothing.
pub fn empty_disk(alloc: Global, calls: u64, fail: &[u64]) -> Result<MemoryDisk, Memory> {
    MemoryDisk::new(alloc, &[], &[], 16_384, calls, fail, None)
}

/// Publishes the frames of these numbers, until one is refused.
pub fn publish(take: &mut MemoryTake, first: u64, last: u64) {
    for number in first..=last {
        if take.publish(number, &FRAME).is_err() {
            return;
        }
    }
}

/// Takes steps of a commit, until none is due or one fails.
pub fn commit(take: &mut MemoryTake, barrier: &mut MemoryBarrier<'_>) {
    for _ in 0..16 {
        match commit_step(take, barrier) {
            Ok(Step::Nothing) | Err(_) => return,
            Ok(_) => {}
        }
    }
}

/// Takes steps towards the take's end, until none is due or one fails.
pub fn close(take: &mut MemoryTake, barrier: &mut MemoryBarrier<'_>) {
    for _ in 0..32 {
        match tail_step(take, barrier) {
            Ok(Step::Nothing) | Err(_) => return,
            Ok(_) => {}
        }
    }
}

/// Plays the script on a disk with a barrier of which these runs fail. What the disk is then.
pub fn play(alloc: Global, disk: MemoryDisk, runs: &[u64]) -> Result<MemoryDisk, Fail> {
    let cfg = small_config()?;
    let mut take = match MemoryTake::open(alloc, &cfg, disk) {
        Ok(take) => take,
        Err(fault) => return Ok(fault.disk),
    };
    let mut barrier = MemoryBarrier::new(runs);
    publish(&mut take, 0, 2);
    commit(&mut take, &mut barrier);
    close(&mut take, &mut barrier);
    let (disk, _) = take.into_parts();
    Ok(disk)
}

/// Calls of the disk before a step.
fn calls_before(step: u64) -> u64 {
    if step <= 10 {
        step
    } else {
        10 + (step - 10) / 2
    }
}

/// Runs of the barrier before a step.
fn runs_before(step: u64) -> u64 {
    if step <= 10 { 0 } else { (step - 9) / 2 }
}

/// Plays the first steps of the script.
pub fn played(alloc: Global, steps: u64) -> Result<MemoryDisk, Fail> {
    let disk = empty_disk(alloc, calls_before(steps), &[])?;
    play(alloc, disk, &[runs_before(steps)])
}

/// Plays the script, of which one step fails.
pub fn played_without(alloc: Global, step: u64) -> Result<MemoryDisk, Fail> {
    let is_run = step >= 10 && step % 2 == 0;
    let fail = if is_run { u64::MAX } else { calls_before(step) };
    let run = if is_run { runs_before(step) } else { u64::MAX };
    let disk = empty_disk(alloc, 64, &[fail])?;
    play(alloc, disk, &[run])
}

/// An image of a disk, with room for the calls of a recovery, which fail from a number on.
pub fn image_of(
    alloc: Global,
    disk: &MemoryDisk,
    pick: Pick,
    stop: Option<u64>,
) -> Result<MemoryDisk, Fail> {
    let image = disk.image(alloc, pick)?;
    Ok(MemoryDisk::new(
        alloc,
        image.bytes(Area::Essence),
        image.bytes(Area::Commits),
        16_384,
        64,
        &[],
        stop,
    )?)
}

/// What a recovery of an image of a disk answers.
pub fn answer(alloc: Global, disk: &MemoryDisk, pick: Pick) -> Result<Answer, Fail> {
    let mut image = image_of(alloc, disk, pick, None)?;
    Ok(recover::<PictureLayout, MemoryDisk>(alloc, &mut image))
}
