//! Frames that are read back.

use crate::turns::{
    CLOSE, COMMIT, End, MemoryTake, Turn, end_of, frame, fresh_take, play, play_all, small_config,
};
use std::test::Fail;
use take_core::{Entry, Phase};
use take_disk::MemoryBarrier;

/// Three frames.
const FRAMES: [Turn; 3] = [Turn::Publish(0), Turn::Publish(1), Turn::Publish(2)];

/// A commit begins, and the barrier runs for it.
const BEGIN: [Turn; 3] = [Turn::Begin, Turn::Ticket, Turn::Settle];

/// Reads a published frame of 50 bytes back.
fn read(take: &mut MemoryTake, number: u64, out: &mut [u8; 50]) -> End {
    if number >= take.snapshot().published || take.unit_len(number) != 50 {
        return End::NotDue;
    }
    end_of(take.unit(number, out))
}

// The barrier's run that fails, and the phase in which the frames are read.
#[test]
fn frames_are_read_back_in_every_phase(rt: HostRuntime) -> Result<(), Fail> {
    let cases: [(&str, u64, &[&[Turn]], Phase); 5] = [
        ("none is durable", 64, &[&FRAMES], Phase::Growing),
        ("a commit is out", 64, &[&FRAMES, &BEGIN], Phase::Growing),
        ("all are durable", 64, &[&FRAMES, &COMMIT], Phase::Growing),
        ("stopped", 0, &[&FRAMES, &BEGIN], Phase::Stopped),
        ("closed", 64, &[&FRAMES, &COMMIT, &CLOSE], Phase::Closed),
    ];
    for (what, run, turns, phase) in cases {
        let mut take = fresh_take(rt.alloc(), &small_config(100, 8)?, &[])?;
        let runs = [run];
        let mut barrier = MemoryBarrier::new(&runs);
        play_all(&mut take, &mut barrier, turns);
        assert_eq!(rt; take.snapshot().phase, phase, "{what}");
        let mut unit = [255u8; 50];
        for number in [2, 0, 1] {
            let end = read(&mut take, number, &mut unit);
            assert_eq!(rt; end, End::Done, "{what}, {number}");
            assert_eq!(rt; unit, frame(number), "{what}, {number}");
        }
        assert_eq!(rt; read(&mut take, 3, &mut unit), End::NotDue, "{what}");
    }
    Ok(())
}

// Behind three frames the first read is call 10 of the disk. The frame behind the second read has calls 12 and 13.
#[test]
fn a_read_that_fails_stops_nothing(rt: HostRuntime) -> Result<(), Fail> {
    let mut take = fresh_take(rt.alloc(), &small_config(100, 8)?, &[10, 13])?;
    let mut barrier = MemoryBarrier::new(&[]);
    assert_eq!(rt; play(&mut take, &mut barrier, &FRAMES), End::Done);
    let seen = take.snapshot();
    let mut unit = [255u8; 50];
    assert_eq!(rt; read(&mut take, 1, &mut unit), End::Failed(1));
    assert_eq!(rt; take.snapshot(), seen);
    assert_eq!(rt; read(&mut take, 1, &mut unit), End::Done);
    assert_eq!(rt; unit, frame(1));
    let end = play(&mut take, &mut barrier, &[Turn::Publish(3)]);
    assert_eq!(rt; end, End::Failed(2), "both faults are counted");
    assert_eq!(rt; take.history().last(), Some(&Entry::Stopped { faults: 2 }));
    assert_eq!(rt; read(&mut take, 2, &mut unit), End::Done);
    assert_eq!(rt; unit, frame(2));
    Ok(())
}

/// The length of a published frame.
fn len_of(take: &MemoryTake, number: u64) -> Option<u64> {
    if number >= take.snapshot().published {
        return None;
    }
    Some(take.unit_len(number))
}

#[test]
fn frames_have_lengths_of_their_own(rt: HostRuntime) -> Result<(), Fail> {
    let mut take = fresh_take(rt.alloc(), &small_config(100, 8)?, &[])?;
    take.publish(0, &[7u8; 1])?;
    take.publish(1, &[8u8; 700])?;
    take.publish(2, &[9u8; 2])?;
    let wants = [(0, Some(1)), (1, Some(700)), (2, Some(2)), (3, None)];
    for (number, want) in wants {
        assert_eq!(rt; len_of(&take, number), want, "{number}");
    }
    Ok(())
}
