//! Frames that are published, and frames that are refused.

use crate::turns::{CLOSE, COMMIT, End, Turn, fresh_take, play, play_all, small_config};
use std::test::Fail;
use take_disk::MemoryBarrier;

/// The frame of a number is published.
const FIRST: [Turn; 1] = [Turn::Publish(0)];

const SECOND: [Turn; 1] = [Turn::Publish(1)];

const THIRD: [Turn; 1] = [Turn::Publish(2)];

const TENTH: [Turn; 1] = [Turn::Publish(9)];

/// The tail is written, and the barrier runs for it.
const TAIL: [Turn; 3] = [Turn::Tail, Turn::Ticket, Turn::Settle];

/// A commit begins, and the barrier runs for it.
const BEGIN: [Turn; 3] = [Turn::Begin, Turn::Ticket, Turn::Settle];

// The most frames of the take, its lag, and how the last turn ends.
#[test]
fn frames_come_in_turn_and_commits_keep_up(rt: HostRuntime) -> Result<(), Fail> {
    let cases: [(&str, u8, u8, &[&[Turn]], End); 9] = [
        (
            "the first again",
            100,
            8,
            &[&FIRST, &FIRST],
            End::OutOfTurn(1, 0),
        ),
        (
            "one too far",
            100,
            8,
            &[&FIRST, &THIRD],
            End::OutOfTurn(1, 2),
        ),
        (
            "a lag of one",
            100,
            1,
            &[&FIRST, &SECOND],
            End::Lagging(1, 0),
        ),
        (
            "a lag of one, and a commit",
            100,
            1,
            &[&FIRST, &COMMIT, &SECOND],
            End::Done,
        ),
        (
            "a lag of one, and a frame behind a commit",
            100,
            1,
            &[&FIRST, &COMMIT, &SECOND, &THIRD],
            End::Lagging(2, 1),
        ),
        (
            "a lag of two",
            100,
            2,
            &[&FIRST, &SECOND, &THIRD],
            End::Lagging(2, 0),
        ),
        (
            "a take of one",
            1,
            8,
            &[&FIRST, &COMMIT, &SECOND],
            End::TakeFull(1),
        ),
        (
            "behind the tail",
            100,
            8,
            &[&FIRST, &COMMIT, &[Turn::Tail], &SECOND],
            End::Ended(1),
        ),
        (
            "behind the close",
            100,
            8,
            &[&FIRST, &COMMIT, &CLOSE, &SECOND],
            End::Ended(1),
        ),
    ];
    for (what, most, lag, turns, end) in cases {
        let mut take = fresh_take(rt.alloc(), &small_config(most, lag)?, &[])?;
        let mut barrier = MemoryBarrier::new(&[]);
        let got = play_all(&mut take, &mut barrier, turns);
        assert_eq!(rt; got, end, "{what}");
    }
    Ok(())
}

// Each row has all causes that can stand behind the first one. The barrier's run that fails.
#[test]
fn the_first_cause_is_answered(rt: HostRuntime) -> Result<(), Fail> {
    let cases: [(&str, u64, &[&[Turn]], &[Turn], End); 6] = [
        (
            "stopped, the tail written, out of turn, full",
            3,
            &[&FIRST, &COMMIT, &TAIL],
            &TENTH,
            End::Stopped(1),
        ),
        (
            "stopped, out of turn, full, lagging",
            0,
            &[&FIRST, &BEGIN],
            &TENTH,
            End::Stopped(1),
        ),
        (
            "stopped, full, lagging",
            0,
            &[&FIRST, &BEGIN],
            &SECOND,
            End::Stopped(1),
        ),
        (
            "the tail written, out of turn, full",
            64,
            &[&FIRST, &COMMIT, &TAIL],
            &TENTH,
            End::Ended(1),
        ),
        (
            "out of turn, full, lagging",
            64,
            &[&FIRST],
            &TENTH,
            End::OutOfTurn(1, 9),
        ),
        ("full, lagging", 64, &[&FIRST], &SECOND, End::TakeFull(1)),
    ];
    for (what, run, before, last, end) in cases {
        let mut take = fresh_take(rt.alloc(), &small_config(1, 1)?, &[])?;
        let runs = [run];
        let mut barrier = MemoryBarrier::new(&runs);
        play_all(&mut take, &mut barrier, before);
        let step = take.snapshot().step;
        assert_eq!(rt; play(&mut take, &mut barrier, last), end, "{what}");
        assert_eq!(rt; take.snapshot().step, step, "{what}");
        let (disk, _) = take.into_parts();
        assert_eq!(rt; disk.faults, 0, "{what}");
    }
    Ok(())
}
