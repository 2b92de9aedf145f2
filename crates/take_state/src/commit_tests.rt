//! Commits of takes. The lengths are those of docs/FORMATS.md, "A take's file", by hand: behind a head of 3,289 bytes three
//! frames of 50 bytes have leads of 148, 24 and 24, so that they end at 3,487, 3,561 and 3,635; the closed files of none, one
//! and three have 6,626, 6,987 and 7,157.

use crate::turns::{CLOSE, COMMIT, End, Turn, fresh_take, play, play_all, small_config};
use std::alloc::Global;
use std::test::Fail;
use take_core::{CommitPhase, Entry, Mark};
use take_disk::{Area, MemoryBarrier, MemoryDisk, Pick};

/// Three frames.
const FRAMES: [Turn; 3] = [Turn::Publish(0), Turn::Publish(1), Turn::Publish(2)];

/// A frame of 50 bytes is published.
const PUBLISHED: Entry = Entry::Published { len: 50 };

/// The first fault has stopped the take.
const STOPPED: Entry = Entry::Stopped { faults: 1 };

/// Behind the head of the commits: the first gate, three frames of 3,635 bytes, a gate, the closed file, and a gate.
const THREE: [u8; 37] = [
    1, 0, 0, 0, 0, 0, 0, 0, 3, 0, 0, 0, 0, 0, 0, 0x0e, 0x33, 0, 1, 0, 0, 0, 0, 0, 0, 0, 3, 0, 0, 0,
    0, 0, 0, 0x1b, 0xf5, 1, 0,
];

/// The same, each frame in a commit of its own.
const EACH: [u8; 73] = [
    1, 0, 0, 0, 0, 0, 0, 0, 1, 0, 0, 0, 0, 0, 0, 0x0d, 0x9f, 0, 1, 0, 0, 0, 0, 0, 0, 0, 2, 0, 0, 0,
    0, 0, 0, 0x0d, 0xe9, 0, 1, 0, 0, 0, 0, 0, 0, 0, 3, 0, 0, 0, 0, 0, 0, 0x0e, 0x33, 0, 1, 0, 0, 0,
    0, 0, 0, 0, 3, 0, 0, 0, 0, 0, 0, 0x1b, 0xf5, 1, 0,
];

/// No frame, closed.
const NONE: [u8; 19] = [
    1, 0, 0, 0, 0, 0, 0, 0, 0, 0, 0, 0, 0, 0, 0, 0x19, 0xe2, 1, 0,
];

/// What stands behind the head of the commits.
fn notes(disk: &MemoryDisk) -> &[u8] {
    let bytes = disk.bytes(Area::Commits);
    &bytes[bytes.len().min(72)..]
}

#[test]
fn a_take_is_committed_and_closed(rt: HostRuntime) -> Result<(), Fail> {
    let three = Entry::Acked { count: 3 };
    let cases: [(&str, u8, &[&[Turn]], &[Entry], usize, &[u8]); 3] = [
        (
            "one commit",
            8,
            &[&FRAMES, &COMMIT, &CLOSE],
            &[PUBLISHED, PUBLISHED, PUBLISHED, three, Entry::Closed],
            7157,
            &THREE,
        ),
        (
            "a commit a frame",
            1,
            &[
                &FRAMES[..1],
                &COMMIT,
                &FRAMES[1..2],
                &COMMIT,
                &FRAMES[2..],
                &COMMIT,
                &CLOSE,
            ],
            &[
                PUBLISHED,
                Entry::Acked { count: 1 },
                PUBLISHED,
                Entry::Acked { count: 2 },
                PUBLISHED,
                three,
                Entry::Closed,
            ],
            7157,
            &EACH,
        ),
        ("no frame", 8, &[&CLOSE], &[Entry::Closed], 6626, &NONE),
    ];
    for (what, lag, turns, history, len, want) in cases {
        let cfg = small_config(100, lag)?;
        let mut take = fresh_take(rt.alloc(), &cfg, &[])?;
        let mut barrier = MemoryBarrier::new(&[]);
        assert_eq!(rt;
            play_all(&mut take, &mut barrier, turns),
            End::Done,
            "{what}"
        );
        let (disk, entries) = take.into_parts();
        assert_eq!(rt; entries.as_slice(), history, "{what}");
        assert_eq!(rt; disk.bytes(Area::Essence).len(), len, "{what}");
        assert_eq!(rt; notes(&disk), want, "{what}");
        assert_eq!(rt; disk.faults, 0, "{what}");
    }
    Ok(())
}

/// The lengths of the essence in the images in which all unsettled bytes are lost or kept.
fn image_lens(alloc: Global, disk: &MemoryDisk) -> Result<(usize, usize), Fail> {
    let lost = disk.image(alloc, Pick::Lost)?;
    let kept = disk.image(alloc, Pick::Kept)?;
    Ok((
        lost.bytes(Area::Essence).len(),
        kept.bytes(Area::Essence).len(),
    ))
}

// A frame is in the commit; a second one is published behind a ticket, and with it is lost. A second ticket settles it too,
// and still it isn't in the commit.
#[test]
fn a_ticket_settles_what_was_published_before_it(rt: HostRuntime) -> Result<(), Fail> {
    use Turn::{Begin, Publish, Settle, Ticket};
    let cases: [(&str, &[Turn], (usize, usize)); 4] = [
        (
            "nothing behind",
            &[Publish(0), Begin, Ticket, Settle],
            (3487, 3487),
        ),
        (
            "a frame behind",
            &[Publish(0), Begin, Ticket, Publish(1), Settle],
            (3487, 3561),
        ),
        (
            "a frame before the ticket",
            &[Publish(0), Begin, Publish(1), Ticket, Settle],
            (3561, 3561),
        ),
        (
            "a second ticket",
            &[Publish(0), Begin, Ticket, Publish(1), Ticket, Settle],
            (3561, 3561),
        ),
    ];
    let mark = Mark {
        count: 1,
        length: 3487,
        closed: false,
    };
    for (what, turns, lens) in cases {
        let mut take = fresh_take(rt.alloc(), &small_config(100, 8)?, &[])?;
        let mut barrier = MemoryBarrier::new(&[]);
        assert_eq!(rt; play(&mut take, &mut barrier, turns), End::Done, "{what}");
        assert_eq!(rt; take.commit_phase(), CommitPhase::Marked(mark), "{what}");
        assert_eq!(rt; take.out(), None, "{what}");
        let (disk, _) = take.into_parts();
        assert_eq!(rt; image_lens(rt.alloc(), &disk)?, lens, "{what}");
    }
    Ok(())
}

// What is settled must be the ticket that is out, so the first one is of no use then.
#[test]
fn a_second_ticket_takes_the_place_of_the_first(rt: HostRuntime) -> Result<(), Fail> {
    use Turn::{Begin, Publish};
    let mut take = fresh_take(rt.alloc(), &small_config(100, 8)?, &[])?;
    let mut barrier = MemoryBarrier::new(&[]);
    let end = play(&mut take, &mut barrier, &[Publish(0), Begin, Turn::Ticket]);
    assert_eq!(rt; end, End::Done);
    let phase = take.commit_phase();
    let first = take.out().ok_or("no ticket")?;
    let end = play(&mut take, &mut barrier, &[Turn::Ticket]);
    assert_eq!(rt; end, End::Done);
    let second = take.out().ok_or("no ticket")?;
    assert_eq!(rt; take.commit_phase(), phase);
    assert_eq!(rt; (first.area, second.area), (Area::Essence, Area::Essence));
    assert!(rt; first.moment < second.moment, "the second is later");
    Ok(())
}

// The call of the disk that fails, or the barrier's run that does, and the history.
#[test]
fn a_take_stops_where_a_call_fails(rt: HostRuntime) -> Result<(), Fail> {
    let first = Entry::Acked { count: 1 };
    let both = Entry::Acked { count: 2 };
    let cases: [(&str, u64, u64, &[Entry]); 9] = [
        ("the first lead", 4, 64, &[STOPPED]),
        ("the first frame", 5, 64, &[STOPPED]),
        ("the barrier of the essence", 64, 0, &[PUBLISHED, STOPPED]),
        ("the note", 6, 64, &[PUBLISHED, STOPPED]),
        ("the barrier of the note", 64, 1, &[PUBLISHED, STOPPED]),
        ("the gate", 7, 64, &[PUBLISHED, STOPPED]),
        ("the barrier of the gate", 64, 2, &[PUBLISHED, STOPPED]),
        ("the second frame", 9, 64, &[PUBLISHED, first, STOPPED]),
        (
            "the tail",
            12,
            64,
            &[PUBLISHED, first, PUBLISHED, both, STOPPED],
        ),
    ];
    let turns: [&[Turn]; 5] = [&FRAMES[..1], &COMMIT, &FRAMES[1..2], &COMMIT, &CLOSE];
    for (what, call, run, history) in cases {
        let mut take = fresh_take(rt.alloc(), &small_config(100, 8)?, &[call])?;
        let runs = [run];
        let mut barrier = MemoryBarrier::new(&runs);
        let end = play_all(&mut take, &mut barrier, &turns);
        assert_eq!(rt; end, End::Failed(1), "{what}");
        assert_eq!(rt; take.history(), history, "{what}");
        let more = play(&mut take, &mut barrier, &FRAMES[2..]);
        assert_eq!(rt; more, End::Stopped(1), "{what}");
    }
    Ok(())
}

// The take is stopped while a ticket is out: it isn't settled any more, and the phase of the commit stays.
#[test]
fn a_stopped_take_settles_nothing(rt: HostRuntime) -> Result<(), Fail> {
    use Turn::{Begin, Publish, Settle, Ticket};
    let mut take = fresh_take(rt.alloc(), &small_config(100, 8)?, &[7])?;
    let mut barrier = MemoryBarrier::new(&[]);
    let turns = [Publish(0), Begin, Ticket, Publish(1)];
    assert_eq!(rt; play(&mut take, &mut barrier, &turns), End::Failed(1));
    assert_eq!(rt; play(&mut take, &mut barrier, &[Settle]), End::NotDue);
    assert_eq!(rt;
        play(&mut take, &mut barrier, &[Publish(1)]),
        End::Stopped(1)
    );
    let seen = take.snapshot();
    assert_eq!(rt; (seen.step, seen.published, seen.acked), (2, 1, 0));
    assert_eq!(rt; take.faults(), 1);
    let (disk, _) = take.into_parts();
    assert_eq!(rt; image_lens(rt.alloc(), &disk)?, (3289, 3511));
    Ok(())
}
