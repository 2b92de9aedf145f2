//! Disks and barriers in memory.

ghost use Rattle.std.specs.Prelude.{◌≡◌, ◌≤◌};

use crate::area::Area;
use crate::barrier::Barrier;
use crate::disk::TakeDisk;
use crate::done::Done;
use crate::memory_barrier::MemoryBarrier;
use crate::memory_disk::MemoryDisk;
use crate::ticket::Ticket;
use rec_bytes::Failed;
use std::test::Fail;

/// One call on a disk.
#[derive(Clone, Copy, Debug)]
pub(crate) enum Call<'a> {
    Read(Area, u64, usize),
    Write(Area, u64, &'a [u8]),
    Cut(Area, u64),
    Sync(Area),
}

// Makes a call, or none where it doesn't stay inside.
pub(crate) fn make<D: TakeDisk>(disk: &mut D, call: Call<'_>) -> Result<(), Failed> {
    match call {
        Call::Read(area, at, len) => read_some(disk, area, at, len),
        Call::Write(area, at, bytes) => write_some(disk, area, at, bytes),
        Call::Cut(area, len) => cut_some(disk, area, len),
        Call::Sync(area) => disk.sync(area),
    }
}

fn read_some<D: TakeDisk>(disk: &mut D, area: Area, at: u64, len: usize) -> Result<(), Failed> {
    let mut room = [0u8; 8];
    let Some(out) = room.get_mut(..len) else {
        return Err(Failed);
    };
    let end = disk.len(area);
    if at > end || out.len() as u64 > end - at {
        return Err(Failed);
    }
    disk.read(area, at, out)
}

fn write_some<D: TakeDisk>(disk: &mut D, area: Area, at: u64, bytes: &[u8]) -> Result<(), Failed> {
    if at > disk.len(area) {
        return Err(Failed);
    }
    disk.write(area, at, bytes)
}

fn cut_some<D: TakeDisk>(disk: &mut D, area: Area, len: u64) -> Result<(), Failed> {
    if len > disk.len(area) {
        return Err(Failed);
    }
    disk.cut(area, len)
}

/// Takes a ticket, writes behind the end, runs the barrier for the ticket and settles it.
pub(crate) fn settle_before<D: TakeDisk, B: Barrier>(
    disk: &mut D,
    barrier: &mut B,
    area: Area,
    later: &[u8],
) -> Result<Ticket, Failed> {
    let ticket = disk.ticket(area);
    let end = disk.len(area);
    disk.write(area, end, later)?;
    let done = barrier.run(ticket)?;
    if ticket.moment == u64::MAX || ticket.twin.is_some() {
        return Err(Failed);
    }
    disk.settle(done);
    Ok(ticket)
}

const OK: Result<(), Failed> = Ok(());

const NO: Result<(), Failed> = Err(Failed);

#[test]
fn calls_fail_by_their_number_and_for_want_of_room(rt: HostRuntime) -> Result<(), Fail> {
    use Area::{Commits, Essence};
    let calls = [
        Call::Write(Essence, 3, b"de"),
        Call::Write(Commits, 0, b"xyz"),
        Call::Read(Essence, 0, 2),
        Call::Cut(Essence, 2),
        Call::Sync(Commits),
        Call::Write(Commits, 1, b"q"),
    ];
    let cases: [(
        u64,
        u64,
        &[u64],
        Option<u64>,
        [Result<(), Failed>; 6],
        &[u8],
        &[u8],
        u64,
    ); 6] = [
        (9, 9, &[], None, [OK, OK, OK, OK, OK, OK], b"ab", b"xqz", 0),
        (
            9,
            9,
            &[0, 3, 7],
            None,
            [NO, OK, OK, NO, OK, OK],
            b"abc",
            b"xqz",
            2,
        ),
        (
            9,
            9,
            &[],
            Some(2),
            [OK, OK, NO, NO, NO, NO],
            b"abcde",
            b"xyz",
            4,
        ),
        (
            9,
            3,
            &[],
            None,
            [OK, OK, OK, NO, NO, NO],
            b"abcde",
            b"xyz",
            3,
        ),
        (5, 9, &[], None, [OK, OK, OK, OK, OK, NO], b"ab", b"xyz", 1),
        (2, 9, &[], None, [NO, NO, OK, OK, OK, NO], b"ab", b"", 2),
    ];
    for (room, record, fail, stop, want, essence, commits, faults) in cases {
        let mut disk = MemoryDisk::new(rt.alloc(), b"abc", b"", room, record, fail, stop)?;
        for (call, want) in calls.into_iter().zip(want) {
            assert_eq!(rt;
                make(&mut disk, call),
                want,
                "{call:?} room {room} fail {fail:?}"
            );
        }
        assert_eq!(rt; disk.bytes(Essence), essence, "room {room} fail {fail:?}");
        assert_eq!(rt; disk.bytes(Commits), commits, "room {room} fail {fail:?}");
        assert_eq!(rt; disk.faults(), faults, "room {room} fail {fail:?}");
    }
    Ok(())
}

#[test]
fn a_barrier_fails_by_its_number(rt: HostRuntime) -> Result<(), Fail> {
    let mut disk = MemoryDisk::new(rt.alloc(), b"", b"", 9, 9, &[], None)?;
    let mut barrier = MemoryBarrier::new(&[1]);
    // Each ticket and each write has the next moment.
    let cases = [Ok(1), Err(Failed), Ok(5)];
    for want in cases {
        let made = settle_before(&mut disk, &mut barrier, Area::Commits, b"x");
        assert_eq!(rt; made.map(|ticket| ticket.moment), want);
    }
    assert_eq!(rt; (barrier.faults(), disk.faults()), (1, 0));
    Ok(())
}

#[test]
fn runs_of_two_devices_are_joined_and_split(rt: HostRuntime) {
    let area = Area::Essence;
    let whole = Ticket {
        area,
        moment: 3,
        twin: Some(5),
    };
    let one = |moment| Ticket {
        area,
        moment,
        twin: None,
    };
    let other = Ticket {
        area: Area::Commits,
        moment: 5,
        twin: None,
    };
    let cases = [
        (whole, one(3), one(5), true),
        (whole, one(5), one(3), false),
        (whole, whole, one(5), false),
        (whole, one(3), other, false),
        (one(3), one(3), one(5), false),
    ];
    for (ticket, first, second, joins) in cases {
        let mut barrier = MemoryBarrier::new(&[]);
        let (Ok(a), Ok(b)) = (barrier.run(first), barrier.run(second)) else {
            panic!(rt; "a run failed");
        };
        match Done::join(ticket, a, b) {
            Ok(done) => {
                assert!(rt; joins, "{first:?} {second:?}");
                let (a, b) = done.split();
                assert_eq!(rt; *a.ticket(), first);
                assert_eq!(rt; b.map(|done| *done.ticket()), Some(second));
            }
            Err((a, b)) => {
                assert!(rt; !joins, "{first:?} {second:?}");
                assert_eq!(rt; (*a.ticket(), *b.ticket()), (first, second));
            }
        }
    }
}
