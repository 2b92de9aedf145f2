//! Recoveries over disks in memory. The lengths are those of docs/FORMATS.md, "A take's file", by hand: behind a head of 3,289
//! bytes three frames of 50 bytes have leads of 148, 24 and 24, so that their growing file has 3,635 bytes; the closed files of
//! none, two and three have 6,626, 7,072 and 7,157.

use crate::answer::{RecoverFault, Recovered};
use crate::laws::recoveries_stand;
use crate::recovering::recover;
use commit_sidecar::{put_head, put_note};
use mxf_take_file::PictureLayout;
use rec_bytes::{Config, read_config};
use std::alloc::Global;
use std::test::Fail;
use take_core::Mark;
use take_disk::{Area, MemoryDisk, Pick};
use take_layout::{GrowingFile, TakeLayout};

/// The spelling of a configuration of 16 by 16 pictures, with 250 frames in a body partition and 100 in the take.
fn spelling() -> [u8; 64] {
    let mut bytes = [0u8; 64];
    let start = [
        0, 16, 0, 16, 0, 3, 1, 1, 1, 1, 0, 1, 224, 0, 0, 0, 16, 0, 0, 250, 0, 0, 0, 100, 0, 8,
    ];
    bytes[..26].copy_from_slice(&start);
    bytes
}

/// Puts a unit of 50 bytes behind its lead, where the take has room for one more.
fn put_unit(
    alloc: Global,
    file: &mut GrowingFile<PictureLayout>,
    bytes: &mut Vec<u8>,
) -> Result<(), Fail> {
    if file.places().len() as u64 >= u64::from(file.config().max_frames) {
        return Ok(());
    }
    let lead_len = PictureLayout::lead_len(file.config(), file.places());
    let mut lead = vec![in alloc; 0u8; lead_len as usize]?;
    PictureLayout::put_lead(file.config(), file.places(), 50, lead.as_mut_slice());
    bytes.extend_from_slice(lead.as_slice())?;
    bytes.resize(bytes.len() + 50, 7)?;
    file.add(50)?;
    Ok(())
}

/// The growing file of so many units, or the closed one.
fn file_of(alloc: Global, cfg: &Config, count: u8, closed: bool) -> Result<Vec<u8>, Fail> {
    let mut file = GrowingFile::<PictureLayout>::new(alloc, cfg);
    let mut bytes = vec![in alloc; 0u8; PictureLayout::head_len(cfg) as usize]?;
    PictureLayout::put_head(cfg, bytes.as_mut_slice());
    for _ in 0..count {
        put_unit(alloc, &mut file, &mut bytes)?;
    }
    if closed {
        let tail_len = PictureLayout::tail_len(file.config(), file.places());
        let mut tail = vec![in alloc; 0u8; tail_len as usize]?;
        PictureLayout::put_tail(file.config(), file.places(), tail.as_mut_slice());
        bytes.extend_from_slice(tail.as_slice())?;
    }
    Ok(bytes)
}

/// The commits that say these marks.
fn commits_of(alloc: Global, cfg: &Config, marks: &[Mark]) -> Result<Vec<u8>, Fail> {
    let mut head = [0u8; 73];
    put_head(cfg, &mut head);
    let mut bytes = head.to_vec(alloc)?;
    for mark in marks {
        let mut note = [0u8; 18];
        put_note(mark, &mut note);
        if let Some(gate) = bytes.last_mut() {
            *gate = 1;
        }
        bytes.extend_from_slice(&note)?;
    }
    Ok(bytes)
}

/// A mark of so many frames and bytes.
fn mark(count: u64, length: u64, closed: bool) -> Mark {
    Mark {
        count,
        length,
        closed,
    }
}

/// The bytes with others from a place on, as many as there is room for.
fn placed(alloc: Global, bytes: &[u8], at: usize, by: &[u8]) -> Result<Vec<u8>, Fail> {
    let mut copy = bytes.to_vec(alloc)?;
    for (place, byte) in copy.iter_mut().skip(at).zip(by) {
        *place = *byte;
    }
    Ok(copy)
}

/// The first bytes, so many or as many as there are.
fn front(bytes: &[u8], count: usize) -> &[u8] {
    &bytes[..bytes.len().min(count)]
}

/// A disk with these areas, whose calls fail from a number on.
fn disk_of(
    alloc: Global,
    essence: &[u8],
    commits: &[u8],
    stop: Option<u64>,
) -> Result<MemoryDisk, Fail> {
    Ok(MemoryDisk::new(alloc, essence, commits, 16_384, 64, &[], stop)?)
}

/// Whether the answer is that a take of so many frames and bytes is closed, now or before.
fn is_closed(done: Result<Recovered, RecoverFault>, want: (u64, u64)) -> bool {
    match done {
        Ok(Recovered::Closed { count, len } | Recovered::Already { count, len }) => {
            (count, len) == want
        }
        Err(_) => false,
    }
}

/// Whether each image of a disk is recovered to so many frames and bytes, and to the same again.
fn images_are_closed(alloc: Global, disk: &MemoryDisk, want: (u64, u64)) -> Result<bool, Fail> {
    for pick in [
        Pick::Kept,
        Pick::Lost,
        Pick::Torn(0),
        Pick::Torn(1),
        Pick::Torn(7),
    ] {
        let mut image = disk.image(alloc, pick)?;
        let first = recover::<PictureLayout, MemoryDisk>(alloc, &mut image);
        let again = recover::<PictureLayout, MemoryDisk>(alloc, &mut image);
        let (count, len) = want;
        if !is_closed(first, want) || again != Ok(Recovered::Already { count, len }) {
            return Ok(false);
        }
    }
    Ok(true)
}

/// The number of the call from which on a recovery of these areas comes to its end, if each that is stopped earlier is recovered
/// to so many frames and bytes, whatever the stop leaves.
fn calls_of(
    alloc: Global,
    essence: &[u8],
    commits: &[u8],
    want: (u64, u64),
) -> Result<Option<u64>, Fail> {
    for stop in 0..64 {
        let mut disk = disk_of(alloc, essence, commits, Some(stop))?;
        let done = recover::<PictureLayout, MemoryDisk>(alloc, &mut disk);
        if !images_are_closed(alloc, &disk, want)? {
            return Ok(None);
        }
        if is_closed(done, want) {
            return Ok(Some(stop));
        }
        if done != Err(RecoverFault::DiskFault { at: 1 }) {
            return Ok(None);
        }
    }
    Ok(None)
}

#[test]
fn a_recovery_that_is_stopped_is_run_again(rt: HostRuntime) -> Result<(), Fail> {
    let alloc = rt.alloc();
    let cfg = read_config(&spelling()).expect(&rt, "a configuration");
    let growing = file_of(alloc, &cfg, 3, false)?;
    let said = commits_of(alloc, &cfg, &[mark(3, 3635, false)])?;
    let shut = placed(alloc, &said, 72, &[0])?;
    let calls = calls_of(alloc, &growing, &said, (3, 7157))?;
    assert_eq!(rt; calls, Some(15), "three frames that are durable");
    let calls = calls_of(alloc, &growing, &shut, (0, 6626))?;
    assert_eq!(rt; calls, Some(12), "a record that isn't opened");
    Ok(())
}

/// What a recovery of these areas answers, and whether each area reads as before.
fn answer_of(
    alloc: Global,
    essence: &[u8],
    commits: &[u8],
) -> Result<(Result<Recovered, RecoverFault>, bool), Fail> {
    let mut disk = disk_of(alloc, essence, commits, None)?;
    let done = recover::<PictureLayout, MemoryDisk>(alloc, &mut disk);
    let same = disk.bytes(Area::Essence) == essence && disk.bytes(Area::Commits) == commits;
    Ok((done, same))
}

// docs/formats/commits.md, "Refusals": a change of the closed take of three frames, and its refusal.
#[test]
fn what_is_no_take_is_refused_and_stays(rt: HostRuntime) -> Result<(), Fail> {
    recoveries_stand::<PictureLayout, MemoryDisk>();
    let alloc = rt.alloc();
    let cfg = read_config(&spelling()).expect(&rt, "a configuration");
    let file = file_of(alloc, &cfg, 3, true)?;
    let said = commits_of(alloc, &cfg, &[mark(3, 3635, false), mark(3, 7157, true)])?;
    let head = placed(alloc, &said, 0, &[0])?;
    let flag = placed(alloc, &said, 89, &[2])?;
    let count = placed(alloc, &said, 98, &[2])?;
    let shut = placed(alloc, &said, 90, &[0])?;
    let other = placed(alloc, &file, 0, &[0])?;
    let mut longer = file.clone()?;
    longer.push(0)?;
    let no_take = |at: u64| RecoverFault::NoTake { at, other: 1 };
    let damaged = |at: u64, other: u64| RecoverFault::Damaged { at, other };
    let cases: [(&str, &[u8], &[u8], RecoverFault); 9] = [
        ("two empty areas", &[], &[], no_take(0)),
        ("a wrong byte of the magic", &file, &head, no_take(0)),
        ("a closed byte of 2", &file, &flag, damaged(72, 1)),
        ("a count that falls", &file, &count, damaged(90, 1)),
        (
            "a record that is cut",
            &file,
            front(&said, 100),
            damaged(90, 1),
        ),
        ("no gate", &file, front(&said, 108), damaged(108, 1)),
        (
            "a short essence",
            front(&file, 3634),
            front(&shut, 91),
            damaged(3634, 0),
        ),
        ("a wrong byte of the essence", &other, &said, damaged(0, 0)),
        (
            "a closed file that goes on",
            &longer,
            &said,
            damaged(7157, 0),
        ),
    ];
    for (what, essence, commits, want) in cases {
        assert_eq!(rt;
            answer_of(alloc, essence, commits)?,
            (Err(want), true),
            "{what}"
        );
    }
    Ok(())
}

/// A recovery of these areas leaves the closed file of so many units, and answers its length.
fn leaves(
    alloc: Global,
    cfg: &Config,
    essence: &[u8],
    commits: &[u8],
    count: u8,
) -> Result<u64, Fail> {
    let want = file_of(alloc, cfg, count, true)?;
    let mut disk = disk_of(alloc, essence, commits, None)?;
    let done = recover::<PictureLayout, MemoryDisk>(alloc, &mut disk);
    if disk.bytes(Area::Essence) != want.as_slice() || disk.faults != 0 {
        return Ok(0);
    }
    match done {
        Ok(Recovered::Closed { count: frames, len }) if frames == u64::from(count) => Ok(len),
        _ => Ok(0),
    }
}

#[test]
fn what_isnt_durable_is_cut(rt: HostRuntime) -> Result<(), Fail> {
    let alloc = rt.alloc();
    let cfg = read_config(&spelling()).expect(&rt, "a configuration");
    let growing = file_of(alloc, &cfg, 3, false)?;
    let tailed = file_of(alloc, &cfg, 3, true)?;
    let none = commits_of(alloc, &cfg, &[])?;
    let two = commits_of(alloc, &cfg, &[mark(1, 3487, false), mark(2, 3561, false)])?;
    let three = commits_of(alloc, &cfg, &[mark(3, 3635, false)])?;
    let odd = placed(alloc, &two, 108, &[7])?;
    let mut behind = odd.clone()?;
    behind.extend_from_slice(&[9; 5])?;
    let cases: [(&str, &[u8], &[u8], u8, u64); 6] = [
        ("no commit", &growing, &none, 0, 6626),
        ("a unit behind two", &growing, &two, 2, 7072),
        ("a closed gate of 7", &growing, &odd, 2, 7072),
        ("a torn record behind it", &growing, &behind, 2, 7072),
        ("all three", &growing, &three, 3, 7157),
        ("a tail without its mark", &tailed, &three, 3, 7157),
    ];
    for (what, essence, commits, count, want) in cases {
        assert_eq!(rt;
            leaves(alloc, &cfg, essence, commits, count)?,
            want,
            "{what}"
        );
    }
    Ok(())
}

#[test]
fn more_records_are_read_than_a_window_holds(rt: HostRuntime) -> Result<(), Fail> {
    let alloc = rt.alloc();
    let cfg = read_config(&spelling()).expect(&rt, "a configuration");
    let head = file_of(alloc, &cfg, 0, false)?;
    for count in [127, 128, 129, 300] {
        let marks = vec![in alloc; mark(0, 3289, false); count]?;
        let commits = commits_of(alloc, &cfg, marks.as_slice())?;
        assert_eq!(rt;
            leaves(alloc, &cfg, &head, &commits, 0)?,
            6626,
            "{count} records"
        );
        let cut = front(&commits, commits.len().saturating_sub(1));
        let at = 72 + 18 * count as u64;
        let damaged = RecoverFault::Damaged { at, other: 1 };
        assert_eq!(rt;
            answer_of(alloc, &head, cut)?,
            (Err(damaged), true),
            "{count} cut"
        );
    }
    Ok(())
}
