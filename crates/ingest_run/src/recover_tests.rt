//! The command `recover` over disks in memory. Places and bytes are counted by hand from docs/formats/mxf.md and
//! docs/formats/commits.md.

ghost use Rattle.std.specs.Prelude.{◌≡◌, Some, []};

use crate::check_tests::{cut, small_file};
use crate::plain;
use crate::tests::{HEAD, Run, feed_of, put, words_of};
use mxf_take_file::PictureLayout;
use raw_feed::{Feed, MemorySink, MemorySource};
use std::alloc::Global;
use std::marker::Brand;
use std::process::Abort;
use std::test::Fail;
use std::thread::Threads;
use take_disk::{Area, MemoryDisk};

/// What stands behind the head of the commits in docs/formats/commits.md, "Example": three frames in one commit, then the
/// closed file.
const RECORDS: [u8; 37] =
    *b"\x01\0\0\0\0\0\0\0\x03\0\0\0\0\0\0\x0e\x33\0\x01\0\0\0\0\0\0\0\x03\0\0\0\0\0\0\x1b\xf5\x01\0";

/// The record of a take that is closed without frames, and the gate behind it: 6,626 bytes.
const NO_FRAMES: [u8; 19] = *b"\x01\0\0\0\0\0\0\0\0\0\0\0\0\0\0\x19\xe2\x01\0";

/// The record of a commit of three frames, whose gate isn't open.
const SHUT: [u8; 19] = *b"\0\0\0\0\0\0\0\0\x03\0\0\0\0\0\0\x0e\x33\0\0";

/// Bytes of the growing file of the three frames.
const GROWN: usize = 3635;

/// A run of `recover`, and what the essence and the commits read afterwards.
type Recovery = (Run, Vec<u8>, Vec<u8>);

/// Recovers a take of these areas, where calls of the disk and of the sink, numbered from 0, fail.
fn recovered<N: Feed, R: AllocGlobal + Threads + Sync + Abort>(
    rt: &R,
    essence: &[u8],
    commits: &[u8],
    disk_fails: &[u64],
    sink_fails: &[u64],
) -> Result<Recovery, Fail>
    requires { N.bytes ≡ Some [] }
{
    let mut feed = MemorySource::<N>::new(b"", &[]);
    let mut out = MemorySink::new(rt.alloc(), 64, sink_fails)?;
    let mut disk = MemoryDisk::new(rt.alloc(), essence, commits, 16_384, 4096, disk_fails, None)?;
    let words = words_of(rt.alloc(), &["recover", "--dir", "x"])?;
    let status = plain::<R, N, PictureLayout, _, _, _>(rt, &words, &mut feed, &mut disk, &mut out);
    let answer = ((status.code, status.number, status.at), status.other);
    Ok((
        (answer, out.bytes().to_vec(rt.alloc())?),
        disk.bytes(Area::Essence).to_vec(rt.alloc())?,
        disk.bytes(Area::Commits).to_vec(rt.alloc())?,
    ))
}

/// A commit file of the small configuration: its head, and then these bytes.
fn commits_of(alloc: Global, records: &[u8]) -> Result<Vec<u8>, Fail> {
    let mut commits = HEAD.to_vec(alloc)?;
    put(&mut commits, 0, b"PRTAKE01");
    commits.extend_from_slice(records)?;
    Ok(commits)
}

#[test]
fn a_take_is_closed_once(rt: HostRuntime) -> Result<(), Fail> {
    let alloc = rt.alloc();
    let feed = feed_of(alloc, 3)?;
    let file = small_file::<Brand, _>(&rt, &feed)?;
    let closed = commits_of(alloc, &RECORDS)?;
    // behind the three frames stand 90 bytes of a fourth
    let mut essence = cut(alloc, &file, 0, GROWN)?;
    essence.extend_from_slice(&[7; 90])?;
    let mut open = commits_of(alloc, &RECORDS[..18])?;
    open.push(0)?;
    let (run, now, commits) = recovered::<Brand, _>(&rt, &essence, &open, &[], &[])?;
    assert_eq!(rt; run.0, ((0, 0, 0), 0), "once");
    assert_eq!(rt; run.1.as_slice(), b"closed 3 bytes 7157\n".as_slice());
    assert_eq!(rt; (&now, &commits), (&file, &closed), "once");
    let (run, now, commits) = recovered::<Brand, _>(&rt, &file, &closed, &[], &[])?;
    assert_eq!(rt; run.0, ((0, 0, 0), 0), "twice");
    assert_eq!(rt; run.1.as_slice(), b"already 3 bytes 7157\n".as_slice());
    assert_eq!(rt; (&now, &commits), (&file, &closed), "twice");
    Ok(())
}

#[test]
fn frames_that_no_commit_names_are_cut(rt: HostRuntime) -> Result<(), Fail> {
    let alloc = rt.alloc();
    let feed = feed_of(alloc, 3)?;
    let none = feed_of(alloc, 0)?;
    let file = small_file::<Brand, _>(&rt, &feed)?;
    let empty = small_file::<Brand, _>(&rt, &none)?;
    let closed = commits_of(alloc, &NO_FRAMES)?;
    let essence = cut(alloc, &file, 0, GROWN)?;
    // the gate of the first record isn't open, whatever stands behind it
    let records: [&[u8]; 4] = [b"\0", b"\x07", b"\0\x01\x01\x01", &SHUT];
    for behind in records {
        let open = commits_of(alloc, behind)?;
        let (run, now, commits) = recovered::<Brand, _>(&rt, &essence, &open, &[], &[])?;
        assert_eq!(rt; run.0, ((0, 0, 0), 0), "{behind:?}");
        assert_eq!(rt; run.1.as_slice(), b"closed 0 bytes 6626\n".as_slice());
        assert_eq!(rt; (&now, &commits), (&empty, &closed), "{behind:?}");
    }
    Ok(())
}

#[test]
fn a_take_that_is_refused_stays_as_it_is(rt: HostRuntime) -> Result<(), Fail> {
    let alloc = rt.alloc();
    let feed = feed_of(alloc, 3)?;
    let file = small_file::<Brand, _>(&rt, &feed)?;
    // bytes of the file and of the commits, and a byte that is put into one; the answer's number, place and area
    let rows: [(
        &str,
        usize,
        usize,
        Option<(Area, usize, u8)>,
        (u16, u64, u64),
    ); 9] = [
        ("nothing", 0, 0, None, (80, 0, 1)),
        ("no commits", 7157, 0, None, (80, 0, 1)),
        ("a magic that is cut", 7157, 5, None, (80, 5, 1)),
        (
            "width 0",
            7157,
            109,
            Some((Area::Commits, 9, 0)),
            (80, 8, 1),
        ),
        ("a record that is cut", 7157, 107, None, (81, 90, 1)),
        ("no file", 0, 109, None, (81, 0, 0)),
        ("a file that is cut", 7156, 109, None, (81, 7156, 0)),
        (
            "another first byte",
            7157,
            109,
            Some((Area::Essence, 0, 7)),
            (81, 0, 0),
        ),
        (
            "another key of the second frame",
            7157,
            109,
            Some((Area::Essence, 3487, 7)),
            (81, 3487, 0),
        ),
    ];
    for (name, bytes, len, change, (number, at, area)) in rows {
        let mut essence = cut(alloc, &file, 0, bytes)?;
        let mut commits = commits_of(alloc, &RECORDS)?;
        commits.truncate(len);
        match change {
            Some((Area::Essence, place, byte)) => put(&mut essence, place, &[byte]),
            Some((Area::Commits, place, byte)) => put(&mut commits, place, &[byte]),
            None => {}
        }
        let (run, now, kept) = recovered::<Brand, _>(&rt, &essence, &commits, &[], &[])?;
        assert_eq!(rt; run, (((8, number, at), area), Vec::new(alloc)), "{name}");
        assert_eq!(rt; (&now, &kept), (&essence, &commits), "{name}");
    }
    Ok(())
}

#[test]
fn a_device_that_fails_is_answered(rt: HostRuntime) -> Result<(), Fail> {
    let alloc = rt.alloc();
    let feed = feed_of(alloc, 3)?;
    let file = small_file::<Brand, _>(&rt, &feed)?;
    let closed = commits_of(alloc, &RECORDS)?;
    let (run, _, _) = recovered::<Brand, _>(&rt, &file, &closed, &[0], &[])?;
    assert_eq!(rt; run, (((6, 83, 1), 0), Vec::new(alloc)), "the disk");
    let (run, _, _) = recovered::<Brand, _>(&rt, &file, &closed, &[], &[0])?;
    assert_eq!(rt; run, (((7, 117, 1), 0), Vec::new(alloc)), "the sink");
    Ok(())
}
