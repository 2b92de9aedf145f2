//! Disks and barriers over files.

ghost use Rattle.std.specs.Prelude.{◌≡◌, ◌≤◌};

use crate::area::Area;
use crate::area_file::AreaFile;
use crate::barrier::Barrier;
use crate::disk::TakeDisk;
use crate::file_disk::{Access, FileDisk};
use crate::tests::{Call, make, settle_before};
use rec_bytes::Failed;
use std::cell::Cell;
use std::fs::{Metadata, OpenFile};
use std::io::{self, ErrorKind};
use std::os::unix::fs::FileExt;
use std::test::Fail;
use std::{env, fs, process};

/// A file of 4 bytes that moves one byte at a time, and is interrupted before each.
#[derive(Drop)]
struct Slow {
    calls: Cell<u64>,
    moved: Cell<u64>,
    is_broken: bool,
}

impl Slow {
    fn new(is_broken: bool) -> Slow {
        Slow {
            calls: Cell::new(0),
            moved: Cell::new(0),
            is_broken,
        }
    }

    fn turn(&self) -> io::Result<()> {
        let call = self.calls.get();
        self.calls.set(call.wrapping_add(1));
        if call % 2 == 0 {
            return Err(ErrorKind::Interrupted.into());
        }
        self.moved.set(self.moved.get().wrapping_add(1));
        Ok(())
    }

    fn end(&self) -> io::Result<()> {
        if self.is_broken {
            return Err(ErrorKind::Other.into());
        }
        Ok(())
    }
}

impl FileExt for Slow {
    fn read_at(&self, buf: &mut [u8], _offset: u64) -> io::Result<usize> {
        self.turn()?;
        let Some(first) = buf.first_mut() else {
            return Ok(0);
        };
        *first = 7;
        Ok(1)
    }

    fn write_at(&self, buf: &[u8], _offset: u64) -> io::Result<usize> {
        self.turn()?;
        Ok(buf.len().min(1))
    }
}

impl OpenFile for Slow {
    fn metadata(&self) -> io::Result<Metadata> {
        Ok(Metadata::of_file(4))
    }

    fn set_len(&self, _size: u64) -> io::Result<()> {
        self.end()
    }

    fn sync_all(&self) -> io::Result<()> {
        self.end()
    }

    fn sync_data(&self) -> io::Result<()> {
        self.end()
    }

    fn try_clone(&self) -> io::Result<Slow> {
        Ok(Slow::new(self.is_broken))
    }
}

#[test]
fn pieces_are_moved_to_the_end_and_each_error_is_counted(rt: HostRuntime) {
    let cases = [
        (Some(false), 4, [Ok(()), Ok(()), Ok(()), Ok(())], 0),
        (Some(true), 4, [Ok(()), Ok(()), Err(Failed), Err(Failed)], 2),
    ];
    for (is_broken, len, want, faults) in cases {
        let mut disk = FileDisk::new(is_broken.map(|broken| Slow::new(broken)), None);
        let area = Area::Essence;
        assert_eq!(rt; disk.len(area), len);
        let calls = [
            Call::Read(area, 1, 3),
            Call::Write(area, 2, b"abcd"),
            Call::Cut(area, 5),
            Call::Sync(area),
        ];
        for (call, want) in calls.into_iter().zip(want) {
            assert_eq!(rt; make(&mut disk, call), want, "{call:?}");
        }
        assert_eq!(rt; disk.faults(), faults);
    }
}

// Whether the essence's file is broken, and what settling essence and commits answers.
#[test]
fn a_barrier_settles_the_file_of_its_ticket(rt: HostRuntime) {
    let cases = [
        (true, [Err(Failed), Ok(())]),
        (false, [Ok(()), Err(Failed)]),
    ];
    for (is_broken, want) in cases {
        let files = (Slow::new(is_broken), Slow::new(!is_broken));
        let mut disk = FileDisk::new(Some(files.0), Some(files.1));
        let mut barrier = disk.barrier();
        for (area, want) in [Area::Essence, Area::Commits].into_iter().zip(want) {
            assert_eq!(rt; make(&mut disk, Call::Sync(area)), want, "{area:?}");
            let run = barrier.run(disk.ticket(area)).map(|_| ());
            assert_eq!(rt; run, want, "{area:?}");
        }
        assert_eq!(rt; (disk.faults(), barrier.faults()), (1, 1));
    }
}

// Whether the name is settled in the folder, whether the folder is broken, and what settling the file answers.
#[test]
fn a_new_file_is_settled_with_its_name(rt: HostRuntime) {
    let cases = [
        (true, Some(true), Ok(())),
        (true, None, Ok(())),
        (false, Some(false), Ok(())),
        (false, Some(true), Err(Failed)),
        (false, None, Err(Failed)),
    ];
    for (is_named, folder, want) in cases {
        let mut file = AreaFile::new(Some(Slow::new(false)), is_named);
        let folder = folder.map(|is_broken| Slow::new(is_broken));
        assert_eq!(rt; file.sync(&folder), want, "{is_named} {want:?}");
        assert_eq!(rt; file.sync(&None), want, "once more");
    }
}

#[test]
fn a_file_that_cannot_be_opened_is_empty_and_fails(rt: HostRuntime) -> Result<(), Fail> {
    let mut disk = FileDisk::open(&rt, rt.alloc(), "/dev/null/take", Access::Make)?;
    let area = Area::Commits;
    assert_eq!(rt; disk.len(area), 0);
    let calls = [
        Call::Read(area, 0, 0),
        Call::Write(area, 0, b"a"),
        Call::Cut(area, 0),
        Call::Sync(area),
    ];
    for call in calls {
        assert_eq!(rt; make(&mut disk, call), Err(Failed), "{call:?}");
    }
    assert_eq!(rt; (disk.faults(), disk.len(area)), (4, 0));
    Ok(())
}

#[test]
fn a_file_that_is_not_there_is_empty_and_not_made(rt: HostRuntime) -> Result<(), Fail> {
    let name = format!(in rt.alloc(); "take-disk-none-{}", process::id(rt.process()))?;
    let folder = env::temp_dir(&rt)?.join(rt.alloc(), name.as_str())?;
    let mut disk = FileDisk::open(&rt, rt.alloc(), folder.as_str(), Access::Change)?;
    let area = Area::Commits;
    assert_eq!(rt; disk.len(area), 0);
    assert_eq!(rt; make(&mut disk, Call::Read(area, 0, 0)), Ok(()));
    assert_eq!(rt; make(&mut disk, Call::Sync(area)), Ok(()));
    assert_eq!(rt; disk.faults(), 0);
    assert_eq!(rt; make(&mut disk, Call::Write(area, 0, b"a")), Err(Failed));
    assert_eq!(rt; make(&mut disk, Call::Cut(area, 0)), Err(Failed));
    assert_eq!(rt; disk.faults(), 2);
    let again = FileDisk::open(&rt, rt.alloc(), folder.as_str(), Access::Look)?;
    assert_eq!(rt; again.len(area), 0);
    Ok(())
}

#[test]
fn a_take_is_written_and_read_again(rt: HostRuntime) -> Result<(), Fail> {
    let name = format!(in rt.alloc(); "take-disk-test-{}", process::id(rt.process()))?;
    let folder = env::temp_dir(&rt)?.join(rt.alloc(), name.as_str())?;
    fs::create_dir(&rt, folder.as_path())?;
    let mut disk = FileDisk::open(&rt, rt.alloc(), folder.as_str(), Access::Make)?;
    let mut barrier = disk.barrier();
    let calls = [
        Call::Write(Area::Essence, 0, b"unit"),
        Call::Sync(Area::Essence),
        Call::Write(Area::Essence, 2, b"itself"),
        Call::Cut(Area::Essence, 5),
        Call::Write(Area::Commits, 0, b"mark"),
        Call::Sync(Area::Commits),
        Call::Read(Area::Commits, 1, 3),
    ];
    for call in calls {
        assert_eq!(rt; make(&mut disk, call), Ok(()), "{call:?}");
    }
    let settled = settle_before(&mut disk, &mut barrier, Area::Essence, b"es");
    assert_eq!(rt; settled.map(|ticket| ticket.moment), Ok(1));
    assert_eq!(rt; (disk.faults(), barrier.faults()), (0, 0));

    let writes = [(Access::Look, Err(Failed)), (Access::Change, Ok(()))];
    for (access, want) in writes {
        let mut again = FileDisk::open(&rt, rt.alloc(), folder.as_str(), access)?;
        assert_eq!(rt;
            (again.len(Area::Essence), again.len(Area::Commits)),
            (7, 4),
            "{access:?}"
        );
        let mut out = [0u8; 7];
        if again.len(Area::Essence) >= 7 {
            assert_eq!(rt; again.read(Area::Essence, 0, &mut out), Ok(()));
        }
        assert_eq!(rt; &out, b"unitses", "{access:?}");
        assert_eq!(rt;
            make(&mut again, Call::Write(Area::Essence, 0, b"a")),
            want,
            "{access:?}"
        );
    }
    fs::remove_dir_all(&rt, folder.as_path())?;
    Ok(())
}
