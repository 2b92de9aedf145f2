//! Images of a disk in memory.

use crate::area::Area;
use crate::memory_barrier::MemoryBarrier;
use crate::memory_disk::MemoryDisk;
use crate::pick::Pick;
use crate::tests::{Call, make, settle_before};
use rec_bytes::{Failed, Memory};
use std::alloc::Global;
use std::test::Fail;

// Whether these are the images of both areas: kept, lost, and torn with 7.
fn are_images(
    alloc: Global,
    disk: &MemoryDisk,
    essence: [&[u8]; 3],
    commits: [&[u8]; 3],
) -> Result<bool, Memory> {
    let picks = [Pick::Kept, Pick::Lost, Pick::Torn(7)];
    for ((pick, essence), commits) in picks.into_iter().zip(essence).zip(commits) {
        let image = disk.image(alloc, pick)?;
        if image.bytes(Area::Essence) != essence || image.bytes(Area::Commits) != commits {
            return Ok(false);
        }
    }
    Ok(true)
}

#[test]
fn an_image_has_what_was_settled(rt: HostRuntime) -> Result<(), Fail> {
    use Area::{Commits, Essence};
    let mut disk = MemoryDisk::new(rt.alloc(), b"abc", b"", 9, 9, &[3], None)?;
    let steps: [(Call<'_>, Result<(), Failed>, [&[u8]; 3], [&[u8]; 3]); 6] = [
        (
            Call::Write(Essence, 3, b"de"),
            Ok(()),
            [b"abcde", b"abc", b"abc\x07\x07"],
            [b"", b"", b""],
        ),
        (
            Call::Sync(Essence),
            Ok(()),
            [b"abcde", b"abcde", b"abcde"],
            [b"", b"", b""],
        ),
        (
            Call::Cut(Essence, 4),
            Ok(()),
            [b"abcd", b"abcde", b"abcd"],
            [b"", b"", b""],
        ),
        (
            Call::Write(Essence, 1, b"X"),
            Err(Failed),
            [b"abcd", b"abcde", b"a\x07cd"],
            [b"", b"", b""],
        ),
        (
            Call::Write(Commits, 0, b"m"),
            Ok(()),
            [b"abcd", b"abcde", b"a\x07cd"],
            [b"m", b"", b"\x07"],
        ),
        (
            Call::Sync(Commits),
            Ok(()),
            [b"abcd", b"abcde", b"a\x07cd"],
            [b"m", b"m", b"m"],
        ),
    ];
    for (call, want, essence, commits) in steps {
        assert_eq!(rt; make(&mut disk, call), want, "{call:?}");
        assert!(rt;
            are_images(rt.alloc(), &disk, essence, commits)?,
            "{call:?}"
        );
    }
    let mut barrier = MemoryBarrier::new(&[]);
    let settled = settle_before(&mut disk, &mut barrier, Essence, b"z");
    assert!(rt; settled.is_ok());
    let essence: [&[u8]; 3] = [b"abcdz", b"abcd", b"abcd\x07"];
    assert!(rt; are_images(rt.alloc(), &disk, essence, [b"m", b"m", b"m"])?);
    Ok(())
}
