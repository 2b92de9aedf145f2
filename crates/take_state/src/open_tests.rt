//! Openings of takes. The head of the essence has 3,289 bytes, and that of the commits with the first gate 73.

use crate::fault::{COMMITS_AREA, ESSENCE_AREA, OpenCause};
use crate::turns::{MemoryTake, fresh_take, small_config};
use std::test::Fail;
use take_core::{CommitPhase, Phase, Snapshot};
use take_disk::{Area, MemoryDisk, Pick};

/// The length and the number of the area that isn't empty, where this is why a take isn't opened.
fn existing(cause: &OpenCause) -> Option<(u64, u64)> {
    match cause {
        OpenCause::TakeExists { len, area } => Some((*len, *area)),
        _ => None,
    }
}

#[test]
fn a_take_is_never_opened_over_another(rt: HostRuntime) -> Result<(), Fail> {
    let cfg = small_config(100, 8)?;
    let cases: [(&[u8], &[u8], (u64, u64)); 4] = [
        (b"e", b"", (1, ESSENCE_AREA)),
        (b"", b"com", (3, COMMITS_AREA)),
        (b"essence", b"com", (7, ESSENCE_AREA)),
        (b"\x00", b"\x00", (1, ESSENCE_AREA)),
    ];
    for (essence, commits, want) in cases {
        // Each call of the disk would fail.
        let disk = MemoryDisk::new(rt.alloc(), essence, commits, 16_384, 64, &[], Some(0))?;
        let opened = MemoryTake::open(rt.alloc(), &cfg, disk);
        let fault = opened.err().ok_or("opened")?;
        assert_eq!(rt; existing(&fault.cause), Some(want));
        assert_eq!(rt; fault.disk.bytes(Area::Essence), essence);
        assert_eq!(rt; fault.disk.bytes(Area::Commits), commits);
        assert_eq!(rt; (fault.disk.number, fault.disk.faults), (0, 0));
    }
    Ok(())
}

#[test]
fn an_opened_take_is_kept(rt: HostRuntime) -> Result<(), Fail> {
    let cfg = small_config(100, 8)?;
    let take = fresh_take(rt.alloc(), &cfg, &[])?;
    let fresh = Snapshot {
        step: 0,
        published: 0,
        acked: 0,
        phase: Phase::Growing,
    };
    assert_eq!(rt; take.snapshot(), fresh);
    assert_eq!(rt; take.commit_phase(), CommitPhase::Idle);
    assert_eq!(rt;
        (take.out(), take.has_tail(), take.faults()),
        (None, false, 0)
    );
    assert_eq!(rt; (take.config().max_frames, take.config().lag), (100, 8));
    let (disk, entries) = take.into_parts();
    assert_eq!(rt; entries.len(), 0);
    assert_eq!(rt; disk.number, 4);
    for pick in [Pick::Lost, Pick::Torn(7), Pick::Kept] {
        let image = disk.image(rt.alloc(), pick)?;
        assert_eq!(rt;
            image.bytes(Area::Essence),
            disk.bytes(Area::Essence),
            "{pick:?}"
        );
        assert_eq!(rt;
            image.bytes(Area::Commits),
            disk.bytes(Area::Commits),
            "{pick:?}"
        );
    }
    assert_eq!(rt; disk.bytes(Area::Essence).len(), 3289);
    assert_eq!(rt; disk.bytes(Area::Commits).len(), 73);
    Ok(())
}
