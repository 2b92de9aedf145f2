//! Takes that are stopped, and what recoveries make of them. The lengths are those of docs/FORMATS.md, "A take's file", by hand:
//! behind a head of 3,289 bytes three frames of 50 bytes have leads of 148, 24 and 24; the closed files of none, two and three
//! have 6,626, 7,072 and 7,157.

use crate::script::{
    Answer, FRAME, MemoryTake, answer, commit, empty_disk, image_of, played, played_without,
    publish, small_config,
};
use crate::step::{Step, StepFault};
use crate::steps::commit_step;
use mxf_take_file::PictureLayout;
use recovery::{RecoverFault, Recovered, recover};
use std::alloc::Global;
use std::test::Fail;
use take_core::{Entry, Phase};
use take_disk::{Area, MemoryBarrier, MemoryDisk, Pick};
use take_state::{OpenCause, PublishFault};

/// Nothing was durable, and the file of no frames is closed now.
const C0: Answer = Ok(Recovered::Closed {
    count: 0,
    len: 6626,
});

/// Three frames were durable, and their file is closed now.
const C3: Answer = Ok(Recovered::Closed {
    count: 3,
    len: 7157,
});

/// The file of three frames was closed before.
const A3: Answer = Ok(Recovered::Already {
    count: 3,
    len: 7157,
});

/// What recoveries of the images answer in which all unsettled bytes are lost, kept, 7 or 1.
fn answers(alloc: Global, disk: &MemoryDisk) -> Result<[Answer; 4], Fail> {
    Ok([
        answer(alloc, disk, Pick::Lost)?,
        answer(alloc, disk, Pick::Kept)?,
        answer(alloc, disk, Pick::Torn(7))?,
        answer(alloc, disk, Pick::Torn(1))?,
    ])
}

// The first and the last number of steps after which the take is stopped, and the answers.
#[test]
fn a_stopped_take_has_what_was_durable(rt: HostRuntime) -> Result<(), Fail> {
    let cases: [(u64, u64, [Answer; 4]); 5] = [
        (4, 13, [C0, C0, C0, C0]),
        (14, 14, [C0, C3, C0, C3]),
        (15, 19, [C3, C3, C3, C3]),
        (20, 20, [C3, A3, C3, A3]),
        (21, 21, [A3, A3, A3, A3]),
    ];
    for (first, last, want) in cases {
        for steps in first..=last {
            let disk = played(rt.alloc(), steps)?;
            assert_eq!(rt; answers(rt.alloc(), &disk)?, want, "{steps} steps");
        }
    }
    Ok(())
}

// The first and the last step that fails alone, and the answers.
#[test]
fn a_take_with_a_failed_step_has_what_was_durable(rt: HostRuntime) -> Result<(), Fail> {
    let cases: [(u64, u64, [Answer; 4]); 6] = [
        (4, 12, [C0, C0, C0, C0]),
        (13, 13, [C0, C0, C0, C3]),
        (14, 14, [C0, C3, C0, C3]),
        (15, 18, [C3, C3, C3, C3]),
        (19, 19, [C3, C3, C3, A3]),
        (20, 20, [C3, A3, C3, A3]),
    ];
    for (first, last, want) in cases {
        for step in first..=last {
            let disk = played_without(rt.alloc(), step)?;
            assert_eq!(rt; answers(rt.alloc(), &disk)?, want, "step {step} fails");
        }
    }
    Ok(())
}

/// The count of faults that a cause tells.
fn told_faults(cause: &OpenCause) -> u64 {
    match cause {
        OpenCause::Disk(fault) => fault.faults(),
        _ => 0,
    }
}

#[test]
fn a_take_that_is_not_opened_gives_the_disk_back(rt: HostRuntime) -> Result<(), Fail> {
    let cfg = small_config()?;
    for call in 0..4 {
        let disk = empty_disk(rt.alloc(), 64, &[call])?;
        let opened = MemoryTake::open(rt.alloc(), &cfg, disk);
        let fault = opened.err().ok_or("opened")?;
        assert_eq!(rt; told_faults(&fault.cause), 1, "call {call}");
        assert_eq!(rt; fault.disk.number, call + 1, "call {call}");
    }
    Ok(())
}

/// Whether the answer is that a take of so many frames and bytes is closed, now or before.
fn is_closed(done: Answer, want: (u64, u64)) -> bool {
    match done {
        Ok(Recovered::Closed { count, len } | Recovered::Already { count, len }) => {
            (count, len) == want
        }
        Err(_) => false,
    }
}

/// Whether each image of a disk is recovered to so many frames and bytes.
fn images_are_closed(alloc: Global, disk: &MemoryDisk, want: (u64, u64)) -> Result<bool, Fail> {
    let picks = [
        Pick::Kept,
        Pick::Lost,
        Pick::Torn(0),
        Pick::Torn(1),
        Pick::Torn(7),
    ];
    for pick in picks {
        if !is_closed(answer(alloc, disk, pick)?, want) {
            return Ok(false);
        }
    }
    Ok(true)
}

/// Whether a recovery of an image comes to its end at some call, and each that is stopped earlier leaves images that are
/// recovered to the same.
fn may_be_stopped(
    alloc: Global,
    disk: &MemoryDisk,
    pick: Pick,
    want: (u64, u64),
) -> Result<bool, Fail> {
    for stop in 0..64 {
        let mut image = image_of(alloc, disk, pick, Some(stop))?;
        let done = recover::<PictureLayout, MemoryDisk>(alloc, &mut image);
        if !images_are_closed(alloc, &image, want)? {
            return Ok(false);
        }
        if done.is_ok() {
            return Ok(is_closed(done, want));
        }
    }
    Ok(false)
}

/// What is durable where no frame is, and where all three are: frames, and bytes of the closed file.
const NONE: (u64, u64) = (0, 6626);

const ALL: (u64, u64) = (3, 7157);

// The first and the last number of steps, and what is durable in the images in which all unsettled bytes are lost, kept, 7 or 1.
#[test]
fn a_recovery_may_be_stopped(rt: HostRuntime) -> Result<(), Fail> {
    let cases: [(u64, u64, [(u64, u64); 4]); 3] = [
        (4, 13, [NONE, NONE, NONE, NONE]),
        (14, 14, [NONE, ALL, NONE, ALL]),
        (15, 21, [ALL, ALL, ALL, ALL]),
    ];
    let picks = [Pick::Lost, Pick::Kept, Pick::Torn(7), Pick::Torn(1)];
    for (first, last, wants) in cases {
        for steps in first..=last {
            let disk = played(rt.alloc(), steps)?;
            for (pick, want) in picks.into_iter().zip(wants) {
                let is_kept = may_be_stopped(rt.alloc(), &disk, pick, want)?;
                assert_eq!(rt; is_kept, true, "{steps} steps, {pick:?}");
            }
        }
    }
    Ok(())
}

#[test]
fn a_take_is_recovered_once(rt: HostRuntime) -> Result<(), Fail> {
    let alloc = rt.alloc();
    let disk = played(alloc, 15)?;
    let mut image = image_of(alloc, &disk, Pick::Kept, None)?;
    assert_eq!(rt; recover::<PictureLayout, MemoryDisk>(alloc, &mut image), C3);
    let essence = image.bytes(Area::Essence).to_vec(alloc)?;
    let commits = image.bytes(Area::Commits).to_vec(alloc)?;
    assert_eq!(rt; recover::<PictureLayout, MemoryDisk>(alloc, &mut image), A3);
    assert_eq!(rt; image.bytes(Area::Essence), essence.as_slice());
    assert_eq!(rt; image.bytes(Area::Commits), commits.as_slice());
    let mut nothing = empty_disk(alloc, 64, &[])?;
    let no_take = Err(RecoverFault::NoTake { at: 0, other: 1 });
    assert_eq!(rt;
        recover::<PictureLayout, MemoryDisk>(alloc, &mut nothing),
        no_take
    );
    Ok(())
}

/// A published frame as it is read back, or no bytes where it isn't published.
fn frame_of(alloc: Global, take: &mut MemoryTake, number: u64) -> Result<Vec<u8>, Fail> {
    if number >= take.snapshot().published {
        return Ok(Vec::new(alloc));
    }
    let mut unit = vec![in alloc; 0u8; take.unit_len(number) as usize]?;
    take.unit(number, unit.as_mut_slice())?;
    Ok(unit)
}

#[test]
fn a_barrier_that_fails_stops_the_take(rt: HostRuntime) -> Result<(), Fail> {
    let alloc = rt.alloc();
    let cfg = small_config()?;
    let disk = empty_disk(alloc, 64, &[])?;
    let opened = MemoryTake::open(alloc, &cfg, disk).ok();
    let mut take = opened.ok_or("not opened")?;
    let mut barrier = MemoryBarrier::new(&[3]);
    publish(&mut take, 0, 1);
    commit(&mut take, &mut barrier);
    publish(&mut take, 2, 2);
    for _ in 0..2 {
        assert_eq!(rt;
            commit_step(&mut take, &mut barrier).is_ok(),
            true,
            "begun, and a ticket is out"
        );
    }
    let run = commit_step(&mut take, &mut barrier);
    assert_eq!(rt;
        matches!(run, Err(StepFault::Barrier { faults: 1 })),
        true,
        "the barrier fails"
    );
    let seen = take.snapshot();
    assert_eq!(rt;
        (seen.published, seen.acked, seen.phase),
        (3, 2, Phase::Stopped)
    );
    assert_eq!(rt; take.history().last(), Some(&Entry::Stopped { faults: 1 }));
    let more = take.publish(3, &FRAME);
    assert_eq!(rt;
        matches!(more, Err(PublishFault::Stopped { faults: 1 })),
        true,
        "no frame more"
    );
    assert_eq!(rt; frame_of(alloc, &mut take, 2)?.as_slice(), FRAME.as_slice());
    let (disk, _) = take.into_parts();
    let two = Ok(Recovered::Closed {
        count: 2,
        len: 7072,
    });
    assert_eq!(rt; answers(alloc, &disk)?, [two, two, two, two]);
    Ok(())
}
