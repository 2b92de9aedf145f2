use crate::{Answer, Core, Entry, Event, History, Phase, Snapshot};
use rec_bytes::read_config;
use std::process::Abort;
use std::test::Fail;

// docs/formats/configuration.md, "Configuration": the example, 16 by 16 samples, of 100 frames with a lag of 8.
const SMALL: [u8; 64] = [
    0x00, 0x10, 0x00, 0x10, 0x00, 0x03, 0x01, 0x01, 0x01, 0x01, 0x00, 0x01, 0xe0, 0x00, 0x00, 0x00,
    0x10, 0x00, 0x00, 0xfa, 0x00, 0x00, 0x00, 0x64, 0x00, 0x08, 0x00, 0x00, 0x00, 0x00, 0x00, 0x00,
    0x00, 0x00, 0x00, 0x00, 0x00, 0x00, 0x00, 0x00, 0x00, 0x00, 0x00, 0x00, 0x00, 0x00, 0x00, 0x00,
    0x50, 0x52, 0x54, 0x4b, 0x00, 0x00, 0x00, 0x00, 0x00, 0x00, 0x00, 0x00, 0x00, 0x00, 0x00, 0x00,
];

/// A core of the example with another width, number of frames and lag.
fn core<R: Abort + std::alloc::AllocGlobal>(rt: &R, width: u8, max_frames: u8, lag: u8) -> Core {
    let mut bytes = SMALL;
    bytes[1] = width;
    bytes[23] = max_frames;
    bytes[25] = lag;
    let cfg = read_config(&bytes).expect(rt, "a configuration");
    Core::new(rt.alloc(), &cfg).expect(rt, "memory")
}

/// The core gives these answers to these events.
fn plays<R: Abort>(rt: &R, core: &mut Core, turns: &[(Event, Answer)]) {
    for (event, answer) in turns {
        assert_eq!(rt; core.step(*event), *answer, "{event:?}");
    }
}

/// A slice is coded.
fn slice(frame: u64, index: u32) -> Event {
    Event::SliceIn { frame, index }
}

/// The lowest frame is published, of 50 bytes.
fn publish() -> Event {
    Event::Publish { len: 50 }
}

/// A refusal.
fn no(number: u16) -> Answer {
    Answer::Refused { number }
}

/// What a reader sees.
fn seen(step: u64, published: u64, acked: u64, phase: Phase) -> Answer {
    Answer::Seen(Snapshot {
        step,
        published,
        acked,
        phase,
    })
}

// Worked out by hand from docs/ARCHITECTURE.md, "The events of a take".
#[test]
fn a_frame_is_published_once_its_slices_are_in(rt: HostRuntime) {
    let mut core = core(&rt, 16, 100, 8);
    plays(
        &rt,
        &mut core,
        &[
            (publish(), no(0)),
            (slice(0, 0), Answer::Done),
            (slice(0, 0), no(100)),
            (slice(4, 0), no(101)),
            (publish(), Answer::Done),
            (Event::Look { reader: 7 }, seen(1, 1, 0, Phase::Growing)),
        ],
    );
}

#[test]
fn a_stopped_take_refuses_what_comes(rt: HostRuntime) {
    let mut core = core(&rt, 16, 100, 8);
    plays(
        &rt,
        &mut core,
        &[
            (Event::BeginCommit, no(0)),
            (Event::Stop { faults: 0 }, no(0)),
            (Event::Stop { faults: 3 }, Answer::Done),
            (publish(), no(94)),
            (Event::Stop { faults: 4 }, no(94)),
            (Event::WriteTail, no(94)),
            (slice(9, 0), no(101)),
            (Event::Look { reader: 0 }, seen(1, 0, 0, Phase::Stopped)),
        ],
    );
}

#[test]
fn commits_lag_by_no_more_than_the_configuration_allows(rt: HostRuntime) {
    let mut core = core(&rt, 16, 100, 1);
    plays(
        &rt,
        &mut core,
        &[
            (slice(0, 0), Answer::Done),
            (publish(), Answer::Done),
            (slice(1, 0), Answer::Done),
            (publish(), no(91)),
        ],
    );
}

#[test]
fn a_take_commits_and_closes(rt: HostRuntime) {
    let mut core = core(&rt, 32, 2, 8);
    let look = Event::Look { reader: 1 };
    plays(
        &rt,
        &mut core,
        &[
            (slice(1, 1), Answer::Done),
            (slice(0, 1), Answer::Done),
            (publish(), no(0)),
            (slice(0, 0), Answer::Done),
            (slice(0, 2), no(101)),
            (Event::Publish { len: 0 }, no(0)),
            (publish(), Answer::Done),
            (slice(0, 0), no(101)),
            (Event::BeginCommit, Answer::Done),
            (slice(1, 0), Answer::Done),
            (publish(), Answer::Done),
            (Event::OpenGate, no(0)),
            (Event::NoteRecord, Answer::Done),
            (Event::Acknowledge, no(0)),
            (Event::OpenGate, Answer::Done),
            (Event::Finish, no(0)),
            (Event::Acknowledge, Answer::Done),
            (look, seen(3, 2, 1, Phase::Growing)),
            (publish(), no(95)),
            (Event::WriteTail, no(0)),
            (Event::BeginCommit, Answer::Done),
            (Event::NoteRecord, Answer::Done),
            (Event::OpenGate, Answer::Done),
            (Event::Acknowledge, Answer::Done),
            (Event::BeginCommit, no(0)),
            (Event::WriteTail, Answer::Done),
            (publish(), no(96)),
            (Event::NoteRecord, Answer::Done),
            (Event::OpenGate, Answer::Done),
            (Event::Acknowledge, no(0)),
            (Event::Finish, Answer::Done),
            (Event::Stop { faults: 1 }, no(0)),
            (slice(2, 0), Answer::Done),
            (publish(), no(96)),
            (look, seen(5, 2, 2, Phase::Closed)),
        ],
    );
}

#[test]
fn a_commit_phase_stands_for_what_it_will_be(rt: HostRuntime) -> Result<(), Fail> {
    let mark = crate::Mark {
        count: 3,
        length: 700,
        closed: false,
    };
    let kept = crate::CoreMark {
        count: 3,
        closed: false,
    };
    assert_eq!(rt;
        crate::CommitPhase::NoteOut(mark).in_core(),
        crate::CorePhase::Noted(kept)
    );
    Ok(())
}

#[test]
fn a_history_tells_its_entries(rt: HostRuntime) -> Result<(), Fail> {
    let mut history = History::new(rt.alloc(), 2).expect(&rt, "memory");
    history.add(Entry::Published { len: 50 });
    history.add(Entry::Stopped { faults: 3 });
    let seen = Snapshot {
        step: 2,
        published: 1,
        acked: 0,
        phase: Phase::Stopped,
    };
    assert_eq!(rt; history.latest(), seen);
    let entries = [Entry::Published { len: 50 }, Entry::Stopped { faults: 3 }];
    assert_eq!(rt; history.entries(), entries.as_slice());
    assert_eq!(rt; history.into_entries().as_slice(), entries.as_slice());
    crate::states_stay_sound();
    crate::histories_fit();
    Ok(())
}
