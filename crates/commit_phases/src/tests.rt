use crate::phases::{area_of, next_phase};
use take_core::{CommitPhase, Mark};
use take_disk::Area;

const MARK: Mark = Mark {
    count: 3,
    length: 700,
    closed: false,
};

#[test]
fn phases_go_on_by_their_barriers(rt: HostRuntime) {
    assert_eq!(rt;
        next_phase(CommitPhase::MarkOut(MARK)),
        CommitPhase::Marked(MARK)
    );
    assert_eq!(rt;
        next_phase(CommitPhase::NoteOut(MARK)),
        CommitPhase::Noted(MARK)
    );
    assert_eq!(rt;
        next_phase(CommitPhase::GateOut(MARK)),
        CommitPhase::Opened(MARK)
    );
}

#[test]
fn other_phases_stay(rt: HostRuntime) {
    assert_eq!(rt; next_phase(CommitPhase::Idle), CommitPhase::Idle);
    assert_eq!(rt;
        next_phase(CommitPhase::Marked(MARK)),
        CommitPhase::Marked(MARK)
    );
    assert_eq!(rt;
        next_phase(CommitPhase::Noted(MARK)),
        CommitPhase::Noted(MARK)
    );
    assert_eq!(rt;
        next_phase(CommitPhase::Opened(MARK)),
        CommitPhase::Opened(MARK)
    );
}

#[test]
fn only_a_mark_waits_for_the_essence(rt: HostRuntime) {
    assert_eq!(rt; area_of(CommitPhase::MarkOut(MARK)), Area::Essence);
    assert_eq!(rt; area_of(CommitPhase::NoteOut(MARK)), Area::Commits);
    assert_eq!(rt; area_of(CommitPhase::GateOut(MARK)), Area::Commits);
}
