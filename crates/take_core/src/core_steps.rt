//! The events of a take, one by one.

ghost use Rattle.std.specs.Prelude.{◌≡◌, ◌↔◌, IsTrue, IfOk, if◌then◌else◌};
ghost use Rattle.rec_bytes.specs.Views.{view};
ghost use Rattle.take_core.specs.Kept.{state_of};
ghost use Rattle.take_core.specs.States.{fresh, stops};
ghost use Rattle.take_core.specs.Steps.{Steps};
ghost use Rattle.take_core.specs.declared.event.Answer.{Answer};
ghost use Rattle.take_core.specs.declared.event.Event.{Event};
ghost use Rattle.take_core.specs.declared.commit_phase.CorePhase.{CorePhase};
ghost use Rattle.take_core.specs.declared.snapshot.Phase.{Phase};
ghost use Rattle.take_core.specs.declared.numbers.TheConstants.{NOT_DUE, STOPPED};

use crate::commit_phase::CorePhase;
use crate::entry::Entry;
use crate::event::{Answer, Event};
use crate::history::History;
use crate::mark::CoreMark;
use crate::numbers::{
    DOUBLE, ENDED, FLIGHT, LAGGING, MAX_UNIT, NOT_DUE, STOPPED, STRANGER, TAKE_FULL,
};
use crate::slice_flags::SliceFlags;
use crate::snapshot::Phase;
use picture_plane::slice_count;
use rec_bytes::{Config, Memory};
use std::alloc::Global;
use std::marker::Model;

/// What happens to a take, one event after the other. It takes its memory when it is made, and none in a step.
#[derive(Drop)]
pub struct Core {
    max_frames: u32,
    lag: u16,
    flags: SliceFlags,
    commit: CorePhase,
    tail: bool,
    history: History,
}

impl Model for Core {
    ghost use Rattle.take_core.specs.Kept.{Kept};
    ghost use Rattle.take_core.specs.inner.Keeping.{KeepsCore};

    ghost Value = { Kept };

    ghost view = { λ c. record {
      max_frames = c.max_frames;
      lag = c.lag;
      flags = c.flags;
      commit = c.commit;
      tail = c.tail;
      history = c.history.entries;
      room = c.history.room;
    } };

    ghost invariant = { λ c. KeepsCore (record {
      max_frames = c.max_frames;
      lag = c.lag;
      flags = c.flags;
      commit = c.commit;
      tail = c.tail;
      history = c.history.entries;
      room = c.history.room;
    }) };
}

impl Core {
    /// A take of the configuration to which nothing has happened.
    pub fn new(alloc: Global, cfg: &Config) -> Result<Core, Memory>
        ensures { IfOk result (λ core. state_of core ≡ fresh (view cfg.now)) }
    {
        Ok(Core {
            max_frames: cfg.max_frames,
            lag: cfg.lag,
            flags: SliceFlags::new(alloc, slice_count(cfg))?,
            commit: CorePhase::Idle,
            tail: false,
            history: History::new(alloc, 2 * cfg.max_frames as usize + 2)?,
        })
    }

    /// Lets the event happen where it is due, and refuses it else.
    pub fn step(&mut self, event: Event) -> Answer
        ensures { Steps (state_of self.old) event result (state_of self.new) }
    {
        match event {
            Event::SliceIn { frame, index } => self.take_slice(frame, index),
            Event::Publish { len } => self.publish(len),
            Event::BeginCommit => self.begin_commit(),
            Event::NoteRecord => self.note_record(),
            Event::OpenGate => self.open_gate(),
            Event::Acknowledge => self.acknowledge(),
            Event::WriteTail => self.write_tail(),
            Event::Finish => self.finish(),
            Event::Stop { faults } => self.stop(faults),
            Event::Look { .. } => Answer::Seen(self.history.latest()),
        }
    }

    /// A slice is coded.
    fn take_slice(&mut self, frame: u64, index: u32) -> Answer
        ensures { Steps (state_of self.old) (Event.SliceIn frame index) result (state_of self.new) }
    {
        let lowest = self.history.latest().published;
        if frame < lowest || frame - lowest >= FLIGHT || index >= self.flags.slices() {
            return Answer::Refused { number: STRANGER };
        }
        if self.flags.has(frame, index) {
            return Answer::Refused { number: DOUBLE };
        }
        self.flags.set(frame, index);
        Answer::Done
    }

    /// The lowest frame is written, and may be read.
    fn publish(&mut self, len: u64) -> Answer
        ensures { Steps (state_of self.old) (Event.Publish len) result (state_of self.new) }
    {
        let seen = self.history.latest();
        if is_stopped(seen.phase) {
            return Answer::Refused { number: STOPPED };
        }
        if self.tail {
            return Answer::Refused { number: ENDED };
        }
        if seen.published >= u64::from(self.max_frames) {
            return Answer::Refused { number: TAKE_FULL };
        }
        if seen.published - seen.acked >= u64::from(self.lag) {
            return Answer::Refused { number: LAGGING };
        }
        if !is_growing(seen.phase)
            || len == 0
            || len > MAX_UNIT
            || !self.flags.is_whole(seen.published)
        {
            return Answer::Refused { number: NOT_DUE };
        }
        self.flags.forget(seen.published);
        self.history.add(Entry::Published { len });
        Answer::Done
    }

    /// A commit of the published frames begins.
    fn begin_commit(&mut self) -> Answer
        ensures { Steps (state_of self.old) Event.BeginCommit result (state_of self.new) }
    {
        let seen = self.history.latest();
        if !is_growing(seen.phase)
            || !is_idle(self.commit)
            || seen.acked >= seen.published
            || self.tail
        {
            return refused(seen.phase);
        }
        self.commit = CorePhase::Marked(CoreMark {
            count: seen.published,
            closed: false,
        });
        Answer::Done
    }

    /// The commit's record is kept.
    fn note_record(&mut self) -> Answer
        ensures { Steps (state_of self.old) Event.NoteRecord result (state_of self.new) }
    {
        let phase = self.history.latest().phase;
        match self.commit {
            CorePhase::Marked(mark) if is_growing(phase) => {
                self.commit = CorePhase::Noted(mark);
                Answer::Done
            }
            _ => refused(phase),
        }
    }

    /// The gate that makes the record count is kept.
    fn open_gate(&mut self) -> Answer
        ensures { Steps (state_of self.old) Event.OpenGate result (state_of self.new) }
    {
        let phase = self.history.latest().phase;
        match self.commit {
            CorePhase::Noted(mark) if is_growing(phase) => {
                self.commit = CorePhase::Opened(mark);
                Answer::Done
            }
            _ => refused(phase),
        }
    }

    /// The frames of the commit are told to be durable.
    fn acknowledge(&mut self) -> Answer
        ensures { Steps (state_of self.old) Event.Acknowledge result (state_of self.new) }
    {
        let phase = self.history.latest().phase;
        match self.commit {
            CorePhase::Opened(mark) if is_growing(phase) && !mark.closed => {
                self.commit = CorePhase::Idle;
                self.history.add(Entry::Acked { count: mark.count });
                Answer::Done
            }
            _ => refused(phase),
        }
    }

    /// The footer is written, and a commit of the whole file begins.
    fn write_tail(&mut self) -> Answer
        ensures { Steps (state_of self.old) Event.WriteTail result (state_of self.new) }
    {
        let seen = self.history.latest();
        if !is_growing(seen.phase)
            || !is_idle(self.commit)
            || seen.acked != seen.published
            || self.tail
        {
            return refused(seen.phase);
        }
        self.tail = true;
        self.commit = CorePhase::Marked(CoreMark {
            count: seen.published,
            closed: true,
        });
        Answer::Done
    }

    /// The take is told to be whole.
    fn finish(&mut self) -> Answer
        ensures { Steps (state_of self.old) Event.Finish result (state_of self.new) }
    {
        let phase = self.history.latest().phase;
        match self.commit {
            CorePhase::Opened(mark) if is_growing(phase) && mark.closed => {
                self.commit = CorePhase::Idle;
                self.history.add(Entry::Closed);
                Answer::Done
            }
            _ => refused(phase),
        }
    }

    /// A device failed.
    fn stop(&mut self, faults: u64) -> Answer
        ensures { Steps (state_of self.old) (Event.Stop faults) result (state_of self.new) }
    {
        let phase = self.history.latest().phase;
        if !is_growing(phase) || faults == 0 {
            return refused(phase);
        }
        self.history.add(Entry::Stopped { faults });
        Answer::Done
    }
}

/// Frames may follow.
fn is_growing(phase: Phase) -> bool
    ensures { IsTrue result ↔ (phase ≡ Phase.Growing) }
{
    match phase {
        Phase::Growing => true,
        Phase::Closed | Phase::Stopped => false,
    }
}

/// A fault ended the take.
fn is_stopped(phase: Phase) -> bool
    ensures { result ≡ stops phase }
{
    match phase {
        Phase::Stopped => true,
        Phase::Growing | Phase::Closed => false,
    }
}

/// No commit is on its way.
fn is_idle(commit: CorePhase) -> bool
    ensures { IsTrue result ↔ (commit ≡ CorePhase.Idle) }
{
    match commit {
        CorePhase::Idle => true,
        CorePhase::Marked(_) | CorePhase::Noted(_) | CorePhase::Opened(_) => false,
    }
}

/// The answer to an event that isn't due, and has no refusal of its own.
fn refused(phase: Phase) -> Answer
    ensures { result ≡ Answer.Refused (if stops phase then STOPPED else NOT_DUE) }
{
    if is_stopped(phase) {
        Answer::Refused { number: STOPPED }
    } else {
        Answer::Refused { number: NOT_DUE }
    }
}
