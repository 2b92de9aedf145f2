//! Turns of a take over a disk in memory, for the tests: each is one call of it, made where what it asks for stands.
//!
//! The calls of the disk are numbered from 0: the opening is 0 to 3, each frame two calls, and each note, gate and tail one.

ghost use Rattle.std.specs.Prelude.{◌≡◌, ◌↔◌, ◌≤◌, IsTrue};
ghost use Rattle.take_core.specs.declared.snapshot.Phase.TheVariants.{Growing};
ghost use Rattle.take_disk.specs.Tickets.{IsNamed};
ghost use Rattle.take_state.specs.Seen.{phase_of};

use crate::fault::{DiskFault, PublishFault};
use crate::state::TakeState;
use mxf_take_file::PictureLayout;
use rec_bytes::{Config, Memory, read_config};
use std::alloc::Global;
use std::marker::Brand;
use std::test::Fail;
use take_core::{CommitPhase, Phase};
use take_disk::{Barrier, MemoryBarrier, MemoryDisk, Ticket};

/// A take over a disk in memory.
pub type MemoryTake = TakeState<Brand, PictureLayout, MemoryDisk>;

/// A call of a take.
#[derive(Clone, Copy, Debug)]
pub enum Turn {
    /// The frame of a number is published.
    Publish(u64),
    /// A commit begins.
    Begin,
    /// A ticket is made.
    Ticket,
    /// The barrier runs for the ticket that is out, and the take hears how it ended.
    Settle,
    /// The record is written.
    Note,
    /// The gate is written.
    Gate,
    /// The frames are told to be durable.
    Acknowledge,
    /// The tail is written.
    Tail,
    /// The take is told to be whole.
    Finish,
}

/// How a turn ended.
#[derive(Clone, Copy, Debug, PartialEq, Eq)]
pub enum End {
    /// The call was made and succeeded.
    Done,
    /// What the call asks for doesn't stand, and it wasn't made.
    NotDue,
    /// The disk or the barrier failed, so often by now.
    Failed(u64),
    /// A publish was refused: the take was stopped.
    Stopped(u64),
    /// Its tail was written.
    Ended(u64),
    /// Another frame comes next.
    OutOfTurn(u64, u64),
    /// It has all its frames.
    TakeFull(u64),
    /// Its commits lag.
    Lagging(u64, u64),
}

/// A commit of the frames that are published, from its begin to its acknowledgement.
pub const COMMIT: [Turn; 10] = [
    Turn::Begin,
    Turn::Ticket,
    Turn::Settle,
    Turn::Note,
    Turn::Ticket,
    Turn::Settle,
    Turn::Gate,
    Turn::Ticket,
    Turn::Settle,
    Turn::Acknowledge,
];

/// The close of a take whose frames are durable.
pub const CLOSE: [Turn; 10] = [
    Turn::Tail,
    Turn::Ticket,
    Turn::Settle,
    Turn::Note,
    Turn::Ticket,
    Turn::Settle,
    Turn::Gate,
    Turn::Ticket,
    Turn::Settle,
    Turn::Finish,
];

/// The frame of a number: 50 bytes that no other frame has. A take doesn't look into it.
pub fn frame(number: u64) -> [u8; 50] {
    [number.to_be_bytes()[7]; 50]
}

/// docs/formats/configuration.md, "Configuration": the example, with so many frames in the take and such a lag.
pub fn small_config(max_frames: u8, lag: u8) -> Result<Config, Fail> {
    let mut bytes = [0u8; 64];
    let start = [
        0, 16, 0, 16, 0, 3, 1, 1, 1, 1, 0, 1, 224, 0, 0, 0, 16, 0, 0, 250, 0, 0, 0, max_frames, 0,
        lag,
    ];
    bytes[..26].copy_from_slice(&start);
    bytes[48..52].copy_from_slice(b"PRTK");
    Ok(read_config(&bytes)?)
}

/// An empty disk whose calls fail that are listed.
pub fn empty_disk(alloc: Global, fail: &[u64]) -> Result<MemoryDisk, Memory> {
    MemoryDisk::new(alloc, &[], &[], 16_384, 64, fail, None)
}

/// A take of a configuration on an empty disk whose calls fail that are listed.
pub fn fresh_take(alloc: Global, cfg: &Config, fail: &[u64]) -> Result<MemoryTake, Fail> {
    let opened = MemoryTake::open(alloc, cfg, empty_disk(alloc, fail)?);
    Ok(opened.ok().ok_or("not opened")?)
}

/// Takes turns, up to the first that isn't done, and answers how the last one ended.
pub fn play(take: &mut MemoryTake, barrier: &mut MemoryBarrier<'_>, turns: &[Turn]) -> End {
    for turn in turns {
        let end = play_turn(take, barrier, *turn);
        if end != End::Done {
            return end;
        }
    }
    End::Done
}

/// Takes lists of turns, one after the other, up to the first turn that isn't done.
pub fn play_all(take: &mut MemoryTake, barrier: &mut MemoryBarrier<'_>, lists: &[&[Turn]]) -> End {
    for turns in lists {
        let end = play(take, barrier, turns);
        if end != End::Done {
            return end;
        }
    }
    End::Done
}

/// Takes a turn.
fn play_turn(take: &mut MemoryTake, barrier: &mut MemoryBarrier<'_>, turn: Turn) -> End {
    if let Turn::Publish(number) = turn {
        return publish(take, number);
    }
    if take.snapshot().phase != Phase::Growing {
        return End::NotDue;
    }
    match turn {
        Turn::Begin => begin(take),
        Turn::Ticket => make_ticket(take),
        Turn::Settle => settle(take, barrier),
        Turn::Note => note(take),
        Turn::Gate => open_gate(take),
        Turn::Tail => write_tail(take),
        Turn::Acknowledge | Turn::Finish | Turn::Publish(_) => end_commit(take, turn),
    }
}

/// Publishes the frame of a number.
fn publish(take: &mut MemoryTake, number: u64) -> End {
    match take.publish(number, &frame(number)) {
        Ok(_) => End::Done,
        Err(PublishFault::Stopped { faults }) => End::Stopped(faults),
        Err(PublishFault::Ended { count }) => End::Ended(count),
        Err(PublishFault::OutOfTurn { want, got }) => End::OutOfTurn(want, got),
        Err(PublishFault::TakeFull { max }) => End::TakeFull(max),
        Err(PublishFault::Lagging { published, acked }) => End::Lagging(published, acked),
        Err(PublishFault::Disk(fault)) => End::Failed(fault.faults()),
    }
}

/// How a call that may fail ended.
pub fn end_of(called: Result<(), DiskFault>) -> End {
    match called {
        Ok(()) => End::Done,
        Err(fault) => End::Failed(fault.faults()),
    }
}

/// Begins a commit.
fn begin(take: &mut MemoryTake) -> End
    requires growing { phase_of take.old ≡ Growing }
{
    let seen = take.snapshot();
    if take.commit_phase() != CommitPhase::Idle || seen.acked >= seen.published {
        return End::NotDue;
    }
    take.begin_commit();
    End::Done
}

/// Makes a ticket.
fn make_ticket(take: &mut MemoryTake) -> End
    requires growing { phase_of take.old ≡ Growing }
{
    match take.commit_phase() {
        CommitPhase::MarkOut(_) | CommitPhase::NoteOut(_) | CommitPhase::GateOut(_) => {
            take.ticket();
            End::Done
        }
        _ => End::NotDue,
    }
}

/// Runs the barrier for the ticket that is out.
fn settle(take: &mut MemoryTake, barrier: &mut MemoryBarrier<'_>) -> End
    requires growing { phase_of take.old ≡ Growing }
{
    take.stands();
    let Some(ticket) = take.out() else {
        return End::NotDue;
    };
    if !is_named(ticket) {
        return End::NotDue;
    }
    match barrier.run(ticket) {
        Ok(done) => {
            take.settle(done);
            End::Done
        }
        Err(_) => fail(take, barrier.faults()),
    }
}

/// Tells a take that the barrier has failed, so often by now.
fn fail(take: &mut MemoryTake, faults: u64) -> End
    requires growing { phase_of take.old ≡ Growing }
{
    match take.commit_phase() {
        CommitPhase::MarkOut(_) | CommitPhase::NoteOut(_) | CommitPhase::GateOut(_)
            if faults >= 1 => {
            take.fail(faults);
            End::Failed(faults)
        }
        _ => End::NotDue,
    }
}

/// Whether a ticket names a moment.
fn is_named(ticket: Ticket) -> bool
    ensures { IsTrue result ↔ IsNamed ticket }
{
    let is_twin_named = match ticket.twin {
        Some(twin) => twin < u64::MAX,
        None => true,
    };
    ticket.moment < u64::MAX && is_twin_named
}

/// Writes the record.
fn note(take: &mut MemoryTake) -> End
    requires growing { phase_of take.old ≡ Growing }
{
    match take.commit_phase() {
        CommitPhase::Marked(_) => end_of(take.note_record()),
        _ => End::NotDue,
    }
}

/// Writes the gate.
fn open_gate(take: &mut MemoryTake) -> End
    requires growing { phase_of take.old ≡ Growing }
{
    match take.commit_phase() {
        CommitPhase::Noted(_) => end_of(take.open_gate()),
        _ => End::NotDue,
    }
}

/// Writes the tail.
fn write_tail(take: &mut MemoryTake) -> End
    requires growing { phase_of take.old ≡ Growing }
{
    let seen = take.snapshot();
    let is_due = take.commit_phase() == CommitPhase::Idle && seen.acked == seen.published;
    if !is_due || take.has_tail() {
        return End::NotDue;
    }
    end_of(take.write_tail().map(|_| ()))
}

/// Tells that the frames are durable, or where the turn is `Finish`, that the take is whole.
fn end_commit(take: &mut MemoryTake, turn: Turn) -> End
    requires growing { phase_of take.old ≡ Growing }
{
    let CommitPhase::Opened(mark) = take.commit_phase() else {
        return End::NotDue;
    };
    if mark.closed != matches!(turn, Turn::Finish) {
        return End::NotDue;
    }
    if mark.closed {
        take.finish();
    } else {
        take.acknowledge();
    }
    End::Done
}
