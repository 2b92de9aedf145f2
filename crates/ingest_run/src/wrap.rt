//! The command `wrap`: finished frames in, the closed file of a take out.

ghost use Rattle.std.specs.Prelude.{◌≡◌, ◌≤◌, ◌<◌, ℕ, List, length};
ghost use Rattle.rec_bytes.specs.Configuration.{Fields};
ghost use Rattle.raw_feed.specs.declared.head.TheConstants.{FEED_HEAD_LEN};
ghost use Rattle.run_parts.specs.Causes.{HasFeedCauses, counts};
ghost use Rattle.run_parts.specs.Statuses.{end_answer};
ghost use Rattle.ingest_run.specs.Paces.{IsPassedOn, KeepsPace};
ghost use Rattle.ingest_run.specs.Runs.{Runs, Wraps, outside};
ghost use Rattle.ingest_run.specs.inner.Answers.{run_answer};
ghost use Rattle.ingest_run.specs.inner.Steps.{OnItem, IfEnd, ReadsUnit, EndsReading, StaysSilent, HasEndCause};

use crate::ended::{RunFault, run_end};
use crate::next::{Next, read_end};
use raw_feed::{
    Feed, FeedFault, FeedReader, Kind, MAX_UNIT, Sink, Source, Stage, UnitBuffer,
    faults_are_placed, feeds_are_one, readings_end, readings_grow,
};
use rec_bytes::{Failed, Memory};
use run_parts::{CommandEnd, FeedEnd, PutFault, TakeFile, unit_fault};
use std::alloc::Global;
use take_layout::TakeLayout;

/// Writes the closed file of a feed's units, each of which is read as a frame. It keeps memory for the longest unit so far,
/// the places of the units, and what stands between them.
pub(crate) fn wrap<N: Feed, L: TakeLayout, S: Source<N>, W: Sink>(
    alloc: Global,
    feed: &mut S,
    out: &mut W,
) -> Result<(), RunFault>
    requires units { (cfg : Fields) (unit : List ℕ) → length unit ≤ MAX_UNIT → L.is_unit cfg unit }
    ensures ran { Runs (Wraps L.closed) (KeepsPace Kind.Units IsPassedOn L.growing)
        (outside (S.told feed.old) (S.fault_count feed.old) (W.written out.old) (W.fault_count out.old))
        (outside (S.told feed.new) (S.fault_count feed.new) (W.written out.new) (W.fault_count out.new)) (run_answer result) }
    ensures cause { HasFeedCauses
        (counts (S.fault_count feed.old) (W.fault_count out.old)) (counts (S.fault_count feed.new) (W.fault_count out.new)) (run_answer result) }
{
    let ended = wrap_units::<N, L, S, W>(alloc, feed, out);
    run_end(ended, out)
}

/// Writes the closed file of the units before a feed's end or the first unit that is refused, unit by unit as they are read.
fn wrap_units<N: Feed, L: TakeLayout, S: Source<N>, W: Sink>(
    alloc: Global,
    feed: &mut S,
    out: &mut W,
) -> Result<CommandEnd, PutFault>
    requires units { (cfg : Fields) (unit : List ℕ) → length unit ≤ MAX_UNIT → L.is_unit cfg unit }
    ensures ran { Runs (Wraps L.closed) (KeepsPace Kind.Units IsPassedOn L.growing)
        (outside (S.told feed.old) (S.fault_count feed.old) (W.written out.old) (W.fault_count out.old))
        (outside (S.told feed.new) (S.fault_count feed.new) (W.written out.new) (W.fault_count out.new))
        (end_answer (W.fault_count out.new) result) }
    ensures cause { HasFeedCauses
        (counts (S.fault_count feed.old) (W.fault_count out.old)) (counts (S.fault_count feed.new) (W.fault_count out.new))
        (end_answer (W.fault_count out.new) result) }
{
    feeds_are_one();
    faults_are_placed();
    readings_grow();
    let mut reader = match FeedReader::<N>::new(Kind::Units, feed) {
        Ok(reader) => reader,
        Err(fault) => return Ok(CommandEnd::Read(FeedEnd::Broken(fault))),
    };
    let mut file = match TakeFile::<L>::new(alloc, reader.config()) {
        Ok(file) => file,
        Err(Memory) => return Err(PutFault::Memory),
    };
    match file.put_head(out) {
        Ok(()) => {}
        Err(Failed) => return Err(PutFault::Sink),
    }
    let mut unit = UnitBuffer::new(alloc);
    'units: loop {
        match next_unit(&mut reader, feed, &mut unit) {
            Ok(Next::Item) => match unit_fault(unit.as_slice(), reader.config()) {
                None => match file.put_unit(unit.as_slice(), out) {
                    Ok(()) => {}
                    Err(fault) => return Err(fault),
                },
                Some(fault) => match file.put_tail(out) {
                    Ok(()) => {
                        let unit = reader.read_count() - 1;
                        return Ok(CommandEnd::Refused { unit, fault });
                    }
                    Err(Failed) => return Err(PutFault::Sink),
                },
            },
            Ok(Next::End(end)) => match file.put_tail(out) {
                Ok(()) => return Ok(CommandEnd::Read(end)),
                Err(Failed) => return Err(PutFault::Sink),
            },
            Err(Memory) => return Err(PutFault::Memory),
        }
    }
}

/// Reads the next unit of a feed, or how it ends: behind as many units as its configuration allows only the next marker is read.
fn next_unit<N: Feed, S: Source<N>>(
    reader: &mut FeedReader<N>,
    feed: &mut S,
    unit: &mut UnitBuffer,
) -> Result<Next, Memory>
    requires open { reader.old.stage ≡ Stage.Open }
    requires kind { reader.old.kind ≡ Kind.Units }
    requires behind { FEED_HEAD_LEN ≤ reader.old.at }
    requires most { reader.old.count ≤ reader.old.config.max_frames }
    ensures unit { OnItem result (ReadsUnit reader.old reader.new (S.told feed.old) (S.told feed.new) unit.new) }
    ensures size { OnItem result (length unit.new ≤ MAX_UNIT) }
    ensures ended { IfEnd result (EndsReading reader.old (S.told feed.old) (S.told feed.new)) }
    ensures silent { StaysSilent (S.told feed.old) (S.told feed.new) }

    ensures kept { OnItem result (S.fault_count feed.new ≡ S.fault_count feed.old) }
    ensures cause { IfEnd result (λ status ending. HasEndCause (S.fault_count feed.old) (S.fault_count feed.new) status) }
{
    if reader.read_count() < u64::from(reader.config().max_frames) {
        return read_unit(reader, feed, unit);
    }
    Ok(Next::End(read_end(reader, feed)))
}

/// Reads the next unit of a feed, or how it ends, where its configuration allows one more.
fn read_unit<N: Feed, S: Source<N>>(
    reader: &mut FeedReader<N>,
    feed: &mut S,
    unit: &mut UnitBuffer,
) -> Result<Next, Memory>
    requires open { reader.old.stage ≡ Stage.Open }
    requires kind { reader.old.kind ≡ Kind.Units }
    requires behind { FEED_HEAD_LEN ≤ reader.old.at }
    requires room { reader.old.count < reader.old.config.max_frames }
    ensures unit { OnItem result (ReadsUnit reader.old reader.new (S.told feed.old) (S.told feed.new) unit.new) }
    ensures size { OnItem result (length unit.new ≤ MAX_UNIT) }
    ensures ended { IfEnd result (EndsReading reader.old (S.told feed.old) (S.told feed.new)) }
    ensures silent { StaysSilent (S.told feed.old) (S.told feed.new) }

    ensures kept { OnItem result (S.fault_count feed.new ≡ S.fault_count feed.old) }
    ensures cause { IfEnd result (λ status ending. HasEndCause (S.fault_count feed.old) (S.fault_count feed.new) status) }
{
    faults_are_placed();
    readings_grow();
    readings_end();
    reader.config().ranges();
    match reader.read_unit(feed, unit) {
        Ok(true) => Ok(Next::Item),
        Ok(false) => Ok(Next::End(FeedEnd::Clean)),
        Err(FeedFault::Memory) => Err(Memory),
        Err(fault) => Ok(Next::End(FeedEnd::Broken(fault))),
    }
}
