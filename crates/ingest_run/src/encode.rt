//! The command `encode`: pictures in, the closed file of their frames out.

ghost use Rattle.std.specs.Prelude.{◌≡◌, ◌≤◌, ◌<◌, ℕ, List, length};
ghost use Rattle.rec_bytes.specs.Configuration.{Fields};
ghost use Rattle.picture_plane.specs.Sizes.{size_of};
ghost use Rattle.raw_feed.specs.declared.head.TheConstants.{FEED_HEAD_LEN};
ghost use Rattle.raw_feed.specs.Pictures.{IsPictureFor, picture_bytes};
ghost use Rattle.run_parts.specs.Causes.{counts};
ghost use Rattle.run_parts.specs.Statuses.{end_answer};
ghost use Rattle.ingest_run.specs.Causes.{HasPictureCauses};
ghost use Rattle.ingest_run.specs.Paces.{IsEncoded, KeepsPace};
ghost use Rattle.ingest_run.specs.Runs.{Runs, Encodes, outside};
ghost use Rattle.ingest_run.specs.inner.Answers.{run_answer};
ghost use Rattle.ingest_run.specs.inner.Steps.{OnItem, IfEnd, ReadsUnit, EndsReading, StaysSilent, HasEndCause};

use crate::ended::{RunFault, run_end};
use crate::next::{Next, read_end};
use frame_codec::coded_frames_are_short;
use picture_plane::Picture;
use raw_feed::{
    Feed, FeedFault, FeedReader, Kind, MAX_UNIT, Sink, Source, Stage, faults_are_placed,
    feeds_are_one, readings_end, readings_grow,
};
use rec_bytes::{Failed, Memory};
use run_parts::{CommandEnd, FeedEnd, PutFault, TakeFile};
use slice_workers::WorkerEncoder;
use std::alloc::Global;
use std::thread::Threads;
use take_layout::TakeLayout;

/// Writes the closed file of the frames of a feed's pictures, which so many workers encode. It keeps memory for one picture, for
/// the longest frame, for what the workers code, for the places of the frames, and for what stands between them.
pub(crate) fn encode<R: Threads + Sync, N: Feed, L: TakeLayout, S: Source<N>, W: Sink>(
    rt: &R,
    alloc: Global,
    workers: u8,
    feed: &mut S,
    out: &mut W,
) -> Result<(), RunFault>
    requires some { 1 ≤ workers }
    requires few { workers ≤ 64 }
    requires units { (cfg : Fields) (unit : List ℕ) → length unit ≤ MAX_UNIT → L.is_unit cfg unit }
    ensures ran { Runs (Encodes L.closed) (KeepsPace Kind.Pictures IsEncoded L.growing)
        (outside (S.told feed.old) (S.fault_count feed.old) (W.written out.old) (W.fault_count out.old))
        (outside (S.told feed.new) (S.fault_count feed.new) (W.written out.new) (W.fault_count out.new)) (run_answer result) }
    ensures cause { HasPictureCauses
        (counts (S.fault_count feed.old) (W.fault_count out.old)) (counts (S.fault_count feed.new) (W.fault_count out.new)) (run_answer result) }
{
    let ended = encode_pictures::<R, N, L, S, W>(rt, alloc, workers, feed, out);
    run_end(ended, out)
}

/// Writes the closed file of the frames of the pictures before a feed's end, frame by frame as the pictures are read.
fn encode_pictures<R: Threads + Sync, N: Feed, L: TakeLayout, S: Source<N>, W: Sink>(
    rt: &R,
    alloc: Global,
    workers: u8,
    feed: &mut S,
    out: &mut W,
) -> Result<CommandEnd, PutFault>
    requires some { 1 ≤ workers }
    requires few { workers ≤ 64 }
    requires units { (cfg : Fields) (unit : List ℕ) → length unit ≤ MAX_UNIT → L.is_unit cfg unit }
    ensures ran { Runs (Encodes L.closed) (KeepsPace Kind.Pictures IsEncoded L.growing)
        (outside (S.told feed.old) (S.fault_count feed.old) (W.written out.old) (W.fault_count out.old))
        (outside (S.told feed.new) (S.fault_count feed.new) (W.written out.new) (W.fault_count out.new))
        (end_answer (W.fault_count out.new) result) }
    ensures cause { HasPictureCauses
        (counts (S.fault_count feed.old) (W.fault_count out.old)) (counts (S.fault_count feed.new) (W.fault_count out.new))
        (end_answer (W.fault_count out.new) result) }
{
    feeds_are_one();
    faults_are_placed();
    readings_grow();
    coded_frames_are_short();
    let mut reader = match FeedReader::<N>::new(Kind::Pictures, feed) {
        Ok(reader) => reader,
        Err(fault) => return Ok(CommandEnd::Read(FeedEnd::Broken(fault))),
    };
    let mut picture = match Picture::new(alloc, reader.config()) {
        Ok(picture) => picture,
        Err(Memory) => return Err(PutFault::Memory),
    };
    let mut encoder = match WorkerEncoder::new(alloc, reader.config(), workers) {
        Ok(encoder) => encoder,
        Err(Memory) => return Err(PutFault::Memory),
    };
    let mut file = match TakeFile::<L>::new(alloc, reader.config()) {
        Ok(file) => file,
        Err(Memory) => return Err(PutFault::Memory),
    };
    match file.put_head(out) {
        Ok(()) => {}
        Err(Failed) => return Err(PutFault::Sink),
    }
    'pictures: loop {
        match next_picture(&mut reader, feed, &mut picture) {
            Ok(Next::Item) => {
                encoder.encode(rt, &picture);
                match file.put_unit(encoder.frame(), out) {
                    Ok(()) => {}
                    Err(fault) => return Err(fault),
                }
            }
            Ok(Next::End(end)) => match file.put_tail(out) {
                Ok(()) => return Ok(CommandEnd::Read(end)),
                Err(Failed) => return Err(PutFault::Sink),
            },
            Err(Memory) => return Err(PutFault::Memory),
        }
    }
}

/// Reads the next picture of a feed, or how it ends: behind as many pictures as its configuration allows only the next marker
/// is read.
fn next_picture<N: Feed, S: Source<N>>(
    reader: &mut FeedReader<N>,
    feed: &mut S,
    picture: &mut Picture,
) -> Result<Next, Memory>
    requires open { reader.old.stage ≡ Stage.Open }
    requires kind { reader.old.kind ≡ Kind.Pictures }
    requires behind { FEED_HEAD_LEN ≤ reader.old.at }
    requires most { reader.old.count ≤ reader.old.config.max_frames }
    requires sized { picture.old.size ≡ size_of reader.old.config }
    ensures picture { OnItem result (ReadsUnit reader.old reader.new (S.told feed.old) (S.told feed.new) (picture_bytes picture.new)) }
    ensures whole { OnItem result (IsPictureFor reader.old.config picture.new) }
    ensures ended { IfEnd result (EndsReading reader.old (S.told feed.old) (S.told feed.new)) }
    ensures silent { StaysSilent (S.told feed.old) (S.told feed.new) }

    ensures kept { OnItem result (S.fault_count feed.new ≡ S.fault_count feed.old) }
    ensures cause { IfEnd result (λ status ending. HasEndCause (S.fault_count feed.old) (S.fault_count feed.new) status) }
{
    if reader.read_count() < u64::from(reader.config().max_frames) {
        return read_picture(reader, feed, picture);
    }
    Ok(Next::End(read_end(reader, feed)))
}

/// Reads the next picture of a feed, or how it ends, where its configuration allows one more.
fn read_picture<N: Feed, S: Source<N>>(
    reader: &mut FeedReader<N>,
    feed: &mut S,
    picture: &mut Picture,
) -> Result<Next, Memory>
    requires open { reader.old.stage ≡ Stage.Open }
    requires kind { reader.old.kind ≡ Kind.Pictures }
    requires behind { FEED_HEAD_LEN ≤ reader.old.at }
    requires room { reader.old.count < reader.old.config.max_frames }
    requires sized { picture.old.size ≡ size_of reader.old.config }
    ensures picture { OnItem result (ReadsUnit reader.old reader.new (S.told feed.old) (S.told feed.new) (picture_bytes picture.new)) }
    ensures whole { OnItem result (IsPictureFor reader.old.config picture.new) }
    ensures ended { IfEnd result (EndsReading reader.old (S.told feed.old) (S.told feed.new)) }
    ensures silent { StaysSilent (S.told feed.old) (S.told feed.new) }

    ensures kept { OnItem result (S.fault_count feed.new ≡ S.fault_count feed.old) }
    ensures cause { IfEnd result (λ status ending. HasEndCause (S.fault_count feed.old) (S.fault_count feed.new) status) }
{
    faults_are_placed();
    readings_grow();
    readings_end();
    reader.config().ranges();
    match reader.next_picture(feed, picture) {
        Ok(true) => Ok(Next::Item),
        Ok(false) => Ok(Next::End(FeedEnd::Clean)),
        Err(FeedFault::Memory) => Err(Memory),
        Err(fault) => Ok(Next::End(FeedEnd::Broken(fault))),
    }
}
