ghost use Rattle.std.specs.Prelude.{◌≡◌, ◌≤◌, ◌<◌, IfOk, None, length};
ghost use Rattle.rec_bytes.specs.Views.{view};
ghost use Rattle.picture_plane.specs.Sizes.{size_of};
ghost use Rattle.frame_syntax.specs.Written.{frame_room_of};
ghost use Rattle.slice_desk.specs.Slices.{IsRoomFor, slices_of};

use crate::{Desk, DeskName, HandIn, InFlight, Job, SliceWorker, desk_block, do_job};
use frame_codec::encode_frame;
use frame_syntax::frame_room;
use picture_plane::{Picture, SliceSamples, slice_count};
use raw_feed::Feed;
use rec_bytes::{Config, Memory, read_config};
use slot_pool::{Block, Slot};
use std::alloc::Global;
use std::marker::{Brand, PhantomData};
use std::process::Abort;
use std::test::Fail;

// docs/formats/configuration.md, "Configuration": 16 by 16, progressive, no matrices, written by hand.
const SMALL: [u8; 64] = [
    0x00, 0x10, 0x00, 0x10, 0x00, 0x03, 0x01, 0x01, 0x01, 0x01, 0x00, 0x01, 0xe0, 0x00, 0x00, 0x00,
    0x10, 0x00, 0x00, 0xfa, 0x00, 0x00, 0x00, 0x64, 0x00, 0x08, 0x00, 0x00, 0x00, 0x00, 0x00, 0x00,
    0x00, 0x00, 0x00, 0x00, 0x00, 0x00, 0x00, 0x00, 0x00, 0x00, 0x00, 0x00, 0x00, 0x00, 0x00, 0x00,
    0x50, 0x52, 0x54, 0x4b, 0x00, 0x00, 0x00, 0x00, 0x00, 0x00, 0x00, 0x00, 0x00, 0x00, 0x00, 0x00,
];

/// By which the samples of four pictures go up.
const STEPS: [usize; 4] = [3, 5, 7, 11];

/// The example with another size and interlace mode.
fn config<R: Abort>(rt: &R, width: u8, height: u8, interlace: u8) -> Config {
    let mut bytes = SMALL;
    bytes[1] = width;
    bytes[3] = height;
    bytes[4] = interlace;
    read_config(&bytes).expect(rt, "a configuration")
}

/// A picture whose samples go up by a step.
fn stepped<R: Abort>(rt: &R, alloc: Global, cfg: &Config, step: usize) -> Result<Picture, Memory>
    ensures { IfOk result (λ picture. picture.size ≡ size_of (view cfg.now)) }
{
    let mut picture = Picture::new(alloc, cfg)?;
    for at in 0..picture.size().sample_count() {
        assert!(rt; at < picture.samples().len());
        picture.fill(at, &[(at.wrapping_mul(step) % 1024) as u16]);
    }
    Ok(picture)
}

/// Takes slices until none is left, and hands them in from the last to the first. Answers how many were taken in.
fn encode_back<N: Feed, P: DeskName>(
    desk: &mut Desk<N, P>,
    worker: &mut SliceWorker,
    most: u32,
) -> u32
    requires named { worker.old ≡ P.config }
    requires room { IsRoomFor P.config P.block }
    ensures count { result ≤ most }
    ensures kept { worker.new ≡ worker.old }
{
    if most == 0 {
        return 0;
    }
    let Some(job) = desk.next_job() else {
        return 0;
    };
    let count = encode_back(desk, worker, most - 1);
    let done = match desk.hand_in(worker.code(job)) {
        Ok(()) => return count + 1,
        Err(
            HandIn::Stranger {
                frame: _,
                index: _,
                done,
            },
        ) => done,
        Err(
            HandIn::Double {
                frame: _,
                index: _,
                done,
            },
        ) => done,
    };
    desk.give(done.into_slot());
    count
}

/// What a desk answers: to a fifth picture, how many slices came in, the frames that were taken, and whether it closed.
type Report = (Option<InFlight>, u32, [Vec<u8>; 4], bool);

/// Four frames, whose slices come in from the last to the first.
fn four_back<N: Feed, P: DeskName, R: Abort>(
    rt: &R,
    alloc: Global,
    cfg: &Config,
    block: Block,
    out: &mut [u8],
) -> Result<Report, Memory>
    requires named { view cfg.now ≡ P.config }
    requires block { block ≡ P.block }
    requires room { IsRoomFor P.config P.block }
    requires untold { N.bytes ≡ None }
    requires buffer { frame_room_of P.config ≤ length out.old }
{
    let first = stepped(rt, alloc, cfg, STEPS[0])?;
    let second = stepped(rt, alloc, cfg, STEPS[1])?;
    let third = stepped(rt, alloc, cfg, STEPS[2])?;
    let fourth = stepped(rt, alloc, cfg, STEPS[3])?;
    let mut desk = Desk::<N, P>::new(alloc, cfg, block)?;
    let _zero = desk.offer(&first);
    let _one = desk.offer(&second);
    let _two = desk.offer(&third);
    let _three = desk.offer(&fourth);
    let fifth = desk.offer(&first).err();
    let early = desk.take_frame(out).is_some();
    let mut worker = SliceWorker::new(cfg);
    let count = encode_back(&mut desk, &mut worker, u32::MAX);
    let zero = taken(alloc, &mut desk, out);
    let one = taken(alloc, &mut desk, out);
    let two = taken(alloc, &mut desk, out);
    let three = taken(alloc, &mut desk, out);
    let none_left = desk.take_frame(out).is_none();
    let closed = desk.close();
    Ok((
        fifth,
        count,
        [zero?, one?, two?, three?],
        closed && none_left && !early,
    ))
}

/// The bytes of the lowest frame, none where it isn't complete.
fn taken<N: Feed, P: DeskName>(
    alloc: Global,
    desk: &mut Desk<N, P>,
    out: &mut [u8],
) -> Result<Vec<u8>, Memory>
    requires { frame_room_of P.config ≤ length out.old }
{
    let len = desk.take_frame(out).unwrap_or(0);
    Ok(out[..len].to_vec(alloc)?)
}

#[test]
fn slices_that_come_in_from_the_last_are_the_frames_of_one_thread(
    rt: HostRuntime,
) -> Result<(), Fail> {
    // width, height, interlace mode, slices of a frame
    let cases: [(u8, u8, u8, u32); 3] = [(16, 16, 0, 1), (48, 32, 0, 6), (32, 32, 1, 4)];
    for (width, height, interlace, slices) in cases {
        let cfg = config(&rt, width, height, interlace);
        let block = desk_block(rt.alloc(), &cfg)?;
        let mut out = vec![in rt.alloc(); 0u8; frame_room(&cfg)]?;
        let (fifth, count, frames, ended) = four_back::<Brand, Brand, HostRuntime>(
            &rt,
            rt.alloc(),
            &cfg,
            block,
            out.as_mut_slice(),
        )?;
        assert_eq!(rt;
            fifth,
            Some(InFlight {
                lowest: 0,
                offered: 4
            })
        );
        assert_eq!(rt; count, 4 * slices);
        assert!(rt; ended);
        for (frame, step) in frames.iter().zip(STEPS) {
            let picture = stepped(&rt, rt.alloc(), &cfg, step)?;
            assert_eq!(rt;
                frame.as_slice(),
                encode_frame(rt.alloc(), &cfg, &picture)?.as_slice()
            );
        }
    }
    Ok(())
}

/// What a desk answers to a slice.
#[derive(Clone, Copy, Debug, PartialEq, Eq)]
enum Answer {
    NoSlot,
    Taken,
    Stranger(u64, u64),
    Double(u64, u64),
}

/// The first slice of a frame, of which nothing is told.
fn first_job<N: Feed, P: DeskName>(slot: Slot<P>, frame: u64) -> Job<N, P>
    requires untold { N.bytes ≡ None }
    requires some { 0 < slices_of P.config }
    ensures { (result.frame ≡ frame) × (result.index ≡ 0) }
{
    Job {
        frame,
        index: 0,
        samples: SliceSamples::new(),
        slot,
        of: PhantomData,
    }
}

/// Hands in the first slice of a frame.
fn hand_in_first<N: Feed, P: DeskName>(desk: &mut Desk<N, P>, cfg: &Config, frame: u64) -> Answer
    requires untold { N.bytes ≡ None }
    requires some { 0 < slices_of P.config }
    requires named { view cfg.now ≡ P.config }
    requires room { IsRoomFor P.config P.block }
{
    let Some(slot) = desk.slot() else {
        return Answer::NoSlot;
    };
    let done = do_job(cfg, first_job::<N, P>(slot, frame));
    match desk.hand_in(done) {
        Ok(()) => Answer::Taken,
        Err(HandIn::Stranger { frame, index, done }) => {
            desk.give(done.into_slot());
            Answer::Stranger(frame, index)
        }
        Err(HandIn::Double { frame, index, done }) => {
            desk.give(done.into_slot());
            Answer::Double(frame, index)
        }
    }
}

/// Takes slots until none is free, gives them back, and answers how many had so many bytes.
fn count_slots<N: Feed, P: DeskName>(desk: &mut Desk<N, P>, most: u32, size: usize) -> u32
    ensures most { result ≤ most }
    ensures offered { desk.new.offered ≡ desk.old.offered }
{
    if most == 0 {
        return 0;
    }
    let Some(slot) = desk.slot() else {
        return 0;
    };
    let count = count_slots(desk, most - 1, size) + u32::from(slot.bytes().len() == size);
    desk.give(slot);
    count
}

/// What a desk of four frames answers to slices one by one, whether a frame was taken before the lowest was complete and
/// after, the lowest frame then, the free slots at first, and whether it closed.
type Answers = ([Answer; 5], [bool; 2], u64, u32, bool);

/// Slices of frames 1, 1, 9 and 0 come in, then frame 0 is taken, and another slice of it comes in.
fn one_by_one<N: Feed, P: DeskName>(
    alloc: Global,
    cfg: &Config,
    block: Block,
    picture: &Picture,
    out: &mut [u8],
) -> Result<Answers, Memory>
    requires named { view cfg.now ≡ P.config }
    requires block { block ≡ P.block }
    requires room { IsRoomFor P.config P.block }
    requires some { 0 < slices_of P.config }
    requires untold { N.bytes ≡ None }
    requires sized { picture.now.size ≡ size_of P.config }
    requires buffer { frame_room_of P.config ≤ length out.old }
{
    let mut desk = Desk::<N, P>::new(alloc, cfg, block)?;
    let slots = count_slots(&mut desk, 5, 4104);
    let _zero = desk.offer(picture);
    let _one = desk.offer(picture);
    let one = hand_in_first(&mut desk, cfg, 1);
    let early = desk.complete() || desk.take_frame(out).is_some();
    let again = hand_in_first(&mut desk, cfg, 1);
    let ninth = hand_in_first(&mut desk, cfg, 9);
    let zero = hand_in_first(&mut desk, cfg, 0);
    let whole = desk.complete() && desk.take_frame(out).is_some();
    let late = hand_in_first(&mut desk, cfg, 0);
    let lowest = desk.lowest();
    let offered = desk.offered();
    let closed = desk.close();
    Ok((
        [one, again, ninth, zero, late],
        [early, whole],
        lowest,
        slots,
        closed && offered == 2,
    ))
}

#[test]
fn a_slice_comes_in_once_while_its_frame_is_in_flight(rt: HostRuntime) -> Result<(), Fail> {
    let cfg = config(&rt, 16, 16, 0);
    assert!(rt; slice_count(&cfg) == 1);
    let picture = stepped(&rt, rt.alloc(), &cfg, 3)?;
    let block = desk_block(rt.alloc(), &cfg)?;
    let mut out = vec![in rt.alloc(); 0u8; frame_room(&cfg)]?;
    let got = one_by_one::<Brand, Brand>(rt.alloc(), &cfg, block, &picture, out.as_mut_slice())?;
    let want = [
        Answer::Taken,
        Answer::Double(1, 0),
        Answer::Stranger(9, 0),
        Answer::Taken,
        Answer::Stranger(0, 0),
    ];
    assert_eq!(rt; got, (want, [false, true], 1, 4, true));
    Ok(())
}
