//! The frame that stands for a picture, by several workers.

ghost use Rattle.std.specs.Prelude.{◌≡◌, ◌≤◌, ◌^◌, [], length, IfOk};
ghost use Rattle.rec_bytes.specs.Views.{view};
ghost use Rattle.picture_plane.specs.Sizes.{size_of};
ghost use Rattle.picture_plane.specs.Slices.{picture_count};
ghost use Rattle.frame_codec.specs.Coded.{IsCodedFrame};
ghost use Rattle.frame_codec.specs.Sources.{slices_of};
ghost use Rattle.slice_workers.specs.inner.Hands.{AreFor, HavePieces};

use crate::hand::{Hand, Slices, work};
use crate::stock::Stock;
use frame_codec::{SLICE_MOST, SliceWriter, coded_frames_are_short, put_frame};
use frame_syntax::frame_room;
use picture_plane::{FrameSize, Picture, picture_slices, slice_count};
use rec_bytes::{Config, Memory};
use std::alloc::Global;
use std::marker::Model;
use std::sync::atomic::AtomicU64;
use std::thread;
use std::thread::Threads;

/// Encodes pictures of a configuration by several workers. Its memory is taken when it is made, and serves for any number of
/// frames: room for the longest frame, and for what the workers code.
#[derive(Drop)]
pub struct WorkerEncoder {
    stock: Stock,
    sizes: Vec<u16>,
    buffer: Vec<u8>,
    len: usize,
    workers: u8,
}

impl Model for WorkerEncoder {
    ghost use Rattle.std.specs.Prelude.{take};
    ghost use Rattle.rec_bytes.specs.Views.{view as fields_in};
    ghost use Rattle.frame_codec.specs.Encodings.{Encoding};
    ghost use Rattle.slice_workers.specs.inner.Rooms.{HasRoom};

    ghost Value = { Encoding };

    ghost view = { λ e. record { config = fields_in e.stock.own.coder.coding.config; frame = take e.len e.buffer.items } };

    ghost invariant = { λ e. HasRoom (fields_in e.stock.own.coder.coding.config) e.stock.hands.items e.sizes.items e.buffer.items e.len e.workers };
}

impl WorkerEncoder {
    /// An encoder of pictures of this configuration by so many workers, which has written no frame.
    pub fn new(alloc: Global, cfg: &Config, workers: u8) -> Result<WorkerEncoder, Memory>
        requires some { 1 ≤ workers }
        requires few { workers ≤ 64 }
        ensures { IfOk result (λ encoder. encoder ≡ record { config = view cfg.now; frame = [] }) }
    {
        cfg.ranges();
        let room = frame_room(cfg);
        let sizes = vec![in alloc; 0u16; picture_slices(FrameSize::of(cfg), cfg.log2) as usize]?;
        let buffer = vec![in alloc; 0u8; room]?;
        let hands = hands_of(alloc, cfg, workers, room)?;
        Ok(WorkerEncoder {
            stock: Stock {
                own: SliceWriter::new(cfg),
                hands,
            },
            sizes,
            buffer,
            len: 0,
            workers,
        })
    }

    /// Writes the frame of a picture in the place of the one before.
    pub fn encode<R: Threads + Sync>(&mut self, rt: &R, picture: &Picture)
        requires { picture.now.size ≡ size_of self.old.config }
        ensures config { self.new.config ≡ self.old.config }
        ensures coded { IsCodedFrame self.old.config picture.now self.new.frame }
        ensures most { length self.new.frame ≤ 2 ^ 28 }
    {
        self.stock.own.coder.coding.config.ranges();
        picture.ranges();
        coded_frames_are_short();
        self.write(rt, picture);
    }

    /// The same, by what the workers code.
    fn write<R: Threads + Sync>(&mut self, rt: &R, picture: &Picture)
        requires { picture.now.size ≡ size_of self.old.config }
        ensures config { self.new.config ≡ self.old.config }
        ensures coded { IsCodedFrame self.old.config picture.now self.new.frame }
    {
        let config = self.stock.own.coder.coding.config;
        work_all(
            rt,
            &config,
            picture,
            self.workers,
            self.stock.hands.as_mut_slice(),
        );
        self.len = put_frame(
            &mut self.stock,
            &config,
            picture,
            self.sizes.as_mut_slice(),
            self.buffer.as_mut_slice(),
        );
    }

    /// The frame that was written last; no bytes before the first.
    pub fn frame(&self) -> &[u8]
        ensures { result.now ≡ self.now.frame }
    {
        &self.buffer[..self.len]
    }

    /// The frame that was written last, alone.
    fn into_frame(self) -> Vec<u8>
        ensures { result.items ≡ self.frame }
    {
        let WorkerEncoder { buffer, len, .. } = self;
        let mut buffer = buffer;
        buffer.truncate(len);
        buffer
    }
}

/// The frame of a picture of this configuration, by so many workers. For many pictures keep a `WorkerEncoder`.
pub fn encode_with<R: Threads + Sync>(
    rt: &R,
    alloc: Global,
    cfg: &Config,
    picture: &Picture,
    workers: u8,
) -> Result<Vec<u8>, Memory>
    requires size { picture.now.size ≡ size_of (view cfg.now) }
    requires some { 1 ≤ workers }
    requires few { workers ≤ 64 }
    ensures { IfOk result (λ frame. IsCodedFrame (view cfg.now) picture.now frame.items) }
{
    let mut encoder = WorkerEncoder::new(alloc, cfg, workers)?;
    encoder.encode(rt, picture);
    Ok(encoder.into_frame())
}

/// So many workers, which share memory for a quarter of the longest frame: few frames have more bytes, and what has no room the
/// caller codes.
fn hands_of(alloc: Global, cfg: &Config, workers: u8, room: usize) -> Result<Vec<Hand>, Memory>
    requires { 1 ≤ workers }
    ensures { IfOk result (λ hands. AreFor (view cfg.now) hands.items) }
{
    let bytes = (room / 4 / usize::from(workers)).saturating_add(SLICE_MOST);
    let slices = slice_count(cfg) as usize;
    let mut hands = Vec::with_capacity(alloc, usize::from(workers))?;
    'hands: for _ in 0..workers {
        hands.push(Hand::new(alloc, cfg, bytes, slices)?)?;
    }
    Ok(hands)
}

/// Lets workers code the slices of a picture, in at most so many threads. Each takes its next slice by one counter.
fn work_all<R: Threads + Sync>(
    rt: &R,
    config: &Config,
    picture: &Picture,
    workers: u8,
    hands: &mut [Hand],
)
    requires size { picture.now.size ≡ size_of (view config.now) }
    requires some { 1 ≤ workers }
    requires config { AreFor (view config.now) hands.old }
    ensures { HavePieces (view config.now) picture.now hands.new }
{
    config.ranges();
    let size = FrameSize::of(config);
    let slices = Slices {
        pictures: size.picture_count(),
        each: picture_slices(size, config.log2),
    };
    let counter = AtomicU64::new(0);
    thread::for_each_mut(
        rt,
        hands,
        usize::from(workers),
        &|_, hand| work(&counter, slices, config, picture, hand),
    );
}
