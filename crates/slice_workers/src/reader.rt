//! What one worker reads of a frame.

ghost use Rattle.std.specs.Prelude.{◌≡◌, ◌<◌, ◌≤◌, ◌+◌, ℕ, length, IfOk, IfSome, IfNone};
ghost use Rattle.picture_plane.specs.Slices.{FitsSize};
ghost use Rattle.slice_codec.specs.Setups.{Setup};
ghost use Rattle.slice_codec.specs.Views.{as_setup};
ghost use Rattle.frame_syntax.specs.Written.{slice_bytes};
ghost use Rattle.slice_workers.specs.inner.Readers.{AreJobs, HasReadings, IsAnswer, IsJob, IsReading};

use crate::jobs::Job;
use picture_plane::{Picture, SliceName, SliceSamples, place_slice};
use prores_codes::Heads;
use rec_bytes::Memory;
use slice_codec::{SliceDecoder, SliceFault, SliceSetup};
use std::alloc::Global;
use std::sync::atomic::{AtomicU64, Ordering};

/// A slice that a worker has read: where it stands in the frame, how many macroblocks it has, and what it means, or why it
/// means nothing.
#[derive(Drop)]
pub struct Reading {
    /// The place of its first byte.
    pub at: usize,
    /// How many bytes it has.
    pub len: usize,
    /// Its macroblocks.
    pub count: u8,
    /// Why it means nothing, if so.
    pub fault: Option<SliceFault>,
    /// What it means, if there is no fault.
    pub samples: SliceSamples,
}

/// A worker: its tables and scratch, and memory for the slices that it reads.
#[derive(Drop)]
pub struct Reader {
    /// The tables of the codes.
    pub tables: Heads,
    /// What reading a slice takes.
    pub decoder: SliceDecoder,
    /// The slices that it has read, and room for more.
    pub readings: Vec<Reading>,
    /// How many these are.
    pub used: usize,
    /// How many of them were handed over.
    pub given: usize,
}

impl Reader {
    /// A worker with memory for so many slices.
    pub fn new(alloc: Global, setup: &SliceSetup, slices: usize) -> Result<Reader, Memory>
        ensures { IfOk result (λ reader. reader.used ≡ 0) }
    {
        let mut readings = Vec::with_capacity(alloc, slices)?;
        for _ in 0..slices {
            readings.push(Reading {
                at: 0,
                len: 0,
                count: 0,
                fault: None,
                samples: SliceSamples::new(),
            })?;
        }
        Ok(Reader {
            tables: Heads::new(),
            decoder: SliceDecoder::new(setup),
            readings,
            used: 0,
            given: 0,
        })
    }
}

/// Reads slices of a frame, each of which a counter names, until they are at an end or the memory is full. What the worker
/// had before is given up.
pub fn work(
    counter: &AtomicU64,
    end: u64,
    bytes: &[u8],
    setup: &SliceSetup,
    jobs: &[Job],
    reader: &mut Reader,
)
    requires { AreJobs bytes.now jobs.now }
    ensures { HasReadings (as_setup setup.now) bytes.now reader.new }
{
    reader.decoder = SliceDecoder::new(setup);
    reader.used = 0;
    reader.given = 0;
    'taken: for _ in 0..jobs.len() {
        if reader.used >= reader.readings.len() {
            return;
        }
        let index = counter.fetch_add(1, Ordering::SeqCst);
        if index >= end || index >= jobs.len() as u64 {
            return;
        }
        read_job(bytes, setup, jobs[index as usize], reader);
    }
}

/// Reads a slice behind those that a worker has read.
fn read_job(bytes: &[u8], setup: &SliceSetup, job: Job, reader: &mut Reader)
    requires job { IsJob bytes.now job }
    requires setup { reader.old.decoder.setup ≡ setup.now }
    requires room { reader.old.used < length reader.old.readings.items }
    requires has { HasReadings (as_setup setup.now) bytes.now reader.old }
    ensures has { HasReadings (as_setup setup.now) bytes.now reader.new }
    ensures setup { reader.new.decoder.setup ≡ setup.now }
{
    read_slice(
        &reader.tables,
        bytes,
        job,
        &mut reader.decoder,
        &mut reader.readings[reader.used],
    );
    reader.used += 1;
}

/// Reads a slice.
fn read_slice(tables: &Heads, bytes: &[u8], job: Job, decoder: &mut SliceDecoder, out: &mut Reading)
    requires { IsJob bytes.now job }
    ensures is { IsReading (as_setup decoder.old.setup) bytes.now out.new }
    ensures kept { decoder.new.setup ≡ decoder.old.setup }
{
    out.at = job.at;
    out.len = job.len;
    out.count = job.count;
    let slice = &bytes[job.at..job.at + job.len];
    out.fault = match decoder.decode(tables, slice, job.count, &mut out.samples) {
        Ok(()) => None,
        Err(fault) => Some(fault),
    };
}

/// Puts the samples of a slice into a picture, or answers why it has none, if it is the next one that a worker has to hand
/// over.
pub fn hand_over(
    bytes: &[u8],
    setup: &SliceSetup,
    at: usize,
    len: usize,
    name: SliceName,
    reader: &mut Reader,
    out: &mut Picture,
) -> Option<Result<(), SliceFault>>
    requires has { HasReadings (as_setup setup.now) bytes.now reader.old }
    requires fits { FitsSize out.old.size name }
    ensures has { HasReadings (as_setup setup.now) bytes.now reader.new }
    ensures answer { IfSome result (IsAnswer (as_setup setup.now) (slice_bytes bytes.now (at, len)) name out.old out.new) }
    ensures none { IfNone result (out.new ≡ out.old) }
{
    if reader.given >= reader.used {
        return None;
    }
    let reading = &reader.readings[reader.given];
    if reading.at != at || reading.len != len || reading.count != name.count {
        return None;
    }
    reader.given += 1;
    match reading.fault {
        Some(fault) => Some(Err(fault)),
        None => {
            place_slice(out, name, &reading.samples);
            Some(Ok(()))
        }
    }
}
