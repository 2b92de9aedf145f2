//! The slices that workers have read, in the order of the file.

ghost use Rattle.std.specs.Prelude.{◌≡◌, ◌≤◌, ◌+◌, length, IfSome, IfNone};
ghost use Rattle.picture_plane.specs.Slices.{FitsSize};
ghost use Rattle.slice_codec.specs.Views.{as_setup};
ghost use Rattle.frame_syntax.specs.Written.{slice_bytes};
ghost use Rattle.slice_workers.specs.inner.Readers.{AreJobs, HaveReadings, IsAnswer};

use crate::jobs::Job;
use crate::reader::{Reader, hand_over, work};
use frame_codec::{SampleReader, SampleSource};
use picture_plane::{Picture, SliceName};
use slice_codec::{SliceFault, SliceSetup};
use std::sync::atomic::AtomicU64;
use std::thread;
use std::thread::Threads;

/// Workers that read a frame, round by round, and what the caller reads itself with.
#[derive(Drop)]
pub struct Rounds<'a, R: Threads + Sync> {
    /// What threads are started by.
    pub rt: &'a R,
    /// The caller's.
    pub own: SampleReader,
    /// The slices of the frame.
    pub jobs: Vec<Job>,
    /// The workers.
    pub readers: Vec<Reader>,
    /// How many slices a round has.
    pub round: usize,
    /// How many slices were asked for.
    pub asked: usize,
    /// How many slices the rounds had so far.
    pub begun: usize,
}

impl<'a, R: Threads + Sync> SampleSource for Rounds<'a, R> {
    ghost use Rattle.std.specs.Thread.{IsSync};
    ghost use Rattle.slice_codec.specs.Views.{as_setup};
    ghost use Rattle.slice_workers.specs.inner.Readers.{AreJobs as Jobs, HaveReadings as Have};

    ghost setup = { λ r. as_setup r.own.decoder.setup };

    ghost holds = { λ r bytes. IsSync R.row × Jobs bytes r.jobs.items × Have (as_setup r.own.decoder.setup) bytes r.readers.items };

    fn read_slice(
        &mut self,
        bytes: &[u8],
        at: usize,
        len: usize,
        name: SliceName,
        out: &mut Picture,
    ) -> Result<(), SliceFault> {
        let setup = self.own.decoder.setup;
        if self.asked == self.begun {
            let end = self.begun.saturating_add(self.round);
            read_round(
                self.rt,
                self.begun as u64,
                end as u64,
                bytes,
                &setup,
                self.jobs.as_slice(),
                self.readers.as_mut_slice(),
            );
            self.begun = end;
        }
        self.asked = self.asked.saturating_add(1);
        match take_reading(
            bytes,
            &setup,
            at,
            len,
            name,
            self.readers.as_mut_slice(),
            out,
        ) {
            Some(answer) => answer,
            None => self.own.read_slice(bytes, at, len, name, out),
        }
    }
}

/// Lets workers read slices of a frame, each in a thread of its own where one can be made. Each takes its next slice by one
/// counter.
fn read_round<R: Threads + Sync>(
    rt: &R,
    begin: u64,
    end: u64,
    bytes: &[u8],
    setup: &SliceSetup,
    jobs: &[Job],
    readers: &mut [Reader],
)
    requires jobs { AreJobs bytes.now jobs.now }
    requires have { HaveReadings (as_setup setup.now) bytes.now readers.old }
    ensures { HaveReadings (as_setup setup.now) bytes.now readers.new }
{
    if readers.is_empty() {
        return;
    }
    let counter = AtomicU64::new(begin);
    let threads = readers.len();
    thread::for_each_mut(
        rt,
        readers,
        threads,
        &|_, reader| work(&counter, end, bytes, setup, jobs, reader),
    );
}

/// Puts the samples of a slice into a picture, or answers why it has none, if it is the next one that some worker has to hand
/// over.
fn take_reading(
    bytes: &[u8],
    setup: &SliceSetup,
    at: usize,
    len: usize,
    name: SliceName,
    readers: &mut [Reader],
    out: &mut Picture,
) -> Option<Result<(), SliceFault>>
    requires have { HaveReadings (as_setup setup.now) bytes.now readers.old }
    requires fits { FitsSize out.old.size name }
    ensures have { HaveReadings (as_setup setup.now) bytes.now readers.new }
    ensures answer { IfSome result (IsAnswer (as_setup setup.now) (slice_bytes bytes.now (at, len)) name out.old out.new) }
    ensures none { IfNone result (out.new ≡ out.old) }
{
    'readers: for k in 0..readers.len() {
        match hand_over(bytes, setup, at, len, name, &mut readers[k], out) {
            Some(answer) => return Some(answer),
            None => {}
        }
    }
    None
}
