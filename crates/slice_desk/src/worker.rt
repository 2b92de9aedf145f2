//! Slices that are coded.

ghost use Rattle.std.specs.Prelude.{◌≡◌};
ghost use Rattle.rec_bytes.specs.Views.{view};
ghost use Rattle.slice_desk.specs.Slices.{IsRoomFor};

use crate::done::SliceDone;
use crate::job::Job;
use crate::names::DeskName;
use picture_plane::slice_name;
use prores_codes::Pairs;
use raw_feed::Feed;
use rec_bytes::Config;
use slice_codec::SliceEncoder;
use std::marker::{Model, PhantomData};

/// What coding slices by a configuration takes, made once for many of them. Its value is the configuration.
#[derive(Drop)]
pub struct SliceWorker {
    encoder: SliceEncoder,
    tables: Pairs,
}

impl Model for SliceWorker {
    ghost use Rattle.rec_bytes.specs.Configuration.{Fields};
    ghost use Rattle.rec_bytes.specs.Views.{view as fields_in};

    ghost Value = { Fields };

    ghost view = { λ w. fields_in w.encoder.coding.config };
}

impl SliceWorker {
    /// Prepares tables and weights of a configuration.
    pub fn new(cfg: &Config) -> SliceWorker
        ensures { result ≡ view cfg.now }
    {
        SliceWorker {
            encoder: SliceEncoder::new(cfg),
            tables: Pairs::new(),
        }
    }

    /// Codes a slice.
    pub fn code<N: Feed, P: DeskName>(&mut self, job: Job<N, P>) -> SliceDone<N, P>
        requires named { self.old ≡ P.config }
        requires room { IsRoomFor P.config P.block }
        ensures done { (result.frame ≡ job.frame) × (result.index ≡ job.index) × (result.slot.place ≡ job.slot.place) }
        ensures kept { self.new ≡ self.old }
    {
        let Job {
            frame,
            index,
            samples,
            slot,
            of: _,
        } = job;
        let mut slot = slot;
        self.encoder.coding.config.ranges();
        let name = slice_name(&self.encoder.coding.config, index);
        samples.ranges();
        let len = self
            .encoder
            .encode(&self.tables, &samples, name.count, slot.bytes_mut());
        SliceDone {
            frame,
            index,
            len: len as u32,
            slot,
            of: PhantomData,
        }
    }
}

/// Codes a slice by a configuration. For many slices keep a `SliceWorker`.
pub fn do_job<N: Feed, P: DeskName>(cfg: &Config, job: Job<N, P>) -> SliceDone<N, P>
    requires named { view cfg.now ≡ P.config }
    requires room { IsRoomFor P.config P.block }
    ensures { (result.frame ≡ job.frame) × (result.index ≡ job.index) × (result.slot.place ≡ job.slot.place) }
{
    let mut worker = SliceWorker::new(cfg);
    worker.code(job)
}
