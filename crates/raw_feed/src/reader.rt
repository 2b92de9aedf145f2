ghost use Rattle.std.specs.Prelude.{◌≡◌, ◌≤◌, ◌<◌, ◌+◌, true, false, IfOk, IfErr, IfSome, IfNone};
ghost use Rattle.std.specs.Bool.{OnTrue, OnFalse};
ghost use Rattle.rec_bytes.specs.Views.{view};
ghost use Rattle.picture_plane.specs.Sizes.{size_of};
ghost use Rattle.raw_feed.specs.Pictures.{GivesPicture};
ghost use Rattle.raw_feed.specs.Breaks.{BreaksHead, HasFeedCause};
ghost use Rattle.raw_feed.specs.Refusals.{IsHeadFault};
ghost use Rattle.raw_feed.specs.Reading.{ReadsHead, IfTold, HasReaderCause};
ghost use Rattle.raw_feed.specs.Reading.{GivesUnit, EndsClean, RefusesItem, GivesMarker, RefusesMarker};

use crate::fault::FeedFault;
use crate::head::{FEED_HEAD_LEN, read_head};
use crate::kind::{Kind, MARKER_LEN, SAMPLE_LEN, UNIT_HEAD_LEN};
use crate::picture::read_picture;
use crate::source::{Feed, Source};
use crate::stage::Stage;
use crate::unit::read_marker;
use crate::unit_buffer::UnitBuffer;
use picture_plane::Picture;
use rec_bytes::Config;
use std::alloc::Global;
use std::marker::{Model, PhantomData};

/// A reader of a feed, item by item. It keeps no byte of the feed: what it has read is what its
/// source has given.
#[derive(Drop)]
pub struct FeedReader<N: Feed> {
    kind: Kind,
    config: Config,
    count: u64,
    at: u64,
    stage: Stage,
    of: PhantomData<N>,
}

impl<N: Feed> Model for FeedReader<N> {
    ghost use Rattle.std.specs.Prelude.{◌≤◌, ◌+◌, ◌≡◌};
    ghost use Rattle.rec_bytes.specs.Views.{view as fields_in};
    ghost use Rattle.raw_feed.specs.Reading.{Reading};
    ghost use Rattle.raw_feed.specs.declared.limits.TheConstants.{MAX_FEED};
    ghost use Rattle.raw_feed.specs.declared.stage.Stage.TheVariants.{Marked};

    ghost Value = { Reading };

    ghost view = { λ r.
        record { kind = r.kind; config = fields_in r.config; count = r.count; at = r.at; stage = r.stage } };

    ghost invariant = { λ r.
        (r.at ≤ MAX_FEED) × (r.count ≤ r.config.max_frames)
        × (r.stage ≡ Marked → r.at + 4 ≤ MAX_FEED) };
}

impl<N: Feed> FeedReader<N> {
    /// Reads the head of a feed whose items are of this kind.
    pub fn new<S: Source<N>>(kind: Kind, source: &mut S) -> Result<Self, FeedFault>
        ensures head { IfOk result (λ reader.
            ReadsHead kind reader (S.told source.old) (S.told source.new)) }
        ensures refused { IfErr result (λ fault.
            IsHeadFault fault × IfTold (S.told source.old) (S.told source.new)
            (λ before. BreaksHead kind before (S.told source.new) fault)) }
        ensures cause { HasFeedCause (S.fault_count source.old) (S.fault_count source.new) result }
    {
        let config = read_head(source, kind)?;
        Ok(FeedReader {
            kind,
            config,
            count: 0,
            at: FEED_HEAD_LEN as u64,
            stage: Stage::Open,
            of: PhantomData,
        })
    }

    /// The feed's configuration.
    pub fn config(&self) -> &Config
        ensures { view result.now ≡ self.now.config }
    {
        &self.config
    }

    /// Whole items read so far.
    pub fn read_count(&self) -> u64
        ensures { result ≡ self.now.count }
    {
        self.count
    }

    /// Reads the marker of the next item, unless it was read, and answers false at the end after a
    /// whole item.
    pub fn marker<S: Source<N>>(&mut self, source: &mut S) -> Result<bool, FeedFault>
        ensures marked { IfOk result (λ more. OnTrue more (
            GivesMarker self.old.stage self.old self.new (S.told source.old) (S.told source.new))) }
        ensures ended { IfOk result (λ more. OnFalse more (
            EndsClean self.old.stage self.old self.new (S.told source.old) (S.told source.new))) }
        ensures refused { IfErr result (
            RefusesMarker self.old.stage self.old self.new (S.told source.old) (S.told source.new)) }
        ensures kept { (self.new.kind ≡ self.old.kind) × (self.new.config ≡ self.old.config) }
        ensures cause { HasReaderCause self.old.stage
            (S.fault_count source.old) (S.fault_count source.new) result }
    {
        match self.stage {
            Stage::Open => match read_marker(source, self.kind, self.at) {
                Ok(true) => {
                    self.stage = Stage::Marked;
                    Ok(true)
                }
                Ok(false) => {
                    self.stage = Stage::Ended;
                    Ok(false)
                }
                Err(fault) => {
                    self.stage = Stage::Refused(fault);
                    Err(fault)
                }
            },
            Stage::Marked => Ok(true),
            Stage::Ended => Ok(false),
            Stage::Refused(fault) => Err(fault),
        }
    }

    /// Reads the next unit into a buffer, and answers false at the end after a whole item.
    pub fn read_unit<S: Source<N>>(
        &mut self,
        source: &mut S,
        unit: &mut UnitBuffer,
    ) -> Result<bool, FeedFault>
        requires kind { self.old.kind ≡ Kind.Units }
        requires room { self.old.count < self.old.config.max_frames }
        ensures unit { IfOk result (λ more. OnTrue more (
            GivesUnit self.old.stage self.old self.new (S.told source.old) (S.told source.new) unit.new)) }
        ensures ended { IfOk result (λ more. OnFalse more (
            EndsClean self.old.stage self.old self.new (S.told source.old) (S.told source.new))) }
        ensures refused { IfErr result (
            RefusesItem self.old.stage self.old self.new (S.told source.old) (S.told source.new)) }
        ensures kept { (self.new.kind ≡ self.old.kind) × (self.new.config ≡ self.old.config) }
        ensures cause { HasReaderCause self.old.stage
            (S.fault_count source.old) (S.fault_count source.new) result }
    {
        if !self.marker(source)? {
            return Ok(false);
        }
        match unit.read_item(source, self.at) {
            Ok(()) => {
                self.count += 1;
                self.at += UNIT_HEAD_LEN as u64 + unit.as_slice().len() as u64;
                self.stage = Stage::Open;
                Ok(true)
            }
            Err(fault) => {
                self.stage = Stage::Refused(fault);
                Err(fault)
            }
        }
    }

    /// Reads the next picture, and answers false at the end after a whole item. It takes no memory.
    pub fn next_picture<S: Source<N>>(
        &mut self,
        source: &mut S,
        into: &mut Picture,
    ) -> Result<bool, FeedFault>
        requires kind { self.old.kind ≡ Kind.Pictures }
        requires room { self.old.count < self.old.config.max_frames }
        requires sized { into.old.size ≡ size_of self.old.config }
        ensures picture { IfOk result (λ more. OnTrue more (
            GivesPicture self.old.stage self.old self.new (S.told source.old) (S.told source.new) into.new)) }
        ensures ended { IfOk result (λ more. OnFalse more (
            EndsClean self.old.stage self.old self.new (S.told source.old) (S.told source.new))) }
        ensures refused { IfErr result (
            RefusesItem self.old.stage self.old self.new (S.told source.old) (S.told source.new)) }
        ensures size { into.new.size ≡ into.old.size }
        ensures kept { (self.new.kind ≡ self.old.kind) × (self.new.config ≡ self.old.config) }
        ensures cause { HasReaderCause self.old.stage
            (S.fault_count source.old) (S.fault_count source.new) result }
    {
        let more = self.marker(source)?;
        if !more {
            return Ok(false);
        }
        match read_picture(source, &self.config, self.at, into) {
            Ok(()) => {
                into.ranges();
                self.count += 1;
                self.at += (MARKER_LEN + SAMPLE_LEN * into.samples().len()) as u64;
                self.stage = Stage::Open;
                Ok(true)
            }
            Err(fault) => {
                self.stage = Stage::Refused(fault);
                Err(fault)
            }
        }
    }

    /// Reads the next unit into memory of its own, and answers none at the end after a whole item.
    pub fn next_unit<S: Source<N>>(
        &mut self,
        alloc: Global,
        source: &mut S,
    ) -> Result<Option<Vec<u8>>, FeedFault>
        requires kind { self.old.kind ≡ Kind.Units }
        requires room { self.old.count < self.old.config.max_frames }
        ensures unit { IfOk result (λ found. IfSome found (λ unit.
            GivesUnit self.old.stage self.old self.new (S.told source.old) (S.told source.new)
            unit.items)) }
        ensures ended { IfOk result (λ found. IfNone found (
            EndsClean self.old.stage self.old self.new (S.told source.old) (S.told source.new))) }
        ensures refused { IfErr result (
            RefusesItem self.old.stage self.old self.new (S.told source.old) (S.told source.new)) }
        ensures kept { (self.new.kind ≡ self.old.kind) × (self.new.config ≡ self.old.config) }
        ensures cause { HasReaderCause self.old.stage
            (S.fault_count source.old) (S.fault_count source.new) result }
    {
        let mut unit = UnitBuffer::new(alloc);
        match self.read_unit(source, &mut unit) {
            Ok(true) => Ok(Some(unit.into_vec())),
            Ok(false) => Ok(None),
            Err(fault) => Err(fault),
        }
    }
}
