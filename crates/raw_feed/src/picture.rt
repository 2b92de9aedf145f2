ghost use Rattle.std.specs.Prelude.{◌≡◌, ◌≤◌, ◌<◌, ◌+◌, ◌*◌, ◌⊎◌, ℕ, Ok, Err, length, slice_index, IfErr, OnOk};
ghost use Rattle.rec_bytes.specs.Views.{view};
ghost use Rattle.picture_plane.specs.Sizes.{size_of};
ghost use Rattle.raw_feed.specs.inner.Parts.{SamplesRead, IsSamplesFault, ItemRead};
ghost use Rattle.raw_feed.specs.Pictures.{picture_bytes};
ghost use Rattle.raw_feed.specs.Breaks.{HasFeedCause};
ghost use Rattle.raw_feed.specs.Refusals.{IsItemFault};

use crate::fault::FeedFault;
use crate::kind::{Kind, MARKER_LEN, SAMPLE_LEN};
use crate::limits::MAX_FEED;
use crate::part::read_part;
use crate::samples::take_samples;
use crate::source::{Feed, Source};
use picture_plane::Picture;
use rec_bytes::Config;

/// Samples that are read at once.
const PIECE_SAMPLES: usize = 0x1000;

/// Reads the rest of the item of a picture at a place, behind its marker.
pub(crate) fn read_picture<N: Feed, S: Source<N>>(
    source: &mut S,
    config: &Config,
    at: u64,
    into: &mut Picture,
) -> Result<(), FeedFault>
    requires room { at + MARKER_LEN ≤ MAX_FEED }
    requires sized { into.old.size ≡ size_of (view config.now) }
    ensures kept { into.new.size ≡ into.old.size }
    ensures within { OnOk result (at + MARKER_LEN + SAMPLE_LEN * length into.new.samples ≤ MAX_FEED) }
    ensures named { IfErr result (IsItemFault at) }
    ensures read { OnOk result (
        ItemRead Kind.Pictures (view config.now) at (S.told source.old) (S.told source.new) (Ok (picture_bytes into.new))) }
    ensures broken { IfErr result (λ fault.
        ItemRead Kind.Pictures (view config.now) at (S.told source.old) (S.told source.new) (Err fault)) }
    ensures cause { HasFeedCause (S.fault_count source.old) (S.fault_count source.new) result }
{
    let mut bytes = [0u8; SAMPLE_LEN * PIECE_SAMPLES];
    let mut samples = [0u16; PIECE_SAMPLES];
    let count = into.samples().len();
    let mut done = 0;
    while done < count {
        into.ranges();
        let place = at + MARKER_LEN as u64 + (SAMPLE_LEN * done) as u64;
        let more = piece_samples(count - done, place);
        read_samples(
            source,
            place,
            &mut bytes[..SAMPLE_LEN * more],
            &mut samples[..more],
        )?;
        into.fill(done, &samples[..more]);
        done += more;
    }
    Ok(())
}

/// How many samples to read from a place on: all of them, or one, lie before the limit of the feed.
fn piece_samples(left: usize, at: u64) -> usize
    requires some { 0 < left }
    requires place { at ≤ MAX_FEED }
    ensures some { 0 < result }
    ensures fewer { result ≤ left }
    ensures most { result ≤ PIECE_SAMPLES }
    ensures before { (at + SAMPLE_LEN * result ≤ MAX_FEED) ⊎ (result ≤ 1) }
{
    let room = (MAX_FEED - at) / SAMPLE_LEN as u64;
    left.min(PIECE_SAMPLES).min((room as usize).max(1))
}

/// Reads samples from a place of the feed on.
fn read_samples<N: Feed, S: Source<N>>(
    source: &mut S,
    at: u64,
    bytes: &mut [u8],
    samples: &mut [u16],
) -> Result<(), FeedFault>
    requires place { at ≤ MAX_FEED }
    requires long { length bytes.old ≡ SAMPLE_LEN * length samples.old }
    requires before { (at + SAMPLE_LEN * length samples.old ≤ MAX_FEED) ⊎ (length samples.old ≤ 1) }
    ensures small { OnOk result ((k : ℕ) → slice_index samples.new k < 1024) }
    ensures within { OnOk result (at + SAMPLE_LEN * length samples.new ≤ MAX_FEED) }
    ensures named { IfErr result (IsSamplesFault at) }
    ensures read { SamplesRead at (length samples.old) (S.told source.old) (S.told source.new) result samples.new }
    ensures cause { HasFeedCause (S.fault_count source.old) (S.fault_count source.new) result }
{
    let came = read_part(source, at, bytes)?;
    let whole = came / SAMPLE_LEN;
    if let Some(k) = take_samples(&bytes[..SAMPLE_LEN * whole], &mut samples[..whole]) {
        return Err(FeedFault::Sample {
            at: at + (SAMPLE_LEN * k) as u64,
        });
    }
    if came < bytes.len() {
        return Err(FeedFault::FeedCut {
            at: at + came as u64,
        });
    }
    Ok(())
}
