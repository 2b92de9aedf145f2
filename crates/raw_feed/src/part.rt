ghost use Rattle.std.specs.Prelude.{◌≡◌, ◌≤◌, ◌+◌, length, IfOk, IfErr};
ghost use Rattle.rec_bytes.specs.Faults.{HasCause};
ghost use Rattle.raw_feed.specs.inner.Parts.{IsPartFault};
ghost use Rattle.raw_feed.specs.inner.Parts.{FillsFrom, TakesPart, GoesOn};
ghost use Rattle.raw_feed.specs.Breaks.{HasFeedCause};

use crate::fault::FeedFault;
use crate::limits::MAX_FEED;
use crate::source::{Feed, Source};
use rec_bytes::Failed;

/// Reads the bytes of a feed from a place on into a buffer, and answers how many came: fewer than
/// it has only where the feed ends. A feed that goes on behind its limit is refused once its bytes
/// up to there are read.
pub(crate) fn read_part<N: Feed, S: Source<N>>(
    source: &mut S,
    at: u64,
    out: &mut [u8],
) -> Result<usize, FeedFault>
    requires { at ≤ MAX_FEED }
    ensures most { IfOk result (λ n. n ≤ length out.new) }
    ensures within { IfOk result (λ n. at + n ≤ MAX_FEED) }
    ensures named { IfErr result (IsPartFault at (length out.old)) }
    ensures taken { TakesPart at (S.told source.old) (S.told source.new) result out.new }
    ensures cause { HasFeedCause (S.fault_count source.old) (S.fault_count source.new) result }
{
    let room = MAX_FEED - at;
    if out.len() as u64 <= room {
        return fill(source, out);
    }
    let room = room as usize;
    let came = fill(source, &mut out[..room])?;
    if came == room && goes_on(source)? {
        return Err(FeedFault::TooLong { at: MAX_FEED });
    }
    Ok(came)
}

/// Whether a source has one more byte, which is read.
fn goes_on<N: Feed, S: Source<N>>(source: &mut S) -> Result<bool, FeedFault>
    ensures more { GoesOn (S.told source.old) (S.told source.new) result }
    ensures fault { IfErr result (λ f. f ≡ FeedFault.SourceFault (S.fault_count source.new)) }
    ensures cause { HasFeedCause (S.fault_count source.old) (S.fault_count source.new) result }
{
    let mut byte = [0u8; 1];
    Ok(fill(source, &mut byte)? == 1)
}

/// `read_full` with the fault of a feed.
fn fill<N: Feed, S: Source<N>>(source: &mut S, out: &mut [u8]) -> Result<usize, FeedFault>
    ensures most { IfOk result (λ n. n ≤ length out.new) }
    ensures filled { FillsFrom (S.told source.old) (S.told source.new) result out.new }
    ensures fault { IfErr result (λ f. f ≡ FeedFault.SourceFault (S.fault_count source.new)) }
    ensures cause { HasFeedCause (S.fault_count source.old) (S.fault_count source.new) result }
{
    match read_full(source, out) {
        Ok(came) => Ok(came),
        Err(Failed) => Err(FeedFault::SourceFault {
            at: source.faults(),
        }),
    }
}

/// Fills a buffer from its front, and answers how many bytes came: fewer than it has only where the
/// source ends.
pub(crate) fn read_full<N: Feed, S: Source<N>>(
    source: &mut S,
    out: &mut [u8],
) -> Result<usize, Failed>
    ensures most { IfOk result (λ n. n ≤ length out.new) }
    ensures filled { FillsFrom (S.told source.old) (S.told source.new) result out.new }
    ensures cause { HasCause (S.fault_count source.old) (S.fault_count source.new) result }
{
    let mut at = 0;
    while at < out.len() {
        let came = source.read(&mut out[at..])?;
        if came == 0 {
            return Ok(at);
        }
        at += came;
    }
    Ok(at)
}
