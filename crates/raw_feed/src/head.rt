ghost use Rattle.std.specs.Prelude.{◌≡◌, ◌<◌, ◌⊎◌, ℕ, List, IfOk, IfErr};
ghost use Rattle.rec_bytes.specs.Views.{view};
ghost use Rattle.raw_feed.specs.Breaks.{BreaksHead, Gave, HasFeedCause};
ghost use Rattle.raw_feed.specs.Refusals.{IsHeadFault};
ghost use Rattle.raw_feed.specs.Feeds.{IsHead, DiffersAt, BreaksConfigAt};
ghost use Rattle.raw_feed.specs.Reading.{IfTold};

use crate::fault::FeedFault;
use crate::kind::{Kind, MAGIC_LEN, magic_of};
use crate::part::read_part;
use crate::source::{Feed, Source};
use rec_bytes::{CONFIG_LEN, Config, read_config};

/// Bytes of a feed's head: its magic and its configuration.
pub const FEED_HEAD_LEN: usize = MAGIC_LEN + CONFIG_LEN;

/// Reads the head of a feed.
pub(crate) fn read_head<N: Feed, S: Source<N>>(
    source: &mut S,
    kind: Kind,
) -> Result<Config, FeedFault>
    ensures head { IfOk result (λ config. IfTold (S.told source.old) (S.told source.new) (λ before.
        (head : List ℕ) × IsHead kind head (view config) × Gave head before (S.told source.new))) }
    ensures named { IfErr result IsHeadFault }
    ensures refused { IfErr result (λ fault.
        IfTold (S.told source.old) (S.told source.new)
        (λ before. BreaksHead kind before (S.told source.new) fault)) }
    ensures cause { HasFeedCause (S.fault_count source.old) (S.fault_count source.new) result }
{
    let mut head = [0u8; FEED_HEAD_LEN];
    let came = read_part(source, 0, &mut head)?;
    if came < FEED_HEAD_LEN {
        return Err(FeedFault::FeedCut { at: came as u64 });
    }
    match config_of(kind, &head) {
        Ok(config) => Ok(config),
        Err(at) => Err(FeedFault::FeedHead { at: at as u64 }),
    }
}

/// The configuration in the head of a feed, or the first byte that is wrong.
fn config_of(kind: Kind, head: &[u8; FEED_HEAD_LEN]) -> Result<Config, usize>
    ensures head { IfOk result (λ config. IsHead kind head.now (view config)) }
    ensures refused { IfErr result (λ at. DiffersAt kind head.now at ⊎ BreaksConfigAt kind head.now at) }
    ensures within { IfErr result (λ at. at < FEED_HEAD_LEN) }
{
    let magic = magic_of(kind);
    for at in 0..MAGIC_LEN {
        if head[at] != magic[at] {
            return Err(at);
        }
    }
    let mut spelling = [0u8; CONFIG_LEN];
    spelling.copy_from_slice(&head[MAGIC_LEN..]);
    match read_config(&spelling) {
        Ok(config) => Ok(config),
        Err(at) => Err(MAGIC_LEN + at),
    }
}
