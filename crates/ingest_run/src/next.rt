//! What comes next in a feed, for a command that reads it item by item.

ghost use Rattle.std.specs.Prelude.{◌≡◌, ◌≤◌};
ghost use Rattle.raw_feed.specs.declared.head.TheConstants.{FEED_HEAD_LEN};
ghost use Rattle.run_parts.specs.Statuses.{feed_end_answer};
ghost use Rattle.ingest_run.specs.inner.Steps.{EndsReading, StaysSilent, HasEndCause, ending_of};

use raw_feed::{Feed, FeedReader, Source, Stage, faults_are_placed, readings_end};
use run_parts::FeedEnd;

/// What comes next in a feed.
pub(crate) enum Next {
    /// An item, which was read.
    Item,
    /// The feed's end.
    End(FeedEnd),
}

/// How a feed ends behind as many items as its configuration allows.
pub(crate) fn read_end<N: Feed, S: Source<N>>(reader: &mut FeedReader<N>, feed: &mut S) -> FeedEnd
    requires open { reader.old.stage ≡ Stage.Open }
    requires behind { FEED_HEAD_LEN ≤ reader.old.at }
    requires full { reader.old.count ≡ reader.old.config.max_frames }
    ensures ended { EndsReading reader.old (S.told feed.old) (S.told feed.new) (feed_end_answer result) (ending_of result) }
    ensures silent { StaysSilent (S.told feed.old) (S.told feed.new) }
    ensures cause { HasEndCause (S.fault_count feed.old) (S.fault_count feed.new) (feed_end_answer result) }
{
    reader.config().ranges();
    faults_are_placed();
    readings_end();
    match reader.marker(feed) {
        Ok(true) => FeedEnd::Full {
            items: reader.read_count(),
        },
        Ok(false) => FeedEnd::Clean,
        Err(fault) => FeedEnd::Broken(fault),
    }
}
