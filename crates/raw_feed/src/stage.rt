use crate::fault::FeedFault;

/// How far a reader of a feed is with the next item.
#[derive(Clone, Copy, Debug, PartialEq, Eq)]
pub enum Stage {
    /// Nothing of it was read.
    Open,
    /// Its marker was read.
    Marked,
    /// There is none: the feed has ended after a whole item.
    Ended,
    /// The feed can't be read on.
    Refused(FeedFault),
}
