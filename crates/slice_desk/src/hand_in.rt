//! Why a desk takes no slice.

use crate::done::SliceDone;
use crate::names::DeskName;
use raw_feed::Feed;

/// Why a slice isn't taken in. It is handed back.
pub enum HandIn<N: Feed, P: DeskName> {
    /// Its frame isn't in flight, or has no such slice.
    Stranger {
        frame: u64,
        index: u64,
        done: SliceDone<N, P>,
    },
    /// It is in already.
    Double {
        frame: u64,
        index: u64,
        done: SliceDone<N, P>,
    },
}
