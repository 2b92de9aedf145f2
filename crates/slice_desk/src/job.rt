//! A slice that is to be coded.

ghost use Rattle.std.specs.Prelude.{◌<◌};
ghost use Rattle.slice_desk.specs.Slices.{slices_of, HasSamples};

use crate::names::DeskName;
use picture_plane::SliceSamples;
use raw_feed::Feed;
use slot_pool::Slot;
use std::marker::PhantomData;

/// A slice of a frame in flight, and a slot for its bytes.
pub struct Job<N: Feed, P: DeskName> {
    /// The number of its frame.
    pub frame: u64,
    /// Its number among the slices of its frame.
    pub index: u32,
    /// Its samples.
    pub samples: SliceSamples,
    /// Room for its bytes.
    pub slot: Slot<P>,
    pub(crate) of: PhantomData<N>,
    ghost within: { index < slices_of P.config },
    ghost own: { HasSamples N.bytes P.config frame index samples },
}
