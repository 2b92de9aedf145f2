//! A slice that was coded.

ghost use Rattle.std.specs.Prelude.{◌≡◌, ◌+◌, ◌≤◌, ◌%◌, length, take, drop};
ghost use Rattle.slice_desk.specs.Slices.{slice_room, slices_in_picture, IsCodedFor};

use crate::names::DeskName;
use raw_feed::Feed;
use rec_bytes::put_bytes;
use slot_pool::Slot;
use std::marker::{Model, PhantomData};

/// A slice that was coded, in the first bytes of a slot.
pub struct SliceDone<N: Feed, P: DeskName> {
    pub(crate) frame: u64,
    pub(crate) index: u32,
    pub(crate) len: u32,
    pub(crate) slot: Slot<P>,
    pub(crate) of: PhantomData<N>,
}

impl<N: Feed, P: DeskName> Model for SliceDone<N, P> {
    ghost use Rattle.slice_desk.specs.Slices.{DoneSeen, IsDone};

    ghost Value = { DoneSeen };

    ghost view = { λ d. record { frame = d.frame; index = d.index; len = d.len; slot = d.slot } };

    ghost invariant = { λ d. IsDone N.bytes P.config d.frame d.index d.len d.slot };
}

impl<N: Feed, P: DeskName> SliceDone<N, P> {
    /// The number of its frame.
    pub fn frame(&self) -> u64
        ensures { result ≡ self.now.frame }
    {
        self.frame
    }

    /// Its number among the slices of its frame.
    pub fn index(&self) -> u32
        ensures { result ≡ self.now.index }
    {
        self.index
    }

    /// Writes the coded bytes to a place, and answers how many they are.
    #[tactic(auto, using(crate::proofs::BytesLemmas::put_front, crate::proofs::BytesLemmas::put_there))]
    pub(crate) fn put(&self, out: &mut [u8], at: usize) -> usize
        requires room { at + slice_room P.config (self.now.index % slices_in_picture P.config) ≤ length out.old }
        ensures coded { IsCodedFor N.bytes P.config self.now.frame self.now.index (take result (drop at out.new)) }
        ensures before { take at out.new ≡ take at out.old }
        ensures most { result ≤ slice_room P.config (self.now.index % slices_in_picture P.config) }
    {
        let len = self.len as usize;
        put_bytes(out, at, &self.slot.bytes()[..len]);
        len
    }

    /// Its slot alone.
    pub fn into_slot(self) -> Slot<P>
        ensures { result ≡ self.slot }
    {
        let SliceDone {
            frame: _,
            index: _,
            len: _,
            slot,
            of: _,
        } = self;
        slot
    }
}
