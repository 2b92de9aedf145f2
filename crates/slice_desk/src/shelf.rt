//! The slices that are in, each at its place.

ghost use Rattle.std.specs.Prelude.{◌≡◌, true, ℕ, ◌+◌, ◌*◌, ◌%◌, ◌≤◌, ◌<◌, length, take, drop, replicate, get_or, slice_set, IfOk, Some, None, [], ◌∷◌};
ghost use Rattle.slot_pool.specs.Pools.{free_count, live_count};
ghost use Rattle.slice_desk.specs.Desks.{in_count, is_there, place_of, Frees, Leaves};
ghost use Rattle.slice_desk.specs.Slices.{slice_room, slices_in_picture, IsCodedFor};
ghost use Rattle.slice_desk.specs.inner.Joins.{AreThere};
ghost use Rattle.slice_desk.specs.inner.Keeping.{key};

use crate::done::SliceDone;
use crate::names::DeskName;
use raw_feed::Feed;
use rec_bytes::Memory;
use slot_pool::Pool;
use std::alloc::Global;
use std::marker::Model;
use std::mem;

/// How many frames may be in flight.
pub const FLIGHT: u64 = 4;

/// Places for the slices of four frames. Its value says for each place which slice lies there.
pub struct Shelf<N: Feed, P: DeskName> {
    places: Vec<Option<SliceDone<N, P>>>,
}

impl<N: Feed, P: DeskName> Model for Shelf<N, P> {
    ghost use Rattle.std.specs.Prelude.{ℕ, List, Option};
    ghost use Rattle.slice_desk.specs.inner.Keeping.{keys};

    ghost Value = { List (Option (ℕ × ℕ)) };

    ghost view = { λ s. keys s.places.items };
}

/// The place of a slice.
pub(crate) fn place(frame: u64, index: u32) -> usize
    ensures { result ≡ place_of frame index }
{
    4 * index as usize + (frame % FLIGHT) as usize
}

impl<N: Feed, P: DeskName> Shelf<N, P> {
    /// So many empty places.
    #[tactic(auto, using(crate::proofs::CountLemmas::keys_of_none))]
    pub(crate) fn new(alloc: Global, count: usize) -> Result<Shelf<N, P>, Memory>
        ensures { IfOk result (λ shelf. shelf ≡ replicate count None) }
    {
        let mut places = Vec::with_capacity(alloc, count)?;
        for _ in 0..count {
            places.push_reserved(None);
        }
        Ok(Shelf { places })
    }

    /// Whether a slice lies at the place.
    pub(crate) fn has(&self, at: usize) -> bool
        requires { at < length self.now }
        ensures { result ≡ is_there (get_or self.now at None) }
    {
        self.places[at].is_some()
    }

    /// Writes the bytes of a slice that is in to a place, and answers how many they are. Those behind may have changed.
    pub(crate) fn put_slice(&self, frame: u64, index: u32, out: &mut [u8], at: usize) -> usize
        requires long { place_of frame index < length self.now }
        requires there { get_or self.now (place_of frame index) None ≡ Some (frame, index) }
        requires room { at + slice_room P.config (index % slices_in_picture P.config) ≤ length out.old }
        ensures coded { IsCodedFor N.bytes P.config frame index (take result (drop at out.new)) }
        ensures before { take at out.new ≡ take at out.old }
        ensures most { result ≤ slice_room P.config (index % slices_in_picture P.config) }
    {
        match &self.places[place(frame, index)] {
            Some(done) => done.put(out, at),
            None => unreachable!(),
        }
    }

    /// Lays a slice at an empty place.
    pub(crate) fn put_in(&mut self, at: usize, done: SliceDone<N, P>)
        requires { (at < length self.old) × (get_or self.old at None ≡ None) }
        ensures { self.new ≡ slice_set self.old at (Some (done.frame, done.index)) }
    {
        let before = mem::replace(&mut self.places[at], Some(done));
        match before {
            None => (),
            Some(_) => unreachable!(),
        }
    }

    /// Takes what lies at a place.
    fn take_out(&mut self, at: usize) -> Option<SliceDone<N, P>>
        requires { at < length self.old }
        ensures taken { key result ≡ get_or self.old at None }
        ensures left { self.new ≡ slice_set self.old at None }
    {
        mem::replace(&mut self.places[at], None)
    }

    /// Gives the slots of a frame's slices back, all of which are in.
    pub(crate) fn empty_frame(&mut self, pool: &mut Pool<P>, frame: u64, slices: u32)
        requires there { AreThere self.old frame slices }
        ensures left { Leaves self.old self.new frame slices }
        ensures long { length self.new ≡ length self.old }
        ensures slots { Frees pool.old pool.new slices }
    {
        for index in 0..slices {
            match self.take_out(place(frame, index)) {
                Some(done) => pool.give(done.into_slot()),
                None => unreachable!(),
            }
        }
    }

    /// Gives the slots of all slices back.
    pub(crate) fn empty(self, pool: &mut Pool<P>)
        ensures { Frees pool.old pool.new (in_count self) }
    {
        let Shelf { places } = self;
        let mut places = places;
        for _ in 0..places.len() {
            match places.pop() {
                Some(kept) => give_back(pool, kept),
                None => unreachable!(),
            }
        }
        places.destroy_empty();
    }
}

/// Gives the slot of a slice back, if there is one.
fn give_back<N: Feed, P: DeskName>(pool: &mut Pool<P>, kept: Option<SliceDone<N, P>>)
    ensures { Frees pool.old pool.new (in_count (kept ∷ [])) }
{
    match kept {
        Some(done) => pool.give(done.into_slot()),
        None => (),
    }
}
