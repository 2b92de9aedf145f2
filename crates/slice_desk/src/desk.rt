//! Frames in flight.

ghost use Rattle.std.specs.Prelude.{◌≡◌, ◌≢◌, ◌↔◌, ◌⊎◌, ℕ, ◌+◌, ◌*◌, ◌^◌, ◌≤◌, ◌<◌, true, length, take, IfOk, IfErr, IfSome, IsOk, OnOk, OnErr, None};
ghost use Rattle.rec_bytes.specs.Views.{view};
ghost use Rattle.picture_plane.specs.Pictures.{Planes};
ghost use Rattle.picture_plane.specs.Sizes.{size_of};
ghost use Rattle.frame_syntax.specs.Written.{frame_room_of};
ghost use Rattle.slot_pool.specs.Pools.{free_count, live_count, Takes, Gives};
ghost use Rattle.slice_desk.specs.Desks.{new_desk, with_offer, with_slice, with_free, in_count, AreIn, MayComeIn, HandsOut, TakesFrame};
ghost use Rattle.slice_desk.specs.Frames.{IsFrameFor};
ghost use Rattle.slice_desk.specs.Refusals.{IsFull, IsStranger, IsDouble};
ghost use Rattle.slice_desk.specs.Slices.{slices_of, IsRoomFor};
ghost use Rattle.slice_desk.specs.Told.{IsTold};
ghost use Rattle.slice_desk.specs.inner.Keeping.{ArePictures};

use crate::done::SliceDone;
use crate::frame::put_frame;
use crate::hand_in::HandIn;
use crate::in_flight::InFlight;
use crate::job::Job;
use crate::names::DeskName;
use crate::shelf::{FLIGHT, Shelf, place};
use picture_plane::{
    FrameSize, Picture, SliceSamples, cut_slice, picture_slices, slice_count, slice_name,
};
use raw_feed::Feed;
use rec_bytes::{Config, Memory};
use slot_pool::{Block, Pool, Slot};
use std::alloc::Global;
use std::marker::{Model, PhantomData};

/// The frames in flight, at most four: their pictures, and the slices of them that are in. Slices are handed out in order, and
/// come in in any order.
pub struct Desk<N: Feed, P: DeskName> {
    config: Config,
    slices: u32,
    lowest: u64,
    offered: u64,
    next_frame: u64,
    next_index: u32,
    pictures: Vec<Picture>,
    shelf: Shelf<N, P>,
    sizes: Vec<u16>,
    pool: Pool<P>,
}

impl<N: Feed, P: DeskName> Model for Desk<N, P> {
    ghost use Rattle.std.specs.Prelude.{length};
    ghost use Rattle.rec_bytes.specs.Views.{view as fields_in};
    ghost use Rattle.slice_desk.specs.Desks.{DeskSeen};
    ghost use Rattle.slice_desk.specs.inner.Keeping.{IsDesk};

    ghost Value = { DeskSeen };

    ghost view = { λ d. record { lowest = d.lowest; offered = d.offered; next = (d.next_frame, d.next_index); kept = d.shelf; free = d.pool } };

    ghost invariant = { λ d. IsDesk N.bytes P.config (fields_in d.config) d.slices d.lowest d.offered d.next_frame d.next_index d.pictures.items d.shelf (length d.sizes.items) };
}

impl<N: Feed, P: DeskName> Desk<N, P> {
    /// A desk of no frames, whose slots are those of the block. Where memory is wanted the block is freed.
    pub fn new(alloc: Global, cfg: &Config, block: Block) -> Result<Desk<N, P>, Memory>
        requires config { view cfg.now ≡ P.config }
        requires block { block ≡ P.block }
        requires room { IsRoomFor P.config P.block }
        ensures { IfOk result (λ desk. desk ≡ new_desk (slices_of P.config)) }
    {
        cfg.ranges();
        let slices = slice_count(cfg);
        let pictures = four_pictures(alloc, cfg)?;
        let count = picture_slices(FrameSize::of(cfg), cfg.log2);
        let sizes = vec![in alloc; 0u16; count as usize]?;
        let shelf = Shelf::new(alloc, 4 * slices as usize)?;
        let config = *cfg;
        Ok(Desk {
            config,
            slices,
            lowest: 0,
            offered: 0,
            next_frame: 0,
            next_index: 0,
            pictures,
            shelf,
            sizes,
            pool: Pool::new(block),
        })
    }

    /// Gives the slots of the slices that are in back. True exactly where no other slot is out; then the block is freed.
    pub fn close(self) -> bool
        ensures { result ≡ true ↔ live_count self.free ≡ in_count self.kept }
    {
        let Desk {
            config: _,
            slices: _,
            lowest: _,
            offered: _,
            next_frame: _,
            next_index: _,
            pictures: _,
            shelf,
            sizes: _,
            pool,
        } = self;
        let mut pool = pool;
        shelf.empty(&mut pool);
        match pool.close() {
            Ok(()) => true,
            Err(pool) => {
                pool.leave();
                false
            }
        }
    }

    /// Takes a slot that is free.
    pub fn slot(&mut self) -> Option<Slot<P>>
        ensures none { result ≡ None ↔ free_count self.old.free ≡ 0 }
        ensures taken { IfSome result (λ slot. Takes self.old.free slot.place self.new.free) }
        ensures others { self.new ≡ with_free self.old self.new.free }
        ensures unchanged { result ≡ None → self.new ≡ self.old }
    {
        self.pool.take()
    }

    /// Gives a slot back.
    pub fn give(&mut self, slot: Slot<P>)
        ensures given { Gives self.old.free slot.place self.new.free }
        ensures others { self.new ≡ with_free self.old self.new.free }
    {
        self.pool.give(slot)
    }

    /// The lowest frame in flight, or the next that is offered where none is.
    pub fn lowest(&self) -> u64
        ensures { result ≡ self.now.lowest }
    {
        self.lowest
    }

    /// How many pictures were offered.
    pub fn offered(&self) -> u64
        ensures { result ≡ self.now.offered }
    {
        self.offered
    }

    /// Copies the next picture of the feed, and answers its number.
    pub fn offer(&mut self, picture: &Picture) -> Result<u64, InFlight>
        requires sized { picture.now.size ≡ size_of P.config }
        requires next { (other : Planes) → IsTold N.bytes P.config self.old.offered other → picture.now ≡ other }
        requires numbered { self.old.offered + 1 < 2 ^ 64 }
        ensures accepted { IsOk result ↔ self.old.offered < self.old.lowest + 4 }
        ensures numbered { IfOk result (λ number. number ≡ self.old.offered) }
        ensures offered { OnOk result (self.new ≡ with_offer self.old) }

        ensures refused { IfErr result (IsFull self.old) }
        ensures unchanged { OnErr result (self.new ≡ self.old) }
    {
        if self.offered - self.lowest == FLIGHT {
            return Err(InFlight {
                lowest: self.lowest,
                offered: self.offered,
            });
        }
        let number = self.offered;
        self.pictures[(number % FLIGHT) as usize].copy_from(picture);
        self.offered = number + 1;
        Ok(number)
    }

    /// Hands out the next slice, none where each slice of the frames in flight was handed out or no slot is free.
    pub fn next_job(&mut self) -> Option<Job<N, P>>
        ensures none { result ≡ None ↔ (self.old.next.0 ≡ self.old.offered) ⊎ (free_count self.old.free ≡ 0) }
        ensures handed_out { IfSome result (λ job. HandsOut (slices_of P.config) self.old self.new job.frame job.index job.slot.place) }
        ensures unchanged { result ≡ None → self.new ≡ self.old }
    {
        if self.next_frame == self.offered {
            return None;
        }
        let slot = self.pool.take()?;
        let (frame, index) = (self.next_frame, self.next_index);
        let mut samples = SliceSamples::new();
        let name = slice_name(&self.config, index);
        cut_slice(
            &self.pictures[(frame % FLIGHT) as usize],
            name,
            &mut samples,
        );
        if index + 1 < self.slices {
            self.next_index = index + 1;
        } else {
            self.next_frame = frame + 1;
            self.next_index = 0;
        }
        Some(Job {
            frame,
            index,
            samples,
            slot,
            of: PhantomData,
        })
    }

    /// Takes a slice in, or hands it back.
    pub fn hand_in(&mut self, done: SliceDone<N, P>) -> Result<(), HandIn<N, P>>
        ensures accepted { IsOk result ↔ MayComeIn (slices_of P.config) self.old done.frame done.index }
        ensures taken { OnOk result (self.new ≡ with_slice self.old done.frame done.index) }

        ensures refused { IfErr result (λ fault.
            ((fault ≡ HandIn.Stranger done.frame done.index done) × IsStranger (slices_of P.config) self.old done)
            ⊎ ((fault ≡ HandIn.Double done.frame done.index done) × IsDouble (slices_of P.config) self.old done)) }
        ensures unchanged { OnErr result (self.new ≡ self.old) }
    {
        let (frame, index) = (done.frame(), done.index());
        if frame < self.lowest || frame >= self.offered || index >= self.slices {
            return Err(HandIn::Stranger {
                frame,
                index: u64::from(index),
                done,
            });
        }
        let at = place(frame, index);
        if self.shelf.has(at) {
            return Err(HandIn::Double {
                frame,
                index: u64::from(index),
                done,
            });
        }
        self.shelf.put_in(at, done);
        Ok(())
    }

    /// Whether all slices of the lowest frame are in.
    pub fn complete(&self) -> bool
        ensures { result ≡ true ↔ AreIn self.now.kept self.now.lowest (slices_of P.config) }
    {
        for index in 0..self.slices {
            if !self.shelf.has(place(self.lowest, index)) {
                return false;
            }
        }
        true
    }

    /// Writes the lowest frame and gives its slots back, none where it isn't complete. Answers the frame's bytes; those behind may
    /// have changed.
    pub fn take_frame(&mut self, out: &mut [u8]) -> Option<usize>
        requires room { frame_room_of P.config ≤ length out.old }
        ensures none { result ≡ None ↔ (AreIn self.old.kept self.old.lowest (slices_of P.config) → ⊥) }
        ensures written { IfSome result (λ len. IsFrameFor N.bytes P.config self.old.lowest (take len out.new)) }
        ensures most { IfSome result (λ len. len ≤ frame_room_of P.config) }
        ensures taken { result ≢ None → TakesFrame (slices_of P.config) self.old self.new }

        ensures unchanged { result ≡ None → (self.new ≡ self.old) × (out.new ≡ out.old) }
    {
        if !self.complete() {
            return None;
        }
        let frame = self.lowest;
        let len = put_frame(
            &self.shelf,
            &self.config,
            frame,
            self.sizes.as_mut_slice(),
            out,
        );
        self.shelf.empty_frame(&mut self.pool, frame, self.slices);
        self.lowest = frame + 1;
        if self.next_frame < self.lowest {
            self.next_frame = self.lowest;
            self.next_index = 0;
        }
        Some(len)
    }
}

/// Four pictures of a configuration.
fn four_pictures(alloc: Global, cfg: &Config) -> Result<Vec<Picture>, Memory>
    ensures { IfOk result (λ pictures. ArePictures (view cfg.now) pictures.items) }
{
    let mut pictures = Vec::with_capacity(alloc, FLIGHT as usize)?;
    for _ in 0..FLIGHT {
        pictures.push_reserved(Picture::new(alloc, cfg)?);
    }
    Ok(pictures)
}
