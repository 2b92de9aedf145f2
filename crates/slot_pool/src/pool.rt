//! The pool of a block's slots.

ghost use Rattle.std.specs.Prelude.{◌≡◌, ◌↔◌, ◌+◌, true, Some, None, replicate, get_or, slice_set, IfSome, IfErr, IsOk};
ghost use Rattle.slot_pool.specs.Pools.{free_count, live_count, Takes, Gives};
ghost use Rattle.slot_pool.specs.inner.Keeping.{AreSlotsOf};
ghost use Rattle.slot_pool.specs.inner.Links.{LinksTo};
ghost use Rattle.slot_pool.specs.inner.Steps.{IsFree};

use crate::block::{Block, Parts};
use crate::bytes::{Address, Allocation};
use crate::free_slots::FreeSlots;
use crate::heap::free;
use crate::slot::{PoolName, Slot};
use std::alloc::Global;
use std::marker::{Model, PhantomData};

/// The pool of the slots of the block that P names. Its value says for each slot whether it is free.
pub struct Pool<P: PoolName> {
    at: Address,
    slots: u32,
    size: usize,
    free: u32,
    first: u64,
    owner: FreeSlots,
    right: Allocation,
    alloc: Global,
    of: PhantomData<P>,
}

impl<P: PoolName> Model for Pool<P> {
    ghost use Rattle.std.specs.Prelude.{List, Bool};
    ghost use Rattle.slot_pool.specs.inner.Keeping.{are_free, IsPool};

    ghost Value = { List Bool };

    ghost view = { λ p. are_free p.owner.slots };

    ghost invariant = { λ p. IsPool P.block p.at.ptr p.slots p.size p.free p.first p.owner p.right };
}

impl<P: PoolName> Pool<P> {
    /// The pool of a block, of which every slot is free.
    pub fn new(block: Block) -> Pool<P>
        requires named { block ≡ P.block }
        ensures free { result ≡ replicate P.block.slots true }
    {
        let Parts {
            at,
            slots,
            size,
            bytes,
            right,
            alloc,
        } = block.into_parts();
        let mut owner = FreeSlots::cut(bytes, slots as usize, size);
        let mut first = 0;
        for place in 0..slots {
            link_in::<P>(&mut owner, at, size, place as usize, first);
            first = u64::from(place);
        }
        Pool {
            at,
            slots,
            size,
            free: slots,
            first,
            owner,
            right,
            alloc,
            of: PhantomData,
        }
    }

    /// How many slots are free.
    pub fn free(&self) -> u32
        ensures free { result ≡ free_count self.now }
        ensures live { result + live_count self.now ≡ P.block.slots }
    {
        self.free
    }

    /// Takes a slot that is free. What its bytes are isn't said.
    pub fn take(&mut self) -> Option<Slot<P>>
        ensures none { result ≡ None ↔ free_count self.old ≡ 0 }
        ensures taken { IfSome result (λ slot. Takes self.old slot.place self.new) }
        ensures unchanged { result ≡ None → self.new ≡ self.old }
    {
        if self.free == 0 {
            return None;
        }
        let slot = slot_out::<P>(&mut self.owner, self.at, self.size, self.first as usize);
        let next = slot.link();
        self.first = next;
        self.free -= 1;
        Some(slot)
    }

    /// Gives a slot back.
    pub fn give(&mut self, slot: Slot<P>)
        ensures given { Gives self.old slot.place self.new }
    {
        let mut slot = slot;
        slot.set_link(self.first);
        self.first = slot.place as u64;
        slot_in(&mut self.owner, slot);
        self.free += 1;
    }

    /// Frees the block, or hands the pool back where a slot is live.
    pub fn close(self) -> Result<(), Pool<P>>
        ensures accepted { IsOk result ↔ live_count self ≡ 0 }
        ensures refused { IfErr result (λ pool. pool ≡ self) }
    {
        if self.free < self.slots {
            return Err(self);
        }
        let Pool {
            at,
            slots,
            size,
            free: _,
            first: _,
            owner,
            right,
            alloc,
            of: _,
        } = self;
        free(&alloc, at, slots as usize * size, owner.join(), right);
        Ok(())
    }

    /// Gives the pool up and never frees its block, so that slots that are live stay good.
    pub fn leave(self) {
        let Pool {
            at: _,
            slots: _,
            size: _,
            free: _,
            first: _,
            owner: _,
            right: _,
            alloc: _,
            of: _,
        } = self;
    }
}

/// Takes the slot at a place out of the free ones.
fn slot_out<P: PoolName>(owner: &mut FreeSlots, at: Address, size: usize, place: usize) -> Slot<P>
    requires block { AreSlotsOf P.block owner.old × (at.ptr ≡ P.block.at) × (size ≡ P.block.size) }
    requires free { IsFree owner.old.slots place }
    ensures slot { (result.place ≡ place) × (get_or owner.old.slots place None ≡ Some result.bytes) }
    ensures owned { AreSlotsOf P.block owner.new }
    ensures slots { owner.new.slots ≡ slice_set owner.old.slots place None }
{
    let bytes = owner.take_out(place);
    Slot {
        place,
        size,
        at: at.past(place * size),
        bytes,
        of: PhantomData,
    }
}

/// Puts a slot back among the free ones.
fn slot_in<P: PoolName>(owner: &mut FreeSlots, slot: Slot<P>)
    requires block { AreSlotsOf P.block owner.old }
    ensures was { get_or owner.old.slots slot.place None ≡ None }
    ensures owned { AreSlotsOf P.block owner.new }
    ensures slots { owner.new.slots ≡ slice_set owner.old.slots slot.place (Some slot.bytes) }
{
    let Slot {
        place,
        size: _,
        at: _,
        bytes,
        of: _,
    } = slot;
    owner.put_in(place, bytes)
}

/// Makes the free slot at a place say which one is next.
fn link_in<P: PoolName>(owner: &mut FreeSlots, at: Address, size: usize, place: usize, next: u64)
    requires block { AreSlotsOf P.block owner.old × (at.ptr ≡ P.block.at) × (size ≡ P.block.size) }
    requires free { IsFree owner.old.slots place }
    ensures owned { AreSlotsOf P.block owner.new }
    ensures linked { LinksTo owner.old.slots owner.new.slots place next }
{
    let mut slot = slot_out::<P>(owner, at, size, place);
    slot.set_link(next);
    slot_in(owner, slot)
}
