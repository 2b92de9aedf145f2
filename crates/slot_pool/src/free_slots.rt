//! The bytes of a block's free slots, owned by place.

ghost use Rattle.std.specs.Prelude.{◌≡◌, ℕ, ◌*◌, List, Option, length};
ghost use denote.RawPtr.{Ptr};
ghost use Rattle.slot_pool.specs.inner.FreeSlots.{free_slots_own, slots_of};

use crate::bytes::Bytes;
use std::marker::{Model, Send};

/// The owner of the bytes of the slots that are free. The place of a live slot is empty. It takes no space.
#[derive(Drop)]
pub struct FreeSlots {
    ghost at: { Ptr },
    ghost size: { ℕ },
    ghost slots: { List (Option (List ℕ)) },
}

impl Model for FreeSlots {
    ghost also_owns = { λ f. free_slots_own f.at f.size f.slots };
}

unsafe impl Send for FreeSlots {}

impl FreeSlots {
    ghost use Rattle.slot_pool.specs.inner.Steps.{IsFree, IsSlotAt, TakesOut, PutsIn, AreFree};

    /// A block that was written whole, as so many slots.
    pub(crate) fn cut(bytes: Bytes, count: usize, size: usize) -> FreeSlots
        requires { length bytes.written ≡ count * size }
        ensures { (result.at ≡ bytes.at) × (result.size ≡ size) × (result.slots ≡ slots_of count size bytes.written) }
    {
        let Bytes {} = bytes;
        FreeSlots {}
    }

    /// The block again, where every slot is free.
    pub(crate) fn join(self) -> Bytes
        requires { AreFree self.slots }
        ensures { (result.at ≡ self.at) × (length result.written ≡ length self.slots * self.size) × (result.room ≡ 0) }
    {
        let FreeSlots {} = self;
        Bytes {}
    }

    /// Takes the slot at a place out.
    pub(crate) fn take_out(&mut self, place: usize) -> Bytes
        requires { IsFree self.old.slots place }
        ensures { TakesOut self.old self.new place result }
    {
        Bytes {}
    }

    /// Puts the bytes of the slot at a place back. The slot was live, since no byte has two owners.
    pub(crate) fn put_in(&mut self, place: usize, bytes: Bytes)
        requires { IsSlotAt self.old place bytes }
        ensures { PutsIn self.old self.new place bytes }
    {
        let Bytes {} = bytes;
    }
}
