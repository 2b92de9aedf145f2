//! A slot: the bytes of one place of a block, which have one owner.

ghost use Rattle.std.specs.Prelude.{◌≡◌, ◌≤◌, length};
ghost use Rattle.std.specs.Borrow.{sem};
ghost use denote.RawPtr.{Ptr};
ghost use Rattle.byteorder.specs.Endian.{big_number};
ghost use Rattle.slot_pool.specs.Slots.{IsByteOf};

use crate::bytes::{Address, Bytes};
use byteorder::{BigEndian, ByteOrder};
use std::marker::{Brand, Model, PhantomData};

/// Names one block, in the types of its pool and of its slots.
pub trait PoolName {
    ghost use Rattle.slot_pool.specs.Slots.{BlockName};

    ghost block: { BlockName };
}

impl PoolName for Brand {
    ghost use Rattle.slot_pool.specs.Slots.{no_block};

    ghost block = { no_block };
}

/// A live slot of the block that P names. It moves between threads with its bytes, and is spent by `Pool::give`.
pub struct Slot<P: PoolName> {
    pub(crate) place: usize,
    pub(crate) size: usize,
    pub(crate) at: Address,
    pub(crate) bytes: Bytes,
    pub(crate) of: PhantomData<P>,
}

impl<P: PoolName> Model for Slot<P> {
    ghost use Rattle.slot_pool.specs.Slots.{SlotSeen};
    ghost use Rattle.slot_pool.specs.inner.Keeping.{IsSlotOf};

    ghost Value = { SlotSeen };

    ghost view = { λ s. record { place = s.place; bytes = s.bytes.written } };

    ghost invariant = { λ s. IsSlotOf P.block s.place s.size s.at.ptr s.bytes };
}

impl<P: PoolName> Slot<P> {
    ghost use Rattle.slot_pool.specs.Lends.{lends_bytes};

    /// The slot's bytes.
    pub fn bytes(&self) -> &[u8]
        ensures bytes { result.now ≡ self.now.bytes }
        ensures size { length result.now ≡ P.block.size }
        ensures roomy { 8 ≤ P.block.size }
    {
        self.bytes.slice(self.at, self.size)
    }

    /// The slot's bytes, to be written.
    pub fn bytes_mut(&mut self) -> &mut [u8]
        ensures* writes_back { sem 𝓛 (lends_bytes P.row P.PoolName self.entry result) }
        ensures bytes { result.now ≡ self.old.bytes }
        ensures size { length result.now ≡ P.block.size }
        ensures roomy { 8 ≤ P.block.size }
    {
        self.bytes.slice_mut(self.at, self.size)
    }

    /// The place that the first eight bytes say.
    pub(crate) fn link(&self) -> u64
        ensures { result ≡ big_number 8 self.now.bytes }
    {
        BigEndian::read_u64(self.bytes())
    }

    /// Makes the first eight bytes say a place.
    pub(crate) fn set_link(&mut self, next: u64)
        ensures place { self.new.place ≡ self.old.place }
        ensures link { big_number 8 self.new.bytes ≡ next }
    {
        BigEndian::write_u64(self.bytes_mut(), next)
    }
}

/// Shows that two slots that are live share no byte, whichever pools they are of. It does nothing when it runs.
pub fn slots_keep_apart<P: PoolName, Q: PoolName>(first: &mut Slot<P>, second: &mut Slot<Q>)
    ensures apart { (byte : Ptr) → IsByteOf P.block first.old.place byte → IsByteOf Q.block second.old.place byte → ⊥ }
    ensures same { (first.new ≡ first.old) × (second.new ≡ second.old) }
{
    Bytes::keep_apart(&mut first.bytes, &mut second.bytes)
}
