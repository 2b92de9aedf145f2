//! Who owns which bytes.

ghost use Rattle.std.specs.Prelude.{◌≡◌, ℕ, ◌+◌, ◌<◌, List, [], ◌∷◌, ◌++◌, length};
ghost use Rattle.std.specs.Borrow.{sem};
ghost use denote.RawPtr.{Ptr, InBlock, ◌+ₚ◌};
ghost use Rattle.slot_pool.specs.inner.Owned.{bytes_own, bytes_lent, AreApart};

use std::marker::{Model, Send, Sync};
use std::slice;

/// Where bytes begin. It owns nothing.
#[derive(Clone, Copy)]
pub struct Address {
    pub(crate) ptr: *mut u8,
}

unsafe impl Send for Address {}

unsafe impl Sync for Address {}

impl Address {
    /// The address so many bytes on.
    pub(crate) fn past(self, n: usize) -> Address
        requires { InBlock self.ptr }
        ensures { result.ptr ≡ self.ptr +ₚ n }
    {
        Address {
            ptr: unsafe { self.ptr.add(n) },
        }
    }
}

/// The owner of the bytes at an address that were written, and of the room behind them. It takes no space.
pub struct Bytes {
    ghost at: { Ptr },
    ghost written: { List ℕ },
    ghost room: { ℕ },
}

impl Model for Bytes {
    ghost also_owns = { λ b. bytes_own b.at b.written b.room };

    ghost also_shares = { λ b _ κ. bytes_lent b.at b.written b.room κ };
}

unsafe impl Send for Bytes {}

unsafe impl Sync for Bytes {}

/// The right to free the block of `len` bytes at an address. It takes no space. Where it is let go, the block is never freed.
#[derive(Drop)]
pub struct Allocation {
    ghost at: { Ptr },
    ghost len: { ℕ },
}

impl Model for Allocation {
    ghost use Rattle.slot_pool.specs.inner.Owned.{allocation_owns};

    ghost also_owns = { λ a. allocation_owns a.at a.len };
}

unsafe impl Send for Allocation {}

impl Bytes {
    ghost use Rattle.slot_pool.specs.inner.Lends.{lends_all};

    /// Writes a byte behind those that were written.
    pub(crate) fn push(&mut self, at: Address, len: usize, byte: u8)
        requires { (at.ptr ≡ self.old.at) × (len ≡ length self.old.written) × (0 < self.old.room) }
        ensures { (self.new.at ≡ self.old.at) × (self.new.written ≡ self.old.written ++ (byte ∷ [])) × (self.new.room + 1 ≡ self.old.room) }
    {
        unsafe { at.ptr.add(len).write(byte) }
    }

    /// The bytes that were written.
    pub(crate) fn slice(&self, at: Address, len: usize) -> &[u8]
        requires { (at.ptr ≡ self.now.at) × (len ≡ length self.now.written) }
        ensures { result.now ≡ self.now.written }
    {
        unsafe { slice::from_raw_parts(at.ptr, len) }
    }

    /// The bytes that were written, to be written again.
    pub(crate) fn slice_mut(&mut self, at: Address, len: usize) -> &mut [u8]
        requires { (at.ptr ≡ self.old.at) × (len ≡ length self.old.written) }
        ensures* writes_back { sem 𝓛 (lends_all self.entry result) }
        ensures value { result.now ≡ self.old.written }
    {
        unsafe { slice::from_raw_parts_mut(at.ptr, len) }
    }

    /// Shows that no byte has two owners. It does nothing when it runs.
    pub(crate) fn keep_apart(first: &mut Bytes, second: &mut Bytes)
        requires { (0 < length first.old.written) × (0 < length second.old.written) }
        ensures { AreApart first.old.at first.old.written second.old.at second.old.written × (first.new ≡ first.old) × (second.new ≡ second.old) }
    {}
}
