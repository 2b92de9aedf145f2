//! A block of memory, which is taken once.

ghost use Rattle.std.specs.Prelude.{◌≡◌, ◌≤◌, [], length, IfOk};
ghost use Rattle.slot_pool.specs.inner.Keeping.{IsBlock};

use crate::bytes::{Address, Allocation, Bytes};
use crate::heap::{allocate, free};
use rec_bytes::Memory;
use std::alloc::Global;
use std::marker::Model;

/// Memory for a number of slots of one size. A block that is dropped is freed.
pub struct Block {
    at: Address,
    slots: u32,
    size: usize,
    bytes: Bytes,
    right: Allocation,
    alloc: Global,
}

impl Model for Block {
    ghost use Rattle.slot_pool.specs.Slots.{BlockName};
    ghost use Rattle.slot_pool.specs.inner.Keeping.{IsBlock};

    ghost Value = { BlockName };

    ghost view = { λ b. record { at = b.at.ptr; slots = b.slots; size = b.size } };

    ghost invariant = { λ b. IsBlock b.at.ptr b.slots b.size b.bytes b.right };
}

impl Drop for Block {
    fn drop(self) {
        let Parts {
            at,
            slots,
            size,
            bytes,
            right,
            alloc,
        } = self.into_parts();
        free(&alloc, at, slots as usize * size, bytes, right)
    }
}

/// What a block is made of.
pub(crate) struct Parts {
    pub(crate) at: Address,
    pub(crate) slots: u32,
    pub(crate) size: usize,
    pub(crate) bytes: Bytes,
    pub(crate) right: Allocation,
    pub(crate) alloc: Global,
}

impl Block {
    /// Takes the memory for so many slots of so many bytes.
    pub fn new(alloc: Global, slots: u32, size: u32) -> Result<Block, Memory>
        requires some { 1 ≤ slots }
        requires roomy { 8 ≤ size }
        ensures { IfOk result (λ block. (block.slots ≡ slots) × (block.size ≡ size)) }
    {
        let size = size as usize;
        let len = slots as usize * size;
        if len > isize::MAX as usize {
            return Err(Memory);
        }
        let (at, bytes, right) = allocate(&alloc, len)?;
        let bytes = fill(at, bytes, len);
        Ok(Block {
            at,
            slots,
            size,
            bytes,
            right,
            alloc,
        })
    }

    pub(crate) fn into_parts(self) -> Parts
        ensures named { self ≡ record { at = result.at.ptr; slots = result.slots; size = result.size } }
        ensures kept { IsBlock result.at.ptr result.slots result.size result.bytes result.right }
    {
        let Block {
            at,
            slots,
            size,
            bytes,
            right,
            alloc,
        } = self;
        Parts {
            at,
            slots,
            size,
            bytes,
            right,
            alloc,
        }
    }
}

/// Writes the byte 0 all over a new block.
fn fill(at: Address, bytes: Bytes, len: usize) -> Bytes
    requires { (at.ptr ≡ bytes.at) × (bytes.written ≡ []) × (bytes.room ≡ len) }
    ensures { (result.at ≡ bytes.at) × (length result.written ≡ len) × (result.room ≡ 0) }
{
    let mut bytes = bytes;
    for written in 0..len {
        bytes.push(at, written, 0);
    }
    bytes
}
