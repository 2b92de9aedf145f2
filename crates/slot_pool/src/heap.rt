//! Blocks of the heap.

ghost use Rattle.std.specs.Prelude.{◌≡◌, ◌+◌, ◌^◌, ◌<◌, length, IfOk};
ghost use Rattle.slot_pool.specs.inner.Heap.{IsNew, IsRightTo};

use crate::bytes::{Address, Allocation, Bytes};
use std::alloc::{AllocError, Allocator, Global};

/// Takes a block of so many bytes.
pub(crate) fn allocate(
    alloc: &Global,
    len: usize,
) -> Result<(Address, Bytes, Allocation), AllocError>
    requires { len < 2 ^ 63 }
    ensures { IfOk result (λ r. IsNew len r.0.ptr r.1 r.2) }
{
    match alloc.allocate(len, 1) {
        Ok(ptr) => Ok((Address { ptr }, Bytes {}, Allocation {})),
        Err(error) => Err(error),
    }
}

/// Gives a block back.
pub(crate) fn free(alloc: &Global, at: Address, len: usize, bytes: Bytes, right: Allocation)
    requires { (bytes.at ≡ at.ptr) × (length bytes.written + bytes.room ≡ len) × IsRightTo at.ptr len right }
{
    let Bytes {} = bytes;
    let Allocation {} = right;
    unsafe {
        alloc.deallocate(at.ptr, len, 1);
    }
}
