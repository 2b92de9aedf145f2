//! A pool of equal slots in one block of memory, by raw pointers. Once the block is there, nothing takes memory.
//!
//! The contract that the crates above rest on is that of `Pool`. Its value says for each slot whether it is free: `take` gives a
//! free slot exactly where there is one (`Takes` of `specs/Pools.antt`), `give` takes it back (`Gives`), and the pool closes
//! exactly where no slot is out. A slot's bytes are part of its own value, so they are those that its owner wrote last,
//! on whichever thread. Slots that are out share no byte, whichever pools they are of (`slots_keep_apart`).
//!
//! Terms: a *block* is cut into *slots* of one size, and a slot's *place* counts them from 0. A slot that was taken and isn't
//! back is *live*, any other is *free*. The free slots are a list: the first eight bytes of each say the place of the next.
//!
//! Not promised: which free slot is taken, what its bytes are then, and that memory is given back at last.
#![tactic(auto)]

mod block;
mod bytes;
mod free_slots;
mod heap;
mod pool;
mod slot;
#[cfg(test)]
mod tests;

pub use block::Block;
pub use pool::Pool;
pub use slot::{PoolName, Slot, slots_keep_apart};
