ghost use Rattle.std.specs.Prelude.{◌≡◌, length, replicate};

use crate::{Block, Pool, PoolName, Slot};
use rec_bytes::Memory;
use std::marker::{Brand, Send, Sync};
use std::thread::{Threads, join_mut};

// Writes one byte all over a slot.
fn fill<P: PoolName>(slot: &mut Slot<P>, byte: u8)
    ensures place { slot.new.place ≡ slot.old.place }
    ensures bytes { slot.new.bytes ≡ replicate (length slot.old.bytes) byte }
{
    slot.bytes_mut().fill(byte)
}

// Another thread does, and the caller knows the bytes.
fn fill_elsewhere<P: PoolName + Send + Sync, R: Threads + Sync>(
    rt: &R,
    slot: &mut Slot<P>,
    byte: u8,
)
    ensures place { slot.new.place ≡ slot.old.place }
    ensures bytes { slot.new.bytes ≡ replicate (length slot.old.bytes) byte }
{
    join_mut(rt, &mut || fill(slot, byte), &mut || ());
}

fn has_only<P: PoolName>(slot: &Slot<P>, byte: u8) -> bool {
    slot.bytes().iter().all(|b| *b == byte)
}

// Gives the slots back, and says whether the pool closes.
fn end<P: PoolName>(pool: Pool<P>, first: Slot<P>, second: Slot<P>, third: Slot<P>) -> bool {
    let mut pool = pool;
    pool.give(second);
    pool.give(first);
    pool.give(third);
    match pool.close() {
        Ok(()) => true,
        Err(pool) => {
            pool.leave();
            false
        }
    }
}

// What three slots hold, and then one of them that was given back and taken again.
fn use_three<P: PoolName>(block: Block) -> Option<bool>
    requires { block ≡ P.block }
{
    let mut pool = Pool::<P>::new(block);
    let Some(mut first) = pool.take() else {
        pool.leave();
        return None;
    };
    let Some(mut second) = pool.take() else {
        pool.give(first);
        pool.leave();
        return None;
    };
    let Some(mut third) = pool.take() else {
        pool.give(first);
        pool.give(second);
        pool.leave();
        return None;
    };
    fill(&mut first, 0);
    fill(&mut second, 1);
    fill(&mut third, 2);
    let apart = has_only(&first, 0) && has_only(&second, 1) && has_only(&third, 2);
    pool.give(second);
    let Some(mut again) = pool.take() else {
        pool.give(first);
        pool.give(third);
        pool.leave();
        return None;
    };
    fill(&mut again, 9);
    let kept = has_only(&first, 0) && has_only(&third, 2) && has_only(&again, 9);
    let none = pool.free() == 0;
    Some(end(pool, first, again, third) && apart && kept && none)
}

// What a slot holds that another thread wrote, and how many slots are free before and behind.
fn use_elsewhere<P: PoolName + Send + Sync, R: Threads + Sync>(
    rt: &R,
    block: Block,
) -> Option<(bool, u32, u32)>
    requires { block ≡ P.block }
{
    let mut pool = Pool::<P>::new(block);
    let before = pool.free();
    let Some(mut slot) = pool.take() else {
        pool.leave();
        return None;
    };
    fill_elsewhere(rt, &mut slot, 7);
    let kept = has_only(&slot, 7);
    pool.give(slot);
    let behind = pool.free();
    match pool.close() {
        Ok(()) => Some((kept, before, behind)),
        Err(pool) => {
            pool.leave();
            None
        }
    }
}

// Takes slots until there is none, and gives them all back in the order in which they were taken: how many there were, and
// whether the pool then closes.
fn use_all<P: PoolName>(block: Block) -> (u32, bool)
    requires { block ≡ P.block }
{
    let mut pool = Pool::<P>::new(block);
    let slots = pool.free();
    let count = take_all(&mut pool, slots);
    match pool.close() {
        Ok(()) => (count, true),
        Err(pool) => {
            pool.leave();
            (count, false)
        }
    }
}

fn take_all<P: PoolName>(pool: &mut Pool<P>, most: u32) -> u32 {
    if most == 0 {
        return 0;
    }
    let Some(mut slot) = pool.take() else {
        return 0;
    };
    fill(&mut slot, 0xff);
    let others = take_all(pool, most - 1);
    let kept = has_only(&slot, 0xff);
    pool.give(slot);
    if kept { others.saturating_add(1) } else { 0 }
}

// Takes the one slot of a pool, tries for another and tries to close, gives it back and closes: what each of the four said.
fn use_one<P: PoolName>(block: Block) -> Option<(bool, bool, bool, bool)>
    requires named { block ≡ P.block }
    requires one { block.slots ≡ 1 }
{
    let mut pool = Pool::<P>::new(block);
    let Some(slot) = pool.take() else {
        pool.leave();
        return None;
    };
    let second = match pool.take() {
        Some(other) => {
            pool.give(other);
            true
        }
        None => false,
    };
    let mut pool = match pool.close() {
        Ok(()) => unreachable!(),
        Err(pool) => pool,
    };
    pool.give(slot);
    let again = match pool.take() {
        Some(slot) => {
            pool.give(slot);
            true
        }
        None => false,
    };
    match pool.close() {
        Ok(()) => Some((true, second, again, true)),
        Err(pool) => {
            pool.leave();
            Some((true, second, again, false))
        }
    }
}

#[test]
fn three_slots_keep_their_bytes(rt: HostRuntime) {
    let block = Block::new(rt.alloc(), 3, 8).expect(&rt, "room for 24 bytes");
    assert_eq!(rt; use_three::<Brand>(block), Some(true));
}

#[test]
fn a_slot_brings_its_bytes_from_another_thread(rt: HostRuntime) {
    let block = Block::new(rt.alloc(), 2, 100).expect(&rt, "room for 200 bytes");
    assert_eq!(rt;
        use_elsewhere::<Brand, HostRuntime>(&rt, block),
        Some((true, 2, 2))
    );
}

#[test]
fn a_pool_gives_out_all_its_slots_and_no_more(rt: HostRuntime) {
    let sizes: [(u32, u32); 4] = [(1, 8), (2, 9), (7, 4104), (100, 13)];
    for (slots, size) in sizes {
        let block = Block::new(rt.alloc(), slots, size).expect(&rt, "room for the slots");
        assert_eq!(rt;
            use_all::<Brand>(block),
            (slots, true),
            "{slots} of {size} bytes"
        );
    }
}

#[test]
fn a_pool_closes_once_its_slot_is_back(rt: HostRuntime) {
    let block = Block::new(rt.alloc(), 1, 8).expect(&rt, "room for 8 bytes");
    assert_eq!(rt; use_one::<Brand>(block), Some((true, false, true, true)));
}

// A block takes memory once: it is refused for its length alone (the first row), or by the heap. The next one is there.
#[test]
fn a_block_too_large_is_refused(rt: HostRuntime) {
    let sizes: [(u32, u32); 3] = [
        (u32::MAX, u32::MAX),
        (0x8000_0000, 0xffff_ffff),
        (0x4000_0000, 0x4000_0000),
    ];
    for (slots, size) in sizes {
        assert!(rt;
            is_refused(Block::new(rt.alloc(), slots, size)),
            "{slots} of {size} bytes"
        );
        assert!(rt;
            !is_refused(Block::new(rt.alloc(), 1, 8)),
            "1 of 8 bytes after {slots} of {size}"
        );
    }
}

fn is_refused(block: Result<Block, Memory>) -> bool {
    match block {
        Ok(_block) => false,
        Err(Memory) => true,
    }
}
