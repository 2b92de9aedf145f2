ghost use Rattle.std.specs.Prelude.{◌≡◌, ◌<◌, ◌≤◌, ◌+◌, ◌-◌, ◌^◌, ◌==◌, ◌||◌, Some, [], IfOk, length, min, nat_lt, vec_len};
ghost use Rattle.std.specs.List.{list_any};
ghost use Rattle.std.specs.Result.{is_err};
ghost use Rattle.std.specs.Vec.{vec_capacity};
ghost use Rattle.rec_bytes.specs.Faults.{HasCause};
ghost use Rattle.raw_feed.specs.Written.{Takes};

use crate::sink::Sink;
use rec_bytes::{Failed, Memory};
use std::alloc::Global;

/// A sink that keeps what it takes, and tells it. Its calls of `write` are numbered from 0, and
/// exactly those fail whose numbers are listed or whose piece passes the room.
#[derive(Drop)]
pub struct MemorySink<'a> {
    /// What was written.
    pub taken: Vec<u8>,
    /// Most bytes that it takes in all.
    pub room: usize,
    /// The calls that fail.
    pub fail: &'a [u64],
    /// The number of the next call, which stands still at its last value.
    pub calls: u64,
    /// How often a call has failed, which stands still at its last value.
    pub faults: u64,
    ghost within: { vec_len taken ≤ room },
    ghost reserved: { room ≤ vec_capacity taken },
}

impl<'a> MemorySink<'a> {
    /// An empty sink with room for so many bytes.
    pub fn new(alloc: Global, room: usize, fail: &'a [u64]) -> Result<Self, Memory>
        ensures empty { IfOk result (λ sink. sink.taken.items ≡ []) }
        ensures fresh { IfOk result (λ sink. (sink.faults ≡ 0) × (sink.calls ≡ 0) × (sink.fail.now ≡ fail.now) × (sink.room ≡ room)) }
    {
        let Ok(taken) = Vec::with_capacity(alloc, room) else {
            return Err(Memory);
        };
        Ok(MemorySink {
            taken,
            room,
            fail,
            calls: 0,
            faults: 0,
        })
    }

    /// What was written.
    pub fn bytes(&self) -> &[u8]
        ensures { result.now ≡ self.now.taken.items }
    {
        self.taken.as_slice()
    }
}

impl<'a> Sink for MemorySink<'a> {
    ghost written = { λ s. Some s.taken.items };

    ghost fault_count = { λ s. s.faults };

    fn write(&mut self, bytes: &[u8]) -> Result<usize, Failed>
        ensures most { IfOk result (λ n. n ≤ length bytes.now) }
        ensures some { IfOk result (λ n. 0 < length bytes.now → 0 < n) }
        ensures written { Takes (Some self.old.taken.items) (Some self.new.taken.items) result bytes.now }
        ensures cause { HasCause self.old.faults self.new.faults result }

        ensures refused { is_err result ≡ (list_any (λ n. n == self.old.calls) self.old.fail.now
            || nat_lt (self.old.room - vec_len self.old.taken) (length bytes.now)) }
        ensures counted { (self.new.calls ≡ min (self.old.calls + 1) (2 ^ 64 - 1)) × (self.new.fail.now ≡ self.old.fail.now) }
    {
        let call = self.calls;
        self.calls = call.saturating_add(1);
        if self.fail.contains(&call)
            || bytes.len() > self.room - self.taken.len()
            || self.taken.extend_from_slice(bytes).is_err()
        {
            self.faults = self.faults.saturating_add(1);
            return Err(Failed);
        }
        Ok(bytes.len())
    }

    fn faults(&self) -> u64 {
        self.faults
    }
}

#[cfg(test)]
mod tests {
    use super::*;
    use std::test::Fail;

    #[test]
    fn a_write_fails_by_its_number_or_for_want_of_room(rt: HostRuntime) -> Result<(), Fail> {
        let mut sink = MemorySink::new(rt.alloc(), 5, &[1])?;
        let cases: [(&[u8], Result<usize, Failed>, u64); 6] = [
            (b"abc", Ok(3), 0),
            (b"d", Err(Failed), 1),
            (b"def", Err(Failed), 2),
            (b"", Ok(0), 2),
            (b"de", Ok(2), 2),
            (b"f", Err(Failed), 3),
        ];
        for (piece, taken, faults) in cases {
            assert_eq!(rt; sink.write(piece), taken, "{piece:?}");
            assert_eq!(rt; sink.faults(), faults, "{piece:?}");
        }
        assert_eq!(rt; sink.bytes(), b"abcde".as_slice());
        Ok(())
    }
}
