ghost use Rattle.std.specs.Prelude.{◌≡◌, ◌≤◌, ◌+◌, ◌-◌, ◌^◌, ◌==◌, length, take, drop, min, Some, [], IfOk};
ghost use Rattle.raw_feed.specs.Told.{Told, Reads, told_from};
ghost use Rattle.std.specs.Result.{is_err};
ghost use Rattle.std.specs.List.{list_any};
ghost use Rattle.rec_bytes.specs.Faults.{HasCause};
ghost use Rattle.raw_feed.specs.laws.ToldLaws.{IsOf-whole};

use crate::source::{Feed, Source};
use rec_bytes::Failed;
use std::marker::PhantomData;

/// A source over bytes in memory, which tells them. Its calls of `read` are numbered from 0, and exactly those whose
/// numbers are listed fail.
#[derive(Drop)]
pub struct MemorySource<'a, N: Feed> {
    /// The feed's bytes.
    pub bytes: &'a [u8],
    /// How many of them were given.
    pub at: usize,
    /// The calls that fail.
    pub fail: &'a [u64],
    /// The number of the next call, which stands still at its last value.
    pub calls: u64,
    /// How often a call has failed, which stands still at its last value.
    pub faults: u64,
    of: PhantomData<N>,
    ghost named: { N.bytes ≡ Some bytes.now },
    ghost within: { at ≤ length bytes.now },
}

impl<'a, N: Feed> MemorySource<'a, N> {
    /// A source that has given nothing yet, over the bytes of its feed.
    pub fn new(bytes: &'a [u8], fail: &'a [u64]) -> Self
        requires { N.bytes ≡ Some bytes.now }
        ensures told { ⟦<MemorySource<'a, N> as Source<N>>⟧.told result ≡ Some (record { given = []; left = bytes.now }) }
        ensures fresh { (result.faults ≡ 0) × (result.calls ≡ 0) × (result.fail.now ≡ fail.now) }
    {
        MemorySource {
            bytes,
            at: 0,
            fail,
            calls: 0,
            faults: 0,
            of: PhantomData,
        }
    }
}

impl<'a, N: Feed> Source<N> for MemorySource<'a, N> {
    ghost told = { λ s. told_from s.at s.bytes.now };

    ghost fault_count = { λ s. s.faults };

    ghost whole = { λ s. IsOf-whole s.at s.bytes.now s.named };

    fn read(&mut self, out: &mut [u8]) -> Result<usize, Failed>
        ensures most { IfOk result (λ n. n ≤ length out.old) }
        ensures read { Reads (told_from self.old.at self.old.bytes.now) (told_from self.new.at self.new.bytes.now) result out.new }
        ensures cause { HasCause self.old.faults self.new.faults result }

        ensures refused { is_err result ≡ list_any (λ n. n == self.old.calls) self.old.fail.now }
        ensures counted { (self.new.calls ≡ min (self.old.calls + 1) (2 ^ 64 - 1)) × (self.new.fail.now ≡ self.old.fail.now) }
    {
        let call = self.calls;
        self.calls = call.saturating_add(1);
        if self.fail.contains(&call) {
            self.faults = self.faults.saturating_add(1);
            return Err(Failed);
        }
        let rest = &self.bytes[self.at..];
        let count = rest.len().min(out.len());
        out[..count].copy_from_slice(&rest[..count]);
        self.at += count;
        Ok(count)
    }

    fn faults(&self) -> u64 {
        self.faults
    }
}
