ghost use Rattle.std.specs.Prelude.{◌≤◌, ◌<◌, ◌≡◌, ℕ, List, Option, length, IfOk};
ghost use Rattle.rec_bytes.specs.Faults.{HasCause};
ghost use Rattle.raw_feed.specs.Written.{Takes, Writes};

use rec_bytes::Failed;

/// What takes the bytes that a program writes.
pub trait Sink {
    /// The bytes written so far, where the sink tells them.
    ghost written: { Self → Option (List ℕ) };

    /// How often it has failed.
    ghost fault_count: { Self → ℕ };

    /// Takes bytes from the front of a piece, and answers how many.
    fn write(&mut self, bytes: &[u8]) -> Result<usize, Failed>
        ensures most { IfOk result (λ n. n ≤ length bytes.now) }
        ensures some { IfOk result (λ n. 0 < length bytes.now → 0 < n) }
        ensures written { Takes (written self.old) (written self.new) result bytes.now }
        ensures cause { HasCause (fault_count self.old) (fault_count self.new) result };

    /// How often it has failed. The count stands still at its last value.
    fn faults(&self) -> u64
        ensures { result ≡ fault_count self.now };
}

/// Writes a whole piece, or where the sink fails a front of it.
pub fn put_all<W: Sink>(out: &mut W, bytes: &[u8]) -> Result<(), Failed>
    ensures written { Writes (W.written out.old) (W.written out.new) result bytes.now }
    ensures cause { HasCause (W.fault_count out.old) (W.fault_count out.new) result }
{
    let mut at = 0;
    while at < bytes.len() {
        let taken = out.write(&bytes[at..])?;
        at += taken;
    }
    Ok(())
}

#[cfg(test)]
mod tests {
    use super::*;
    use crate::memory_sink::MemorySink;
    use std::test::Fail;

    /// A sink that takes one byte at a time.
    #[derive(Drop)]
    struct OneByOne<'a> {
        inner: MemorySink<'a>,
    }

    impl<'a> Sink for OneByOne<'a> {
        ghost written = { λ s. ⟦<MemorySink<'a> as Sink>⟧.written s.inner };

        ghost fault_count = { λ s. ⟦<MemorySink<'a> as Sink>⟧.fault_count s.inner };

        fn write(&mut self, bytes: &[u8]) -> Result<usize, Failed> {
            self.inner.write(&bytes[..bytes.len().min(1)])
        }

        fn faults(&self) -> u64 {
            self.inner.faults()
        }
    }

    #[test]
    fn a_piece_is_written_up_to_the_first_failure(rt: HostRuntime) -> Result<(), Fail> {
        let cases: [(usize, &[u64], Result<(), Failed>, &[u8], u64); 3] = [
            (9, &[], Ok(()), b"headunit", 0),
            (6, &[], Err(Failed), b"headun", 1),
            (9, &[5], Err(Failed), b"headu", 1),
        ];
        for (room, fail, done, kept, faults) in cases {
            let inner = MemorySink::new(rt.alloc(), room, fail)?;
            let mut sink = OneByOne { inner };
            assert_eq!(rt; put_all(&mut sink, b"head"), Ok(()));
            assert_eq!(rt; put_all(&mut sink, b""), Ok(()));
            assert_eq!(rt; put_all(&mut sink, b"unit"), done, "{kept:?}");
            assert_eq!(rt; sink.inner.bytes(), kept);
            assert_eq!(rt; sink.faults(), faults, "{kept:?}");
        }
        Ok(())
    }
}
