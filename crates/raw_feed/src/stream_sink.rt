ghost use Rattle.std.specs.Prelude.{◌≡◌, ◌≤◌, ◌<◌, None, length, IfOk};
ghost use Rattle.std.specs.Io.KnownBytes.{WriteAppends};
ghost use Rattle.rec_bytes.specs.Faults.{HasCause};
ghost use Rattle.raw_feed.specs.Written.{Takes};

use crate::sink::Sink;
use rec_bytes::Failed;
use std::io::Write;

/// A sink over any writer, which doesn't tell what was written. A writer that takes nothing of a
/// piece has failed, and so has one that was interrupted.
#[derive(Drop)]
pub struct StreamSink<W: Write + Drop> {
    inner: W,
    faults: u64,
}

impl<W: Write + Drop> StreamSink<W> {
    /// A sink that hands all to the writer.
    pub fn new(inner: W) -> Self
        ensures fresh { ⟦<StreamSink<W> as Sink>⟧.fault_count result ≡ 0 }
    {
        StreamSink { inner, faults: 0 }
    }
}

impl<W: Write + Drop> Sink for StreamSink<W> {
    ghost written = { λ s. None };

    ghost fault_count = { λ s. s.faults };

    fn write(&mut self, bytes: &[u8]) -> Result<usize, Failed>
        ensures most { IfOk result (λ n. n ≤ length bytes.now) }
        ensures some { IfOk result (λ n. 0 < length bytes.now → 0 < n) }
        ensures written { Takes None None result bytes.now }
        ensures cause { HasCause self.old.faults self.new.faults result }

        ensures passed { WriteAppends (W.contents self.old.inner) (W.contents self.new.inner) result bytes.now }
    {
        match self.inner.write(bytes) {
            Ok(count) if count > 0 || bytes.is_empty() => Ok(count),
            _ => {
                self.faults = self.faults.saturating_add(1);
                Err(Failed)
            }
        }
    }

    fn faults(&self) -> u64 {
        self.faults
    }
}

#[cfg(test)]
mod tests {
    use super::*;
    use crate::sink::put_all;
    use std::io::{self, ErrorKind};

    /// A writer that takes nothing, and fails at pieces of one byte.
    #[derive(Drop)]
    struct Stuck;

    impl Write for Stuck {
        fn write(&mut self, buf: &[u8]) -> io::Result<usize> {
            if buf.len() == 1 {
                return Err(ErrorKind::Other.into());
            }
            Ok(0)
        }

        fn flush(&mut self) -> io::Result<()> {
            Ok(())
        }
    }

    /// A writer that takes one byte at a time, and is interrupted once, before this byte.
    #[derive(Drop)]
    struct OneByOne {
        kept: [u8; 8],
        len: usize,
        stop: usize,
    }

    impl Write for OneByOne {
        fn write(&mut self, buf: &[u8]) -> io::Result<usize> {
            if self.len == self.stop {
                self.stop = usize::MAX;
                return Err(ErrorKind::Interrupted.into());
            }
            let Some(first) = buf.first() else {
                return Ok(0);
            };
            if self.len >= self.kept.len() {
                return Err(ErrorKind::Other.into());
            }
            self.kept[self.len] = *first;
            self.len += 1;
            Ok(1)
        }

        fn flush(&mut self) -> io::Result<()> {
            Ok(())
        }
    }

    #[test]
    fn a_short_write_loses_nothing_and_an_interrupted_one_failed(rt: HostRuntime) {
        let cases: [(usize, Result<(), Failed>, &[u8], u64); 3] = [
            (9, Ok(()), b"headunit", 0),
            (4, Err(Failed), b"head", 1),
            (6, Err(Failed), b"headun", 1),
        ];
        for (stop, done, kept, faults) in cases {
            let inner = OneByOne {
                kept: [0; 8],
                len: 0,
                stop,
            };
            let mut sink = StreamSink::new(inner);
            assert_eq!(rt; put_all(&mut sink, b"head"), Ok(()), "stop {stop}");
            assert_eq!(rt; put_all(&mut sink, b"unit"), done, "stop {stop}");
            let len = sink.inner.len.min(8);
            assert_eq!(rt; &sink.inner.kept[..len], kept, "stop {stop}");
            assert_eq!(rt; sink.faults(), faults, "stop {stop}");
        }
    }

    #[test]
    fn a_writer_gets_all_and_one_that_takes_nothing_failed(rt: HostRuntime) {
        let mut kept = Vec::new(rt.alloc());
        let mut sink = StreamSink::new(&mut kept);
        assert_eq!(rt; put_all(&mut sink, b"head"), Ok(()));
        assert_eq!(rt; put_all(&mut sink, b"unit"), Ok(()));
        assert_eq!(rt; sink.faults(), 0);
        assert_eq!(rt; kept.as_slice(), b"headunit".as_slice());

        let mut sink = StreamSink::new(Stuck);
        assert_eq!(rt; sink.write(b""), Ok(0));
        assert_eq!(rt; sink.write(b"ab"), Err(Failed));
        assert_eq!(rt; sink.write(b"a"), Err(Failed));
        assert_eq!(rt; sink.faults(), 2);
    }
}
