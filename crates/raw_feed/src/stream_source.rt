ghost use Rattle.std.specs.Prelude.{◌≡◌, ◌≤◌, None, length, IfOk};
ghost use Rattle.std.specs.Io.KnownBytes.{ReadConsumes};
ghost use Rattle.rec_bytes.specs.Faults.{HasCause};
ghost use Rattle.raw_feed.specs.Told.{Reads};
ghost use Rattle.raw_feed.specs.laws.ToldLaws.{IsOf-untold};

use crate::source::{Feed, Source};
use rec_bytes::Failed;
use std::io::Read;
use std::marker::PhantomData;

/// A source over any reader, whose bytes it doesn't tell. A reader that was interrupted has failed.
#[derive(Drop)]
pub struct StreamSource<N: Feed, R: Read + Drop> {
    inner: R,
    faults: u64,
    of: PhantomData<N>,
    ghost untold: { N.bytes ≡ None },
}

impl<N: Feed, R: Read + Drop> StreamSource<N, R> {
    /// A source of what the reader gives.
    pub fn new(inner: R) -> Self
        requires { N.bytes ≡ None }
        ensures fresh { ⟦<StreamSource<N, R> as Source<N>>⟧.fault_count result ≡ 0 }
    {
        StreamSource {
            inner,
            faults: 0,
            of: PhantomData,
        }
    }
}

impl<N: Feed, R: Read + Drop> Source<N> for StreamSource<N, R> {
    ghost told = { λ s. None };

    ghost fault_count = { λ s. s.faults };

    ghost whole = { λ s. IsOf-untold s.untold };

    fn read(&mut self, out: &mut [u8]) -> Result<usize, Failed>
        ensures most { IfOk result (λ n. n ≤ length out.old) }
        ensures read { Reads None None result out.new }
        ensures cause { HasCause self.old.faults self.new.faults result }

        ensures passed { ReadConsumes (R.remaining self.old.inner) (R.remaining self.new.inner) result out.new }
    {
        match self.inner.read(out) {
            Ok(count) => Ok(count),
            Err(_) => {
                self.faults = self.faults.saturating_add(1);
                Err(Failed)
            }
        }
    }

    fn faults(&self) -> u64 {
        self.faults
    }
}

#[cfg(test)]
mod tests {
    use super::*;
    use std::io::{self, ErrorKind};
    use std::marker::Brand;

    /// A reader that fails.
    #[derive(Drop)]
    struct Broken;

    impl Read for Broken {
        fn read(&mut self, _buf: &mut [u8]) -> io::Result<usize> {
            Err(ErrorKind::Other.into())
        }
    }

    /// A reader that is interrupted at its first call, and then gives one byte a call.
    #[derive(Drop)]
    struct Halting {
        calls: u8,
    }

    impl Read for Halting {
        fn read(&mut self, buf: &mut [u8]) -> io::Result<usize> {
            let call = self.calls;
            self.calls = call.saturating_add(1);
            if call == 0 {
                return Err(ErrorKind::Interrupted.into());
            }
            if buf.is_empty() {
                return Ok(0);
            }
            buf[0] = call;
            Ok(1)
        }
    }

    #[test]
    fn an_interrupted_read_failed_and_the_next_goes_on(rt: HostRuntime) {
        let mut out = [0; 2];
        let mut source = StreamSource::<Brand, _>::new(Halting { calls: 0 });
        assert_eq!(rt; (source.read(&mut out), out), (Err(Failed), [0, 0]));
        assert_eq!(rt; source.faults(), 1);
        assert_eq!(rt; (source.read(&mut out), out), (Ok(1), [1, 0]));
        assert_eq!(rt; (source.read(&mut out), out), (Ok(1), [2, 0]));
        assert_eq!(rt; source.faults(), 1);
    }

    #[test]
    fn a_reader_gives_its_bytes_and_each_error_counts(rt: HostRuntime) {
        let mut out = [0; 2];
        let mut source = StreamSource::<Brand, _>::new(b"abc".as_slice().chain(Broken));
        assert_eq!(rt; (source.read(&mut out), out), (Ok(2), *b"ab"));
        assert_eq!(rt; (source.read(&mut out), out), (Ok(1), *b"cb"));
        assert_eq!(rt; source.faults(), 0);
        assert_eq!(rt; source.read(&mut out), Err(Failed));
        assert_eq!(rt; source.read(&mut out), Err(Failed));
        assert_eq!(rt; source.faults(), 2);

        let mut source = StreamSource::<Brand, _>::new(b"".as_slice());
        assert_eq!(rt; source.read(&mut out), Ok(0));
        assert_eq!(rt; source.faults(), 0);
    }
}
