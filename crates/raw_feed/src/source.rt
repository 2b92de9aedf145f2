ghost use Rattle.std.specs.Prelude.{◌≡◌, ◌≤◌, ℕ, List, Option, None, length, IfOk};
ghost use Rattle.rec_bytes.specs.Faults.{HasCause};
ghost use Rattle.raw_feed.specs.Told.{Told, IsOf, Reads};

use rec_bytes::Failed;
use std::marker::Brand;

/// A name for the bytes of one run.
///
/// A program calls what is generic over a feed with `Brand` in its place.
pub trait Feed {
    /// The bytes, where the feed tells them.
    ghost bytes: { Option (List ℕ) };
}

/// A source of the bytes of the feed `N`.
///
/// It tells what it has given and what it has left exactly where its feed tells its bytes.
pub trait Source<N: Feed> {
    /// The bytes that were given and those that are left.
    ghost told: { Self → Option Told };

    /// How often it has failed.
    ghost fault_count: { Self → ℕ };

    /// Puts the next bytes at the front of `out`, and answers how many.
    fn read(&mut self, out: &mut [u8]) -> Result<usize, Failed>
        ensures most { IfOk result (λ n. n ≤ length out.old) }
        ensures read { Reads (told self.old) (told self.new) result out.new }
        ensures cause { HasCause (fault_count self.old) (fault_count self.new) result };

    /// How often it has failed. The count stands still at its last value.
    fn faults(&self) -> u64
        ensures { result ≡ fault_count self.now };

    /// What was given, followed by what is left, are the feed's bytes.
    ghost whole: { (s : Self) → IsOf N.bytes (told s) };
}

impl Feed for Brand {
    ghost bytes = { None };
}
