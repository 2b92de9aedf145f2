ghost use Rattle.std.specs.Prelude.{◌≡◌, ◌+◌, ◌-◌, ◌*◌, ◌/◌, ◌<◌, ◌≤◌, ◌^◌, ◌↔◌, ◌++◌, ℕ, List, Ok, length, take, IsTrue, IsOk, IfOk, IfErr, OnOk, OnErr};
ghost use Rattle.bit_io.specs.Bits.{bits, bits_of, zeros};
ghost use Rattle.bit_io.specs.Read.{Takes, Reads, place_number};

use crate::window::{Window, is_zero, refill};
use std::marker::Model;
use thiserror::Error;

/// Fewer bits are left than were asked for.
#[derive(Clone, Copy, Debug, PartialEq, Eq, Error)]
#[error("fewer bits are left at bit {at} than were asked for")]
pub struct BitsEnd {
    /// The place of the first bit that was asked for.
    pub at: u64,
}

/// Reads bits from a slice, the highest bit of a byte first.
#[derive(Drop)]
pub struct BitReader<'a> {
    bytes: &'a [u8],
    window: Window,
}

impl<'a> Model for BitReader<'a> {
    ghost use Rattle.std.specs.Prelude.{◌*◌, ◌-◌};
    ghost use Rattle.bit_io.specs.Read.{Reading};
    ghost use Rattle.bit_io.specs.inner.Window.{IsLoaded, IsReady, bits_left};

    ghost Value = { Reading };

    ghost view = { λ r. record {
      place = 8 * r.window.at - r.window.count;
      left = bits_left r.bytes.now r.window.at r.window.word r.window.count;
    } };

    ghost invariant = { λ r. IsLoaded r.bytes.now r.window.at r.window.word r.window.count
        × IsReady r.bytes.now r.window.at r.window.count };
}

impl<'a> BitReader<'a> {
    /// A reader at the first bit of the slice.
    pub fn new(bytes: &'a [u8]) -> BitReader<'a>
        ensures first { result.place ≡ 0 }
        ensures all { result.left ≡ bits_of bytes.now }
    {
        let window = refill(
            bytes,
            Window {
                at: 0,
                word: 0,
                count: 0,
            },
        );
        BitReader { bytes, window }
    }

    /// Whether this many bits are left.
    pub fn has(&self, n: u8) -> bool
        requires { n ≤ 32 }
        ensures { IsTrue result ↔ (n ≤ length self.now.left) }
    {
        u32::from(n) <= self.window.count
    }

    /// The next 32 bits, with zeros behind the last one.
    pub fn peek(&self) -> u32
        ensures shown { bits 32 result ≡ take 32 (self.now.left ++ zeros 32) }
        ensures first { (n : ℕ) → n ≤ 32 → n ≤ length self.now.left
            → bits n (result / 2 ^ (32 - n)) ≡ take n self.now.left }
    {
        (self.window.word >> 32) as u32
    }

    /// Passes over bits.
    pub fn skip(&mut self, n: u8) -> Result<(), BitsEnd>
        requires { n ≤ 32 }
        ensures accepted { IsOk result ↔ (n ≤ length self.old.left) }
        ensures skipped { OnOk result (Takes self.old self.new (take n self.old.left)) }

        ensures refused { IfErr result (λ e. e.at ≡ place_number self.old.place) }
        ensures unchanged { OnErr result (self.new ≡ self.old) }
    {
        if u32::from(n) > self.window.count {
            return Err(BitsEnd { at: self.place() });
        }
        let window = Window {
            at: self.window.at,
            word: self.window.word << n,
            count: self.window.count - u32::from(n),
        };
        self.window = refill(self.bytes, window);
        Ok(())
    }

    /// The number that the next `n` bits spell.
    pub fn get(&mut self, n: u8) -> Result<u32, BitsEnd>
        requires { n ≤ 32 }
        ensures accepted { IsOk result ↔ (n ≤ length self.old.left) }
        ensures read { IfOk result (Reads self.old self.new n) }
        ensures again { (value : ℕ) (rest : List ℕ) → value < 2 ^ n
            → self.old.left ≡ bits n value ++ rest → (result ≡ Ok value) × (self.new.left ≡ rest) }

        ensures refused { IfErr result (λ e. e.at ≡ place_number self.old.place) }
        ensures unchanged { OnErr result (self.new ≡ self.old) }
    {
        let value = (u64::from(self.peek()) >> (32 - n)) as u32;
        self.skip(n)?;
        Ok(value)
    }

    /// The number of the next bit, from 0.
    pub fn place(&self) -> u64
        ensures { result ≡ place_number self.now.place }
    {
        let place = 8 * self.window.at as u128 - u128::from(self.window.count);
        place.min(u128::from(u64::MAX)) as u64
    }

    /// Whether all bits that are left are zero.
    pub fn rest_is_zero(&self) -> bool
        ensures { IsTrue result ↔ (self.now.left ≡ zeros (length self.now.left)) }
    {
        is_zero(self.window.word, self.window.count) && are_zero(&self.bytes[self.window.at..])
    }
}

fn are_zero(bytes: &[u8]) -> bool
    ensures { IsTrue result ↔ (bits_of bytes.now ≡ zeros (8 * length bytes.now)) }
{
    for byte in bytes {
        if *byte != 0 {
            return false;
        }
    }
    true
}

#[cfg(test)]
mod tests {
    use super::*;

    #[test]
    fn bits_are_read_to_the_last_and_no_further(rt: HostRuntime) {
        // by hand: 1010 | 1011 1100 1101 | 0001 .. 1000 | 101 | 00000
        let bytes = [0xabu8, 0xcd, 0x12, 0x34, 0x56, 0x78, 0xa0];
        let mut reader = BitReader::new(&bytes);
        assert_eq!(rt; reader.peek(), 0xabcd_1234);
        for (n, value, place) in [
            (4, 0xa, 4),
            (12, 0xbcd, 16),
            (32, 0x1234_5678, 48),
            (3, 5, 51),
        ] {
            assert!(rt; n <= 32);
            assert!(rt; !reader.rest_is_zero(), "before bit {place}");
            assert_eq!(rt; reader.get(n), Ok(value), "to bit {place}");
            assert_eq!(rt; reader.place(), place);
        }
        assert!(rt; reader.rest_is_zero());
        assert!(rt; reader.has(5) && !reader.has(6));
        assert_eq!(rt; reader.get(6), Err(BitsEnd { at: 51 }));
        assert_eq!(rt; reader.skip(5), Ok(()));
        assert_eq!(rt; reader.get(1), Err(BitsEnd { at: 56 }));
        assert_eq!(rt; reader.peek(), 0);
    }
}
