ghost use Rattle.std.specs.Prelude.{◌≡◌, ◌+◌, ◌*◌, ◌<◌, ◌≤◌, ◌^◌, ◌↔◌, ◌++◌, [], length, take, drop, IsTrue, IsOk, IfErr, OnOk, OnErr};
ghost use Rattle.bit_io.specs.Bits.{bits, bits_of};

use thiserror::Error;

/// The bits don't fit into the slice.
#[derive(Clone, Copy, Debug, PartialEq, Eq, Error)]
#[error("{need} bits don't fit into {room}")]
pub struct Full {
    /// Bits to be put.
    pub need: u64,
    /// Bits that are left.
    pub room: u64,
}

/// Puts bits into a lent slice, the highest bit of a byte first.
#[derive(Drop)]
pub struct BitWriter<'a> {
    out: &'a mut [u8],
    // bytes that are stored
    at: usize,
    // the low `count` bits are put and not stored yet
    acc: u64,
    count: u32,
    // so many bits may wait with no test of the room
    most: u32,
    ghost within: { 8 * at + count ≤ 8 * length out.now },
    ghost pending: { count < 32 },
    ghost free: { 8 * at + most ≤ 8 * length out.now },
    ghost few: { most < 32 },
}

impl<'a> BitWriter<'a> {
    ghost use Rattle.bit_io.specs.Written.{bits_put, lent, lender, room, Puts, Overfills, Pads};

    /// A writer at the first bit of the slice.
    pub fn new(out: &'a mut [u8]) -> BitWriter<'a>
        ensures same_reference { lender result ≡ out.entry.ghost_name }
        ensures lent { lent result ≡ out.old }
        ensures empty { bits_put result ≡ [] }
    {
        let most = most_waiting(out.len());
        BitWriter {
            out,
            at: 0,
            acc: 0,
            count: 0,
            most,
        }
    }

    /// Puts the `n` bits of a number.
    pub fn put(&mut self, n: u8, value: u32) -> Result<(), Full>
        requires narrow { n ≤ 32 }
        requires small { value < 2 ^ n }
        ensures same_reference { lender self.new ≡ lender self.old }
        ensures accepted { IsOk result ↔ (n ≤ room self.old) }
        ensures put { OnOk result (Puts self.old self.new (bits n value)) }

        ensures refused { IfErr result (Overfills self.old n) }
        ensures unchanged { OnErr result (self.new ≡ self.old) }
    {
        let count = self.count + u32::from(n);
        if count <= self.most {
            self.acc = self.acc << n | u64::from(value);
            self.count = count;
            return Ok(());
        }
        let free = self.out.len() - self.at;
        if overfills(free, count) {
            return Err(Full {
                need: u64::from(n),
                room: 8 * free as u64 - u64::from(self.count),
            });
        }
        let acc = self.acc << n | u64::from(value);
        self.acc = acc;
        self.count = count;
        if count >= 32 {
            self.count = count - 32;
            store(
                self.out,
                self.at,
                4,
                (acc >> (count - 32) & 0xffff_ffff) as u32,
            );
            self.at += 4;
            self.most = most_waiting(free - 4);
        }
        Ok(())
    }

    /// Whether so many bits more have room.
    #[inline(always)]
    pub fn fits(&self, bits: u32) -> Result<(), Full>
        ensures accepted { IsOk result ↔ (bits ≤ room self.now) }

        ensures refused { IfErr result (Overfills self.now bits) }
    {
        let free = self.out.len() - self.at;
        let waiting = u64::from(self.count);
        if free < (self.count as usize + bits as usize + 7) / 8 {
            return Err(Full {
                need: u64::from(bits),
                room: 8 * free as u64 - waiting,
            });
        }
        Ok(())
    }

    /// Adds 0 to 7 zero bits up to a whole byte, and answers the bytes used.
    pub fn pad(self) -> usize
        ensures { Pads self.entry result self.exit.0.now }
    {
        let BitWriter {
            out,
            at,
            acc,
            count,
            ..
        } = self;
        let last = (count as usize + 7) / 8;
        store(out, at, last, (acc << (32 - count) & 0xffff_ffff) as u32);
        at + last
    }
}

// Whether so many bits overfill the free bytes. 8 bytes have room for them, and nearly always there are as many.
#[inline(always)]
fn overfills(free: usize, count: u32) -> bool
    requires { count < 64 }
    ensures { IsTrue result ↔ (8 * free < count) }
{
    free < 8 && free < (count as usize + 7) / 8
}

// How many bits may wait before so many free bytes: what they have room for, and less than a word.
#[inline(always)]
fn most_waiting(free: usize) -> u32
    ensures room { result ≤ 8 * free }
    ensures few { result < 32 }
{
    if free >= 4 { 31 } else { 8 * free as u32 }
}

// Stores the first `count` bytes of a word, the highest first.
fn store(out: &mut [u8], at: usize, count: usize, word: u32)
    requires of_word { count ≤ 4 }
    requires within { at + count ≤ length out.old }
    ensures stored { bits_of (take (at + count) out.new) ≡ bits_of (take at out.old) ++ take (8 * count) (bits 32 word) }
    ensures behind { drop (at + count) out.new ≡ drop (at + count) out.old }
{
    out[at..at + count].copy_from_slice(&word.to_be_bytes()[..count]);
}

#[cfg(test)]
mod tests {
    use super::*;

    #[test]
    fn bits_cross_words_and_the_last_byte_is_filled_with_zeros(rt: HostRuntime) {
        let mut none: [u8; 0] = [];
        let mut empty = BitWriter::new(&mut none);
        assert_eq!(rt; empty.put(3, 5), Err(Full { need: 3, room: 0 }));
        assert_eq!(rt; empty.put(0, 0), Ok(()));
        assert_eq!(rt; empty.pad(), 0);

        let mut bytes = [0xeeu8; 8];
        let mut writer = BitWriter::new(&mut bytes);
        // by hand: 1010 | 1011 1100 1101 | 0001 .. 1000 | 101
        for (n, value) in [(4, 0xa), (12, 0xbcd), (32, 0x1234_5678), (3, 5)] {
            assert!(rt; n <= 32 && u64::from(value) < 1u64 << n);
            assert_eq!(rt; writer.put(n, value), Ok(()), "{n} bits");
        }
        assert_eq!(rt; writer.put(14, 1), Err(Full { need: 14, room: 13 }));
        assert_eq!(rt; writer.fits(13), Ok(()));
        assert_eq!(rt; writer.fits(14), Err(Full { need: 14, room: 13 }));
        assert_eq!(rt; writer.pad(), 7);
        assert_eq!(rt; bytes, [0xab, 0xcd, 0x12, 0x34, 0x56, 0x78, 0xa0, 0xee]);
    }
}
