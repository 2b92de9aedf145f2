ghost use Rattle.std.specs.Prelude.{◌≡◌, ◌+◌, ◌^◌, ◌≤◌, ◌<◌, ℕ, List, Some, length};
ghost use Rattle.byteorder.specs.Endian.{big_bytes};
ghost use Rattle.rec_bytes.specs.Places.{number_at, with_bytes};

use byteorder::{BigEndian, ByteOrder};

/// The byte at a place.
pub fn take_u8(bytes: &[u8], at: usize) -> Option<u8>
    ensures { result ≡ number_at 1 bytes.now at }
{
    bytes.get(at).copied()
}

/// Writes a byte at a place.
pub fn put_u8(out: &mut [u8], at: usize, value: u8)
    requires { at < length out.old }
    ensures { out.new ≡ with_bytes out.old at (big_bytes 1 value) }
{
    out[at] = value;
}

/// The big-endian number of 16 bits at a place.
pub fn take_u16(bytes: &[u8], at: usize) -> Option<u16>
    ensures { result ≡ number_at 2 bytes.now at }
{
    if at > bytes.len() || bytes.len() - at < 2 {
        return None;
    }
    Some(BigEndian::read_u16(&bytes[at..]))
}

/// Writes a number of 16 bits at a place, big-endian.
pub fn put_u16(out: &mut [u8], at: usize, value: u16)
    requires { at + 2 ≤ length out.old }
    ensures { out.new ≡ with_bytes out.old at (big_bytes 2 value) }
{
    BigEndian::write_u16(&mut out[at..], value);
}

/// The big-endian number of 32 bits at a place.
pub fn take_u32(bytes: &[u8], at: usize) -> Option<u32>
    ensures { result ≡ number_at 4 bytes.now at }
{
    if at > bytes.len() || bytes.len() - at < 4 {
        return None;
    }
    Some(BigEndian::read_u32(&bytes[at..]))
}

/// Writes a number of 32 bits at a place, big-endian.
pub fn put_u32(out: &mut [u8], at: usize, value: u32)
    requires { at + 4 ≤ length out.old }
    ensures { out.new ≡ with_bytes out.old at (big_bytes 4 value) }
{
    BigEndian::write_u32(&mut out[at..], value);
}

/// The big-endian number of 64 bits at a place.
pub fn take_u64(bytes: &[u8], at: usize) -> Option<u64>
    ensures { result ≡ number_at 8 bytes.now at }
{
    if at > bytes.len() || bytes.len() - at < 8 {
        return None;
    }
    Some(BigEndian::read_u64(&bytes[at..]))
}

/// Writes a number of 64 bits at a place, big-endian.
pub fn put_u64(out: &mut [u8], at: usize, value: u64)
    requires { at + 8 ≤ length out.old }
    ensures { out.new ≡ with_bytes out.old at (big_bytes 8 value) }
{
    BigEndian::write_u64(&mut out[at..], value);
}

/// Writes bytes at a place.
pub fn put_bytes(out: &mut [u8], at: usize, bytes: &[u8])
    requires { at + length bytes.now ≤ length out.old }
    ensures { out.new ≡ with_bytes out.old at bytes.now }
{
    out[at..at + bytes.len()].copy_from_slice(bytes);
}

/// Shows that a number which was put is taken again. It does nothing when it runs.
pub fn put_is_taken()
    ensures { (bytes : List ℕ) (n at value : ℕ) → at + n ≤ length bytes → value < 256 ^ n
        → number_at n (with_bytes bytes at (big_bytes n value)) at ≡ Some value }
{}
