//! Parts, numbers and labels at places of bytes.

ghost use Rattle.std.specs.Prelude.{◌≡◌, ◌+◌, ◌-◌, ◌≤◌, length, take, drop};
ghost use Rattle.byteorder.specs.Endian.{big_number};
ghost use Rattle.mxf_partitions.specs.declared.partition.TheConstants.{LABEL_LEN};

use crate::partition::LABEL_LEN;
use byteorder::{BigEndian, ByteOrder};

/// The bytes from a place on, up to another.
pub(crate) fn part_of(bytes: &[u8], from: usize, to: usize) -> &[u8]
    requires ordered { from ≤ to }
    requires within { to ≤ length bytes.now }
    ensures { result.now ≡ take (to - from) (drop from bytes.now) }
{
    &bytes[from..to]
}

/// The number of 16 bits at a place.
pub(crate) fn u16_at(bytes: &[u8], at: usize) -> u16
    requires { at + 2 ≤ length bytes.now }
    ensures { result ≡ big_number 2 (drop at bytes.now) }
{
    BigEndian::read_u16(&bytes[at..])
}

/// The number of 32 bits at a place.
pub(crate) fn u32_at(bytes: &[u8], at: usize) -> u32
    requires { at + 4 ≤ length bytes.now }
    ensures { result ≡ big_number 4 (drop at bytes.now) }
{
    BigEndian::read_u32(&bytes[at..])
}

/// The number of 64 bits at a place.
pub(crate) fn u64_at(bytes: &[u8], at: usize) -> u64
    requires { at + 8 ≤ length bytes.now }
    ensures { result ≡ big_number 8 (drop at bytes.now) }
{
    BigEndian::read_u64(&bytes[at..])
}

/// The label at a place.
pub(crate) fn label_at(bytes: &[u8], at: usize) -> [u8; 16]
    requires { at + LABEL_LEN ≤ length bytes.now }
    ensures { result ≡ take LABEL_LEN (drop at bytes.now) }
{
    let mut label = [0u8; LABEL_LEN];
    label.copy_from_slice(&bytes[at..at + LABEL_LEN]);
    label
}
