//! The header of a slice.

ghost use Rattle.std.specs.Prelude.{◌≡◌, ◌≤◌, ◌<◌, ◌/◌, ◌+◌, ◌*◌, ℕ, length, slice_index, OnOk, IfErr};
ghost use Rattle.slice_codec.specs.Setups.{Setup};
ghost use Rattle.slice_codec.specs.Slices.{HasSize, HasHead, head_size, index_of, y_len, cb_len, part_bytes};
ghost use Rattle.slice_codec.specs.Faults.{Refuses};

use crate::fault::SliceFault;
use picture_plane::Plane;

/// Bytes of a header that has nothing but its fields.
const HEAD_LEN: usize = 6;
/// Places of the index and of the parts' lengths.
const INDEX_AT: u64 = 1;

const PARTS_AT: u64 = 2;

/// Checks a slice's header.
pub fn check_head(bytes: &[u8]) -> Result<(), SliceFault>
    ensures head { OnOk result (HasHead bytes.now) }

    ensures refused { (setup : Setup) (count : ℕ) → IfErr result (Refuses setup count bytes.now) }
{
    if bytes.len() < HEAD_LEN {
        return Err(SliceFault::SliceShort {
            at: bytes.len() as u64,
        });
    }
    let head = head_len(bytes);
    if head < HEAD_LEN || head > bytes.len() {
        return Err(SliceFault::SliceHeader { at: 0 });
    }
    if bytes[1] == 0 || bytes[1] > 224 {
        return Err(SliceFault::Index { at: INDEX_AT });
    }
    if head + y_part_len(bytes) + cb_part_len(bytes) > bytes.len() {
        return Err(SliceFault::Parts { at: PARTS_AT });
    }
    Ok(())
}

/// The bytes of a plane's part.
pub fn part_of(bytes: &[u8], plane: Plane) -> &[u8]
    requires { HasHead bytes.now }
    ensures { result.now ≡ part_bytes bytes.now plane }
{
    let y = head_len(bytes);
    let cb = y + y_part_len(bytes);
    let cr = cb + cb_part_len(bytes);
    match plane {
        Plane::Y => &bytes[y..cb],
        Plane::Cb => &bytes[cb..cr],
        Plane::Cr => &bytes[cr..],
    }
}

/// Bytes of the header.
fn head_len(bytes: &[u8]) -> usize
    requires { 6 ≤ length bytes.now }
    ensures value { result ≡ head_size bytes.now }
    ensures small { result < 32 }
{
    usize::from(bytes[0] / 8)
}

/// Bytes of the part of Y.
fn y_part_len(bytes: &[u8]) -> usize
    requires { 6 ≤ length bytes.now }
    ensures value { result ≡ y_len bytes.now }
    ensures small { result < 65536 }
{
    256 * usize::from(bytes[2]) + usize::from(bytes[3])
}

/// Bytes of the part of Cb.
fn cb_part_len(bytes: &[u8]) -> usize
    requires { 6 ≤ length bytes.now }
    ensures value { result ≡ cb_len bytes.now }
    ensures small { result < 65536 }
{
    256 * usize::from(bytes[4]) + usize::from(bytes[5])
}
