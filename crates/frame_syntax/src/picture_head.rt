//! The header and the slice table of a coded picture.

ghost use Rattle.std.specs.Prelude.{◌≡◌, ◌≤◌, ◌<◌, ◌+◌, ◌*◌, ◌%◌, ◌/◌, true, false, length, drop, IfOk, IfErr, IfSome, IfNone};
ghost use Rattle.picture_plane.specs.Slices.{slice_widths, slices_per_picture, row_count, macroblocks};
ghost use Rattle.frame_syntax.specs.Headers.{size_of};
ghost use Rattle.frame_syntax.specs.Pictures.{picture_of, SlicesFit, Passes};
ghost use Rattle.frame_syntax.specs.Rules.{is_sized};
ghost use Rattle.frame_syntax.specs.inner.Rooms.{IsRoomy};
ghost use Rattle.frame_syntax.specs.declared.picture_head.TheConstants.{LEAST_PICTURE_HEAD};
ghost use Rattle.frame_syntax.specs.declared.fault.FrameFault.TheVariants.{PictureSize};

use crate::fault::FrameFault;
use crate::frame_head::{FrameHead, u16_at};
use byteorder::{BigEndian, ByteOrder};

/// Bytes of the least picture header.
pub const LEAST_PICTURE_HEAD: usize = 8;
/// Place of the picture size in a picture header.
pub const PICTURE_SIZE_AT: usize = 1;
/// Place of the slice count in a picture header, which is passed over where it is read.
pub const SLICE_COUNT_AT: usize = 5;
/// Place of the desired slice size in a picture header.
pub const SLICE_SIZE_AT: usize = 7;
/// Bytes of an entry of a slice table.
pub const ENTRY_LEN: usize = 2;

/// A coded picture of a frame, by its header (SMPTE RDD 36, picture header).
#[derive(Clone, Copy, Debug, PartialEq, Eq)]
pub struct PictureHead {
    /// Where it begins, in bytes of the frame.
    pub at: usize,
    /// picture_header_size: bytes of its header, behind which its slice table stands.
    pub head_size: u8,
    /// picture_size: its bytes, header included.
    pub size: u32,
    /// log2_desired_slice_size_in_mb.
    pub log2: u8,
    /// How many slices it has: as many as its size in macroblocks asks for, whatever its header says.
    pub slices: u32,
}

/// The coded picture at a place of a frame with this header.
pub fn read_picture(
    bytes: &[u8],
    head: &FrameHead,
    at: usize,
    number: u64,
) -> Result<PictureHead, FrameFault>
    requires { at ≤ length bytes.now }
    ensures read { IfOk result (λ picture. picture ≡ picture_of bytes.now (size_of head.now) at) }
    ensures sized { IfOk result (λ picture. is_sized (length bytes.now) picture ≡ true) }

    ensures refused { IfErr result (λ fault. fault ≡ PictureSize at number) }
    ensures short { IfErr result (λ fault. is_sized (length bytes.now) (picture_of bytes.now (size_of head.now) at) ≡ false) }
{
    let fault = FrameFault::PictureSize {
        at: at as u64,
        other: number,
    };
    if bytes.len() - at < LEAST_PICTURE_HEAD {
        return Err(fault);
    }
    let picture = picture_at(bytes, head, at);
    if !is_sized(bytes.len(), &picture) {
        return Err(fault);
    }
    Ok(picture)
}

/// The fields of a picture header that is there.
#[tactic(auto, unfolding(crate::specs::Pictures::picture_of))]
fn picture_at(bytes: &[u8], head: &FrameHead, at: usize) -> PictureHead
    requires { at + LEAST_PICTURE_HEAD ≤ length bytes.now }
    ensures { result ≡ picture_of bytes.now (size_of head.now) at }
{
    let log2 = bytes[at + SLICE_SIZE_AT] / 16 % 4;
    PictureHead {
        at,
        head_size: bytes[at] / 8,
        size: BigEndian::read_u32(&bytes[at + PICTURE_SIZE_AT..]),
        log2,
        slices: slices_per_picture(head, log2),
    }
}

/// Whether a coded picture has room for its header and its slice table, and lies in the frame.
fn is_sized(frame_len: usize, picture: &PictureHead) -> bool
    requires { picture.now.at + LEAST_PICTURE_HEAD ≤ frame_len }
    ensures { result ≡ is_sized frame_len picture.now }
{
    let front_len = picture.head_size as u64 + ENTRY_LEN as u64 * picture.slices as u64;
    picture.head_size as usize >= LEAST_PICTURE_HEAD
        && front_len <= picture.size as u64
        && picture.size as usize <= frame_len - picture.at
}

/// How many slices each coded picture of a frame has.
pub fn slices_per_picture(head: &FrameHead, log2: u8) -> u32
    requires { log2 ≤ 3 }
    ensures count { result ≡ slices_per_picture (size_of head.now) log2 }
    ensures few { result ≤ 4096 * 4096 }
{
    rows_per_picture(head) * slices_in_row(macroblocks(head.width), log2)
}

/// How many macroblocks each coded picture of a frame has.
pub fn macroblocks_per_picture(head: &FrameHead) -> u32
    ensures count { result ≡ row_count (size_of head.now) * macroblocks head.now.width }
    ensures few { result ≤ 4096 * 4096 }
{
    rows_per_picture(head) * macroblocks(head.width)
}

/// How many rows of macroblocks each coded picture of a frame has.
fn rows_per_picture(head: &FrameHead) -> u32
    ensures count { result ≡ row_count (size_of head.now) }
    ensures few { result ≤ 4096 }
{
    let lines = if head.interlace == 0 {
        head.height
    } else {
        head.height / 2
    };
    macroblocks(lines)
}

/// Macroblocks that cover so many samples of luma.
fn macroblocks(samples: u16) -> u32
    ensures count { result ≡ (samples + 15) / 16 }
    ensures few { result ≤ 4096 }
{
    (samples as u32 + 15) / 16
}

/// How many slices a row of macroblocks has.
fn slices_in_row(macroblocks: u32, log2: u8) -> u32
    requires { log2 ≤ 3 }
    ensures count { result ≡ length (slice_widths log2 macroblocks) }
    ensures few { result ≤ macroblocks }
{
    match log2 {
        0 => macroblocks,
        1 => cut_by_two(macroblocks),
        2 => cut_by_four(macroblocks),
        _ => macroblocks / 8 + cut_by_four(macroblocks % 8),
    }
}

fn cut_by_two(macroblocks: u32) -> u32
    ensures count { result ≡ length (slice_widths 1 macroblocks) }
    ensures few { result ≤ macroblocks }
{
    macroblocks / 2 + macroblocks % 2
}

fn cut_by_four(macroblocks: u32) -> u32
    ensures count { result ≡ length (slice_widths 2 macroblocks) }
    ensures few { result ≤ macroblocks }
{
    macroblocks / 4 + cut_by_two(macroblocks % 4)
}

/// The first slice of a coded picture that passes it, of which so many slices of the frame stand before it.
pub fn table_fault(bytes: &[u8], picture: &PictureHead, number: u32) -> Option<FrameFault>
    requires { IsRoomy (length bytes.now) picture.now }
    ensures fit { IfNone result (SlicesFit bytes.now picture.now) }
    ensures passed { IfSome result (Passes bytes.now picture.now number) }
{
    let table = picture.at + picture.head_size as usize;
    let mut left = picture.size as usize
        - (picture.head_size as usize + ENTRY_LEN * picture.slices as usize);
    'slices: for n in 0..picture.slices {
        let entry = table + ENTRY_LEN * n as usize;
        let size = u16_at(bytes, entry) as usize;
        if size > left {
            return Some(FrameFault::SliceTable {
                at: entry as u64,
                other: number as u64 + n as u64,
            });
        }
        left -= size;
    }
    None
}
