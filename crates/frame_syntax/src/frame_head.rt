//! The header of a frame.

ghost use Rattle.std.specs.Prelude.{◌≡◌, ◌≤◌, ◌<◌, ◌+◌, ◌*◌, ℕ, Bool, true, length, take, drop, replicate, if◌then◌else◌, IfNone};
ghost use Rattle.byteorder.specs.Endian.{big_number};
ghost use Rattle.frame_syntax.specs.Rules.{first_broken, opening_rules, head_rules};
ghost use Rattle.frame_syntax.specs.Headers.{header_of, matrix_of, loads_luma, loads_chroma, loaded_len, least_head};
ghost use Rattle.frame_syntax.specs.declared.frame_head.TheConstants.{LEAST_FRAME, HEAD_AT};

use crate::fault::FrameFault;
use byteorder::{BigEndian, ByteOrder};
use rec_bytes::{MAX_HEIGHT, MAX_WIDTH};

/// Bytes of the least frame header, with the frame size and the name before it.
pub const LEAST_FRAME: usize = 28;
/// The name of a frame.
pub const FRAME_NAME: [u8; 4] = *b"icpf";
/// Bytes of a quantisation matrix.
pub const MATRIX_LEN: usize = 64;
/// Bytes of a frame header that loads no matrix.
pub const LEAST_HEAD: usize = 20;
/// Greatest bitstream version that is read.
pub const MAX_VERSION: u8 = 1;
/// The chroma format 4:2:2.
pub const CHROMA_422: u8 = 2;
/// The interlace mode that is reserved.
pub const RESERVED_INTERLACE: u8 = 3;

/// Place of the name.
pub const NAME_AT: usize = 4;
/// Place of the frame header, which begins with its size.
pub const HEAD_AT: usize = 8;
/// Place of the bitstream version.
pub const VERSION_AT: usize = 11;
/// Place of the encoder's identifier.
pub const ENCODER_AT: usize = 12;
/// Place of the width.
pub const WIDTH_AT: usize = 16;
/// Place of the height.
pub const HEIGHT_AT: usize = 18;
/// Place of chroma format and interlace mode.
pub const FORMAT_AT: usize = 20;
/// Place of aspect ratio and frame rate.
pub const RATE_AT: usize = 21;
/// Place of the colour primaries.
pub const PRIMARIES_AT: usize = 22;
/// Place of the transfer characteristic.
pub const TRANSFER_AT: usize = 23;
/// Place of the matrix coefficients.
pub const COEFFICIENTS_AT: usize = 24;
/// Place of the alpha channel's type.
pub const ALPHA_AT: usize = 25;
/// Place of the flags that say which quantisation matrices are loaded.
pub const LOADS_AT: usize = 27;
/// Place of the first matrix that is loaded.
pub const MATRICES_AT: usize = 28;

/// The header of a frame (SMPTE RDD 36, frame header). The fields stand in the order of their bytes.
#[derive(Clone, Copy, Debug, PartialEq, Eq)]
pub struct FrameHead {
    /// frame_header_size: bytes of the header.
    pub head_size: u16,
    /// bitstream_version.
    pub version: u8,
    /// encoder_identifier.
    pub encoder: [u8; 4],
    /// horizontal_size: samples of a luma row.
    pub width: u16,
    /// vertical_size: rows of luma of the whole frame.
    pub height: u16,
    /// chroma_format: 2 for 4:2:2.
    pub chroma_format: u8,
    /// interlace_mode: 0 progressive, 1 top field first, 2 bottom field first.
    pub interlace: u8,
    /// aspect_ratio_information.
    pub aspect: u8,
    /// frame_rate_code.
    pub rate: u8,
    /// color_primaries.
    pub primaries: u8,
    /// transfer_characteristic.
    pub transfer: u8,
    /// matrix_coefficients.
    pub matrix: u8,
    /// alpha_channel_type: 0 for none.
    pub alpha: u8,
    /// load_luma_quantization_matrix.
    pub load_luma: bool,
    /// load_chroma_quantization_matrix.
    pub load_chroma: bool,
    /// The luma matrix in raster order, 4 everywhere where it isn't loaded.
    pub luma: [u8; MATRIX_LEN],
    /// The chroma matrix in raster order, 4 everywhere where it isn't loaded.
    pub chroma: [u8; MATRIX_LEN],
}

/// The first rule that is broken by size, name, frame size and header size.
#[tactic(auto, unfolding(crate::specs::Rules::opening_rules, crate::specs::Rules::first_broken))]
pub fn opening_fault(bytes: &[u8]) -> Option<FrameFault>
    ensures first { result ≡ first_broken (opening_rules bytes.now) }
    ensures long { IfNone result (LEAST_FRAME ≤ length bytes.now) }
    ensures loads { IfNone result (HEAD_AT + least_head (loads_luma bytes.now) (loads_chroma bytes.now) ≤ length bytes.now) }
    ensures head { IfNone result (HEAD_AT + big_number 2 (drop HEAD_AT bytes.now) ≤ length bytes.now) }
{
    if bytes.len() < LEAST_FRAME {
        return Some(FrameFault::FrameShort {
            at: bytes.len() as u64,
            other: 0,
        });
    }
    if array_at::<4>(bytes, NAME_AT) != FRAME_NAME {
        return Some(FrameFault::NotIcpf { at: 4, other: 0 });
    }
    let frame_size = BigEndian::read_u32(bytes);
    if frame_size as usize != bytes.len() {
        return Some(FrameFault::SizeWord {
            at: 0,
            other: u64::from(frame_size),
        });
    }
    let head_size = u16_at(bytes, HEAD_AT);
    if (head_size as usize) < least_head(bytes) || HEAD_AT + head_size as usize > bytes.len() {
        return Some(FrameFault::HeadSize {
            at: HEAD_AT as u64,
            other: u64::from(head_size),
        });
    }
    None
}

/// The least size of a frame header with the matrices that it loads.
fn least_head(bytes: &[u8]) -> usize
    requires { LEAST_FRAME ≤ length bytes.now }
    ensures { result ≡ least_head (loads_luma bytes.now) (loads_chroma bytes.now) }
{
    LEAST_HEAD + loaded_len(loads_luma(bytes)) + loaded_len(loads_chroma(bytes))
}

/// Bytes of a matrix, none where it isn't loaded.
fn loaded_len(loaded: bool) -> usize
    ensures { result ≡ loaded_len loaded }
{
    if loaded { MATRIX_LEN } else { 0 }
}

fn loads_luma(bytes: &[u8]) -> bool
    requires { LEAST_FRAME ≤ length bytes.now }
    ensures { result ≡ loads_luma bytes.now }
{
    bytes[LOADS_AT] / 2 % 2 == 1
}

fn loads_chroma(bytes: &[u8]) -> bool
    requires { LEAST_FRAME ≤ length bytes.now }
    ensures { result ≡ loads_chroma bytes.now }
{
    bytes[LOADS_AT] % 2 == 1
}

/// The frame header of bytes that have room for it.
pub fn read_header(bytes: &[u8]) -> FrameHead
    requires long { LEAST_FRAME ≤ length bytes.now }
    requires room { HEAD_AT + least_head (loads_luma bytes.now) (loads_chroma bytes.now) ≤ length bytes.now }
    ensures { result ≡ header_of bytes.now }
{
    let load_luma = loads_luma(bytes);
    let load_chroma = loads_chroma(bytes);
    let encoder = array_at::<4>(bytes, ENCODER_AT);
    let luma = read_matrix(bytes, MATRICES_AT, load_luma);
    let chroma = read_matrix(bytes, MATRICES_AT + loaded_len(load_luma), load_chroma);
    FrameHead {
        head_size: u16_at(bytes, HEAD_AT),
        version: bytes[VERSION_AT],
        encoder,
        width: u16_at(bytes, WIDTH_AT),
        height: u16_at(bytes, HEIGHT_AT),
        chroma_format: bytes[FORMAT_AT] / 64,
        interlace: bytes[FORMAT_AT] / 4 % 4,
        aspect: bytes[RATE_AT] / 16,
        rate: bytes[RATE_AT] % 16,
        primaries: bytes[PRIMARIES_AT],
        transfer: bytes[TRANSFER_AT],
        matrix: bytes[COEFFICIENTS_AT],
        alpha: bytes[ALPHA_AT] % 16,
        load_luma,
        load_chroma,
        luma,
        chroma,
    }
}

/// The first rule that is broken by the fields of a frame header.
#[tactic(auto, unfolding(crate::specs::Rules::head_rules, crate::specs::Rules::first_broken))]
pub fn head_fault(head: &FrameHead) -> Option<FrameFault>
    ensures { result ≡ first_broken (head_rules head.now) }
{
    if head.version > MAX_VERSION {
        return Some(FrameFault::Version {
            at: VERSION_AT as u64,
            other: u64::from(head.version),
        });
    }
    if head.chroma_format != CHROMA_422 {
        return Some(FrameFault::Chroma {
            at: FORMAT_AT as u64,
            other: u64::from(head.chroma_format),
        });
    }
    if head.interlace == RESERVED_INTERLACE {
        return Some(FrameFault::Interlace {
            at: FORMAT_AT as u64,
            other: u64::from(head.interlace),
        });
    }
    if head.width < 2 || head.width > MAX_WIDTH || head.width % 2 != 0 {
        return Some(FrameFault::Dimensions {
            at: WIDTH_AT as u64,
            other: u64::from(head.width),
        });
    }
    if head.height < 1 || head.height > MAX_HEIGHT || head.interlace != 0 && head.height % 2 != 0 {
        return Some(FrameFault::Dimensions {
            at: HEIGHT_AT as u64,
            other: u64::from(head.height),
        });
    }
    if head.alpha != 0 {
        return Some(FrameFault::Alpha {
            at: ALPHA_AT as u64,
            other: u64::from(head.alpha),
        });
    }
    None
}

/// A matrix that is loaded from a place, 4 everywhere where it isn't loaded.
fn read_matrix(bytes: &[u8], at: usize, loaded: bool) -> [u8; MATRIX_LEN]
    requires { at + loaded_len loaded ≤ length bytes.now }
    ensures { result ≡ matrix_of bytes.now at loaded }
{
    if loaded {
        array_at::<MATRIX_LEN>(bytes, at)
    } else {
        [4; MATRIX_LEN]
    }
}

fn array_at<const N: usize>(bytes: &[u8], at: usize) -> [u8; N]
    requires { at + N ≤ length bytes.now }
    ensures { result ≡ take N (drop at bytes.now) }
{
    let mut found = [0u8; N];
    found.copy_from_slice(&bytes[at..at + N]);
    found
}

/// The number of two bytes at a place.
pub fn u16_at(bytes: &[u8], at: usize) -> u16
    requires { at + 2 ≤ length bytes.now }
    ensures { result ≡ big_number 2 (drop at bytes.now) }
{
    BigEndian::read_u16(&bytes[at..])
}
