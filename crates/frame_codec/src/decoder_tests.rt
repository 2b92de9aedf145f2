//! Frames written by hand.

ghost use Rattle.std.specs.Prelude.{◌≤◌};

use crate::{DecodeFault, decode_frame};
use frame_syntax::FrameFault;
use slice_codec::SliceFault;
use std::alloc::{AllocError, Global};
use std::test::Fail;

// docs/formats/frames.md, "Smallest frame": written by hand.
const SMALL: [u8; 50] = [
    0x00, 0x00, 0x00, 0x32, 0x69, 0x63, 0x70, 0x66, 0x00, 0x14, 0x00, 0x00, 0x50, 0x52, 0x54, 0x4b,
    0x00, 0x10, 0x00, 0x10, 0x80, 0x13, 0x01, 0x01, 0x01, 0x00, 0x00, 0x00, 0x40, 0x00, 0x00, 0x00,
    0x16, 0x00, 0x01, 0x00, 0x00, 0x0c, 0x30, 0x01, 0x00, 0x02, 0x00, 0x02, 0x82, 0x30, 0x82, 0x00,
    0x82, 0x00,
];

/// The name and the header of the smallest frame.
const HEAD: [u8; 24] = [
    0x69, 0x63, 0x70, 0x66, 0x00, 0x14, 0x00, 0x00, 0x50, 0x52, 0x54, 0x4b, 0x00, 0x10, 0x00, 0x10,
    0x80, 0x13, 0x01, 0x01, 0x01, 0x00, 0x00, 0x00,
];

// Slices of one macroblock: of 512, of 4 and of 1019 everywhere.
const GREY: [u8; 12] = [
    0x30, 0x01, 0x00, 0x02, 0x00, 0x02, 0x82, 0x30, 0x82, 0x00, 0x82, 0x00,
];

const DARK: [u8; 16] = [
    0x30, 0x01, 0x00, 0x04, 0x00, 0x03, 0x01, 0xfe, 0x18, 0xc0, 0x01, 0xfe, 0x18, 0x01, 0xfe, 0x18,
];

const LIGHT: [u8; 16] = [
    0x30, 0x01, 0x00, 0x04, 0x00, 0x03, 0x01, 0xfd, 0x28, 0xc0, 0x01, 0xfd, 0x28, 0x01, 0xfd, 0x28,
];

/// The slice of a macroblock of 1023, whose first levels are 4089.
const WHITE: [u8; 18] = [
    0x30, 0x01, 0x00, 0x04, 0x00, 0x04, 0x00, 0x80, 0x4a, 0x30, 0x00, 0x80, 0x4a, 0x00, 0x00, 0x80,
    0x4a, 0x00,
];

/// Two macroblocks of 1019.
const WIDE: [u8; 18] = [
    0x30, 0x01, 0x00, 0x04, 0x00, 0x04, 0x01, 0xfd, 0x28, 0xfc, 0x01, 0xfd, 0x28, 0xc0, 0x01, 0xfd,
    0x28, 0xc0,
];

/// The slice of 512 behind a header of seven bytes.
const SEVEN: [u8; 13] = [
    0x38, 0x01, 0x00, 0x02, 0x00, 0x02, 0xff, 0x82, 0x30, 0x82, 0x00, 0x82, 0x00,
];

/// First levels of 1 in Y, and of -1 in Cb and Cr.
const TINTED: [u8; 12] = [
    0x30, 0x01, 0x00, 0x02, 0x00, 0x02, 0x8a, 0x30, 0x86, 0x00, 0x86, 0x00,
];

/// At scale 100 a level of 1 at scan position 1 of the first block, and no other.
const SLOPED: [u8; 12] = [
    0x30, 0x64, 0x00, 0x02, 0x00, 0x02, 0x82, 0x3c, 0x82, 0x00, 0x82, 0x00,
];

/// 512 and the product 400 at row 1 and column 0 of the transform, from the top down; or at row 0 and column 1, from the left.
const SLOPE: [u16; 8] = [529, 527, 522, 515, 509, 502, 497, 495];

// Headers of a coded picture of one slice, with its slice table: four bytes behind the slice, a header of nine bytes, a slice that passes the picture.
const ROOMY: [u8; 10] = [0x40, 0, 0, 0, 26, 0, 1, 0, 0, 12];

const NINE: [u8; 11] = [0x48, 0, 0, 0, 23, 0, 1, 0, 0xff, 0, 12];

const PASSING: [u8; 10] = [0x40, 0, 0, 0, 22, 0, 1, 0, 0, 13];

/// The value of all samples, if it is one.
type Meaning = Result<Option<u16>, DecodeFault>;

/// The header of a coded picture of one slice, and its slice table.
fn front(slice_len: u8) -> [u8; 10]
    requires { slice_len ≤ 100 }
{
    [0x40, 0, 0, 0, 10 + slice_len, 0, 1, 0, 0, slice_len]
}

/// The name and the header of a frame of less than 256 by 256, with this byte of format and mode.
fn head(width: u8, height: u8, format: u8) -> [u8; 24] {
    let mut bytes = HEAD;
    bytes[13] = width;
    bytes[15] = height;
    bytes[16] = format;
    bytes
}

/// A name and header of so many bytes in all, with these flags of matrices.
fn loads(head_size: u8, flags: u8) -> [u8; 24] {
    let mut bytes = HEAD;
    bytes[5] = head_size;
    bytes[23] = flags;
    bytes
}

/// The smallest frame with other bytes at some places.
fn changed(changes: &[(usize, u8)]) -> [u8; 50] {
    let mut bytes = SMALL;
    for (at, byte) in changes {
        if *at < 50 {
            bytes[*at] = *byte;
        }
    }
    bytes
}

/// A frame of these bytes behind its size.
fn framed(alloc: Global, parts: &[&[u8]]) -> Result<Vec<u8>, AllocError> {
    let mut len = 4usize;
    for part in parts {
        len = len.saturating_add(part.len());
    }
    let size = u32::try_from(len).unwrap_or(0);
    let mut bytes = size.to_be_bytes().to_vec(alloc)?;
    for part in parts {
        bytes.extend_from_slice(part)?;
    }
    Ok(bytes)
}

/// All samples of the picture that the bytes mean.
fn samples_of(alloc: Global, bytes: &[u8]) -> Result<Vec<u16>, DecodeFault> {
    let picture = decode_frame(alloc, bytes)?;
    match picture.samples().to_vec(alloc) {
        Ok(samples) => Ok(samples),
        Err(_) => Err(DecodeFault::Memory),
    }
}

fn value_in(alloc: Global, bytes: &[u8]) -> Meaning {
    let picture = decode_frame(alloc, bytes)?;
    let Some(value) = picture.samples().first() else {
        return Ok(None);
    };
    for sample in picture.samples() {
        if *sample != *value {
            return Ok(None);
        }
    }
    Ok(Some(*value))
}

/// What a frame of these parts behind its size means.
fn value_of(alloc: Global, parts: &[&[u8]]) -> Meaning {
    match framed(alloc, parts) {
        Ok(bytes) => value_in(alloc, &bytes),
        Err(_) => Err(DecodeFault::Memory),
    }
}

/// Puts a run of samples.
fn put(samples: &mut Vec<u16>, value: u16, count: usize) -> Result<(), AllocError> {
    for n in 0..count {
        samples.push(value)?;
    }
    Ok(())
}

// A change of the smallest frame, and what it means.
#[test]
fn the_smallest_frame_is_decoded_and_broken_ones_are_refused(rt: HostRuntime) {
    let index = Err(DecodeFault::Slice {
        index: 0,
        fault: SliceFault::Index { at: 1 },
    });
    let cases: [(&str, &[u8], Meaning); 8] = [
        ("the frame", &SMALL, Ok(Some(512))),
        ("index 0", &changed(&[(39, 0)]), index),
        ("index 225", &changed(&[(39, 0xe1)]), index),
        (
            "Y of seven bytes",
            &changed(&[(40, 0), (41, 7)]),
            Err(DecodeFault::Slice {
                index: 0,
                fault: SliceFault::Parts { at: 2 },
            }),
        ),
        (
            "31 bytes",
            &SMALL[..31],
            Err(DecodeFault::Frame(FrameFault::SizeWord { at: 0, other: 50 })),
        ),
        (
            "no bytes",
            &[],
            Err(DecodeFault::Frame(FrameFault::FrameShort { at: 0, other: 0 })),
        ),
        (
            "reserved bits of headers",
            &changed(&[(10, 0xff), (20, 0xb3), (25, 0xf0), (26, 0xff), (27, 0xfc)]),
            Ok(Some(512)),
        ),
        (
            "reserved bits of picture and slice, and their counts",
            &changed(&[(28, 0x47), (33, 0xff), (34, 0xff), (35, 0xcf), (38, 0x37)]),
            Ok(Some(512)),
        ),
    ];
    for (name, bytes, want) in cases {
        assert_eq!(rt; value_in(rt.alloc(), bytes), want, "{name}");
    }
}

// What a frame of these parts behind its size means.
#[test]
fn frames_of_one_slice_mean_its_samples(rt: HostRuntime) {
    let alloc = rt.alloc();
    let one = Err(DecodeFault::OneMatrix { at: 27 });
    let passing = Err(DecodeFault::Frame(FrameFault::SliceTable { at: 100, other: 0 }));
    let cases: [(&str, Meaning, Meaning); 11] = [
        (
            "of 4",
            value_of(alloc, &[&HEAD, &front(16), &DARK]),
            Ok(Some(4)),
        ),
        (
            "of 1019",
            value_of(alloc, &[&HEAD, &front(16), &LIGHT]),
            Ok(Some(1019)),
        ),
        (
            "of 1023",
            value_of(alloc, &[&HEAD, &front(18), &WHITE]),
            Ok(Some(1019)),
        ),
        (
            "bytes behind the picture",
            value_of(alloc, &[&HEAD, &front(12), &GREY, &[0; 10]]),
            Ok(Some(512)),
        ),
        (
            "bytes behind the slice",
            value_of(alloc, &[&HEAD, &ROOMY, &GREY, &[0xff; 4]]),
            Ok(Some(512)),
        ),
        (
            "a frame header of 24",
            value_of(alloc, &[&loads(24, 0), &[0xff; 4], &front(12), &GREY]),
            Ok(Some(512)),
        ),
        (
            "a picture header of 9",
            value_of(alloc, &[&HEAD, &NINE, &GREY]),
            Ok(Some(512)),
        ),
        (
            "a slice header of 7",
            value_of(alloc, &[&HEAD, &front(13), &SEVEN]),
            Ok(Some(512)),
        ),
        (
            "luma's matrix alone",
            value_of(alloc, &[&loads(84, 2), &[4; 64], &front(12), &GREY]),
            one,
        ),
        (
            "chroma's matrix alone",
            value_of(alloc, &[&loads(84, 1), &[4; 64], &front(12), &GREY]),
            one,
        ),
        (
            "and a slice too long",
            value_of(alloc, &[&loads(84, 2), &[4; 64], &PASSING, &GREY]),
            passing,
        ),
    ];
    for (name, found, want) in cases {
        assert_eq!(rt; found, want, "{name}");
    }
}

// A product of 16 makes 513, and one of -100 makes 509.
#[test]
fn each_matrix_weighs_its_own_planes(rt: HostRuntime) -> Result<(), Fail> {
    let bytes = framed(
        rt.alloc(),
        &[&loads(148, 3), &[16; 64], &[100; 64], &front(12), &TINTED],
    )?;
    let mut want = Vec::new(rt.alloc());
    put(&mut want, 513, 256)?;
    put(&mut want, 509, 256)?;
    assert_eq!(rt; samples_of(rt.alloc(), &bytes), Ok(want));
    Ok(())
}

#[test]
fn a_whole_frame_is_scanned_as_one(rt: HostRuntime) -> Result<(), Fail> {
    let bytes = framed(rt.alloc(), &[&HEAD, &front(12), &SLOPED])?;
    let mut want = Vec::new(rt.alloc());
    for row in 0..8 {
        want.extend_from_slice(&SLOPE)?;
        put(&mut want, 512, 8)?;
    }
    put(&mut want, 512, 128 + 256)?;
    assert_eq!(rt; samples_of(rt.alloc(), &bytes), Ok(want));
    Ok(())
}

#[test]
fn fields_have_a_scan_of_their_own(rt: HostRuntime) -> Result<(), Fail> {
    let bytes = framed(
        rt.alloc(),
        &[&head(16, 32, 0x84), &front(12), &SLOPED, &front(12), &GREY],
    )?;
    let mut want = Vec::new(rt.alloc());
    for value in SLOPE {
        put(&mut want, value, 8)?;
        put(&mut want, 512, 8 + 16)?;
    }
    put(&mut want, 512, 256 + 512)?;
    assert_eq!(rt; samples_of(rt.alloc(), &bytes), Ok(want));
    Ok(())
}

// Mode 1 has the top field first, mode 2 the bottom field.
#[test]
fn fields_are_put_into_their_rows(rt: HostRuntime) -> Result<(), Fail> {
    for (format, top, bottom) in [(0x84, 4, 1019), (0x88, 1019, 4)] {
        let head = head(16, 32, format);
        let bytes = framed(rt.alloc(), &[&head, &front(16), &DARK, &front(16), &LIGHT])?;
        let mut want = Vec::new(rt.alloc());
        for wide in [16, 8, 8] {
            for line in 0..16 {
                put(&mut want, top, wide)?;
                put(&mut want, bottom, wide)?;
            }
        }
        assert_eq!(rt; samples_of(rt.alloc(), &bytes), Ok(want), "format {format}");
    }
    Ok(())
}

/// Two slices of one macroblock each.
const TWO: [u8; 12] = [0x40, 0, 0, 0, 40, 0, 2, 0, 0, 16, 0, 12];
/// One slice of two macroblocks.
const BROAD: [u8; 10] = [0x40, 0, 0, 0, 28, 0, 1, 0x10, 0, 18];

#[test]
fn fields_may_be_cut_into_other_slices(rt: HostRuntime) -> Result<(), Fail> {
    let head = head(32, 32, 0x84);
    let bytes = framed(rt.alloc(), &[&head, &TWO, &DARK, &GREY, &BROAD, &WIDE])?;
    let mut want = Vec::new(rt.alloc());
    for wide in [16, 8, 8] {
        for line in 0..16 {
            put(&mut want, 4, wide)?;
            put(&mut want, 512, wide)?;
            put(&mut want, 1019, wide)?;
            put(&mut want, 1019, wide)?;
        }
    }
    assert_eq!(rt; samples_of(rt.alloc(), &bytes), Ok(want));
    Ok(())
}

// Which slices of three have an index of 0, and which is named.
#[test]
fn the_first_slice_that_is_refused_is_named(rt: HostRuntime) {
    let head = head(32, 32, 0x84);
    for (first, second, third, index) in [(1, 1, 0, 2), (1, 0, 1, 1), (1, 0, 0, 1), (0, 1, 0, 0)] {
        let mut one = DARK;
        one[1] = first;
        let mut two = GREY;
        two[1] = second;
        let mut three = WIDE;
        three[1] = third;
        let found = value_of(rt.alloc(), &[&head, &TWO, &one, &two, &BROAD, &three]);
        let want = DecodeFault::Slice {
            index,
            fault: SliceFault::Index { at: 1 },
        };
        assert_eq!(rt; found, Err(want), "slice {index}");
    }
}
