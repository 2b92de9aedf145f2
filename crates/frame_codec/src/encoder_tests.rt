ghost use Rattle.std.specs.Prelude.{◌≡◌, IfOk};
ghost use Rattle.rec_bytes.specs.Views.{view};
ghost use Rattle.picture_plane.specs.Sizes.{size_of};

use crate::{FrameEncoder, encode_frame};
use picture_plane::Picture;
use rec_bytes::{Config, Memory, read_config};
use std::alloc::Global;
use std::process::Abort;
use std::test::Fail;

// docs/formats/configuration.md, "Configuration": the example, whose indices are 1 to 224 and whose weights are 4.
const SMALL: [u8; 64] = [
    0x00, 0x10, 0x00, 0x10, 0x00, 0x03, 0x01, 0x01, 0x01, 0x01, 0x00, 0x01, 0xe0, 0x00, 0x00, 0x00,
    0x10, 0x00, 0x00, 0xfa, 0x00, 0x00, 0x00, 0x64, 0x00, 0x08, 0x00, 0x00, 0x00, 0x00, 0x00, 0x00,
    0x00, 0x00, 0x00, 0x00, 0x00, 0x00, 0x00, 0x00, 0x00, 0x00, 0x00, 0x00, 0x00, 0x00, 0x00, 0x00,
    0x50, 0x52, 0x54, 0x4b, 0x00, 0x00, 0x00, 0x00, 0x00, 0x00, 0x00, 0x00, 0x00, 0x00, 0x00, 0x00,
];

// by hand: SMPTE RDD 36, "Slices"; a macroblock of flat 4, of flat 1019, and 1, 2 and 8 macroblocks of flat 512
const DARK: [u8; 16] = [
    0x30, 0x01, 0x00, 0x04, 0x00, 0x03, 0x01, 0xfe, 0x18, 0xc0, 0x01, 0xfe, 0x18, 0x01, 0xfe, 0x18,
];

const BRIGHT: [u8; 16] = [
    0x30, 0x01, 0x00, 0x04, 0x00, 0x03, 0x01, 0xfd, 0x28, 0xc0, 0x01, 0xfd, 0x28, 0x01, 0xfd, 0x28,
];

const GREY: [u8; 12] = [
    0x30, 0x01, 0x00, 0x02, 0x00, 0x02, 0x82, 0x30, 0x82, 0x00, 0x82, 0x00,
];

const TWO_GREY: [u8; 12] = [
    0x30, 0x01, 0x00, 0x02, 0x00, 0x02, 0x82, 0x3f, 0x82, 0x30, 0x82, 0x30,
];

const EIGHT_GREY: [u8; 17] = [
    0x30, 0x01, 0x00, 0x05, 0x00, 0x03, 0x82, 0x3f, 0xff, 0xff, 0xff, 0x82, 0x3f, 0xff, 0x82, 0x3f,
    0xff,
];

/// The example with another size, interlace mode, slice size and budget.
fn config<R: Abort>(
    rt: &R,
    width: u16,
    height: u16,
    interlace: u8,
    log2: u8,
    budget: u16,
) -> Config {
    let mut bytes = SMALL;
    let w = width.to_be_bytes();
    let h = height.to_be_bytes();
    let b = budget.to_be_bytes();
    bytes[0] = w[0];
    bytes[1] = w[1];
    bytes[2] = h[0];
    bytes[3] = h[1];
    bytes[4] = interlace;
    bytes[10] = log2;
    bytes[16] = b[0];
    bytes[17] = b[1];
    read_config(&bytes).expect(rt, "a configuration")
}

/// A picture whose even rows have one value and whose odd rows another, where its rows are even in number.
fn striped<R: Abort>(
    rt: &R,
    alloc: Global,
    cfg: &Config,
    even: u16,
    odd: u16,
) -> Result<Picture, Memory>
    ensures { IfOk result (λ picture. picture.size ≡ size_of (view cfg.now)) }
{
    let mut picture = Picture::new(alloc, cfg)?;
    let half = usize::from(cfg.width / 2);
    let luma = usize::from(cfg.height) * usize::from(cfg.width);
    assert!(rt; half > 0 && even < 1024 && odd < 1024);
    for at in 0..picture.size().sample_count() {
        let row = if at < luma {
            at / (2 * half)
        } else {
            (at - luma) / half
        };
        assert!(rt; at < picture.samples().len());
        picture.fill(at, &[if row % 2 == 0 { even } else { odd }]);
    }
    Ok(picture)
}

/// The bytes before the coded pictures of a frame of the example with another size and interlace mode.
fn front(len: u32, width: u16, height: u16, interlace: u8) -> [u8; 28] {
    let l = len.to_be_bytes();
    let w = width.to_be_bytes();
    let h = height.to_be_bytes();
    let format = match interlace {
        0 => 0x80,
        1 => 0x84,
        _ => 0x88,
    };
    [
        l[0], l[1], l[2], l[3], 0x69, 0x63, 0x70, 0x66, 0x00, 0x14, 0x00, 0x00, 0x50, 0x52, 0x54,
        0x4b, w[0], w[1], h[0], h[1], format, 0x13, 0x01, 0x01, 0x01, 0x00, 0x00, 0x00,
    ]
}

/// Appends a coded picture: its header, its slice table and its slices, each so often.
fn add_picture(bytes: &mut Vec<u8>, head: [u8; 8], slices: &[(usize, &[u8])]) -> Result<(), Fail> {
    bytes.extend_from_slice(&head)?;
    for (count, slice) in slices {
        for _ in 0..*count {
            bytes.extend_from_slice(&((slice.len() % 65536) as u16).to_be_bytes())?;
        }
    }
    for (count, slice) in slices {
        for _ in 0..*count {
            bytes.extend_from_slice(slice)?;
        }
    }
    Ok(())
}

#[test]
fn a_frame_of_one_slice_has_these_bytes(rt: HostRuntime) -> Result<(), Fail> {
    let cfg = config(&rt, 16, 16, 0, 0, 4096);
    let grey = [
        0x00, 0x00, 0x00, 0x32, 0x69, 0x63, 0x70, 0x66, 0x00, 0x14, 0x00, 0x00, 0x50, 0x52, 0x54,
        0x4b, 0x00, 0x10, 0x00, 0x10, 0x80, 0x13, 0x01, 0x01, 0x01, 0x00, 0x00, 0x00, 0x40, 0x00,
        0x00, 0x00, 0x16, 0x00, 0x01, 0x00, 0x00, 0x0c, 0x30, 0x01, 0x00, 0x02, 0x00, 0x02, 0x82,
        0x30, 0x82, 0x00, 0x82, 0x00,
    ];
    let picture = striped(&rt, rt.alloc(), &cfg, 512, 512)?;
    let frame = encode_frame(rt.alloc(), &cfg, &picture)?;
    assert_eq!(rt; frame.as_slice(), grey.as_slice());
    // one encoder for frames of more and of fewer bytes
    let mut encoder = FrameEncoder::new(rt.alloc(), &cfg)?;
    assert_eq!(rt; encoder.frame().len(), 0);
    // value, bytes of the frame and of its coded picture, slice: by hand
    let cases: [(u16, u32, u8, &[u8]); 3] = [
        (4, 54, 26, &DARK),
        (512, 50, 22, &GREY),
        (1019, 54, 26, &BRIGHT),
    ];
    for (value, len, size, slice) in cases {
        let picture = striped(&rt, rt.alloc(), &cfg, value, value)?;
        encoder.encode(&picture);
        let mut want = front(len, 16, 16, 0).to_vec(rt.alloc())?;
        add_picture(&mut want, [0x40, 0, 0, 0, size, 0, 1, 0], &[(1, slice)])?;
        assert_eq!(rt; encoder.frame(), want.as_slice(), "flat {value}");
    }
    Ok(())
}

#[test]
fn slices_stand_row_by_row(rt: HostRuntime) -> Result<(), Fail> {
    // width, height, bytes of the frame and of the coded picture, slices: by hand
    let cases: [(u16, u16, u32, [u8; 8], &[(usize, &[u8])]); 2] = [
        (
            18,
            18,
            64,
            [0x40, 0, 0, 0, 36, 0, 2, 0x30],
            &[(2, &TWO_GREY)],
        ),
        (
            1936,
            16,
            335,
            [0x40, 0, 0, 1, 51, 0, 16, 0x30],
            &[(15, &EIGHT_GREY), (1, &GREY)],
        ),
    ];
    for (width, height, len, head, slices) in cases {
        let cfg = config(&rt, width, height, 0, 3, 4096);
        let picture = striped(&rt, rt.alloc(), &cfg, 512, 512)?;
        let frame = encode_frame(rt.alloc(), &cfg, &picture)?;
        let mut want = front(len, width, height, 0).to_vec(rt.alloc())?;
        add_picture(&mut want, head, slices)?;
        assert_eq!(rt; frame.as_slice(), want.as_slice(), "{width} by {height}");
    }
    Ok(())
}

#[test]
fn the_first_field_comes_first(rt: HostRuntime) -> Result<(), Fail> {
    for (interlace, first, second) in [(1, &DARK, &BRIGHT), (2, &BRIGHT, &DARK)] {
        let cfg = config(&rt, 16, 32, interlace, 0, 4096);
        let picture = striped(&rt, rt.alloc(), &cfg, 4, 1019)?;
        let frame = encode_frame(rt.alloc(), &cfg, &picture)?;
        let mut want = front(80, 16, 32, interlace).to_vec(rt.alloc())?;
        add_picture(&mut want, [0x40, 0, 0, 0, 26, 0, 1, 0], &[(1, first)])?;
        add_picture(&mut want, [0x40, 0, 0, 0, 26, 0, 1, 0], &[(1, second)])?;
        assert_eq!(rt; frame.as_slice(), want.as_slice(), "mode {interlace}");
    }
    Ok(())
}

#[test]
fn the_least_index_that_fits_is_taken(rt: HostRuntime) -> Result<(), Fail> {
    // budget, index, bytes of the slice: by hand
    for (budget, index, bytes) in [(16, 1, 16), (15, 2, 15), (12, 37, 12), (11, 224, 12)] {
        let cfg = config(&rt, 16, 16, 0, 0, budget);
        let picture = striped(&rt, rt.alloc(), &cfg, 4, 4)?;
        let frame = encode_frame(rt.alloc(), &cfg, &picture)?;
        assert!(rt; frame.len() > 39);
        assert_eq!(rt;
            (frame[39], frame.len()),
            (index, 38 + bytes),
            "at {budget}"
        );
    }
    Ok(())
}

#[test]
fn a_whole_frame_of_1080_rows_has_these_bytes(rt: HostRuntime) -> Result<(), Fail> {
    let cfg = config(&rt, 1920, 1080, 0, 3, 4096);
    let picture = striped(&rt, rt.alloc(), &cfg, 512, 512)?;
    let frame = encode_frame(rt.alloc(), &cfg, &picture)?;
    let mut want = front(19_416, 1920, 1080, 0).to_vec(rt.alloc())?;
    // 68 rows of 15 slices, in 19,388 bytes
    add_picture(
        &mut want,
        [0x40, 0, 0, 0x4b, 0xbc, 0x03, 0xfc, 0x30],
        &[(1020, &EIGHT_GREY)],
    )?;
    assert_eq!(rt; frame.as_slice(), want.as_slice());
    Ok(())
}

#[test]
fn two_fields_of_540_rows_have_these_bytes(rt: HostRuntime) -> Result<(), Fail> {
    let cfg = config(&rt, 1920, 1080, 1, 3, 4096);
    let picture = striped(&rt, rt.alloc(), &cfg, 512, 512)?;
    let frame = encode_frame(rt.alloc(), &cfg, &picture)?;
    let mut want = front(19_424, 1920, 1080, 1).to_vec(rt.alloc())?;
    // 34 rows of 15 slices each, in 9,698 bytes
    for _ in 0..2 {
        add_picture(
            &mut want,
            [0x40, 0, 0, 0x25, 0xe2, 0x01, 0xfe, 0x30],
            &[(510, &EIGHT_GREY)],
        )?;
    }
    assert_eq!(rt; frame.as_slice(), want.as_slice());
    Ok(())
}
