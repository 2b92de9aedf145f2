//! Frames worked out by hand, by several workers.

ghost use Rattle.std.specs.Prelude.{◌≡◌, ◌≤◌, IfOk};
ghost use Rattle.rec_bytes.specs.Views.{view};
ghost use Rattle.picture_plane.specs.Sizes.{size_of};

use crate::tests::SMALL;
use crate::{decode_with, encode_with};
use frame_codec::DecodeFault;
use frame_syntax::FrameFault;
use picture_plane::Picture;
use rec_bytes::{Config, Memory, read_config};
use slice_codec::SliceFault;
use std::alloc::Global;
use std::test::Fail;
use std::thread::Threads;

// The frame of a grey picture of the example: 28 bytes of header, 10 of picture header and slice table, and one slice.
const GREY: [u8; 50] = [
    0x00, 0x00, 0x00, 0x32, 0x69, 0x63, 0x70, 0x66, 0x00, 0x14, 0x00, 0x00, 0x50, 0x52, 0x54, 0x4b,
    0x00, 0x10, 0x00, 0x10, 0x80, 0x13, 0x01, 0x01, 0x01, 0x00, 0x00, 0x00, 0x40, 0x00, 0x00, 0x00,
    0x16, 0x00, 0x01, 0x00, 0x00, 0x0c, 0x30, 0x01, 0x00, 0x02, 0x00, 0x02, 0x82, 0x30, 0x82, 0x00,
    0x82, 0x00,
];

// A grey slice of eight macroblocks.
const EIGHT_GREY: [u8; 17] = [
    0x30, 0x01, 0x00, 0x05, 0x00, 0x03, 0x82, 0x3f, 0xff, 0xff, 0xff, 0x82, 0x3f, 0xff, 0x82, 0x3f,
    0xff,
];

// What stands before the slice table of a grey frame of 1920 by 1080, whose slices have eight macroblocks.
const WIDE_FRONT: [u8; 36] = [
    0x00, 0x00, 0x4b, 0xd8, 0x69, 0x63, 0x70, 0x66, 0x00, 0x14, 0x00, 0x00, 0x50, 0x52, 0x54, 0x4b,
    0x07, 0x80, 0x04, 0x38, 0x80, 0x13, 0x01, 0x01, 0x01, 0x00, 0x00, 0x00, 0x40, 0x00, 0x00, 0x4b,
    0xbc, 0x03, 0xfc, 0x30,
];

/// A picture of this configuration whose samples are all 512.
fn grey(alloc: Global, cfg: &Config) -> Result<Picture, Memory>
    ensures { IfOk result (λ picture. picture.size ≡ size_of (view cfg.now)) }
{
    let mut picture = Picture::new(alloc, cfg)?;
    for k in 0..picture.samples().len() / 16 {
        if picture.samples().len() < 16 * k + 16 {
            return Ok(picture);
        }
        picture.fill(
            16 * k,
            &[
                512, 512, 512, 512, 512, 512, 512, 512, 512, 512, 512, 512, 512, 512, 512, 512,
            ],
        );
    }
    Ok(picture)
}

/// Whether all samples of what a frame means are 512.
fn is_grey(picture: &Picture) -> bool {
    picture.samples().iter().all(|sample| *sample == 512)
}

#[test]
fn the_smallest_frame_is_coded_and_decoded(rt: HostRuntime) -> Result<(), Fail> {
    let cfg = read_config(&SMALL)?;
    let picture = grey(rt.alloc(), &cfg)?;
    for workers in [1u8, 5] {
        let frame = encode_with(&rt, rt.alloc(), &cfg, &picture, workers)?;
        assert_eq!(rt; frame.as_slice(), GREY.as_slice(), "{workers} workers");
        let shown = decode_with(&rt, rt.alloc(), &GREY, workers)?;
        assert_eq!(rt; is_grey(&shown), true, "{workers} workers");
    }
    Ok(())
}

/// The example with 1920 by 1080 pictures, and eight macroblocks in a slice.
fn wide() -> [u8; 64] {
    let mut bytes = SMALL;
    bytes[0] = 0x07;
    bytes[1] = 0x80;
    bytes[2] = 0x04;
    bytes[3] = 0x38;
    bytes[10] = 3;
    bytes
}

/// The frame of a grey picture of that: 68 rows of 15 slices of 17 bytes.
fn wide_frame(alloc: Global) -> Result<Vec<u8>, Fail> {
    let mut frame = WIDE_FRONT.to_vec(alloc)?;
    for _ in 0..1020 {
        frame.extend_from_slice(&[0, 17])?;
    }
    for _ in 0..1020 {
        frame.extend_from_slice(&EIGHT_GREY)?;
    }
    Ok(frame)
}

/// Whether the frame of a grey picture of 1920 by 1080 is that by so many workers.
fn is_wide_frame<R: Threads + Sync>(rt: &R, alloc: Global, workers: u8) -> Result<bool, Fail>
    requires { (1 ≤ workers) × (workers ≤ 64) }
{
    let cfg = read_config(&wide())?;
    let picture = grey(alloc, &cfg)?;
    let frame = encode_with(rt, alloc, &cfg, &picture, workers)?;
    Ok(frame.len() == 19_416 && frame.as_slice() == wide_frame(alloc)?.as_slice())
}

#[test]
fn a_frame_of_1080_rows_has_these_bytes_by_one_worker(rt: HostRuntime) -> Result<(), Fail> {
    assert_eq!(rt; is_wide_frame(&rt, rt.alloc(), 1)?, true);
    Ok(())
}

#[test]
fn a_frame_of_1080_rows_has_these_bytes_by_three_workers(rt: HostRuntime) -> Result<(), Fail> {
    assert_eq!(rt; is_wide_frame(&rt, rt.alloc(), 3)?, true);
    Ok(())
}

#[test]
fn a_frame_of_1080_rows_has_these_bytes_by_64_workers(rt: HostRuntime) -> Result<(), Fail> {
    assert_eq!(rt; is_wide_frame(&rt, rt.alloc(), 64)?, true);
    Ok(())
}

#[test]
fn a_frame_of_1080_rows_is_decoded_by_five_workers(rt: HostRuntime) -> Result<(), Fail> {
    let shown = decode_with(&rt, rt.alloc(), &wide_frame(rt.alloc())?, 5)?;
    assert_eq!(rt; shown.samples().len(), 4_147_200);
    assert_eq!(rt; is_grey(&shown), true);
    Ok(())
}

#[test]
fn broken_frames_are_refused_by_five_workers(rt: HostRuntime) {
    let mut none = GREY;
    none[39] = 0;
    let mut large = GREY;
    large[39] = 0xe1;
    let mut long = GREY;
    long[40] = 0;
    long[41] = 7;
    let index = DecodeFault::Slice {
        index: 0,
        fault: SliceFault::Index { at: 1 },
    };
    let parts = DecodeFault::Slice {
        index: 0,
        fault: SliceFault::Parts { at: 2 },
    };
    let short = DecodeFault::Frame(FrameFault::SizeWord { at: 0, other: 50 });
    let cases: [(&str, &[u8], DecodeFault); 4] = [
        ("index 0", &none, index),
        ("index 225", &large, index),
        ("Y of seven bytes", &long, parts),
        ("31 bytes", &GREY[..31], short),
    ];
    for (name, bytes, fault) in cases {
        let found = decode_with(&rt, rt.alloc(), bytes, 5);
        assert_eq!(rt; found.err(), Some(fault), "{name}");
    }
}
