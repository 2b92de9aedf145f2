//! By any number of workers the answers are those of one thread.

ghost use Rattle.std.specs.Prelude.{◌≡◌, IfOk};
ghost use Rattle.rec_bytes.specs.Views.{view};
ghost use Rattle.picture_plane.specs.Sizes.{size_of};

use crate::{WorkerEncoder, decode_with, encode_with};
use frame_codec::{DecodeFault, decode_frame, encode_frame};
use frame_syntax::read_frame;
use picture_plane::Picture;
use rec_bytes::{Config, Memory, read_config};
use slice_codec::SliceFault;
use std::alloc::Global;
use std::process::Abort;
use std::test::Fail;

// docs/formats/configuration.md, "Configuration": the example, whose indices are 1 to 224 and whose weights are 4.
pub(crate) const SMALL: [u8; 64] = [
    0x00, 0x10, 0x00, 0x10, 0x00, 0x03, 0x01, 0x01, 0x01, 0x01, 0x00, 0x01, 0xe0, 0x00, 0x00, 0x00,
    0x10, 0x00, 0x00, 0xfa, 0x00, 0x00, 0x00, 0x64, 0x00, 0x08, 0x00, 0x00, 0x00, 0x00, 0x00, 0x00,
    0x00, 0x00, 0x00, 0x00, 0x00, 0x00, 0x00, 0x00, 0x00, 0x00, 0x00, 0x00, 0x00, 0x00, 0x00, 0x00,
    0x50, 0x52, 0x54, 0x4b, 0x00, 0x00, 0x00, 0x00, 0x00, 0x00, 0x00, 0x00, 0x00, 0x00, 0x00, 0x00,
];

/// The example with another size in bytes below 256, interlace mode, slice size and budget below 256.
fn config(width: u8, height: u8, interlace: u8, log2: u8, budget: u8) -> Result<Config, Fail> {
    let mut bytes = SMALL;
    bytes[1] = width;
    bytes[3] = height;
    bytes[4] = interlace;
    bytes[10] = log2;
    bytes[16] = 0;
    bytes[17] = budget;
    Ok(read_config(&bytes)?)
}

/// A picture of noise, in which no two slices are alike.
fn noise<R: Abort>(rt: &R, alloc: Global, cfg: &Config, seed: u32) -> Result<Picture, Memory>
    ensures { IfOk result (λ picture. picture.size ≡ size_of (view cfg.now)) }
{
    let mut picture = Picture::new(alloc, cfg)?;
    let mut x = seed;
    for at in 0..picture.size().sample_count() {
        x = x.wrapping_mul(1_664_525).wrapping_add(1_013_904_223);
        assert!(rt; at < picture.samples().len());
        picture.fill(at, &[(x / 4_194_304) as u16 % 1024]);
    }
    Ok(picture)
}

#[test]
fn frames_and_pictures_are_those_of_one_thread(rt: HostRuntime) -> Result<(), Fail> {
    // width, height, interlace mode, log2 of the slice size, budget
    let cases = [
        (96u8, 48u8, 0u8, 1u8, 60u8),
        (80, 64, 1, 0, 200),
        (16, 16, 0, 3, 8),
        (128, 32, 2, 3, 255),
    ];
    for (width, height, interlace, log2, budget) in cases {
        let cfg = config(width, height, interlace, log2, budget)?;
        let picture = noise(&rt, rt.alloc(), &cfg, 7)?;
        let one = encode_frame(rt.alloc(), &cfg, &picture)?;
        let shown = decode_frame(rt.alloc(), &one)?;
        for workers in [1u8, 3, 8, 64] {
            let frame = encode_with(&rt, rt.alloc(), &cfg, &picture, workers)?;
            assert_eq!(rt;
                frame.as_slice(),
                one.as_slice(),
                "{width}, {workers} workers"
            );
            let again = decode_with(&rt, rt.alloc(), &one, workers)?;
            assert_eq!(rt;
                again.samples(),
                shown.samples(),
                "{width}, {workers} workers"
            );
        }
    }
    Ok(())
}

#[test]
fn an_encoder_serves_for_many_pictures(rt: HostRuntime) -> Result<(), Fail> {
    let cfg = config(96, 48, 0, 1, 60)?;
    let mut encoder = WorkerEncoder::new(rt.alloc(), &cfg, 3)?;
    for seed in [1u32, 2, 1] {
        let picture = noise(&rt, rt.alloc(), &cfg, seed)?;
        encoder.encode(&rt, &picture);
        let one = encode_frame(rt.alloc(), &cfg, &picture)?;
        assert_eq!(rt; encoder.frame(), one.as_slice(), "picture {seed}");
    }
    Ok(())
}

// Which slices have an index of 0, and which is named: 5 workers, two coded pictures of 20 slices.
#[test]
fn the_first_slice_that_is_refused_is_named(rt: HostRuntime) -> Result<(), Fail> {
    let cfg = config(80, 128, 1, 0, 60)?;
    let picture = noise(&rt, rt.alloc(), &cfg, 3)?;
    let frame = encode_frame(rt.alloc(), &cfg, &picture)?;
    let parts = read_frame(&frame)?;
    let cases: [(&[u32], u64); 6] = [
        (&[39], 39),
        (&[39, 38, 37, 20], 20),
        (&[21, 19], 19),
        (&[5, 4, 3, 30], 3),
        (&[0, 39], 0),
        (&[7, 8, 9, 10, 11], 7),
    ];
    for (broken, index) in cases {
        let mut bytes = frame.as_slice().to_vec(rt.alloc())?;
        for number in broken {
            if *number < parts.slices {
                let (at, len) = parts.slice(&frame, *number);
                if at < bytes.len() && at + 1 < bytes.len() {
                    bytes[at + 1] = 0;
                }
            }
        }
        let want = DecodeFault::Slice {
            index,
            fault: SliceFault::Index { at: 1 },
        };
        let found = decode_with(&rt, rt.alloc(), &bytes, 5);
        assert_eq!(rt; found.err(), Some(want), "slice {index}");
    }
    Ok(())
}

// A frame that is cut or changed before its slices is refused as by one thread.
#[test]
fn broken_frames_are_refused_as_by_one_thread(rt: HostRuntime) -> Result<(), Fail> {
    let cfg = config(32, 32, 1, 1, 60)?;
    let picture = noise(&rt, rt.alloc(), &cfg, 5)?;
    let frame = encode_frame(rt.alloc(), &cfg, &picture)?;
    for at in 0..48usize {
        let mut bytes = frame.as_slice().to_vec(rt.alloc())?;
        if at < bytes.len() {
            bytes[at] = bytes[at].wrapping_add(1);
        }
        let one = decode_frame(rt.alloc(), &bytes);
        let five = decode_with(&rt, rt.alloc(), &bytes, 5);
        assert_eq!(rt; five.err(), one.err(), "byte {at}");
    }
    Ok(())
}
