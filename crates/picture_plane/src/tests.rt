ghost use Rattle.std.specs.Prelude.{◌≡◌, IfOk};
ghost use Rattle.rec_bytes.specs.Views.{view};
ghost use Rattle.picture_plane.specs.Sizes.{size_of};
ghost use Rattle.picture_plane.specs.Views.{as_size};

use crate::{
    Field, FrameSize, Picture, Plane, SliceName, SliceSamples, cut_row, cut_slice, picture_slice,
    picture_slices, place_slice, slice_count, slice_name,
};
use rec_bytes::{Config, Memory, read_config};
use std::alloc::Global;
use std::process::Abort;

// docs/formats/configuration.md, "Configuration": the example, with log2 3.
const SMALL: [u8; 64] = [
    0x00, 0x10, 0x00, 0x10, 0x00, 0x03, 0x01, 0x01, 0x01, 0x01, 0x03, 0x01, 0xe0, 0x00, 0x00, 0x00,
    0x10, 0x00, 0x00, 0xfa, 0x00, 0x00, 0x00, 0x64, 0x00, 0x08, 0x00, 0x00, 0x00, 0x00, 0x00, 0x00,
    0x00, 0x00, 0x00, 0x00, 0x00, 0x00, 0x00, 0x00, 0x00, 0x00, 0x00, 0x00, 0x00, 0x00, 0x00, 0x00,
    0x50, 0x52, 0x54, 0x4b, 0x00, 0x00, 0x00, 0x00, 0x00, 0x00, 0x00, 0x00, 0x00, 0x00, 0x00, 0x00,
];

/// The example with another size.
fn config<R: Abort>(rt: &R, width: u16, height: u16, interlace: u8) -> Config {
    let mut bytes = SMALL;
    let w = width.to_be_bytes();
    let h = height.to_be_bytes();
    bytes[0] = w[0];
    bytes[1] = w[1];
    bytes[2] = h[0];
    bytes[3] = h[1];
    bytes[4] = interlace;
    read_config(&bytes).expect(rt, "a configuration")
}

/// A picture of this size in which samples that are near each other differ.
fn mixed<R: Abort>(rt: &R, alloc: Global, size: FrameSize) -> Result<Picture, Memory>
    ensures { IfOk result (λ picture. picture.size ≡ as_size size) }
{
    let mut picture = Picture::of_size(alloc, size)?;
    let mut value = 5u16;
    for at in 0..size.sample_count() {
        value = (value % 64 * 611 + value / 64 + 77) % 1024;
        assert!(rt; at < picture.samples().len());
        picture.fill(at, &[value]);
    }
    Ok(picture)
}

/// A picture into which each slice of another is put.
fn copy_of(alloc: Global, cfg: &Config, picture: &Picture) -> Result<Picture, Memory>
    requires { picture.now.size ≡ size_of (view cfg.now) }
{
    let mut copy = Picture::new(alloc, cfg)?;
    let mut samples = SliceSamples::new();
    for index in 0..slice_count(cfg) {
        let named = slice_name(cfg, index);
        cut_slice(picture, named, &mut samples);
        place_slice(&mut copy, named, &samples);
    }
    Ok(copy)
}

fn name(field: Field, row: u16, first: u16, count: u8) -> SliceName {
    SliceName {
        field,
        row,
        first,
        count,
    }
}

#[test]
fn rows_end_in_narrower_slices(rt: HostRuntime) {
    let cases: [(u16, u8, &[(u16, u8)]); 5] = [
        (27, 3, &[(0, 8), (8, 8), (16, 8), (24, 2), (26, 1)]),
        (7, 3, &[(0, 4), (4, 2), (6, 1)]),
        (7, 1, &[(0, 2), (2, 2), (4, 2), (6, 1)]),
        (3, 0, &[(0, 1), (1, 1), (2, 1)]),
        (0, 3, &[]),
    ];
    for (macroblocks, log2, slices) in cases {
        assert!(rt; log2 <= 3 && slices.len() < 100);
        for (n, slice) in slices.iter().enumerate() {
            assert!(rt; n < 100);
            assert_eq!(rt;
                cut_row(macroblocks, log2, n as u16),
                Some(*slice),
                "{macroblocks} by {log2}"
            );
        }
        assert_eq!(rt;
            cut_row(macroblocks, log2, slices.len() as u16),
            None,
            "{macroblocks} by {log2}"
        );
    }
}

#[test]
fn slices_are_numbered_picture_by_picture(rt: HostRuntime) {
    use crate::Field::{Bottom, Top, Whole};
    let cases: [(u16, u16, u8, u32, &[(u32, SliceName)]); 5] = [
        (
            18,
            18,
            0,
            2,
            &[(0, name(Whole, 0, 0, 2)), (1, name(Whole, 1, 0, 2))],
        ),
        (
            1920,
            1080,
            0,
            68 * 15,
            &[
                (14, name(Whole, 0, 112, 8)),
                (15, name(Whole, 1, 0, 8)),
                (1019, name(Whole, 67, 112, 8)),
            ],
        ),
        (
            1936,
            16,
            0,
            16,
            &[(14, name(Whole, 0, 112, 8)), (15, name(Whole, 0, 120, 1))],
        ),
        (
            1920,
            1080,
            1,
            2 * 510,
            &[(509, name(Top, 33, 112, 8)), (510, name(Bottom, 0, 0, 8))],
        ),
        (
            1920,
            1080,
            2,
            2 * 510,
            &[(509, name(Bottom, 33, 112, 8)), (510, name(Top, 0, 0, 8))],
        ),
    ];
    for (width, height, interlace, count, slices) in cases {
        let cfg = config(&rt, width, height, interlace);
        assert_eq!(rt; slice_count(&cfg), count, "{width} by {height}");
        for (index, named) in slices {
            assert!(rt; *index < slice_count(&cfg));
            assert_eq!(rt;
                slice_name(&cfg, *index),
                *named,
                "slice {index} of {width} by {height}"
            );
        }
    }
}

// By hand: slice of a coded picture of 18 by 36, plane, block and place, and the row and column of the frame that stands
// there. Each row of macroblocks is one slice.
#[test]
fn edges_are_repeated(rt: HostRuntime) -> Result<(), Memory> {
    use crate::Plane::{Cb, Cr, Y};
    let cases: [(u8, u8, u32, Plane, usize, usize, u32, u32); 12] = [
        (0, 0, 0, Y, 0, 9, 1, 1),
        (0, 0, 0, Y, 1, 0, 0, 8),
        (0, 0, 0, Y, 2, 0, 8, 0),
        (0, 0, 0, Y, 4, 1, 0, 17),
        (0, 0, 0, Y, 7, 63, 15, 17),
        (0, 0, 2, Y, 0, 24, 35, 0),
        (0, 0, 2, Y, 3, 63, 35, 15),
        (0, 0, 1, Cb, 1, 8, 25, 0),
        (0, 0, 1, Cr, 2, 3, 16, 8),
        (1, 0, 1, Y, 0, 16, 34, 0),
        (1, 1, 0, Y, 0, 8, 3, 0),
        (2, 0, 1, Cr, 0, 63, 35, 7),
    ];
    for (interlace, field, n, plane, block, place, row, col) in cases {
        let size = FrameSize::of(&config(&rt, 18, 36, interlace));
        let picture = mixed(&rt, rt.alloc(), size)?;
        assert!(rt; field < size.picture_count() && n < picture_slices(size, 3));
        let mut samples = SliceSamples::new();
        cut_slice(&picture, picture_slice(size, 3, field, n), &mut samples);
        assert!(rt; block < 16 && place < 64);
        let cut = samples.block(plane, block)[place];
        assert!(rt; row < u32::from(size.height) && col < size.columns(plane) as u32);
        assert_eq!(rt;
            cut,
            picture.get(plane, row, col),
            "{plane:?} {block} {place} of {n}"
        );
    }
    Ok(())
}

#[test]
fn slices_that_are_put_back_are_the_picture(rt: HostRuntime) -> Result<(), Memory> {
    for (width, height, interlace) in [
        (18, 18, 0),
        (2, 1, 0),
        (34, 36, 1),
        (34, 36, 2),
        (130, 34, 0),
    ] {
        let cfg = config(&rt, width, height, interlace);
        let picture = mixed(&rt, rt.alloc(), FrameSize::of(&cfg))?;
        let copy = copy_of(rt.alloc(), &cfg, &picture)?;
        assert_eq!(rt;
            copy.samples(),
            picture.samples(),
            "{width} by {height}, mode {interlace}"
        );
    }
    Ok(())
}
