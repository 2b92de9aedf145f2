use crate::{
    FrameFault, FrameHead, FrameParts, PictureHead, differs, frame_room, head_of, put_frame_front,
    put_picture_front, read_frame,
};
use rec_bytes::Config;
use std::alloc::Global;
use std::test::Fail;

// docs/formats/frames.md, "Smallest frame": written by hand.
const SMALL: [u8; 50] = [
    0x00, 0x00, 0x00, 0x32, 0x69, 0x63, 0x70, 0x66, 0x00, 0x14, 0x00, 0x00, 0x50, 0x52, 0x54, 0x4b,
    0x00, 0x10, 0x00, 0x10, 0x80, 0x13, 0x01, 0x01, 0x01, 0x00, 0x00, 0x00, 0x40, 0x00, 0x00, 0x00,
    0x16, 0x00, 0x01, 0x00, 0x00, 0x0c, 0x30, 0x01, 0x00, 0x02, 0x00, 0x02, 0x82, 0x30, 0x82, 0x00,
    0x82, 0x00,
];

/// The smallest frame with other bytes at some places.
fn changed(changes: &[(usize, u8)]) -> [u8; 50] {
    let mut bytes = SMALL;
    for (at, byte) in changes {
        if *at < 50 {
            bytes[*at] = *byte;
        }
    }
    bytes
}

/// A slice of a frame by its number.
fn slice_of(bytes: &[u8], index: u32) -> Option<(usize, usize)> {
    match read_frame(bytes) {
        Ok(parts) if index < parts.slices => Some(parts.slice(bytes, index)),
        _ => None,
    }
}

/// Some bytes of the smallest frame, changed so.
fn part(frame: &[u8; 50], from: usize, to: usize) -> &[u8] {
    frame.get(from..to).unwrap_or(&[])
}

const SMALL_HEAD: FrameHead = FrameHead {
    head_size: 20,
    version: 0,
    encoder: *b"PRTK",
    width: 16,
    height: 16,
    chroma_format: 2,
    interlace: 0,
    aspect: 1,
    rate: 3,
    primaries: 1,
    transfer: 1,
    matrix: 1,
    alpha: 0,
    load_luma: false,
    load_chroma: false,
    luma: [4; 64],
    chroma: [4; 64],
};

const SMALL_PICTURE: PictureHead = PictureHead {
    at: 28,
    head_size: 8,
    size: 22,
    log2: 0,
    slices: 1,
};

#[test]
fn the_smallest_frame_is_read(rt: HostRuntime) {
    let parts = FrameParts {
        head: SMALL_HEAD,
        first: SMALL_PICTURE,
        second: None,
        slices: 1,
    };
    assert_eq!(rt; read_frame(&SMALL), Ok(parts), "parts");
    assert_eq!(rt; slice_of(&SMALL, 0), Some((38, 12)), "the slice");
    assert_eq!(rt; slice_of(&SMALL, 1), None, "the slice behind it");
    if let Ok(parts) = read_frame(&SMALL) {
        let mut slices = parts.slices(&SMALL);
        assert_eq!(rt; slices.next(), Some((38, 12)), "the slice in order");
        assert_eq!(rt; slices.next(), None, "no slice behind it");
    }
}

// A change of the smallest frame, and the refusal. Each but the last four breaks only this rule.
#[test]
fn each_rule_is_tried_at_its_place_and_in_order(rt: HostRuntime) {
    let cases: [(&str, &[(usize, u8)], Option<FrameFault>); 37] = [
        (
            "byte 5",
            &[(5, 0)],
            Some(FrameFault::NotIcpf { at: 4, other: 0 }),
        ),
        (
            "size 49",
            &[(3, 49)],
            Some(FrameFault::SizeWord { at: 0, other: 49 }),
        ),
        (
            "size 51",
            &[(3, 51)],
            Some(FrameFault::SizeWord { at: 0, other: 51 }),
        ),
        (
            "header of 19",
            &[(9, 19)],
            Some(FrameFault::HeadSize { at: 8, other: 19 }),
        ),
        (
            "header of 43",
            &[(9, 43)],
            Some(FrameFault::HeadSize { at: 8, other: 43 }),
        ),
        (
            "header of 42",
            &[(9, 42)],
            Some(FrameFault::PictureSize { at: 50, other: 0 }),
        ),
        (
            "luma matrix without room",
            &[(27, 2)],
            Some(FrameFault::HeadSize { at: 8, other: 20 }),
        ),
        (
            "chroma matrix without room",
            &[(27, 1)],
            Some(FrameFault::HeadSize { at: 8, other: 20 }),
        ),
        ("version 1", &[(11, 1)], None),
        (
            "version 2",
            &[(11, 2)],
            Some(FrameFault::Version { at: 11, other: 2 }),
        ),
        (
            "4:4:4",
            &[(20, 0xc0)],
            Some(FrameFault::Chroma { at: 20, other: 3 }),
        ),
        (
            "interlace 3",
            &[(20, 0x8c)],
            Some(FrameFault::Interlace { at: 20, other: 3 }),
        ),
        (
            "width 17",
            &[(17, 17)],
            Some(FrameFault::Dimensions { at: 16, other: 17 }),
        ),
        (
            "width 0",
            &[(17, 0)],
            Some(FrameFault::Dimensions { at: 16, other: 0 }),
        ),
        (
            "width 4098",
            &[(16, 16), (17, 2)],
            Some(FrameFault::Dimensions {
                at: 16,
                other: 4098,
            }),
        ),
        (
            "height 0",
            &[(19, 0)],
            Some(FrameFault::Dimensions { at: 18, other: 0 }),
        ),
        ("height 15", &[(19, 15)], None),
        (
            "height 2305",
            &[(18, 9), (19, 1)],
            Some(FrameFault::Dimensions {
                at: 18,
                other: 2305,
            }),
        ),
        (
            "height 15 interlaced",
            &[(19, 15), (20, 0x84)],
            Some(FrameFault::Dimensions { at: 18, other: 15 }),
        ),
        (
            "alpha 1",
            &[(25, 1)],
            Some(FrameFault::Alpha { at: 25, other: 1 }),
        ),
        (
            "reserved bits",
            &[(10, 255), (20, 0xb3), (25, 0xf0), (26, 255), (27, 0xfc)],
            None,
        ),
        (
            "picture size 9",
            &[(32, 9)],
            Some(FrameFault::PictureSize { at: 28, other: 0 }),
        ),
        (
            "picture size 23",
            &[(32, 23)],
            Some(FrameFault::PictureSize { at: 28, other: 0 }),
        ),
        (
            "picture header of 7",
            &[(28, 0x38)],
            Some(FrameFault::PictureSize { at: 28, other: 0 }),
        ),
        (
            "reserved bits of the picture header",
            &[(28, 0x47), (35, 0xcf)],
            None,
        ),
        ("another slice count", &[(33, 255)], None),
        ("slices of 8", &[(35, 0x30)], None),
        (
            "slice of 13",
            &[(37, 13)],
            Some(FrameFault::SliceTable { at: 36, other: 0 }),
        ),
        ("slice of 11", &[(37, 11)], None),
        (
            "no room for a second field",
            &[(20, 0x84)],
            Some(FrameFault::PictureSize { at: 50, other: 1 }),
        ),
        (
            "second field, and a slice of the first",
            &[(20, 0x84), (37, 13)],
            Some(FrameFault::PictureSize { at: 50, other: 1 }),
        ),
        (
            "name, then size",
            &[(4, 0), (3, 0)],
            Some(FrameFault::NotIcpf { at: 4, other: 0 }),
        ),
        (
            "size, then header",
            &[(3, 0), (9, 0)],
            Some(FrameFault::SizeWord { at: 0, other: 0 }),
        ),
        (
            "header, then version",
            &[(9, 0), (11, 2)],
            Some(FrameFault::HeadSize { at: 8, other: 0 }),
        ),
        (
            "version, then chroma",
            &[(11, 2), (20, 0)],
            Some(FrameFault::Version { at: 11, other: 2 }),
        ),
        (
            "chroma, then interlace",
            &[(20, 0x0c)],
            Some(FrameFault::Chroma { at: 20, other: 0 }),
        ),
        (
            "height, then alpha",
            &[(19, 0), (25, 1)],
            Some(FrameFault::Dimensions { at: 18, other: 0 }),
        ),
    ];
    for (name, changes, want) in cases {
        assert_eq!(rt; read_frame(&changed(changes)).err(), want, "{name}");
    }
}

#[test]
fn a_cut_frame_is_refused(rt: HostRuntime) {
    let cases: [(usize, FrameFault); 4] = [
        (0, FrameFault::FrameShort { at: 0, other: 0 }),
        (27, FrameFault::FrameShort { at: 27, other: 0 }),
        (28, FrameFault::SizeWord { at: 0, other: 50 }),
        (31, FrameFault::SizeWord { at: 0, other: 50 }),
    ];
    for (len, want) in cases {
        assert_eq!(rt; read_frame(&SMALL[..len]).err(), Some(want), "{len} bytes");
    }
}

// Ten zero bytes behind the smallest frame, which its frame size counts: 60 = 3Ch.
#[test]
fn bytes_behind_the_last_picture_are_passed_over(rt: HostRuntime) {
    let mut bytes = [0u8; 60];
    bytes[..50].copy_from_slice(&changed(&[(3, 60)]));
    assert_eq!(rt;
        read_frame(&bytes).map(|parts| parts.first),
        Ok(SMALL_PICTURE)
    );
}

// One matrix behind the header's fields: 64 bytes more, so a header of 84 = 54h and a frame of 114 = 72h.
#[test]
fn a_matrix_is_read_where_it_is_loaded(rt: HostRuntime) -> Result<(), Fail> {
    for (flags, luma, chroma) in [(2, 7, 4), (1, 4, 7)] {
        let front = changed(&[(3, 114), (9, 84), (27, flags)]);
        let mut bytes = part(&front, 0, 28).to_vec(rt.alloc())?;
        bytes.extend_from_slice(&[7; 64])?;
        bytes.extend_from_slice(part(&front, 28, 50))?;
        if let Ok(parts) = read_frame(&bytes) {
            assert_eq!(rt; parts.head.load_luma, flags == 2, "{flags}");
            assert_eq!(rt; parts.head.load_chroma, flags == 1, "{flags}");
            assert_eq!(rt; parts.head.luma, [luma; 64], "{flags}");
            assert_eq!(rt; parts.head.chroma, [chroma; 64], "{flags}");
        }
        assert_eq!(rt; slice_of(&bytes, 0), Some((102, 12)), "{flags}");
    }
    Ok(())
}

// The smallest frame as its two fields of 16 by 16: a second picture of 22 bytes, and a frame of 72 = 48h.
#[test]
fn slices_are_numbered_over_both_fields(rt: HostRuntime) -> Result<(), Fail> {
    let front = changed(&[(3, 72), (19, 32), (20, 0x84)]);
    let mut bytes = front.to_vec(rt.alloc())?;
    bytes.extend_from_slice(part(&front, 28, 50))?;
    assert_eq!(rt; slice_of(&bytes, 1), Some((60, 12)));
    assert_eq!(rt; slice_of(&bytes, 2), None);
    if let Ok(parts) = read_frame(&bytes) {
        let mut slices = parts.slices(&bytes);
        let found = [slices.next(), slices.next(), slices.next()];
        assert_eq!(rt; found, [Some((38, 12)), Some((60, 12)), None]);
    }
    if let Some(byte) = bytes.get_mut(59) {
        *byte = 13;
    }
    let want = FrameFault::SliceTable { at: 58, other: 1 };
    assert_eq!(rt;
        read_frame(&bytes).err(),
        Some(want),
        "a slice of the second field"
    );
    Ok(())
}

#[test]
fn the_first_difference_from_a_configuration_is_named(rt: HostRuntime) {
    let cfg = Config {
        width: 16,
        height: 16,
        interlace: 0,
        rate: 8,
        aspect: 2,
        primaries: 1,
        transfer: 1,
        matrix: 1,
        log2: 0,
        qmin: 1,
        qmax: 224,
        weights: 0,
        coding: 0,
        drop: 0,
        budget: 4096,
        part: 250,
        max_frames: 100,
        lag: 8,
        start: 0,
        take_id: [0; 16],
        encoder: *b"PRTK",
    };
    let cases: [(u16, u16, u8, Option<usize>); 5] = [
        (16, 16, 0, None),
        (18, 18, 1, Some(16)),
        (16, 18, 1, Some(18)),
        (16, 16, 1, Some(20)),
        (16, 16, 2, Some(20)),
    ];
    for (width, height, interlace, want) in cases {
        let head = FrameHead {
            width,
            height,
            interlace,
            ..SMALL_HEAD
        };
        assert_eq!(rt;
            differs(&head, &cfg),
            want,
            "{width} by {height}, {interlace}"
        );
    }
}

/// A frame of 1920 by 1080, whole or as two fields, with slices of 8 macroblocks and of 17 zero bytes.
fn broadcast(
    alloc: Global,
    interlace: u8,
    size: [u8; 2],
    picture: [u8; 2],
    slices: usize,
) -> Result<Vec<u8>, Fail> {
    let front = changed(&[
        (2, size[0]),
        (3, size[1]),
        (16, 7),
        (17, 0x80),
        (18, 4),
        (19, 0x38),
        (20, 0x80 + 4 * (interlace % 3)),
        (31, picture[0]),
        (32, picture[1]),
        (35, 0x30),
    ]);
    let mut bytes = Vec::new(alloc);
    bytes.extend_from_slice(part(&front, 0, 28))?;
    for _ in 0..1020 / slices.max(1) {
        bytes.extend_from_slice(part(&front, 28, 36))?;
        for _ in 0..slices {
            bytes.extend_from_slice(&[0, 17])?;
        }
        for _ in 0..slices {
            bytes.extend_from_slice(&[0; 17])?;
        }
    }
    Ok(bytes)
}

// 68 rows of 15 slices: 28 + 8 + 1020 * 19 = 19,416 = 4BD8h bytes, and a picture of 19,388 = 4BBCh; as two fields of 34
// rows 28 + 2 * (8 + 510 * 19) = 19,424 = 4BE0h, and pictures of 9,698 = 25E2h.
#[test]
fn broadcast_frames_have_their_slices(rt: HostRuntime) -> Result<(), Fail> {
    let cases: [(u8, [u8; 2], [u8; 2], usize, usize, usize); 3] = [
        (0, [0x4b, 0xd8], [0x4b, 0xbc], 1020, 19_416, 19_399),
        (1, [0x4b, 0xe0], [0x25, 0xe2], 510, 19_424, 19_407),
        (2, [0x4b, 0xe0], [0x25, 0xe2], 510, 19_424, 19_407),
    ];
    for (interlace, size, picture, slices, len, last) in cases {
        let bytes = broadcast(rt.alloc(), interlace, size, picture, slices)?;
        assert_eq!(rt; bytes.len(), len, "{interlace}");
        assert_eq!(rt;
            read_frame(&bytes).map(|parts| parts.slices),
            Ok(1020),
            "{interlace}"
        );
        assert_eq!(rt; slice_of(&bytes, 1019), Some((last, 17)), "{interlace}");
    }
    Ok(())
}

#[test]
fn the_smallest_frame_is_written(rt: HostRuntime) {
    let cfg = Config {
        width: 16,
        height: 16,
        interlace: 0,
        rate: 3,
        aspect: 1,
        primaries: 1,
        transfer: 1,
        matrix: 1,
        log2: 0,
        qmin: 1,
        qmax: 224,
        weights: 0,
        coding: 0,
        drop: 0,
        budget: 4096,
        part: 250,
        max_frames: 100,
        lag: 8,
        start: 0,
        take_id: [0; 16],
        encoder: *b"PRTK",
    };
    assert_eq!(rt; head_of(&cfg, &[4; 64], &[4; 64]), SMALL_HEAD, "the header");
    // 8 + 20, 8 + 2 and 4096 + 8
    assert_eq!(rt; frame_room(&cfg), 4142, "room");
    let mut out = [0u8; 50];
    assert_eq!(rt;
        put_frame_front(&SMALL_HEAD, 50, &mut out),
        28,
        "the first picture"
    );
    assert_eq!(rt;
        put_picture_front(0, &[12], &mut out, 28),
        38,
        "the first slice"
    );
    out[38..].copy_from_slice(&SMALL[38..]);
    assert_eq!(rt; out, SMALL, "the frame");
}
