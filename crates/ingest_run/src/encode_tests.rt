ghost use Rattle.std.specs.Prelude.{◌≡◌, Some};

use crate::tests::{FRAME, HEAD, Run, feed_of, put, ran, wrapped};
use raw_feed::Feed;
use std::alloc::Global;
use std::marker::Brand;
use std::process::Abort;
use std::test::Fail;
use std::thread::Threads;

// docs/formats/frames.md, "Smallest frame", with all samples 4: by hand, SMPTE RDD 36. 54 bytes, index 1, four bytes of Y and
// three of Cb.
const DARK: [u8; 54] = [
    0x00, 0x00, 0x00, 0x36, 0x69, 0x63, 0x70, 0x66, 0x00, 0x14, 0x00, 0x00, 0x50, 0x52, 0x54, 0x4b,
    0x00, 0x10, 0x00, 0x10, 0x80, 0x13, 0x01, 0x01, 0x01, 0x00, 0x00, 0x00, 0x40, 0x00, 0x00, 0x00,
    0x1a, 0x00, 0x01, 0x00, 0x00, 0x10, 0x30, 0x01, 0x00, 0x04, 0x00, 0x03, 0x01, 0xfe, 0x18, 0xc0,
    0x01, 0xfe, 0x18, 0x01, 0xfe, 0x18,
];

/// The feed of pictures whose samples are all one of these each: 72 bytes, and 1028 for each picture.
fn pictures_of(alloc: Global, values: &[u16]) -> Result<Vec<u8>, Fail> {
    let mut bytes = HEAD.to_vec(alloc)?;
    put(&mut bytes, 6, b"P");
    for value in values {
        bytes.extend_from_slice(b"PICT")?;
        for _ in 0..512 {
            bytes.extend_from_slice(&value.to_be_bytes())?;
        }
    }
    Ok(bytes)
}

/// Runs `encode`.
fn encoded<N: Feed, R: AllocGlobal + Threads + Sync + Abort>(
    rt: &R,
    bytes: &[u8],
    source_fails: &[u64],
    sink_fails: &[u64],
    room: usize,
) -> Result<Run, Fail>
    requires { N.bytes ≡ Some bytes.now }
{
    let call = ["encode", "--workers", "2"];
    ran::<N, R>(rt, &call, bytes, source_fails, sink_fails, room)
}

#[test]
fn pictures_become_the_frames_that_wrap_writes(rt: HostRuntime) -> Result<(), Fail> {
    // so many bytes of three flat pictures, with others at a place; the file's frames and length, worked out by hand; the answer
    let cases: [(&str, usize, usize, &[u8], usize, usize, (u8, u16, u64)); 18] = [
        ("three pictures", 3156, 0, &[], 3, 7157, (0, 0, 0)),
        ("cut in the second", 2000, 0, &[], 1, 6987, (3, 112, 2000)),
        ("the head alone", 72, 0, &[], 0, 6626, (0, 0, 0)),
        ("empty", 0, 0, &[], 0, 0, (3, 112, 0)),
        ("cut head", 71, 0, &[], 0, 0, (3, 112, 71)),
        ("a feed of units", 3156, 6, b"U", 0, 0, (3, 110, 6)),
        ("log2 4", 3156, 18, &[4], 0, 0, (3, 110, 18)),
        ("first sample", 3156, 76, &[4], 0, 6626, (3, 115, 76)),
        (
            "last sample of the second",
            3156,
            2126,
            &[255, 255],
            1,
            6987,
            (3, 115, 2126),
        ),
        ("other marker", 3156, 1103, b"X", 1, 6987, (3, 111, 1100)),
        ("cut marker", 1103, 0, &[], 1, 6987, (3, 112, 1103)),
        (
            "last picture cut by one byte",
            3155,
            0,
            &[],
            2,
            7072,
            (3, 112, 3155),
        ),
        ("one of one", 1100, 31, &[1], 1, 6987, (0, 0, 0)),
        ("two of one", 2128, 31, &[1], 1, 6987, (10, 95, 1)),
        (
            "marker behind one of one",
            1104,
            31,
            &[1],
            1,
            6987,
            (10, 95, 1),
        ),
        ("three of two", 3156, 31, &[2], 2, 7072, (10, 95, 2)),
        ("three of three", 3156, 31, &[3], 3, 7157, (0, 0, 0)),
        (
            "two frames a partition",
            3156,
            26,
            &[0, 2],
            3,
            7433,
            (0, 0, 0),
        ),
    ];
    for (name, len, at, piece, frames, file_len, answer) in cases {
        let mut bytes = pictures_of(rt.alloc(), &[512, 512, 512])?;
        put(&mut bytes, at, piece);
        bytes.truncate(len);
        let (got, written) = encoded::<Brand, HostRuntime>(&rt, &bytes, &[], &[], 10_000)?;
        assert_eq!(rt; got, (answer, 0), "{name}");
        assert_eq!(rt; written.len(), file_len, "{name}");
        if file_len == 0 {
            continue;
        }
        let mut whole = feed_of(rt.alloc(), frames)?;
        if at < HEAD.len() {
            put(&mut whole, at, piece);
        }
        let (_, file) = wrapped::<Brand, HostRuntime>(&rt, &whole, &[], &[], 10_000)?;
        assert_eq!(rt; written, file, "{name}");
    }
    Ok(())
}

#[test]
fn each_picture_has_its_own_frame(rt: HostRuntime) -> Result<(), Fail> {
    let bytes = pictures_of(rt.alloc(), &[512, 4, 512])?;
    let (got, written) = encoded::<Brand, HostRuntime>(&rt, &bytes, &[], &[], 10_000)?;
    assert_eq!(rt; got, ((0, 0, 0), 0));
    // 7157 and four bytes; an element's key and length have 24 bytes
    assert_eq!(rt; written.len(), 7161);
    assert_eq!(rt; written.get(3437..3487), Some(&FRAME[..]));
    assert_eq!(rt; written.get(3511..3565), Some(&DARK[..]));
    assert_eq!(rt; written.get(3589..3639), Some(&FRAME[..]));
    Ok(())
}

#[test]
fn a_device_that_fails_costs_no_frame_that_came_before(rt: HostRuntime) -> Result<(), Fail> {
    // The head is read by one call and a picture by two. The file's head is written by one call, a frame by two, the tail by
    // one. A file of so many frames comes, or where the sink failed a front of it.
    let cases: [(&[u64], &[u64], usize, usize, usize, (u8, u16, u64)); 18] = [
        (&[0], &[], 10_000, 0, 0, (5, 113, 1)),
        (&[1], &[], 10_000, 0, 6626, (5, 113, 1)),
        (&[2, 3], &[], 10_000, 0, 6626, (5, 113, 1)),
        (&[3], &[], 10_000, 1, 6987, (5, 113, 1)),
        (&[4], &[], 10_000, 1, 6987, (5, 113, 1)),
        (&[6], &[], 10_000, 2, 7072, (5, 113, 1)),
        (&[7], &[], 10_000, 3, 7157, (5, 113, 1)),
        (&[8], &[8], 10_000, 3, 7157, (0, 0, 0)),
        (&[], &[0], 10_000, 3, 0, (7, 117, 1)),
        (&[], &[1], 10_000, 3, 3289, (7, 117, 1)),
        (&[], &[2, 3], 10_000, 3, 3437, (7, 117, 1)),
        (&[], &[3], 10_000, 3, 3487, (7, 117, 1)),
        (&[], &[6], 10_000, 3, 3585, (7, 117, 1)),
        (&[], &[7], 10_000, 3, 3635, (7, 117, 1)),
        (&[], &[], 0, 3, 0, (7, 117, 1)),
        (&[], &[], 3486, 3, 3437, (7, 117, 1)),
        (&[], &[], 7156, 3, 3635, (7, 117, 1)),
        (&[3], &[3], 10_000, 1, 3487, (7, 117, 1)),
    ];
    let bytes = pictures_of(rt.alloc(), &[512, 512, 512])?;
    for (source_fails, sink_fails, room, frames, len, answer) in cases {
        let (got, written) = encoded::<Brand, HostRuntime>(
            &rt,
            &bytes,
            source_fails,
            sink_fails,
            room,
        )?;
        let name = format!(in rt.alloc(); "{source_fails:?}, {sink_fails:?}, room {room}")?;
        assert_eq!(rt; got, (answer, 0), "{name}");
        assert_eq!(rt; written.len(), len, "{name}");
        let whole = feed_of(rt.alloc(), frames)?;
        let (_, file) = wrapped::<Brand, HostRuntime>(&rt, &whole, &[], &[], 10_000)?;
        assert_eq!(rt; Some(written.as_slice()), file.get(..len), "{name}");
    }
    Ok(())
}

/// The feed of so many pictures of noise, 96 by 64, in which no two slices are alike: 72 bytes, and 24,580 for each picture.
fn noise_of(alloc: Global, pictures: usize) -> Result<Vec<u8>, Fail> {
    let mut bytes = HEAD.to_vec(alloc)?;
    put(&mut bytes, 6, b"P");
    put(&mut bytes, 9, &[96]);
    put(&mut bytes, 11, &[64]);
    let mut x = 1u32;
    for _ in 0..pictures {
        bytes.extend_from_slice(b"PICT")?;
        for _ in 0..12_288 {
            x = x.wrapping_mul(1_664_525).wrapping_add(1_013_904_223);
            bytes.extend_from_slice(&((x / 4_194_304) as u16).to_be_bytes())?;
        }
    }
    Ok(bytes)
}

#[test]
fn the_file_is_the_same_for_any_number_of_workers(rt: HostRuntime) -> Result<(), Fail> {
    let bytes = noise_of(rt.alloc(), 3)?;
    let call = ["encode", "--workers", "1"];
    let (got, one) = ran::<Brand, HostRuntime>(&rt, &call, &bytes, &[], &[], 200_000)?;
    assert_eq!(rt; got, ((0, 0, 0), 0));
    // more than of three flat pictures of the least size
    assert!(rt; one.len() > 7157);
    for workers in ["3", "8", "64"] {
        let call = ["encode", "--workers", workers];
        let (got, file) = ran::<Brand, HostRuntime>(&rt, &call, &bytes, &[], &[], 200_000)?;
        assert_eq!(rt; got, ((0, 0, 0), 0), "{workers} workers");
        assert_eq!(rt; file, one, "{workers} workers");
    }
    Ok(())
}
