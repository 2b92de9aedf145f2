ghost use Rattle.std.specs.Prelude.{◌≡◌, Some};

use crate::{Feed, FeedFault, FeedReader, Kind, MemorySource, Source};
use picture_plane::Picture;
use std::alloc::Global;
use std::marker::Brand;
use std::test::Fail;

// docs/formats/feed.md, "Feeds": the magic and the small configuration, written by hand.
const HEAD: [u8; 72] = [
    0x50, 0x52, 0x46, 0x45, 0x45, 0x44, 0x50, 0x31, 0x00, 0x10, 0x00, 0x10, 0x00, 0x03, 0x01, 0x01,
    0x01, 0x01, 0x00, 0x01, 0xe0, 0x00, 0x00, 0x00, 0x10, 0x00, 0x00, 0xfa, 0x00, 0x00, 0x00, 0x64,
    0x00, 0x08, 0x00, 0x00, 0x00, 0x00, 0x00, 0x00, 0x00, 0x00, 0x00, 0x00, 0x00, 0x00, 0x00, 0x00,
    0x00, 0x00, 0x00, 0x00, 0x00, 0x00, 0x00, 0x00, 0x50, 0x52, 0x54, 0x4b, 0x00, 0x00, 0x00, 0x00,
    0x00, 0x00, 0x00, 0x00, 0x00, 0x00, 0x00, 0x00,
];

/// A feed of the small configuration with two pictures of 1028 bytes, all of whose samples are 512.
fn feed(alloc: Global) -> Result<Vec<u8>, Fail> {
    let mut bytes = HEAD.to_vec(alloc)?;
    for _ in 0..2 {
        bytes.extend_from_slice(b"PICT")?;
        for _ in 0..512 {
            bytes.extend_from_slice(&[2, 0])?;
        }
    }
    Ok(bytes)
}

/// Samples at the corners of the planes: the last of Y, the first of Cb and the last of Cr.
fn corners(picture: &Picture) -> [u16; 3] {
    let samples = picture.samples();
    if samples.len() < 512 {
        return [0; 3];
    }
    [samples[255], samples[256], samples[511]]
}

/// Reads the first picture of a feed and asks again: the corners, and both answers.
fn first<N: Feed, S: Source<N>>(
    alloc: Global,
    source: &mut S,
) -> Result<([u16; 3], Result<bool, FeedFault>, Result<bool, FeedFault>), FeedFault> {
    let mut reader = FeedReader::<N>::new(Kind::Pictures, source)?;
    let Ok(mut picture) = Picture::new(alloc, reader.config()) else {
        return Err(FeedFault::Memory);
    };
    if reader.read_count() >= u64::from(reader.config().max_frames) {
        return Err(FeedFault::Memory);
    }
    let answer = reader.next_picture(source, &mut picture);
    let next = reader.marker(source);
    Ok((corners(&picture), answer, next))
}

/// The same from memory.
fn memory_first<N: Feed>(
    alloc: Global,
    bytes: &[u8],
    fail: &[u64],
) -> Result<([u16; 3], Result<bool, FeedFault>, Result<bool, FeedFault>), FeedFault>
    requires { N.bytes ≡ Some bytes.now }
{
    let mut source = MemorySource::<N>::new(bytes, fail);
    first::<N, MemorySource<N>>(alloc, &mut source)
}

#[test]
fn each_break_of_a_picture_has_its_place(rt: HostRuntime) -> Result<(), Fail> {
    let whole = Ok(true);
    let sample = |at| Err(FeedFault::Sample { at });
    let cut = |at| Err(FeedFault::FeedCut { at });
    // two pictures, cut at a byte, with two bytes put at a place
    let cases: [(
        &str,
        usize,
        usize,
        &[u8; 2],
        Result<bool, FeedFault>,
        Result<bool, FeedFault>,
    ); 13] = [
        ("whole", 2128, 76, &[2, 0], whole, whole),
        ("one picture", 1100, 76, &[2, 0], whole, Ok(false)),
        ("greatest sample", 2128, 76, &[3, 255], whole, whole),
        ("first sample", 2128, 76, &[4, 0], sample(76), sample(76)),
        (
            "last sample",
            2128,
            1098,
            &[255, 255],
            sample(1098),
            sample(1098),
        ),
        (
            "sample of the next picture",
            2128,
            1104,
            &[4, 0],
            whole,
            whole,
        ),
        (
            "cut behind a wrong sample",
            79,
            76,
            &[4, 0],
            sample(76),
            sample(76),
        ),
        (
            "cut inside a wrong sample",
            77,
            76,
            &[4, 0],
            cut(77),
            cut(77),
        ),
        ("cut behind the marker", 76, 72, b"PI", cut(76), cut(76)),
        (
            "cut inside the last sample",
            1099,
            76,
            &[2, 0],
            cut(1099),
            cut(1099),
        ),
        (
            "cut inside the next marker",
            1102,
            76,
            &[2, 0],
            whole,
            cut(1102),
        ),
        (
            "wrong marker",
            2128,
            72,
            b"UN",
            Err(FeedFault::Marker { at: 72 }),
            Err(FeedFault::Marker { at: 72 }),
        ),
        (
            "wrong next marker",
            2128,
            1102,
            b"CS",
            whole,
            Err(FeedFault::Marker { at: 1100 }),
        ),
    ];
    for (what, len, at, put, answer, next) in cases {
        let mut bytes = feed(rt.alloc())?;
        assert!(rt; bytes.len() == 2128 && at <= 2126 && len <= 2128);
        bytes[at..at + 2].copy_from_slice(put);
        let seen = memory_first::<Brand>(rt.alloc(), &bytes[..len], &[])?;
        assert_eq!(rt; (seen.1, seen.2), (answer, next), "{what}");
    }
    Ok(())
}

#[test]
fn a_picture_is_read_plane_by_plane(rt: HostRuntime) -> Result<(), Fail> {
    let mut bytes = feed(rt.alloc())?;
    assert!(rt; bytes.len() == 2128);
    bytes[586..590].copy_from_slice(&[0, 1, 1, 2]);
    bytes[1098..1100].copy_from_slice(&[3, 4]);
    let seen = memory_first::<Brand>(rt.alloc(), &bytes, &[])?;
    assert_eq!(rt; seen, ([1, 258, 772], Ok(true), Ok(true)));
    Ok(())
}

#[test]
fn a_source_that_failed_inside_a_picture_is_not_asked_again(rt: HostRuntime) -> Result<(), Fail> {
    let bytes = feed(rt.alloc())?;
    let failed = Err(FeedFault::SourceFault { at: 1 });
    let seen = memory_first::<Brand>(rt.alloc(), &bytes, &[2])?;
    assert_eq!(rt; (seen.1, seen.2), (failed, failed));
    Ok(())
}
