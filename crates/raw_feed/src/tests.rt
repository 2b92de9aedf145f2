ghost use Rattle.std.specs.Prelude.{◌≡◌, None, Some};

use crate::part::read_part;
use crate::{Feed, FeedFault, FeedReader, Kind, MemorySource, Source};
use rec_bytes::Failed;
use std::alloc::Global;
use std::marker::Brand;
use std::process::Abort;
use std::test::Fail;

// docs/formats/feed.md, "Feeds": the magic and the small configuration, written by hand.
const HEAD: [u8; 72] = [
    0x50, 0x52, 0x46, 0x45, 0x45, 0x44, 0x55, 0x31, 0x00, 0x10, 0x00, 0x10, 0x00, 0x03, 0x01, 0x01,
    0x01, 0x01, 0x00, 0x01, 0xe0, 0x00, 0x00, 0x00, 0x10, 0x00, 0x00, 0xfa, 0x00, 0x00, 0x00, 0x64,
    0x00, 0x08, 0x00, 0x00, 0x00, 0x00, 0x00, 0x00, 0x00, 0x00, 0x00, 0x00, 0x00, 0x00, 0x00, 0x00,
    0x00, 0x00, 0x00, 0x00, 0x00, 0x00, 0x00, 0x00, 0x50, 0x52, 0x54, 0x4b, 0x00, 0x00, 0x00, 0x00,
    0x00, 0x00, 0x00, 0x00, 0x00, 0x00, 0x00, 0x00,
];

// docs/formats/frames.md, "Smallest frame".
const FRAME: [u8; 50] = [
    0x00, 0x00, 0x00, 0x32, 0x69, 0x63, 0x70, 0x66, 0x00, 0x14, 0x00, 0x00, 0x50, 0x52, 0x54, 0x4b,
    0x00, 0x10, 0x00, 0x10, 0x80, 0x13, 0x01, 0x01, 0x01, 0x00, 0x00, 0x00, 0x40, 0x00, 0x00, 0x00,
    0x16, 0x00, 0x01, 0x00, 0x00, 0x0c, 0x30, 0x01, 0x00, 0x02, 0x00, 0x02, 0x82, 0x30, 0x82, 0x00,
    0x82, 0x00,
];

/// A feed of the small configuration with so many units of the smallest frame.
fn feed(alloc: Global, count: usize) -> Result<Vec<u8>, Fail> {
    let mut bytes = HEAD.to_vec(alloc)?;
    for _ in 0..count {
        bytes.extend_from_slice(b"UNIT\x00\x00\x00\x32")?;
        bytes.extend_from_slice(&FRAME)?;
    }
    Ok(bytes)
}

/// A source that gives one byte at a time, and doesn't tell.
#[derive(Drop)]
struct OneByOne<'a> {
    bytes: &'a [u8],
}

impl<'a> Source<Brand> for OneByOne<'a> {
    ghost told = { λ s. None };

    ghost fault_count = { λ s. 0 };

    ghost whole = { λ s. tt };

    fn read(&mut self, out: &mut [u8]) -> Result<usize, Failed> {
        let Some((first, rest)) = self.bytes.split_first() else {
            return Ok(0);
        };
        if out.is_empty() {
            return Ok(0);
        }
        out[0] = *first;
        self.bytes = rest;
        Ok(1)
    }

    fn faults(&self) -> u64 {
        0
    }
}

/// Reads a feed to its end or its first break and goes on asking: how many units came, and what
/// `marker` answers then, which is what `next_unit` answered and goes on answering.
fn ending<N: Feed, S: Source<N>, R: Abort>(
    rt: &R,
    alloc: Global,
    source: &mut S,
) -> (u64, Result<bool, FeedFault>) {
    let mut reader = match FeedReader::<N>::new(Kind::Units, source) {
        Ok(reader) => reader,
        Err(fault) => return (0, Err(fault)),
    };
    let mut seen = None;
    for _ in 0..20 {
        if reader.read_count() >= u64::from(reader.config().max_frames) {
            break;
        }
        let answer = match reader.next_unit(alloc, source) {
            Ok(Some(unit)) => {
                assert_eq!(rt; unit.as_slice(), FRAME.as_slice());
                assert_eq!(rt; seen, None, "a unit came behind the end");
                continue;
            }
            Ok(None) => Ok(false),
            Err(fault) => Err(fault),
        };
        assert!(rt;
            seen.is_none() || seen == Some(answer),
            "the answer changed"
        );
        seen = Some(answer);
    }
    let end = reader.marker(source);
    assert_eq!(rt; seen.unwrap_or(end), end);
    assert_eq!(rt; reader.marker(source), end);
    (reader.read_count(), end)
}

/// The same from memory, how often the source failed, and how many bytes it gave.
fn memory_ending<N: Feed, R: Abort>(
    rt: &R,
    alloc: Global,
    bytes: &[u8],
    fail: &[u64],
) -> (u64, Result<bool, FeedFault>, u64, usize)
    requires { N.bytes ≡ Some bytes.now }
{
    let mut source = MemorySource::<N>::new(bytes, fail);
    let (units, end) = ending::<N, MemorySource<N>, R>(rt, alloc, &mut source);
    (units, end, source.faults(), source.at)
}

#[test]
fn each_break_has_its_place(rt: HostRuntime) -> Result<(), Fail> {
    let cut = |at| Err(FeedFault::FeedCut { at });
    // three units, cut at a byte, with four bytes put at a place, and how many bytes are read
    let cases: [(
        &str,
        usize,
        usize,
        &[u8; 4],
        u64,
        Result<bool, FeedFault>,
        usize,
    ); 21] = [
        ("whole", 246, 72, b"UNIT", 3, Ok(false), 246),
        ("no unit", 72, 0, b"PRFE", 0, Ok(false), 72),
        ("empty", 0, 0, b"PRFE", 0, cut(0), 0),
        ("head cut", 71, 0, b"PRFE", 0, cut(71), 71),
        (
            "head cut behind a wrong byte",
            71,
            0,
            b"QRFE",
            0,
            cut(71),
            71,
        ),
        (
            "first byte",
            246,
            0,
            b"QRFE",
            0,
            Err(FeedFault::FeedHead { at: 0 }),
            72,
        ),
        (
            "last byte of the magic",
            246,
            4,
            b"EDU2",
            0,
            Err(FeedFault::FeedHead { at: 7 }),
            72,
        ),
        (
            "magic of pictures",
            246,
            4,
            b"EDP1",
            0,
            Err(FeedFault::FeedHead { at: 6 }),
            72,
        ),
        (
            "odd width",
            246,
            8,
            &[0, 17, 0, 16],
            0,
            Err(FeedFault::FeedHead { at: 8 }),
            72,
        ),
        (
            "bytes that belong to no field",
            246,
            68,
            &[0, 0, 0, 1],
            0,
            Err(FeedFault::FeedHead { at: 60 }),
            72,
        ),
        (
            "marker",
            246,
            72,
            b"UNIX",
            0,
            Err(FeedFault::Marker { at: 72 }),
            76,
        ),
        (
            "second marker",
            246,
            130,
            b"PICT",
            1,
            Err(FeedFault::Marker { at: 130 }),
            134,
        ),
        ("marker cut", 75, 72, b"UNIX", 0, cut(75), 75),
        ("length cut", 79, 76, &[255; 4], 0, cut(79), 79),
        ("unit cut", 200, 72, b"UNIT", 2, cut(200), 200),
        (
            "length above the limit",
            246,
            76,
            &[0x10, 0, 0, 1],
            0,
            Err(FeedFault::UnitLong { at: 76 }),
            80,
        ),
        (
            "length at the limit",
            246,
            76,
            &[0x10, 0, 0, 0],
            0,
            cut(246),
            246,
        ),
        (
            "as many as there may be",
            130,
            28,
            &[0, 0, 0, 1],
            1,
            Ok(false),
            130,
        ),
        ("one more marker", 246, 28, &[0, 0, 0, 1], 1, Ok(true), 134),
        (
            "two bytes of one more",
            132,
            28,
            &[0, 0, 0, 1],
            1,
            cut(132),
            132,
        ),
        (
            "no marker behind the last",
            246,
            28,
            &[0, 0, 0, 3],
            3,
            Ok(false),
            246,
        ),
    ];
    for (what, len, at, put, units, end, read) in cases {
        let mut bytes = feed(rt.alloc(), 3)?;
        assert!(rt; bytes.len() == 246 && at <= 242 && len <= 246);
        bytes[at..at + 4].copy_from_slice(put);
        let seen = memory_ending::<Brand, HostRuntime>(&rt, rt.alloc(), &bytes[..len], &[]);
        assert_eq!(rt; seen, (units, end, 0, read), "{what}");
    }
    Ok(())
}

#[test]
fn a_source_that_failed_is_not_asked_again(rt: HostRuntime) -> Result<(), Fail> {
    let bytes = feed(rt.alloc(), 3)?;
    // calls 0 to 9: the head, then marker, length and bytes of each unit
    let cases: [(&[u64], u64, usize); 5] = [
        (&[0, 1], 0, 0),
        (&[1, 2], 0, 72),
        (&[2], 0, 76),
        (&[3, 4], 0, 80),
        (&[7, 8, 9], 2, 188),
    ];
    for (fail, units, read) in cases {
        let seen = memory_ending::<Brand, HostRuntime>(&rt, rt.alloc(), bytes.as_slice(), fail);
        assert_eq!(rt;
            seen,
            (units, Err(FeedFault::SourceFault { at: 1 }), 1, read),
            "{fail:?}"
        );
    }
    Ok(())
}

#[test]
fn short_reads_give_the_same_units(rt: HostRuntime) -> Result<(), Fail> {
    let bytes = feed(rt.alloc(), 3)?;
    let mut source = OneByOne {
        bytes: bytes.as_slice(),
    };
    let seen = ending::<Brand, OneByOne, HostRuntime>(&rt, rt.alloc(), &mut source);
    assert_eq!(rt; seen, (3, Ok(false)));
    Ok(())
}

#[test]
fn a_marker_is_read_once(rt: HostRuntime) -> Result<(), Fail> {
    let bytes = feed(rt.alloc(), 1)?;
    let mut source = OneByOne {
        bytes: bytes.as_slice(),
    };
    let mut reader = FeedReader::<Brand>::new(Kind::Units, &mut source)?;
    assert_eq!(rt;
        (reader.config().width, reader.config().encoder),
        (16, *b"PRTK")
    );
    assert_eq!(rt; reader.marker(&mut source), Ok(true));
    assert_eq!(rt; reader.marker(&mut source), Ok(true));
    assert_eq!(rt; source.bytes.len(), 54);
    assert!(rt; reader.read_count() < u64::from(reader.config().max_frames));
    let unit = reader
        .next_unit(rt.alloc(), &mut source)?
        .expect(&rt, "the feed has a unit");
    assert_eq!(rt; unit.as_slice(), FRAME.as_slice());
    assert_eq!(rt; reader.read_count(), 1);
    assert_eq!(rt; reader.marker(&mut source), Ok(false));
    Ok(())
}

#[test]
fn a_feed_ends_at_its_limit(rt: HostRuntime) {
    let five = [1, 2, 3, 4, 5];
    // docs/formats/feed.md, "Feeds": 2^44 bytes, written by hand.
    let long = Err(FeedFault::TooLong {
        at: 17_592_186_044_416,
    });
    // bytes that are there, bytes that are wanted, three bytes before the limit
    let cases = [
        (3, 3, Ok(3)),
        (3, 5, Ok(3)),
        (2, 5, Ok(2)),
        (5, 3, Ok(3)),
        (4, 4, long),
        (5, 5, long),
    ];
    for (there, wanted, came) in cases {
        let mut source = OneByOne {
            bytes: &five[..there],
        };
        let mut out = [0; 5];
        let answer = read_part::<Brand, OneByOne>(
            &mut source,
            17_592_186_044_413,
            &mut out[..wanted],
        );
        assert_eq!(rt; answer, came, "{wanted} of {there}");
        assert_eq!(rt; (out[0], out[1]), (1, 2), "{wanted} of {there}");
    }
}
