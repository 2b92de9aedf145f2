ghost use Rattle.std.specs.Prelude.{◌≡◌, Some};

use crate::plain;
use mxf_take_file::PictureLayout;
use raw_feed::{Feed, MemorySink, MemorySource};
use rec_bytes::Status;
use std::alloc::Global;
use std::marker::Brand;
use std::process::Abort;
use std::test::Fail;
use std::thread::Threads;
use take_disk::MemoryDisk;
use take_layout::files_are_one;

// docs/FORMATS.md, "Feeds" and "Configuration": the magic and the small configuration, written by hand.
pub(crate) const HEAD: [u8; 72] = [
    0x50, 0x52, 0x46, 0x45, 0x45, 0x44, 0x55, 0x31, 0x00, 0x10, 0x00, 0x10, 0x00, 0x03, 0x01, 0x01,
    0x01, 0x01, 0x00, 0x01, 0xe0, 0x00, 0x00, 0x00, 0x10, 0x00, 0x00, 0xfa, 0x00, 0x00, 0x00, 0x64,
    0x00, 0x08, 0x00, 0x00, 0x00, 0x00, 0x00, 0x00, 0x00, 0x00, 0x00, 0x00, 0x00, 0x00, 0x00, 0x00,
    0x00, 0x00, 0x00, 0x00, 0x00, 0x00, 0x00, 0x00, 0x50, 0x52, 0x54, 0x4b, 0x00, 0x00, 0x00, 0x00,
    0x00, 0x00, 0x00, 0x00, 0x00, 0x00, 0x00, 0x00,
];

// docs/FORMATS.md, "Smallest frame".
pub(crate) const FRAME: [u8; 50] = [
    0x00, 0x00, 0x00, 0x32, 0x69, 0x63, 0x70, 0x66, 0x00, 0x14, 0x00, 0x00, 0x50, 0x52, 0x54, 0x4b,
    0x00, 0x10, 0x00, 0x10, 0x80, 0x13, 0x01, 0x01, 0x01, 0x00, 0x00, 0x00, 0x40, 0x00, 0x00, 0x00,
    0x16, 0x00, 0x01, 0x00, 0x00, 0x0c, 0x30, 0x01, 0x00, 0x02, 0x00, 0x02, 0x82, 0x30, 0x82, 0x00,
    0x82, 0x00,
];

// docs/FORMATS.md, "Picture elements": the key, and 50 in one byte and seven.
const ELEMENT_HEAD: [u8; 24] = [
    0x06, 0x0e, 0x2b, 0x34, 0x01, 0x02, 0x01, 0x01, 0x0d, 0x01, 0x03, 0x01, 0x15, 0x01, 0x17, 0x01,
    0x87, 0x00, 0x00, 0x00, 0x00, 0x00, 0x00, 0x32,
];

// docs/FORMATS.md, "Partition packs" and "Random index pack": the keys.
pub(crate) const HEADER_KEY: [u8; 16] =
    *b"\x06\x0e\x2b\x34\x02\x05\x01\x01\x0d\x01\x02\x01\x01\x02\x01\x00";

const BODY_KEY: [u8; 16] = *b"\x06\x0e\x2b\x34\x02\x05\x01\x01\x0d\x01\x02\x01\x01\x03\x01\x00";

const FOOTER_KEY: [u8; 16] = *b"\x06\x0e\x2b\x34\x02\x05\x01\x01\x0d\x01\x02\x01\x01\x04\x04\x00";

const INDEX_KEY: [u8; 16] = *b"\x06\x0e\x2b\x34\x02\x05\x01\x01\x0d\x01\x02\x01\x01\x11\x01\x00";

// docs/FORMATS.md, "Index table segments": the key.
const SEGMENT_KEY: [u8; 16] = *b"\x06\x0e\x2b\x34\x02\x53\x01\x01\x0d\x01\x02\x01\x01\x10\x01\x00";

// docs/FORMATS.md, "Metadata": 0202 in set 7, behind the pack, the primer and sets 1 to 6:
// 124 + 928 + 174 + 144 + 112 + 92 + 144 + 100, then 60 bytes of the set.
const DURATION_AT: usize = 1878;

/// What a run answers (code, number, place; second number), and what it writes.
pub(crate) type Run = (((u8, u16, u64), u64), Vec<u8>);

/// The feed of so many of the smallest frames, 72 bytes and 58 for each.
pub(crate) fn feed_of(alloc: Global, units: usize) -> Result<Vec<u8>, Fail> {
    let mut bytes = HEAD.to_vec(alloc)?;
    for _ in 0..units {
        bytes.extend_from_slice(b"UNIT\x00\x00\x00\x32")?;
        bytes.extend_from_slice(&FRAME)?;
    }
    Ok(bytes)
}

/// Puts bytes at a place.
pub(crate) fn put(bytes: &mut Vec<u8>, at: usize, piece: &[u8]) {
    for (place, byte) in bytes.iter_mut().skip(at).zip(piece) {
        *place = *byte;
    }
}

pub(crate) fn words_of(alloc: Global, texts: &[&str]) -> Result<Vec<String>, Fail> {
    let mut words = Vec::new(alloc);
    for text in texts {
        words.push(String::from_str(alloc, text)?)?;
    }
    Ok(words)
}

/// Runs the command of a call where calls of the source and of the sink, numbered from 0, fail. Words that are no command
/// come first: they take no call of either.
pub(crate) fn ran<N: Feed, R: AllocGlobal + Threads + Sync + Abort>(
    rt: &R,
    call: &[&str],
    bytes: &[u8],
    source_fails: &[u64],
    sink_fails: &[u64],
    room: usize,
) -> Result<Run, Fail>
    requires { N.bytes ≡ Some bytes.now }
{
    let mut feed = MemorySource::<N>::new(bytes, source_fails);
    let mut out = MemorySink::new(rt.alloc(), room, sink_fails)?;
    let mut disk = MemoryDisk::new(rt.alloc(), &[], &[], 0, 0, &[], None)?;
    let faulty: [&[&str]; 8] = [
        &[],
        &["unwrap"],
        &["wrap", "x"],
        &["wrap", "--help"],
        &["encode"],
        &["recover"],
        &["check"],
        &["frame", "--dir", "d"],
    ];
    for texts in faulty {
        let words = words_of(rt.alloc(), texts)?;
        let status = plain::<R, N, PictureLayout, _, _, _>(
            rt, &words, &mut feed, &mut disk, &mut out,
        );
        let want = Status {
            code: 2,
            number: 0,
            at: 0,
            other: 0,
        };
        assert_eq!(rt; status, want, "{texts:?}");
        assert_eq!(rt; out.bytes().len(), 0, "{texts:?}");
    }
    let words = words_of(rt.alloc(), call)?;
    let status = plain::<R, N, PictureLayout, _, _, _>(rt, &words, &mut feed, &mut disk, &mut out);
    let answer = (status.code, status.number, status.at);
    Ok(((answer, status.other), out.bytes().to_vec(rt.alloc())?))
}

/// Runs `wrap`.
pub(crate) fn wrapped<N: Feed, R: AllocGlobal + Threads + Sync + Abort>(
    rt: &R,
    bytes: &[u8],
    source_fails: &[u64],
    sink_fails: &[u64],
    room: usize,
) -> Result<Run, Fail>
    requires { N.bytes ≡ Some bytes.now }
{
    ran::<N, R>(rt, &["wrap"], bytes, source_fails, sink_fails, room)
}

#[test]
fn a_file_is_closed_at_the_feeds_end_or_its_first_break(rt: HostRuntime) -> Result<(), Fail> {
    // so many bytes of three units, with others at a place; the file's units and length, worked out by hand; the answer
    let cases: [(&str, usize, usize, &[u8], usize, usize, (u8, u16, u64)); 20] = [
        ("three units", 246, 0, &[], 3, 7157, (0, 0, 0)),
        ("cut in the third", 200, 0, &[], 2, 7072, (3, 112, 200)),
        ("the head alone", 72, 0, &[], 0, 6626, (0, 0, 0)),
        ("empty", 0, 0, &[], 0, 0, (3, 112, 0)),
        ("cut head, wrong magic", 71, 0, &[0], 0, 0, (3, 112, 71)),
        ("wrong magic", 246, 0, &[0], 0, 0, (3, 110, 0)),
        ("log2 4", 246, 18, &[4], 0, 0, (3, 110, 18)),
        ("other marker", 246, 133, b"X", 1, 6987, (3, 111, 130)),
        ("cut marker", 133, 130, b"X", 1, 6987, (3, 112, 133)),
        (
            "above 2^28",
            246,
            134,
            &[16, 0, 0, 1],
            1,
            6987,
            (3, 116, 134),
        ),
        ("2^28", 246, 134, &[16, 0, 0, 0], 1, 6987, (3, 112, 246)),
        ("one of one", 130, 31, &[1], 1, 6987, (0, 0, 0)),
        ("two of one", 188, 31, &[1], 1, 6987, (10, 95, 1)),
        (
            "marker behind one of one",
            134,
            31,
            &[1],
            1,
            6987,
            (10, 95, 1),
        ),
        (
            "two bytes behind one",
            132,
            31,
            &[1],
            1,
            6987,
            (3, 112, 132),
        ),
        ("three of two", 246, 31, &[2], 2, 7072, (10, 95, 2)),
        ("three of three", 246, 31, &[3], 3, 7157, (0, 0, 0)),
        (
            "last unit cut by one byte",
            245,
            0,
            &[],
            2,
            7072,
            (3, 112, 245),
        ),
        (
            "one full partition of two",
            188,
            26,
            &[0, 2],
            2,
            7072,
            (0, 0, 0),
        ),
        (
            "two frames a partition",
            246,
            26,
            &[0, 2],
            3,
            7433,
            (0, 0, 0),
        ),
    ];
    for (name, len, at, piece, units, file_len, answer) in cases {
        let mut bytes = feed_of(rt.alloc(), 3)?;
        put(&mut bytes, at, piece);
        bytes.truncate(len);
        let (got, written) = wrapped::<Brand, HostRuntime>(&rt, &bytes, &[], &[], 10_000)?;
        assert_eq!(rt; got, (answer, 0), "{name}");
        assert_eq!(rt; written.len(), file_len, "{name}");
        if file_len == 0 {
            continue;
        }
        // the file of these units, whatever follows them
        let mut whole = feed_of(rt.alloc(), units)?;
        if at < HEAD.len() {
            put(&mut whole, at, piece);
        }
        let (_, file) = wrapped::<Brand, HostRuntime>(&rt, &whole, &[], &[], 10_000)?;
        assert_eq!(rt; written, file, "{name}");
    }
    Ok(())
}

#[test]
fn the_parts_stand_where_the_format_says(rt: HostRuntime) -> Result<(), Fail> {
    // frames a partition; a place and the bytes that stand there, worked out by hand
    let cases: [(u8, &str, usize, &[u8]); 28] = [
        (250, "header pack", 0, &HEADER_KEY),
        (250, "body pack", 3289, &BODY_KEY),
        (250, "first element", 3413, &ELEMENT_HEAD),
        (250, "first frame", 3437, &FRAME),
        (250, "second element", 3487, &ELEMENT_HEAD),
        (250, "third element", 3561, &ELEMENT_HEAD),
        (250, "third frame", 3585, &FRAME),
        (250, "footer pack", 3635, &FOOTER_KEY),
        (250, "random index pack", 7097, &INDEX_KEY),
        (250, "its length", 7153, &[0, 0, 0, 0x3c]),
        (2, "second body pack", 3561, &BODY_KEY),
        (
            2,
            "its place, and the one before",
            3589,
            &[0, 0, 0, 0, 0, 0, 0x0d, 0xe9, 0, 0, 0, 0, 0, 0, 0x0c, 0xd9],
        ),
        (
            2,
            "its index bytes, 162 of stream 2",
            3621,
            &[0, 0, 0, 0, 0, 0, 0, 162, 0, 0, 0, 2],
        ),
        (
            2,
            "its body offset, 148 of stream 1",
            3633,
            &[0, 0, 0, 0, 0, 0, 0, 148, 0, 0, 0, 1],
        ),
        (2, "third element", 3847, &ELEMENT_HEAD),
        (2, "third frame", 3871, &FRAME),
        (2, "footer pack", 3921, &FOOTER_KEY),
        (2, "the second partition's index", 3685, &SEGMENT_KEY),
        (
            2,
            "from frame 0 on, 2 frames",
            3737,
            b"\x3f\x0c\x00\x08\x00\x00\x00\x00\x00\x00\x00\x00\x3f\x0d\x00\x08\x00\x00\x00\x00\x00\x00\x00\x02",
        ),
        (
            2,
            "in stream 2, of stream 1",
            3769,
            b"\x3f\x06\x00\x04\x00\x00\x00\x02\x3f\x07\x00\x04\x00\x00\x00\x01",
        ),
        (
            2,
            "two entries of 11 bytes, at 0 and at 74",
            3808,
            b"\x3f\x0a\x00\x1e\x00\x00\x00\x02\x00\x00\x00\x0b\
            \x00\x00\x80\x00\x00\x00\x00\x00\x00\x00\x00\x00\x00\x80\x00\x00\x00\x00\x00\x00\x00\x4a",
        ),
        (2, "the footer's index", 7210, &SEGMENT_KEY),
        (
            2,
            "from frame 2 on, 1 frame",
            7262,
            b"\x3f\x0c\x00\x08\x00\x00\x00\x00\x00\x00\x00\x02\x3f\x0d\x00\x08\x00\x00\x00\x00\x00\x00\x00\x01",
        ),
        (2, "random index pack", 7361, &INDEX_KEY),
        (
            2,
            "its partitions: streams and places",
            7381,
            b"\x00\x00\x00\x00\x00\x00\x00\x00\x00\x00\x00\x00\x00\x00\x00\x01\x00\x00\x00\x00\x00\x00\x0c\xd9\
            \x00\x00\x00\x01\x00\x00\x00\x00\x00\x00\x0d\xe9\x00\x00\x00\x00\x00\x00\x00\x00\x00\x00\x0f\x51",
        ),
        (2, "track number", 2848, b"\x48\x04\x00\x04\x15\x01\x17\x01"),
        (
            2,
            "the header's duration, unknown",
            DURATION_AT,
            b"\x02\x02\x00\x08\xff\xff\xff\xff\xff\xff\xff\xff",
        ),
        (
            2,
            "the footer's duration, 3 frames",
            DURATION_AT + 3921,
            b"\x02\x02\x00\x08\x00\x00\x00\x00\x00\x00\x00\x03",
        ),
    ];
    files_are_one::<PictureLayout>();
    for (part, name, at, want) in cases {
        let mut bytes = feed_of(rt.alloc(), 3)?;
        put(&mut bytes, 27, &[part]);
        let (got, written) = wrapped::<Brand, HostRuntime>(&rt, &bytes, &[], &[], 10_000)?;
        assert_eq!(rt; got, ((0, 0, 0), 0), "{name}");
        assert_eq!(rt;
            written.get(at..at.saturating_add(want.len())),
            Some(want),
            "{part}, {name}"
        );
    }
    Ok(())
}

#[test]
fn a_unit_that_is_refused_ends_the_file_before_it(rt: HostRuntime) -> Result<(), Fail> {
    // Three units, with other bytes at a place; the units of the file and its length, worked out by hand; the refusal, its
    // place and the unit. The units stand at 80, 138 and 196.
    let cases: [(&str, usize, &[u8], usize, usize, u16, u64, u64); 9] = [
        ("the second's name", 143, &[0], 1, 6987, 31, 4, 1),
        ("the first's size word", 80, &[1], 0, 6626, 32, 0, 0),
        ("the third's picture size", 228, &[9], 2, 7072, 40, 28, 2),
        ("the third's slice table", 233, &[13], 2, 7072, 41, 36, 2),
        ("configured width 18", 9, &[18], 0, 6626, 42, 16, 0),
        ("configured height 18", 11, &[18], 0, 6626, 42, 18, 0),
        ("configured interlaced", 12, &[1], 0, 6626, 42, 20, 0),
        ("a narrower second unit", 154, &[0, 14], 1, 6987, 42, 16, 1),
        ("the first of two refused", 85, b"X", 0, 6626, 31, 4, 0),
    ];
    for (name, at, piece, units, file_len, number, place, unit) in cases {
        let mut bytes = feed_of(rt.alloc(), 3)?;
        put(&mut bytes, at, piece);
        let (got, written) = wrapped::<Brand, HostRuntime>(&rt, &bytes, &[], &[], 10_000)?;
        assert_eq!(rt; got, ((8, number, place), unit), "{name}");
        assert_eq!(rt; written.len(), file_len, "{name}");
        let mut whole = feed_of(rt.alloc(), units)?;
        if at < HEAD.len() {
            put(&mut whole, at, piece);
        }
        let (_, file) = wrapped::<Brand, HostRuntime>(&rt, &whole, &[], &[], 10_000)?;
        assert_eq!(rt; written, file, "{name}");
    }
    Ok(())
}

#[test]
fn a_frame_that_loads_one_matrix_is_written(rt: HostRuntime) -> Result<(), Fail> {
    // 64 bytes of 04 from byte 28 on: header size 84 = 54h, frame size 114 = 72h
    let mut bytes = HEAD.to_vec(rt.alloc())?;
    bytes.extend_from_slice(b"UNIT\x00\x00\x00\x72")?;
    bytes.extend_from_slice(&FRAME[..28])?;
    bytes.resize(80 + 28 + 64, 4)?;
    bytes.extend_from_slice(&FRAME[28..])?;
    put(&mut bytes, 83, &[0x72]);
    put(&mut bytes, 89, &[0x54]);
    put(&mut bytes, 107, &[2]);
    let (got, written) = wrapped::<Brand, HostRuntime>(&rt, &bytes, &[], &[], 10_000)?;
    assert_eq!(rt; got, ((0, 0, 0), 0));
    assert_eq!(rt; written.get(3437..3551), bytes.get(80..));
    Ok(())
}

#[test]
fn a_long_frame_is_written_whole(rt: HostRuntime) -> Result<(), Fail> {
    // the smallest frame with zeros behind it, 2^24 + 1 bytes: more than three bytes of length hold
    let mut bytes = HEAD.to_vec(rt.alloc())?;
    bytes.extend_from_slice(b"UNIT\x01\x00\x00\x01")?;
    bytes.extend_from_slice(&FRAME)?;
    put(&mut bytes, 80, &[1, 0, 0, 1]);
    bytes.resize(80 + 16_777_217, 0)?;
    let (got, written) = wrapped::<Brand, HostRuntime>(&rt, &bytes, &[], &[], 16_784_154)?;
    assert_eq!(rt; got, ((0, 0, 0), 0));
    assert_eq!(rt; written.len(), 16_784_154);
    assert_eq!(rt;
        written.get(3429..3437),
        Some(&[0x87, 0, 0, 0, 1, 0, 0, 1][..])
    );
    assert_eq!(rt; written.get(3437..16_780_654), bytes.get(80..));
    Ok(())
}

#[test]
fn a_device_that_fails_costs_nothing_that_came_before(rt: HostRuntime) -> Result<(), Fail> {
    // The head is read by one call and an item by three. The file's head is written by one call, a unit by two, the tail
    // by one. A file of so many units comes, or where the sink failed a front of it.
    let cases: [(&[u64], &[u64], usize, usize, usize, (u8, u16, u64)); 19] = [
        (&[0], &[], 10_000, 0, 0, (5, 113, 1)),
        (&[1], &[], 10_000, 0, 6626, (5, 113, 1)),
        (&[3, 4], &[], 10_000, 0, 6626, (5, 113, 1)),
        (&[4], &[], 10_000, 1, 6987, (5, 113, 1)),
        (&[6], &[], 10_000, 1, 6987, (5, 113, 1)),
        (&[9], &[], 10_000, 2, 7072, (5, 113, 1)),
        (&[10], &[], 10_000, 3, 7157, (5, 113, 1)),
        (&[11], &[8], 10_000, 3, 7157, (0, 0, 0)),
        (&[], &[0], 10_000, 3, 0, (7, 117, 1)),
        (&[], &[1], 10_000, 3, 3289, (7, 117, 1)),
        (&[], &[2, 3], 10_000, 3, 3437, (7, 117, 1)),
        (&[], &[3], 10_000, 3, 3487, (7, 117, 1)),
        (&[], &[6], 10_000, 3, 3585, (7, 117, 1)),
        (&[], &[7], 10_000, 3, 3635, (7, 117, 1)),
        (&[], &[], 0, 3, 0, (7, 117, 1)),
        (&[], &[], 3486, 3, 3437, (7, 117, 1)),
        (&[], &[], 7156, 3, 3635, (7, 117, 1)),
        (&[4], &[1], 10_000, 1, 3289, (7, 117, 1)),
        (&[4], &[3], 10_000, 1, 3487, (7, 117, 1)),
    ];
    let bytes = feed_of(rt.alloc(), 3)?;
    for (source_fails, sink_fails, room, units, len, answer) in cases {
        let (got, written) = wrapped::<Brand, HostRuntime>(
            &rt,
            &bytes,
            source_fails,
            sink_fails,
            room,
        )?;
        let name = format!(in rt.alloc(); "{source_fails:?}, {sink_fails:?}, room {room}")?;
        assert_eq!(rt; got, (answer, 0), "{name}");
        assert_eq!(rt; written.len(), len, "{name}");
        let whole = feed_of(rt.alloc(), units)?;
        let (_, file) = wrapped::<Brand, HostRuntime>(&rt, &whole, &[], &[], 10_000)?;
        assert_eq!(rt; Some(written.as_slice()), file.get(..len), "{name}");
    }
    Ok(())
}
