ghost use Rattle.std.specs.Prelude.{◌≡◌, Some};

use crate::tests::{HEADER_KEY, feed_of, put, words_of};
use crate::{WordsFault, run_program};
use mxf_take_file::PictureLayout;
use raw_feed::{Feed, MemorySink, MemorySource};
use std::marker::Brand;
use std::process::Abort;
use std::test::Fail;
use std::thread::Threads;
use take_disk::MemoryDisk;

/// What a program answers and writes, and its messages.
type Report = (u8, Vec<u8>, Vec<u8>);

/// Runs the program over a feed.
fn reported<N: Feed, R: AllocGlobal + Threads + Sync + Abort>(
    rt: &R,
    bytes: &[u8],
    words: &Result<Vec<String>, WordsFault>,
    room: usize,
    message_room: usize,
) -> Result<Report, Fail>
    requires { N.bytes ≡ Some bytes.now }
{
    let mut feed = MemorySource::<N>::new(bytes, &[]);
    let mut out = MemorySink::new(rt.alloc(), room, &[])?;
    let mut messages = MemorySink::new(rt.alloc(), message_room, &[])?;
    let mut disk = MemoryDisk::new(rt.alloc(), &[], &[], 0, 0, &[], None)?;
    let code = run_program::<R, N, PictureLayout, _, _, _, _>(
        rt,
        words,
        &mut feed,
        &mut disk,
        &mut out,
        &mut messages,
    );
    Ok((
        code,
        out.bytes().to_vec(rt.alloc())?,
        messages.bytes().to_vec(rt.alloc())?,
    ))
}

// docs/FORMATS.md, "Statuses" and "Words".
#[test]
fn a_program_says_its_answer(rt: HostRuntime) -> Result<(), Fail> {
    const CUT: &[u8] = b"ingest_server: status 3 refusal 112 at 200 other 0\n\
        ingest_server: the feed is cut at byte 200\n";
    const SINK: &[u8] = b"ingest_server: status 7 refusal 117 at 1 other 0\n\
        ingest_server: the output has failed, as its fault number 1\n";
    const WORDS: &[u8] = b"ingest_server: status 2 refusal 0 at 0 other 0\n\
        ingest_server: the words are no command with its options\n\
        usage: ingest_server wrap < FEED > FILE.mxf\n\
        \x20      ingest_server encode --workers N < FEED > FILE.mxf\n\
        \x20      ingest_server recover --dir FOLDER\n\
        \x20      ingest_server check --dir FOLDER\n\
        \x20      ingest_server frame --dir FOLDER --number N > SAMPLES\n\
        \x20      ingest_server --help\n";
    // words, room of the output and of the messages; the code, bytes of the output and the first of them, and the messages
    let cases: [(&[&str], usize, usize, u8, usize, &[u8], &[u8]); 18] = [
        (&["wrap"], 10_000, 400, 3, 7072, &HEADER_KEY, CUT),
        (&["wrap"], 10_000, 20, 3, 7072, &HEADER_KEY, b""),
        (&["wrap"], 3_000, 400, 7, 0, b"", SINK),
        (&[], 10_000, 400, 2, 0, b"", WORDS),
        (&["unwrap"], 10_000, 400, 2, 0, b"", WORDS),
        (&["encode"], 10_000, 400, 2, 0, b"", WORDS),
        (
            &["wrap", "--help", "x"],
            10_000,
            80,
            2,
            0,
            b"",
            &WORDS[..62],
        ),
        (
            &["--version"],
            10_000,
            400,
            0,
            16,
            b"ingest_server 1\n",
            b"",
        ),
        (
            &["wrap", "-h"],
            10_000,
            400,
            0,
            1344,
            b"ingest_server wrap - ",
            b"",
        ),
        (
            &["encode", "--help"],
            10_000,
            400,
            0,
            1174,
            b"ingest_server encode - ",
            b"",
        ),
        (
            &["recover", "--help"],
            10_000,
            400,
            0,
            1243,
            b"ingest_server recover - ",
            b"",
        ),
        (
            &["check", "--help"],
            10_000,
            400,
            0,
            827,
            b"ingest_server check - ",
            b"",
        ),
        (
            &["frame", "-h"],
            10_000,
            400,
            0,
            769,
            b"ingest_server frame - ",
            b"",
        ),
        (&["check", "--help", "x"], 10_000, 400, 2, 0, b"", WORDS),
        (&["check", "--dir"], 10_000, 400, 2, 0, b"", WORDS),
        (&["frame", "--number", "1"], 10_000, 400, 2, 0, b"", WORDS),
        (&["wrap", "-h"], 10, 400, 7, 0, b"", SINK),
        (&["help", "x"], 10, 400, 7, 0, b"", SINK),
    ];
    let mut bytes = feed_of(rt.alloc(), 3)?;
    bytes.truncate(200);
    for (texts, room, message_room, code, len, front, said) in cases {
        let words = Ok(words_of(rt.alloc(), texts)?);
        let (got, written, messages) = reported::<Brand, HostRuntime>(
            &rt,
            &bytes,
            &words,
            room,
            message_room,
        )?;
        assert_eq!(rt; got, code, "{texts:?}");
        assert_eq!(rt; written.len(), len, "{texts:?}");
        assert_eq!(rt; written.get(..front.len()), Some(front), "{texts:?}");
        assert_eq!(rt; messages.as_slice(), said, "{texts:?}");
    }
    let none = Err(WordsFault::Memory);
    let (got, _, messages) = reported::<Brand, HostRuntime>(&rt, &bytes, &none, 10, 400)?;
    assert_eq!(rt; got, 1);
    let want: &[u8] =
        b"ingest_server: status 1 refusal 1 at 0 other 0\ningest_server: out of memory\n";
    assert_eq!(rt; messages.as_slice(), want);
    Ok(())
}

// docs/FORMATS.md, "Refusals". The places are those of the tests of feeds and units.
#[test]
fn a_refusal_is_said_in_a_sentence(rt: HostRuntime) -> Result<(), Fail> {
    // three frames, with others at a place; the second line of the messages
    let cases: [(usize, &[u8], &str); 9] = [
        (0, b"X", "byte 0 is no part of a feed's head"),
        (133, b"X", "the marker at byte 130 is wrong"),
        (134, &[16, 0, 0, 1], "the length at byte 134 is too large"),
        (
            31,
            &[1],
            "the feed goes on behind item 1, the last one that its configuration allows",
        ),
        (143, b"X", "unit 1: bytes 4 to 7 aren't icpf"),
        (
            80,
            &[1],
            "unit 0: the frame size says 16777266 bytes, and there are more or fewer",
        ),
        (
            228,
            &[9],
            "unit 2: coded picture 0 at byte 28 is too short for its header and slice table, or passes the frame",
        ),
        (
            233,
            &[13],
            "unit 2: slice 0, whose size stands at byte 36, passes its coded picture",
        ),
        (9, &[18], "unit 0: the frame isn't as configured at byte 16"),
    ];
    let words = Ok(words_of(rt.alloc(), &["wrap"])?);
    for (at, piece, sentence) in cases {
        let mut bytes = feed_of(rt.alloc(), 3)?;
        put(&mut bytes, at, piece);
        let (_, _, messages) = reported::<Brand, HostRuntime>(&rt, &bytes, &words, 10_000, 400)?;
        let want = format!(in rt.alloc(); "\ningest_server: {sentence}\n")?;
        assert!(rt; messages.ends_with(want.as_bytes()), "{sentence}");
    }
    Ok(())
}
