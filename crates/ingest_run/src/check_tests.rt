//! The commands `check` and `frame` over files in memory. Places and bytes are counted by hand from docs/formats/mxf.md.

ghost use Rattle.std.specs.Prelude.{◌≡◌, Some, []};

use crate::plain;
use crate::tests::{Run, feed_of, put, words_of, wrapped};
use mxf_take_file::PictureLayout;
use raw_feed::{Feed, MemorySink, MemorySource};
use std::alloc::Global;
use std::marker::Brand;
use std::process::Abort;
use std::test::Fail;
use std::thread::Threads;
use take_disk::MemoryDisk;

/// The line of the file of three of the smallest frames.
const LINE: &[u8] = b"take 00000000-0000-0000-0000-000000000000 frames 3 bytes 7157 partitions 3\n";

/// The key of a picture element.
const ELEMENT_KEY: [u8; 16] = *b"\x06\x0e\x2b\x34\x01\x02\x01\x01\x0d\x01\x03\x01\x15\x01\x17\x01";

/// A fill item of 20 bytes, without a value.
const FILL: [u8; 20] =
    *b"\x06\x0e\x2b\x34\x01\x01\x01\x02\x03\x01\x02\x10\x01\x00\x00\x00\x83\x00\x00\x00";

/// What a change makes of a file: the places and the bytes that are put there, and the place and the clause that `check` names.
type Row<'a> = (&'a str, &'a [(usize, &'a [u8])], (u64, u64));

/// Runs a command over a disk with these bytes, of which these calls fail, and over a sink of which these fail.
fn looked<N: Feed, R: AllocGlobal + Threads + Sync + Abort>(
    rt: &R,
    call: &[&str],
    essence: &[u8],
    disk_fails: &[u64],
    sink_fails: &[u64],
    room: usize,
) -> Result<Run, Fail>
    requires { N.bytes ≡ Some [] }
{
    let mut feed = MemorySource::<N>::new(b"", &[]);
    let mut out = MemorySink::new(rt.alloc(), room, sink_fails)?;
    let mut disk = MemoryDisk::new(rt.alloc(), essence, b"", 16_384, 4096, disk_fails, None)?;
    let words = words_of(rt.alloc(), call)?;
    let status = plain::<R, N, PictureLayout, _, _, _>(rt, &words, &mut feed, &mut disk, &mut out);
    let answer = (status.code, status.number, status.at);
    Ok(((answer, status.other), out.bytes().to_vec(rt.alloc())?))
}

/// The closed file of three of the smallest frames: its header at 0, metadata at 124, a body at 3,289 with elements at 3,413,
/// 3,487 and 3,561, the footer at 3,635 with metadata at 3,759 and a segment at 6,924, and the random index pack at 7,097.
pub(crate) fn small_file<N: Feed, R: AllocGlobal + Threads + Sync + Abort>(
    rt: &R,
    feed: &[u8],
) -> Result<Vec<u8>, Fail>
    requires { N.bytes ≡ Some feed.now }
{
    let (answer, file) = wrapped::<N, R>(rt, feed, &[], &[], 8000)?;
    assert_eq!(rt; answer, ((0, 0, 0), 0), "the file");
    Ok(file)
}

/// The bytes of a file between two places.
pub(crate) fn cut(alloc: Global, file: &[u8], from: usize, to: usize) -> Result<Vec<u8>, Fail> {
    let mut piece = Vec::new(alloc);
    for byte in file.iter().skip(from).take(to.saturating_sub(from)) {
        piece.push(*byte)?;
    }
    Ok(piece)
}

/// Whether `check` names the place and the clause of each row, and writes no line.
fn each_is_named<R: AllocGlobal + Threads + Sync + Abort>(
    rt: &R,
    rows: &[Row],
) -> Result<(), Fail> {
    let feed = feed_of(rt.alloc(), 3)?;
    let file = small_file::<Brand, _>(rt, &feed)?;
    for (name, edits, (at, clause)) in rows {
        let mut bytes = file.as_slice().to_vec(rt.alloc())?;
        for (place, piece) in *edits {
            put(&mut bytes, *place, piece);
        }
        let run = looked::<Brand, _>(rt, &["check", "--dir", "x"], &bytes, &[], &[], 512)?;
        let want = (((8, 73, *at), *clause), Vec::new(rt.alloc()));
        assert_eq!(rt; run, want, "{name}");
    }
    Ok(())
}

#[test]
fn the_random_index_pack_is_judged_first(rt: HostRuntime) -> Result<(), Fail> {
    let rows: [Row; 5] = [
        ("the last item is another", &[(7110, &[0x7f])], (7157, 1)),
        ("the index's length", &[(7156, &[0x3d])], (7097, 2)),
        (
            "two entries exchanged",
            &[
                (7117, &[0, 0, 0, 1, 0, 0, 0, 0, 0, 0, 0x0c, 0xd9]),
                (7129, &[0; 12]),
            ],
            (7097, 2),
        ),
        ("an entry's stream", &[(7132, &[2])], (7097, 2)),
        (
            "the earlier clause first",
            &[(43, &[1]), (7156, &[0x3d])],
            (7097, 2),
        ),
    ];
    each_is_named(&rt, &rows)
}

#[test]
fn partition_packs_are_linked_and_in_order(rt: HostRuntime) -> Result<(), Fail> {
    let rows: [Row; 9] = [
        ("the header's previous", &[(43, &[1])], (0, 3)),
        ("the body's place", &[(3324, &[0xda])], (3289, 3)),
        ("the footer's place", &[(3670, &[0x34])], (3635, 3)),
        ("the footer's previous", &[(3678, &[0xd8])], (3635, 3)),
        ("the header's status", &[(14, &[4])], (0, 4)),
        ("a footer in the middle", &[(3302, &[4])], (3289, 4)),
        ("the footer's status", &[(3649, &[2])], (3635, 4)),
        ("the footer's own place", &[(3686, &[0x34])], (3635, 4)),
        ("a body offset", &[(3368, &[1])], (3289, 5)),
    ];
    each_is_named(&rt, &rows)
}

#[test]
fn elements_stand_in_body_partitions(rt: HostRuntime) -> Result<(), Fail> {
    let rows: [Row; 5] = [
        ("another element's key", &[(3499, &[0x16])], (3487, 6)),
        ("an element's track", &[(3428, &[2])], (3413, 6)),
        (
            "an element in the header",
            &[(3128, &ELEMENT_KEY)],
            (3128, 6),
        ),
        (
            "an element in the footer",
            &[(6763, &ELEMENT_KEY)],
            (6763, 6),
        ),
        (
            "a body without an element",
            &[(3423, &[0x7f]), (3497, &[0x7f]), (3571, &[0x7f])],
            (7157, 6),
        ),
    ];
    each_is_named(&rt, &rows)
}

#[test]
fn primers_and_sets_are_complete(rt: HostRuntime) -> Result<(), Fail> {
    let rows: [Row; 6] = [
        ("no primer", &[(137, &[0x7f])], (7157, 7)),
        ("a primer of another size", &[(151, &[0x13])], (124, 7)),
        (
            "a tag that the primer lacks",
            &[(1072, &[0x7f, 0])],
            (1052, 7),
        ),
        ("an item of another size", &[(1110, &[0x3b, 5])], (1052, 7)),
        ("a set that is cut", &[(1217, &[9])], (1052, 7)),
        ("a reference to no set", &[(1137, &[0x63])], (1052, 7)),
    ];
    each_is_named(&rt, &rows)
}

#[test]
fn references_are_resolved_in_header_and_footer(rt: HostRuntime) -> Result<(), Fail> {
    let rows: [Row; 5] = [
        ("a sequence without a clip", &[(2227, &[0x14])], (2113, 7)),
        ("a clip of another package", &[(2332, &[0xee])], (2213, 7)),
        ("no file package", &[(2355, &[0x36])], (2213, 7)),
        ("a clip of the footer", &[(5967, &[0xee])], (5848, 7)),
        (
            "both metadata",
            &[(1072, &[0x7f, 0]), (5967, &[0xee])],
            (1052, 7),
        ),
    ];
    each_is_named(&rt, &rows)
}

#[test]
fn durations_of_the_footer_are_the_frames(rt: HostRuntime) -> Result<(), Fail> {
    let rows: [Row; 9] = [
        ("duration 1", &[(5524, &[2])], (5453, 8)),
        ("duration 2", &[(5624, &[2])], (5553, 8)),
        ("duration 3", &[(5819, &[2])], (5748, 8)),
        ("duration 4", &[(5919, &[2])], (5848, 8)),
        ("duration 5", &[(6311, &[2])], (6240, 8)),
        ("duration 6", &[(6411, &[2])], (6340, 8)),
        ("duration 7", &[(6606, &[2])], (6535, 8)),
        ("duration 8", &[(6706, &[2])], (6635, 8)),
        ("duration 9", &[(6834, &[2])], (6763, 8)),
    ];
    each_is_named(&rt, &rows)
}

#[test]
fn index_segments_name_each_frame(rt: HostRuntime) -> Result<(), Fail> {
    let rows: [Row; 6] = [
        ("a segment that starts late", &[(6987, &[1])], (6924, 9)),
        ("a segment of fewer frames", &[(6999, &[2])], (6924, 9)),
        ("an entry one byte off", &[(7080, &[0x4b])], (6924, 9)),
        ("entries that don't rise", &[(7080, &[0])], (6924, 9)),
        ("no segment", &[(6937, &[0x7f])], (7157, 9)),
        (
            "a later clause waits",
            &[(59, &[0xd9]), (6987, &[1])],
            (6924, 9),
        ),
    ];
    each_is_named(&rt, &rows)
}

#[test]
fn packs_count_their_bytes(rt: HostRuntime) -> Result<(), Fail> {
    let rows: [Row; 4] = [
        ("header bytes with the pack", &[(59, &[0xd9])], (0, 10)),
        ("header bytes of a body", &[(3348, &[1])], (3289, 10)),
        ("index bytes of a footer", &[(3702, &[0xac])], (3635, 10)),
        ("index bytes of a header", &[(67, &[1])], (0, 10)),
    ];
    each_is_named(&rt, &rows)
}

#[test]
fn a_file_with_fill_and_other_length_forms_is_accepted(rt: HostRuntime) -> Result<(), Fail> {
    let alloc = rt.alloc();
    let feed = feed_of(alloc, 3)?;
    let file = small_file::<Brand, _>(&rt, &feed)?;
    let frame = cut(alloc, &file, 3437, 3487)?;
    // header pack, fill, metadata: 0, 124, 144
    let mut bytes = cut(alloc, &file, 0, 124)?;
    bytes.extend_from_slice(&FILL)?;
    bytes.extend_from_slice(&cut(alloc, &file, 124, 3289)?)?;
    // body pack, fill, elements with lengths in one byte, in one and eight, and in one: 3309, 3433, 3453, 3520, 3595
    bytes.extend_from_slice(&cut(alloc, &file, 3289, 3413)?)?;
    bytes.extend_from_slice(&FILL)?;
    let lengths: [&[u8]; 3] = [b"\x32", b"\x88\x00\x00\x00\x00\x00\x00\x00\x32", b"\x32"];
    for length in lengths {
        bytes.extend_from_slice(&ELEMENT_KEY)?;
        bytes.extend_from_slice(length)?;
        bytes.extend_from_slice(&frame)?;
    }
    // footer pack, fill, metadata and segment, random index pack, fill: 3662, 3786, 3806, 7144, 7204
    bytes.extend_from_slice(&cut(alloc, &file, 3635, 3759)?)?;
    bytes.extend_from_slice(&FILL)?;
    bytes.extend_from_slice(&cut(alloc, &file, 3759, 7157)?)?;
    bytes.extend_from_slice(&FILL)?;
    // the body's place; the footer's, the one before and its own; the entries' offsets; the places in the random index pack
    let edits: [(usize, &[u8]); 8] = [
        (3343, &[0x0c, 0xed]),
        (3696, &[0x0e, 0x4e]),
        (3704, &[0x0c, 0xed]),
        (3712, &[0x0e, 0x4e]),
        (7127, &[0x43]),
        (7138, &[0x8e]),
        (7186, &[0x0c, 0xed]),
        (7198, &[0x0e, 0x4e]),
    ];
    for (place, piece) in edits {
        put(&mut bytes, place, piece);
    }
    assert_eq!(rt; bytes.len(), 7224, "bytes of the file");
    let (answer, line) = looked::<Brand, _>(&rt, &["check", "--dir", "x"], &bytes, &[], &[], 512)?;
    assert_eq!(rt; answer, ((0, 0, 0), 0));
    let want = b"take 00000000-0000-0000-0000-000000000000 frames 3 bytes 7224 partitions 3\n";
    assert_eq!(rt; line.as_slice(), &want[..]);
    let (answer, samples) = looked::<Brand, _>(
        &rt,
        &["frame", "--dir", "x", "--number", "1"],
        &bytes,
        &[],
        &[],
        2048,
    )?;
    assert_eq!(rt;
        (answer, samples.len()),
        (((0, 0, 0), 0), 1024),
        "the second frame"
    );
    Ok(())
}

#[test]
fn a_file_is_checked_and_its_frames_are_shown(rt: HostRuntime) -> Result<(), Fail> {
    let alloc = rt.alloc();
    let feed = feed_of(alloc, 3)?;
    let file = small_file::<Brand, _>(&rt, &feed)?;
    let cut_file = cut(alloc, &file, 0, 7156)?;
    let check: &[&str] = &["check", "--dir", "x"];
    let last: &[&str] = &["frame", "--dir", "x", "--number", "2"];
    let past: &[&str] = &["frame", "--dir", "x", "--number", "3"];
    let nothing = Vec::new(alloc);
    let run = looked::<Brand, _>(&rt, check, &file, &[], &[], 512)?;
    assert_eq!(rt; run, (((0, 0, 0), 0), LINE.to_vec(alloc)?), "check");
    let run = looked::<Brand, _>(&rt, check, &cut_file, &[], &[], 512)?;
    assert_eq!(rt; run, (((8, 73, 7097), 1), nothing), "a file that is cut");
    let run = looked::<Brand, _>(&rt, check, b"", &[], &[], 512)?;
    assert_eq!(rt; run, (((8, 73, 0), 1), Vec::new(alloc)), "no file");
    let run = looked::<Brand, _>(&rt, check, &file, &[0], &[], 512)?;
    assert_eq!(rt;
        run,
        (((6, 83, 1), 0), Vec::new(alloc)),
        "a disk that fails"
    );
    let run = looked::<Brand, _>(&rt, check, &file, &[], &[0], 512)?;
    assert_eq!(rt;
        run,
        (((7, 117, 1), 0), Vec::new(alloc)),
        "a sink that fails"
    );
    let mut flat = Vec::new(alloc);
    for _ in 0..512 {
        flat.extend_from_slice(&[2, 0])?;
    }
    let run = looked::<Brand, _>(&rt, last, &file, &[], &[], 2048)?;
    assert_eq!(rt; run, (((0, 0, 0), 0), flat), "the last frame");
    let run = looked::<Brand, _>(&rt, past, &file, &[], &[], 2048)?;
    assert_eq!(rt;
        run,
        (((8, 93, 3), 3), Vec::new(alloc)),
        "a frame behind the last"
    );
    let (answer, _) = looked::<Brand, _>(&rt, last, &file, &[], &[], 1000)?;
    assert_eq!(rt; answer, ((7, 117, 1), 0), "a sink without room");
    // of the second frame: slice 0 with index 225, with too long parts, and the frame size one more
    let refused: [(usize, &[u8], ((u8, u16, u64), u64)); 3] = [
        (3550, &[0xe1], ((8, 22, 0), 1)),
        (3551, &[0, 7], ((8, 23, 0), 1)),
        (3514, &[0x33], ((8, 32, 0), 51)),
    ];
    let second: &[&str] = &["frame", "--dir", "x", "--number", "1"];
    for (place, piece, want) in refused {
        let mut bytes = file.as_slice().to_vec(alloc)?;
        put(&mut bytes, place, piece);
        let run = looked::<Brand, _>(&rt, second, &bytes, &[], &[], 2048)?;
        assert_eq!(rt; run, (want, Vec::new(alloc)), "a frame that is refused");
        let (answer, _) = looked::<Brand, _>(&rt, last, &bytes, &[], &[], 2048)?;
        assert_eq!(rt; answer, ((0, 0, 0), 0), "the frame behind it");
    }
    Ok(())
}
