use crate::{
    HEAD_LEN, Look, RECORD_LEN, Said, SaidFault, commits_say, files_say_one_thing,
    first_bytes_decide, gate_at, last_open, look_at, marks_follow, put_head, put_note, read_head,
    reading_ends, records_are_read,
};
use rec_bytes::Config;
use take_core::Mark;

// docs/formats/commits.md, "Example": three frames in one commit, and then the closed file, written by hand.
const CLOSED: [u8; 109] = [
    0x50, 0x52, 0x54, 0x41, 0x4b, 0x45, 0x30, 0x31, 0x00, 0x10, 0x00, 0x10, 0x00, 0x03, 0x01, 0x01,
    0x01, 0x01, 0x00, 0x01, 0xe0, 0x00, 0x00, 0x00, 0x10, 0x00, 0x00, 0xfa, 0x00, 0x00, 0x00, 0x64,
    0x00, 0x08, 0x00, 0x00, 0x00, 0x00, 0x00, 0x00, 0x00, 0x00, 0x00, 0x00, 0x00, 0x00, 0x00, 0x00,
    0x00, 0x00, 0x00, 0x00, 0x00, 0x00, 0x00, 0x00, 0x50, 0x52, 0x54, 0x4b, 0x00, 0x00, 0x00, 0x00,
    0x00, 0x00, 0x00, 0x00, 0x00, 0x00, 0x00, 0x00, 0x01, 0x00, 0x00, 0x00, 0x00, 0x00, 0x00, 0x00,
    0x03, 0x00, 0x00, 0x00, 0x00, 0x00, 0x00, 0x0e, 0x33, 0x00, 0x01, 0x00, 0x00, 0x00, 0x00, 0x00,
    0x00, 0x00, 0x03, 0x00, 0x00, 0x00, 0x00, 0x00, 0x00, 0x1b, 0xf5, 0x01, 0x00,
];

// The same take closed without a frame: what follows the head.
const NO_FRAMES: [u8; 19] = [
    0x01, 0x00, 0x00, 0x00, 0x00, 0x00, 0x00, 0x00, 0x00, 0x00, 0x00, 0x00, 0x00, 0x00, 0x00, 0x19,
    0xe2, 0x01, 0x00,
];

const FIRST: Mark = Mark {
    count: 3,
    length: 0x0e33,
    closed: false,
};

const LAST: Mark = Mark {
    count: 3,
    length: 0x1bf5,
    closed: true,
};

/// The configuration of the example.
fn example() -> Config {
    Config {
        width: 16,
        height: 16,
        interlace: 0,
        rate: 3,
        aspect: 1,
        primaries: 1,
        transfer: 1,
        matrix: 1,
        log2: 0,
        qmin: 1,
        qmax: 224,
        weights: 0,
        coding: 0,
        drop: 0,
        budget: 4096,
        part: 250,
        max_frames: 100,
        lag: 8,
        start: 0,
        take_id: [0; 16],
        encoder: *b"PRTK",
    }
}

/// What the example's bytes say where they say this many records and this mark.
fn says(number: u64, mark: Option<Mark>) -> Result<Said, SaidFault> {
    Ok(Said {
        config: example(),
        number,
        mark,
    })
}

/// The bytes with other bytes from a place on, as many as there is room for.
fn placed<const N: usize>(old: [u8; N], at: usize, by: &[u8]) -> [u8; N] {
    let mut bytes = old;
    for (place, byte) in bytes.iter_mut().skip(at).zip(by) {
        *place = *byte;
    }
    bytes
}

#[test]
fn a_take_is_written_gate_by_gate(rt: HostRuntime) {
    let mut head = [0xff; 73];
    let mut first = [0xff; 18];
    let mut last = [0xff; 18];
    put_head(&example(), &mut head);
    put_note(&FIRST, &mut first);
    put_note(&LAST, &mut last);
    let begun = placed([0; 109], 0, &head);
    assert_eq!(rt; last_open(&begun), says(0, None));
    let noted = placed(begun, 73, &first);
    assert_eq!(rt; last_open(&noted), says(0, None));
    let opened = placed(noted, 72, &[1]);
    assert_eq!(rt; last_open(&opened), says(1, Some(FIRST)));
    let tailed = placed(opened, 91, &last);
    assert_eq!(rt; last_open(&tailed), says(1, Some(FIRST)));
    let closed = placed(tailed, 90, &[1]);
    assert_eq!(rt; last_open(&closed), says(2, Some(LAST)));
    assert_eq!(rt; closed, CLOSED);
    commits_say();
    files_say_one_thing();
}

#[test]
fn a_take_without_frames_is_closed(rt: HostRuntime) {
    let mut head = [0xff; 73];
    let mut note = [0xff; 18];
    let mark = Mark {
        count: 0,
        length: 6626,
        closed: true,
    };
    put_head(&example(), &mut head);
    put_note(&mark, &mut note);
    let file: [u8; 91] = placed(placed(placed([0xff; 91], 0, &head), 73, &note), 72, &[1]);
    let want: [u8; 91] = placed(placed([0xff; 91], 0, &CLOSED), 72, &NO_FRAMES);
    assert_eq!(rt; file, want);
    assert_eq!(rt; last_open(&file), says(1, Some(mark)));
}

#[test]
fn gates_stand_eighteen_bytes_apart(rt: HostRuntime) {
    assert_eq!(rt; gate_at(0), 72);
    assert_eq!(rt; gate_at(1), 90);
    assert_eq!(rt; gate_at(1 << 59), 10_376_293_541_461_622_856);
}

// How many bytes of the example, a change of it, and the refusal of what it says then.
#[test]
fn each_refusal_has_its_place(rt: HostRuntime) {
    let head = |at: u64| SaidFault::NoTake { at, other: 1 };
    let record = |at: u64| SaidFault::Damaged { at, other: 1 };
    let cases: [(&str, usize, usize, &[u8], SaidFault); 22] = [
        ("nothing", 0, 0, &[], head(0)),
        ("a magic that is cut", 5, 0, &[], head(5)),
        ("a wrong byte behind the cut", 5, 5, &[0], head(5)),
        ("a wrong byte before the cut", 5, 2, &[0], head(2)),
        ("a wrong byte of the magic", 109, 7, &[0x32], head(7)),
        ("two wrong bytes of the magic", 109, 3, &[0; 5], head(3)),
        ("71 bytes", 71, 0, &[], head(71)),
        ("71 bytes of a broken head", 71, 9, &[0], head(71)),
        ("width 0", 109, 9, &[0], head(8)),
        ("lag 0", 109, 33, &[0], head(32)),
        ("no gate", 72, 0, &[], record(72)),
        ("no note", 73, 0, &[], record(72)),
        ("a note that is cut", 89, 0, &[], record(72)),
        ("no second gate", 90, 0, &[], record(90)),
        ("a second note that is cut", 107, 0, &[], record(90)),
        ("no third gate", 108, 0, &[], record(108)),
        ("closed byte 2", 109, 107, &[2], record(90)),
        ("closed byte 255, cut behind it", 90, 89, &[255], record(72)),
        ("a record behind a closed one", 109, 89, &[1], record(90)),
        ("a count that falls", 109, 98, &[2], record(90)),
        ("a length that falls", 109, 105, &[0x0e, 0x32], record(90)),
        (
            "a count that falls from a great one",
            109,
            73,
            &[1],
            record(90),
        ),
    ];
    for (what, len, at, by, want) in cases {
        assert!(rt; len <= 109);
        let bytes = placed(CLOSED, at, by);
        assert_eq!(rt; last_open(&bytes[..len]), Err(want), "{what}");
    }
}

// A change of the example, and what it says then.
#[test]
fn only_a_gate_that_is_one_is_open(rt: HostRuntime) {
    let level = Mark {
        count: 3,
        length: 0x0e33,
        closed: true,
    };
    let most = Mark {
        count: u64::MAX,
        length: u64::MAX,
        closed: true,
    };
    let cases: [(&str, usize, &[u8], u64, Option<Mark>); 7] = [
        ("the example", 0, &[], 2, Some(LAST)),
        ("first gate 7", 72, &[7], 0, None),
        (
            "first gate 0, closed byte 2",
            72,
            &[0, 9, 9, 9, 9, 9, 9, 9, 9, 9, 9, 9, 9, 9, 9, 9, 9, 2],
            0,
            None,
        ),
        ("second gate 255", 90, &[255], 1, Some(FIRST)),
        ("third gate 2", 108, &[2], 2, Some(LAST)),
        ("numbers that stay", 105, &[0x0e, 0x33], 2, Some(level)),
        ("the greatest numbers", 91, &[255; 16], 2, Some(most)),
    ];
    for (what, at, by, number, mark) in cases {
        assert_eq!(rt;
            last_open(&placed(CLOSED, at, by)),
            says(number, mark),
            "{what}"
        );
    }
}

// The example, read in pieces of which none is longer than a head or a record.
#[test]
fn a_file_is_read_piece_by_piece(rt: HostRuntime) {
    assert_eq!(rt; read_head(&CLOSED[..HEAD_LEN]), Ok(example()));
    assert_eq!(rt; read_head(&CLOSED[..HEAD_LEN - 1]), Err(71));
    let first = &CLOSED[HEAD_LEN..HEAD_LEN + RECORD_LEN];
    assert_eq!(rt; look_at(first, None), Look::Open(FIRST));
    assert_eq!(rt; look_at(first, Some(LAST)), Look::Broken);
    let second = &CLOSED[90..90 + RECORD_LEN];
    assert_eq!(rt; look_at(second, Some(FIRST)), Look::Open(LAST));
    assert_eq!(rt; look_at(&CLOSED[108..], Some(LAST)), Look::Shut);
    assert_eq!(rt; look_at(&CLOSED[109..], Some(LAST)), Look::Broken);
    records_are_read();
    reading_ends();
    first_bytes_decide();
    marks_follow();
}
