//! Segments that are read: rows worked out by hand from docs/FORMATS.md, "Index table segments".

use crate::example::BYTES;
use crate::fault::SegmentFault::{self, EntryOrder, SegmentCut, SegmentField};
use crate::reading::{Segment, read_segment};

/// What a segment of three frames says, 0 for what it lacks.
fn three_of(answer: Result<Segment, SegmentFault>) -> Result<(u64, [u64; 3]), SegmentFault> {
    match answer {
        Ok(segment) => {
            let streams = segment.streams.as_slice();
            Ok((
                segment.first,
                [
                    offset_of(streams, 0),
                    offset_of(streams, 1),
                    offset_of(streams, 2),
                ],
            ))
        }
        Err(fault) => Err(fault),
    }
}

fn offset_of(streams: &[u64], k: usize) -> u64 {
    streams.get(k).copied().unwrap_or(0)
}

#[test]
fn the_example_is_read_whatever_follows(rt: HostRuntime) {
    let answer = three_of(read_segment(rt.alloc(), &BYTES));
    assert_eq!(rt; answer, Ok((0, [0, 74, 148])), "the example");
    let mut bytes = [0xee; 180];
    bytes[..173].copy_from_slice(&BYTES);
    let answer = three_of(read_segment(rt.alloc(), &bytes));
    assert_eq!(rt; answer, Ok((0, [0, 74, 148])), "with bytes behind it");
    match read_segment(rt.alloc(), &BYTES) {
        Ok(segment) => assert_eq!(rt; segment.streams.len(), 3, "frames"),
        Err(fault) => assert_eq!(rt; fault, SegmentFault::Memory, "a segment"),
    }
}

// One byte of the example is changed: its place, what stands there then, and the answer.
#[test]
fn each_byte_that_is_due_is_refused_at_its_item(rt: HostRuntime) {
    let id = SegmentField {
        at: 20,
        tag: 0x3c0a,
    };
    let first = SegmentField {
        at: 52,
        tag: 0x3f0c,
    };
    let delta = SegmentField {
        at: 105,
        tag: 0x3f09,
    };
    let entries = SegmentField {
        at: 123,
        tag: 0x3f0a,
    };
    let closing = SegmentField {
        at: 168,
        tag: 0x3f0e,
    };
    let cases: [(usize, u8, Result<(u64, [u64; 3]), SegmentFault>); 41] = [
        (0, 7, Err(SegmentField { at: 0, tag: 0 })),
        (15, 1, Err(SegmentField { at: 0, tag: 0 })),
        (16, 0x89, Err(SegmentCut { at: 0, tag: 0 })),
        (19, 0x9a, Err(SegmentCut { at: 0, tag: 0 })),
        (
            19,
            0x98,
            Err(SegmentCut {
                at: 168,
                tag: 0x3f0e,
            }),
        ),
        (20, 0x3d, Err(id)),
        (23, 17, Err(id)),
        (
            22,
            0xff,
            Err(SegmentCut {
                at: 20,
                tag: 0x3c0a,
            }),
        ),
        (24, 9, Ok((0, [0, 74, 148]))),
        (
            43,
            7,
            Err(SegmentField {
                at: 40,
                tag: 0x3f0b,
            }),
        ),
        (47, 30, Ok((0, [0, 74, 148]))),
        (53, 0x0d, Err(first)),
        (56, 0x80, Err(first)),
        (63, 5, Ok((5, [0, 74, 148]))),
        (
            65,
            0x0e,
            Err(SegmentField {
                at: 64,
                tag: 0x3f0d,
            }),
        ),
        (68, 0x80, Err(entries)),
        (75, 4, Err(entries)),
        (75, 2, Err(entries)),
        (
            83,
            1,
            Err(SegmentField {
                at: 76,
                tag: 0x3f05,
            }),
        ),
        (
            91,
            1,
            Err(SegmentField {
                at: 84,
                tag: 0x3f06,
            }),
        ),
        (
            99,
            2,
            Err(SegmentField {
                at: 92,
                tag: 0x3f07,
            }),
        ),
        (
            104,
            1,
            Err(SegmentField {
                at: 100,
                tag: 0x3f08,
            }),
        ),
        (112, 2, Err(delta)),
        (116, 7, Err(delta)),
        (122, 1, Err(delta)),
        (
            125,
            1,
            Err(SegmentCut {
                at: 123,
                tag: 0x3f0a,
            }),
        ),
        (126, 0x2a, Err(entries)),
        (130, 2, Err(entries)),
        (134, 12, Err(entries)),
        (135, 1, Err(entries)),
        (147, 1, Err(entries)),
        (159, 0, Err(entries)),
        (145, 80, Err(EntryOrder { entry: 1 })),
        (156, 0, Err(EntryOrder { entry: 1 })),
        (167, 74, Err(EntryOrder { entry: 2 })),
        (167, 75, Ok((0, [0, 74, 75]))),
        (160, 0xff, Ok((0, [0, 74, 0xff00_0000_0000_0094]))),
        (168, 0x3e, Err(closing)),
        (169, 0x0f, Err(closing)),
        (171, 0, Err(closing)),
        (172, 1, Err(closing)),
    ];
    for (at, byte, expected) in cases {
        let mut bytes = BYTES;
        if let Some(changed) = bytes.get_mut(at) {
            *changed = byte;
        }
        let answer = three_of(read_segment(rt.alloc(), &bytes));
        assert_eq!(rt; answer, expected, "byte {at} is {byte}");
    }
}

// The first 123 bytes of the example with no frames, then an array of no entries and the last item.
const EMPTY: [u8; 20] = [
    0x3f, 0x0a, 0, 8, 0, 0, 0, 0, 0, 0, 0, 11, 0x3f, 0x0e, 0, 1, 0, 9, 9, 9,
];

#[test]
fn a_segment_of_no_frames_is_read_and_what_is_behind_the_items_is_refused(rt: HostRuntime) {
    let mut bytes = [0; 143];
    bytes[..123].copy_from_slice(&BYTES[..123]);
    bytes[123..].copy_from_slice(&EMPTY);
    bytes[75] = 0;
    bytes[19] = 120;
    match read_segment(rt.alloc(), &bytes) {
        Ok(segment) => {
            assert_eq!(rt; (segment.first, segment.streams.len()), (0, 0), "no frames")
        }
        Err(fault) => assert_eq!(rt; fault, SegmentFault::Memory, "a segment of no frames"),
    }
    bytes[19] = 123;
    let answer = three_of(read_segment(rt.alloc(), &bytes));
    assert_eq!(rt;
        answer,
        Err(SegmentField { at: 140, tag: 0 }),
        "three bytes behind the items"
    );
}

// The length of the whole item in one byte behind 81h, and values that end where an item is due.
#[test]
fn places_count_from_the_key_whatever_the_form_of_the_length(rt: HostRuntime) {
    let mut bytes = [0; 171];
    bytes[..16].copy_from_slice(&BYTES[..16]);
    bytes[16] = 0x81;
    bytes[17] = 0x99;
    bytes[18..].copy_from_slice(&BYTES[20..]);
    let answer = three_of(read_segment(rt.alloc(), &bytes));
    assert_eq!(rt; answer, Ok((0, [0, 74, 148])), "two bytes of length");
    bytes[54] = 0x80;
    let answer = three_of(read_segment(rt.alloc(), &bytes));
    let first = SegmentField {
        at: 50,
        tag: 0x3f0c,
    };
    assert_eq!(rt; answer, Err(first), "a first frame of 2^63");
    let cases: [(u8, u64, u64); 5] = [
        (0, 18, 0x3c0a),
        (3, 18, 0x3c0a),
        (19, 18, 0x3c0a),
        (20, 38, 0x3f0b),
        (31, 38, 0x3f0b),
    ];
    for (len, at, tag) in cases {
        bytes[17] = len;
        bytes[16] = 0x81;
        let answer = three_of(read_segment(rt.alloc(), &bytes));
        assert_eq!(rt;
            answer,
            Err(SegmentCut { at, tag }),
            "a value of {len} bytes"
        );
    }
}

// Lengths and counts that the bytes don't have.
#[test]
fn no_length_or_count_is_believed(rt: HostRuntime) {
    let none = SegmentCut { at: 0, tag: 0 };
    let entries = SegmentField {
        at: 123,
        tag: 0x3f0a,
    };
    let answer = three_of(read_segment(rt.alloc(), &[]));
    assert_eq!(rt; answer, Err(none), "no bytes");
    let answer = three_of(read_segment(rt.alloc(), &BYTES[..172]));
    assert_eq!(rt; answer, Err(none), "the last byte is missing");
    let mut bytes = BYTES;
    bytes[16] = 0x88;
    bytes[17..25].copy_from_slice(&[0xff; 8]);
    let answer = three_of(read_segment(rt.alloc(), &bytes));
    assert_eq!(rt; answer, Err(none), "a length of 2^64 - 1");
    let mut bytes = BYTES;
    bytes[68..76].copy_from_slice(&[0xff; 8]);
    let answer = three_of(read_segment(rt.alloc(), &bytes));
    assert_eq!(rt; answer, Err(entries), "2^64 - 1 frames");
    let mut bytes = BYTES;
    bytes[72..76].copy_from_slice(&[0xff; 4]);
    bytes[127..131].copy_from_slice(&[0xff; 4]);
    let answer = three_of(read_segment(rt.alloc(), &bytes));
    assert_eq!(rt; answer, Err(entries), "2^32 - 1 frames and entries");
}
