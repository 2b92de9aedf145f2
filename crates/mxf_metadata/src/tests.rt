//! Rows that another program worked out (Python's uuid, struct and hashlib, from docs/FORMATS.md, "Metadata").

use crate::{METADATA, Size, TAGS, put_metadata};
use mxf_names::Ids;
use rec_bytes::{Config, read_config};
use sha1::Sha1;
use std::process::Abort;

// 16 by 16, progressive, 25 a second, aspect 4 to 3, no take identifier.
const SMALL: [u8; 64] = [
    0x00, 0x10, 0x00, 0x10, 0x00, 0x03, 0x02, 0x01, 0x01, 0x01, 0x00, 0x01, 0xe0, 0x00, 0x02, 0x00,
    0x10, 0x00, 0x00, 0xfa, 0x00, 0x0f, 0x42, 0x40, 0x00, 0x08, 0x00, 0x00, 0x00, 0x00, 0x00, 0x00,
    0x00, 0x00, 0x00, 0x00, 0x00, 0x00, 0x00, 0x00, 0x00, 0x00, 0x00, 0x00, 0x00, 0x00, 0x00, 0x00,
    0x54, 0x45, 0x53, 0x54, 0x00, 0x00, 0x00, 0x00, 0x00, 0x00, 0x00, 0x00, 0x00, 0x00, 0x00, 0x00,
];

// 352 by 288, top field first, 30000 in 1001 seconds, aspect 16 to 9, drop frame, start 01020304h.
const FIELDS: [u8; 64] = [
    0x01, 0x60, 0x01, 0x20, 0x01, 0x04, 0x03, 0x01, 0x01, 0x01, 0x00, 0x01, 0xe0, 0x00, 0x00, 0x01,
    0x10, 0x00, 0x00, 0xfa, 0x00, 0x0f, 0x42, 0x40, 0x00, 0x08, 0x00, 0x00, 0x01, 0x02, 0x03, 0x04,
    0x00, 0x01, 0x02, 0x03, 0x04, 0x05, 0x06, 0x07, 0x08, 0x09, 0x0a, 0x0b, 0x0c, 0x0d, 0x0e, 0x0f,
    0x54, 0x45, 0x53, 0x54, 0x00, 0x00, 0x00, 0x00, 0x00, 0x00, 0x00, 0x00, 0x00, 0x00, 0x00, 0x00,
];

// 320 by 180, bottom field first, 60000 in 1001 seconds, aspect as width to height, coding 3.
const OTHER: [u8; 64] = [
    0x01, 0x40, 0x00, 0xb4, 0x02, 0x07, 0x05, 0x01, 0x01, 0x01, 0x00, 0x01, 0xe0, 0x00, 0x03, 0x00,
    0x10, 0x00, 0x00, 0xfa, 0x00, 0x0f, 0x42, 0x40, 0x00, 0x08, 0x00, 0x00, 0x00, 0x01, 0x5f, 0x90,
    0xa5, 0xa5, 0xa5, 0xa5, 0xa5, 0xa5, 0xa5, 0xa5, 0xa5, 0xa5, 0xa5, 0xa5, 0xa5, 0xa5, 0xa5, 0xa5,
    0x54, 0x45, 0x53, 0x54, 0x00, 0x00, 0x00, 0x00, 0x00, 0x00, 0x00, 0x00, 0x00, 0x00, 0x00, 0x00,
];

fn config(rt: &impl Abort, bytes: &[u8; 64]) -> Config {
    read_config(bytes).expect(rt, "a configuration")
}

/// The bytes from a place on.
fn at(out: &[u8; METADATA], place: usize) -> &[u8] {
    &out[place.min(METADATA)..]
}

fn front(out: &[u8; METADATA + 5]) -> &[u8] {
    &out[..METADATA]
}

fn behind(out: &[u8; METADATA + 5]) -> &[u8] {
    &out[METADATA..]
}

#[test]
fn all_bytes_are_those_of_another_program(rt: HostRuntime) {
    let cases: [(&str, &[u8; 64], Option<u64>, [u8; 20]); 3] = [
        (
            "small, unknown duration",
            &SMALL,
            None,
            [
                0xfc, 0x01, 0xe8, 0x2b, 0x9c, 0xac, 0xb8, 0x92, 0xbb, 0x8b, 0x7b, 0xb5, 0x9f, 0x2e,
                0x1d, 0xee, 0x30, 0x8f, 0x51, 0x31,
            ],
        ),
        (
            "fields, 3 frames",
            &FIELDS,
            Some(3),
            [
                0x80, 0x31, 0xf9, 0xc3, 0x73, 0xb5, 0xf5, 0x80, 0x09, 0xb9, 0xa5, 0x05, 0x2e, 0x38,
                0x16, 0xca, 0x39, 0xbc, 0x7b, 0xf9,
            ],
        ),
        (
            "other, 1,000,000 frames",
            &OTHER,
            Some(1_000_000),
            [
                0xae, 0xab, 0x0d, 0x11, 0xbe, 0xf1, 0x3c, 0x4f, 0xa2, 0x02, 0xd2, 0x93, 0xdd, 0xf4,
                0x05, 0x7d, 0x24, 0x7b, 0xc9, 0x22,
            ],
        ),
    ];
    for (name, bytes, frames, digest) in cases {
        let cfg = config(&rt, bytes);
        let mut out = [0xee; METADATA + 5];
        let end = put_metadata(&cfg, &Ids::new(&cfg), frames, &mut out);
        assert_eq!(rt; end, METADATA, "end of {name}");
        assert_eq!(rt; Sha1::digest(front(&out)), digest, "SHA-1 of {name}");
        assert_eq!(rt; behind(&out), &[0xee; 5][..], "bytes behind {name}");
    }
}

#[test]
fn items_stand_where_the_sets_before_them_end(rt: HostRuntime) {
    let cfg = config(&rt, &FIELDS);
    let mut out = [0; METADATA];
    put_metadata(&cfg, &Ids::new(&cfg), Some(3), &mut out);
    let cases: [(&str, usize, &[u8]); 15] = [
        (
            "primer's length and count",
            16,
            &[0x83, 0, 3, 0x8c, 0, 0, 0, 50, 0, 0, 0, 18],
        ),
        ("preface's length", 944, &[0x83, 0, 0, 154, 0x3c, 0x0a]),
        (
            "company name",
            1162,
            &[
                0x3c, 1, 0, 12, 0, b'i', 0, b'n', 0, b'g', 0, b'e', 0, b's', 0, b't',
            ],
        ),
        ("version", 1208, &[0x3c, 4, 0, 2, 0, b'1']),
        (
            "material package's identifier",
            1490,
            &[
                0x44, 1, 0, 32, 0x06, 0x0a, 0x2b, 0x34, 1, 1, 1, 5, 1, 1, 0x0f, 0x20, 0x13, 0, 0,
                0, 0, 1, 2, 3, 4, 5, 6, 7, 8, 9, 10, 11, 12, 13, 14, 15,
            ],
        ),
        (
            "timecode's duration",
            1754,
            &[2, 2, 0, 8, 0, 0, 0, 0, 0, 0, 0, 3],
        ),
        ("timecode base", 1878, &[0x15, 2, 0, 2, 0, 30]),
        (
            "clip's duration",
            2149,
            &[2, 2, 0, 8, 0, 0, 0, 0, 0, 0, 0, 3],
        ),
        (
            "picture track's number",
            2724,
            &[0x48, 4, 0, 4, 0x15, 1, 0x17, 1],
        ),
        (
            "file package's clip has no source",
            2960,
            &[0x11, 1, 0, 32, 0, 0, 0, 0],
        ),
        (
            "container's duration",
            3064,
            &[0x30, 2, 0, 8, 0, 0, 0, 0, 0, 0, 0, 3],
        ),
        ("coding", 3112, &[3, 6, 1, 0]),
        ("frame layout", 3116, &[0x32, 0x0c, 0, 1, 1]),
        ("rows of a field", 3129, &[0x32, 2, 0, 4, 0, 0, 0, 144]),
        ("aspect", 3137, &[0x32, 0x0e, 0, 8, 0, 0, 0, 16, 0, 0, 0, 9]),
    ];
    for (name, place, bytes) in cases {
        assert!(rt; at(&out, place).starts_with(bytes), "{name}");
    }
}

#[test]
fn each_rate_is_written_as_its_standard_says(rt: HostRuntime) {
    // SMPTE RDD 36, frame_rate_code: numerator and denominator; the count of a second as SMPTE ST 12-1 rounds it.
    let cases: [(u8, [u8; 8], u8); 8] = [
        (1, [0, 0, 0x5d, 0xc0, 0, 0, 0x03, 0xe9], 24),
        (2, [0, 0, 0, 24, 0, 0, 0, 1], 24),
        (3, [0, 0, 0, 25, 0, 0, 0, 1], 25),
        (4, [0, 0, 0x75, 0x30, 0, 0, 0x03, 0xe9], 30),
        (5, [0, 0, 0, 30, 0, 0, 0, 1], 30),
        (6, [0, 0, 0, 50, 0, 0, 0, 1], 50),
        (7, [0, 0, 0xea, 0x60, 0, 0, 0x03, 0xe9], 60),
        (8, [0, 0, 0, 60, 0, 0, 0, 1], 60),
    ];
    for (rate, edit_rate, base) in cases {
        let mut bytes = SMALL;
        bytes[5] = rate;
        let cfg = config(&rt, &bytes);
        let mut out = [0; METADATA];
        put_metadata(&cfg, &Ids::new(&cfg), Some(3), &mut out);
        // The tracks in sets 6, 9, 13 and 16, and the descriptor in set 19.
        for place in [1654, 1949, 2441, 2736, 3056] {
            assert!(rt;
                at(&out, place).starts_with(&edit_rate),
                "edit rate of {rate} at {place}"
            );
        }
        // The timecodes in sets 8 and 15.
        for place in [1882, 2669] {
            assert!(rt;
                at(&out, place).starts_with(&[0, base]),
                "frames a second of {rate} at {place}"
            );
        }
    }
}

#[test]
fn each_aspect_is_written_as_its_standard_says(rt: HostRuntime) {
    // SMPTE RDD 36, aspect_ratio_information: 2 and 3 are shapes of the picture; for others, samples are square.
    let cases: [(u8, [u8; 8]); 4] = [
        (0, [0, 0, 0x01, 0x40, 0, 0, 0, 0xb4]),
        (1, [0, 0, 0x01, 0x40, 0, 0, 0, 0xb4]),
        (2, [0, 0, 0, 4, 0, 0, 0, 3]),
        (3, [0, 0, 0, 16, 0, 0, 0, 9]),
    ];
    for (aspect, ratio) in cases {
        let mut bytes = OTHER;
        bytes[6] = aspect;
        let cfg = config(&rt, &bytes);
        let mut out = [0; METADATA];
        put_metadata(&cfg, &Ids::new(&cfg), None, &mut out);
        assert!(rt; at(&out, 3141).starts_with(&ratio), "aspect {aspect}");
    }
}

#[test]
fn each_tag_has_its_size(rt: HostRuntime) {
    let cases: [(Size, &[u16]); 8] = [
        (Size::Fixed(1), &[0x1503, 0x320c]),
        (Size::Fixed(2), &[0x3b05, 0x1502]),
        (
            Size::Fixed(4),
            &[
                0x3b07, 0x3f06, 0x3f07, 0x4801, 0x4804, 0x1102, 0x3006, 0x3203, 0x3202, 0x3301,
                0x3302,
            ],
        ),
        (
            Size::Fixed(8),
            &[
                0x3b02, 0x3c06, 0x4404, 0x4405, 0x4b01, 0x4b02, 0x0202, 0x1501, 0x1201, 0x3001,
                0x3002, 0x320e,
            ],
        ),
        (
            Size::Fixed(16),
            &[
                0x3c0a, 0x3b03, 0x3b09, 0x3c09, 0x3c05, 0x4803, 0x0201, 0x4701, 0x3004, 0x3201,
            ],
        ),
        (Size::Fixed(32), &[0x2701, 0x4401, 0x1101]),
        (
            Size::Batch,
            &[0x3b06, 0x3b0a, 0x3b0b, 0x1901, 0x1902, 0x4403, 0x1001],
        ),
        (Size::Letters, &[0x3c01, 0x3c02, 0x3c04]),
    ];
    for (size, tags) in cases {
        for tag in tags {
            assert_eq!(rt; size_of(*tag), Some(size), "size of {tag}");
        }
    }
}

fn size_of(tag: u16) -> Option<Size> {
    for row in TAGS {
        if row.tag == tag {
            return Some(row.size);
        }
    }
    None
}
