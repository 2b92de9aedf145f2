//! Rows worked out by hand from docs/FORMATS.md, "Metadata": places are sums of the lengths of its tables.

use crate::SetFault::{BrokenReference, ItemSize, NotPrimer, SetCut, UnknownTag};
use crate::{SetFault, Sets, read_sets};
use mxf_metadata::{METADATA, put_metadata};
use mxf_names::Ids;
use rec_bytes::{Config, read_config};
use std::process::Abort;

// 16 by 16, progressive, 25 a second, aspect 4 to 3, no take identifier.
const SMALL: [u8; 64] = [
    0x00, 0x10, 0x00, 0x10, 0x00, 0x03, 0x02, 0x01, 0x01, 0x01, 0x00, 0x01, 0xe0, 0x00, 0x02, 0x00,
    0x10, 0x00, 0x00, 0xfa, 0x00, 0x0f, 0x42, 0x40, 0x00, 0x08, 0x00, 0x00, 0x00, 0x00, 0x00, 0x00,
    0x00, 0x00, 0x00, 0x00, 0x00, 0x00, 0x00, 0x00, 0x00, 0x00, 0x00, 0x00, 0x00, 0x00, 0x00, 0x00,
    0x54, 0x45, 0x53, 0x54, 0x00, 0x00, 0x00, 0x00, 0x00, 0x00, 0x00, 0x00, 0x00, 0x00, 0x00, 0x00,
];

// 352 by 288, top field first, 30000 in 1001 seconds, aspect 16 to 9, drop frame, start 01020304h.
const FIELDS: [u8; 64] = [
    0x01, 0x60, 0x01, 0x20, 0x01, 0x04, 0x03, 0x01, 0x01, 0x01, 0x00, 0x01, 0xe0, 0x00, 0x00, 0x01,
    0x10, 0x00, 0x00, 0xfa, 0x00, 0x0f, 0x42, 0x40, 0x00, 0x08, 0x00, 0x00, 0x01, 0x02, 0x03, 0x04,
    0x00, 0x01, 0x02, 0x03, 0x04, 0x05, 0x06, 0x07, 0x08, 0x09, 0x0a, 0x0b, 0x0c, 0x0d, 0x0e, 0x0f,
    0x54, 0x45, 0x53, 0x54, 0x00, 0x00, 0x00, 0x00, 0x00, 0x00, 0x00, 0x00, 0x00, 0x00, 0x00, 0x00,
];

fn metadata_of(rt: &impl Abort, bytes: &[u8; 64], frames: Option<u32>) -> [u8; METADATA] {
    let cfg: Config = read_config(bytes).expect(rt, "a configuration");
    let mut out = [0; METADATA];
    put_metadata(&cfg, &Ids::new(&cfg), frames.map(u64::from), &mut out);
    out
}

#[test]
fn what_is_written_is_read(rt: HostRuntime) {
    let cases: [(&str, &[u8; 64], Option<u32>, Sets); 3] = [
        (
            "small, unknown duration",
            &SMALL,
            None,
            Sets {
                frames: None,
                take_id: [0; 16],
                width: 16,
                height: 16,
                rate: (25, 1),
            },
        ),
        (
            "small, 3 frames",
            &SMALL,
            Some(3),
            Sets {
                frames: Some(3),
                take_id: [0; 16],
                width: 16,
                height: 16,
                rate: (25, 1),
            },
        ),
        (
            "fields, 1,000,000 frames",
            &FIELDS,
            Some(1_000_000),
            Sets {
                frames: Some(1_000_000),
                take_id: [0, 1, 2, 3, 4, 5, 6, 7, 8, 9, 10, 11, 12, 13, 14, 15],
                width: 352,
                height: 144,
                rate: (30_000, 1001),
            },
        ),
    ];
    for (name, bytes, frames, sets) in cases {
        let out = metadata_of(&rt, bytes, frames);
        assert_eq!(rt; read_sets(rt.alloc(), &out), Ok(sets), "{name}");
    }
}

/// Puts bytes at a place, those that fit.
fn patch(out: &mut [u8; METADATA], place: usize, bytes: &[u8]) {
    for (k, byte) in bytes.iter().enumerate() {
        if place < METADATA && k < METADATA - place {
            out[place + k] = *byte;
        }
    }
}

// The preface's value begins at 948 and ends at 1102; its items stand at 948, 968, 980, 986, 994, 1014, 1042, 1062
// and 1090.
#[test]
fn each_rule_that_is_broken_is_named_at_its_item(rt: HostRuntime) {
    let cases: [(&str, usize, &[u8], SetFault); 17] = [
        ("key of the primer", 13, &[6], NotPrimer),
        ("count of the primer", 23, &[49], NotPrimer),
        ("size of an entry", 27, &[17], NotPrimer),
        (
            "tag that the primer lacks",
            968,
            &[0x12, 0x34],
            UnknownTag {
                at: 968,
                tag: 0x1234,
            },
        ),
        (
            "primer that lacks a tag",
            46,
            &[0x12, 0x34],
            UnknownTag {
                at: 968,
                tag: 0x3b02,
            },
        ),
        (
            "item that passes the end of its set",
            1093,
            &[9],
            SetCut {
                at: 1090,
                tag: 0x3b0b,
            },
        ),
        (
            "set that ends in a length",
            947,
            &[145],
            SetCut {
                at: 1090,
                tag: 0x3b0b,
            },
        ),
        (
            "set that ends in a tag",
            947,
            &[143],
            SetCut { at: 1090, tag: 0 },
        ),
        (
            "set that passes the end",
            3020,
            &[0x83, 0, 0, 142],
            SetCut { at: 3004, tag: 0 },
        ),
        (
            "item of another size",
            980,
            &[0x3b, 7],
            ItemSize {
                at: 980,
                tag: 0x3b07,
            },
        ),
        (
            "text of an odd length",
            1884,
            &[0x3c, 4],
            ItemSize {
                at: 1884,
                tag: 0x3c04,
            },
        ),
        (
            "batch of another count",
            1097,
            &[1],
            ItemSize {
                at: 1090,
                tag: 0x3b0b,
            },
        ),
        (
            "batch of items of another size",
            1101,
            &[8],
            ItemSize {
                at: 1090,
                tag: 0x3b0b,
            },
        ),
        (
            "name of no set",
            1013,
            &[0x77],
            BrokenReference {
                at: 994,
                tag: 0x3b03,
            },
        ),
        (
            "second name in a batch",
            1329,
            &[0x77],
            BrokenReference {
                at: 1286,
                tag: 0x1901,
            },
        ),
        (
            "set that is named, by another identifier",
            1141,
            &[0x77],
            BrokenReference {
                at: 1014,
                tag: 0x3b06,
            },
        ),
        (
            "an unknown tag behind a broken reference",
            1001,
            &[0x77, 0, 0, 0, 0, 0, 0, 0, 0, 0, 0, 0, 3, 0x12, 0x34],
            UnknownTag {
                at: 1014,
                tag: 0x1234,
            },
        ),
    ];
    for (name, place, bytes, fault) in cases {
        let mut out = metadata_of(&rt, &SMALL, Some(3));
        patch(&mut out, place, bytes);
        assert_eq!(rt; read_sets(rt.alloc(), &out), Err(fault), "{name}");
    }
}

/// The first bytes, so many or as many as there are.
fn front(out: &[u8; METADATA], count: usize) -> &[u8] {
    &out[..count.min(METADATA)]
}

#[test]
fn bytes_that_end_early_are_refused_where_their_last_item_begins(rt: HostRuntime) {
    let out = metadata_of(&rt, &SMALL, Some(3));
    let cases: [(usize, SetFault); 7] = [
        (0, NotPrimer),
        (927, NotPrimer),
        // All that the preface names is missing: content storage first.
        (
            1102,
            BrokenReference {
                at: 994,
                tag: 0x3b03,
            },
        ),
        (929, SetCut { at: 928, tag: 0 }),
        (1101, SetCut { at: 928, tag: 0 }),
        (3010, SetCut { at: 3004, tag: 0 }),
        (3164, SetCut { at: 3004, tag: 0 }),
    ];
    for (count, fault) in cases {
        assert_eq!(rt;
            read_sets(rt.alloc(), front(&out, count)),
            Err(fault),
            "{count} bytes"
        );
    }
}
