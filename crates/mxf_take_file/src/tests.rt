//! Rows: lengths and single fields, worked out by hand from docs/FORMATS.md, "A take's file".

ghost use Rattle.std.specs.Prelude.{◌≡◌, ◌≤◌, ◌^◌, length};
ghost use Rattle.mxf_take_file.specs.inner.Kept.{AreSmall};

use crate::lead::{lead_len, put_lead};
use crate::picture_layout::PictureLayout;
use crate::tail::{put_tail, tail_len};
use crate::walk::look;
use mxf_names::PICTURE_ELEMENT_KEY;
use rec_bytes::{Config, read_config, take_u32, take_u64};
use std::alloc::{AllocError, Global};
use take_layout::{Place, TakeLayout, Walk};

/// The spelling of a configuration of 16 by 16 pictures, 24,000 in 1,001 seconds, with so many frames in a body partition
/// and the bytes 1 to 16 as the take's identifier.
pub fn spelling(part: u8) -> [u8; 64] {
    let mut bytes = [0u8; 64];
    let start = [
        0, 16, 0, 16, 0, 1, 3, 1, 1, 1, 3, 1, 16, 1, 2, 0, 0, 96, 0, part, 0, 0, 0, 200, 0, 8,
    ];
    bytes[..26].copy_from_slice(&start);
    bytes[32..48].copy_from_slice(&[1, 2, 3, 4, 5, 6, 7, 8, 9, 10, 11, 12, 13, 14, 15, 16]);
    bytes
}

pub fn lead_bytes(
    alloc: Global,
    cfg: &Config,
    places: &[Place],
    unit_len: u64,
) -> Result<Vec<u8>, AllocError>
    requires small { AreSmall places.now }
    requires unit { unit_len ≤ 2 ^ 28 }
{
    cfg.ranges();
    let mut out = vec![in alloc; 0u8; lead_len(cfg, places) as usize]?;
    put_lead(cfg, places, unit_len, &mut out);
    Ok(out)
}

pub fn head_bytes(alloc: Global, cfg: &Config) -> Result<Vec<u8>, AllocError> {
    cfg.ranges();
    let mut out = vec![in alloc; 0u8; PictureLayout::head_len(cfg) as usize]?;
    PictureLayout::put_head(cfg, &mut out);
    Ok(out)
}

pub fn tail_bytes(alloc: Global, cfg: &Config, places: &[Place]) -> Result<Vec<u8>, AllocError>
    requires small { AreSmall places.now }
{
    cfg.ranges();
    let mut out = vec![in alloc; 0u8; tail_len(cfg, places) as usize]?;
    put_tail(cfg, places, &mut out);
    Ok(out)
}

/// The first bytes, so many or as many as there are.
pub fn front(bytes: &[u8], count: usize) -> &[u8] {
    &bytes[..bytes.len().min(count)]
}

/// The bytes behind the first.
pub fn behind(bytes: &[u8], count: usize) -> &[u8] {
    &bytes[bytes.len().min(count)..]
}

#[test]
fn parts_have_the_lengths_and_places_of_the_example(rt: HostRuntime) {
    let alloc = rt.alloc();
    let cfg = read_config(&spelling(250)).expect(&rt, "a configuration");
    let pair = read_config(&spelling(2)).expect(&rt, "a configuration");
    cfg.ranges();
    pair.ranges();
    let three = [
        Place {
            at: 3437,
            stream: 0,
            len: 50,
        },
        Place {
            at: 3511,
            stream: 74,
            len: 50,
        },
        Place {
            at: 3585,
            stream: 148,
            len: 50,
        },
    ];
    assert_eq!(rt; PictureLayout::head_len(&cfg), 3289, "head");
    assert_eq!(rt;
        lead_len(&cfg, &[]),
        148,
        "first lead: pack, key and length"
    );
    assert_eq!(rt;
        lead_len(&cfg, &three[..1]),
        24,
        "second lead: key and length"
    );
    assert_eq!(rt;
        lead_len(&pair, &three[..2]),
        310,
        "third lead of two a partition: pack, segment, key and length"
    );
    assert_eq!(rt; tail_len(&cfg, &[]), 3337, "tail of no units");
    let first = lead_bytes(alloc, &cfg, &[], 50).expect(&rt, "memory");
    assert_eq!(rt;
        take_u64(&first, 28),
        Some(3289),
        "place of the first body pack"
    );
    let third = lead_bytes(alloc, &pair, &three[..2], 50).expect(&rt, "memory");
    assert_eq!(rt;
        take_u64(&third, 28),
        Some(3561),
        "place of the second body pack"
    );
    assert_eq!(rt;
        take_u64(&third, 36),
        Some(3289),
        "place of the pack before"
    );
    assert_eq!(rt; take_u64(&third, 60), Some(162), "index bytes");
    assert_eq!(rt;
        take_u64(&third, 72),
        Some(148),
        "body offset of two elements"
    );
    let tail = tail_bytes(alloc, &cfg, &three).expect(&rt, "memory");
    assert_eq!(rt;
        tail.len(),
        3522,
        "tail of three units: the file has 7,157 bytes"
    );
    assert_eq!(rt; take_u64(&tail, 28), Some(3635), "place of the footer");
    assert_eq!(rt;
        take_u32(&tail, 3518),
        Some(60),
        "length of the random index pack"
    );
}

#[test]
fn a_lead_is_found_and_junk_is_not(rt: HostRuntime) {
    let alloc = rt.alloc();
    let cfg = read_config(&spelling(250)).expect(&rt, "a configuration");
    let pair = read_config(&spelling(2)).expect(&rt, "a configuration");
    cfg.ranges();
    pair.ranges();
    let two = [
        Place {
            at: 3437,
            stream: 0,
            len: 50,
        },
        Place {
            at: 3511,
            stream: 74,
            len: 50,
        },
    ];
    let first = lead_bytes(alloc, &cfg, &[], 50).expect(&rt, "memory");
    let third = lead_bytes(alloc, &pair, &two, 50).expect(&rt, "memory");
    let most = lead_bytes(alloc, &cfg, &[], 1 << 28).expect(&rt, "memory");
    let mut more = [0u8; 24];
    more[..16].copy_from_slice(&PICTURE_ELEMENT_KEY);
    more[16] = 0x87;
    more[20] = 0x10;
    more[23] = 1;
    let found = Walk::Lead {
        unit_at: 3437,
        unit_len: 50,
    };
    let behind_segment = Walk::Lead {
        unit_at: 3871,
        unit_len: 50,
    };
    let greatest = Walk::Lead {
        unit_at: 3437,
        unit_len: 1 << 28,
    };
    let cases: [(u16, &[u8], u64, Walk, &str); 12] = [
        (250, &first, 3289, found, "pack and element"),
        (250, behind(&first, 124), 3413, found, "element alone"),
        (
            250,
            front(&first, 23),
            3289,
            Walk::More { need: 24 },
            "less than any lead",
        ),
        (
            250,
            front(&first, 24),
            3289,
            Walk::More { need: 148 },
            "a part of the pack",
        ),
        (
            250,
            front(&first, 147),
            3289,
            Walk::More { need: 148 },
            "less than pack and element",
        ),
        (2, &third, 3561, behind_segment, "pack, segment and element"),
        (
            2,
            front(&third, 148),
            3561,
            Walk::More { need: 310 },
            "a part of the segment",
        ),
        (
            2,
            front(&third, 309),
            3561,
            Walk::More { need: 310 },
            "less than pack, segment and element",
        ),
        (250, &most, 3289, greatest, "the longest unit"),
        (
            250,
            &more,
            3413,
            Walk::Broken { at: 3430 },
            "a unit that is too long",
        ),
        (250, &[0; 24], 7, Walk::Broken { at: 7 }, "zeros"),
        (
            250,
            &third,
            3561,
            Walk::More { need: 3038 },
            "the segment of another configuration",
        ),
    ];
    for (part, bytes, from, walk, what) in cases {
        assert_eq!(rt; look(part, bytes, from), walk, "{what}");
    }
}
