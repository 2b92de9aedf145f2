//! Rows worked out by hand from docs/formats/mxf.md, "Metadata": places are sums of the lengths of its tables. The metadata
//! stand in the file from 1000 on.

use crate::{first_other_duration, first_wrong, take_id};
use mxf_metadata::{METADATA, put_metadata};
use mxf_names::Ids;
use rec_bytes::{Config, read_config};
use std::process::Abort;

// 16 by 16, progressive, 25 a second, aspect 4 to 3, no take identifier.
const SMALL: [u8; 64] = [
    0x00, 0x10, 0x00, 0x10, 0x00, 0x03, 0x02, 0x01, 0x01, 0x01, 0x00, 0x01, 0xe0, 0x00, 0x02, 0x00,
    0x10, 0x00, 0x00, 0xfa, 0x00, 0x0f, 0x42, 0x40, 0x00, 0x08, 0x00, 0x00, 0x00, 0x00, 0x00, 0x00,
    0x00, 0x00, 0x00, 0x00, 0x00, 0x00, 0x00, 0x00, 0x00, 0x00, 0x00, 0x00, 0x00, 0x00, 0x00, 0x00,
    0x54, 0x45, 0x53, 0x54, 0x00, 0x00, 0x00, 0x00, 0x00, 0x00, 0x00, 0x00, 0x00, 0x00, 0x00, 0x00,
];

/// Metadata of three frames, with bytes at a place, those that fit.
fn metadata_with(rt: &impl Abort, place: usize, bytes: &[u8]) -> [u8; METADATA] {
    let cfg: Config = read_config(&SMALL).expect(rt, "a configuration");
    let mut out = [0; METADATA];
    put_metadata(&cfg, &Ids::new(&cfg), Some(3), &mut out);
    for (k, byte) in bytes.iter().enumerate() {
        if place < METADATA && k < METADATA - place {
            out[place + k] = *byte;
        }
    }
    out
}

// The sets stand at 928, 1102, 1246, 1358, 1450 (material package), 1594, 1694, 1794, 1889, 1989 (its picture sequence),
// 2089 (its clip), 2217 (file package), 2381, 2481, 2581, 2676, 2776 (its picture sequence), 2876 (its clip) and 3004.
#[test]
fn the_least_place_of_what_is_wrong_is_told(rt: HostRuntime) {
    let cases: [(&str, usize, &[u8], Option<u64>); 13] = [
        ("nothing", 0, &[], None),
        ("key of the primer", 13, &[6], Some(1000)),
        ("size of the primer's entries", 27, &[17], Some(1000)),
        ("tag that the primer lacks", 968, &[0x12, 0x34], Some(1928)),
        ("item of another size", 980, &[0x3b, 7], Some(1928)),
        ("item that passes its set's end", 1093, &[9], Some(1928)),
        ("name of no set", 1013, &[0x77], Some(1928)),
        ("second name in a batch", 1329, &[0x77], Some(2246)),
        ("no clip that is shown", 2103, &[0x14], Some(2989)),
        ("no clip that is stored", 2890, &[0x14], Some(3776)),
        ("clip of another package", 2177, &[0x77], Some(3089)),
        ("second file package", 1372, &[0x37], Some(3089)),
        ("no material package", 1464, &[0x23], None),
    ];
    for (name, place, bytes, wrong) in cases {
        let out = metadata_with(&rt, place, bytes);
        assert_eq!(rt; first_wrong(rt.alloc(), &out, 1000), Ok(wrong), "{name}");
    }
}

// The first set with a duration is the sequence at 1694. Durations end at 2161 in the clip that is shown, and at 3076 in the
// descriptor.
#[test]
fn the_first_other_duration_is_told(rt: HostRuntime) {
    let cases: [(&str, usize, &[u8], u64, Option<u64>); 5] = [
        ("none", 0, &[], 3, None),
        ("all", 0, &[], 4, Some(2694)),
        ("of the clip", 2160, &[9], 3, Some(3089)),
        ("of the descriptor", 3075, &[9], 3, Some(4004)),
        ("of the clip alone", 2159, &[1, 4], 260, Some(2694)),
    ];
    for (name, place, bytes, count, other) in cases {
        let out = metadata_with(&rt, place, bytes);
        assert_eq!(rt; first_other_duration(&out, 1000, count), other, "{name}");
    }
}

/// An identifier of zeros, but for its first and its last byte.
fn id_with(first: u8, last: u8) -> [u8; 16] {
    let mut id = [0; 16];
    id[0] = first;
    id[15] = last;
    id
}

// The material package's value begins at 1470; the second half of its identifier, which is made to end with 5, at 1510.
#[test]
fn the_take_is_told_by_the_first_material_package(rt: HostRuntime) {
    let cases: [(&str, usize, &[u8], [u8; 16]); 7] = [
        ("as it is", 0, &[], id_with(0, 5)),
        ("first byte of the half", 1510, &[7], id_with(7, 5)),
        ("byte before the half", 1509, &[7], id_with(0, 5)),
        ("no material package", 1464, &[0x23], [0; 16]),
        ("no identifier", 1490, &[0x12, 0x34], [0; 16]),
        ("identifier of 31 bytes", 1493, &[31], [0; 16]),
        (
            "an earlier material package without one",
            1116,
            &[0x36],
            [0; 16],
        ),
    ];
    for (name, place, bytes, id) in cases {
        let mut out = metadata_with(&rt, place, bytes);
        out[1525] = 5;
        assert_eq!(rt; take_id(&out), id, "{name}");
    }
}
