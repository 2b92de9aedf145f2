use crate::{
    Config, Memory, put_bytes, put_config, put_u8, put_u16, put_u32, put_u64, read_config, take_u8,
    take_u16, take_u32, take_u64,
};
use std::alloc::Global;

// docs/FORMATS.md, "Configuration": the example, written by hand.
const SMALL: [u8; 64] = [
    0x00, 0x10, 0x00, 0x10, 0x00, 0x03, 0x01, 0x01, 0x01, 0x01, 0x00, 0x01, 0xe0, 0x00, 0x00, 0x00,
    0x10, 0x00, 0x00, 0xfa, 0x00, 0x00, 0x00, 0x64, 0x00, 0x08, 0x00, 0x00, 0x00, 0x00, 0x00, 0x00,
    0x00, 0x00, 0x00, 0x00, 0x00, 0x00, 0x00, 0x00, 0x00, 0x00, 0x00, 0x00, 0x00, 0x00, 0x00, 0x00,
    0x50, 0x52, 0x54, 0x4b, 0x00, 0x00, 0x00, 0x00, 0x00, 0x00, 0x00, 0x00, 0x00, 0x00, 0x00, 0x00,
];

#[test]
fn the_example_is_written_and_read(rt: HostRuntime) {
    let cfg = Config {
        width: 16,
        height: 16,
        interlace: 0,
        rate: 3,
        aspect: 1,
        primaries: 1,
        transfer: 1,
        matrix: 1,
        log2: 0,
        qmin: 1,
        qmax: 224,
        weights: 0,
        coding: 0,
        drop: 0,
        budget: 4096,
        part: 250,
        max_frames: 100,
        lag: 8,
        start: 0,
        take_id: [0; 16],
        encoder: *b"PRTK",
    };
    cfg.ranges();
    let mut out = [0xff; 64];
    put_config(&cfg, &mut out);
    assert_eq!(rt; out, SMALL);
    assert_eq!(rt; read_config(&SMALL), Ok(cfg));
}

/// The example with other bytes from a place on.
fn changed(at: usize, by: &[u8]) -> [u8; 64] {
    let mut bytes = SMALL;
    for (place, byte) in bytes.iter_mut().skip(at).zip(by) {
        *place = *byte;
    }
    bytes
}

// A change of the example, and the place that is refused then.
#[test]
fn each_rule_is_tried_at_its_edges_and_in_order(rt: HostRuntime) {
    let cases: [(&str, usize, &[u8], Option<usize>); 74] = [
        ("width 0", 1, &[0], Some(0)),
        ("width 1", 1, &[1], Some(0)),
        ("width 2", 1, &[2], None),
        ("width 17", 1, &[17], Some(0)),
        ("width 4096", 0, &[0x10, 0], None),
        ("width 4097", 0, &[0x10, 1], Some(0)),
        ("width 4098", 0, &[0x10, 2], Some(0)),
        ("height 0", 3, &[0], Some(2)),
        ("height 1", 3, &[1], None),
        ("height 2304", 2, &[9, 0], None),
        ("height 2305", 2, &[9, 1], Some(2)),
        ("height 2306", 2, &[9, 2], Some(2)),
        ("interlace 1", 4, &[1], None),
        ("interlace 1, height 17", 3, &[17, 1], Some(2)),
        ("interlace 2", 4, &[2], None),
        ("interlace 3", 4, &[3], Some(4)),
        ("interlace 3, height 17", 3, &[17, 3], Some(2)),
        ("interlace 255, height 17", 3, &[17, 255], Some(2)),
        ("rate 0", 5, &[0], Some(5)),
        ("rate 1", 5, &[1], None),
        ("rate 8", 5, &[8], None),
        ("rate 9", 5, &[9], Some(5)),
        ("aspect 0", 6, &[0], None),
        ("aspect 15", 6, &[15], None),
        ("aspect 16", 6, &[16], Some(6)),
        ("colour codes 255", 7, &[255; 3], None),
        ("log2 3", 10, &[3], None),
        ("log2 4", 10, &[4], Some(10)),
        ("qmin 0", 11, &[0], Some(11)),
        ("qmin 224", 11, &[224], None),
        ("qmin 225, qmax 225", 11, &[225, 225], Some(11)),
        ("qmin 5, qmax 4", 11, &[5, 4], Some(12)),
        ("qmin 5, qmax 5", 11, &[5, 5], None),
        ("qmax 225", 12, &[225], Some(12)),
        ("weights 1", 13, &[1], None),
        ("weights 2", 13, &[2], Some(13)),
        ("coding 3", 14, &[3], None),
        ("coding 4", 14, &[4], Some(14)),
        ("drop 1", 15, &[1], None),
        ("drop 2", 15, &[2], Some(15)),
        ("budget 0", 16, &[0], Some(16)),
        ("budget 1", 16, &[0, 1], None),
        ("budget 4097", 17, &[1], Some(16)),
        ("part 0", 19, &[0], Some(18)),
        ("part 1", 19, &[1], None),
        ("part 2000", 18, &[0x07, 0xd0], None),
        ("part 2001", 18, &[0x07, 0xd1], Some(18)),
        ("max_frames 0", 23, &[0], Some(20)),
        ("max_frames 1", 23, &[1], None),
        ("max_frames 1000000", 21, &[0x0f, 0x42, 0x40], None),
        ("max_frames 1000001", 21, &[0x0f, 0x42, 0x41], Some(20)),
        ("max_frames 2^24", 20, &[1, 0, 0, 0], Some(20)),
        ("lag 0", 25, &[0], Some(24)),
        ("lag 1", 25, &[1], None),
        ("lag 1000", 24, &[0x03, 0xe8], None),
        ("lag 1001", 24, &[0x03, 0xe9], Some(24)),
        ("byte 26", 26, &[1], Some(26)),
        ("byte 27", 27, &[1], Some(26)),
        ("start 2^32 - 1", 28, &[255; 4], None),
        ("take id", 32, &[255; 16], None),
        ("encoder", 48, &[255; 4], None),
        ("byte 52", 52, &[1], Some(52)),
        ("byte 63", 63, &[1], Some(52)),
        ("width 0, height 0", 1, &[0, 0, 0], Some(0)),
        ("height 0, interlace 3", 3, &[0, 3], Some(2)),
        ("interlace 3, rate 0", 4, &[3, 0], Some(4)),
        ("aspect 16, log2 4", 6, &[16, 1, 1, 1, 4], Some(6)),
        ("qmin 0, qmax 225", 11, &[0, 225], Some(11)),
        ("coding 4, drop 2", 14, &[4, 2], Some(14)),
        ("budget 0, part 0", 16, &[0, 0, 0, 0], Some(16)),
        ("max_frames 0, lag 0", 23, &[0, 0, 0], Some(20)),
        ("lag 0, byte 26", 25, &[0, 1], Some(24)),
        ("byte 26, byte 52", 27, &[1; 26], Some(26)),
        ("rate 9 and all behind it", 5, &[9; 59], Some(5)),
    ];
    for (name, at, by, want) in cases {
        assert_eq!(rt; read_config(&changed(at, by)).err(), want, "{name}");
    }
}

#[test]
fn numbers_stand_at_their_places(rt: HostRuntime) {
    let bytes = [1, 2, 3, 4, 5, 6, 7, 8, 9];
    assert_eq!(rt; take_u8(&bytes, 8), Some(9));
    assert_eq!(rt; take_u8(&bytes, 9), None);
    assert_eq!(rt; take_u16(&bytes, 7), Some(0x0809));
    assert_eq!(rt; take_u16(&bytes, 8), None);
    assert_eq!(rt; take_u32(&bytes, 5), Some(0x0607_0809));
    assert_eq!(rt; take_u32(&bytes, 6), None);
    assert_eq!(rt; take_u64(&bytes, 1), Some(0x0203_0405_0607_0809));
    assert_eq!(rt; take_u64(&bytes, 2), None);
    assert_eq!(rt; take_u64(&bytes, usize::MAX), None);

    let mut out = [0xff; 20];
    put_u8(&mut out, 1, 1);
    put_u16(&mut out, 2, 0x0203);
    put_u32(&mut out, 4, 0x0405_0607);
    put_u64(&mut out, 8, 0x0809_0a0b_0c0d_0e0f);
    put_bytes(&mut out, 16, &[16, 17, 18]);
    assert_eq!(rt;
        out,
        [
            0xff, 1, 2, 3, 4, 5, 6, 7, 8, 9, 10, 11, 12, 13, 14, 15, 16, 17, 18, 0xff
        ]
    );
}

fn kept(alloc: Global, value: u8) -> Result<Vec<u8>, Memory> {
    let mut bytes = Vec::with_capacity(alloc, 1)?;
    bytes.push(value)?;
    Ok(bytes)
}

#[test]
fn a_good_allocation_is_no_want_of_memory(rt: HostRuntime) {
    assert_eq!(rt; kept(rt.alloc(), 7).map(|bytes| bytes[..] == [7]), Ok(true));
}
