ghost use Rattle.std.specs.Prelude.{◌<◌, ◌≤◌};

use crate::encode_slice;
use picture_plane::{Plane, SliceSamples};
use rec_bytes::{Config, read_config};
use std::process::Abort;

// docs/FORMATS.md, "Configuration": the example, whose indices are 1 to 224 and whose weights are 4.
const SMALL: [u8; 64] = [
    0x00, 0x10, 0x00, 0x10, 0x00, 0x03, 0x01, 0x01, 0x01, 0x01, 0x00, 0x01, 0xe0, 0x00, 0x00, 0x00,
    0x10, 0x00, 0x00, 0xfa, 0x00, 0x00, 0x00, 0x64, 0x00, 0x08, 0x00, 0x00, 0x00, 0x00, 0x00, 0x00,
    0x00, 0x00, 0x00, 0x00, 0x00, 0x00, 0x00, 0x00, 0x00, 0x00, 0x00, 0x00, 0x00, 0x00, 0x00, 0x00,
    0x50, 0x52, 0x54, 0x4b, 0x00, 0x00, 0x00, 0x00, 0x00, 0x00, 0x00, 0x00, 0x00, 0x00, 0x00, 0x00,
];

/// The example with another budget.
fn config<R: Abort>(rt: &R, budget: u16) -> Config {
    let mut bytes = SMALL;
    let b = budget.to_be_bytes();
    bytes[16] = b[0];
    bytes[17] = b[1];
    read_config(&bytes).expect(rt, "a configuration")
}

/// Samples that are all alike.
fn flat(value: u16) -> SliceSamples
    requires { value < 1024 }
{
    let mut samples = SliceSamples::new();
    let block = [value; 64];
    for b in 0..32 {
        samples.set_block(Plane::Y, b, &block);
    }
    for b in 0..16 {
        samples.set_block(Plane::Cb, b, &block);
        samples.set_block(Plane::Cr, b, &block);
    }
    samples
}

#[test]
fn flat_blocks_have_the_fewest_bytes(rt: HostRuntime) {
    let cfg = config(&rt, 4096);
    let mut out = [0u8; 8200];
    // by hand: SMPTE RDD 36, "Slices"
    let len = encode_slice(&cfg, &flat(512), 1, &mut out);
    assert_eq!(rt;
        &out[..len],
        [0x30, 0x01, 0, 2, 0, 2, 0x82, 0x30, 0x82, 0x00, 0x82, 0x00].as_slice()
    );
    let len = encode_slice(&cfg, &flat(512), 2, &mut out);
    assert_eq!(rt;
        &out[..len],
        [0x30, 0x01, 0, 2, 0, 2, 0x82, 0x3f, 0x82, 0x30, 0x82, 0x30].as_slice()
    );
    let len = encode_slice(&cfg, &flat(4), 1, &mut out);
    let want = [
        0x30, 0x01, 0, 4, 0, 3, 0x01, 0xfe, 0x18, 0xc0, 0x01, 0xfe, 0x18, 0x01, 0xfe, 0x18,
    ];
    assert_eq!(rt; &out[..len], want.as_slice());
}

#[test]
fn the_least_index_that_fits_is_taken(rt: HostRuntime) {
    // budget, index, bytes: by hand
    let rows = [(16, 1, 16), (15, 2, 15), (12, 37, 12), (11, 224, 12)];
    for (budget, index, bytes) in rows {
        let mut out = [0u8; 4104];
        let len = encode_slice(&config(&rt, budget), &flat(4), 1, &mut out);
        assert_eq!(rt; (out[1], len), (index, bytes), "at {budget}");
    }
}
