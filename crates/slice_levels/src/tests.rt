//! Blocks of one value, whose one level was worked out by hand, and levels that are refused.

use crate::{Lanes, Weighing, put_half_steps, rebuild, rebuild_short};
use prores_scan::{CoefficientRange, Reciprocal, Scan, levels_at, weights};

// Samples 4, 512, 1019, 1023 by blocks: 64 * 5793^2 * (sample - 512) over 2^25 * 4, the sign as the last bit.
const FLAT: [[u16; 64]; 4] = [[4; 64], [512; 64], [1019; 64], [1023; 64]];

#[test]
fn blocks_of_one_value_have_one_level(rt: HostRuntime) {
    let weighing = Weighing::new(Scan::Progressive, &weights(0, false));
    let mut half_steps = [7u16; 256];
    put_half_steps(&FLAT, &weighing, &mut Lanes::new(), &mut half_steps);
    let mut want = [0u16; 256];
    want[0] = 2 * 8129 + 1;
    want[2] = 2 * 8113;
    want[3] = 2 * 8177;
    assert_eq!(rt; half_steps, want);
    // -4065, 0, 4057, 4089
    let mut levels = [7u16; 256];
    levels_at(&half_steps, Reciprocal::new(2), &mut levels);
    want[0] = 2 * 4065 + 1;
    want[2] = 2 * 4057;
    want[3] = 2 * 4089;
    assert_eq!(rt; levels, want);
}

#[test]
fn one_level_gives_a_block_of_one_value(rt: HostRuntime) {
    let mut levels = [0i64; 256];
    levels[0] = -4065;
    levels[2] = 4057;
    levels[3] = 4089;
    let mut out = [[7u16; 64]; 4];
    let found = rebuild(
        &levels,
        Scan::Progressive,
        &[4; 64],
        1,
        &mut [7; 256],
        &mut Lanes::new(),
        &mut out,
    );
    assert_eq!(rt; found, Ok(()));
    assert_eq!(rt; out, [[4; 64], [512; 64], [1019; 64], [1019; 64]]);
}

#[test]
fn levels_of_16_bits_give_the_same_blocks(rt: HostRuntime) {
    let mut levels = [0i16; 640];
    levels[0] = -4065;
    levels[2] = 4057;
    levels[9] = 4089;
    let scan = Scan::Progressive;
    let mut lanes = Lanes::new();
    let mut out = [[7u16; 64]; 10];
    assert!(rt; rebuild_short(&levels, scan, &[4; 64], 1, &mut lanes, &mut out));
    let mut want = [[512u16; 64]; 10];
    want[0] = [4; 64];
    want[2] = [1019; 64];
    want[9] = [1019; 64];
    assert_eq!(rt; out, want);
    // 2^15 as a product, of the first eight blocks and of the last two
    levels[9] = 8192;
    assert!(rt; !rebuild_short(&levels, scan, &[4; 64], 1, &mut lanes, &mut out));
    levels[9] = 0;
    levels[7] = 8192;
    assert!(rt; !rebuild_short(&levels, scan, &[4; 64], 1, &mut lanes, &mut out));
}

#[test]
fn the_field_scan_goes_down_first(rt: HostRuntime) {
    let mut levels = [0i64; 64];
    levels[1] = 256;
    let mut out = [[7u16; 64]; 1];
    let found = rebuild(
        &levels,
        Scan::Field,
        &[4; 64],
        1,
        &mut [7; 64],
        &mut Lanes::new(),
        &mut out,
    );
    assert_eq!(rt; found, Ok(()));
    // 512 + 8035, 6811, 4551, 1598, .. times 5793 * 1024 over 2^30, rounded
    let rows = [556, 550, 537, 521, 503, 487, 474, 468];
    for y in 0..8 {
        assert_eq!(rt;
            (out[0][8 * y], out[0][8 * y + 7]),
            (rows[y], rows[y]),
            "row {y}"
        );
    }
}

#[test]
fn the_first_product_above_the_range_is_named_by_blocks(rt: HostRuntime) {
    let mut levels = [0i64; 128];
    // block 1 at place 1, block 0 at place 62
    levels[3] = 1 << 21;
    levels[124] = -(1 << 21);
    let mut out = [[7u16; 64]; 2];
    let mut lanes = Lanes::new();
    let found = rebuild(
        &levels,
        Scan::Progressive,
        &[4; 64],
        1,
        &mut [7; 128],
        &mut lanes,
        &mut out,
    );
    assert_eq!(rt;
        found,
        Err(CoefficientRange {
            block: 0,
            place: 62
        })
    );
    // the greatest that is allowed, in more than 16 bits
    let mut levels = [0i64; 128];
    levels[0] = 1 << 20;
    let found = rebuild(
        &levels,
        Scan::Progressive,
        &[4; 64],
        1,
        &mut [7; 128],
        &mut lanes,
        &mut out,
    );
    assert_eq!(rt; found, Ok(()));
    assert_eq!(rt; out, [[1019; 64], [512; 64]]);
}
