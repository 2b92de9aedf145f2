//! Blocks whose sums were worked out by a script that adds up the definition.

use super::*;
use std::test::Fail;

// All 512 but 1023 at row 2 and column 5: 511 times both basis numbers.
const IMPULSE_SUMS: [i64; 64] = [
    17148571839,
    -13471974873,
    -9280299105,
    23785391805,
    -17148571839,
    -4730436354,
    22402967664,
    -20162078853,
    13471974873,
    -10583628111,
    -7290633735,
    18685882635,
    -13471974873,
    -3716246478,
    17599845648,
    -15839395971,
    -9280299105,
    7290633735,
    5022222975,
    -12871949475,
    9280299105,
    2559972030,
    -12123822480,
    10911119835,
    -23785391805,
    18685882635,
    12871949475,
    -32990785975,
    23785391805,
    6561204230,
    -31073337680,
    27965182735,
    -17148571839,
    13471974873,
    9280299105,
    -23785391805,
    17148571839,
    4730436354,
    -22402967664,
    20162078853,
    4730436354,
    -3716246478,
    -2559972030,
    6561204230,
    -4730436354,
    -1304891644,
    6179862304,
    -5561712758,
    22402967664,
    -17599845648,
    -12123822480,
    31073337680,
    -22402967664,
    -6179862304,
    29267332864,
    -26339826128,
    20162078853,
    -15839395971,
    -10911119835,
    27965182735,
    -20162078853,
    -5561712758,
    26339826128,
    -23705147431,
];

// 1023 where row and column have an even sum, else 0.
const CHECKERBOARD: [u16; 64] = [
    1023, 0, 1023, 0, 1023, 0, 1023, 0, 0, 1023, 0, 1023, 0, 1023, 0, 1023, 1023, 0, 1023, 0, 1023,
    0, 1023, 0, 0, 1023, 0, 1023, 0, 1023, 0, 1023, 1023, 0, 1023, 0, 1023, 0, 1023, 0, 0, 1023, 0,
    1023, 0, 1023, 0, 1023, 1023, 0, 1023, 0, 1023, 0, 1023, 0, 0, 1023, 0, 1023, 0, 1023, 0, 1023,
];

// Its sums.
const CHECKERBOARD_SUMS: [i64; 64] = [
    -1073883168,
    0,
    0,
    0,
    0,
    0,
    0,
    0,
    0,
    35697235134,
    0,
    42089749350,
    0,
    63010704966,
    0,
    179426251290,
    0,
    0,
    0,
    0,
    0,
    0,
    0,
    0,
    0,
    42089749350,
    0,
    49627008750,
    0,
    74294403150,
    0,
    211557167250,
    0,
    0,
    0,
    0,
    0,
    0,
    0,
    0,
    0,
    63010704966,
    0,
    74294403150,
    0,
    111222869934,
    0,
    316712892210,
    0,
    0,
    0,
    0,
    0,
    0,
    0,
    0,
    0,
    179426251290,
    0,
    211557167250,
    0,
    316712892210,
    0,
    901856391150,
];

// The sums of columns x and 7 - x differ by -6384, -8030, -7406 and 3426 for x from 0 to 3.
const STEEP: [u16; 64] = [
    113, 11, 50, 727, 298, 975, 1014, 911, 113, 10, 49, 726, 298, 975, 1014, 911, 113, 10, 49, 726,
    298, 975, 1014, 911, 113, 10, 49, 726, 298, 975, 1014, 911, 113, 10, 49, 726, 298, 975, 1014,
    911, 113, 10, 49, 726, 298, 975, 1014, 911, 113, 10, 49, 726, 298, 975, 1014, 911, 113, 10, 49,
    726, 297, 974, 1013, 911,
];

// The samples of one product of 3000 at row 1 and column 2.
const WAVE_SAMPLES: [u16; 64] = [
    682, 582, 442, 342, 342, 442, 582, 682, 656, 572, 452, 368, 368, 452, 572, 656, 608, 552, 472,
    416, 416, 472, 552, 608, 546, 526, 498, 478, 478, 498, 526, 546, 478, 498, 526, 546, 546, 526,
    498, 478, 416, 472, 552, 608, 608, 552, 472, 416, 368, 452, 572, 656, 656, 572, 452, 368, 342,
    442, 582, 682, 682, 582, 442, 342,
];

// The samples of 5000 at row 0 and column 0, 2222 at row 3 and column 6, and -9000 at row 7 and column 7.
const MIXED_SAMPLES: [u16; 64] = [
    691, 623, 684, 732, 516, 866, 501, 734, 719, 520, 903, 372, 985, 383, 867, 597, 525, 1019, 154,
    1019, 262, 931, 534, 707, 746, 433, 1019, 157, 1019, 138, 1019, 531, 590, 903, 281, 1019, 98,
    1019, 290, 805, 812, 283, 1019, 157, 1019, 405, 802, 629, 618, 817, 433, 964, 351, 953, 470,
    740, 645, 714, 653, 605, 820, 470, 836, 603,
];

// The samples where every product is -32768.
const DEEP_SAMPLES: [u16; 64] = [
    4, 1019, 4, 1019, 4, 1019, 4, 4, 1019, 4, 1019, 4, 1019, 335, 1019, 978, 4, 1019, 4, 1019, 4,
    653, 4, 142, 1019, 4, 1019, 181, 1019, 463, 808, 642, 4, 1019, 4, 1019, 4, 588, 58, 312, 1019,
    335, 653, 463, 588, 505, 556, 531, 4, 1019, 4, 808, 58, 556, 248, 396, 4, 978, 142, 642, 312,
    531, 396, 461,
];

// The samples where every product is 32768.
const HIGH_SAMPLES: [u16; 64] = [
    1019, 4, 1019, 4, 1019, 4, 1019, 1019, 4, 1019, 4, 1019, 4, 689, 4, 46, 1019, 4, 1019, 4, 1019,
    371, 1019, 882, 4, 1019, 4, 843, 4, 561, 216, 382, 1019, 4, 1019, 4, 1019, 436, 966, 712, 4,
    689, 371, 561, 436, 519, 468, 493, 1019, 4, 1019, 216, 966, 468, 776, 628, 1019, 46, 882, 382,
    712, 493, 628, 563,
];

/// A block of samples that has its requirement tested.
fn sums_of(block: &[u16; 64]) -> Option<[i64; 64]> {
    if block.iter().all(|sample| *sample < 1024) {
        let mut out = [0i64; 64];
        forward(block, &mut out);
        Some(out)
    } else {
        None
    }
}

/// A block of products that has its requirement tested.
fn samples_of(products: &[i32; 64]) -> Option<[u16; 64]> {
    if products
        .iter()
        .all(|product| product.unsigned_abs() <= 1 << 22)
    {
        let mut out = [0u16; 64];
        inverse(products, &mut out);
        Some(out)
    } else {
        None
    }
}

/// Sizes and signs of eight blocks that have their requirement tested.
fn sizes_and_signs_of(blocks: &[[u16; 64]; 8]) -> Option<([u16; 512], [u16; 512])> {
    let mut samples = [0u16; 512];
    for place in 0..64 {
        for lane in 0..8 {
            samples[8 * place + lane] = blocks[lane][place];
        }
    }
    if samples.iter().all(|sample| *sample < 1024) {
        let mut rows = [0i32; 512];
        let (mut sizes, mut negative) = ([0u16; 512], [0u16; 512]);
        forward_lanes(&samples, &mut rows, &mut sizes, &mut negative);
        Some((sizes, negative))
    } else {
        None
    }
}

/// The value at row 0 and column 0, and zeros.
fn first_only(value: i64) -> [i64; 64] {
    let mut sums = [0i64; 64];
    sums[0] = value;
    sums
}

/// Such a block of products.
fn first_product(value: i32) -> [i32; 64] {
    let mut products = [0i32; 64];
    products[0] = value;
    products
}

#[test]
fn blocks_have_the_sums_of_the_definition(rt: HostRuntime) -> Result<(), Fail> {
    let mut impulse = [512u16; 64];
    impulse[21] = 1023;
    let cases: [(&str, [u16; 64], [i64; 64]); 5] = [
        ("flat 0", [0; 64], first_only(-1_099_656_364_032)),
        (
            "flat 4, level -4065 at weight 4",
            [4; 64],
            first_only(-1_091_065_298_688),
        ),
        (
            "flat 1019, level 4057 at weight 4",
            [1019; 64],
            first_only(1_088_917_532_352),
        ),
        ("impulse", impulse, IMPULSE_SUMS),
        ("checkerboard", CHECKERBOARD, CHECKERBOARD_SUMS),
    ];
    for (name, block, sums) in cases {
        assert_eq!(rt; sums_of(&block), Some(sums), "{name}");
    }
    Ok(())
}

#[test]
fn blocks_side_by_side_have_their_sizes_and_signs(rt: HostRuntime) -> Result<(), Fail> {
    let mut impulse = [512u16; 64];
    impulse[21] = 1023;
    let flat = [512u16; 64];
    let blocks = [
        impulse,
        [0; 64],
        flat,
        STEEP,
        CHECKERBOARD,
        [1019; 64],
        flat,
        [4; 64],
    ];
    let sums = [
        IMPULSE_SUMS,
        first_only(-1_099_656_364_032),
        first_only(0),
        sums_of(&STEEP).ok_or("samples")?,
        CHECKERBOARD_SUMS,
        first_only(1_088_917_532_352),
        first_only(0),
        first_only(-1_091_065_298_688),
    ];
    let (sizes, negative) = sizes_and_signs_of(&blocks).ok_or("samples")?;
    for lane in 0..8 {
        for place in 0..64 {
            let sum = sums[lane][place];
            assert_eq!(rt;
                (
                    u64::from(sizes[8 * place + lane]),
                    negative[8 * place + lane]
                ),
                (sum.unsigned_abs() >> 25, u16::from(sum < 0)),
                "block {lane} at {place}"
            );
        }
    }
    Ok(())
}

#[test]
fn a_coefficient_that_decides_a_tie_is_exact(rt: HostRuntime) -> Result<(), Fail> {
    let sums = sums_of(&STEEP).ok_or("samples")?;
    assert_eq!(rt; sums[1], -777_523_298_304);
    let (sizes, negative) = sizes_and_signs_of(&[STEEP; 8]).ok_or("samples")?;
    assert_eq!(rt; (sizes[13], negative[13]), (23_172, 1));
    Ok(())
}

#[test]
fn products_have_rounded_and_clamped_samples(rt: HostRuntime) -> Result<(), Fail> {
    let mut wave = [0i32; 64];
    wave[10] = 3000;
    let mut mixed = first_product(5000);
    mixed[30] = 2222;
    mixed[63] = -9000;
    let cases: [(&str, [i32; 64], [u16; 64]); 12] = [
        ("512 - 508", first_product(-16_260), [4; 64]),
        ("512 + 507", first_product(16_228), [1019; 64]),
        ("3 is brought to 4", first_product(-16_290), [4; 64]),
        ("least", first_product(-4_194_304), [4; 64]),
        ("greatest", first_product(4_194_304), [1019; 64]),
        ("-3.125 is rounded to -3", first_product(-100), [509; 64]),
        ("half of one is rounded up", first_product(16), [513; 64]),
        ("less than half below", first_product(-16), [511; 64]),
        ("a wave is not transposed", wave, WAVE_SAMPLES),
        ("mixed", mixed, MIXED_SAMPLES),
        ("all -2^15", [-32_768; 64], DEEP_SAMPLES),
        ("all 2^15", [32_768; 64], HIGH_SAMPLES),
    ];
    for (name, products, samples) in cases {
        assert_eq!(rt; samples_of(&products), Some(samples), "{name}");
    }
    Ok(())
}

#[test]
fn products_side_by_side_keep_apart(rt: HostRuntime) -> Result<(), Fail> {
    let mut products = [0i16; 512];
    products[8 * 10 + 2] = 3000;
    products[5] = 5000;
    products[8 * 30 + 5] = 2222;
    products[8 * 63 + 5] = -9000;
    for place in 0..64 {
        products[8 * place + 7] = -32_768;
    }
    let mut samples = [0i32; 512];
    inverse_lanes(&products, &mut samples);
    for place in 0..64 {
        assert_eq!(rt; samples[8 * place], 512, "an empty block at {place}");
        assert_eq!(rt;
            samples[8 * place + 2],
            i32::from(WAVE_SAMPLES[place]),
            "a wave at {place}"
        );
        assert_eq!(rt;
            samples[8 * place + 5],
            i32::from(MIXED_SAMPLES[place]),
            "mixed at {place}"
        );
        assert_eq!(rt;
            samples[8 * place + 7],
            i32::from(DEEP_SAMPLES[place]),
            "least products at {place}"
        );
    }
    Ok(())
}
