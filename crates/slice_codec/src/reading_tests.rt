ghost use Rattle.std.specs.Prelude.{◌≤◌};

use crate::{SliceDecoder, SliceFault, SliceSetup, decode_slice};
use picture_plane::{Plane, SliceSamples};
use prores_codes::Heads;
use prores_scan::Scan;

// One macroblock of 512, of 4 and of 1019, and two of 512, as another program wrote them.
const GREY: [u8; 12] = [
    0x30, 0x01, 0x00, 0x02, 0x00, 0x02, 0x82, 0x30, 0x82, 0x00, 0x82, 0x00,
];

const DARK: [u8; 16] = [
    0x30, 0x01, 0x00, 0x04, 0x00, 0x03, 0x01, 0xfe, 0x18, 0xc0, 0x01, 0xfe, 0x18, 0x01, 0xfe, 0x18,
];

const LIGHT: [u8; 16] = [
    0x30, 0x01, 0x00, 0x04, 0x00, 0x03, 0x01, 0xfd, 0x28, 0xc0, 0x01, 0xfd, 0x28, 0x01, 0xfd, 0x28,
];

const TWO: [u8; 12] = [
    0x30, 0x01, 0x00, 0x02, 0x00, 0x02, 0x82, 0x3f, 0x82, 0x30, 0x82, 0x30,
];

/// A run of 252 in Y, which passes the last of 252 levels.
const PAST: [u8; 14] = [
    0x30, 0x01, 0x00, 0x04, 0x00, 0x02, 0x82, 0x30, 0x1f, 0xb0, 0x82, 0x00, 0x82, 0x00,
];
/// Cb of 32 zeros, and Cr without a byte.
const LONG: [u8; 12] = [
    0x30, 0x01, 0x00, 0x02, 0x00, 0x04, 0x82, 0x30, 0x00, 0x00, 0x00, 0x00,
];

const EMPTY: [u8; 10] = [0x30, 0x01, 0x00, 0x02, 0x00, 0x02, 0x82, 0x30, 0x82, 0x00];

/// A progressive setup of one weight.
fn setup(weight: u8) -> SliceSetup {
    SliceSetup {
        scan: Scan::Progressive,
        luma: [weight; 64],
        chroma: [weight; 64],
    }
}

/// The slice of 512 with another byte.
fn grey(at: usize, byte: u8) -> [u8; 12]
    requires { at ≤ 11 }
{
    let mut bytes = GREY;
    bytes[at] = byte;
    bytes
}

/// The value of all samples, if it is one.
fn value_of(samples: &SliceSamples, count: u8) -> Option<u16>
    requires { count ≤ 8 }
{
    let value = samples.block(Plane::Y, 0)[0];
    for plane in [Plane::Y, Plane::Cb, Plane::Cr] {
        for block in samples.blocks(plane, count) {
            if *block != [value; 64] {
                return None;
            }
        }
    }
    Some(value)
}

fn decoded(bytes: &[u8], weight: u8, count: u8) -> Result<Option<u16>, SliceFault>
    requires count { (1 ≤ count) × (count ≤ 8) }
{
    let mut samples = SliceSamples::new();
    decode_slice(bytes, &setup(weight), count, &mut samples)?;
    Ok(value_of(&samples, count))
}

#[test]
fn slices_are_read_and_others_refused(rt: HostRuntime) {
    let mut far = DARK;
    far[1] = 224;
    let cases: [(&[u8], u8, u8, Result<Option<u16>, SliceFault>); 19] = [
        (&GREY, 4, 1, Ok(Some(512))),
        (&DARK, 4, 1, Ok(Some(4))),
        (&LIGHT, 4, 1, Ok(Some(1019))),
        (&TWO, 4, 2, Ok(Some(512))),
        (&DARK, 0, 1, Ok(Some(512))),
        (&GREY[..5], 4, 1, Err(SliceFault::SliceShort { at: 5 })),
        (&grey(0, 0x28), 4, 1, Err(SliceFault::SliceHeader { at: 0 })),
        (&grey(0, 0x68), 4, 1, Err(SliceFault::SliceHeader { at: 0 })),
        (&grey(1, 0), 4, 1, Err(SliceFault::Index { at: 1 })),
        (&grey(1, 225), 4, 1, Err(SliceFault::Index { at: 1 })),
        (&grey(1, 224), 4, 1, Ok(Some(512))),
        (&grey(3, 7), 4, 1, Err(SliceFault::Parts { at: 2 })),
        (&grey(5, 5), 4, 1, Err(SliceFault::Parts { at: 2 })),
        (
            &grey(3, 0),
            4,
            1,
            Err(SliceFault::BitsEnd { part: 0, at: 0 }),
        ),
        (&PAST, 4, 1, Err(SliceFault::RunPast { part: 0, at: 12 })),
        (&LONG, 4, 1, Err(SliceFault::TooLong { part: 1, at: 0 })),
        (&EMPTY, 4, 1, Err(SliceFault::BitsEnd { part: 2, at: 0 })),
        (
            &far,
            4,
            1,
            Err(SliceFault::CoefficientRange { block: 0, place: 0 }),
        ),
        (&far, 1, 1, Ok(Some(4))),
    ];
    for (bytes, weight, count, want) in cases {
        assert_eq!(rt; decoded(bytes, weight, count), want);
    }
}

#[test]
fn one_decoder_reads_slice_after_slice(rt: HostRuntime) {
    let tables = Heads::new();
    let mut decoder = SliceDecoder::new(&setup(4));
    let mut samples = SliceSamples::new();
    assert!(rt; decoder.decode(&tables, &PAST, 1, &mut samples).is_err());
    assert_eq!(rt; decoder.decode(&tables, &DARK, 1, &mut samples), Ok(()));
    assert_eq!(rt; value_of(&samples, 1), Some(4));
    assert_eq!(rt; decoder.decode(&tables, &GREY, 1, &mut samples), Ok(()));
    assert_eq!(rt; value_of(&samples, 1), Some(512));
}
