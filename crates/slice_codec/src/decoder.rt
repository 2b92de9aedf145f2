//! Slices back into samples.

ghost use Rattle.std.specs.Prelude.{◌≡◌, ◌≢◌, ◌≤◌, ◌+◌, ◌*◌, ℕ, ℤ, List, length, take, IsOk, OnOk, IfErr};
ghost use Rattle.bit_io.specs.Bits.{bits_of};
ghost use Rattle.prores_scan.specs.Products.{AreBounded};
ghost use Rattle.prores_scan.specs.WeightsAndScales.{scale_of};
ghost use Rattle.slice_levels.specs.Coefficients.{AreSamples};
ghost use Rattle.slice_levels.specs.Products.{InRange, IsFirstAbove};
ghost use Rattle.slice_levels.specs.Rebuilt.{AreRebuilt};
ghost use Rattle.slice_parts.specs.Component.{IsComponent};
ghost use Rattle.picture_plane.specs.declared.planes.Plane.{Plane};
ghost use Rattle.picture_plane.specs.Blocks.{blocks_in, blocks_of};
ghost use Rattle.slice_codec.specs.Setups.{Setup, weights_of};
ghost use Rattle.slice_codec.specs.Views.{as_setup};
ghost use Rattle.slice_codec.specs.Slices.{HasHead, MeansPart, MeansSlice, index_of, part_bytes};
ghost use Rattle.slice_codec.specs.Faults.{Reaches, BreaksFirst, Refuses, number_of};

use crate::fault::SliceFault;
use crate::head::{check_head, part_of};
use crate::setup::SliceSetup;
use crate::short::decode_short;
use picture_plane::{Plane, SliceSamples};
use prores_codes::Heads;
use prores_scan::{CoefficientRange, Scan, scale};
use slice_levels::{Lanes, rebuild};
use slice_parts::{PartFault, read_part_with};

/// Reads slices of one setup: the room that this takes, about 40 thousand bytes, is made once.
#[derive(Drop)]
pub struct SliceDecoder {
    /// What the frame says of its slices.
    pub setup: SliceSetup,
    room: Room,
}

/// Room for the numbers of one part.
#[derive(Drop)]
pub struct Room {
    /// Levels of 16 bits.
    pub short: [i16; 2048],
    levels: [i64; 2048],
    products: [i32; 2048],
    pub lanes: Lanes,
    pub blocks: [[u16; 64]; 32],
}

impl SliceDecoder {
    /// A decoder of slices of this setup.
    pub fn new(setup: &SliceSetup) -> SliceDecoder
        ensures { result.setup ≡ setup.now }
    {
        SliceDecoder {
            setup: *setup,
            room: Room {
                short: [0; 2048],
                levels: [0; 2048],
                products: [0; 2048],
                lanes: Lanes::new(),
                blocks: [[0; 64]; 32],
            },
        }
    }

    /// Reads the samples of a slice of so many macroblocks, 1 to 8. `tables` are those of `prores_codes`, made once. After
    /// a refusal `out` holds any samples.
    pub fn decode(
        &mut self,
        tables: &Heads,
        bytes: &[u8],
        count: u8,
        out: &mut SliceSamples,
    ) -> Result<(), SliceFault>
        requires count { (1 ≤ count) × (count ≤ 8) }
        ensures setup { self.new.setup ≡ self.old.setup }
        ensures accepted { (samples : List (List ℕ)) → MeansSlice (as_setup self.old.setup) count bytes.now samples → IsOk result }
        ensures means { OnOk result (MeansSlice (as_setup self.old.setup) count bytes.now out.new) }

        ensures refused { IfErr result (Refuses (as_setup self.old.setup) count bytes.now) }
    {
        match decode_parts(tables, &self.setup, bytes, count, &mut self.room, out) {
            Ok(()) => Ok(()),
            Err(fault) => Err(fault),
        }
    }
}

/// Reads the samples of a slice of so many macroblocks, 1 to 8. It makes tables at each call: for many slices keep a
/// `SliceDecoder`. After a refusal `out` holds any samples.
pub fn decode_slice(
    bytes: &[u8],
    setup: &SliceSetup,
    count: u8,
    out: &mut SliceSamples,
) -> Result<(), SliceFault>
    requires count { (1 ≤ count) × (count ≤ 8) }
    ensures accepted { (samples : List (List ℕ)) → MeansSlice (as_setup setup.now) count bytes.now samples → IsOk result }
    ensures means { OnOk result (MeansSlice (as_setup setup.now) count bytes.now out.new) }

    ensures refused { IfErr result (Refuses (as_setup setup.now) count bytes.now) }
{
    let tables = Heads::new();
    let mut decoder = SliceDecoder::new(setup);
    decoder.decode(&tables, bytes, count, out)
}

/// Reads the header and then the parts.
fn decode_parts(
    tables: &Heads,
    setup: &SliceSetup,
    bytes: &[u8],
    count: u8,
    room: &mut Room,
    out: &mut SliceSamples,
) -> Result<(), SliceFault>
    requires count { (1 ≤ count) × (count ≤ 8) }
    ensures means { OnOk result (MeansSlice (as_setup setup.now) count bytes.now out.new) }

    ensures refused { IfErr result (Refuses (as_setup setup.now) count bytes.now) }
{
    check_head(bytes)?;
    decode_part(tables, setup, bytes, Plane::Y, count, room, out)?;
    decode_part(tables, setup, bytes, Plane::Cb, count, room, out)?;
    decode_part(tables, setup, bytes, Plane::Cr, count, room, out)?;
    Ok(())
}

/// Reads a part behind sound ones: in 16 bits where levels and products have no more.
fn decode_part(
    tables: &Heads,
    setup: &SliceSetup,
    bytes: &[u8],
    plane: Plane,
    count: u8,
    room: &mut Room,
    out: &mut SliceSamples,
) -> Result<(), SliceFault>
    requires count { (1 ≤ count) × (count ≤ 8) }
    requires reached { Reaches (as_setup setup.now) count bytes.now plane }
    ensures counted { OnOk result (length (blocks_in out.new plane count) ≡ blocks_of plane count) }
    ensures means { OnOk result (MeansPart (as_setup setup.now) (index_of bytes.now) plane (part_bytes bytes.now plane) (blocks_in out.new plane count)) }
    ensures others { (other : Plane) → other ≢ plane → blocks_in out.new other count ≡ blocks_in out.old other count }

    ensures refused { IfErr result (Refuses (as_setup setup.now) count bytes.now) }
{
    if decode_short(tables, setup, bytes, plane, count, room, out) {
        return Ok(());
    }
    decode_long(tables, setup, bytes, plane, count, room, out)
}

/// Reads a part behind sound ones, whatever its levels and products are, and names the first fault.
#[inline(never)]
fn decode_long(
    tables: &Heads,
    setup: &SliceSetup,
    bytes: &[u8],
    plane: Plane,
    count: u8,
    room: &mut Room,
    out: &mut SliceSamples,
) -> Result<(), SliceFault>
    requires count { (1 ≤ count) × (count ≤ 8) }
    requires reached { Reaches (as_setup setup.now) count bytes.now plane }
    ensures counted { OnOk result (length (blocks_in out.new plane count) ≡ blocks_of plane count) }
    ensures means { OnOk result (MeansPart (as_setup setup.now) (index_of bytes.now) plane (part_bytes bytes.now plane) (blocks_in out.new plane count)) }
    ensures others { (other : Plane) → other ≢ plane → blocks_in out.new other count ≡ blocks_in out.old other count }

    ensures refused { IfErr result (Refuses (as_setup setup.now) count bytes.now) }
{
    let blocks = block_count(plane, count);
    read_levels(tables, bytes, plane, count, &mut room.levels[..64 * blocks])?;
    match rebuild_blocks(
        &room.levels,
        blocks,
        setup.scan,
        weights_of(setup, plane),
        scale_at(bytes[1]),
        &mut room.products,
        &mut room.lanes,
        &mut room.blocks,
    ) {
        Ok(()) => {
            out.put_blocks(plane, count, &room.blocks[..blocks]);
            Ok(())
        }
        Err(fault) => Err(range_fault(fault)),
    }
}

/// Gives so many blocks back from their levels.
fn rebuild_blocks(
    levels: &[i64; 2048],
    blocks: usize,
    scan: Scan,
    weights: &[u8; 64],
    scale: u16,
    products: &mut [i32; 2048],
    lanes: &mut Lanes,
    out: &mut [[u16; 64]; 32],
) -> Result<(), CoefficientRange>
    requires blocks { blocks ≤ 32 }
    requires levels { AreBounded (take (64 * blocks) levels.now) }
    requires scale { scale ≤ 512 }
    ensures in_range { OnOk result (InRange scan weights.now scale blocks (take (64 * blocks) levels.now)) }
    ensures rebuilt { OnOk result (AreRebuilt scan weights.now scale (take (64 * blocks) levels.now) (take blocks out.new)) }
    ensures range { OnOk result (AreSamples (take blocks out.new)) }

    ensures refused { IfErr result (IsFirstAbove scan weights.now scale blocks (take (64 * blocks) levels.now)) }
{
    match rebuild(
        &levels[..64 * blocks],
        scan,
        weights,
        scale,
        &mut products[..64 * blocks],
        lanes,
        &mut out[..blocks],
    ) {
        Ok(()) => Ok(()),
        Err(fault) => Err(fault),
    }
}

/// Reads the levels of a part, whatever they were before.
fn read_levels(
    tables: &Heads,
    bytes: &[u8],
    plane: Plane,
    count: u8,
    levels: &mut [i64],
) -> Result<(), SliceFault>
    requires count { (1 ≤ count) × (count ≤ 8) }
    requires head { HasHead bytes.now }
    requires long { length levels.old ≡ 64 * blocks_of plane count }
    ensures coded { OnOk result (IsComponent (blocks_of plane count) (bits_of (part_bytes bytes.now plane)) levels.new) }
    ensures bounded { OnOk result (AreBounded levels.new) }

    ensures refused { (setup : Setup) → Reaches setup count bytes.now plane → IfErr result (Refuses setup count bytes.now) }
{
    levels.fill(0);
    match read_part_with(
        tables,
        part_of(bytes, plane),
        block_count(plane, count),
        levels,
    ) {
        Ok(()) => Ok(()),
        Err(fault) => Err(part_fault(plane, fault)),
    }
}

/// A part's fault as the slice's.
fn part_fault(plane: Plane, fault: PartFault) -> SliceFault
    ensures { (setup : Setup) (count : ℕ) (bytes : List ℕ) → BreaksFirst setup count bytes (number_of plane) fault → Refuses setup count bytes result }
{
    let part = match plane {
        Plane::Y => 0,
        Plane::Cb => 1,
        Plane::Cr => 2,
    };
    match fault {
        PartFault::BitsEnd { at } => SliceFault::BitsEnd { part, at },
        PartFault::TooLong { at } => SliceFault::TooLong { part, at },
        PartFault::RunPast { at } => SliceFault::RunPast { part, at },
    }
}

/// A product out of range as the slice's fault.
fn range_fault(fault: CoefficientRange) -> SliceFault
    ensures { result ≡ SliceFault.CoefficientRange fault.block fault.place }
{
    SliceFault::CoefficientRange {
        block: fault.block,
        place: fault.place,
    }
}

/// The weights of a plane.
pub fn weights_of(setup: &SliceSetup, plane: Plane) -> &[u8; 64]
    ensures { result.now ≡ weights_of (as_setup setup.now) plane }
{
    match plane {
        Plane::Y => &setup.luma,
        Plane::Cb => &setup.chroma,
        Plane::Cr => &setup.chroma,
    }
}

/// The scale of an index.
pub fn scale_at(index: u8) -> u16
    requires { (1 ≤ index) × (index ≤ 224) }
    ensures scale { result ≡ scale_of index }
    ensures small { result ≤ 512 }
{
    match scale(index) {
        Some(scale) => scale,
        None => 0,
    }
}

/// The blocks of a plane of so many macroblocks.
pub fn block_count(plane: Plane, count: u8) -> usize
    requires { (1 ≤ count) × (count ≤ 8) }
    ensures value { result ≡ blocks_of plane count }
    ensures some { 1 ≤ result }
    ensures most { result ≤ 32 }
{
    match plane {
        Plane::Y => 4 * usize::from(count),
        Plane::Cb => 2 * usize::from(count),
        Plane::Cr => 2 * usize::from(count),
    }
}
