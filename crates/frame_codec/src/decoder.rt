//! The picture that a frame means.

ghost use Rattle.std.specs.Prelude.{◌≡◌, ◌≢◌, [], drop, get_or, IfErr, IfOk, OnOk};
ghost use Rattle.picture_plane.specs.Pictures.{Planes};
ghost use Rattle.picture_plane.specs.Sizes.{IsSize};
ghost use Rattle.picture_plane.specs.Slices.{FitsSize};
ghost use Rattle.slice_codec.specs.Views.{as_setup};
ghost use Rattle.slice_codec.specs.Faults.{Refuses as RefusesSlice};
ghost use Rattle.frame_syntax.specs.Headers.{size_of};
ghost use Rattle.frame_syntax.specs.Written.{slice_bytes};
ghost use Rattle.frame_codec.specs.Frames.{IsWhole, MeansFrame, number_of, setup_of};
ghost use Rattle.frame_codec.specs.Faults.{Refuses};
ghost use Rattle.frame_codec.specs.Readings.{IsRead};
ghost use Rattle.frame_codec.specs.inner.Decoding.{IsCodedPicture, IsReached};
ghost use Rattle.frame_codec.specs.declared.fault.DecodeFault.{DecodeFault};

use crate::fault::DecodeFault;
use crate::sample_source::{SampleReader, SampleSource};
use frame_syntax::{
    FrameParts, FrameSlices, LOADS_AT, PictureHead, read_frame, refusals_are_exact,
};
use picture_plane::{FrameSize, Picture, SliceName, picture_slice};
use slice_codec::{SliceFault, SliceSetup, scan_of};
use std::alloc::Global;

/// The picture that the bytes of a frame mean.
pub fn decode_frame(alloc: Global, bytes: &[u8]) -> Result<Picture, DecodeFault>
    ensures means { IfOk result (MeansFrame bytes.now) }
    ensures accepted { (picture : Planes) → MeansFrame bytes.now picture → IfErr result (λ fault. fault ≡ DecodeFault.Memory) }

    ensures refused { IfErr result (Refuses bytes.now) }
{
    read_picture(alloc, bytes)
}

/// The picture that the bytes of a frame mean, or the first rule that they break.
fn read_picture(alloc: Global, bytes: &[u8]) -> Result<Picture, DecodeFault>
    ensures means { IfOk result (MeansFrame bytes.now) }

    ensures refused { IfErr result (Refuses bytes.now) }
{
    let parts = match open_frame(bytes) {
        Ok(parts) => parts,
        Err(fault) => return Err(fault),
    };
    let mut source = SampleReader::new(&setup_of(&parts));
    picture_of(alloc, bytes, &parts, &mut source)
}

/// What stands in a frame that loads both matrices or none.
pub fn open_frame(bytes: &[u8]) -> Result<FrameParts, DecodeFault>
    ensures whole { IfOk result (IsWhole bytes.now) }
    ensures sized { IfOk result (λ parts. IsSize (size_of parts.head)) }

    ensures refused { IfErr result (Refuses bytes.now) }
{
    let parts = match read_frame(bytes) {
        Ok(parts) => parts,
        Err(fault) => return Err(DecodeFault::Frame(fault)),
    };
    if parts.head.load_luma != parts.head.load_chroma {
        return Err(DecodeFault::OneMatrix {
            at: LOADS_AT as u64,
        });
    }
    Ok(parts)
}

/// The picture that the bytes of a frame of these parts mean, of slices that a source reads.
pub fn picture_of<S: SampleSource>(
    alloc: Global,
    bytes: &[u8],
    parts: &FrameParts,
    source: &mut S,
) -> Result<Picture, DecodeFault>
    requires whole { IsWhole bytes.now parts.now }
    requires sized { IsSize (size_of parts.now.head) }
    requires setup { S.setup source.old ≡ setup_of parts.now.head }
    requires held { S.holds source.old bytes.now }
    ensures means { IfOk result (MeansFrame bytes.now) }

    ensures refused { IfErr result (Refuses bytes.now) }
{
    let head = &parts.head;
    let size = FrameSize::new(head.width, head.height, head.interlace);
    let mut picture = match Picture::of_size(alloc, size) {
        Ok(picture) => picture,
        Err(_) => return Err(DecodeFault::Memory),
    };
    decode_pictures(bytes, parts, source, &mut picture)?;
    Ok(picture)
}

/// Decodes the coded pictures of a frame into a picture of its size.
fn decode_pictures<S: SampleSource>(
    bytes: &[u8],
    parts: &FrameParts,
    source: &mut S,
    out: &mut Picture,
) -> Result<(), DecodeFault>
    requires whole { IsWhole bytes.now parts.now }
    requires size { out.old.size ≡ size_of parts.now.head }
    requires setup { S.setup source.old ≡ setup_of parts.now.head }
    requires held { S.holds source.old bytes.now }
    ensures means { OnOk result (MeansFrame bytes.now out.new) }

    ensures refused { IfErr result (Refuses bytes.now) }
{
    refusals_are_exact();
    let mut slices = parts.slices(bytes);
    decode_picture(bytes, parts, &parts.first, 0, &mut slices, source, out)?;
    if let Some(second) = &parts.second {
        decode_picture(bytes, parts, second, 1, &mut slices, source, out)?;
    }
    out.ranges();
    Ok(())
}

/// What a frame says of its slices.
pub fn setup_of(parts: &FrameParts) -> SliceSetup
    ensures { as_setup result ≡ setup_of parts.now.head }
{
    let luma = parts.head.luma;
    let chroma = parts.head.chroma;
    SliceSetup {
        scan: scan_of(parts.head.interlace),
        luma,
        chroma,
    }
}

/// Decodes the slices of the coded picture of this number, which are the next ones.
fn decode_picture<S: SampleSource>(
    bytes: &[u8],
    parts: &FrameParts,
    coded: &PictureHead,
    picture: u8,
    slices: &mut FrameSlices,
    source: &mut S,
    out: &mut Picture,
) -> Result<(), DecodeFault>
    requires whole { IsWhole bytes.now parts.now }
    requires coded { IsCodedPicture bytes.now parts.now picture coded.now }
    requires reached { IsReached bytes.now parts.now slices.old (S.setup source.old) out.old (number_of parts.now picture 0) }
    requires held { S.holds source.old bytes.now }
    ensures reached { OnOk result (IsReached bytes.now parts.now slices.new (S.setup source.new) out.new (number_of parts.now picture coded.now.slices)) }
    ensures held { S.holds source.new bytes.now }

    ensures refused { IfErr result (Refuses bytes.now) }
{
    let size = out.size();
    for n in 0..coded.slices {
        let name = picture_slice(size, coded.log2, picture, n);
        match decode_next(bytes, slices, name, source, out) {
            Ok(()) => {}
            Err(fault) => {
                return Err(DecodeFault::Slice {
                    index: slice_number(parts, picture, n),
                    fault,
                });
            }
        }
    }
    Ok(())
}

/// Decodes the next slice and puts it into a picture.
fn decode_next<S: SampleSource>(
    bytes: &[u8],
    slices: &mut FrameSlices,
    name: SliceName,
    source: &mut S,
    out: &mut Picture,
) -> Result<(), SliceFault>
    requires bytes { slices.old.bytes ≡ bytes.now }
    requires some { slices.old.left ≢ [] }
    requires fits { FitsSize out.old.size name }
    requires held { S.holds source.old bytes.now }
    ensures bytes { slices.new.bytes ≡ bytes.now }
    ensures left { slices.new.left ≡ drop 1 slices.old.left }
    ensures setup { S.setup source.new ≡ S.setup source.old }
    ensures held { S.holds source.new bytes.now }
    ensures read { OnOk result (IsRead (S.setup source.old) (slice_bytes bytes.now (get_or slices.old.left 0 (0, 0))) name out.old out.new) }

    ensures refused { IfErr result (RefusesSlice (S.setup source.old) name.count (slice_bytes bytes.now (get_or slices.old.left 0 (0, 0)))) }
{
    let (at, len) = match slices.next() {
        Some(span) => span,
        None => unreachable!(),
    };
    source.read_slice(bytes, at, len, name, out)
}

/// The number in its frame of the `n`-th slice of a coded picture.
fn slice_number(parts: &FrameParts, picture: u8, n: u32) -> u64
    ensures { result ≡ number_of parts.now picture n }
{
    if picture == 0 {
        u64::from(n)
    } else {
        u64::from(parts.first.slices) + u64::from(n)
    }
}
