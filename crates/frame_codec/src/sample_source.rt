//! Where the samples of slices come from.

ghost use Rattle.std.specs.Prelude.{◌≡◌, ◌≤◌, ◌+◌, ℕ, List, length, OnOk, IfErr};
ghost use Rattle.picture_plane.specs.Slices.{FitsSize};
ghost use Rattle.slice_codec.specs.Setups.{Setup};
ghost use Rattle.slice_codec.specs.Faults.{Refuses as RefusesSlice};
ghost use Rattle.frame_syntax.specs.Written.{slice_bytes};
ghost use Rattle.frame_codec.specs.Readings.{IsRead};

use picture_plane::{Picture, SliceName, SliceSamples, place_slice};
use prores_codes::Heads;
use slice_codec::{SliceDecoder, SliceFault, SliceSetup};

/// Reads the slices of a frame into a picture, one by one.
pub trait SampleSource {
    /// What the frame says of its slices.
    ghost setup: { Self → Setup };

    /// What it has read of slices already, it has read of these bytes.
    ghost holds: { Self → List ℕ → Type 0 };

    /// Reads the slice of so many bytes that stands at a place of the frame, and puts its samples into a picture.
    fn read_slice(
        &mut self,
        bytes: &[u8],
        at: usize,
        len: usize,
        name: SliceName,
        out: &mut Picture,
    ) -> Result<(), SliceFault>
        requires held { holds self.old bytes.now }
        requires within { at + len ≤ length bytes.now }
        requires fits { FitsSize out.old.size name }
        ensures read { OnOk result (IsRead (setup self.old) (slice_bytes bytes.now (at, len)) name out.old out.new) }

        ensures refused { IfErr result (RefusesSlice (setup self.old) name.count (slice_bytes bytes.now (at, len))) }
        ensures kept { setup self.new ≡ setup self.old }
        ensures held { holds self.new bytes.now };
}

/// Decodes each slice when it is asked for. It holds what that takes, and no slice.
#[derive(Drop)]
pub struct SampleReader {
    /// What the frame says of its slices, and room for the numbers of a slice.
    pub decoder: SliceDecoder,
    tables: Heads,
    samples: SliceSamples,
}

impl SampleReader {
    /// A reader of slices of this setup.
    pub fn new(setup: &SliceSetup) -> SampleReader
        ensures { result.decoder.setup ≡ setup.now }
    {
        SampleReader {
            decoder: SliceDecoder::new(setup),
            tables: Heads::new(),
            samples: SliceSamples::new(),
        }
    }
}

impl SampleSource for SampleReader {
    ghost use Rattle.slice_codec.specs.Views.{as_setup};

    ghost setup = { λ r. as_setup r.decoder.setup };

    ghost holds = { λ r bytes. Unit {0} };

    fn read_slice(
        &mut self,
        bytes: &[u8],
        at: usize,
        len: usize,
        name: SliceName,
        out: &mut Picture,
    ) -> Result<(), SliceFault> {
        self.decoder.decode(
            &self.tables,
            &bytes[at..at + len],
            name.count,
            &mut self.samples,
        )?;
        place_slice(out, name, &self.samples);
        Ok(())
    }
}
