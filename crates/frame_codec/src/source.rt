//! Where the slices of coded pictures come from.

ghost use Rattle.std.specs.Prelude.{◌≡◌, ◌<◌, ◌≤◌, ◌+◌, ℕ, List, length, take, drop};
ghost use Rattle.rec_bytes.specs.Configuration.{Fields};
ghost use Rattle.rec_bytes.specs.Ranges.{IsInRange};
ghost use Rattle.rec_bytes.specs.Views.{view};
ghost use Rattle.picture_plane.specs.Pictures.{Planes};
ghost use Rattle.picture_plane.specs.Sizes.{size_of};
ghost use Rattle.picture_plane.specs.Slices.{picture_count};
ghost use Rattle.frame_codec.specs.Sources.{IsNth, slice_room, slices_of};

use picture_plane::{Picture, SliceSamples, cut_slice, picture_slice};
use prores_codes::Pairs;
use rec_bytes::Config;
use slice_codec::SliceEncoder;

/// The most bytes that a slice may have.
pub const SLICE_MOST: usize = 32_776;

/// Writes the slices of coded pictures by one configuration, one by one.
pub trait SliceSource {
    /// The configuration.
    ghost config: { Self → Fields };

    /// What it has of slices already, it has of this picture.
    ghost holds: { Self → Planes → Type 0 };

    /// Writes the `n`-th slice of a coded picture at a place, and answers its bytes. Those behind it may have changed.
    fn put_slice(
        &mut self,
        picture: &Picture,
        number: u8,
        n: u32,
        out: &mut [u8],
        at: usize,
    ) -> usize
        requires size { picture.now.size ≡ size_of (config self.old) }
        requires held { holds self.old picture.now }
        requires number { number < picture_count (size_of (config self.old)) }
        requires within { n < slices_of (config self.old) }
        requires room { at + slice_room (config self.old) n ≤ length out.old }
        ensures coded { IsNth (config self.old) picture.now number n (take result (drop at out.new)) }
        ensures before { take at out.new ≡ take at out.old }
        ensures most { result ≤ slice_room (config self.old) n }

        ensures kept { config self.new ≡ config self.old }
        ensures held { holds self.new picture.now };
}

/// Encodes each slice when it is asked for. It holds what that takes, and no slice.
#[derive(Drop)]
pub struct SliceWriter {
    /// What the configuration says, and room for the numbers of a slice.
    pub coder: SliceEncoder,
    tables: Pairs,
    samples: SliceSamples,
}

impl SliceWriter {
    /// A writer of slices of a configuration.
    pub fn new(cfg: &Config) -> SliceWriter
        ensures { result.coder.coding.config ≡ cfg.now }
    {
        SliceWriter {
            coder: SliceEncoder::new(cfg),
            tables: Pairs::new(),
            samples: SliceSamples::new(),
        }
    }
}

impl SliceSource for SliceWriter {
    ghost use Rattle.rec_bytes.specs.Views.{view as fields_in};

    ghost config = { λ w. fields_in w.coder.coding.config };

    ghost holds = { λ w picture. Unit {0} };

    fn put_slice(
        &mut self,
        picture: &Picture,
        number: u8,
        n: u32,
        out: &mut [u8],
        at: usize,
    ) -> usize {
        self.coder.coding.config.ranges();
        let name = picture_slice(picture.size(), self.coder.coding.config.log2, number, n);
        cut_slice(picture, name, &mut self.samples);
        self.samples.ranges();
        self.coder
            .encode(&self.tables, &self.samples, name.count, &mut out[at..])
    }
}

/// No slice has more bytes than `SLICE_MOST`. It does nothing: its clause is the law.
pub fn slices_are_short()
    ensures { (fields : Fields) (n : ℕ) → IsInRange fields → n < slices_of fields → slice_room fields n ≤ SLICE_MOST }
{}
