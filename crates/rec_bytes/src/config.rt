ghost use Rattle.std.specs.Prelude.{◌≡◌, ◌<◌, ◌^◌, true, length};
ghost use Rattle.rec_bytes.specs.Configuration.{is_config};

/// The configuration of a take (own format: docs/FORMATS.md, "Configuration"). Its type keeps the ranges
/// of its fields, by `is_config`.
#[derive(Clone, Copy, Debug, PartialEq, Eq)]
pub struct Config {
    /// horizontal_size: samples of a luma row, even.
    pub width: u16,
    /// vertical_size: rows of luma, even where `interlace` isn't 0.
    pub height: u16,
    /// interlace_mode: 0 progressive, 1 top field first, 2 bottom field first.
    pub interlace: u8,
    /// frame_rate_code.
    pub rate: u8,
    /// aspect_ratio_information.
    pub aspect: u8,
    /// color_primaries.
    pub primaries: u8,
    /// transfer_characteristic.
    pub transfer: u8,
    /// matrix_coefficients.
    pub matrix: u8,
    /// log2_desired_slice_size_in_mb.
    pub log2: u8,
    /// Least quantisation index that a slice may get.
    pub qmin: u8,
    /// Greatest quantisation index that a slice may get, at least `qmin`.
    pub qmax: u8,
    /// Quantisation matrices: 0 none loaded, 1 both loaded.
    pub weights: u8,
    /// Which picture essence coding label the take names, 0 to 3.
    pub coding: u8,
    /// Drop frame flag of the timecode, 0 or 1.
    pub drop: u8,
    /// Bytes that a slice may take for each of its macroblocks.
    pub budget: u16,
    /// Frames per body partition.
    pub part: u16,
    /// Most frames of the take.
    pub max_frames: u32,
    /// Most frames that are published and not yet durable.
    pub lag: u16,
    /// First timecode, as a frame count.
    pub start: u32,
    /// Identifier of the take.
    pub take_id: [u8; 16],
    /// encoder_identifier.
    pub encoder: [u8; 4],
    ghost in_range: { is_config (record {
      width = width;
      height = height;
      interlace = interlace;
      rate = rate;
      aspect = aspect;
      primaries = primaries;
      transfer = transfer;
      matrix = matrix;
      log2 = log2;
      qmin = qmin;
      qmax = qmax;
      weights = weights;
      coding = coding;
      drop = drop;
      budget = budget;
      part = part;
      max_frames = max_frames;
      lag = lag;
      start = start;
      take_id = take_id;
      encoder = encoder;
    }) ≡ true },
}

impl Config {
    ghost use Rattle.rec_bytes.specs.Ranges.{IsInRange};
    ghost use Rattle.rec_bytes.specs.Views.{view};

    /// Shows the ranges that the type keeps, one by one. It does nothing when it runs.
    pub fn ranges(&self)
        ensures { IsInRange (view self.now) }
    {
        sizes(self.start, &self.take_id, &self.encoder);
    }
}

/// Shows the sizes that the fields' types keep. It does nothing when it runs.
fn sizes(start: u32, take_id: &[u8; 16], encoder: &[u8; 4])
    ensures start { start < 2 ^ 32 }
    ensures take_id { length take_id.now ≡ 16 }
    ensures encoder { length encoder.now ≡ 4 }
{}
