//! A frame's size, and how many rows and macroblocks its coded pictures have.

ghost use Rattle.std.specs.Prelude.{◌≡◌, ◌≢◌, ◌≤◌, ◌%◌};
ghost use Rattle.rec_bytes.specs.Views.{view};
ghost use Rattle.rec_bytes.specs.declared.config_fields.TheConstants.{MAX_WIDTH, MAX_HEIGHT, MAX_INTERLACE};
ghost use Rattle.picture_plane.specs.Slices.{macroblocks, picture_count, line_count, row_count};

use rec_bytes::Config;

/// A frame's size, in the ranges of a configuration's fields.
#[derive(Clone, Copy, Debug, PartialEq, Eq)]
pub struct FrameSize {
    /// horizontal_size: samples of a luma row, even.
    pub width: u16,
    /// vertical_size: rows, even where `interlace` isn't 0.
    pub height: u16,
    /// interlace_mode: 0 progressive, 1 top field first, 2 bottom field first.
    pub interlace: u8,
    ghost some_columns: { 2 ≤ width },
    ghost most_columns: { width ≤ MAX_WIDTH },
    ghost even_columns: { width % 2 ≡ 0 },
    ghost some_rows: { 1 ≤ height },
    ghost most_rows: { height ≤ MAX_HEIGHT },
    ghost mode: { interlace ≤ MAX_INTERLACE },
    ghost even_rows: { interlace ≢ 0 → height % 2 ≡ 0 },
}

impl FrameSize {
    ghost use Rattle.picture_plane.specs.Sizes.{IsSize, size_of};
    ghost use Rattle.picture_plane.specs.Views.{as_size};

    /// The size that a configuration gives.
    pub fn of(cfg: &Config) -> FrameSize
        ensures { as_size result ≡ size_of (view cfg.now) }
    {
        cfg.ranges();
        FrameSize {
            width: cfg.width,
            height: cfg.height,
            interlace: cfg.interlace,
        }
    }

    /// The size of these numbers.
    pub fn new(width: u16, height: u16, interlace: u8) -> FrameSize
        requires { IsSize (record { width = width; height = height; interlace = interlace }) }
        ensures { as_size result ≡ record { width = width; height = height; interlace = interlace } }
    {
        FrameSize {
            width,
            height,
            interlace,
        }
    }

    /// Shows the ranges that the type keeps, one by one. It does nothing when it runs.
    pub fn ranges(self)
        ensures { IsSize (as_size self) }
    {}

    /// Coded pictures of a frame: one, or two fields.
    pub fn picture_count(self) -> u8
        ensures value { result ≡ picture_count (as_size self) }
        ensures some { 1 ≤ result }
        ensures most { result ≤ 2 }
    {
        if self.interlace == 0 { 1 } else { 2 }
    }

    /// Rows of samples of a coded picture.
    pub fn line_count(self) -> u16
        ensures value { result ≡ line_count (as_size self) }
        ensures some { 1 ≤ result }
        ensures most { result ≤ MAX_HEIGHT }
    {
        if self.interlace == 0 {
            self.height
        } else {
            self.height / 2
        }
    }

    /// Rows of macroblocks of a coded picture.
    pub fn row_count(self) -> u16
        ensures value { result ≡ row_count (as_size self) }
        ensures some { 1 ≤ result }
        ensures most { result ≤ 144 }
    {
        (self.line_count() + 15) / 16
    }

    /// Macroblocks of a row.
    pub fn row_macroblocks(self) -> u16
        ensures value { result ≡ macroblocks self.width }
        ensures some { 1 ≤ result }
        ensures most { result ≤ 256 }
    {
        (self.width + 15) / 16
    }
}
