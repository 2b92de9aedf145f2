//! The slices of a frame by number.

ghost use Rattle.std.specs.Prelude.{◌≡◌, ◌<◌, ◌≤◌, ◌*◌};
ghost use Rattle.rec_bytes.specs.Views.{view};
ghost use Rattle.picture_plane.specs.Sizes.{size_of};
ghost use Rattle.picture_plane.specs.Slices.{IsSlice, IsFrameSlice, FitsSize, field_of, picture_count, slice_total, slices_per_picture};
ghost use Rattle.picture_plane.specs.Views.{as_size};

use crate::frame_size::FrameSize;
use crate::rows::{cut_row, row_len};
use crate::slice_names::{Field, SliceName};
use rec_bytes::Config;

/// How many slices a frame of this configuration has, over all its coded pictures.
pub fn slice_count(cfg: &Config) -> u32
    ensures value { result ≡ slice_total (size_of (view cfg.now)) cfg.now.log2 }
    ensures most { result ≤ 2 * 36864 }
{
    cfg.ranges();
    let size = FrameSize::of(cfg);
    u32::from(size.picture_count()) * picture_slices(size, cfg.log2)
}

/// The slice of this number, in the order of the file: picture by picture, row by row, each row from the left.
pub fn slice_name(cfg: &Config, index: u32) -> SliceName
    requires { index < slice_total (size_of (view cfg.now)) cfg.now.log2 }
    ensures named { IsFrameSlice (size_of (view cfg.now)) cfg.now.log2 index result }
    ensures fits { FitsSize (size_of (view cfg.now)) result }
{
    cfg.ranges();
    let size = FrameSize::of(cfg);
    let count = picture_slices(size, cfg.log2);
    picture_slice(size, cfg.log2, (index / count) as u8, index % count)
}

/// How many slices a coded picture has. `log2` is the picture's log2_desired_slice_size_in_mb.
pub fn picture_slices(size: FrameSize, log2: u8) -> u32
    requires { log2 ≤ 3 }
    ensures value { result ≡ slices_per_picture (as_size size) log2 }
    ensures most { result ≤ 36864 }
{
    u32::from(size.row_count()) * u32::from(row_len(size.row_macroblocks(), log2))
}

/// The `n`-th slice of a coded picture of a frame: row by row, each from the left.
pub fn picture_slice(size: FrameSize, log2: u8, picture: u8, n: u32) -> SliceName
    requires log2 { log2 ≤ 3 }
    requires picture { picture < picture_count (as_size size) }
    requires within { n < slices_per_picture (as_size size) log2 }
    ensures named { IsSlice (as_size size) log2 picture n result }
    ensures fits { FitsSize (as_size size) result }
{
    let macroblocks = size.row_macroblocks();
    let len = u32::from(row_len(macroblocks, log2));
    match cut_row(macroblocks, log2, (n % len) as u16) {
        Some((first, count)) => SliceName {
            field: field_at(size.interlace, picture),
            row: (n / len) as u16,
            first,
            count,
        },
        None => unreachable!(),
    }
}

/// The field that a frame's coded picture of this number is.
fn field_at(interlace: u8, picture: u8) -> Field
    ensures { result ≡ field_of interlace picture }
{
    if interlace == 0 {
        return Field::Whole;
    }
    if interlace == 1 {
        return if picture == 0 {
            Field::Top
        } else {
            Field::Bottom
        };
    }
    if picture == 0 {
        Field::Bottom
    } else {
        Field::Top
    }
}
