//! A row of macroblocks cut into slices.

ghost use Rattle.std.specs.Prelude.{◌≡◌, ◌+◌, ◌^◌, ◌<◌, ◌≤◌, length};
ghost use Rattle.picture_plane.specs.Slices.{slice_at, slice_widths};
ghost use Rattle.picture_plane.specs.inner.Rows.{slice_after};

/// The `n`-th slice of a row of macroblocks, as its first macroblock and how many it has (RDD 36); none past the last.
pub fn cut_row(macroblocks: u16, log2: u8, n: u16) -> Option<(u16, u8)>
    requires { log2 ≤ 3 }
    ensures { result ≡ slice_at (slice_widths log2 macroblocks) n }
{
    cut_from(0, macroblocks, log2, n)
}

/// The `n`-th slice of the macroblocks from `first` on.
fn cut_from(first: u16, macroblocks: u16, log2: u8, n: u16) -> Option<(u16, u8)>
    requires log2 { log2 ≤ 3 }
    requires fits { first + macroblocks < 2 ^ 16 }
    ensures { result ≡ slice_after first (slice_widths log2 macroblocks) n }
{
    let width = greatest_width(log2);
    let whole = macroblocks / width;
    if n < whole {
        return Some((first + n * width, width as u8));
    }
    if log2 == 0 {
        return None;
    }
    let taken = whole * width;
    cut_from(first + taken, macroblocks - taken, log2 - 1, n - whole)
}

/// How many slices a row of macroblocks has.
pub(crate) fn row_len(macroblocks: u16, log2: u8) -> u16
    requires { log2 ≤ 3 }
    ensures slices { result ≡ length (slice_widths log2 macroblocks) }
    ensures most { result ≤ macroblocks }
{
    let width = greatest_width(log2);
    let whole = macroblocks / width;
    if log2 == 0 {
        return whole;
    }
    whole + row_len(macroblocks - whole * width, log2 - 1)
}

/// Macroblocks of the widest slices.
fn greatest_width(log2: u8) -> u16
    requires { log2 ≤ 3 }
    ensures value { result ≡ 2 ^ log2 }
    ensures some { 1 ≤ result }
    ensures most { result ≤ 8 }
{
    1 << log2
}
