//! The three planes of a picture.

ghost use Rattle.std.specs.Prelude.{◌≡◌, ◌≤◌, ◌*◌, ◌+◌, ◌<◌};
ghost use Rattle.picture_plane.specs.Pictures.{columns, plane_start, row_start, sample_count};
ghost use Rattle.picture_plane.specs.Views.{as_size};

use crate::frame_size::FrameSize;

/// A plane of a picture: luma, or one of the two chroma planes.
#[derive(Clone, Copy, Debug, PartialEq, Eq)]
pub enum Plane {
    /// Luma.
    Y,
    /// Blue difference.
    Cb,
    /// Red difference.
    Cr,
}

impl FrameSize {
    /// Samples of a row of a plane.
    #[inline(always)]
    pub fn columns(self, plane: Plane) -> usize
        ensures value { result ≡ columns (as_size self) plane }
        ensures some { 1 ≤ result }
        ensures most { result ≤ 4096 }
    {
        match plane {
            Plane::Y => usize::from(self.width),
            Plane::Cb => usize::from(self.width / 2),
            Plane::Cr => usize::from(self.width / 2),
        }
    }

    /// Samples of a picture: twice its rows times its columns.
    pub fn sample_count(self) -> usize
        ensures value { result ≡ sample_count (as_size self) }
        ensures most { result ≤ 2 * (2304 * 4096) }
    {
        2 * self.luma_len()
    }

    /// Samples of luma.
    #[inline(always)]
    fn luma_len(self) -> usize
        ensures value { result ≡ self.height * self.width }
        ensures most { result ≤ 2304 * 4096 }
    {
        usize::from(self.height) * usize::from(self.width)
    }

    /// Samples before a plane.
    #[inline(always)]
    fn plane_start(self, plane: Plane) -> usize
        ensures value { result ≡ plane_start (as_size self) plane }
        ensures most { result ≤ 2 * (2304 * 4096) }
    {
        let luma = self.luma_len();
        match plane {
            Plane::Y => 0,
            Plane::Cb => luma,
            Plane::Cr => luma + luma / 2,
        }
    }

    /// The place of a row's first sample among all samples of a picture.
    #[inline(always)]
    pub(crate) fn row_start(self, plane: Plane, row: usize) -> usize
        requires { row < self.height }
        ensures value { result ≡ row_start (as_size self) plane row }
        ensures room { result + columns (as_size self) plane ≤ sample_count (as_size self) }
    {
        self.plane_start(plane) + row * self.columns(plane)
    }
}
