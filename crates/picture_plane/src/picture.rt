//! A picture in memory.

ghost use Rattle.std.specs.Prelude.{◌≡◌, ◌≤◌, ◌<◌, ◌+◌, ℕ, length, IfOk, slice_index};
ghost use Rattle.rec_bytes.specs.Views.{view};
ghost use Rattle.picture_plane.specs.Pictures.{columns, row_of, sample_at, with_sample, with_samples, zeros, IsPicture};
ghost use Rattle.picture_plane.specs.Sizes.{size_of};
ghost use Rattle.picture_plane.specs.Views.{as_size};

use crate::frame_size::FrameSize;
use crate::planes::Plane;
use crate::runs::put_run;
use rec_bytes::{Config, Memory};
use std::alloc::Global;
use std::marker::Model;

/// A picture: its planes, whose samples are below 1024.
#[derive(Drop)]
pub struct Picture {
    pub(crate) size: FrameSize,
    pub(crate) samples: Vec<u16>,
}

impl Model for Picture {
    ghost use Rattle.picture_plane.specs.Pictures.{Planes, IsPicture};
    ghost use Rattle.picture_plane.specs.Views.{as_size};

    ghost Value = { Planes };

    ghost view = { λ p. record { size = as_size p.size; samples = p.samples.items } };

    ghost invariant = { λ p. IsPicture (record { size = as_size p.size; samples = p.samples.items }) };
}

impl Picture {
    /// A picture of the size that a configuration gives, all of zeros.
    pub fn new(alloc: Global, cfg: &Config) -> Result<Picture, Memory>
        ensures { IfOk result (λ picture. picture ≡ zeros (size_of (view cfg.now))) }
    {
        Picture::of_size(alloc, FrameSize::of(cfg))
    }

    /// A picture of this size, all of zeros.
    pub fn of_size(alloc: Global, size: FrameSize) -> Result<Picture, Memory>
        ensures { IfOk result (λ picture. picture ≡ zeros (as_size size)) }
    {
        let samples = vec![in alloc; 0u16; size.sample_count()]?;
        Ok(Picture { size, samples })
    }

    /// The picture's size.
    pub fn size(&self) -> FrameSize
        ensures { as_size result ≡ self.now.size }
    {
        self.size
    }

    /// Shows what the type keeps. It does nothing when it runs.
    pub fn ranges(&self)
        ensures { IsPicture self.now }
    {
        let _size = self.size;
    }

    /// All samples: Y, then Cb, then Cr, each row by row.
    pub fn samples(&self) -> &[u16]
        ensures { result.now ≡ self.now.samples }
    {
        self.samples.as_slice()
    }

    /// The samples of a row of a plane.
    pub fn row(&self, plane: Plane, row: usize) -> &[u16]
        requires { row < self.now.size.height }
        ensures value { result.now ≡ row_of self.now plane row }
        ensures length { length result.now ≡ columns self.now.size plane }
    {
        let at = self.size.row_start(plane, row);
        &self.samples[at..at + self.size.columns(plane)]
    }

    /// The sample of a plane at a row and a column.
    pub fn get(&self, plane: Plane, row: u32, col: u32) -> u16
        requires row { row < self.now.size.height }
        requires column { col < columns self.now.size plane }
        ensures value { result ≡ sample_at self.now plane row col }
        ensures small { result < 1024 }
    {
        self.samples[self.size.row_start(plane, row as usize) + col as usize]
    }

    /// Puts a sample.
    pub fn set(&mut self, plane: Plane, row: u32, col: u32, value: u16)
        requires row { row < self.old.size.height }
        requires column { col < columns self.old.size plane }
        requires small { value < 1024 }
        ensures { self.new ≡ with_sample self.old plane row col value }
    {
        let at = self.size.row_start(plane, row as usize) + col as usize;
        self.samples[at] = value;
    }

    /// Puts a run of samples at a place among all samples.
    pub fn fill(&mut self, at: usize, samples: &[u16])
        requires room { at + length samples.now ≤ length self.old.samples }
        requires small { (k : ℕ) → slice_index samples.now k < 1024 }
        ensures { self.new ≡ with_samples self.old at samples.now }
    {
        put_run(self.samples.as_mut_slice(), at, samples);
    }

    /// Takes the samples of another picture of this size.
    pub fn copy_from(&mut self, other: &Picture)
        requires { self.old.size ≡ other.now.size }
        ensures { self.new ≡ other.now }
    {
        self.samples
            .as_mut_slice()
            .copy_from_slice(other.samples.as_slice());
    }
}
