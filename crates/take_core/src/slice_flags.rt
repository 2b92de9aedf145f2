//! Which slices are in, of the frames that may have some: a flag for each slice.

ghost use Rattle.std.specs.Prelude.{◌≡◌, ◌≤◌, ◌<◌, ◌+◌, ◌*◌, ◌↔◌, IsTrue, IfOk, false, true, length, replicate, slice_set};
ghost use Rattle.take_core.specs.inner.Flags.{AllSet, Cleared};
ghost use Rattle.take_core.specs.Kept.{flag_at, place_of};
ghost use Rattle.take_core.specs.declared.numbers.TheConstants.{FLIGHT};

use crate::numbers::FLIGHT;
use rec_bytes::Memory;
use std::alloc::Global;
use std::marker::Model;

/// A flag for each slice of the frames that may have slices in. Which frame is the lowest stands elsewhere.
#[derive(Drop)]
pub struct SliceFlags {
    slices: u32,
    marks: Vec<bool>,
}

impl Model for SliceFlags {
    ghost use Rattle.std.specs.Prelude.{◌≡◌, ◌*◌, length};
    ghost use Rattle.take_core.specs.Kept.{Flags};
    ghost use Rattle.take_core.specs.declared.numbers.TheConstants.{FLIGHT};

    ghost Value = { Flags };

    ghost view = { λ s. record { slices = s.slices; marks = s.marks.items } };

    ghost invariant = { λ s. length s.marks.items ≡ s.slices * FLIGHT };
}

impl SliceFlags {
    /// No slice is in. It takes the memory for all flags.
    pub fn new(alloc: Global, slices: u32) -> Result<SliceFlags, Memory>
        ensures { IfOk result (λ flags. flags ≡ record { slices = slices; marks = replicate (slices * FLIGHT) false }) }
    {
        Ok(SliceFlags {
            slices,
            marks: vec![in alloc; false; slices as usize * FLIGHT as usize]?,
        })
    }

    /// Slices of a frame.
    pub fn slices(&self) -> u32
        ensures { result ≡ self.now.slices }
    {
        self.slices
    }

    /// The slice's flag.
    pub fn has(&self, frame: u64, index: u32) -> bool
        requires { index < self.now.slices }
        ensures { result ≡ flag_at self.now.marks frame index }
    {
        self.marks[place_of(frame, index)]
    }

    /// Sets the slice's flag.
    pub fn set(&mut self, frame: u64, index: u32)
        requires { index < self.old.slices }
        ensures set { self.new ≡ record self.old { marks = slice_set self.old.marks (place_of frame index) true } }
        ensures fits { place_of frame index < length self.old.marks }
    {
        self.marks[place_of(frame, index)] = true;
    }

    /// Every slice of the frame has its flag.
    pub fn is_whole(&self, frame: u64) -> bool
        ensures { IsTrue result ↔ AllSet self.now.marks self.now.slices frame }
    {
        are_set(self.marks.as_slice(), self.slices, frame)
    }

    /// Clears the flags of a frame.
    pub fn forget(&mut self, frame: u64)
        ensures slices { self.new.slices ≡ self.old.slices }
        ensures cleared { Cleared frame self.old.slices self.old.marks self.new.marks }
    {
        clear(self.marks.as_mut_slice(), self.slices, frame);
    }
}

/// The place of a slice's flag.
fn place_of(frame: u64, index: u32) -> usize
    ensures { result ≡ place_of frame index }
{
    index as usize * FLIGHT as usize + (frame % FLIGHT) as usize
}

/// Every slice of the frame has its flag.
fn are_set(marks: &[bool], slices: u32, frame: u64) -> bool
    requires { length marks.now ≡ slices * FLIGHT }
    ensures { IsTrue result ↔ AllSet marks.now slices frame }
{
    for index in 0..slices {
        if !marks[place_of(frame, index)] {
            return false;
        }
    }
    true
}

/// Clears the flags of a frame.
fn clear(marks: &mut [bool], slices: u32, frame: u64)
    requires { length marks.old ≡ slices * FLIGHT }
    ensures { Cleared frame slices marks.old marks.new }
{
    for index in 0..slices {
        marks[place_of(frame, index)] = false;
    }
}
