//! The slices of a frame, one behind the other.

ghost use Rattle.std.specs.Prelude.{◌≡◌, ◌+◌, ◌<◌, ◌≤◌, [], ◌∷◌, length, get_or, IfSome, IfNone};
ghost use Rattle.frame_syntax.specs.Frames.{IsFrame, slices_of, spans_in};
ghost use Rattle.frame_syntax.specs.SlicesLeft.{slices_left};
ghost use Rattle.frame_syntax.specs.inner.Runs.{RunFits, spans_in_run};
ghost use Rattle.frame_syntax.specs.inner.Rooms.{IsRoomy};
ghost use Rattle.frame_syntax.specs.Pictures.{SlicesFit, spans_of};

use crate::frame::FrameParts;
use crate::frame_head::u16_at;
use crate::picture_head::{ENTRY_LEN, PictureHead};
use std::marker::Model;

/// The slices of a coded picture that are left: the place of the next entry of its slice table, the place of the next
/// slice, and how many there are.
#[derive(Clone, Copy, Debug, PartialEq, Eq)]
pub struct SliceRun {
    pub entry_at: usize,
    pub at: usize,
    pub left: u32,
}

/// Goes through the slices of a frame in the order of the file.
#[derive(Drop)]
pub struct FrameSlices<'a> {
    bytes: &'a [u8],
    run: SliceRun,
    behind: SliceRun,
}

impl<'a> Model for FrameSlices<'a> {
    ghost use Rattle.std.specs.Prelude.{◌++◌};
    ghost use Rattle.frame_syntax.specs.SlicesLeft.{SlicesLeft};
    ghost use Rattle.frame_syntax.specs.inner.Runs.{RunFits as Fits, spans_in_run as spans};

    ghost Value = { SlicesLeft };

    ghost view = { λ s. record { bytes = s.bytes.now; left = spans s.bytes.now s.run ++ spans s.bytes.now s.behind } };

    ghost invariant = { λ s. Fits s.bytes.now s.run × Fits s.bytes.now s.behind };
}

impl<'a> FrameSlices<'a> {
    /// The next slice, as its place in the frame and how many bytes it has; none behind the last.
    pub fn next(&mut self) -> Option<(usize, usize)>
        ensures next { IfSome result (λ span. self.old.left ≡ span ∷ self.new.left) }
        ensures within { IfSome result (λ span. span.0 + span.1 ≤ length self.old.bytes) }
        ensures ended { IfNone result (self.old.left ≡ []) }
        ensures bytes { self.new.bytes ≡ self.old.bytes }
    {
        if self.run.left != 0 {
            return Some(step(self.bytes, &mut self.run));
        }
        if self.behind.left != 0 {
            return Some(step(self.bytes, &mut self.behind));
        }
        None
    }
}

impl FrameParts {
    /// The slices of the frame that these are the parts of, in the order of the file.
    pub fn slices<'a>(&self, bytes: &'a [u8]) -> FrameSlices<'a>
        requires { IsFrame bytes.now self.now }
        ensures { result ≡ slices_left bytes.now (slices_of bytes.now self.now) }
    {
        FrameSlices {
            bytes,
            run: run_of(bytes, &self.first),
            behind: run_behind(bytes, &self.second),
        }
    }

    /// A slice of the frame that these are the parts of, as its place in the frame and how many bytes it has. It passes
    /// over the slices before: to take all, use `slices`.
    pub fn slice(&self, bytes: &[u8], index: u32) -> (usize, usize)
        requires frame { IsFrame bytes.now self.now }
        requires there { index < self.now.slices }
        ensures slice { result ≡ get_or (slices_of bytes.now self.now) index (0, 0) }
        ensures within { result.0 + result.1 ≤ length bytes.now }
    {
        let mut left = self.slices(bytes);
        'passed: for n in 0..index {
            match left.next() {
                Some(_) => {}
                None => return (0, 0),
            }
        }
        left.next().unwrap_or((0, 0))
    }
}

/// The slices of a coded picture.
fn run_of(bytes: &[u8], picture: &PictureHead) -> SliceRun
    requires room { IsRoomy (length bytes.now) picture.now }
    requires fit { SlicesFit bytes.now picture.now }
    ensures spans { spans_in_run bytes.now result ≡ spans_of bytes.now picture.now }
    ensures fits { RunFits bytes.now result }
{
    let entry_at = picture.at + picture.head_size as usize;
    SliceRun {
        entry_at,
        at: entry_at + ENTRY_LEN * picture.slices as usize,
        left: picture.slices,
    }
}

/// The slices of the second coded picture, none where there is no second.
fn run_behind(bytes: &[u8], second: &Option<PictureHead>) -> SliceRun
    requires room { IfSome second.now (IsRoomy (length bytes.now)) }
    requires fit { IfSome second.now (SlicesFit bytes.now) }
    ensures spans { spans_in_run bytes.now result ≡ spans_in bytes.now second.now }
    ensures fits { RunFits bytes.now result }
{
    match second {
        Some(picture) => run_of(bytes, picture),
        None => SliceRun {
            entry_at: 0,
            at: 0,
            left: 0,
        },
    }
}

/// Passes over a slice.
fn step(bytes: &[u8], run: &mut SliceRun) -> (usize, usize)
    requires fits { RunFits bytes.now run.old }
    requires some { 0 < run.old.left }
    ensures next { spans_in_run bytes.now run.old ≡ result ∷ spans_in_run bytes.now run.new }
    ensures fits { RunFits bytes.now run.new }
    ensures within { result.0 + result.1 ≤ length bytes.now }
{
    let span = (run.at, u16_at(bytes, run.entry_at) as usize);
    run.entry_at += ENTRY_LEN;
    run.at += span.1;
    run.left -= 1;
    span
}
