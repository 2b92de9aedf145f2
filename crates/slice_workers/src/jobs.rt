//! The slices of a frame that workers read.

ghost use Rattle.std.specs.Prelude.{◌≡◌, ◌≤◌, ◌+◌, length, IfOk, IfSome};
ghost use Rattle.picture_plane.specs.Sizes.{IsSize};
ghost use Rattle.frame_syntax.specs.Frames.{IsFrame};
ghost use Rattle.frame_syntax.specs.Headers.{size_of};
ghost use Rattle.slice_workers.specs.inner.Readers.{AreJobs};

use frame_syntax::FrameParts;
use picture_plane::{FrameSize, picture_slice, picture_slices};
use rec_bytes::Memory;
use std::alloc::Global;

/// A slice to be read: where it stands in the frame, and how many macroblocks it has.
#[derive(Clone, Copy)]
pub struct Job {
    /// The place of its first byte.
    pub at: usize,
    /// How many bytes it has.
    pub len: usize,
    /// Its macroblocks.
    pub count: u8,
}

/// The slices of a frame, in the order of the file.
pub fn jobs_of(alloc: Global, bytes: &[u8], parts: &FrameParts) -> Result<Vec<Job>, Memory>
    requires frame { IsFrame bytes.now parts.now }
    requires sized { IsSize (size_of parts.now.head) }
    ensures { IfOk result (λ jobs. AreJobs bytes.now jobs.items) }
{
    let head = &parts.head;
    let size = FrameSize::new(head.width, head.height, head.interlace);
    let mut slices = parts.slices(bytes);
    let mut jobs = Vec::with_capacity(alloc, parts.slices as usize)?;
    'jobs: for index in 0..parts.slices {
        let Some((at, len)) = slices.next() else {
            return Ok(jobs);
        };
        let Some(count) = count_of(size, parts, index) else {
            return Ok(jobs);
        };
        jobs.push(Job { at, len, count })?;
    }
    Ok(jobs)
}

/// How many macroblocks a slice of a frame has; none where the frame has no such slice.
fn count_of(size: FrameSize, parts: &FrameParts, index: u32) -> Option<u8>
    ensures { IfSome result (λ count. (1 ≤ count) × (count ≤ 8)) }
{
    if index < parts.first.slices {
        return count_in(size, parts.first.log2, 0, index);
    }
    match &parts.second {
        Some(second) => count_in(size, second.log2, 1, index - parts.first.slices),
        None => None,
    }
}

/// How many macroblocks a slice of a coded picture has; none where the picture has no such slice.
fn count_in(size: FrameSize, log2: u8, picture: u8, n: u32) -> Option<u8>
    ensures { IfSome result (λ count. (1 ≤ count) × (count ≤ 8)) }
{
    if log2 <= 3 && picture < size.picture_count() && n < picture_slices(size, log2) {
        Some(picture_slice(size, log2, picture, n).count)
    } else {
        None
    }
}
