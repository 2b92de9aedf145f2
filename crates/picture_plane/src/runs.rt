//! Runs of samples that are copied.

ghost use Rattle.std.specs.Prelude.{◌≡◌, ◌≤◌, ◌+◌, length};
ghost use Rattle.rec_bytes.specs.Places.{with_bytes};

use std::simd::prelude::*;

/// Puts a run of samples at a place.
#[inline(always)]
pub(crate) fn put_run(out: &mut [u16], at: usize, run: &[u16])
    requires { at + length run.now ≤ length out.old }
    ensures { out.new ≡ with_bytes out.old at run.now }
{
    out[at..at + run.len()].copy_from_slice(run);
}

/// Puts eight samples at a place. As a vector they are loaded and stored at once.
#[inline(always)]
pub(crate) fn put_eight(out: &mut [u16], at: usize, run: &[u16])
    requires eight { length run.now ≡ 8 }
    requires room { at + 8 ≤ length out.old }
    ensures { out.new ≡ with_bytes out.old at run.now }
{
    u16x8::from_slice(run).copy_to_slice(&mut out[at..at + 8]);
}
