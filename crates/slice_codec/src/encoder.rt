//! The slice of samples by a configuration.

ghost use Rattle.std.specs.Prelude.{◌≡◌, ◌≤◌, ◌+◌, ◌*◌, length, take};
ghost use Rattle.rec_bytes.specs.Views.{view};
ghost use Rattle.slice_codec.specs.Coded.{IsCodedSlice};

use crate::choice::{Rule, write_chosen};
use crate::coding::{Coding, coding_of};
use crate::weighing::{entry_count, weigh_slice};
use picture_plane::{Plane, SliceSamples};
use prores_codes::Pairs;
use rec_bytes::Config;
use slice_levels::Lanes;

/// Room for the numbers of a slice.
#[derive(Drop)]
struct Scratch {
    lanes: Lanes,
    y: [u16; 2048],
    cb: [u16; 1024],
    cr: [u16; 1024],
    numbers: [u16; 2048],
    hint: u8,
}

/// What coding slices by a configuration takes, made once for many of them. It has some 20 KB, and takes no memory.
#[derive(Drop)]
pub struct SliceEncoder {
    /// What the configuration says.
    pub coding: Coding,
    scratch: Scratch,
}

impl SliceEncoder {
    /// Prepares the weights of a configuration.
    pub fn new(cfg: &Config) -> SliceEncoder
        ensures { result.coding.config ≡ cfg.now }
    {
        SliceEncoder {
            coding: coding_of(cfg),
            scratch: Scratch {
                lanes: Lanes::new(),
                y: [0; 2048],
                cb: [0; 1024],
                cr: [0; 1024],
                numbers: [0; 2048],
                hint: 0,
            },
        }
    }

    /// Writes the slice of samples of 1 to 8 macroblocks, and answers how many bytes it has. `tables` are those of
    /// `prores_codes`, made once. Bytes of `out` behind the slice may have changed.
    pub fn encode(
        &mut self,
        tables: &Pairs,
        samples: &SliceSamples,
        count: u8,
        out: &mut [u8],
    ) -> usize
        requires some { 1 ≤ count }
        requires few { count ≤ 8 }
        requires room { 4096 * count + 8 ≤ length out.old }
        ensures coded { IsCodedSlice (view self.old.coding.config) count samples.now (take result out.new) }
        ensures most { result ≤ 4096 * count + 8 }
        ensures kept { self.new.coding ≡ self.old.coding }
    {
        code_slice(&self.coding, &mut self.scratch, tables, samples, count, out)
    }
}

/// Writes the slice of samples of 1 to 8 macroblocks by a configuration, and answers how many bytes it has. It prepares
/// weights and tables at each call: for many slices keep a `SliceEncoder`. Bytes of `out` behind the slice may have
/// changed.
pub fn encode_slice(cfg: &Config, samples: &SliceSamples, count: u8, out: &mut [u8]) -> usize
    requires some { 1 ≤ count }
    requires few { count ≤ 8 }
    requires room { 4096 * count + 8 ≤ length out.old }
    ensures coded { IsCodedSlice (view cfg.now) count samples.now (take result out.new) }
    ensures most { result ≤ 4096 * count + 8 }
{
    let tables = Pairs::new();
    let mut encoder = SliceEncoder::new(cfg);
    encoder.encode(&tables, samples, count, out)
}

/// Writes a slice.
fn code_slice(
    coding: &Coding,
    scratch: &mut Scratch,
    tables: &Pairs,
    samples: &SliceSamples,
    count: u8,
    out: &mut [u8],
) -> usize
    requires some { 1 ≤ count }
    requires few { count ≤ 8 }
    requires room { 4096 * count + 8 ≤ length out.old }
    ensures coded { IsCodedSlice (view coding.now.config) count samples.now (take result out.new) }
    ensures most { result ≤ 4096 * count + 8 }
{
    weigh_slice(
        coding,
        samples,
        count,
        &mut scratch.lanes,
        &mut scratch.y,
        &mut scratch.cb,
        &mut scratch.cr,
    );
    let luma = entry_count(Plane::Y, count);
    let chroma = entry_count(Plane::Cb, count);
    let rule = rule_of(&coding.config, count);
    let y = &scratch.y[..luma];
    let cb = &scratch.cb[..chroma];
    let cr = &scratch.cr[..chroma];
    let hint = scratch.hint;
    let used = write_chosen(tables, y, cb, cr, rule, hint, &mut scratch.numbers, out);
    scratch.hint = out[1];
    used
}

/// What a configuration says of the indices of slices of so many macroblocks.
fn rule_of(cfg: &Config, count: u8) -> Rule
    requires { count ≤ 8 }
    ensures first { result.first ≡ cfg.now.qmin }
    ensures last { result.last ≡ cfg.now.qmax }
    ensures room { result.room ≡ cfg.now.budget * count }
    ensures some { 1 ≤ result.first }
    ensures order { result.first ≤ result.last }
    ensures most { result.last ≤ 224 }
    ensures budget { result.room ≤ 4096 * count }
{
    cfg.ranges();
    Rule {
        first: cfg.qmin,
        last: cfg.qmax,
        room: usize::from(cfg.budget) * usize::from(count),
    }
}
