//! The picture that a frame means, by several workers.

ghost use Rattle.std.specs.Prelude.{◌≡◌, ◌≤◌, ◌<◌, ℕ, List, IfOk, IfErr};
ghost use Rattle.picture_plane.specs.Pictures.{Planes};
ghost use Rattle.frame_codec.specs.Frames.{MeansFrame};
ghost use Rattle.frame_codec.specs.Faults.{Refuses};
ghost use Rattle.frame_codec.specs.declared.fault.DecodeFault.{DecodeFault};
ghost use Rattle.slice_codec.specs.Setups.{Setup};
ghost use Rattle.slice_workers.specs.inner.Readers.{HaveReadings};

use crate::jobs::jobs_of;
use crate::reader::Reader;
use crate::round::Rounds;
use frame_codec::{
    DecodeFault, SampleReader, open_frame, picture_of, refused_means_nothing, setup_of,
};
use picture_plane::Picture;
use rec_bytes::Memory;
use slice_codec::SliceSetup;
use std::alloc::Global;
use std::thread::Threads;

/// The most slices that are read before their samples are put into the picture.
const ROUND: usize = 256;

/// The picture that the bytes of a frame mean, by so many workers.
pub fn decode_with<R: Threads + Sync>(
    rt: &R,
    alloc: Global,
    bytes: &[u8],
    workers: u8,
) -> Result<Picture, DecodeFault>
    requires some { 1 ≤ workers }
    requires few { workers ≤ 64 }
    ensures means { IfOk result (MeansFrame bytes.now) }
    ensures accepted { (picture : Planes) → MeansFrame bytes.now picture → IfErr result (λ fault. fault ≡ DecodeFault.Memory) }

    ensures refused { IfErr result (Refuses bytes.now) }
{
    refused_means_nothing();
    read_with(rt, alloc, bytes, workers)
}

/// The picture that the bytes of a frame mean, or the first rule that they break.
fn read_with<R: Threads + Sync>(
    rt: &R,
    alloc: Global,
    bytes: &[u8],
    workers: u8,
) -> Result<Picture, DecodeFault>
    requires { 1 ≤ workers }
    ensures means { IfOk result (MeansFrame bytes.now) }

    ensures refused { IfErr result (Refuses bytes.now) }
{
    let parts = match open_frame(bytes) {
        Ok(parts) => parts,
        Err(fault) => return Err(fault),
    };
    let setup = setup_of(&parts);
    let jobs = match jobs_of(alloc, bytes, &parts) {
        Ok(jobs) => jobs,
        Err(Memory) => return Err(DecodeFault::Memory),
    };
    let round = jobs.len().min(ROUND);
    let readers = match readers_of(alloc, &setup, workers, round) {
        Ok(readers) => readers,
        Err(Memory) => return Err(DecodeFault::Memory),
    };
    let mut source = Rounds {
        rt,
        own: SampleReader::new(&setup),
        jobs,
        readers,
        round,
        asked: 0,
        begun: 0,
    };
    picture_of(alloc, bytes, &parts, &mut source)
}

/// So many workers, which share memory for a round twice over, so that one may read more than its share.
fn readers_of(
    alloc: Global,
    setup: &SliceSetup,
    workers: u8,
    round: usize,
) -> Result<Vec<Reader>, Memory>
    requires some { 1 ≤ workers }
    requires round { round ≤ ROUND }
    ensures { IfOk result (λ readers. (setup : Setup) (bytes : List ℕ) → HaveReadings setup bytes readers.items) }
{
    let slices = (2 * round / usize::from(workers) + 1).min(round);
    let mut readers = Vec::with_capacity(alloc, usize::from(workers))?;
    'readers: for _ in 0..workers {
        readers.push(Reader::new(alloc, setup, slices)?)?;
    }
    Ok(readers)
}
