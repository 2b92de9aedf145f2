//! Writes of an area of a take, and what is noted where the disk fails.

ghost use Rattle.std.specs.Prelude.{◌≡◌, ◌≤◌, ◌<◌, ◌+◌, ◌^◌, ◌∷◌, ◌++◌, [], Some, length};
ghost use Rattle.rec_bytes.specs.Faults.{HasCause};
ghost use Rattle.take_core.specs.declared.entry.Entry.TheVariants.{Stopped};
ghost use Rattle.take_state.specs.inner.Writing.{Wrote};

use crate::fault::DiskFault;
use rec_bytes::Failed;
use take_core::{Entry, History};
use take_disk::{Area, TakeDisk};

/// Writes bytes of an area at a place.
pub fn write_at<D: TakeDisk>(disk: &mut D, area: Area, at: u64, bytes: &[u8]) -> Result<(), Failed>
    requires inside { at ≤ D.length_of disk.old area }
    ensures wrote { Wrote D.TakeDisk area at bytes.now disk.old disk.new result }
    ensures cause { HasCause (D.fault_count disk.old) (D.fault_count disk.new) result }
{
    disk.write(area, at, bytes)
}

/// Writes bytes of the essence at a place, and others behind them: two calls of the disk.
pub fn write_both<D: TakeDisk>(
    disk: &mut D,
    at: u64,
    first: &[u8],
    second: &[u8],
) -> Result<(), Failed>
    requires inside { at ≤ D.length_of disk.old Area.Essence }
    requires small { at + length first.now < 2 ^ 64 }
    ensures wrote { Wrote D.TakeDisk Area.Essence at (first.now ++ second.now) disk.old disk.new result }
    ensures cause { HasCause (D.fault_count disk.old) (D.fault_count disk.new) result }
{
    write_at(disk, Area::Essence, at, first)?;
    write_at(disk, Area::Essence, at + first.len() as u64, second)
}

/// Notes that the disk has failed, with its count of faults.
pub fn note_stop(history: &mut History, stop: &mut Option<u64>, faults: u64) -> DiskFault
    requires room { length history.old.entries < history.old.room }
    ensures fault { result ≡ faults }
    ensures told { history.new ≡ record history.old { entries = history.old.entries ++ Stopped faults ∷ [] } }
    ensures stop { stop.new ≡ Some faults }
{
    history.add(Entry::Stopped { faults });
    *stop = Some(faults);
    DiskFault::of_count(faults)
}
