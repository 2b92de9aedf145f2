//! Publishing a frame.

ghost use Rattle.std.specs.Prelude.{◌≡◌, ◌≤◌, ◌<◌, ◌^◌, ◌++◌, ℕ, List, None, length, IsOk, IfOk, IfErr};
ghost use Rattle.rec_bytes.specs.Faults.{HasCause};
ghost use Rattle.take_state.specs.Causes.{HasPublishCause, HasFaultCause};
ghost use Rattle.take_state.specs.Crashes.{CrashesSafely};
ghost use Rattle.take_state.specs.Events.{PublishesFrame, Stops};
ghost use Rattle.take_state.specs.Refusals.{publish_refusal, RefusesPublish};
ghost use Rattle.take_state.specs.Seen.{published};
ghost use Rattle.take_state.specs.Stands.{IsSized, IsNumbered};
ghost use Rattle.take_state.specs.inner.Writing.{Wrote};

use crate::fault::{DiskFault, PublishFault};
use crate::state::TakeState;
use crate::units::TakeUnits;
use crate::write::{note_stop, write_both};
use rec_bytes::Failed;
use take_core::{Entry, Snapshot};
use take_disk::{Area, TakeDisk};
use take_layout::{GrowingFile, TakeLayout, rooms_suffice};

impl<U: TakeUnits, L: TakeLayout, D: TakeDisk + Drop> TakeState<U, L, D> {
    /// Writes the frame of a number, which is the next one, behind its lead. From then on it may be read.
    pub fn publish(&mut self, number: u64, unit: &[u8]) -> Result<Snapshot, PublishFault>
        requires sized { IsSized unit.now }
        requires named { number ≡ published self.old → number < self.old.config.max_frames
            → IsNumbered (U.units self.old.config) number unit.now }
        ensures accepted { IsOk result → publish_refusal self.old number ≡ None }
        ensures published { IfOk result (PublishesFrame (length unit.now) self.old self.new) }

        ensures refused { IfErr result (RefusesPublish number self.old self.new) }
        ensures crash { CrashesSafely L.TakeLayout D.TakeDisk (U.units self.old.config) self.old self.new }
        ensures cause { HasPublishCause (D.fault_count self.old.disk) (D.fault_count self.new.disk) result }
    {
        self.stands();
        if let Some(fault) = self.refusal(number) {
            return Err(fault);
        }
        self.add_unit(unit).map_err(PublishFault::Disk)
    }

    // The first refusal of the frame of a number that is due.
    fn refusal(&self, number: u64) -> Option<PublishFault>
        ensures { result ≡ publish_refusal self.now number }
    {
        if let Some(faults) = self.stop {
            return Some(PublishFault::Stopped { faults });
        }
        let seen = self.history.latest();
        if self.tail {
            return Some(PublishFault::Ended {
                count: seen.published,
            });
        }
        if number != seen.published {
            return Some(PublishFault::OutOfTurn {
                want: seen.published,
                got: number,
            });
        }
        if seen.published >= u64::from(self.file.config().max_frames) {
            return Some(PublishFault::TakeFull {
                max: u64::from(self.file.config().max_frames),
            });
        }
        if seen.published - seen.acked >= u64::from(self.file.config().lag) {
            return Some(PublishFault::Lagging {
                published: seen.published,
                acked: seen.acked,
            });
        }
        None
    }

    // Writes the next frame, for which no refusal is due.
    fn add_unit(&mut self, unit: &[u8]) -> Result<Snapshot, DiskFault>
        requires sized { IsSized unit.now }
        requires due { publish_refusal self.old (published self.old) ≡ None }
        requires named { IsNumbered (U.units self.old.config) (published self.old) unit.now }
        ensures published { IfOk result (PublishesFrame (length unit.now) self.old self.new) }

        ensures stopped { IfErr result (Stops self.old self.new) }
        ensures crash { CrashesSafely L.TakeLayout D.TakeDisk (U.units self.old.config) self.old self.new }
        ensures cause { HasFaultCause (D.fault_count self.old.disk) (D.fault_count self.new.disk) result }
    {
        let at = self.file.len();
        if write_unit(
            &self.file,
            at,
            unit,
            self.buffer.as_mut_slice(),
            &mut self.disk,
        )
        .is_err()
        {
            let faults = self.disk.faults();
            return Err(note_stop(&mut self.history, &mut self.stop, faults));
        }
        let len = unit.len() as u64;
        self.file.add_reserved(len);
        self.history.add(Entry::Published { len });
        Ok(self.history.latest())
    }
}

/// Writes a unit behind its lead, at the end of the file of those before it, by a buffer that has room for the lead.
fn write_unit<L: TakeLayout, D: TakeDisk>(
    file: &GrowingFile<L>,
    at: u64,
    unit: &[u8],
    buffer: &mut [u8],
    disk: &mut D,
) -> Result<(), Failed>
    requires few { length file.now.places < file.now.config.max_frames }
    requires unit { L.is_unit file.now.config unit.now }
    requires room { L.lead_most file.now.config ≤ length buffer.old }
    requires ends { (units : List (List ℕ)) → file.now.places ≡ L.places_of file.now.config units
        → at ≡ length (L.growing file.now.config units) }
    requires inside { at ≤ D.length_of disk.old Area.Essence }
    requires small { at < 2 ^ 63 }
    ensures wrote { (units : List (List ℕ)) → file.now.places ≡ L.places_of file.now.config units
        → Wrote D.TakeDisk Area.Essence at (L.lead file.now.config units (length unit.now) ++ unit.now) disk.old disk.new result }
    ensures cause { HasCause (D.fault_count disk.old) (D.fault_count disk.new) result }
{
    let cfg = *file.config();
    cfg.ranges();
    rooms_suffice::<L>();
    let lead = &mut buffer[..L::lead_len(&cfg, file.places()) as usize];
    L::put_lead(&cfg, file.places(), unit.len() as u64, lead);
    write_both(disk, at, lead, unit)
}
