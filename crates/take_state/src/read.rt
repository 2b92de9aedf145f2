//! Reading published frames back.

ghost use Rattle.std.specs.Prelude.{◌≡◌, ◌≤◌, ◌<◌, ℕ, List, Some, length, slice_get, slice_index, OnOk};
ghost use Rattle.take_core.specs.declared.numbers.TheConstants.{MAX_UNIT};
ghost use Rattle.take_disk.specs.Calls.{IfTold, Stays};
ghost use Rattle.take_state.specs.Causes.{HasFaultCause};
ghost use Rattle.take_state.specs.Crashes.{CrashesSafely};
ghost use Rattle.take_state.specs.Events.{IsNoEvent};
ghost use Rattle.take_state.specs.Seen.{published, lengths_in};

use crate::fault::DiskFault;
use crate::state::TakeState;
use crate::units::TakeUnits;
use take_disk::{Area, TakeDisk};
use take_layout::{TakeLayout, units_lie};

impl<U: TakeUnits, L: TakeLayout, D: TakeDisk + Drop> TakeState<U, L, D> {
    /// The length of a published frame, in bytes.
    pub fn unit_len(&self, i: u64) -> u64
        requires published { i < published self.now }
        ensures len { Some result ≡ slice_get (lengths_in self.now.history) i }
        ensures sized { (1 ≤ result) × (result ≤ MAX_UNIT) }
    {
        units_lie::<L>();
        self.file.places()[i as usize].len
    }

    /// Reads a published frame. `out` has its length, and holds anything after a fault.
    pub fn unit(&mut self, i: u64, out: &mut [u8]) -> Result<(), DiskFault>
        requires published { i < published self.old }
        requires len { Some (length out.old) ≡ slice_get (lengths_in self.old.history) i }
        ensures read { OnOk result (IfTold (U.units self.old.config) (λ all. IfTold (D.told self.old.disk) (λ disk.
            slice_get all i ≡ Some out.new))) }
        ensures stands { self.new ≡ record self.old { disk = self.new.disk } }
        ensures unchanged { Stays (D.told self.old.disk) (D.told self.new.disk) (D.length_of self.old.disk) (D.length_of self.new.disk) }
        ensures crash { CrashesSafely L.TakeLayout D.TakeDisk (U.units self.old.config) self.old self.new }
        ensures cause { HasFaultCause (D.fault_count self.old.disk) (D.fault_count self.new.disk) result }
    {
        units_lie::<L>();
        let place = self.file.places()[i as usize];
        if self.disk.read(Area::Essence, place.at, out).is_err() {
            return Err(DiskFault::of_count(self.disk.faults()));
        }
        Ok(())
    }
}
