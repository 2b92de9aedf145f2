//! The catalogue of an OP1a file.

ghost use Rattle.std.specs.Prelude.{◌≡◌, ◌≤◌, ◌<◌, ◌+◌, ℕ, List, Some, length, take, drop, slice_get, IfOk, IfErr};
ghost use Rattle.take_disk.specs.Calls.{Stays};
ghost use Rattle.take_disk.specs.Held.{Disk};
ghost use Rattle.take_disk.specs.declared.area.Area.{Area};
ghost use Rattle.take_disk.specs.Elapsed.{Elapsed};
ghost use Rattle.mxf_reader.specs.Calls.{HasCheckCause, HasUnitCause};
ghost use Rattle.mxf_reader.specs.Catalogues.{BreaksBy, Contents, IsCatalogueOf, LieInside};

use crate::fault::{CheckFault, Past, UnitFault};
use crate::file::{SeenFile, walk};
use crate::judge::judge;
use crate::metadata::read_take_id;
use mxf_op1a::items_stand_at_their_places;
use std::alloc::Global;
use std::marker::Model;
use take_disk::{Area, TakeDisk};
use take_layout::Place;

/// What a file says of its take.
#[derive(Clone, Copy, Debug, PartialEq, Eq)]
pub struct Summary {
    /// The take's identifier, as the header's metadata name it.
    pub take_id: [u8; 16],
    /// The number of its units.
    pub frames: u64,
    /// The file's length, in bytes.
    pub bytes: u64,
    /// The number of its partitions.
    pub partitions: u64,
}

/// What is kept of an OP1a file: where its units lie, and what it says of its take. It never holds a unit.
#[derive(Drop)]
pub struct Catalogue {
    places: Vec<Place>,
    take_id: [u8; 16],
    bytes: u64,
    partitions: u64,
}

impl Model for Catalogue {
    ghost use Rattle.mxf_reader.specs.Catalogues.{Contents, LieInside};

    ghost Value = { Contents };

    ghost view = { λ c. record { places = c.places.items; take_id = c.take_id; bytes = c.bytes; partitions = c.partitions } };

    ghost invariant = { λ c. LieInside (record { places = c.places.items; take_id = c.take_id; bytes = c.bytes; partitions = c.partitions }) };
}

impl Catalogue {
    /// Reads a take's file, which is accepted exactly where it is an OP1a file; else the first clause that it breaks is named,
    /// and where. No unit is read.
    pub fn read<D: TakeDisk>(alloc: Global, disk: &mut D) -> Result<Catalogue, CheckFault>
        ensures read { IfOk result (λ catalogue. (told : Disk) → D.told disk.old ≡ Some told
            → (units : List (List ℕ)) × IsCatalogueOf told.essence.reads units catalogue) }
        ensures bytes { IfOk result (λ catalogue. catalogue.bytes ≡ D.length_of disk.old Area.Essence) }

        ensures refused { IfErr result (λ fault. (told : Disk) → D.told disk.old ≡ Some told → BreaksBy told.essence.reads fault) }
        ensures stays { Stays (D.told disk.old) (D.told disk.new) (D.length_of disk.old) (D.length_of disk.new) }
        ensures time { Elapsed (D.moment disk.old) (D.moment disk.new) (D.images_since disk.old) (D.images_since disk.new)
            (D.made disk.old) (D.made disk.new) }
        ensures cause { HasCheckCause (D.fault_count disk.old) (D.fault_count disk.new) result }
    {
        items_stand_at_their_places();
        let file = walk(alloc, disk)?;
        if let Some(broken) = judge(alloc, disk, &file)? {
            return Err(CheckFault::NotOp1a {
                clause: broken.clause,
                at: broken.at,
            });
        }
        let take_id = read_take_id(alloc, disk, &file)?;
        let SeenFile {
            parts,
            elements,
            len,
            ..
        } = file;
        Ok(Catalogue {
            places: elements,
            take_id,
            bytes: len,
            partitions: parts.len() as u64,
        })
    }

    /// What the file says of its take.
    pub fn summary(&self) -> Summary
        ensures take { result.take_id ≡ self.now.take_id }
        ensures frames { result.frames ≡ length self.now.places }
        ensures bytes { result.bytes ≡ self.now.bytes }
        ensures partitions { result.partitions ≡ self.now.partitions }
    {
        Summary {
            take_id: self.take_id,
            frames: self.places.len() as u64,
            bytes: self.bytes,
            partitions: self.partitions,
        }
    }

    /// Where unit `n` lies, counted from 0. `Past` comes exactly where there are no more than `n` units.
    pub fn locate(&self, n: u64) -> Result<Place, Past>
        ensures place { IfOk result (λ place. slice_get self.now.places n ≡ Some place) }
        ensures inside { IfOk result (λ place. place.at + place.len ≤ self.now.bytes) }

        ensures past { IfErr result (λ past. (past.count ≡ length self.now.places) × (past.count ≤ n)) }
    {
        if n < self.places.len() as u64 {
            return Ok(self.places[n as usize]);
        }
        Err(Past {
            count: self.places.len() as u64,
        })
    }

    /// Reads unit `n`, counted from 0, from the disk whose file was read, or from one whose file goes on behind it.
    pub fn unit<D: TakeDisk>(
        &self,
        alloc: Global,
        disk: &mut D,
        n: u64,
    ) -> Result<Vec<u8>, UnitFault>
        requires { self.now.bytes ≤ D.length_of disk.old Area.Essence }
        ensures read { IfOk result (λ unit. (told : Disk) → D.told disk.old ≡ Some told
            → (units : List (List ℕ)) → IsCatalogueOf (take self.now.bytes told.essence.reads) units self.now
            → slice_get units n ≡ Some unit.items) }

        ensures stays { Stays (D.told disk.old) (D.told disk.new) (D.length_of disk.old) (D.length_of disk.new) }
        ensures time { Elapsed (D.moment disk.old) (D.moment disk.new) (D.images_since disk.old) (D.images_since disk.new)
            (D.made disk.old) (D.made disk.new) }
        ensures cause { HasUnitCause (length self.now.places) n (D.fault_count disk.old) (D.fault_count disk.new) result }
    {
        match self.locate(n) {
            Ok(place) => read_unit(alloc, disk, place),
            Err(past) => Err(UnitFault::Past { count: past.count }),
        }
    }
}

/// Reads the unit at a place.
fn read_unit<D: TakeDisk>(alloc: Global, disk: &mut D, place: Place) -> Result<Vec<u8>, UnitFault>
    requires { place.at + place.len ≤ D.length_of disk.old Area.Essence }
    ensures read { IfOk result (λ unit. (told : Disk) → D.told disk.old ≡ Some told
        → unit.items ≡ take place.len (drop place.at told.essence.reads)) }

    ensures stays { Stays (D.told disk.old) (D.told disk.new) (D.length_of disk.old) (D.length_of disk.new) }
    ensures time { Elapsed (D.moment disk.old) (D.moment disk.new) (D.images_since disk.old) (D.images_since disk.new)
        (D.made disk.old) (D.made disk.new) }
    ensures cause { (count n : ℕ) → n < count → HasUnitCause count n (D.fault_count disk.old) (D.fault_count disk.new) result }
{
    let Ok(mut bytes) = vec![in alloc; 0u8; place.len as usize] else {
        return Err(UnitFault::Memory);
    };
    match disk.read(Area::Essence, place.at, bytes.as_mut_slice()) {
        Ok(()) => Ok(bytes),
        Err(_) => Err(UnitFault::DiskFault {
            faults: disk.faults(),
        }),
    }
}

#[cfg(test)]
mod tests {
    use super::*;
    use std::test::Fail;
    use take_disk::MemoryDisk;

    #[test]
    fn a_unit_is_the_bytes_at_its_place(rt: HostRuntime) -> Result<(), Fail> {
        let mut disk = MemoryDisk::new(rt.alloc(), b"abcdefgh", b"", 64, 8, &[], None)?;
        let mut places = Vec::new(rt.alloc());
        places.push(Place {
            at: 3,
            stream: 5,
            len: 2,
        })?;
        let catalogue = Catalogue {
            places,
            take_id: [0; 16],
            bytes: 8,
            partitions: 0,
        };
        let unit = catalogue.unit(rt.alloc(), &mut disk, 0)?;
        assert_eq!(rt; unit.as_slice(), b"de".as_slice());
        Ok(())
    }
}
