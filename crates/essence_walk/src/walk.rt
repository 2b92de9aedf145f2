//! The walk over the essence of a take, up to the length that a mark says.

ghost use Rattle.std.specs.Prelude.{◌≡◌, ◌≤◌, ◌<◌, ◌+◌, ◌-◌, ℕ, true, false, Some, None, [], length, take, min, All, IfOk, IfErr};
ghost use Rattle.rec_bytes.specs.Faults.{HasCause};
ghost use Rattle.rec_bytes.specs.Views.{view};
ghost use Rattle.take_core.specs.declared.mark.Mark.{Mark};
ghost use Rattle.take_layout.specs.declared.place.Place.{Place};
ghost use Rattle.take_disk.specs.Calls.{IfTold, Stays};
ghost use Rattle.take_disk.specs.Held.{Disk};
ghost use Rattle.take_disk.specs.declared.area.Area.{Area};
ghost use Rattle.take_disk.specs.Elapsed.{Elapsed};
ghost use Rattle.essence_walk.specs.Essences.{IsBroken, NamesPlaces};
ghost use Rattle.essence_walk.specs.Rests.{Rests};
ghost use Rattle.essence_walk.specs.Walks.{HasWalkCause, IfDamaged, LieInside};
ghost use Rattle.essence_walk.specs.inner.Looks.{Begins, BeginsPlaces, EndsBy, Fills, HasRoom, NoMore};

use crate::ends::{has_end, has_head};
use crate::fault::{ESSENCE_AREA, WalkFault};
use crate::look::find_next;
use rec_bytes::{Config, Failed};
use std::alloc::Global;
use take_core::Mark;
use take_disk::{Area, TakeDisk};
use take_layout::{GrowingFile, TakeLayout, files_are_one, growing_begins, units_lie};

/// Bytes of a unit that a look may ask for.
const UNIT_FRONT: u64 = 1 << 16;

/// Finds where the units lie that a mark names in the essence: exactly where it names units, and else it says where the
/// essence is damaged. No unit is read, and memory is taken before anything is.
pub fn walk_essence<L: TakeLayout, D: TakeDisk>(
    alloc: Global,
    disk: &mut D,
    cfg: &Config,
    mark: Mark,
) -> Result<GrowingFile<L>, WalkFault>
    ensures named { IfOk result (λ file. IfTold (D.told disk.old)
        (λ told. NamesPlaces L.TakeLayout (view cfg.now) mark told.essence.reads file.places)) }
    ensures inside { IfOk result (LieInside L.TakeLayout (view cfg.now) mark (D.length_of disk.old Area.Essence)) }

    ensures refused { IfErr result (λ fault. IfTold (D.told disk.old)
        (λ told. IfDamaged L.TakeLayout (view cfg.now) mark told.essence.reads fault)) }
    ensures stays { Stays (D.told disk.old) (D.told disk.new) (D.length_of disk.old) (D.length_of disk.new) }
    ensures rests { Rests D.TakeDisk disk.old disk.new }
    ensures time { Elapsed (D.moment disk.old) (D.moment disk.new) (D.images_since disk.old) (D.images_since disk.new)
        (D.made disk.old) (D.made disk.new) }
    ensures cause { HasWalkCause (D.fault_count disk.old) (D.fault_count disk.new) result }
{
    let len = disk.len(Area::Essence);
    if len < mark.length {
        return Err(damaged(len));
    }
    let mut file = GrowingFile::<L>::new(alloc, cfg);
    let most = mark.count.min(u64::from(cfg.max_frames));
    let room = buffer_len::<L>(cfg) as usize;
    if file.reserve(most as usize).is_err() {
        return Err(WalkFault::Memory);
    }
    let Ok(mut found) = vec![in alloc; 0u8; room] else {
        return Err(WalkFault::Memory);
    };
    let Ok(mut due) = vec![in alloc; 0u8; room] else {
        return Err(WalkFault::Memory);
    };
    match find_file(
        disk,
        &mut file,
        mark,
        found.as_mut_slice(),
        due.as_mut_slice(),
    ) {
        Err(_) => Err(WalkFault::DiskFault {
            faults: disk.faults(),
        }),
        Ok(Some(at)) => Err(damaged(at)),
        Ok(None) => {
            if mark.closed && len > mark.length {
                return Err(damaged(mark.length));
            }
            units_end(&file, mark.length);
            Ok(file)
        }
    }
}

/// The essence is damaged at a place.
fn damaged(at: u64) -> WalkFault
    ensures { result ≡ WalkFault.Damaged at ESSENCE_AREA }
{
    WalkFault::Damaged {
        at,
        other: ESSENCE_AREA,
    }
}

/// Bytes for a head, for any lead with what a look may ask for of its unit, and for any tail.
fn buffer_len<L: TakeLayout>(cfg: &Config) -> u64
    ensures { HasRoom L.TakeLayout (view cfg.now) result }
{
    cfg.ranges();
    (L::lead_room(cfg) + UNIT_FRONT)
        .max(L::tail_room(cfg))
        .max(L::head_len(cfg))
}

/// Shows that each unit ends where the file does, or before it. It does nothing when it runs.
fn units_end<L: TakeLayout>(file: &GrowingFile<L>, limit: u64)
    requires { EndsBy L.TakeLayout file.now.config file.now.places limit }
    ensures { All (λ (place : Place). place.at + place.len ≤ limit) file.now.places }
{
    units_lie::<L>();
    let _places = file.places();
}

/// Finds the units of the file that the mark says. The answer is the place where the essence breaks, none where it begins with
/// that file. The buffers are for what stands there and for what is due.
fn find_file<L: TakeLayout, D: TakeDisk>(
    disk: &mut D,
    file: &mut GrowingFile<L>,
    mark: Mark,
    found: &mut [u8],
    due: &mut [u8],
) -> Result<Option<u64>, Failed>
    requires none { file.old.places ≡ [] }
    requires room { min mark.count file.old.config.max_frames ≤ file.old.room }
    requires inside { mark.length ≤ D.length_of disk.old Area.Essence }
    requires found { HasRoom L.TakeLayout file.old.config (length found.old) }
    requires due { HasRoom L.TakeLayout file.old.config (length due.old) }
    ensures config { file.new.config ≡ file.old.config }
    ensures fills { IfOk result (λ broken. broken ≡ None → Fills L.TakeLayout file.new.config mark file.new.places) }
    ensures begins { IfOk result (λ broken. broken ≡ None → (told : Disk) → D.told disk.old ≡ Some told
        → BeginsPlaces L.TakeLayout file.new.config mark told.essence.reads file.new.places) }
    ensures broken { IfOk result (λ broken. (at : ℕ) → broken ≡ Some at → (told : Disk) → D.told disk.old ≡ Some told
        → IsBroken L.TakeLayout file.new.config mark told.essence.reads at) }

    ensures stays { Stays (D.told disk.old) (D.told disk.new) (D.length_of disk.old) (D.length_of disk.new) }
    ensures rests { Rests D.TakeDisk disk.old disk.new }
    ensures time { Elapsed (D.moment disk.old) (D.moment disk.new) (D.images_since disk.old) (D.images_since disk.new)
        (D.made disk.old) (D.made disk.new) }
    ensures cause { HasCause (D.fault_count disk.old) (D.fault_count disk.new) result }
{
    files_are_one::<L>();
    growing_begins::<L>();
    units_lie::<L>();
    file.config().ranges();
    if !has_head::<L, D>(disk, file.config(), mark.length, found, due)? {
        return Ok(Some(0));
    }
    if !find_units(disk, file, mark, found, due)? {
        return Ok(Some(file.len()));
    }
    if !has_end(disk, file, mark, found, due)? {
        return Ok(Some(file.len()));
    }
    Ok(None)
}

/// Finds as many units as the mark says.
fn find_units<L: TakeLayout, D: TakeDisk>(
    disk: &mut D,
    file: &mut GrowingFile<L>,
    mark: Mark,
    found: &mut [u8],
    due: &mut [u8],
) -> Result<bool, Failed>
    requires none { file.old.places ≡ [] }
    requires room { min mark.count file.old.config.max_frames ≤ file.old.room }
    requires ends { EndsBy L.TakeLayout file.old.config file.old.places mark.length }
    requires inside { mark.length ≤ D.length_of disk.old Area.Essence }
    requires found { HasRoom L.TakeLayout file.old.config (length found.old) }
    requires due { HasRoom L.TakeLayout file.old.config (length due.old) }
    ensures config { file.new.config ≡ file.old.config }
    ensures ends { EndsBy L.TakeLayout file.new.config file.new.places mark.length }
    ensures whole { IfOk result (λ whole. whole ≡ true → mark.count ≡ length file.new.places) }
    ensures less { IfOk result (λ whole. whole ≡ false → length file.new.places < mark.count) }
    ensures begins { IfOk result (λ whole. (told : Disk) → D.told disk.old ≡ Some told
        → Begins L.TakeLayout file.new.config told.essence.reads file.old.places
        → Begins L.TakeLayout file.new.config told.essence.reads file.new.places) }
    ensures none { IfOk result (λ whole. whole ≡ false → (told : Disk) → D.told disk.old ≡ Some told
        → Begins L.TakeLayout file.new.config told.essence.reads file.old.places
        → NoMore L.TakeLayout file.new.config mark told.essence.reads file.new.places) }

    ensures stays { Stays (D.told disk.old) (D.told disk.new) (D.length_of disk.old) (D.length_of disk.new) }
    ensures rests { Rests D.TakeDisk disk.old disk.new }
    ensures time { Elapsed (D.moment disk.old) (D.moment disk.new) (D.images_since disk.old) (D.images_since disk.new)
        (D.made disk.old) (D.made disk.new) }
    ensures cause { HasCause (D.fault_count disk.old) (D.fault_count disk.new) result }
{
    files_are_one::<L>();
    growing_begins::<L>();
    units_lie::<L>();
    file.config().ranges();
    let most = mark.count.min(u64::from(file.config().max_frames));
    'units: while (file.places().len() as u64) < most {
        if !find_next(disk, file, mark.length, found, due)? {
            return Ok(false);
        }
    }
    Ok(most == mark.count)
}
