//! One step of the walk: the unit behind those that were found.

ghost use Rattle.std.specs.Prelude.{◌≡◌, ◌≤◌, ◌<◌, ◌+◌, ◌-◌, ◌^◌, ℕ, true, false, Some, None, List, [], ◌∷◌, ◌++◌, length, drop, IfOk, IfSome};
ghost use Rattle.rec_bytes.specs.Faults.{HasCause};
ghost use Rattle.rec_bytes.specs.Views.{view};
ghost use Rattle.take_disk.specs.Calls.{Stays};
ghost use Rattle.take_disk.specs.Held.{Disk};
ghost use Rattle.take_disk.specs.declared.area.Area.{Area};
ghost use Rattle.take_disk.specs.Elapsed.{Elapsed};
ghost use Rattle.take_layout.specs.Takes.{AreUnits};
ghost use Rattle.essence_walk.specs.Rests.{Rests};
ghost use Rattle.essence_walk.specs.inner.Looks.{Begins, EndsBy, FindsNext, FitsIn, HasRoom, HoldsLead, NoNext};

use crate::bytes::{holds, read_on};
use rec_bytes::{Config, Failed};
use take_disk::{Area, TakeDisk};
use take_layout::{GrowingFile, TakeLayout, Walk, growing_begins, looks_decide, units_lie};

/// The length of the unit whose lead stands at a place, a lead of so many bytes, with a unit that ends within what is left;
/// none where a look shows that there is no such unit. Whether the lead's bytes are right is for the caller to compare: the
/// buffer holds them.
fn find_lead<L: TakeLayout, D: TakeDisk>(
    disk: &mut D,
    cfg: &Config,
    at: u64,
    lead_len: u64,
    left: u64,
    buffer: &mut [u8],
) -> Result<Option<u64>, Failed>
    requires inside { at + left ≤ D.length_of disk.old Area.Essence }
    requires small { at + left < 2 ^ 64 }
    requires lead { lead_len ≤ left }
    requires most { lead_len ≤ L.lead_most (view cfg.now) }
    requires room { HasRoom L.TakeLayout (view cfg.now) (length buffer.old) }
    ensures fits { IfOk result (λ found. IfSome found (FitsIn (L.is_unit (view cfg.now)) lead_len left)) }
    ensures finds { IfOk result (λ found. (told : Disk) → D.told disk.old ≡ Some told
        → FindsNext L.TakeLayout (view cfg.now) (drop at told.essence.reads) lead_len left found) }
    ensures holds { IfOk result (λ found. (told : Disk) → D.told disk.old ≡ Some told
        → IfSome found (HoldsLead (L.is_unit (view cfg.now)) (drop at told.essence.reads) at lead_len buffer.new)) }

    ensures stays { Stays (D.told disk.old) (D.told disk.new) (D.length_of disk.old) (D.length_of disk.new) }
    ensures rests { Rests D.TakeDisk disk.old disk.new }
    ensures time { Elapsed (D.moment disk.old) (D.moment disk.new) (D.images_since disk.old) (D.images_since disk.new)
        (D.made disk.old) (D.made disk.new) }
    ensures cause { HasCause (D.fault_count disk.old) (D.fault_count disk.new) result }
{
    looks_decide::<L>();
    let mut have = 0;
    let mut need = lead_len;
    'look: loop {
        read_on(disk, at, have, need, buffer)?;
        match L::walk(cfg, &buffer[..need as usize], at) {
            Walk::Lead { unit_at, unit_len } => {
                if unit_at == at + lead_len && unit_len <= left - lead_len {
                    return Ok(Some(unit_len));
                }
                return Ok(None);
            }
            Walk::More { need: more } => {
                if more > left {
                    return Ok(None);
                }
                have = need;
                need = more;
            }
            Walk::Broken { .. } => {
                return Ok(None);
            }
        }
    }
}

/// Bytes of the file of the units that were found, which ends at a place or before it.
pub(crate) fn found_len<L: TakeLayout>(file: &GrowingFile<L>, limit: u64) -> u64
    requires { EndsBy L.TakeLayout file.now.config file.now.places limit }
    ensures within { result ≤ limit }
    ensures ends { (units : List (List ℕ)) → file.now.places ≡ L.places_of file.now.config units
        → result ≡ length (L.growing file.now.config units) }
{
    let _places = file.places();
    file.len()
}

/// Bytes of the lead behind the units that were found; none where no lead of a unit is so long, or it passes what is left.
fn next_lead_len<L: TakeLayout>(file: &GrowingFile<L>, left: u64) -> Option<u64>
    requires few { length file.now.places < file.now.config.max_frames }
    ensures within { IfSome result (λ len. (len ≤ left) × (len ≤ L.lead_most file.now.config)) }
    ensures long { IfSome result (λ len. (units : List (List ℕ)) (unit_len : ℕ) → file.now.places ≡ L.places_of file.now.config units
        → len ≡ length (L.lead file.now.config units unit_len)) }
    ensures none { result ≡ None → (units : List (List ℕ)) (unit : List ℕ) → file.now.places ≡ L.places_of file.now.config units
        → AreUnits (L.is_unit file.now.config) file.now.config.max_frames (units ++ unit ∷ [])
        → left < length (L.lead file.now.config units (length unit)) }
{
    file.config().ranges();
    let len = L::lead_len(file.config(), file.places());
    if len > left || len > L::lead_room(file.config()) {
        return None;
    }
    Some(len)
}

/// Writes the lead behind the units that were found, of a unit of a length.
fn put_next_lead<L: TakeLayout>(file: &GrowingFile<L>, unit_len: u64, out: &mut [u8])
    requires few { length file.now.places < file.now.config.max_frames }
    requires unit { (unit : List ℕ) × L.is_unit file.now.config unit × (unit_len ≡ length unit) }
    requires room { (units : List (List ℕ)) → file.now.places ≡ L.places_of file.now.config units
        → length out.old ≡ length (L.lead file.now.config units unit_len) }
    ensures { (units : List (List ℕ)) → file.now.places ≡ L.places_of file.now.config units
        → out.new ≡ L.lead file.now.config units unit_len }
{
    L::put_lead(file.config(), file.places(), unit_len, out);
}

/// Keeps one unit more, which ends at a place or before it.
fn add<L: TakeLayout>(file: &mut GrowingFile<L>, unit_len: u64, limit: u64)
    requires few { length file.old.places < file.old.config.max_frames }
    requires room { length file.old.places < file.old.room }
    requires unit { (unit : List ℕ) × L.is_unit file.old.config unit × (unit_len ≡ length unit) }
    requires within { (units : List (List ℕ)) → file.old.places ≡ L.places_of file.old.config units
        → length (L.growing file.old.config units) + (length (L.lead file.old.config units unit_len) + unit_len) ≤ limit }
    ensures config { file.new.config ≡ file.old.config }
    ensures room { file.new.room ≡ file.old.room }
    ensures counted { length file.new.places ≡ length file.old.places + 1 }
    ensures ends { EndsBy L.TakeLayout file.new.config file.new.places limit }
    ensures placed { (units : List (List ℕ)) (unit : List ℕ) → file.old.places ≡ L.places_of file.old.config units
        → unit_len ≡ length unit → file.new.places ≡ L.places_of file.old.config (units ++ unit ∷ []) }
{
    let _places = file.places();
    file.add_reserved(unit_len);
    let _end = file.len();
}

/// Finds one unit more, which ends at a place or before it. The buffers are for what stands there and for what is due.
pub(crate) fn find_next<L: TakeLayout, D: TakeDisk>(
    disk: &mut D,
    file: &mut GrowingFile<L>,
    limit: u64,
    found: &mut [u8],
    due: &mut [u8],
) -> Result<bool, Failed>
    requires few { length file.old.places < file.old.config.max_frames }
    requires room { length file.old.places < file.old.room }
    requires ends { EndsBy L.TakeLayout file.old.config file.old.places limit }
    requires inside { limit ≤ D.length_of disk.old Area.Essence }
    requires found { HasRoom L.TakeLayout file.old.config (length found.old) }
    requires due { HasRoom L.TakeLayout file.old.config (length due.old) }
    ensures config { file.new.config ≡ file.old.config }
    ensures room { file.new.room ≡ file.old.room }
    ensures counted { IfOk result (λ more. more ≡ true → length file.new.places ≡ length file.old.places + 1) }
    ensures ends { EndsBy L.TakeLayout file.new.config file.new.places limit }
    ensures begins { IfOk result (λ more. more ≡ true → (told : Disk) → D.told disk.old ≡ Some told
        → Begins L.TakeLayout file.old.config told.essence.reads file.old.places
        → Begins L.TakeLayout file.old.config told.essence.reads file.new.places) }
    ensures same { IfOk result (λ more. more ≡ false → file.new.places ≡ file.old.places) }
    ensures none { IfOk result (λ more. more ≡ false → (told : Disk) → D.told disk.old ≡ Some told
        → (units : List (List ℕ)) → file.old.places ≡ L.places_of file.old.config units
        → NoNext L.TakeLayout file.old.config units (drop (length (L.growing file.old.config units)) told.essence.reads)
        (limit - length (L.growing file.old.config units))) }

    ensures stays { Stays (D.told disk.old) (D.told disk.new) (D.length_of disk.old) (D.length_of disk.new) }
    ensures rests { Rests D.TakeDisk disk.old disk.new }
    ensures time { Elapsed (D.moment disk.old) (D.moment disk.new) (D.images_since disk.old) (D.images_since disk.new)
        (D.made disk.old) (D.made disk.new) }
    ensures cause { HasCause (D.fault_count disk.old) (D.fault_count disk.new) result }
{
    growing_begins::<L>();
    units_lie::<L>();
    looks_decide::<L>();
    let at = found_len(file, limit);
    let left = limit - at;
    let Some(lead_len) = next_lead_len(file, left) else {
        return Ok(false);
    };
    let Some(unit_len) = find_lead::<L, D>(disk, file.config(), at, lead_len, left, found)? else {
        return Ok(false);
    };
    let lead = &mut due[..lead_len as usize];
    put_next_lead(file, unit_len, lead);
    if !holds(found, lead) {
        return Ok(false);
    }
    add(file, unit_len, limit);
    Ok(true)
}
