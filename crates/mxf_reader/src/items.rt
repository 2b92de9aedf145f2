//! The walk over a take's file: its items' heads, and the fields of its packs.

ghost use Rattle.std.specs.Prelude.{◌≡◌, ◌≤◌, ◌<◌, ◌+◌, ◌-◌, ℕ, min, Some, length, take, drop, IfOk, IfErr};
ghost use Rattle.klv.specs.Items.{Item};
ghost use Rattle.klv.specs.declared.head.TheConstants.{MAX_HEAD_LEN};
ghost use Rattle.mxf_op1a.specs.Contents.{content_of};
ghost use Rattle.mxf_partitions.specs.Refusals.{IsPackFront};
ghost use Rattle.mxf_partitions.specs.declared.reading.TheConstants.{PACK_FRONT_LEN};
ghost use Rattle.rec_bytes.specs.Faults.{HasCause};
ghost use Rattle.take_disk.specs.Calls.{Stays};
ghost use Rattle.take_disk.specs.Held.{Disk};
ghost use Rattle.take_disk.specs.declared.area.Area.{Area};
ghost use Rattle.take_disk.specs.Elapsed.{Elapsed};
ghost use Rattle.mxf_reader.specs.Calls.{HasReadCause};
ghost use Rattle.mxf_reader.specs.inner.Inside.{IsSeenInside};
ghost use Rattle.mxf_reader.specs.inner.Marks.{kind_of};
ghost use Rattle.mxf_reader.specs.inner.Walks.{AreWalked, IsFound, IsKindAt, IsMarkBy, IsStep};

use crate::fault::CheckFault;
use crate::mark::{Kind, Mark, has_pack_start, is_picture_key, kind_of_key};
use crate::seen::{Seen, keep, nothing};
use klv::{MAX_HEAD_LEN, read_head, refusals_are_exact};
use mxf_partitions::{PACK_FRONT_LEN, read_pack};
use rec_bytes::Failed;
use std::alloc::Global;
use take_disk::{Area, TakeDisk};

/// What the walk leaves.
#[derive(Debug, Drop)]
pub struct Walked {
    /// What is kept of the items.
    pub seen: Seen,
    /// Where the items end.
    pub stop: u64,
}

/// The bytes from a place on that a head can have.
fn read_front<D: TakeDisk>(disk: &mut D, at: u64, front: &mut [u8; 25]) -> Result<usize, Failed>
    requires { at ≤ D.length_of disk.old Area.Essence }
    ensures count { IfOk result (λ count. count ≡ min (D.length_of disk.old Area.Essence - at) MAX_HEAD_LEN) }
    ensures read { IfOk result (λ count. (told : Disk) → D.told disk.old ≡ Some told
        → take count front.new ≡ take count (drop at told.essence.reads)) }
    ensures stays { Stays (D.told disk.old) (D.told disk.new) (D.length_of disk.old) (D.length_of disk.new) }
    ensures time { Elapsed (D.moment disk.old) (D.moment disk.new) (D.images_since disk.old) (D.images_since disk.new)
        (D.made disk.old) (D.made disk.new) }
    ensures cause { HasCause (D.fault_count disk.old) (D.fault_count disk.new) result }
{
    let count = (disk.len(Area::Essence) - at).min(MAX_HEAD_LEN as u64) as usize;
    disk.read(Area::Essence, at, &mut front[..count])?;
    Ok(count)
}

/// The bytes with which a value begins, as many as say what a partition pack says.
fn read_fields<D: TakeDisk>(
    disk: &mut D,
    value_at: u64,
    value_len: u64,
    front: &mut [u8; 104],
) -> Result<usize, Failed>
    requires { value_at + value_len ≤ D.length_of disk.old Area.Essence }
    ensures count { IfOk result (λ count. count ≡ min value_len PACK_FRONT_LEN) }
    ensures read { IfOk result (λ count. (told : Disk) → D.told disk.old ≡ Some told
        → take count front.new ≡ take count (drop value_at told.essence.reads)) }
    ensures stays { Stays (D.told disk.old) (D.told disk.new) (D.length_of disk.old) (D.length_of disk.new) }
    ensures time { Elapsed (D.moment disk.old) (D.moment disk.new) (D.images_since disk.old) (D.images_since disk.new)
        (D.made disk.old) (D.made disk.new) }
    ensures cause { HasCause (D.fault_count disk.old) (D.fault_count disk.new) result }
{
    let count = value_len.min(PACK_FRONT_LEN as u64) as usize;
    disk.read(Area::Essence, value_at, &mut front[..count])?;
    Ok(count)
}

/// What an item is, by its key, the length of its value and the bytes with which the value begins.
fn kind_by(key: &[u8; 16], value_len: u64, front: &[u8]) -> Kind
    requires { min value_len PACK_FRONT_LEN ≤ length front.now }
    ensures { (item : Item) → IsPackFront item key.now value_len front.now → result ≡ kind_of (content_of item) }
{
    match read_pack(key, value_len, front) {
        Ok(pack) => Kind::PartitionPack(pack),
        Err(_) => kind_of_key(key),
    }
}

/// What an item is, by its key and the place of its value. Only of a pack is the value read.
fn kind_at<D: TakeDisk>(
    disk: &mut D,
    key: &[u8; 16],
    value_at: u64,
    value_len: u64,
) -> Result<Kind, Failed>
    requires { value_at + value_len ≤ D.length_of disk.old Area.Essence }
    ensures kind { IfOk result (λ kind. (told : Disk) (at : ℕ) → D.told disk.old ≡ Some told
        → IsKindAt told.essence.reads at key.now value_at value_len kind) }
    ensures stays { Stays (D.told disk.old) (D.told disk.new) (D.length_of disk.old) (D.length_of disk.new) }
    ensures time { Elapsed (D.moment disk.old) (D.moment disk.new) (D.images_since disk.old) (D.images_since disk.new)
        (D.made disk.old) (D.made disk.new) }
    ensures cause { HasCause (D.fault_count disk.old) (D.fault_count disk.new) result }
{
    if !has_pack_start(key) {
        return Ok(kind_of_key(key));
    }
    let mut front = [0u8; PACK_FRONT_LEN];
    let count = read_fields(disk, value_at, value_len, &mut front)?;
    Ok(kind_by(key, value_len, &front[..count]))
}

/// The key with which bytes begin.
fn key_of(front: &[u8; 25]) -> [u8; 16]
    ensures { result ≡ take 16 front.now }
{
    let mut key = [0u8; 16];
    key.copy_from_slice(&front[..16]);
    key
}

/// What is kept of an item, by its key and where its value is.
fn mark_by<D: TakeDisk>(
    disk: &mut D,
    at: u64,
    key: &[u8; 16],
    value_at: u64,
    value_len: u64,
) -> Result<Mark, Failed>
    requires { value_at + value_len ≤ D.length_of disk.old Area.Essence }
    ensures places { IfOk result (λ m. (m.at ≡ at) × (m.value_at ≡ value_at) × (m.value_len ≡ value_len)) }
    ensures mark { IfOk result (λ m. (told : Disk) → D.told disk.old ≡ Some told
        → IsMarkBy told.essence.reads at key.now value_at value_len m) }
    ensures stays { Stays (D.told disk.old) (D.told disk.new) (D.length_of disk.old) (D.length_of disk.new) }
    ensures time { Elapsed (D.moment disk.old) (D.moment disk.new) (D.images_since disk.old) (D.images_since disk.new)
        (D.made disk.old) (D.made disk.new) }
    ensures cause { HasCause (D.fault_count disk.old) (D.fault_count disk.new) result }
{
    let kind = kind_at(disk, key, value_at, value_len)?;
    Ok(Mark {
        at,
        kind,
        is_picture: is_picture_key(key),
        value_at,
        value_len,
    })
}

/// What is kept of the item at a place, none where no item stands there.
fn mark_at<D: TakeDisk>(disk: &mut D, at: u64) -> Result<Option<Mark>, Failed>
    requires { at < D.length_of disk.old Area.Essence }
    ensures step { IfOk result (IsStep at (D.length_of disk.old Area.Essence)) }
    ensures found { IfOk result (λ found. (told : Disk) → D.told disk.old ≡ Some told → IsFound told.essence.reads at found) }
    ensures stays { Stays (D.told disk.old) (D.told disk.new) (D.length_of disk.old) (D.length_of disk.new) }
    ensures time { Elapsed (D.moment disk.old) (D.moment disk.new) (D.images_since disk.old) (D.images_since disk.new)
        (D.made disk.old) (D.made disk.new) }
    ensures cause { HasCause (D.fault_count disk.old) (D.fault_count disk.new) result }
{
    refusals_are_exact();
    let left = disk.len(Area::Essence) - at;
    let mut front = [0u8; MAX_HEAD_LEN];
    let count = read_front(disk, at, &mut front)?;
    match read_head(&front[..count], at, left) {
        Err(_) => Ok(None),
        Ok(head) => {
            let mark = mark_by(
                disk,
                at,
                &key_of(&front),
                at + head.head_len,
                head.value_len,
            )?;
            Ok(Some(mark))
        }
    }
}

/// Walks over the heads of a file's items.
pub(crate) fn walk_items<D: TakeDisk>(alloc: Global, disk: &mut D) -> Result<Walked, CheckFault>
    ensures walked { IfOk result (λ w. (told : Disk) → D.told disk.old ≡ Some told → AreWalked told.essence.reads w) }
    ensures within { IfOk result (λ w. w.stop ≤ D.length_of disk.old Area.Essence) }
    ensures inside { IfOk result (λ w. IsSeenInside w.stop w.seen) }

    ensures cause { HasReadCause (D.fault_count disk.old) (D.fault_count disk.new) result }
    ensures stays { Stays (D.told disk.old) (D.told disk.new) (D.length_of disk.old) (D.length_of disk.new) }
    ensures time { Elapsed (D.moment disk.old) (D.moment disk.new) (D.images_since disk.old) (D.images_since disk.new)
        (D.made disk.old) (D.made disk.new) }
{
    let mut seen = nothing(alloc);
    let mut at = 0u64;
    while at < disk.len(Area::Essence) {
        let found = match mark_at(disk, at) {
            Ok(found) => found,
            Err(_) => {
                return Err(CheckFault::DiskFault {
                    faults: disk.faults(),
                });
            }
        };
        match found {
            None => return Ok(Walked { seen, stop: at }),
            Some(m) => match keep(&mut seen, &m) {
                Ok(()) => at = m.value_at + m.value_len,
                Err(_) => return Err(CheckFault::Memory),
            },
        }
    }
    Ok(Walked { seen, stop: at })
}
