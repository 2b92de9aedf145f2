//! Partition packs, read.

ghost use Rattle.std.specs.Prelude.{◌≡◌, ◌↔◌, ◌<◌, ◌≤◌, ◌+◌, min, Some, length, drop, IsOk, IfOk, IfErr};
ghost use Rattle.byteorder.specs.Endian.{big_number};
ghost use Rattle.klv.specs.Items.{Item};
ghost use Rattle.mxf_partitions.specs.Reads.{fields_of, has_pack_key, kind_of, label_of, pack_of, status_of};
ghost use Rattle.mxf_partitions.specs.Refusals.{IsPackFront, IsReadPack, RefusesFront, RefusesPack};
ghost use Rattle.mxf_partitions.specs.inner.Fronts.{front_size};
ghost use Rattle.mxf_partitions.specs.declared.partition.Partition.{Partition};
ghost use Rattle.mxf_partitions.specs.declared.partition.TheConstants.{LABEL_LEN, PACK_FIELDS_LEN};
ghost use Rattle.mxf_partitions.specs.declared.reading.TheConstants.{PACK_FRONT_LEN};

use crate::fault::PackFault;
use crate::fields::{label_at, part_of, u16_at, u32_at, u64_at};
use crate::partition::{LABEL_LEN, PACK_FIELDS_LEN, Partition};
use klv::{items_are_unique, read_klv};
use mxf_names::{PARTITION_KEY_START, PartitionKind, PartitionStatus};

/// Most bytes of a value that say what its partition pack says: the fields and the first label.
pub const PACK_FRONT_LEN: usize = PACK_FIELDS_LEN + LABEL_LEN;

/// Reads the partition pack with which bytes begin, whatever follows it.
pub fn read_partition(bytes: &[u8]) -> Result<Partition, PackFault>
    ensures accepted { IsOk result ↔ ((p : Partition) × IsReadPack bytes.now p) }
    ensures read { IfOk result (IsReadPack bytes.now) }

    ensures refused { IfErr result (RefusesFront bytes.now) }
{
    items_are_unique();
    match read_klv(bytes, 0) {
        Ok(klv) => read_pack(
            &klv.key,
            klv.value_len,
            part_of(bytes, klv.value_at, klv.end),
        ),
        Err(_) => Err(PackFault::NotPack),
    }
}

/// Reads a partition pack by its key, the length of its value and the bytes with which the value begins, for a reader
/// that doesn't hold values: `front` has the first 104 bytes of the value, or all where it has fewer.
pub fn read_pack(key: &[u8; 16], value_len: u64, front: &[u8]) -> Result<Partition, PackFault>
    requires { min value_len PACK_FRONT_LEN ≤ length front.now }
    ensures read { IfOk result (λ p. (item : Item) → IsPackFront item key.now value_len front.now → pack_of item ≡ Some p) }

    ensures refused { IfErr result (λ fault. (item : Item) → IsPackFront item key.now value_len front.now → RefusesPack item fault) }
{
    if !has_pack_key(key) {
        return Err(PackFault::NotPack);
    }
    if !has_pack_size(value_len, front) {
        return Err(PackFault::PackSize);
    }
    let Some(kind) = kind_of(key) else {
        return Err(PackFault::PackKind);
    };
    let Some(status) = status_of(key) else {
        return Err(PackFault::PackKind);
    };
    Ok(read_fields(kind, status, front))
}

/// A key is a partition pack's in all bytes but those of kind and status.
#[tactic(auto, unfolding(crate::specs::Reads::has_pack_key))]
fn has_pack_key(key: &[u8; 16]) -> bool
    ensures { result ≡ has_pack_key key.now }
{
    key[..13] == PARTITION_KEY_START[..] && key[15] == 0
}

/// The kind that a key names.
#[tactic(auto, unfolding(crate::specs::Reads::kind_of))]
fn kind_of(key: &[u8; 16]) -> Option<PartitionKind>
    ensures { result ≡ kind_of key.now }
{
    match key[13] {
        2 => Some(PartitionKind::Header),
        3 => Some(PartitionKind::Body),
        4 => Some(PartitionKind::Footer),
        _ => None,
    }
}

/// The status that a key names.
#[tactic(auto, unfolding(crate::specs::Reads::status_of))]
fn status_of(key: &[u8; 16]) -> Option<PartitionStatus>
    ensures { result ≡ status_of key.now }
{
    match key[14] {
        1 => Some(PartitionStatus::OpenIncomplete),
        2 => Some(PartitionStatus::ClosedIncomplete),
        3 => Some(PartitionStatus::OpenComplete),
        4 => Some(PartitionStatus::ClosedComplete),
        _ => None,
    }
}

/// A value of this length that begins so is the fields and its labels.
fn has_pack_size(value_len: u64, front: &[u8]) -> bool
    requires { min value_len PACK_FIELDS_LEN ≤ length front.now }
    ensures { result ≡ front_size value_len front.now }
{
    if value_len < PACK_FIELDS_LEN as u64 {
        return false;
    }
    let labels = u64::from(u32_at(front, 80)) * LABEL_LEN as u64;
    value_len == PACK_FIELDS_LEN as u64 + labels && u32_at(front, 84) == LABEL_LEN as u32
}

/// The fields with which a value begins.
fn read_fields(kind: PartitionKind, status: PartitionStatus, front: &[u8]) -> Partition
    requires fields { PACK_FIELDS_LEN ≤ length front.now }
    requires label { 0 < big_number 4 (drop 80 front.now) → PACK_FRONT_LEN ≤ length front.now }
    ensures { result ≡ fields_of kind status front.now }
{
    let label_count = u32_at(front, 80);
    Partition {
        kind,
        status,
        major: u16_at(front, 0),
        minor: u16_at(front, 2),
        kag: u32_at(front, 4),
        this: u64_at(front, 8),
        previous: u64_at(front, 16),
        footer: u64_at(front, 24),
        header_bytes: u64_at(front, 32),
        index_bytes: u64_at(front, 40),
        index_sid: u32_at(front, 48),
        body_offset: u64_at(front, 52),
        body_sid: u32_at(front, 60),
        pattern: label_at(front, 64),
        label_count,
        label: first_label(front, label_count),
    }
}

/// The first of so many labels, 16 zero bytes where there is none.
fn first_label(front: &[u8], count: u32) -> [u8; 16]
    requires { 0 < count → PACK_FRONT_LEN ≤ length front.now }
    ensures { result ≡ label_of count (drop PACK_FIELDS_LEN front.now) }
{
    if count == 0 {
        return [0; LABEL_LEN];
    }
    label_at(front, PACK_FIELDS_LEN)
}
