//! The keys of partition packs, which say the partition's kind and status.

ghost use Rattle.std.specs.Prelude.{◌≡◌};
ghost use Rattle.mxf_names.specs.Keys.{kind_byte, status_byte, partition_key};

use crate::keys::PARTITION_KEY_START;

/// Which part of the file a partition is (SMPTE ST 377-1).
#[derive(Clone, Copy, Debug, PartialEq, Eq)]
pub enum PartitionKind {
    /// The first.
    Header,
    /// One between the first and the last.
    Body,
    /// The last.
    Footer,
}

/// Whether what a partition says of the file is final, and whether it is all there (SMPTE ST 377-1).
#[derive(Clone, Copy, Debug, PartialEq, Eq)]
pub enum PartitionStatus {
    /// Values may change, and some are missing.
    OpenIncomplete,
    /// Values are final, and some are missing.
    ClosedIncomplete,
    /// Values may change, and all are there.
    OpenComplete,
    /// Values are final, and all are there.
    ClosedComplete,
}

/// The key of the packs of partitions of a kind and a status.
pub fn partition_key(kind: PartitionKind, status: PartitionStatus) -> [u8; 16]
    ensures { result ≡ partition_key kind status }
{
    let mut key = [0; 16];
    key[..13].copy_from_slice(&PARTITION_KEY_START);
    key[13] = kind_byte(kind);
    key[14] = status_byte(status);
    key
}

fn kind_byte(kind: PartitionKind) -> u8
    ensures { result ≡ kind_byte kind }
{
    match kind {
        PartitionKind::Header => 2,
        PartitionKind::Body => 3,
        PartitionKind::Footer => 4,
    }
}

fn status_byte(status: PartitionStatus) -> u8
    ensures { result ≡ status_byte status }
{
    match status {
        PartitionStatus::OpenIncomplete => 1,
        PartitionStatus::ClosedIncomplete => 2,
        PartitionStatus::OpenComplete => 3,
        PartitionStatus::ClosedComplete => 4,
    }
}
