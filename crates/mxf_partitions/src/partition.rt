//! The item with which a partition begins.

ghost use Rattle.std.specs.Prelude.{[], ◌∷◌, ◌≡◌, ◌+◌, ◌≤◌, ◌++◌, length};
ghost use Rattle.byteorder.specs.Endian.{big_bytes};
ghost use Rattle.rec_bytes.specs.Places.{with_bytes};
ghost use Rattle.mxf_partitions.specs.Partitions.{label_batch, partition_pack};
ghost use Rattle.mxf_partitions.specs.declared.partition.TheConstants.{VERSION_LEN, PLACES_LEN, SIZES_LEN, BODY_LEN, LABEL_LEN, BATCH_HEAD_LEN};

use klv::{Form, SET_HEAD_LEN, put_klv_head_at};
use mxf_names::{PartitionKind, PartitionStatus, partition_key};
use rec_bytes::{put_bytes, put_u16, put_u32, put_u64};

/// Bytes of the versions and the alignment.
const VERSION_LEN: usize = 2 + 2 + 4;

/// Bytes of the places of three packs.
const PLACES_LEN: usize = 8 + 8 + 8;

/// Bytes of the sizes of metadata and index tables, and of the number of their stream.
const SIZES_LEN: usize = 8 + 8 + 4;

/// Bytes of the place in the essence stream, and of that stream's number.
const BODY_LEN: usize = 8 + 4;

/// Bytes of what stands before the labels: how many there are, and the bytes of each.
const BATCH_HEAD_LEN: usize = 4 + 4;

/// Bytes of a label.
pub const LABEL_LEN: usize = 16;

/// Bytes of a partition pack's value without its labels of essence containers.
pub const PACK_FIELDS_LEN: usize = VERSION_LEN
    + PLACES_LEN
    + SIZES_LEN
    + BODY_LEN
    + LABEL_LEN
    + BATCH_HEAD_LEN;

/// Bytes of the value of a partition pack with one label.
const PACK_VALUE_LEN: usize = PACK_FIELDS_LEN + LABEL_LEN;

/// Bytes of a partition pack with one label.
pub const PACK_LEN: usize = SET_HEAD_LEN + PACK_VALUE_LEN;

/// What a partition pack says (SMPTE ST 377-1). Places are counted from the file's first byte.
#[derive(Clone, Copy, Debug, PartialEq, Eq)]
pub struct Partition {
    /// Which part of the file the partition is.
    pub kind: PartitionKind,
    /// Whether its values are final and all there.
    pub status: PartitionStatus,
    /// Major version of the format.
    pub major: u16,
    /// Minor version of the format.
    pub minor: u16,
    /// KLV alignment grid, in bytes.
    pub kag: u32,
    /// Place of this pack.
    pub this: u64,
    /// Place of the pack before, 0 for the first.
    pub previous: u64,
    /// Place of the footer's pack, 0 where it isn't known.
    pub footer: u64,
    /// Bytes of the header metadata in this partition.
    pub header_bytes: u64,
    /// Bytes of the index tables in this partition.
    pub index_bytes: u64,
    /// Number of the stream of index tables, 0 where there are none.
    pub index_sid: u32,
    /// Bytes of the essence stream before this partition.
    pub body_offset: u64,
    /// Number of the essence stream, 0 where there is none.
    pub body_sid: u32,
    /// Label of the operational pattern.
    pub pattern: [u8; 16],
    /// How many labels of essence containers there are. Only one is written.
    pub label_count: u32,
    /// The first label of an essence container, 16 zero bytes where there is none.
    pub label: [u8; 16],
}

/// Writes the pack of a partition, which has one label.
pub fn put_partition(p: &Partition, out: &mut [u8; PACK_LEN])
    requires { p.now.label_count ≡ 1 }
    ensures { out.new ≡ partition_pack p.now }
{
    let key = partition_key(p.kind, p.status);
    let version_at = put_klv_head_at(&key, PACK_VALUE_LEN as u64, Form::Three, out, 0);
    let places_at = put_version(p, out, version_at);
    let sizes_at = put_places(p, out, places_at);
    let body_at = put_sizes(p, out, sizes_at);
    let pattern_at = put_body(p, out, body_at);
    let labels_at = put_pattern(p, out, pattern_at);
    put_labels(p, out, labels_at);
}

/// Writes the versions of the format and the alignment, and answers the place behind them.
fn put_version(p: &Partition, out: &mut [u8], at: usize) -> usize
    requires { at + VERSION_LEN ≤ length out.old }
    ensures behind { result ≡ at + VERSION_LEN }
    ensures written { out.new ≡ with_bytes out.old at (big_bytes 2 p.now.major ++ big_bytes 2 p.now.minor ++ big_bytes 4 p.now.kag) }
{
    put_u16(out, at, p.major);
    put_u16(out, at + 2, p.minor);
    put_u32(out, at + 4, p.kag);
    at + VERSION_LEN
}

/// Writes the places of packs, and answers the place behind them.
fn put_places(p: &Partition, out: &mut [u8], at: usize) -> usize
    requires { at + PLACES_LEN ≤ length out.old }
    ensures behind { result ≡ at + PLACES_LEN }
    ensures written { out.new ≡ with_bytes out.old at (big_bytes 8 p.now.this ++ big_bytes 8 p.now.previous ++ big_bytes 8 p.now.footer) }
{
    put_u64(out, at, p.this);
    put_u64(out, at + 8, p.previous);
    put_u64(out, at + 16, p.footer);
    at + PLACES_LEN
}

/// Writes the sizes of what stands behind the pack, and answers the place behind them.
fn put_sizes(p: &Partition, out: &mut [u8], at: usize) -> usize
    requires { at + SIZES_LEN ≤ length out.old }
    ensures behind { result ≡ at + SIZES_LEN }
    ensures written { out.new ≡ with_bytes out.old at (big_bytes 8 p.now.header_bytes ++ big_bytes 8 p.now.index_bytes ++ big_bytes 4 p.now.index_sid) }
{
    put_u64(out, at, p.header_bytes);
    put_u64(out, at + 8, p.index_bytes);
    put_u32(out, at + 16, p.index_sid);
    at + SIZES_LEN
}

/// Writes what the pack says of the essence, and answers the place behind it.
fn put_body(p: &Partition, out: &mut [u8], at: usize) -> usize
    requires { at + BODY_LEN ≤ length out.old }
    ensures behind { result ≡ at + BODY_LEN }
    ensures written { out.new ≡ with_bytes out.old at (big_bytes 8 p.now.body_offset ++ big_bytes 4 p.now.body_sid) }
{
    put_u64(out, at, p.body_offset);
    put_u32(out, at + 8, p.body_sid);
    at + BODY_LEN
}

/// Writes the label of the operational pattern, and answers the place behind it.
fn put_pattern(p: &Partition, out: &mut [u8], at: usize) -> usize
    requires { at + LABEL_LEN ≤ length out.old }
    ensures sized { length p.now.pattern ≡ LABEL_LEN }
    ensures behind { result ≡ at + LABEL_LEN }
    ensures written { out.new ≡ with_bytes out.old at p.now.pattern }
{
    put_bytes(out, at, &p.pattern);
    at + LABEL_LEN
}

/// Writes the batch of the one label.
fn put_labels(p: &Partition, out: &mut [u8], at: usize)
    requires { at + BATCH_HEAD_LEN + LABEL_LEN ≤ length out.old }
    ensures sized { length p.now.label ≡ LABEL_LEN }
    ensures written { out.new ≡ with_bytes out.old at (label_batch (p.now.label ∷ [])) }
{
    put_u32(out, at, 1);
    put_u32(out, at + 4, LABEL_LEN as u32);
    put_bytes(out, at + BATCH_HEAD_LEN, &p.label);
}

#[cfg(test)]
mod tests {
    use super::*;
    use crate::examples::{HEADER, changed};
    use crate::reading::read_partition;

    // Numbers of a file of three frames of 50 bytes, by hand: a second body partition at 3,561 = 0DE9h, whose
    // partition before is at 3,289 = 0CD9h, with a segment of 162 = A2h bytes behind 148 = 94h bytes of
    // essence; a footer at 3,635 = 0E33h with a segment of 173 = ADh bytes.
    #[test]
    fn each_field_stands_at_its_place(rt: HostRuntime) {
        let body = Partition {
            kind: PartitionKind::Body,
            this: 3561,
            previous: 3289,
            header_bytes: 0,
            index_bytes: 162,
            index_sid: 2,
            body_offset: 148,
            body_sid: 1,
            ..HEADER
        };
        let footer = Partition {
            kind: PartitionKind::Footer,
            status: PartitionStatus::ClosedComplete,
            this: 3635,
            previous: 3289,
            footer: 3635,
            index_bytes: 173,
            index_sid: 2,
            ..HEADER
        };
        let statuses = Partition {
            status: PartitionStatus::ClosedIncomplete,
            ..HEADER
        };
        let complete = Partition {
            status: PartitionStatus::OpenComplete,
            ..HEADER
        };
        let cases: [(&str, Partition, &[(usize, u8)]); 5] = [
            ("header", HEADER, &[]),
            (
                "body",
                body,
                &[
                    (13, 3),
                    (34, 0x0d),
                    (35, 0xe9),
                    (42, 0x0c),
                    (43, 0xd9),
                    (58, 0),
                    (59, 0),
                    (67, 0xa2),
                    (71, 2),
                    (79, 0x94),
                    (83, 1),
                ],
            ),
            (
                "footer",
                footer,
                &[
                    (13, 4),
                    (14, 4),
                    (34, 0x0e),
                    (35, 0x33),
                    (42, 0x0c),
                    (43, 0xd9),
                    (50, 0x0e),
                    (51, 0x33),
                    (67, 0xad),
                    (71, 2),
                ],
            ),
            ("closed incomplete", statuses, &[(14, 2)]),
            ("open complete", complete, &[(14, 3)]),
        ];
        for (name, partition, changes) in cases {
            let mut out = [0xee; 124];
            put_partition(&partition, &mut out);
            assert_eq!(rt; out, changed(changes), "{name}");
            assert_eq!(rt; read_partition(&out), Ok(partition), "{name}, read");
        }
    }
}
