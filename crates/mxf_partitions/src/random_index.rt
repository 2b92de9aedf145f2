//! The file's last item, which names its partitions.

ghost use Rattle.std.specs.Prelude.{◌≡◌, ◌+◌, ◌*◌, ◌≤◌, length};
ghost use Rattle.std.specs.List.{flat_map};
ghost use Rattle.rec_bytes.specs.Places.{with_bytes};
ghost use Rattle.klv.specs.declared.head.TheConstants.{SET_HEAD_LEN};
ghost use Rattle.mxf_partitions.specs.declared.random_index.TheConstants.{PACK_ENTRY_LEN, PACK_END_LEN};
ghost use Rattle.mxf_partitions.specs.RandomIndex.{random_index_pack, random_index_head, random_index_end, entry_bytes};

use klv::{Form, SET_HEAD_LEN, put_klv_head_at};
use mxf_names::RANDOM_INDEX_KEY;
use rec_bytes::{put_u32, put_u64};

/// Bytes of an entry: the number of a stream, and a place.
pub const PACK_ENTRY_LEN: usize = 4 + 8;

/// Bytes of the length at the end.
pub const PACK_END_LEN: usize = 4;

/// Most entries of a random index pack whose length has three bytes.
pub const MAX_ENTRIES: u32 = 1_398_100;

/// A partition as the random index pack names it (SMPTE ST 377-1).
#[derive(Clone, Copy, Debug, PartialEq, Eq)]
pub struct PackEntry {
    /// Number of the essence stream in the partition, 0 where there is none.
    pub body_sid: u32,
    /// Place of the partition's pack.
    pub at: u64,
}

/// Bytes of a random index pack with so many entries.
pub fn random_index_len(count: u32) -> usize
    ensures { result ≡ SET_HEAD_LEN + PACK_ENTRY_LEN * count + PACK_END_LEN }
{
    SET_HEAD_LEN + PACK_ENTRY_LEN * (count as usize) + PACK_END_LEN
}

/// Writes a random index pack at the front, and answers how many bytes it has.
pub fn put_random_index(entries: &[PackEntry], out: &mut [u8]) -> usize
    requires few { length entries.now ≤ MAX_ENTRIES }
    requires room { SET_HEAD_LEN + PACK_ENTRY_LEN * length entries.now + PACK_END_LEN ≤ length out.old }
    ensures count { result ≡ SET_HEAD_LEN + PACK_ENTRY_LEN * length entries.now + PACK_END_LEN }
    ensures written { out.new ≡ with_bytes out.old 0 (random_index_pack entries.now) }
{
    let count = entries.len() as u32;
    let first = put_random_index_head(count, out, 0);
    let end = put_entries(entries, out, first);
    put_random_index_end(count, out, end)
}

fn put_entries(entries: &[PackEntry], out: &mut [u8], at: usize) -> usize
    requires room { at + PACK_ENTRY_LEN * length entries.now ≤ length out.old }
    ensures behind { result ≡ at + PACK_ENTRY_LEN * length entries.now }
    ensures written { out.new ≡ with_bytes out.old at (flat_map entry_bytes entries.now) }
{
    let mut end = at;
    'entries: for k in 0..entries.len() {
        end = put_pack_entry(&entries[k], out, end);
    }
    end
}

/// Writes what stands before the entries of a random index pack, at a place, and answers the place behind.
pub fn put_random_index_head(count: u32, out: &mut [u8], at: usize) -> usize
    requires few { count ≤ MAX_ENTRIES }
    requires room { at + SET_HEAD_LEN ≤ length out.old }
    ensures behind { result ≡ at + SET_HEAD_LEN }
    ensures written { out.new ≡ with_bytes out.old at (random_index_head count) }
{
    let len = PACK_ENTRY_LEN * (count as usize) + PACK_END_LEN;
    put_klv_head_at(&RANDOM_INDEX_KEY, len as u64, Form::Three, out, at)
}

/// Writes an entry of a random index pack at a place, and answers the place behind.
pub fn put_pack_entry(entry: &PackEntry, out: &mut [u8], at: usize) -> usize
    requires room { at + PACK_ENTRY_LEN ≤ length out.old }
    ensures behind { result ≡ at + PACK_ENTRY_LEN }
    ensures written { out.new ≡ with_bytes out.old at (entry_bytes entry.now) }
{
    put_u32(out, at, entry.body_sid);
    put_u64(out, at + 4, entry.at);
    at + PACK_ENTRY_LEN
}

/// Writes what stands behind the entries of a random index pack, at a place, and answers the place behind.
pub fn put_random_index_end(count: u32, out: &mut [u8], at: usize) -> usize
    requires few { count ≤ MAX_ENTRIES }
    requires room { at + PACK_END_LEN ≤ length out.old }
    ensures behind { result ≡ at + PACK_END_LEN }
    ensures written { out.new ≡ with_bytes out.old at (random_index_end count) }
{
    put_u32(out, at, random_index_len(count) as u32);
    at + PACK_END_LEN
}

#[cfg(test)]
mod tests {
    use super::*;
    use crate::examples::INDEX_BYTES;

    #[test]
    fn entries_stand_in_order_before_the_length_and_nothing_behind(rt: HostRuntime) {
        let entries = [
            PackEntry { body_sid: 0, at: 0 },
            PackEntry {
                body_sid: 1,
                at: 3289,
            },
            PackEntry {
                body_sid: 0,
                at: 3635,
            },
        ];
        let mut out = [0xee; 62];
        let mut want = [0xee; 62];
        want[..60].copy_from_slice(&INDEX_BYTES);
        assert_eq!(rt; random_index_len(3), 60, "bytes of three entries");
        assert_eq!(rt; MAX_ENTRIES, 1_398_100, "most entries");
        assert_eq!(rt;
            put_random_index(&entries, &mut out),
            60,
            "bytes of the pack"
        );
        assert_eq!(rt; out, want, "the pack, and the bytes behind it");
    }
}
