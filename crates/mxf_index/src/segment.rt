//! An index table segment.

ghost use Rattle.std.specs.Prelude.{◌≡◌, ◌+◌, ◌*◌, ◌^◌, ◌≤◌, ◌<◌, [], ◌∷◌, ◌++◌, length, map};
ghost use Rattle.std.specs.List.{flat_map};
ghost use Rattle.byteorder.specs.Endian.{big_bytes};
ghost use Rattle.local_sets.specs.Sets.{items_bytes};
ghost use Rattle.rec_bytes.specs.Places.{with_bytes};
ghost use Rattle.rec_bytes.specs.Views.{view};
ghost use Rattle.mxf_index.specs.Segments.{closing_items, delta_array, delta_of_picture, entry_array, entry_of_frame, frame_bytes, index_segment};
ghost use Rattle.mxf_index.specs.Segments.{opening_items, segment_id, segment_of};
ghost use Rattle.mxf_index.specs.declared.segment.TheConstants.{ARRAY_HEAD_LEN, CLOSING_LEN, DELTAS_LEN, OPENING_LEN};
ghost use Rattle.local_sets.specs.declared.value.TheConstants.{BATCH_HEAD_LEN};
ghost use Rattle.mxf_index.specs.declared.tags.TheConstants.{ENTRY_SIZE};

use crate::tags::*;
use klv::{Form, SET_HEAD_LEN, put_klv_head_at};
use local_sets::{BATCH_HEAD_LEN, ITEM_HEAD_LEN, Item, Value, put_items};
use mxf_names::{
    BODY_SID, ESSENCE_STREAM, INDEX_SEGMENT_KEY, INDEX_SID, INDEX_STREAM, INSTANCE_ID, Ids,
    edit_rate,
};
use rec_bytes::{Config, put_bytes, put_u8, put_u16, put_u32, put_u64};

/// Bytes of the eight items before the arrays.
pub(crate) const OPENING_LEN: usize = 8 * ITEM_HEAD_LEN + (16 + 8 + 8 + 8 + 4 + 4 + 4 + 1);

/// Bytes of an array before its entries.
const ARRAY_HEAD_LEN: usize = ITEM_HEAD_LEN + BATCH_HEAD_LEN;

/// Bytes of the array of one delta entry.
pub(crate) const DELTAS_LEN: usize = ARRAY_HEAD_LEN + DELTA_SIZE as usize;

/// Bytes of the item behind the arrays.
const CLOSING_LEN: usize = ITEM_HEAD_LEN + 1;

/// Bytes of a segment's items without its entries.
const ITEMS_LEN: usize = OPENING_LEN + DELTAS_LEN + ARRAY_HEAD_LEN + CLOSING_LEN;

/// Bytes of a segment without its entries.
pub const SEGMENT_LEN: usize = SET_HEAD_LEN + ITEMS_LEN;

/// Most frames of a segment: the length of the item that holds the entries has two bytes.
pub const MAX_ENTRIES: u32 = 5957;

/// Bytes of a segment with so many frames.
pub fn segment_len(entries: u32) -> usize
    ensures { result ≡ SEGMENT_LEN + ENTRY_SIZE * entries }
{
    SEGMENT_LEN + (ENTRY_SIZE as usize) * (entries as usize)
}

/// Writes at the front the segment of the frames from one on, whose elements stand at these stream offsets, and
/// answers how many bytes it has.
pub fn put_segment(cfg: &Config, ids: &Ids, first: u64, streams: &[u64], out: &mut [u8]) -> usize
    requires first { first < 2 ^ 63 }
    requires some { 1 ≤ length streams.now }
    requires few { length streams.now ≤ MAX_ENTRIES }
    requires room { SEGMENT_LEN + ENTRY_SIZE * length streams.now ≤ length out.old }
    ensures count { result ≡ SEGMENT_LEN + ENTRY_SIZE * length streams.now }
    ensures written { out.new ≡ with_bytes out.old 0 (index_segment (view cfg.now) ids.now first streams.now) }
{
    let len = ITEMS_LEN + ENTRY_SIZE as usize * streams.len();
    let opening_at = put_klv_head_at(&INDEX_SEGMENT_KEY, len as u64, Form::Three, out, 0);
    let deltas_at = put_opening(cfg, ids, first, streams, out, opening_at);
    let entries_at = put_deltas(out, deltas_at);
    let closing_at = put_entry_array(streams, out, entries_at);
    put_closing(out, closing_at)
}

/// Writes the items before the arrays, and answers the place behind them.
fn put_opening(
    cfg: &Config,
    ids: &Ids,
    first: u64,
    streams: &[u64],
    out: &mut [u8],
    at: usize,
) -> usize
    requires few { length streams.now ≤ MAX_ENTRIES }
    requires room { at + OPENING_LEN ≤ length out.old }
    ensures sized { length ids.now.index ≡ 8 }
    ensures behind { result ≡ at + OPENING_LEN }
    ensures written { out.new ≡ with_bytes out.old at (items_bytes (opening_items (segment_of (view cfg.now) ids.now first streams.now))) }
{
    put_items(&opening(cfg, ids, first, streams), out, at)
}

fn opening(cfg: &Config, ids: &Ids, first: u64, streams: &[u64]) -> [Item; 8]
    requires { length streams.now ≤ MAX_ENTRIES }
    ensures sized { length ids.now.index ≡ 8 }
    ensures items { result ≡ opening_items (segment_of (view cfg.now) ids.now first streams.now) }
{
    let id = segment_id(ids, first);
    let rate = edit_rate(cfg.rate);
    [
        Item::new(INSTANCE_ID, Value::Label(id)),
        Item::new(INDEX_EDIT_RATE, Value::Ratio(rate.0, rate.1)),
        Item::new(INDEX_START_POSITION, Value::Long(first)),
        Item::new(INDEX_DURATION, Value::Long(streams.len() as u64)),
        Item::new(EDIT_UNIT_BYTE_COUNT, Value::Word(0)),
        Item::new(INDEX_SID, Value::Word(INDEX_STREAM)),
        Item::new(BODY_SID, Value::Word(ESSENCE_STREAM)),
        Item::new(SLICE_COUNT, Value::Byte(0)),
    ]
}

fn segment_id(ids: &Ids, first: u64) -> [u8; 16]
    ensures sized { length ids.now.index ≡ 8 }
    ensures joined { result ≡ segment_id ids.now first }
{
    let mut id = [0; 16];
    put_bytes(&mut id, 0, &ids.index);
    put_u64(&mut id, 8, first);
    id
}

/// Writes the array of the one delta entry, and answers the place behind it.
fn put_deltas(out: &mut [u8], at: usize) -> usize
    requires room { at + DELTAS_LEN ≤ length out.old }
    ensures behind { result ≡ at + DELTAS_LEN }
    ensures written { out.new ≡ with_bytes out.old at (delta_array (delta_of_picture ∷ [])) }
{
    let entry_at = put_array_head(DELTA_ENTRIES, 1, DELTA_SIZE, out, at);
    put_u32(out, entry_at, 0);
    put_u16(out, entry_at + 4, 0);
    at + DELTAS_LEN
}

/// Writes the array of the entries, and answers the place behind it.
fn put_entry_array(streams: &[u64], out: &mut [u8], at: usize) -> usize
    requires few { length streams.now ≤ MAX_ENTRIES }
    requires room { at + ARRAY_HEAD_LEN + ENTRY_SIZE * length streams.now ≤ length out.old }
    ensures behind { result ≡ at + ARRAY_HEAD_LEN + ENTRY_SIZE * length streams.now }
    ensures written { out.new ≡ with_bytes out.old at (entry_array (map entry_of_frame streams.now)) }
{
    let first_at = put_array_head(INDEX_ENTRIES, streams.len() as u32, ENTRY_SIZE, out, at);
    put_entries(streams, out, first_at)
}

fn put_entries(streams: &[u64], out: &mut [u8], at: usize) -> usize
    requires room { at + ENTRY_SIZE * length streams.now ≤ length out.old }
    ensures behind { result ≡ at + ENTRY_SIZE * length streams.now }
    ensures written { out.new ≡ with_bytes out.old at (flat_map frame_bytes streams.now) }
{
    let mut end = at;
    'entries: for k in 0..streams.len() {
        end = put_entry(streams[k], out, end);
    }
    end
}

/// Writes what stands before the entries of an array, and answers the place behind it.
fn put_array_head(tag: u16, count: u32, size: u32, out: &mut [u8], at: usize) -> usize
    requires fits { BATCH_HEAD_LEN + size * count < 2 ^ 16 }
    requires room { at + ARRAY_HEAD_LEN ≤ length out.old }
    ensures behind { result ≡ at + ARRAY_HEAD_LEN }
    ensures written { out.new ≡ with_bytes out.old at
        (big_bytes 2 tag ++ big_bytes 2 (BATCH_HEAD_LEN + size * count) ++ big_bytes 4 count ++ big_bytes 4 size) }
{
    put_u16(out, at, tag);
    put_u16(out, at + 2, (BATCH_HEAD_LEN as u32 + size * count) as u16);
    put_u32(out, at + ITEM_HEAD_LEN, count);
    put_u32(out, at + ITEM_HEAD_LEN + 4, size);
    at + ARRAY_HEAD_LEN
}

/// Writes an entry, and answers the place behind it.
fn put_entry(stream: u64, out: &mut [u8], at: usize) -> usize
    requires room { at + ENTRY_SIZE ≤ length out.old }
    ensures behind { result ≡ at + ENTRY_SIZE }
    ensures written { out.new ≡ with_bytes out.old at (frame_bytes stream) }
{
    // The temporal offset and the key frame offset, a byte each.
    put_u16(out, at, 0);
    put_u8(out, at + 2, RANDOM_ACCESS);
    put_u64(out, at + 3, stream);
    at + ENTRY_SIZE as usize
}

/// Writes the item behind the arrays, and answers the place behind it.
fn put_closing(out: &mut [u8], at: usize) -> usize
    requires room { at + CLOSING_LEN ≤ length out.old }
    ensures behind { result ≡ at + CLOSING_LEN }
    ensures written { out.new ≡ with_bytes out.old at (items_bytes closing_items) }
{
    put_items(&[Item::new(POS_TABLE_COUNT, Value::Byte(0))], out, at)
}

#[cfg(test)]
mod tests {
    use super::*;
    use crate::example::BYTES;
    use rec_bytes::read_config;
    use std::process::Abort;

    // docs/FORMATS.md, "Configuration": the example.
    const SMALL: [u8; 64] = [
        0x00, 0x10, 0x00, 0x10, 0x00, 0x03, 0x01, 0x01, 0x01, 0x01, 0x00, 0x01, 0xe0, 0x00, 0x00,
        0x00, 0x10, 0x00, 0x00, 0xfa, 0x00, 0x00, 0x00, 0x64, 0x00, 0x08, 0x00, 0x00, 0x00, 0x00,
        0x00, 0x00, 0x00, 0x00, 0x00, 0x00, 0x00, 0x00, 0x00, 0x00, 0x00, 0x00, 0x00, 0x00, 0x00,
        0x00, 0x00, 0x00, 0x50, 0x52, 0x54, 0x4b, 0x00, 0x00, 0x00, 0x00, 0x00, 0x00, 0x00, 0x00,
        0x00, 0x00, 0x00, 0x00,
    ];

    const IDS: Ids = Ids {
        take: [0x11; 16],
        file: [0x22; 16],
        sets: [0x33; 8],
        index: [1, 2, 3, 4, 5, 6, 7, 8],
    };

    fn small(rt: &impl Abort) -> Config {
        read_config(&SMALL).expect(rt, "the example is a configuration")
    }

    #[test]
    fn the_example_is_written_and_nothing_behind_it(rt: HostRuntime) {
        let mut want = [0xee; 175];
        want[..173].copy_from_slice(&BYTES);
        let mut out = [0xee; 175];
        let count = put_segment(&small(&rt), &IDS, 0, &[0, 74, 148], &mut out);
        assert_eq!(rt; count, 173, "bytes of the segment");
        assert_eq!(rt; segment_len(3), 173, "bytes of three entries");
        assert_eq!(rt;
            (SEGMENT_LEN, MAX_ENTRIES),
            (140, 5957),
            "bytes without entries, most entries"
        );
        assert_eq!(rt; out, want, "the segment, and the bytes behind it");
    }

    // The example with another first frame and two entries.
    #[test]
    fn a_later_segment_names_its_first_frame_and_its_offsets(rt: HostRuntime) {
        let mut want = [0; 162];
        want[..135].copy_from_slice(&BYTES[..135]);
        want[19] = 142;
        want[38..40].copy_from_slice(&[1, 0x2c]);
        want[62..64].copy_from_slice(&[1, 0x2c]);
        want[75] = 2;
        want[126] = 30;
        want[130] = 2;
        want[135..146].copy_from_slice(&[0, 0, 0x80, 1, 2, 3, 4, 5, 6, 7, 8]);
        want[146..157].copy_from_slice(&[0, 0, 0x80, 9, 9, 9, 9, 9, 9, 9, 9]);
        want[157..].copy_from_slice(&[0x3f, 0x0e, 0, 1, 0]);
        let streams = [0x0102_0304_0506_0708, 0x0909_0909_0909_0909];
        let mut out = [0xee; 162];
        let count = put_segment(&small(&rt), &IDS, 0x012c, &streams, &mut out);
        assert_eq!(rt; count, 162, "bytes of the segment");
        assert_eq!(rt; segment_len(2), 162, "bytes of two entries");
        assert_eq!(rt; out, want, "the segment");
    }
}
