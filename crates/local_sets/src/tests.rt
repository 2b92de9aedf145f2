//! Rows worked out by hand from the rules of docs/FORMATS.md, "Local sets".

use crate::reading::read_item;
use crate::set::{Item, items_len, put_items, put_set};
use crate::value::Value;

const LABEL: [u8; 16] = [1, 2, 3, 4, 5, 6, 7, 8, 9, 10, 11, 12, 13, 14, 15, 16];

#[test]
fn each_kind_of_value_is_spelled_with_tag_and_length(rt: HostRuntime) {
    let cases: [(Value, &[u8]); 13] = [
        (Value::Byte(0x80), &[0x12, 0x34, 0, 1, 0x80]),
        (Value::Short(0x0103), &[0x12, 0x34, 0, 2, 1, 3]),
        (
            Value::Word(0x1501_1701),
            &[0x12, 0x34, 0, 4, 0x15, 1, 0x17, 1],
        ),
        (
            Value::Long(0x0102_0304_0506_0708),
            &[0x12, 0x34, 0, 8, 1, 2, 3, 4, 5, 6, 7, 8],
        ),
        (
            Value::Ratio(24000, 1001),
            &[0x12, 0x34, 0, 8, 0, 0, 0x5d, 0xc0, 0, 0, 3, 0xe9],
        ),
        (
            Value::Duration(None),
            &[0x12, 0x34, 0, 8, 255, 255, 255, 255, 255, 255, 255, 255],
        ),
        (
            Value::Duration(Some(3)),
            &[0x12, 0x34, 0, 8, 0, 0, 0, 0, 0, 0, 0, 3],
        ),
        (
            Value::Label(LABEL),
            &[
                0x12, 0x34, 0, 16, 1, 2, 3, 4, 5, 6, 7, 8, 9, 10, 11, 12, 13, 14, 15, 16,
            ],
        ),
        (
            Value::Umid([7; 32]),
            &[
                0x12, 0x34, 0, 32, 7, 7, 7, 7, 7, 7, 7, 7, 7, 7, 7, 7, 7, 7, 7, 7, 7, 7, 7, 7, 7,
                7, 7, 7, 7, 7, 7, 7, 7, 7, 7, 7,
            ],
        ),
        (
            Value::EmptyBatch,
            &[0x12, 0x34, 0, 8, 0, 0, 0, 0, 0, 0, 0, 16],
        ),
        (
            Value::BatchOfOne(LABEL),
            &[
                0x12, 0x34, 0, 24, 0, 0, 0, 1, 0, 0, 0, 16, 1, 2, 3, 4, 5, 6, 7, 8, 9, 10, 11, 12,
                13, 14, 15, 16,
            ],
        ),
        (
            Value::BatchOfTwo(LABEL, [9; 16]),
            &[
                0x12, 0x34, 0, 40, 0, 0, 0, 2, 0, 0, 0, 16, 1, 2, 3, 4, 5, 6, 7, 8, 9, 10, 11, 12,
                13, 14, 15, 16, 9, 9, 9, 9, 9, 9, 9, 9, 9, 9, 9, 9, 9, 9, 9, 9,
            ],
        ),
        (
            Value::Text(*b"ink and paper...", 3),
            &[0x12, 0x34, 0, 6, 0, b'i', 0, b'n', 0, b'k'],
        ),
    ];
    for (value, spelled) in cases {
        let items = [Item::new(0x1234, value)];
        let mut out = [0xee; 60];
        let end = put_items(&items, &mut out, 2);
        assert_eq!(rt; items_len(&items), spelled.len(), "bytes of {value:?}");
        assert_eq!(rt; end, 2 + spelled.len(), "end of {value:?}");
        assert_eq!(rt; &out[2..end], spelled, "bytes of {value:?}");
        assert_eq!(rt; &out[..2], &[0xee; 2][..], "bytes before {value:?}");
        assert_eq!(rt; &out[end..], &[0xee; 60][end..], "bytes behind {value:?}");
    }
}

#[test]
fn a_set_has_its_key_a_length_of_three_bytes_and_its_items(rt: HostRuntime) {
    let items = [
        Item::new(0x3f08, Value::Byte(0)),
        Item::new(0x3f07, Value::Word(1)),
    ];
    let mut out = [0xee; 36];
    let end = put_set(&LABEL, &items, &mut out, 1);
    assert_eq!(rt; end, 34, "the place behind the set");
    assert_eq!(rt;
        out,
        [
            0xee, 1, 2, 3, 4, 5, 6, 7, 8, 9, 10, 11, 12, 13, 14, 15, 16, 0x83, 0, 0, 13, 0x3f, 8,
            0, 1, 0, 0x3f, 7, 0, 4, 0, 0, 0, 1, 0xee, 0xee
        ],
        "the set between bytes that stay"
    );
}

#[test]
fn an_item_is_read_where_it_is_whole(rt: HostRuntime) {
    // Three items: of two bytes, of none, and of three of which two are there.
    let value = [
        0x12, 0x34, 0, 2, 7, 8, 0xff, 0xff, 0, 0, 0x3c, 0x0a, 0, 3, 1, 2,
    ];
    let cases: [(usize, Option<(u16, usize, usize)>); 6] = [
        (0, Some((0x1234, 4, 2))),
        (6, Some((0xffff, 10, 0))),
        (10, None),
        (4, None),
        (13, None),
        (16, None),
    ];
    for (at, answer) in cases {
        let item = read_item(&value, at.min(16));
        let read = item.map(|item| (item.tag, item.value_at, item.value_len));
        assert_eq!(rt; read, answer, "the item at {at}");
    }
}
