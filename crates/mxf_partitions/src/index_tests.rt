use crate::examples::{INDEX_BYTES, changed_index};
use crate::fault::PackFault;
use crate::fault::PackFault::{IndexPackOrder, IndexPackSize};
use crate::index_pieces::count_pack_entries;
use crate::index_reading::read_random_index;
use crate::random_index::PackEntry;
use mxf_names::{PRIMER_KEY, RANDOM_INDEX_KEY};

// docs/formats/mxf.md, "Random index pack": the example, also where its length is spelled 81h and one byte; then the whole
// has 58 = 3Ah bytes.
#[test]
fn entries_are_read_in_order_whatever_follows(rt: HostRuntime) -> Result<(), PackFault> {
    let want = [
        PackEntry { body_sid: 0, at: 0 },
        PackEntry {
            body_sid: 1,
            at: 3289,
        },
        PackEntry {
            body_sid: 0,
            at: 3635,
        },
    ];
    let mut bytes = [0xee; 64];
    bytes[..60].copy_from_slice(&INDEX_BYTES);
    let entries = read_random_index(rt.alloc(), &bytes)?;
    assert_eq!(rt; entries.as_slice(), &want[..], "three entries");

    bytes[16..18].copy_from_slice(&[0x81, 0x28]);
    bytes[18..57].copy_from_slice(&INDEX_BYTES[20..59]);
    bytes[57] = 0x3a;
    let entries = read_random_index(rt.alloc(), &bytes)?;
    assert_eq!(rt; entries.as_slice(), &want[..], "another form of the length");
    Ok(())
}

// The example with other bytes at some places, by hand: with two entries the whole has 48 = 30h bytes, with none 24 = 18h.
#[test]
fn a_random_index_pack_of_another_size_or_order_is_refused(rt: HostRuntime) {
    let cases: [(&str, &[(usize, u8)], Result<usize, PackFault>); 18] = [
        ("three entries", &[], Ok(3)),
        ("two entries", &[(19, 0x1c), (47, 0x30)], Ok(2)),
        ("no entry", &[(19, 4), (23, 0x18)], Ok(0)),
        ("a first place above 0", &[(31, 1)], Ok(3)),
        ("a last place above 2^63", &[(48, 0x80)], Ok(3)),
        ("another key", &[(15, 1)], Err(IndexPackSize)),
        ("a partition pack's key", &[(13, 2)], Err(IndexPackSize)),
        ("a length past the end", &[(19, 0x29)], Err(IndexPackSize)),
        (
            "half an entry",
            &[(19, 0x22), (53, 0x36)],
            Err(IndexPackSize),
        ),
        ("a value of three bytes", &[(19, 3)], Err(IndexPackSize)),
        ("no value", &[(19, 0)], Err(IndexPackSize)),
        ("a last word of 61", &[(59, 0x3d)], Err(IndexPackSize)),
        (
            "a last word of the value's length",
            &[(59, 0x28)],
            Err(IndexPackSize),
        ),
        (
            "the same place twice",
            &[(54, 0x0c), (55, 0xd9)],
            Err(IndexPackOrder { entry: 2 }),
        ),
        (
            "a second place of 0",
            &[(42, 0), (43, 0)],
            Err(IndexPackOrder { entry: 1 }),
        ),
        (
            "a second place above 2^63",
            &[(36, 0x80)],
            Err(IndexPackOrder { entry: 2 }),
        ),
        (
            "two places that fall",
            &[(24, 1), (54, 0), (55, 0)],
            Err(IndexPackOrder { entry: 1 }),
        ),
        (
            "a place that falls and another last word",
            &[(42, 0), (43, 0), (59, 0)],
            Err(IndexPackSize),
        ),
    ];
    for (name, changes, answer) in cases {
        let bytes = changed_index(changes);
        let read = read_random_index(rt.alloc(), &bytes).map(|entries| entries.len());
        assert_eq!(rt; read, answer, "{name}");
    }
    let cut = read_random_index(rt.alloc(), &INDEX_BYTES[..59]).map(|entries| entries.len());
    assert_eq!(rt; cut, Err(IndexPackSize), "59 bytes of 60");
    let none = read_random_index(rt.alloc(), &[]).map(|entries| entries.len());
    assert_eq!(rt; none, Err(IndexPackSize), "no bytes");
}

// By hand: 12 * 3 + 4 = 40 and 20 more before the value; 12 * 357,913,939 + 4 = 4,294,967,272, and 21 more where the length
// is spelled in five bytes, is 4,294,967,293, just below 2^32.
#[test]
fn entries_are_counted_by_the_last_word_alone(rt: HostRuntime) {
    let cases: [(u64, u64, u32, Option<u64>); 8] = [
        (40, 60, 60, Some(3)),
        (4, 24, 24, Some(0)),
        (
            4_294_967_272,
            4_294_967_293,
            4_294_967_293,
            Some(357_913_939),
        ),
        (40, 60, 61, None),
        (40, 4_294_967_356, 60, None),
        (39, 59, 59, None),
        (3, 23, 23, None),
        (u64::MAX, u64::MAX, u32::MAX, None),
    ];
    for (value_len, size, last, answer) in cases {
        assert_eq!(rt;
            count_pack_entries(&RANDOM_INDEX_KEY, value_len, size, last),
            answer,
            "{value_len} of {size}, last {last}"
        );
        assert_eq!(rt;
            count_pack_entries(&PRIMER_KEY, value_len, size, last),
            None,
            "another key"
        );
    }
}
