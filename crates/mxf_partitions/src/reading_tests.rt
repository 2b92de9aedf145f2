use crate::examples::{HEADER, HEADER_BYTES, changed};
use crate::fault::PackFault;
use crate::fault::PackFault::{NotPack, PackKind, PackSize};
use crate::partition::Partition;
use crate::reading::{PACK_FRONT_LEN, read_pack, read_partition};

// docs/formats/mxf.md, "Partition packs": the example with other bytes at some places.
#[test]
fn each_rule_is_tried_in_its_turn(rt: HostRuntime) {
    let cases: [(&str, &[(usize, u8)], PackFault); 17] = [
        ("another first byte", &[(0, 7)], NotPack),
        ("another byte before the kind", &[(12, 2)], NotPack),
        ("another last byte", &[(15, 1)], NotPack),
        ("a length of no form", &[(16, 0x80)], NotPack),
        ("a length past the end", &[(19, 0x69)], NotPack),
        ("another key and another size", &[(0, 7), (103, 2)], NotPack),
        ("another key and no kind", &[(0, 7), (13, 5)], NotPack),
        ("no label counted", &[(103, 0)], PackSize),
        ("two labels counted", &[(103, 2)], PackSize),
        ("a count past all bytes", &[(100, 0xff)], PackSize),
        ("labels of 17 bytes", &[(107, 17)], PackSize),
        ("a value one byte shorter", &[(19, 0x67)], PackSize),
        ("another size and no kind", &[(13, 5), (107, 17)], PackSize),
        ("the primer pack's kind", &[(13, 5)], PackKind),
        ("the random index pack's kind", &[(13, 0x11)], PackKind),
        ("no status", &[(14, 0)], PackKind),
        ("a status above the four", &[(14, 5)], PackKind),
    ];
    for (name, changes, fault) in cases {
        assert_eq!(rt; read_partition(&changed(changes)), Err(fault), "{name}");
    }
}

// The same example cut short, and with bytes behind it.
#[test]
fn only_a_whole_item_is_read_and_whatever_follows(rt: HostRuntime) {
    let mut bytes = [0xee; 130];
    bytes[..124].copy_from_slice(&HEADER_BYTES);
    let cases: [(usize, Result<Partition, PackFault>); 6] = [
        (0, Err(NotPack)),
        (16, Err(NotPack)),
        (20, Err(NotPack)),
        (123, Err(NotPack)),
        (124, Ok(HEADER)),
        (130, Ok(HEADER)),
    ];
    for (len, answer) in cases {
        assert_eq!(rt; read_partition(&bytes[..len]), answer, "{len} bytes");
    }
}

// By hand: 58h = 88 bytes of value have no label (the 16 behind them are none of it), 78h = 120 have two, and 84h with
// four bytes is another form of a length.
#[test]
fn labels_are_counted_and_the_first_is_kept(rt: HostRuntime) {
    let none = Partition {
        label_count: 0,
        label: [0; 16],
        ..HEADER
    };
    let cases: [(&str, &[(usize, u8)], Result<Partition, PackFault>); 2] = [
        ("16 bytes each", &[(19, 0x58), (103, 0)], Ok(none)),
        (
            "no bytes each",
            &[(19, 0x58), (103, 0), (107, 0)],
            Err(PackSize),
        ),
    ];
    for (name, changes, answer) in cases {
        assert_eq!(rt;
            read_partition(&changed(changes)),
            answer,
            "no label, {name}"
        );
    }

    let two = Partition {
        label_count: 2,
        ..HEADER
    };
    let mut bytes = [0x77; 140];
    bytes[..124].copy_from_slice(&changed(&[(19, 0x78), (103, 2)]));
    assert_eq!(rt; read_partition(&bytes), Ok(two), "two labels");

    let mut long = [0; 125];
    long[..16].copy_from_slice(&HEADER_BYTES[..16]);
    long[16..21].copy_from_slice(&[0x84, 0, 0, 0, 0x68]);
    long[21..].copy_from_slice(&HEADER_BYTES[20..]);
    assert_eq!(rt;
        read_partition(&long),
        Ok(HEADER),
        "a length of another form"
    );
}

// By hand: the most labels that can be counted are 2^32 - 1, and 88 + 16 (2^32 - 1) = 68,719,476,808.
#[test]
fn a_pack_is_read_by_its_front_alone(rt: HostRuntime) {
    let mut key = [0; 16];
    key.copy_from_slice(&HEADER_BYTES[..16]);
    let mut front = [0; PACK_FRONT_LEN];
    front.copy_from_slice(&HEADER_BYTES[20..]);
    assert_eq!(rt; read_pack(&key, 104, &front), Ok(HEADER), "one label");
    assert_eq!(rt;
        read_pack(&key, 87, &front[..87]),
        Err(PackSize),
        "87 bytes"
    );
    assert_eq!(rt; read_pack(&key, 0, &[]), Err(PackSize), "no bytes");

    front[80..84].copy_from_slice(&[255; 4]);
    let most = Partition {
        label_count: u32::MAX,
        ..HEADER
    };
    let cases: [(u64, Result<Partition, PackFault>); 4] = [
        (68_719_476_808, Ok(most)),
        (68_719_476_807, Err(PackSize)),
        (72, Err(PackSize)),
        (u64::MAX, Err(PackSize)),
    ];
    for (value_len, answer) in cases {
        assert_eq!(rt;
            read_pack(&key, value_len, &front),
            answer,
            "{value_len} bytes"
        );
    }
}
