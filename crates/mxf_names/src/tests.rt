//! The names as the standards have them, written by hand.

use crate::*;
use rec_bytes::read_config;

// SMPTE RDD 36, the table of frame rate codes.
#[test]
fn each_rate_code_has_its_frames_a_second(rt: HostRuntime) {
    let cases: [(u8, (u32, u32)); 8] = [
        (1, (24_000, 1_001)),
        (2, (24, 1)),
        (3, (25, 1)),
        (4, (30_000, 1_001)),
        (5, (30, 1)),
        (6, (50, 1)),
        (7, (60_000, 1_001)),
        (8, (60, 1)),
    ];
    for (code, rate) in cases {
        assert_eq!(rt; edit_rate(code), rate, "rate code {code}");
    }
}

// docs/FORMATS.md: "Partition packs", "Metadata", "Index table segments", "Random index pack", "Picture elements".
#[test]
fn each_item_has_its_key(rt: HostRuntime) {
    let cases: [(&str, [u8; 16], [u8; 16]); 7] = [
        (
            "open incomplete header",
            partition_key(PartitionKind::Header, PartitionStatus::OpenIncomplete),
            [
                0x06, 0x0e, 0x2b, 0x34, 0x02, 0x05, 0x01, 0x01, 0x0d, 0x01, 0x02, 0x01, 0x01, 0x02,
                0x01, 0x00,
            ],
        ),
        (
            "open incomplete body",
            partition_key(PartitionKind::Body, PartitionStatus::OpenIncomplete),
            [
                0x06, 0x0e, 0x2b, 0x34, 0x02, 0x05, 0x01, 0x01, 0x0d, 0x01, 0x02, 0x01, 0x01, 0x03,
                0x01, 0x00,
            ],
        ),
        (
            "primer pack",
            PRIMER_KEY,
            [
                0x06, 0x0e, 0x2b, 0x34, 0x02, 0x05, 0x01, 0x01, 0x0d, 0x01, 0x02, 0x01, 0x01, 0x05,
                0x01, 0x00,
            ],
        ),
        (
            "random index pack",
            RANDOM_INDEX_KEY,
            [
                0x06, 0x0e, 0x2b, 0x34, 0x02, 0x05, 0x01, 0x01, 0x0d, 0x01, 0x02, 0x01, 0x01, 0x11,
                0x01, 0x00,
            ],
        ),
        (
            "index table segment",
            INDEX_SEGMENT_KEY,
            [
                0x06, 0x0e, 0x2b, 0x34, 0x02, 0x53, 0x01, 0x01, 0x0d, 0x01, 0x02, 0x01, 0x01, 0x10,
                0x01, 0x00,
            ],
        ),
        (
            "preface",
            set_key(0x2f),
            [
                0x06, 0x0e, 0x2b, 0x34, 0x02, 0x53, 0x01, 0x01, 0x0d, 0x01, 0x01, 0x01, 0x01, 0x01,
                0x2f, 0x00,
            ],
        ),
        (
            "picture element",
            PICTURE_ELEMENT_KEY,
            [
                0x06, 0x0e, 0x2b, 0x34, 0x01, 0x02, 0x01, 0x01, 0x0d, 0x01, 0x03, 0x01, 0x15, 0x01,
                0x17, 0x01,
            ],
        ),
    ];
    for (name, key, bytes) in cases {
        assert_eq!(rt; key, bytes, "{name}");
    }
}

// The last two bytes before the zero, by SMPTE ST 377-1.
#[test]
fn a_partition_is_keyed_by_kind_and_status(rt: HostRuntime) {
    let cases: [(PartitionKind, PartitionStatus, [u8; 3]); 4] = [
        (
            PartitionKind::Header,
            PartitionStatus::ClosedIncomplete,
            [2, 2, 0],
        ),
        (
            PartitionKind::Body,
            PartitionStatus::OpenComplete,
            [3, 3, 0],
        ),
        (
            PartitionKind::Footer,
            PartitionStatus::ClosedComplete,
            [4, 4, 0],
        ),
        (
            PartitionKind::Footer,
            PartitionStatus::OpenIncomplete,
            [4, 1, 0],
        ),
    ];
    for (kind, status, end) in cases {
        assert_eq!(rt;
            partition_key(kind, status)[13..],
            end[..],
            "{kind:?}, {status:?}"
        );
    }
}

// docs/FORMATS.md: "Partition packs", "Identifiers of the metadata", "Local sets", "Index table segments".
#[test]
fn labels_streams_and_tags_have_their_numbers(rt: HostRuntime) {
    let labels: [(&str, [u8; 16], [u8; 16]); 3] = [
        (
            "operational pattern",
            OPERATIONAL_PATTERN_1A,
            [
                0x06, 0x0e, 0x2b, 0x34, 0x04, 0x01, 0x01, 0x01, 0x0d, 0x01, 0x02, 0x01, 0x01, 0x01,
                0x09, 0x00,
            ],
        ),
        (
            "essence container",
            ESSENCE_CONTAINER_LABEL,
            [
                0x06, 0x0e, 0x2b, 0x34, 0x04, 0x01, 0x01, 0x0d, 0x0d, 0x01, 0x03, 0x01, 0x02, 0x1c,
                0x01, 0x00,
            ],
        ),
        (
            "head of a material identifier",
            UMID_HEAD,
            [
                0x06, 0x0a, 0x2b, 0x34, 0x01, 0x01, 0x01, 0x05, 0x01, 0x01, 0x0f, 0x20, 0x13, 0x00,
                0x00, 0x00,
            ],
        ),
    ];
    for (name, label, bytes) in labels {
        assert_eq!(rt; label, bytes, "{name}");
    }
    assert_eq!(rt; (ESSENCE_STREAM, INDEX_STREAM), (1, 2), "streams");
    assert_eq!(rt;
        PICTURE_TRACK_NUMBER,
        352_392_961,
        "the number of a picture track"
    );
    assert_eq!(rt;
        (INSTANCE_ID, INDEX_SID, BODY_SID),
        (15_370, 16_134, 16_135),
        "3C0A, 3F06 and 3F07"
    );
}

// docs/FORMATS.md, "Configuration": the example, with the bytes 1 to 16 as the take's identifier.
const CONFIG: [u8; 64] = [
    0x00, 0x10, 0x00, 0x10, 0x00, 0x03, 0x01, 0x01, 0x01, 0x01, 0x00, 0x01, 0xe0, 0x00, 0x00, 0x00,
    0x10, 0x00, 0x00, 0xfa, 0x00, 0x00, 0x00, 0x64, 0x00, 0x08, 0x00, 0x00, 0x00, 0x00, 0x00, 0x00,
    1, 2, 3, 4, 5, 6, 7, 8, 9, 10, 11, 12, 13, 14, 15, 16, 0x50, 0x52, 0x54, 0x4b, 0x00, 0x00,
    0x00, 0x00, 0x00, 0x00, 0x00, 0x00, 0x00, 0x00, 0x00, 0x00,
];

// The version 5 identifiers of that namespace by Python's uuid.uuid5.
#[test]
fn a_take_names_its_file_its_sets_and_its_segments(rt: HostRuntime) {
    let cfg = read_config(&CONFIG).expect(&rt, "the example is a configuration");
    let ids = Ids::new(&cfg);
    let want = Ids {
        take: [1, 2, 3, 4, 5, 6, 7, 8, 9, 10, 11, 12, 13, 14, 15, 16],
        file: [
            0x69, 0x72, 0x44, 0xb5, 0x16, 0xec, 0x55, 0x50, 0xac, 0x09, 0x0d, 0x47, 0xc7, 0x16,
            0xb2, 0xdc,
        ],
        sets: [0xe0, 0xf7, 0x38, 0x42, 0xcf, 0xad, 0x58, 0xff],
        index: [0x4b, 0xf9, 0x77, 0xa6, 0xa0, 0x8d, 0x54, 0x6a],
    };
    assert_eq!(rt; ids, want, "identifiers of the take");
    assert_eq!(rt;
        set_id(&ids, 0x0103),
        [
            0xe0, 0xf7, 0x38, 0x42, 0xcf, 0xad, 0x58, 0xff, 0, 0, 0, 0, 0, 0, 1, 3
        ],
        "the set with the number 259"
    );
}
