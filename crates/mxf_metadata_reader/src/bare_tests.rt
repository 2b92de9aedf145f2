//! Small metadata, spelled by hand from docs/FORMATS.md, "Metadata".

use crate::SetFault::{NotPrimer, SetCut};
use crate::{SetFault, Sets, read_sets};

const NOTHING: Sets = Sets {
    frames: None,
    take_id: [0; 16],
    width: 0,
    height: 0,
    rate: (0, 0),
};

// A primer pack of no tags, and of one that the table of tags lacks; a fill item; sets with short lengths.
#[test]
fn what_is_missing_is_empty_and_what_is_unknown_is_free(rt: HostRuntime) {
    let cases: [(&str, &[u8], Result<Sets, SetFault>); 5] = [
        (
            "a primer pack alone",
            &[
                0x06, 0x0e, 0x2b, 0x34, 2, 5, 1, 1, 0x0d, 1, 2, 1, 1, 5, 1, 0, 8, 0, 0, 0, 0, 0, 0,
                0, 18,
            ],
            Ok(NOTHING),
        ),
        (
            "a count of 2^32 - 1",
            &[
                0x06, 0x0e, 0x2b, 0x34, 2, 5, 1, 1, 0x0d, 1, 2, 1, 1, 5, 1, 0, 8, 255, 255, 255,
                255, 0, 0, 0, 18,
            ],
            Err(NotPrimer),
        ),
        (
            "an item that is no set, with any bytes in it, and an empty set",
            &[
                0x06, 0x0e, 0x2b, 0x34, 2, 5, 1, 1, 0x0d, 1, 2, 1, 1, 5, 1, 0, 8, 0, 0, 0, 0, 0, 0,
                0, 18, 0x06, 0x0e, 0x2b, 0x34, 1, 1, 1, 2, 3, 1, 2, 0x10, 1, 0, 0, 0, 3, 1, 2, 3,
                0x06, 0x0e, 0x2b, 0x34, 2, 0x53, 1, 1, 0x0d, 1, 1, 1, 1, 1, 0x28, 0, 0,
            ],
            Ok(NOTHING),
        ),
        (
            "an item of a tag that the table lacks",
            &[
                0x06, 0x0e, 0x2b, 0x34, 2, 5, 1, 1, 0x0d, 1, 2, 1, 1, 5, 1, 0, 26, 0, 0, 0, 1, 0,
                0, 0, 18, 0xff, 0xfe, 0, 0, 0, 0, 0, 0, 0, 0, 0, 0, 0, 0, 0, 0, 0, 0, 0x06, 0x0e,
                0x2b, 0x34, 2, 0x53, 1, 1, 0x0d, 1, 1, 1, 1, 1, 0x28, 0, 5, 0xff, 0xfe, 0, 1, 7,
            ],
            Ok(NOTHING),
        ),
        (
            "a length near 2^64 behind the primer pack",
            &[
                0x06, 0x0e, 0x2b, 0x34, 2, 5, 1, 1, 0x0d, 1, 2, 1, 1, 5, 1, 0, 8, 0, 0, 0, 0, 0, 0,
                0, 18, 0x06, 0x0e, 0x2b, 0x34, 2, 0x53, 1, 1, 0x0d, 1, 1, 1, 1, 1, 0x28, 0, 0x88,
                255, 255, 255, 255, 255, 255, 255, 255,
            ],
            Err(SetCut { at: 25, tag: 0 }),
        ),
    ];
    for (name, bytes, answer) in cases {
        assert_eq!(rt; read_sets(rt.alloc(), bytes), answer, "{name}");
    }
}
