//! Files over a disk in memory.

use crate::catalogue::Catalogue;
use crate::fault::CheckFault;
use crate::file::walk;
use std::test::Fail;
use take_disk::MemoryDisk;

// docs/formats/mxf.md, "Items", "Picture elements" and "What an OP1a file is", by hand: a picture element of two bytes at 0, an
// element of another kind at 19, at 37 an item whose key isn't an element's in its twelfth byte, fill at 54, and from 72 on
// the first bytes of a key.
const FILE: [u8; 75] = [
    0x06, 0x0e, 0x2b, 0x34, 0x01, 0x02, 0x01, 0x01, 0x0d, 0x01, 0x03, 0x01, 0x15, 0x01, 0x17, 0x01,
    2, 7, 7, 0x06, 0x0e, 0x2b, 0x34, 0x01, 0x02, 0x01, 0x01, 0x0d, 0x01, 0x03, 0x01, 0x16, 0x01,
    0x17, 0x01, 1, 8, 0x06, 0x0e, 0x2b, 0x34, 0x01, 0x02, 0x01, 0x01, 0x0d, 0x01, 0x03, 0x02, 0x15,
    0x01, 0x17, 0x01, 0, 0x06, 0x0e, 0x2b, 0x34, 0x01, 0x01, 0x01, 0x02, 0x03, 0x01, 0x02, 0x10,
    0x01, 0x00, 0x00, 0x00, 1, 9, 0x06, 0x0e, 0x2b,
];

#[test]
fn elements_are_told_by_their_keys_and_fill_is_passed_over(rt: HostRuntime) -> Result<(), Fail> {
    let mut disk = MemoryDisk::new(rt.alloc(), &FILE, b"", 128, 64, &[], None)?;
    let kept = walk(rt.alloc(), &mut disk).map(|file| {
        let last = file.last.map(|mark| mark.at);
        (
            file.stop,
            file.len,
            file.front,
            last,
            file.elements.len(),
            file.parts.len(),
        )
    });
    assert_eq!(rt; kept, Ok((72, 75, Some(0), Some(37), 2, 0)));
    Ok(())
}

#[test]
fn a_read_that_fails_is_told_with_the_count(rt: HostRuntime) -> Result<(), Fail> {
    let mut disk = MemoryDisk::new(rt.alloc(), &FILE, b"", 128, 64, &[1], None)?;
    let stop = walk(rt.alloc(), &mut disk).map(|file| file.stop);
    assert_eq!(rt; stop, Err(CheckFault::DiskFault { faults: 1 }));
    Ok(())
}

#[test]
fn an_empty_file_lacks_its_random_index_pack(rt: HostRuntime) -> Result<(), Fail> {
    let mut disk = MemoryDisk::new(rt.alloc(), b"", b"", 128, 64, &[], None)?;
    let frames = Catalogue::read(rt.alloc(), &mut disk).map(|kept| kept.summary().frames);
    assert_eq!(rt; frames, Err(CheckFault::NotOp1a { clause: 1, at: 0 }));
    Ok(())
}

#[test]
fn a_file_that_is_not_read_is_not_judged(rt: HostRuntime) -> Result<(), Fail> {
    let mut disk = MemoryDisk::new(rt.alloc(), &FILE, b"", 128, 64, &[1], None)?;
    let frames = Catalogue::read(rt.alloc(), &mut disk).map(|kept| kept.summary().frames);
    assert_eq!(rt; frames, Err(CheckFault::DiskFault { faults: 1 }));
    Ok(())
}
