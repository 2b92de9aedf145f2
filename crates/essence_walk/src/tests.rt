//! Walks over essences in memory. The places are those of docs/FORMATS.md, "A take's file", by hand: three frames of 50 bytes
//! lie at 3,437, 3,511 and 3,585 behind a head of 3,289 bytes and leads of 148, 24 and 24; their growing file has 3,635 bytes,
//! and the closed one 7,157.

use crate::fault::WalkFault;
use crate::laws::{essences_have_one_answer, marks_recover_units};
use crate::walk::walk_essence;
use mxf_take_file::PictureLayout;
use rec_bytes::{Config, read_config};
use std::alloc::Global;
use std::test::Fail;
use take_core::Mark;
use take_disk::MemoryDisk;
use take_layout::{GrowingFile, Place, TakeLayout};

/// Where the three frames lie.
const THREE: [Place; 3] = [
    Place {
        at: 3437,
        stream: 0,
        len: 50,
    },
    Place {
        at: 3511,
        stream: 74,
        len: 50,
    },
    Place {
        at: 3585,
        stream: 148,
        len: 50,
    },
];

/// The spelling of a configuration of 16 by 16 pictures, with so many frames in a body partition and in the take.
fn spelling(part: u8, max_frames: u8) -> [u8; 64] {
    let mut bytes = [0u8; 64];
    let start = [
        0, 16, 0, 16, 0, 1, 3, 1, 1, 1, 3, 1, 16, 1, 2, 0, 0, 96, 0, part, 0, 0, 0, max_frames, 0,
        8,
    ];
    bytes[..26].copy_from_slice(&start);
    bytes
}

/// Puts a unit of a length behind its lead, where the take has room for one more.
fn put_unit(
    alloc: Global,
    file: &mut GrowingFile<PictureLayout>,
    len: u8,
    bytes: &mut Vec<u8>,
) -> Result<(), Fail> {
    if file.places().len() as u64 >= u64::from(file.config().max_frames) {
        return Ok(());
    }
    let unit_len = u64::from(len);
    let lead_len = PictureLayout::lead_len(file.config(), file.places());
    let mut lead = vec![in alloc; 0u8; lead_len as usize]?;
    PictureLayout::put_lead(file.config(), file.places(), unit_len, lead.as_mut_slice());
    bytes.extend_from_slice(lead.as_slice())?;
    bytes.resize(bytes.len() + usize::from(len), 7)?;
    file.add(unit_len)?;
    Ok(())
}

/// The growing file of units of these lengths, or the closed one.
fn file_of(alloc: Global, cfg: &Config, lens: &[u8], closed: bool) -> Result<Vec<u8>, Fail> {
    let mut file = GrowingFile::<PictureLayout>::new(alloc, cfg);
    let mut bytes = vec![in alloc; 0u8; PictureLayout::head_len(cfg) as usize]?;
    PictureLayout::put_head(cfg, bytes.as_mut_slice());
    for len in lens {
        put_unit(alloc, &mut file, *len, &mut bytes)?;
    }
    if closed {
        let tail_len = PictureLayout::tail_len(file.config(), file.places());
        let mut tail = vec![in alloc; 0u8; tail_len as usize]?;
        PictureLayout::put_tail(file.config(), file.places(), tail.as_mut_slice());
        bytes.extend_from_slice(tail.as_slice())?;
    }
    Ok(bytes)
}

/// The places that a walk finds in an essence.
fn walk(
    alloc: Global,
    cfg: &Config,
    essence: &[u8],
    mark: Mark,
) -> Result<Result<Vec<Place>, WalkFault>, Fail> {
    let mut disk = MemoryDisk::new(alloc, essence, b"", 8192, 64, &[], None)?;
    match walk_essence::<PictureLayout, MemoryDisk>(alloc, &mut disk, cfg, mark) {
        Ok(file) => Ok(Ok(file.places().to_vec(alloc)?)),
        Err(fault) => Ok(Err(fault)),
    }
}

/// The first bytes, so many or as many as there are.
fn front(bytes: &[u8], count: usize) -> &[u8] {
    &bytes[..bytes.len().min(count)]
}

/// An open mark.
fn open_mark(count: u64, length: u64) -> Mark {
    Mark {
        count,
        length,
        closed: false,
    }
}

/// A closed mark.
fn closed_mark(count: u64, length: u64) -> Mark {
    Mark {
        count,
        length,
        closed: true,
    }
}

#[test]
fn units_are_found_up_to_the_mark(rt: HostRuntime) -> Result<(), Fail> {
    essences_have_one_answer::<PictureLayout>();
    marks_recover_units::<PictureLayout>();
    let alloc = rt.alloc();
    let cfg = read_config(&spelling(250, 100)).expect(&rt, "a configuration");
    let growing = file_of(alloc, &cfg, &[50; 3], false)?;
    let closed = file_of(alloc, &cfg, &[50; 3], true)?;
    assert_eq!(rt; (growing.len(), closed.len()), (3635, 7157));
    let cases: [(&str, &[u8], Mark, usize); 6] = [
        ("three", &growing, open_mark(3, 3635), 3),
        (
            "two, and one that isn't durable",
            &growing,
            open_mark(2, 3561),
            2,
        ),
        ("none", &growing, open_mark(0, 3289), 0),
        (
            "three, and a tail that isn't durable",
            &closed,
            open_mark(3, 3635),
            3,
        ),
        ("three, closed", &closed, closed_mark(3, 7157), 3),
        (
            "a part of a lead behind two",
            front(growing.as_slice(), 3570),
            open_mark(2, 3561),
            2,
        ),
    ];
    for (what, essence, mark, count) in cases {
        let found = walk(alloc, &cfg, essence, mark)?.expect(&rt, what);
        assert_eq!(rt; found.as_slice(), &THREE[..count], "{what}");
    }
    Ok(())
}

// A byte of the essence that is another, none where it is past the end.
fn changed(alloc: Global, essence: &[u8], at: usize) -> Result<Vec<u8>, Fail> {
    let mut bytes = essence.to_vec(alloc)?;
    if at < bytes.len() {
        bytes[at] ^= 1;
    }
    Ok(bytes)
}

// Leads stand at 3,289, 3,487 and 3,561.
#[test]
fn the_place_is_the_end_of_the_last_unit(rt: HostRuntime) -> Result<(), Fail> {
    let alloc = rt.alloc();
    let cfg = read_config(&spelling(250, 100)).expect(&rt, "a configuration");
    let growing = file_of(alloc, &cfg, &[50; 3], false)?;
    let cases: [(&str, usize, Mark, u64); 10] = [
        ("a byte of the head", 3000, open_mark(3, 3635), 0),
        (
            "the first byte of the first lead",
            3289,
            open_mark(3, 3635),
            3289,
        ),
        (
            "a byte of the first lead's pack",
            3400,
            open_mark(3, 3635),
            3289,
        ),
        (
            "a byte of the second lead's key",
            3490,
            open_mark(3, 3635),
            3487,
        ),
        (
            "the last byte of the third lead",
            3584,
            open_mark(3, 3635),
            3561,
        ),
        ("a count above", 4000, open_mark(4, 3635), 3635),
        ("a count below", 4000, open_mark(2, 3635), 3561),
        (
            "a length inside the third unit",
            4000,
            open_mark(3, 3634),
            3561,
        ),
        ("a length inside the head", 4000, open_mark(0, 3288), 0),
        ("a tail that is missing", 4000, closed_mark(3, 3635), 3635),
    ];
    for (what, at, mark, place) in cases {
        let essence = changed(alloc, growing.as_slice(), at)?;
        let found = walk(alloc, &cfg, essence.as_slice(), mark)?;
        let fault = WalkFault::Damaged {
            at: place,
            other: 0,
        };
        assert_eq!(rt; found.err(), Some(fault), "{what}");
    }
    Ok(())
}

#[test]
fn a_closed_essence_is_its_whole_file(rt: HostRuntime) -> Result<(), Fail> {
    let alloc = rt.alloc();
    let cfg = read_config(&spelling(250, 100)).expect(&rt, "a configuration");
    let closed = file_of(alloc, &cfg, &[50; 3], true)?;
    let mut longer = closed.as_slice().to_vec(alloc)?;
    longer.push(0)?;
    let other = changed(alloc, closed.as_slice(), 7156)?;
    let cases: [(&str, &[u8], Mark, u64); 7] = [
        (
            "cut",
            front(closed.as_slice(), 7156),
            closed_mark(3, 7157),
            7156,
        ),
        (
            "cut, and open",
            front(closed.as_slice(), 3634),
            open_mark(3, 3635),
            3634,
        ),
        (
            "cut, with a count above",
            front(closed.as_slice(), 100),
            closed_mark(9, 7157),
            100,
        ),
        ("longer by a byte", &longer, closed_mark(3, 7157), 7157),
        (
            "another byte at the end",
            &other,
            closed_mark(3, 7157),
            3635,
        ),
        ("a length below", &closed, closed_mark(3, 7156), 3635),
        (
            "an open mark of its length",
            &closed,
            open_mark(3, 7157),
            3635,
        ),
    ];
    for (what, essence, mark, place) in cases {
        let found = walk(alloc, &cfg, essence, mark)?;
        let fault = WalkFault::Damaged {
            at: place,
            other: 0,
        };
        assert_eq!(rt; found.err(), Some(fault), "{what}");
    }
    Ok(())
}

// The file of three frames is no file of a take of two, whose own ends at 3,561.
#[test]
fn a_take_has_no_more_units_than_it_may(rt: HostRuntime) -> Result<(), Fail> {
    let alloc = rt.alloc();
    let cfg = read_config(&spelling(250, 100)).expect(&rt, "a configuration");
    let growing = file_of(alloc, &cfg, &[50; 3], false)?;
    let pair = read_config(&spelling(250, 2)).expect(&rt, "a configuration");
    let found = walk(alloc, &pair, growing.as_slice(), open_mark(3, 3635))?;
    let fault = WalkFault::Damaged { at: 3561, other: 0 };
    assert_eq!(rt; found.err(), Some(fault));
    Ok(())
}

#[test]
fn a_unit_of_no_bytes_is_a_unit(rt: HostRuntime) -> Result<(), Fail> {
    let alloc = rt.alloc();
    let cfg = read_config(&spelling(250, 100)).expect(&rt, "a configuration");
    let growing = file_of(alloc, &cfg, &[50, 0, 50], false)?;
    let found = walk(alloc, &cfg, growing.as_slice(), open_mark(3, 3585))?.expect(&rt, "three");
    let empty = Place {
        at: 3511,
        stream: 74,
        len: 0,
    };
    let last = Place {
        at: 3535,
        stream: 98,
        len: 50,
    };
    assert_eq!(rt; found.as_slice(), [THREE[0], empty, last].as_slice());
    Ok(())
}

// Five frames, two in a body partition: the head, five leads and nothing else are read, each at one call.
#[test]
fn each_lead_is_read_once_and_no_unit(rt: HostRuntime) -> Result<(), Fail> {
    let alloc = rt.alloc();
    let cfg = read_config(&spelling(2, 100)).expect(&rt, "a configuration");
    let growing = file_of(alloc, &cfg, &[50; 5], false)?;
    assert_eq!(rt; growing.len(), 4355);
    let mut disk = MemoryDisk::new(alloc, growing.as_slice(), b"", 8192, 64, &[], None)?;
    let mark = open_mark(5, 4355);
    let found = walk_essence::<PictureLayout, MemoryDisk>(alloc, &mut disk, &cfg, mark);
    let ends = found.map(|file| (file.places().len(), file.len()));
    assert_eq!(rt; ends, Ok((5, 4355)));
    assert_eq!(rt; (disk.number, disk.faults), (6, 0));
    let mut failing = MemoryDisk::new(alloc, growing.as_slice(), b"", 8192, 64, &[3], None)?;
    let found = walk_essence::<PictureLayout, MemoryDisk>(alloc, &mut failing, &cfg, mark);
    let count = found.map(|file| file.places().len());
    assert_eq!(rt; count, Err(WalkFault::DiskFault { faults: 1 }));
    assert_eq!(rt; (failing.number, failing.faults), (4, 1));
    Ok(())
}
