//! The commands over disks in memory.

use crate::checks::check;
use crate::fault::take_status;
use crate::shows::frame;
use raw_feed::MemorySink;
use run_parts::refusal;
use std::test::Fail;
use take_disk::MemoryDisk;

// docs/formats/mxf.md, "What an OP1a file is": a file of no bytes breaks clause 1 at byte 0.
#[test]
fn an_empty_file_breaks_the_first_clause(rt: HostRuntime) -> Result<(), Fail> {
    let mut disk = MemoryDisk::new(rt.alloc(), b"", b"", 4096, 64, &[], None)?;
    let mut out = MemorySink::new(rt.alloc(), 256, &[])?;
    let want = refusal(8, 73, 0, 1);
    let checked = check(rt.alloc(), &mut disk, &mut out);
    assert_eq!(rt; take_status(checked), want);
    let shown = frame(rt.alloc(), &mut disk, 0, &mut out);
    assert_eq!(rt; take_status(shown), want);
    assert_eq!(rt; out.bytes(), b"".as_slice());
    assert_eq!(rt; (disk.faults, out.faults), (0, 0));
    Ok(())
}
