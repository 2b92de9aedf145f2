//! The command `check`: whether a take's file is an OP1a file, and what it holds.

ghost use Rattle.std.specs.Prelude.{IfOk, IfErr};
ghost use Rattle.std.specs.Fmt.InlineText.{inline_text};
ghost use Rattle.take_disk.specs.Calls.{Stays};
ghost use Rattle.take_disk.specs.Elapsed.{Elapsed};
ghost use Rattle.take_commands.specs.Answers.{take_answer};
ghost use Rattle.take_commands.specs.Causes.{HasTakeCauses};
ghost use Rattle.take_commands.specs.Checks.{Checks};
ghost use Rattle.take_commands.specs.Views.{Views, devices};
ghost use Rattle.take_commands.specs.inner.Steps.{HasDiskCause, IsToAnswer, IsToWrite};

use crate::fault::{TakeFault, check_fault};
use crate::line::{LINE_ROOM, check_line};
use crate::output::put_piece;
use mxf_reader::Catalogue;
use raw_feed::Sink;
use std::alloc::Global;
use std::fmt::InlineText;
use take_disk::TakeDisk;

/// Writes one line that says what a take's file holds, where it is an OP1a file.
pub fn check<D: TakeDisk, W: Sink>(
    alloc: Global,
    disk: &mut D,
    out: &mut W,
) -> Result<(), TakeFault>
    ensures ran { Views Checks
        (devices (D.told disk.old) (D.fault_count disk.old) (W.written out.old) (W.fault_count out.old))
        (devices (D.told disk.new) (D.fault_count disk.new) (W.written out.new) (W.fault_count out.new)) (take_answer result) }
    ensures stays { Stays (D.told disk.old) (D.told disk.new) (D.length_of disk.old) (D.length_of disk.new) }
    ensures time { Elapsed (D.moment disk.old) (D.moment disk.new) (D.images_since disk.old) (D.images_since disk.new)
        (D.made disk.old) (D.made disk.new) }
    ensures cause { HasTakeCauses
        (devices (D.told disk.old) (D.fault_count disk.old) (W.written out.old) (W.fault_count out.old))
        (devices (D.told disk.new) (D.fault_count disk.new) (W.written out.new) (W.fault_count out.new)) (take_answer result) }
{
    let line = read_line(alloc, disk)?;
    put_piece(line.as_str().as_bytes(), out)
}

/// The line that says what a take's file holds. What is kept of the file is let go with the call.
fn read_line<D: TakeDisk>(alloc: Global, disk: &mut D) -> Result<InlineText<LINE_ROOM>, TakeFault>
    ensures line { IfOk result (λ line. IsToWrite Checks (D.told disk.old) (inline_text line)) }

    ensures refused { IfErr result (IsToAnswer Checks (D.told disk.old)) }
    ensures stays { Stays (D.told disk.old) (D.told disk.new) (D.length_of disk.old) (D.length_of disk.new) }
    ensures time { Elapsed (D.moment disk.old) (D.moment disk.new) (D.images_since disk.old) (D.images_since disk.new)
        (D.made disk.old) (D.made disk.new) }
    ensures cause { HasDiskCause (D.fault_count disk.old) (D.fault_count disk.new) result }
{
    match Catalogue::read(alloc, disk) {
        Ok(catalogue) => Ok(check_line(&catalogue)),
        Err(fault) => Err(check_fault(fault)),
    }
}
