//! The one call of a command.

ghost use Rattle.std.specs.Prelude.{◌≡◌, ◌≤◌, ℕ, List, length};
ghost use Rattle.rec_bytes.specs.Configuration.{Fields};
ghost use Rattle.take_disk.specs.Elapsed.{Elapsed};
ghost use Rattle.take_commands.specs.Answers.{take_answer};
ghost use Rattle.ingest_run.specs.Causes.{HasCauses};
ghost use Rattle.ingest_run.specs.Commands.{LeavesFor, RunsCommand, around};
ghost use Rattle.ingest_run.specs.Words.{command_of, texts};
ghost use Rattle.ingest_run.specs.inner.Answers.{run_answer};

use crate::encode::encode;
use crate::ended::{RunFault, run_status};
use crate::words::{Command, read_command};
use crate::wrap::wrap;
use raw_feed::{Feed, MAX_UNIT, Sink, Source, feeds_are_one};
use rec_bytes::Status;
use std::thread::Threads;
use take_commands::{TakeFault, check, frame, recover};
use take_disk::TakeDisk;
use take_layout::TakeLayout;

/// Runs the command that the words name: `wrap` reads a feed of units and writes their closed file, `encode` reads a feed of
/// pictures and writes the closed file of their frames, `recover` closes a take after a stop, `check` says what the file of
/// a take holds, and `frame` writes the samples of one of its pictures.
///
/// `RunsCommand` has what each command does and answers, `LeavesFor` what it leaves of the disk. The answer's number, place and second number are those of the refusal
/// (docs/FORMATS.md, "Refusals").
pub fn plain<
    R: AllocGlobal + Threads + Sync,
    N: Feed,
    L: TakeLayout,
    S: Source<N>,
    D: TakeDisk,
    W: Sink,
>(rt: &R, words: &[String], feed: &mut S, disk: &mut D, out: &mut W) -> Status
    requires units { (cfg : Fields) (unit : List ℕ) → length unit ≤ MAX_UNIT → L.is_unit cfg unit }
    ensures ran { RunsCommand L.TakeLayout (texts words.now)
        (around S.told S.fault_count D.told D.fault_count W.written W.fault_count feed.old disk.old out.old)
        (around S.told S.fault_count D.told D.fault_count W.written W.fault_count feed.new disk.new out.new) result }
    ensures disk { LeavesFor L.TakeLayout D.TakeDisk (command_of (texts words.now)) disk.old disk.new }
    ensures time { Elapsed (D.moment disk.old) (D.moment disk.new) (D.images_since disk.old) (D.images_since disk.new)
        (D.made disk.old) (D.made disk.new) }
    ensures cause { HasCauses (texts words.now)
        (around S.told S.fault_count D.told D.fault_count W.written W.fault_count feed.old disk.old out.old)
        (around S.told S.fault_count D.told D.fault_count W.written W.fault_count feed.new disk.new out.new) result }
{
    run_status(run_words::<R, N, L, S, D, W>(rt, words, feed, disk, out))
}

/// The same, and how the run ended.
pub(crate) fn run_words<
    R: AllocGlobal + Threads + Sync,
    N: Feed,
    L: TakeLayout,
    S: Source<N>,
    D: TakeDisk,
    W: Sink,
>(rt: &R, words: &[String], feed: &mut S, disk: &mut D, out: &mut W) -> Result<(), RunFault>
    requires units { (cfg : Fields) (unit : List ℕ) → length unit ≤ MAX_UNIT → L.is_unit cfg unit }
    ensures ran { RunsCommand L.TakeLayout (texts words.now)
        (around S.told S.fault_count D.told D.fault_count W.written W.fault_count feed.old disk.old out.old)
        (around S.told S.fault_count D.told D.fault_count W.written W.fault_count feed.new disk.new out.new) (run_answer result) }
    ensures disk { LeavesFor L.TakeLayout D.TakeDisk (command_of (texts words.now)) disk.old disk.new }
    ensures time { Elapsed (D.moment disk.old) (D.moment disk.new) (D.images_since disk.old) (D.images_since disk.new)
        (D.made disk.old) (D.made disk.new) }
    ensures cause { HasCauses (texts words.now)
        (around S.told S.fault_count D.told D.fault_count W.written W.fault_count feed.old disk.old out.old)
        (around S.told S.fault_count D.told D.fault_count W.written W.fault_count feed.new disk.new out.new) (run_answer result) }
{
    feeds_are_one();
    match read_command(rt.alloc(), words) {
        Ok(Command::Wrap) => wrap::<N, L, S, W>(rt.alloc(), feed, out),
        Ok(Command::Encode { workers }) => {
            encode::<R, N, L, S, W>(rt, rt.alloc(), workers, feed, out)
        }
        Ok(Command::Recover) => take_end(recover::<L, D, W>(rt.alloc(), disk, out)),
        Ok(Command::Check) => take_end(check(rt.alloc(), disk, out)),
        Ok(Command::Frame { number }) => {
            take_end(frame(rt.alloc(), disk, u64::from(number), out))
        }
        Err(fault) => Err(RunFault::Words(fault)),
    }
}

/// How a run over a take ended.
fn take_end(ended: Result<(), TakeFault>) -> Result<(), RunFault>
    ensures { run_answer result ≡ take_answer ended }
{
    match ended {
        Ok(()) => Ok(()),
        Err(fault) => Err(RunFault::Take(fault)),
    }
}
