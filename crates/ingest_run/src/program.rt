//! The one call of a program: help, a command, its messages and its exit code.

ghost use Rattle.std.specs.Prelude.{◌≤◌, ℕ, List, length};
ghost use Rattle.rec_bytes.specs.Configuration.{Fields};
ghost use Rattle.take_disk.specs.Elapsed.{Elapsed};
ghost use Rattle.ingest_run.specs.Commands.{LeavesFor, around};
ghost use Rattle.ingest_run.specs.Helps.{help_of};
ghost use Rattle.ingest_run.specs.Messages.{taken};
ghost use Rattle.ingest_run.specs.Programs.{AnswersFor, AnswersWords, EndsProgram, WritesHelp, runs_for, runs_in};
ghost use Rattle.ingest_run.specs.Words.{texts, texts_in};
ghost use Rattle.ingest_run.specs.inner.Answers.{run_answer};

use crate::command::run_words;
use crate::ended::{RunFault, run_status, sink_fault};
use crate::help::help_text;
use crate::report::report;
use crate::words::WordsFault;
use raw_feed::{Feed, MAX_UNIT, Sink, Source, put_all};
use rec_bytes::Failed;
use std::thread::Threads;
use take_disk::TakeDisk;
use take_layout::TakeLayout;

/// Answers a program's words, or why they can't be read: by a text of help, or by the command that they name. It writes
/// the fault line, a sentence and how the program is called to the messages, and answers the exit code.
pub fn run_program<
    R: AllocGlobal + Threads + Sync,
    N: Feed,
    L: TakeLayout,
    S: Source<N>,
    D: TakeDisk,
    W: Sink,
    M: Sink,
>(
    rt: &R,
    words: &Result<Vec<String>, WordsFault>,
    feed: &mut S,
    disk: &mut D,
    out: &mut W,
    messages: &mut M,
) -> u8
    requires units { (cfg : Fields) (unit : List ℕ) → length unit ≤ MAX_UNIT → L.is_unit cfg unit }
    ensures ended { EndsProgram (AnswersWords L.TakeLayout (texts_in words.now)
        (around S.told S.fault_count D.told D.fault_count W.written W.fault_count feed.old disk.old out.old)
        (around S.told S.fault_count D.told D.fault_count W.written W.fault_count feed.new disk.new out.new))
        (taken (M.written messages.old) (M.fault_count messages.old)) (taken (M.written messages.new) (M.fault_count messages.new)) result }
    ensures disk { LeavesFor L.TakeLayout D.TakeDisk (runs_in (texts_in words.now)) disk.old disk.new }
    ensures time { Elapsed (D.moment disk.old) (D.moment disk.new) (D.images_since disk.old) (D.images_since disk.new)
        (D.made disk.old) (D.made disk.new) }
{
    let ended = match words {
        Ok(words) => answer::<R, N, L, S, D, W>(rt, words.as_slice(), feed, disk, out),
        Err(fault) => Err(RunFault::Words(*fault)),
    };
    report(ended, messages);
    run_status(ended).code
}

/// Answers the words: by a text of help, or by the command that they name.
fn answer<
    R: AllocGlobal + Threads + Sync,
    N: Feed,
    L: TakeLayout,
    S: Source<N>,
    D: TakeDisk,
    W: Sink,
>(rt: &R, words: &[String], feed: &mut S, disk: &mut D, out: &mut W) -> Result<(), RunFault>
    requires units { (cfg : Fields) (unit : List ℕ) → length unit ≤ MAX_UNIT → L.is_unit cfg unit }
    ensures answered { AnswersFor L.TakeLayout (help_of (texts words.now)) (texts words.now)
        (around S.told S.fault_count D.told D.fault_count W.written W.fault_count feed.old disk.old out.old)
        (around S.told S.fault_count D.told D.fault_count W.written W.fault_count feed.new disk.new out.new) (run_answer result) }
    ensures disk { LeavesFor L.TakeLayout D.TakeDisk (runs_for (help_of (texts words.now)) (texts words.now)) disk.old disk.new }
    ensures time { Elapsed (D.moment disk.old) (D.moment disk.new) (D.images_since disk.old) (D.images_since disk.new)
        (D.made disk.old) (D.made disk.new) }
{
    match help_text(words) {
        Some(text) => write_help(text, out),
        None => run_words::<R, N, L, S, D, W>(rt, words, feed, disk, out),
    }
}

/// Writes a text of help.
fn write_help<W: Sink>(text: &str, out: &mut W) -> Result<(), RunFault>
    ensures { WritesHelp text.now (taken (W.written out.old) (W.fault_count out.old))
        (taken (W.written out.new) (W.fault_count out.new)) (run_answer result) }
{
    match put_all(out, text.as_bytes()) {
        Ok(()) => Ok(()),
        Err(Failed) => Err(sink_fault(out)),
    }
}
