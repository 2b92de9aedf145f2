//! The words of a call: which command they name, and whether it takes them.

ghost use Rattle.std.specs.Prelude.{◌≡◌, ◌≢◌, ◌≤◌, [], true, Some, IfOk, OnOk, codes, option_map};
ghost use Rattle.clap.specs.Words.{app_of, fault_of, is_simple_and_free};
ghost use Rattle.ingest_run.specs.Programs.{fault_answer};
ghost use Rattle.ingest_run.specs.Words.{check, command_of, encode, frame, number_of, recover, texts, wrap};
ghost use Rattle.ingest_run.specs.inner.Options.{AsksNumber, HasFewWorkers};

use crate::options::{check_command, encode_command, frame_command, recover_command};
use clap::error::ErrorKind;
use rec_bytes::Status;
use run_parts::{FAULTY_WORDS, MEMORY};
use std::alloc::Global;
use thiserror::Error;

/// What a call is asked to do.
#[derive(Clone, Copy, Debug, PartialEq, Eq)]
pub(crate) enum Command {
    /// Write the closed file of a feed of units.
    Wrap,
    /// Write the closed file of the frames of a feed of pictures.
    Encode {
        /// How many threads encode, from 1 to 64.
        workers: u8,
    },
    /// Close a take after a stop.
    Recover,
    /// Say what the file of a take holds.
    Check,
    /// Write the samples of a picture of a take.
    Frame {
        /// Which one, from 0.
        number: u32,
    },
}

/// Why words give no command.
#[derive(Clone, Copy, Debug, PartialEq, Eq, Error)]
pub enum WordsFault {
    /// Memory for them was wanted.
    #[error("out of memory")]
    Memory,
    /// One of them isn't text, or they are no command with its options.
    #[error("the words are no command with its options")]
    Faulty,
}

/// The answer to words that give no command.
pub(crate) fn words_status(fault: WordsFault) -> Status
    ensures { result ≡ fault_answer fault }
{
    match fault {
        WordsFault::Memory => MEMORY,
        WordsFault::Faulty => FAULTY_WORDS,
    }
}

/// Reads the words of a call, of which the first is the command's name. `Memory` may come at any words.
pub(crate) fn read_command(alloc: Global, words: &[String]) -> Result<Command, WordsFault>
    ensures named { IfOk result (λ command. command_of (texts words.now) ≡ Some command) }
    ensures few { IfOk result HasFewWorkers }
    ensures refused { result ≡ Err WordsFault.Faulty → command_of (texts words.now) ≡ None }
{
    let Some(first) = words.first() else {
        return Err(WordsFault::Faulty);
    };
    match first.as_str() {
        "wrap" => read_wrap(alloc, words),
        "encode" => read_encode(alloc, words),
        "recover" => read_recover(alloc, words),
        "check" => read_check(alloc, words),
        "frame" => read_frame(alloc, words),
        _ => Err(WordsFault::Faulty),
    }
}

/// Reads the words of `wrap`.
fn read_wrap(alloc: Global, words: &[String]) -> Result<Command, WordsFault>
    ensures named { IfOk result (λ command. command ≡ Command.Wrap) }
    ensures taken { OnOk result (fault_of wrap (texts words.now) ≡ []) }
    ensures refused { result ≡ Err WordsFault.Faulty → fault_of wrap (texts words.now) ≢ [] }
{
    let command = clap::Command::new(alloc, "wrap").disable_help_flag(true);
    take_words(command, words)?;
    Ok(Command::Wrap)
}

/// Reads the words of `encode`.
fn read_encode(alloc: Global, words: &[String]) -> Result<Command, WordsFault>
    ensures named { IfOk result (λ command.
        option_map Command.Encode (number_of (codes "workers") encode (texts words.now)) ≡ Some command) }
    ensures few { IfOk result HasFewWorkers }
    ensures taken { OnOk result (fault_of encode (texts words.now) ≡ []) }
    ensures refused { result ≡ Err WordsFault.Faulty → fault_of encode (texts words.now) ≢ [] }
{
    let Ok(command) = encode_command(alloc) else {
        return Err(WordsFault::Memory);
    };
    let workers = take_workers(command, words)?;
    Ok(Command::Encode { workers })
}

/// Reads the words of `recover`.
fn read_recover(alloc: Global, words: &[String]) -> Result<Command, WordsFault>
    ensures named { IfOk result (λ command. command ≡ Command.Recover) }
    ensures taken { OnOk result (fault_of recover (texts words.now) ≡ []) }
    ensures refused { result ≡ Err WordsFault.Faulty → fault_of recover (texts words.now) ≢ [] }
{
    let Ok(command) = recover_command(alloc) else {
        return Err(WordsFault::Memory);
    };
    take_words(command, words)?;
    Ok(Command::Recover)
}

/// Reads the words of `check`.
fn read_check(alloc: Global, words: &[String]) -> Result<Command, WordsFault>
    ensures named { IfOk result (λ command. command ≡ Command.Check) }
    ensures taken { OnOk result (fault_of check (texts words.now) ≡ []) }
    ensures refused { result ≡ Err WordsFault.Faulty → fault_of check (texts words.now) ≢ [] }
{
    let Ok(command) = check_command(alloc) else {
        return Err(WordsFault::Memory);
    };
    take_words(command, words)?;
    Ok(Command::Check)
}

/// Reads the words of `frame`.
fn read_frame(alloc: Global, words: &[String]) -> Result<Command, WordsFault>
    ensures named { IfOk result (λ command.
        option_map Command.Frame (number_of (codes "number") frame (texts words.now)) ≡ Some command) }
    ensures taken { OnOk result (fault_of frame (texts words.now) ≡ []) }
    ensures refused { result ≡ Err WordsFault.Faulty → fault_of frame (texts words.now) ≢ [] }
{
    let Ok(command) = frame_command(alloc) else {
        return Err(WordsFault::Memory);
    };
    let number = take_number(command, words)?;
    Ok(Command::Frame { number })
}

/// Lets a command judge the words behind its name, and reads how many workers they give.
fn take_workers<'a>(command: clap::Command<'a>, words: &'a [String]) -> Result<u8, WordsFault>
    requires simple { is_simple_and_free (app_of command) ≡ true }
    requires asks { AsksNumber (codes "workers") 1 64 command }
    ensures number { IfOk result (λ workers.
        number_of (codes "workers") (app_of command.entry) (texts words.entry.now) ≡ Some workers) }
    ensures some { IfOk result (λ workers. 1 ≤ workers) }
    ensures few { IfOk result (λ workers. workers ≤ 64) }
    ensures taken { OnOk result (fault_of (app_of command.entry) (texts words.entry.now) ≡ []) }
    ensures refused { result ≡ Err WordsFault.Faulty
        → fault_of (app_of command.entry) (texts words.entry.now) ≢ [] }
{
    match command.try_get_matches_from(words) {
        Ok(matches) => match matches.get_one::<u8>("workers") {
            Some(workers) => Ok(workers),
            None => Err(WordsFault::Faulty),
        },
        Err(error) => Err(words_fault(error.kind())),
    }
}

/// Lets a command judge the words behind its name, and reads the number that they give.
fn take_number<'a>(command: clap::Command<'a>, words: &'a [String]) -> Result<u32, WordsFault>
    requires simple { is_simple_and_free (app_of command) ≡ true }
    requires asks { AsksNumber (codes "number") 0 4294967295 command }
    ensures number { IfOk result (λ number.
        number_of (codes "number") (app_of command.entry) (texts words.entry.now) ≡ Some number) }
    ensures taken { OnOk result (fault_of (app_of command.entry) (texts words.entry.now) ≡ []) }
    ensures refused { result ≡ Err WordsFault.Faulty
        → fault_of (app_of command.entry) (texts words.entry.now) ≢ [] }
{
    match command.try_get_matches_from(words) {
        Ok(matches) => match matches.get_one::<u32>("number") {
            Some(number) => Ok(number),
            None => Err(WordsFault::Faulty),
        },
        Err(error) => Err(words_fault(error.kind())),
    }
}

/// Lets the command judge the words behind its name.
fn take_words<'a>(command: clap::Command<'a>, words: &'a [String]) -> Result<(), WordsFault>
    requires { is_simple_and_free (app_of command) ≡ true }
    ensures taken { OnOk result (fault_of (app_of command.entry) (texts words.entry.now) ≡ []) }
    ensures refused { result ≡ Err WordsFault.Faulty
        → fault_of (app_of command.entry) (texts words.entry.now) ≢ [] }
{
    match command.try_get_matches_from(words) {
        Ok(_) => Ok(()),
        Err(error) => Err(words_fault(error.kind())),
    }
}

/// Why a parse fails: for want of memory, or by the words.
fn words_fault(kind: ErrorKind) -> WordsFault
    ensures memory { result ≡ WordsFault.Memory → kind ≡ ErrorKind.OutOfMemory }
    ensures refused { result ≡ WordsFault.Faulty → kind ≢ ErrorKind.OutOfMemory }
{
    if kind == ErrorKind::OutOfMemory {
        return WordsFault::Memory;
    }
    WordsFault::Faulty
}

#[cfg(test)]
mod tests {
    use super::*;
    use crate::tests::words_of;
    use std::process::Abort;
    use std::test::Fail;

    // docs/FORMATS.md, "Words": each answer is worked out by hand. `--` ends the options, and takes nothing.
    type Row<'a> = (&'a [&'a str], Result<Command, WordsFault>);

    const FAULTY: Result<Command, WordsFault> = Err(WordsFault::Faulty);

    /// Whether each row's words are read as it says.
    fn each_is_read<R: AllocGlobal + Abort>(rt: &R, rows: &[Row]) -> Result<(), Fail> {
        for (texts, answer) in rows {
            let words = words_of(rt.alloc(), texts)?;
            assert_eq!(rt; &read_command(rt.alloc(), &words), answer, "{texts:?}");
        }
        Ok(())
    }

    #[test]
    fn wrap_takes_no_option(rt: HostRuntime) -> Result<(), Fail> {
        let rows: [Row; 14] = [
            (&[], FAULTY),
            (&["wrap"], Ok(Command::Wrap)),
            (&["wrap", "--"], Ok(Command::Wrap)),
            (&["wrap", "--", "x"], FAULTY),
            (&["wrap", "x"], FAULTY),
            (&["wrap", ""], FAULTY),
            (&["wrap", "-"], FAULTY),
            (&["wrap", "--help"], FAULTY),
            (&["wrap", "-h"], FAULTY),
            (&["wrap", "--workers", "2"], FAULTY),
            (&["Wrap"], FAULTY),
            (&["help"], FAULTY),
            (&["", "wrap"], FAULTY),
            (&["wrap", "--dir", "d"], FAULTY),
        ];
        each_is_read(&rt, &rows)
    }

    #[test]
    fn encode_takes_workers(rt: HostRuntime) -> Result<(), Fail> {
        let rows: [Row; 16] = [
            (
                &["encode", "--workers", "1"],
                Ok(Command::Encode { workers: 1 }),
            ),
            (
                &["encode", "--workers", "64"],
                Ok(Command::Encode { workers: 64 }),
            ),
            (
                &["encode", "--workers=3"],
                Ok(Command::Encode { workers: 3 }),
            ),
            (&["encode"], FAULTY),
            (&["encode", "--workers"], FAULTY),
            (&["encode", "--workers", "0"], FAULTY),
            (&["encode", "--workers", "65"], FAULTY),
            (&["encode", "--workers", "x"], FAULTY),
            (&["encode", "--workers", ""], FAULTY),
            (&["encode", "--workers", "3", "x"], FAULTY),
            (&["encode", "--workers", "3", "--workers", "3"], FAULTY),
            (&["encode", "3"], FAULTY),
            (&["encode", "-w", "3"], FAULTY),
            (&["encode", "--help"], FAULTY),
            (&["Encode", "--workers", "3"], FAULTY),
            (&["encode", "--dir", "d"], FAULTY),
        ];
        each_is_read(&rt, &rows)
    }

    #[test]
    fn recover_takes_a_folder(rt: HostRuntime) -> Result<(), Fail> {
        let rows: [Row; 8] = [
            (&["recover", "--dir", "d"], Ok(Command::Recover)),
            (&["recover", "--dir=d"], Ok(Command::Recover)),
            (&["recover"], FAULTY),
            (&["recover", "--dir"], FAULTY),
            (&["recover", "d"], FAULTY),
            (&["recover", "--dir", "d", "--number", "0"], FAULTY),
            (&["recover", "--dir", "d", "--dir", "d"], FAULTY),
            (&["Recover", "--dir", "d"], FAULTY),
        ];
        each_is_read(&rt, &rows)
    }

    #[test]
    fn check_takes_a_folder(rt: HostRuntime) -> Result<(), Fail> {
        let rows: [Row; 13] = [
            (&["check", "--dir", "d"], Ok(Command::Check)),
            (&["check", "--dir=d"], Ok(Command::Check)),
            (&["check", "--dir", ""], Ok(Command::Check)),
            (&["check"], FAULTY),
            (&["check", "--dir"], FAULTY),
            (&["check", "d"], FAULTY),
            (&["check", "--dir", "d", "x"], FAULTY),
            (&["check", "--dir", "d", "--dir", "d"], FAULTY),
            (&["check", "--dir", "d", "--number", "0"], FAULTY),
            (&["check", "--number", "0"], FAULTY),
            (&["check", "--workers", "3"], FAULTY),
            (&["check", "--help"], FAULTY),
            (&["Check", "--dir", "d"], FAULTY),
        ];
        each_is_read(&rt, &rows)
    }

    #[test]
    fn frame_takes_a_folder_and_a_number(rt: HostRuntime) -> Result<(), Fail> {
        let rows: [Row; 8] = [
            (
                &["frame", "--dir", "d", "--number", "0"],
                Ok(Command::Frame { number: 0 }),
            ),
            (
                &["frame", "--number", "17", "--dir", "d"],
                Ok(Command::Frame { number: 17 }),
            ),
            (
                &["frame", "--dir=d", "--number=4294967295"],
                Ok(Command::Frame {
                    number: 4_294_967_295,
                }),
            ),
            (
                &["frame", "--dir", "d", "--number", "007"],
                Ok(Command::Frame { number: 7 }),
            ),
            (
                &["frame", "--dir", "d", "--number", "+8"],
                Ok(Command::Frame { number: 8 }),
            ),
            (&["frame", "--dir", "d"], FAULTY),
            (&["frame", "--number", "0"], FAULTY),
            (&["frame", "--dir", "d", "--number"], FAULTY),
        ];
        each_is_read(&rt, &rows)
    }

    #[test]
    fn frames_with_other_words_are_faulty(rt: HostRuntime) -> Result<(), Fail> {
        let rows: [Row; 7] = [
            (&["frame", "--dir", "d", "--number", ""], FAULTY),
            (&["frame", "--dir", "d", "--number", "x"], FAULTY),
            (&["frame", "--dir", "d", "--number", "-1"], FAULTY),
            (&["frame", "--dir", "d", "--number", "4294967296"], FAULTY),
            (&["frame", "--dir", "d", "--number", "1", "x"], FAULTY),
            (
                &["frame", "--dir", "d", "--number", "1", "--number", "1"],
                FAULTY,
            ),
            (&["frame", "--dir", "d", "1"], FAULTY),
        ];
        each_is_read(&rt, &rows)
    }
}
