//! The ingest server: a thin main over standard input, standard output and the folder of a take.
//!
//! It makes the real source and sinks, opens the folder that the words name, makes the one call `run_program` of ingest_run,
//! and ends with the code that this answers. What the call promises is said there; here nothing is proved but that the
//! program is safe and ends as its call answers.
#![tactic(auto)]

use ingest_run::{WordsFault, read_paths, run_program};
use mxf_take_file::PictureLayout;
use raw_feed::{StreamSink, StreamSource};
use rec_bytes::Memory;
use std::env;
use std::fs::File;
use std::io::ErrorKind;
use std::marker::Brand;
use std::process::ExitCode;
use take_disk::{Access, FileDisk};

fn main(rt: HostRuntime) -> ExitCode {
    let words = read_words(&rt);
    let (words, mut disk) = match open_disk(&rt, &words) {
        Ok(disk) => (words, disk),
        Err(Memory) => (Err(WordsFault::Memory), FileDisk::new(None, None)),
    };
    let mut feed = StreamSource::<Brand, _>::new(rt.stdin());
    let mut out = StreamSink::new(rt.stdout());
    let mut messages = StreamSink::new(rt.stderr());
    ExitCode::from(run_program::<HostRuntime, Brand, PictureLayout, _, _, _, _>(
        &rt,
        &words,
        &mut feed,
        &mut disk,
        &mut out,
        &mut messages,
    ))
}

/// The disk of the take that the words name. Where they name no command over a take it has no files, and no command calls it.
fn open_disk(
    rt: &HostRuntime,
    words: &Result<Vec<String>, WordsFault>,
) -> Result<FileDisk<File>, Memory> {
    match take_folder(words) {
        Some((folder, access)) => FileDisk::open(rt, rt.alloc(), folder, access),
        None => Ok(FileDisk::new(None, None)),
    }
}

/// The folder of a take and what its files are opened for, where the words begin with the name of a command over one. No
/// command makes a file.
fn take_folder(words: &Result<Vec<String>, WordsFault>) -> Option<(&str, Access)> {
    let Ok(words) = words else {
        return None;
    };
    let access = match words.first()?.as_str() {
        "recover" => Access::Change,
        "check" | "frame" => Access::Look,
        _ => return None,
    };
    Some((read_paths(words.as_slice())?.dir, access))
}

/// The words behind the program's name. One that isn't text is faulty.
fn read_words(rt: &HostRuntime) -> Result<Vec<String>, WordsFault> {
    let args = match env::args(rt) {
        Ok(args) => args,
        Err(fault) if fault.kind() == ErrorKind::OutOfMemory => return Err(WordsFault::Memory),
        Err(_) => return Err(WordsFault::Faulty),
    };
    let mut words = Vec::new(rt.alloc());
    for word in args.skip(1) {
        if words.push(word).is_err() {
            return Err(WordsFault::Memory);
        }
    }
    Ok(words)
}
