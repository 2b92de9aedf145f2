//! The commands of the ingest server.
//!
//! The program makes one call, `run_program`, and its clauses are what a user may rely on (`EndsProgram` of
//! `specs/Programs.antt`): the text of help or the command's answer, the fault line, a sentence in one line, the exit
//! code. A command's one call is `plain`: `RunsCommand` (`specs/Commands.antt`) has what each command does, by the words.
//! Over a feed a run is what `Runs` says of `Wraps` or `Encodes` (`specs/Runs.antt`) and of `KeepsPace`
//! (`specs/Paces.antt`): the bytes that are written and the answer for the feed's bytes, by the closed files of a layout,
//! how soon they are written and how far is read, and what of it holds where memory is wanted or a device fails. Over a
//! take it is what take_commands says. `LeavesFor` has what is left of the disk, which only `recover` writes to: whatever
//! a crash leaves stays safe. `HasCauses` (`specs/Causes.antt`) has the cause of each answer, by the words and the counts
//! of faults.
//! Terms: a run is one call; an answer is its `Status`; a layout is a type that implements `TakeLayout` of take_layout.
//! Not promised: anything of the bytes where the source or the disk doesn't tell them, what the layout's parts say, what
//! the sentence says, and how long a call takes.
#![tactic(auto)]

#[cfg(test)]
mod check_tests;
mod command;
mod encode;
#[cfg(test)]
mod encode_tests;
mod ended;
mod help;
#[cfg(test)]
mod message_tests;
mod next;
mod options;
mod paths;
mod program;
#[cfg(test)]
mod recover_tests;
mod report;
#[cfg(test)]
mod tests;
mod words;
mod wrap;

pub use command::plain;
pub use paths::{Paths, read_paths};
pub use program::run_program;
pub use words::WordsFault;
