//! The commands as `clap` reads them, with their options.

ghost use Rattle.std.specs.Prelude.{◌≡◌, IfOk, codes};
ghost use Rattle.clap.specs.Words.{app_of, rule_of};
ghost use Rattle.ingest_run.specs.Words.{check, dir, encode, frame, number, recover, workers};
ghost use Rattle.ingest_run.specs.inner.Options.{AsksNumber, IsOption, TakesNumber};

use clap::ArgAction;
use rec_bytes::Memory;
use std::alloc::Global;

/// `encode` and its option.
pub(crate) fn encode_command<'a>(alloc: Global) -> Result<clap::Command<'a>, Memory>
    ensures shape { IfOk result (λ command. app_of command ≡ encode) }
    ensures workers { IfOk result (AsksNumber (codes "workers") 1 64) }
{
    let workers = workers_option(alloc);
    let command = clap::Command::new(alloc, "encode").disable_help_flag(true);
    match command.arg(workers) {
        Ok(command) => Ok(command),
        Err(_) => Err(Memory),
    }
}

/// `recover` and its option.
pub(crate) fn recover_command<'a>(alloc: Global) -> Result<clap::Command<'a>, Memory>
    ensures { IfOk result (λ command. app_of command ≡ recover) }
{
    let dir = dir_option(alloc);
    let command = clap::Command::new(alloc, "recover").disable_help_flag(true);
    match command.arg(dir) {
        Ok(command) => Ok(command),
        Err(_) => Err(Memory),
    }
}

/// `check` and its option.
pub(crate) fn check_command<'a>(alloc: Global) -> Result<clap::Command<'a>, Memory>
    ensures { IfOk result (λ command. app_of command ≡ check) }
{
    let dir = dir_option(alloc);
    let command = clap::Command::new(alloc, "check").disable_help_flag(true);
    match command.arg(dir) {
        Ok(command) => Ok(command),
        Err(_) => Err(Memory),
    }
}

/// `frame` and its options, of which the second is the number.
pub(crate) fn frame_command<'a>(alloc: Global) -> Result<clap::Command<'a>, Memory>
    ensures shape { IfOk result (λ command. app_of command ≡ frame) }
    ensures number { IfOk result (AsksNumber (codes "number") 0 4294967295) }
{
    let dir = dir_option(alloc);
    let number = number_option(alloc);
    let command = clap::Command::new(alloc, "frame").disable_help_flag(true);
    let Ok(with_dir) = command.arg(dir) else {
        return Err(Memory);
    };
    match with_dir.arg(number) {
        Ok(command) => Ok(command),
        Err(_) => Err(Memory),
    }
}

/// How many threads encode.
fn workers_option<'a>(alloc: Global) -> clap::Arg<'a>
    ensures rule { rule_of result ≡ workers }
    ensures option { IsOption (codes "workers") result }
    ensures takes { TakesNumber 1 64 result }
{
    clap::Arg::new(alloc, "workers")
        .long("workers")
        .required(true)
        .action(ArgAction::Set)
        .value_parser(clap::value_parser!(u8).range(1..65))
}

/// The folder of a take.
fn dir_option<'a>(alloc: Global) -> clap::Arg<'a>
    ensures rule { rule_of result ≡ dir }
    ensures option { IsOption (codes "dir") result }
{
    clap::Arg::new(alloc, "dir")
        .long("dir")
        .required(true)
        .action(ArgAction::Set)
}

/// The number of a frame.
fn number_option<'a>(alloc: Global) -> clap::Arg<'a>
    ensures rule { rule_of result ≡ number }
    ensures option { IsOption (codes "number") result }
    ensures takes { TakesNumber 0 4294967295 result }
{
    clap::Arg::new(alloc, "number")
        .long("number")
        .required(true)
        .action(ArgAction::Set)
        .value_parser(clap::value_parser!(u32))
}
