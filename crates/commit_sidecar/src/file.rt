//! What a commit file says.

ghost use Rattle.std.specs.Prelude.{◌≡◌, ◌≤◌, ◌+◌, ◌*◌, ◌^◌, IfOk, IfErr};
ghost use Rattle.commit_sidecar.specs.Says.{SaysSo, gate_place};
ghost use Rattle.commit_sidecar.specs.Refusals.{Refuses};
ghost use Rattle.commit_sidecar.specs.Looks.{BeginsHead};
ghost use Rattle.rec_bytes.specs.Views.{view};

use crate::head::{HEAD_LEN, read_head};
use crate::looks::{Look, look_at};
use crate::note::RECORD_LEN;
use rec_bytes::Config;
use take_core::Mark;
use thiserror::Error;

/// The number of the commits' area in a refusal.
pub const COMMITS_AREA: u64 = 1;

/// What a commit file says.
#[derive(Clone, Copy, Debug, PartialEq, Eq)]
pub struct Said {
    /// The take's configuration.
    pub config: Config,
    /// Open records.
    pub number: u64,
    /// The mark of the last open record.
    pub mark: Option<Mark>,
}

/// Why a commit file says nothing. `at` is a place in bytes from its start, `other` the area, which is that of the commits.
#[derive(Clone, Copy, Debug, PartialEq, Eq, Error)]
pub enum SaidFault {
    /// The first byte that is no part of a head, or the length where the head is cut.
    #[error("byte {at} of area {other} is no part of a take's head")]
    NoTake { at: u64, other: u64 },
    /// The gate of the first record that is open and broken, or the length where a gate is missing.
    #[error("the record at byte {at} of area {other} is damaged")]
    Damaged { at: u64, other: u64 },
}

/// The place of a record's gate, by the number of records before it.
pub fn gate_at(number: u64) -> u64
    requires few { number ≤ 2 ^ 59 }
    ensures { result ≡ gate_place number }
{
    HEAD_LEN as u64 + RECORD_LEN as u64 * number
}

/// What a commit file says (own format).
pub fn last_open(bytes: &[u8]) -> Result<Said, SaidFault>
    ensures said { IfOk result (SaysSo bytes.now) }

    ensures refused { IfErr result (Refuses bytes.now) }
{
    match read_head(bytes) {
        Ok(config) => read_records(bytes, config),
        Err(at) => Err(SaidFault::NoTake {
            at,
            other: COMMITS_AREA,
        }),
    }
}

/// What a commit file says that begins with the head of a configuration.
fn read_records(bytes: &[u8], config: Config) -> Result<Said, SaidFault>
    requires head { BeginsHead bytes.now (view config) }
    ensures said { IfOk result (SaysSo bytes.now) }

    ensures refused { IfErr result (Refuses bytes.now) }
{
    let mut at = HEAD_LEN;
    let mut number = 0;
    let mut mark = None;
    'records: loop {
        match look_at(&bytes[at..], mark) {
            Look::Shut => {
                return Ok(Said {
                    config,
                    number,
                    mark,
                });
            }
            Look::Broken => {
                return Err(SaidFault::Damaged {
                    at: at as u64,
                    other: COMMITS_AREA,
                });
            }
            Look::Open(next) => {
                at += RECORD_LEN;
                number += 1;
                mark = Some(next);
            }
        }
    }
}
