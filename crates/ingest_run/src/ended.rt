//! How a run ended, with the sentence that says it to a person.

ghost use Rattle.std.specs.Prelude.{◌≡◌};
ghost use Rattle.run_parts.specs.Statuses.{end_answer, sink_answer};
ghost use Rattle.ingest_run.specs.inner.Answers.{run_answer};

use crate::words::{WordsFault, words_status};
use raw_feed::{FeedFault, Sink};
use rec_bytes::Status;
use run_parts::{
    CommandEnd, FeedEnd, MEMORY, PutFault, UnitFault, feed_status, refusal, unit_status,
};
use take_commands::{TakeFault, take_status};
use thiserror::Error;

/// Why a run didn't do all that it was asked for, or did it for a part of its feed alone.
#[derive(Clone, Copy, Debug, PartialEq, Eq, Error)]
pub(crate) enum RunFault {
    /// The words give no command.
    #[error(transparent)]
    Words(WordsFault),
    /// The feed can't be read on.
    #[error(transparent)]
    Feed(FeedFault),
    /// Another marker follows as many items as the configuration allows.
    #[error("the feed goes on behind item {items}, the last one that its configuration allows")]
    Full { items: u64 },
    /// The unit of this number is refused.
    #[error("unit {unit}: {fault}")]
    Unit { unit: u64, fault: UnitFault },
    /// Memory was wanted.
    #[error("out of memory")]
    Memory,
    /// The sink failed; the number is its count of faults.
    #[error("the output has failed, as its fault number {count}")]
    Sink { count: u64 },
    /// A command that looks at a take ended before it had written all.
    #[error(transparent)]
    Take(TakeFault),
}

/// The answer of a run that ended so.
pub(crate) fn run_status(ended: Result<(), RunFault>) -> Status
    ensures { result ≡ run_answer ended }
{
    match ended {
        Ok(()) => Status::DONE,
        Err(RunFault::Words(fault)) => words_status(fault),
        Err(RunFault::Feed(fault)) => feed_status(fault),
        Err(RunFault::Full { items }) => refusal(10, 95, items, 0),
        Err(RunFault::Unit { unit, fault }) => unit_status(unit, fault),
        Err(RunFault::Memory) => MEMORY,
        Err(RunFault::Sink { count }) => refusal(7, 117, count, 0),
        Err(RunFault::Take(fault)) => take_status(Err(fault)),
    }
}

/// How a command's run ended that wrote all behind its feed's end or a refused unit, or ended before.
pub(crate) fn run_end<W: Sink>(ended: Result<CommandEnd, PutFault>, out: &W) -> Result<(), RunFault>
    ensures { run_answer result ≡ end_answer (W.fault_count out.now) ended }
{
    match ended {
        Ok(CommandEnd::Read(FeedEnd::Clean)) => Ok(()),
        Ok(CommandEnd::Read(FeedEnd::Full { items })) => Err(RunFault::Full { items }),
        Ok(CommandEnd::Read(FeedEnd::Broken(fault))) => Err(RunFault::Feed(fault)),
        Ok(CommandEnd::Refused { unit, fault }) => Err(RunFault::Unit { unit, fault }),
        Err(PutFault::Memory) => Err(RunFault::Memory),
        Err(PutFault::Sink) => Err(sink_fault(out)),
    }
}

/// The end of a run whose sink failed.
pub(crate) fn sink_fault<W: Sink>(out: &W) -> RunFault
    ensures { result ≡ RunFault.Sink (W.fault_count out.now) }
{
    RunFault::Sink {
        count: out.faults(),
    }
}

#[cfg(test)]
mod tests {
    use super::*;

    // docs/FORMATS.md, "Statuses" and "Refusals".
    #[test]
    fn each_end_has_its_answer(rt: HostRuntime) {
        let unit = UnitFault::Differs { at: 18 };
        let cases: [(Result<(), RunFault>, [u64; 4]); 9] = [
            (Ok(()), [0, 0, 0, 0]),
            (Err(RunFault::Words(WordsFault::Faulty)), [2, 0, 0, 0]),
            (
                Err(RunFault::Feed(FeedFault::FeedCut { at: 200 })),
                [3, 112, 200, 0],
            ),
            (Err(RunFault::Full { items: 7 }), [10, 95, 7, 0]),
            (
                Err(RunFault::Unit {
                    unit: 5,
                    fault: unit,
                }),
                [8, 42, 18, 5],
            ),
            (Err(RunFault::Memory), [1, 1, 0, 0]),
            (Err(RunFault::Sink { count: 3 }), [7, 117, 3, 0]),
            (
                Err(RunFault::Take(TakeFault::Disk { count: 2 })),
                [6, 83, 2, 0],
            ),
            (
                Err(RunFault::Take(TakeFault::Past {
                    count: 9,
                    number: 12,
                })),
                [8, 93, 9, 12],
            ),
        ];
        for (ended, want) in cases {
            let status = run_status(ended);
            assert_eq!(rt;
                [
                    u64::from(status.code),
                    u64::from(status.number),
                    status.at,
                    status.other
                ],
                want,
                "{ended:?}"
            );
        }
    }
}
