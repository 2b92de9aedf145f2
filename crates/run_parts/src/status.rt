//! The answers, and the numbers of the refusals in them.

ghost use Rattle.std.specs.Prelude.{◌≡◌};
ghost use Rattle.run_parts.specs.Statuses.{answer, feed_answer};

use raw_feed::FeedFault;
use rec_bytes::Status;

/// The answer where memory was wanted (docs/FORMATS.md, "Statuses").
pub const MEMORY: Status = Status {
    code: 1,
    number: 1,
    at: 0,
    other: 0,
};

/// The answer where the words are no command.
pub const FAULTY_WORDS: Status = Status {
    code: 2,
    number: 0,
    at: 0,
    other: 0,
};

/// The answer with a refusal's number, its place and its second number (docs/FORMATS.md, "Refusals").
pub fn refusal(code: u8, number: u16, at: u64, other: u64) -> Status
    ensures { result ≡ answer code number at other }
{
    Status {
        code,
        number,
        at,
        other,
    }
}

/// The answer where a feed can't be read on.
pub fn feed_status(fault: FeedFault) -> Status
    ensures { result ≡ feed_answer fault }
{
    match fault {
        FeedFault::Memory => MEMORY,
        FeedFault::FeedHead { at } => refusal(3, 110, at, 0),
        FeedFault::Marker { at } => refusal(3, 111, at, 0),
        FeedFault::FeedCut { at } => refusal(3, 112, at, 0),
        FeedFault::SourceFault { at } => refusal(5, 113, at, 0),
        FeedFault::TooLong { at } => refusal(3, 114, at, 0),
        FeedFault::Sample { at } => refusal(3, 115, at, 0),
        FeedFault::UnitLong { at } => refusal(3, 116, at, 0),
    }
}

#[cfg(test)]
mod tests {
    use super::*;
    use crate::unit::{UnitFault, unit_status};

    /// A status's code, number, place and second number.
    fn numbers(status: Status) -> (u8, u16, u64, u64) {
        (status.code, status.number, status.at, status.other)
    }

    // docs/FORMATS.md, "Statuses" and "Refusals".
    #[test]
    fn each_answer_has_its_numbers(rt: HostRuntime) {
        let faults: [(FeedFault, (u8, u16, u64, u64)); 8] = [
            (FeedFault::Memory, (1, 1, 0, 0)),
            (FeedFault::FeedHead { at: 9 }, (3, 110, 9, 0)),
            (FeedFault::Marker { at: 72 }, (3, 111, 72, 0)),
            (FeedFault::FeedCut { at: 200 }, (3, 112, 200, 0)),
            (FeedFault::SourceFault { at: 2 }, (5, 113, 2, 0)),
            (
                FeedFault::TooLong { at: 1 << 44 },
                (3, 114, 17_592_186_044_416, 0),
            ),
            (FeedFault::Sample { at: 76 }, (3, 115, 76, 0)),
            (FeedFault::UnitLong { at: 76 }, (3, 116, 76, 0)),
        ];
        for (fault, want) in faults {
            assert_eq!(rt; numbers(feed_status(fault)), want, "{fault:?}");
        }
        let differs = unit_status(5, UnitFault::Differs { at: 18 });
        assert_eq!(rt; numbers(differs), (8, 42, 18, 5));
        assert_eq!(rt; numbers(MEMORY), (1, 1, 0, 0));
        assert_eq!(rt; numbers(FAULTY_WORDS), (2, 0, 0, 0));
    }
}
