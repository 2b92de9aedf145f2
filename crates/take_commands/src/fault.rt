//! Why a command over a take ends before it has written all, with the sentence that says it to a person.

ghost use Rattle.std.specs.Prelude.{◌≡◌};
ghost use Rattle.take_commands.specs.Answers.{decode_answer, frame_answer, slice_number, take_answer};
ghost use Rattle.take_commands.specs.inner.Faults.{check_fault, decode_fault, recover_fault, unit_fault};

use frame_codec::DecodeFault;
use frame_syntax::FrameFault;
use mxf_reader::{CheckFault, UnitFault};
use rec_bytes::Status;
use recovery::RecoverFault;
use run_parts::{MEMORY, refusal};
use slice_codec::SliceFault;
use thiserror::Error;

/// Why a command over a take ends before it has written all.
#[derive(Clone, Copy, Debug, PartialEq, Eq, Error)]
pub enum TakeFault {
    /// Memory was wanted.
    #[error("out of memory")]
    Memory,
    /// The disk failed; the number is its count of faults.
    #[error("the take can't be read, as fault number {count} of its files")]
    Disk { count: u64 },
    /// The sink failed; the number is its count of faults.
    #[error("the output has failed, as its fault number {count}")]
    Sink { count: u64 },
    /// The take's file breaks a clause of OP1a, and this one first.
    #[error("not an OP1a file: clause {clause} is broken at byte {at}")]
    NotOp1a { clause: u64, at: u64 },
    /// The file has so many frames, and this one was asked for.
    #[error("there is no frame {number}, the file has {count}")]
    Past { count: u64, number: u64 },
    /// The frame of this number isn't decoded.
    #[error("frame {number}: {fault}")]
    Refused { number: u64, fault: DecodeFault },
    /// The commits don't begin with a take's head, up to this byte.
    #[error("no take: byte {at} of its commits is no part of a head")]
    NoTake { at: u64, area: u64 },
    /// The commits break behind their head, or the essence isn't what they say.
    #[error("the take is damaged at byte {at} of area {area}: 0 is its file, 1 its commits")]
    Damaged { at: u64, area: u64 },
}

/// Why a command ends where the take's file isn't read.
pub(crate) fn check_fault(fault: CheckFault) -> TakeFault
    ensures { result ≡ check_fault fault }
{
    match fault {
        CheckFault::Memory => TakeFault::Memory,
        CheckFault::DiskFault { faults } => TakeFault::Disk { count: faults },
        CheckFault::NotOp1a { clause, at } => TakeFault::NotOp1a { clause, at },
    }
}

/// Why a command ends where the unit of this number isn't read.
pub(crate) fn unit_fault(number: u64, fault: UnitFault) -> TakeFault
    ensures { result ≡ unit_fault number fault }
{
    match fault {
        UnitFault::Memory => TakeFault::Memory,
        UnitFault::DiskFault { faults } => TakeFault::Disk { count: faults },
        UnitFault::Past { count } => TakeFault::Past { count, number },
    }
}

/// Why a command ends where the unit of this number isn't decoded.
pub(crate) fn decode_fault(number: u64, fault: DecodeFault) -> TakeFault
    ensures { result ≡ decode_fault number fault }
{
    match fault {
        DecodeFault::Memory => TakeFault::Memory,
        DecodeFault::Frame(_) => TakeFault::Refused { number, fault },
        DecodeFault::OneMatrix { .. } => TakeFault::Refused { number, fault },
        DecodeFault::Slice { .. } => TakeFault::Refused { number, fault },
    }
}

/// Why a command ends where the take isn't recovered.
pub(crate) fn recover_fault(fault: RecoverFault) -> TakeFault
    ensures { result ≡ recover_fault fault }
{
    match fault {
        RecoverFault::Memory => TakeFault::Memory,
        RecoverFault::NoTake { at, other } => TakeFault::NoTake { at, area: other },
        RecoverFault::Damaged { at, other } => TakeFault::Damaged { at, area: other },
        RecoverFault::DiskFault { at } => TakeFault::Disk { count: at },
    }
}

/// The answer of a command that ended so.
pub fn take_status(ended: Result<(), TakeFault>) -> Status
    ensures { result ≡ take_answer ended }
{
    match ended {
        Ok(()) => Status::DONE,
        Err(TakeFault::Memory) => MEMORY,
        Err(TakeFault::Disk { count }) => refusal(6, 83, count, 0),
        Err(TakeFault::Sink { count }) => refusal(7, 117, count, 0),
        Err(TakeFault::NotOp1a { clause, at }) => refusal(8, 73, at, clause),
        Err(TakeFault::Past { count, number }) => refusal(8, 93, count, number),
        Err(TakeFault::Refused { number, fault }) => decode_status(number, fault),
        Err(TakeFault::NoTake { at, area }) => refusal(8, 80, at, area),
        Err(TakeFault::Damaged { at, area }) => refusal(8, 81, at, area),
    }
}

/// The answer where the frame of this number isn't decoded.
fn decode_status(number: u64, fault: DecodeFault) -> Status
    ensures { result ≡ decode_answer number fault }
{
    match fault {
        DecodeFault::Memory => MEMORY,
        DecodeFault::Frame(fault) => frame_status(fault),
        DecodeFault::OneMatrix { at } => refusal(8, 39, at, 0),
        DecodeFault::Slice { index, fault } => refusal(8, slice_number(fault), index, number),
    }
}

/// The number of a slice's refusal.
fn slice_number(fault: SliceFault) -> u16
    ensures { result ≡ slice_number fault }
{
    match fault {
        SliceFault::SliceShort { .. } => 20,
        SliceFault::SliceHeader { .. } => 21,
        SliceFault::Index { .. } => 22,
        SliceFault::Parts { .. } => 23,
        SliceFault::BitsEnd { .. } => 11,
        SliceFault::TooLong { .. } => 12,
        SliceFault::RunPast { .. } => 24,
        SliceFault::CoefficientRange { .. } => 25,
    }
}

/// The answer where bytes are no frame.
fn frame_status(fault: FrameFault) -> Status
    ensures { result ≡ frame_answer fault }
{
    match fault {
        FrameFault::FrameShort { at, other } => refusal(8, 30, at, other),
        FrameFault::NotIcpf { at, other } => refusal(8, 31, at, other),
        FrameFault::SizeWord { at, other } => refusal(8, 32, at, other),
        FrameFault::HeadSize { at, other } => refusal(8, 33, at, other),
        FrameFault::Version { at, other } => refusal(8, 34, at, other),
        FrameFault::Chroma { at, other } => refusal(8, 35, at, other),
        FrameFault::Interlace { at, other } => refusal(8, 36, at, other),
        FrameFault::Dimensions { at, other } => refusal(8, 37, at, other),
        FrameFault::Alpha { at, other } => refusal(8, 38, at, other),
        FrameFault::PictureSize { at, other } => refusal(8, 40, at, other),
        FrameFault::SliceTable { at, other } => refusal(8, 41, at, other),
    }
}

#[cfg(test)]
mod tests {
    use super::*;

    /// A status's code, number, place and second number.
    fn numbers(status: Status) -> (u8, u16, u64, u64) {
        (status.code, status.number, status.at, status.other)
    }

    // docs/FORMATS.md, "Statuses" and "Refusals".
    #[test]
    fn each_answer_has_its_numbers(rt: HostRuntime) {
        let faults: [(TakeFault, (u8, u16, u64, u64)); 7] = [
            (TakeFault::Memory, (1, 1, 0, 0)),
            (TakeFault::Disk { count: 3 }, (6, 83, 3, 0)),
            (TakeFault::Sink { count: 2 }, (7, 117, 2, 0)),
            (
                TakeFault::NotOp1a {
                    clause: 5,
                    at: 7_168,
                },
                (8, 73, 7_168, 5),
            ),
            (
                TakeFault::Past {
                    count: 6,
                    number: 9,
                },
                (8, 93, 6, 9),
            ),
            (TakeFault::NoTake { at: 5, area: 1 }, (8, 80, 5, 1)),
            (TakeFault::Damaged { at: 72, area: 0 }, (8, 81, 72, 0)),
        ];
        for (fault, want) in faults {
            assert_eq!(rt; numbers(take_status(Err(fault))), want, "{fault:?}");
        }
        assert_eq!(rt; numbers(take_status(Ok(()))), (0, 0, 0, 0));
    }

    // docs/formats/frames.md, "Refusals of frames". The frame that was asked for has number 4.
    #[test]
    fn each_refused_frame_has_its_numbers(rt: HostRuntime) {
        let faults: [(FrameFault, (u8, u16, u64, u64)); 11] = [
            (FrameFault::FrameShort { at: 27, other: 0 }, (8, 30, 27, 0)),
            (FrameFault::NotIcpf { at: 4, other: 0 }, (8, 31, 4, 0)),
            (FrameFault::SizeWord { at: 0, other: 51 }, (8, 32, 0, 51)),
            (FrameFault::HeadSize { at: 8, other: 19 }, (8, 33, 8, 19)),
            (FrameFault::Version { at: 11, other: 2 }, (8, 34, 11, 2)),
            (FrameFault::Chroma { at: 20, other: 3 }, (8, 35, 20, 3)),
            (FrameFault::Interlace { at: 20, other: 3 }, (8, 36, 20, 3)),
            (FrameFault::Dimensions { at: 16, other: 0 }, (8, 37, 16, 0)),
            (FrameFault::Alpha { at: 25, other: 1 }, (8, 38, 25, 1)),
            (FrameFault::PictureSize { at: 28, other: 1 }, (8, 40, 28, 1)),
            (FrameFault::SliceTable { at: 36, other: 7 }, (8, 41, 36, 7)),
        ];
        for (fault, want) in faults {
            let refused = TakeFault::Refused {
                number: 4,
                fault: DecodeFault::Frame(fault),
            };
            assert_eq!(rt; numbers(take_status(Err(refused))), want, "{fault:?}");
        }
        let one_matrix = TakeFault::Refused {
            number: 4,
            fault: DecodeFault::OneMatrix { at: 27 },
        };
        assert_eq!(rt; numbers(take_status(Err(one_matrix))), (8, 39, 27, 0));
    }

    // docs/formats/frames.md, "Slices": the slice of number 90 in the frame of number 4.
    #[test]
    fn each_refused_slice_has_its_numbers(rt: HostRuntime) {
        let faults: [(SliceFault, u16); 8] = [
            (SliceFault::SliceShort { at: 5 }, 20),
            (SliceFault::SliceHeader { at: 0 }, 21),
            (SliceFault::Index { at: 1 }, 22),
            (SliceFault::Parts { at: 2 }, 23),
            (SliceFault::BitsEnd { part: 1, at: 8 }, 11),
            (SliceFault::TooLong { part: 2, at: 16 }, 12),
            (SliceFault::RunPast { part: 0, at: 24 }, 24),
            (
                SliceFault::CoefficientRange {
                    block: 1,
                    place: 63,
                },
                25,
            ),
        ];
        for (fault, number) in faults {
            let refused = TakeFault::Refused {
                number: 4,
                fault: DecodeFault::Slice { index: 90, fault },
            };
            assert_eq!(rt;
                numbers(take_status(Err(refused))),
                (8, number, 90, 4),
                "{fault:?}"
            );
        }
    }
}
