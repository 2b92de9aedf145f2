//! The units of a feed, each read as a frame.

ghost use Rattle.std.specs.Prelude.{◌≡◌, IfSome, IfNone};
ghost use Rattle.rec_bytes.specs.Views.{view};
ghost use Rattle.run_parts.specs.Statuses.{unit_answer};
ghost use Rattle.run_parts.specs.Units.{IsRead, RefusesUnit};

use crate::status::refusal;
use frame_syntax::{FrameFault, differs, read_frame};
use rec_bytes::{Config, Status};
use thiserror::Error;

/// Why a unit of a feed is refused.
#[derive(Clone, Copy, Debug, PartialEq, Eq, Error)]
pub enum UnitFault {
    /// It is no frame.
    #[error(transparent)]
    Frame(FrameFault),
    /// The frame's width, height or interlace mode, which stands at this byte, isn't the configured one.
    #[error("the frame isn't as configured at byte {at}")]
    Differs { at: u64 },
}

/// Why a unit is refused: the first rule of frames that it breaks, else where it isn't as configured.
pub fn unit_fault(unit: &[u8], cfg: &Config) -> Option<UnitFault>
    ensures read { IfNone result (IsRead (view cfg.now) unit.now) }

    ensures refused { IfSome result (RefusesUnit (view cfg.now) unit.now) }
{
    match read_frame(unit) {
        Ok(parts) => match differs(&parts.head, cfg) {
            Some(at) => Some(UnitFault::Differs { at: at as u64 }),
            None => None,
        },
        Err(fault) => Some(UnitFault::Frame(fault)),
    }
}

/// The answer where the unit of this number is refused (docs/FORMATS.md, "Refusals").
pub fn unit_status(unit: u64, fault: UnitFault) -> Status
    ensures { result ≡ unit_answer unit fault }
{
    match fault {
        UnitFault::Frame(FrameFault::FrameShort { at, .. }) => refusal(8, 30, at, unit),
        UnitFault::Frame(FrameFault::NotIcpf { at, .. }) => refusal(8, 31, at, unit),
        UnitFault::Frame(FrameFault::SizeWord { at, .. }) => refusal(8, 32, at, unit),
        UnitFault::Frame(FrameFault::HeadSize { at, .. }) => refusal(8, 33, at, unit),
        UnitFault::Frame(FrameFault::Version { at, .. }) => refusal(8, 34, at, unit),
        UnitFault::Frame(FrameFault::Chroma { at, .. }) => refusal(8, 35, at, unit),
        UnitFault::Frame(FrameFault::Interlace { at, .. }) => refusal(8, 36, at, unit),
        UnitFault::Frame(FrameFault::Dimensions { at, .. }) => refusal(8, 37, at, unit),
        UnitFault::Frame(FrameFault::Alpha { at, .. }) => refusal(8, 38, at, unit),
        UnitFault::Frame(FrameFault::PictureSize { at, .. }) => refusal(8, 40, at, unit),
        UnitFault::Frame(FrameFault::SliceTable { at, .. }) => refusal(8, 41, at, unit),
        UnitFault::Differs { at } => refusal(8, 42, at, unit),
    }
}
