//! Laws of frames. The functions do nothing when they run.

ghost use Rattle.frame_codec.specs.Laws.{CodedFramesAreOne, CodedFramesAreShort, CodedFramesGiveBack, CodedFramesMean, FramesMeanOne, RefusalsAreOne, RefusedMeansNothing};

use frame_syntax::{refusals_are_exact, written_frames_are_frames};

/// Bytes mean one picture at most.
pub fn frames_mean_one()
    ensures { FramesMeanOne }
{}

/// Bytes that are refused mean no picture.
pub fn refused_means_nothing()
    ensures { RefusedMeansNothing }
{}

/// Bytes that are refused are refused by one fault, want of memory aside.
pub fn refusals_are_one()
    ensures { RefusalsAreOne }
{
    refusals_are_exact();
}

/// The frame of a picture means the picture that its levels give back, and there is one.
pub fn coded_frames_mean()
    ensures means { CodedFramesMean }
    ensures there { CodedFramesGiveBack }
{
    written_frames_are_frames();
}

/// A picture has one frame.
pub fn coded_frames_are_one()
    ensures { CodedFramesAreOne }
{
    written_frames_are_frames();
}

/// The frame of a picture has at least one byte, and at most 2^28.
pub fn coded_frames_are_short()
    ensures { CodedFramesAreShort }
{}
