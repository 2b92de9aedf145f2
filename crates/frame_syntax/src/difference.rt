//! A frame's size against a configuration.

ghost use Rattle.std.specs.Prelude.{◌≡◌};
ghost use Rattle.rec_bytes.specs.Views.{view};
ghost use Rattle.frame_syntax.specs.Differences.{first_difference};

use crate::frame_head::{FORMAT_AT, FrameHead, HEIGHT_AT, WIDTH_AT};
use rec_bytes::Config;

/// The byte of the first of width, height and interlace mode in which a frame isn't as configured (own rule).
pub fn differs(head: &FrameHead, cfg: &Config) -> Option<usize>
    ensures { result ≡ first_difference head.now (view cfg.now) }
{
    if head.width != cfg.width {
        return Some(WIDTH_AT);
    }
    if head.height != cfg.height {
        return Some(HEIGHT_AT);
    }
    if head.interlace != cfg.interlace {
        return Some(FORMAT_AT);
    }
    None
}
