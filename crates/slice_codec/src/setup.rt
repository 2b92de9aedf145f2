//! What a frame says of all its slices.

ghost use Rattle.std.specs.Prelude.{◌≡◌, false, true};
ghost use Rattle.rec_bytes.specs.Views.{view};
ghost use Rattle.prores_scan.specs.WeightsAndScales.{AreSmall};
ghost use Rattle.slice_codec.specs.Setups.{IsSetup, scan_of};
ghost use Rattle.slice_codec.specs.Views.{as_setup};

use prores_scan::{Scan, weights};
use rec_bytes::Config;

/// What a frame says of all its slices.
#[derive(Clone, Copy, Debug, PartialEq, Eq)]
pub struct SliceSetup {
    /// The order of a block's coefficients.
    pub scan: Scan,
    /// The weights of Y, in raster order.
    pub luma: [u8; 64],
    /// The weights of Cb and Cr, in raster order.
    pub chroma: [u8; 64],
}

impl SliceSetup {
    /// What a configuration says of the slices of its frames.
    pub fn of(cfg: &Config) -> SliceSetup
        ensures setup { IsSetup (view cfg.now) (as_setup result) }
        ensures luma { AreSmall result.luma }
        ensures chroma { AreSmall result.chroma }
    {
        SliceSetup {
            scan: scan_of(cfg.interlace),
            luma: weights(cfg.weights, false),
            chroma: weights(cfg.weights, true),
        }
    }
}

/// The scan of a frame of this interlace mode.
pub fn scan_of(interlace: u8) -> Scan
    ensures { result ≡ scan_of interlace }
{
    if interlace == 0 {
        Scan::Progressive
    } else {
        Scan::Field
    }
}
