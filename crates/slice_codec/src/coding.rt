//! What a configuration says of coding its slices.

ghost use Rattle.std.specs.Prelude.{◌≡◌};
ghost use Rattle.rec_bytes.specs.Views.{view};
ghost use Rattle.slice_codec.specs.Setups.{IsSetup};

use crate::setup::SliceSetup;
use rec_bytes::Config;
use slice_levels::Weighing;

/// What a configuration says of coding its slices.
#[derive(Clone, Copy)]
pub struct Coding {
    /// The configuration.
    pub config: Config,
    pub(crate) luma: Weighing,
    pub(crate) chroma: Weighing,
    ghost setup: { IsSetup (view config) (record { scan = luma.scan; luma = luma.weights; chroma = chroma.weights }) },
    ghost scan: { chroma.scan ≡ luma.scan },
}

/// Prepares the weights of a configuration.
pub fn coding_of(cfg: &Config) -> Coding
    ensures { result.config ≡ cfg.now }
{
    let setup = SliceSetup::of(cfg);
    let luma = Weighing::new(setup.scan, &setup.luma);
    let chroma = Weighing::new(setup.scan, &setup.chroma);
    Coding {
        config: *cfg,
        luma,
        chroma,
    }
}
