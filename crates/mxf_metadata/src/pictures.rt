//! What the metadata says of pictures.

ghost use Rattle.std.specs.Prelude.{◌≡◌, ◌≤◌};
ghost use Rattle.rec_bytes.specs.Views.{view};
ghost use Rattle.rec_bytes.specs.declared.config_fields.TheConstants.{MAX_CODING};
ghost use Rattle.mxf_names.specs.EditRates.{edit_rate};
ghost use Rattle.mxf_metadata.specs.Pictures.{timecode_base, frame_layout, stored_height, aspect_ratio, coding_label};

use rec_bytes::Config;

/// Frames a second, rounded.
pub fn timecode_base(rate: u8) -> u16
    ensures { result ≡ timecode_base rate }
{
    match rate {
        1 | 2 => 24,
        3 => 25,
        4 | 5 => 30,
        6 => 50,
        _ => 60,
    }
}

/// How the rows of a frame are stored.
pub fn frame_layout(cfg: &Config) -> u8
    ensures { result ≡ frame_layout (view cfg.now) }
{
    if cfg.interlace == 0 { 0 } else { 1 }
}

/// The rows that are stored together.
pub fn stored_height(cfg: &Config) -> u32
    ensures { result ≡ stored_height (view cfg.now) }
{
    if cfg.interlace == 0 {
        u32::from(cfg.height)
    } else {
        u32::from(cfg.height / 2)
    }
}

/// Width to height of the picture as it is shown.
pub fn aspect_ratio(cfg: &Config) -> (u32, u32)
    ensures { result ≡ aspect_ratio (view cfg.now) }
{
    match cfg.aspect {
        2 => (4, 3),
        3 => (16, 9),
        _ => (u32::from(cfg.width), u32::from(cfg.height)),
    }
}

/// The label of the picture coding.
pub fn coding_label(coding: u8) -> [u8; 16]
    requires { coding ≤ MAX_CODING }
    ensures { result ≡ coding_label coding }
{
    [
        0x06,
        0x0e,
        0x2b,
        0x34,
        0x04,
        0x01,
        0x01,
        0x0d,
        0x04,
        0x01,
        0x02,
        0x02,
        0x03,
        0x06,
        coding + 1,
        0x00,
    ]
}
