//! The frame rate, as a rational.

ghost use Rattle.std.specs.Prelude.{◌≡◌};
ghost use Rattle.mxf_names.specs.EditRates.{edit_rate};

/// The edit rate of a frame rate code in frames a second, as numerator and denominator.
pub fn edit_rate(rate: u8) -> (u32, u32)
    ensures { result ≡ edit_rate rate }
{
    match rate {
        1 => (24_000, 1001),
        2 => (24, 1),
        3 => (25, 1),
        4 => (30_000, 1001),
        5 => (30, 1),
        6 => (50, 1),
        7 => (60_000, 1001),
        _ => (60, 1),
    }
}
