ghost use Rattle.std.specs.Prelude.{◌≤◌};

/// A combination code (RDD 36): the Rice code of `r` low bits for numbers of at most `a` zeros, and above them the
/// exponential Golomb code of order `e`.
#[derive(Clone, Copy, Debug, PartialEq, Eq)]
pub struct Code {
    /// The most zeros of a short spelling.
    pub a: u8,
    /// The low bits of a short spelling.
    pub r: u8,
    /// The order of the long spellings.
    pub e: u8,
    ghost switch: { a ≤ 2 },
    ghost rice: { r ≤ 5 },
    ghost golomb: { e ≤ 6 },
}
