//! Division in 16-bit lanes, by multiplication.

ghost use Rattle.std.specs.Prelude.{◌≡◌, ◌≤◌, ◌/◌};
ghost use Rattle.prores_scan.specs.inner.Reciprocals.{IsReciprocal};

/// A divisor with its reciprocal. A loop that divides by it compiles to multiplications of eight
/// numbers at a time.
#[derive(Clone, Copy, Debug)]
pub struct Reciprocal {
    /// What is divided by, 2 to 1024.
    pub divisor: u16,
    factor: u16,
    shift: u32,
    ghost exact: { IsReciprocal divisor factor shift },
}

impl Reciprocal {
    /// Finds the reciprocal, by one division.
    pub fn new(divisor: u16) -> Self
        requires { (2 ≤ divisor) × (divisor ≤ 1024) }
        ensures { result.divisor ≡ divisor }
    {
        let shift = 15 - (divisor - 1).leading_zeros();
        let whole = 1u32 << (16 + shift);
        let factor = ((whole + u32::from(divisor) - 1) / u32::from(divisor)) as u16;
        Reciprocal {
            divisor,
            factor,
            shift,
        }
    }

    /// The quotient, cut to a whole number.
    #[inline(always)]
    pub fn quotient(self, x: u16) -> u16
        requires { x ≤ 32800 }
        ensures { result ≡ x / self.divisor }
    {
        ((u32::from(x) * u32::from(self.factor)) >> 16) as u16 >> self.shift
    }
}
