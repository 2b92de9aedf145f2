//! From sums to samples.

ghost use Rattle.std.specs.Prelude.{◌≡◌, ◌≤◌, ◌^◌, pos, ◌+ℤ◌};
ghost use Rattle.std.specs.Int.RustNames.{unsigned_abs};
ghost use Rattle.whole_transform.specs.Transform.{clamped, floored, sample};

/// The sample of a sum.
pub fn sample_of(sum: i64) -> u16
    requires { unsigned_abs sum ≤ 2 ^ 53 }
    ensures { result ≡ sample sum }
{
    clamped_sample(512 + rounded(sum))
}

/// A sum over 2^30, rounded.
fn rounded(sum: i64) -> i32
    requires { unsigned_abs sum ≤ 2 ^ 53 }
    ensures value { result ≡ floored (sum +ℤ pos (2 ^ 29)) (2 ^ 30) }
    ensures small { unsigned_abs result ≤ 2 ^ 25 }
{
    ((sum + (1 << 29)) >> 30) as i32
}

/// A number brought into 4 to 1019.
#[inline(always)]
pub fn clamped_sample(value: i32) -> u16
    ensures { result ≡ clamped value }
{
    value.max(4).min(1019) as u16
}
