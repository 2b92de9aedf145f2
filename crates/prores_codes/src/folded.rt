ghost use Rattle.std.specs.Prelude.{◌≡◌, ℤ, pos, negsuc};
ghost use Rattle.std.specs.Int.Signed.{◌<ℤ◌};
ghost use Rattle.prores_codes.specs.Folded.{folded};

/// A signed number as a natural one: 0, -1, 1, -2 become 0, 1, 2, 3.
pub fn fold(v: i32) -> u32
    requires { negsuc 2147483647 <ℤ v }
    ensures { result ≡ folded v }
{
    let twice = 2 * v.unsigned_abs();
    if v < 0 { twice - 1 } else { twice }
}

/// The signed number that is folded so.
pub fn unfold(n: u32) -> i32
    ensures folded { folded result ≡ n }
    ensures again { (v : ℤ) → folded v ≡ n → result ≡ v }
{
    let half = (n / 2) as i32;
    if n % 2 == 0 { half } else { -1 - half }
}
