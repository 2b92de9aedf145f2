ghost use Rattle.std.specs.Prelude.{◌≡◌, ◌++◌, ℕ, List};
ghost use Rattle.prores_codes.specs.Codes.{Parameters, Spells};

/// Shows that no spelling by a code is the beginning of another: bits begin with one spelling at most, and it is of one
/// number. It does nothing when it runs.
pub fn spellings_are_apart()
    ensures { (code : Parameters) (one two rest others : List ℕ) (m n : ℕ) → Spells code one m → Spells code two n
        → one ++ rest ≡ two ++ others → (one ≡ two) × (m ≡ n) }
{}
