//! Bytes as items, as far as they go.

ghost use Rattle.std.specs.Prelude.{◌≡◌, ℕ, List};
ghost use Rattle.klv.specs.Outline.{Outline};

/// Bytes have one outline at most. It does nothing: its clauses are the law.
pub fn outlines_are_one()
    ensures items { (bytes : List ℕ) (a b : Outline bytes) → a.items ≡ b.items }
    ensures rest { (bytes : List ℕ) (a b : Outline bytes) → a.rest ≡ b.rest }
{}
