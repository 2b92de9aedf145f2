//! Lists of items.

ghost use Rattle.std.specs.Prelude.{◌≡◌, ◌+◌, ℕ, List, ◌++◌, length};
ghost use Rattle.klv.specs.Items.{Item, IsItem, AreItems, EndsInside, klv_head, spelled};

/// Bytes are one list of items at most, down to the forms of the lengths, and none where they end inside an
/// item. It does nothing: its clauses are the law.
pub fn items_are_unique()
    // No item begins another.
    ensures first { (a b : Item) (x y : List ℕ) → IsItem a → IsItem b
        → spelled a ++ x ≡ spelled b ++ y → (a ≡ b) × (x ≡ y) }
    ensures unique { (bytes : List ℕ) (a b : List Item) → AreItems bytes a → AreItems bytes b → a ≡ b }
    ensures whole { (bytes : List ℕ) (items : List Item) → EndsInside bytes → ¬ AreItems bytes items }
{}

/// How many bytes stand before a value, and how many an item has. It does nothing: its clauses are the law.
pub fn items_have_lengths()
    ensures head { (key : List ℕ) (form len : ℕ) → length key ≡ 16 → length (klv_head key form len) ≡ 17 + form }
    ensures whole { (item : Item) → length item.key ≡ 16 → length (spelled item) ≡ 17 + item.form + length item.value }
{}
