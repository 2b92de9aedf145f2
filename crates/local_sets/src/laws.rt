//! What a set's bytes say of its items.

ghost use Rattle.std.specs.Prelude.{◌≡◌, ℕ, List, ◌++◌, map};
ghost use Rattle.std.specs.List.{AllByRecursion};
ghost use Rattle.local_sets.specs.declared.set.Item.{Item};
ghost use Rattle.local_sets.specs.Sets.{IsRawItem, IsSet, RawItem, raw, raw_bytes, set_item, set_value};

/// Bytes are the items of a set in one way at most, and a set that is written is one of the items that were given. It
/// does nothing: its clauses are the law.
pub fn set_items_are_unique()
    // No item begins another.
    ensures first { (a b : RawItem) (x y : List ℕ) → IsRawItem a → IsRawItem b
        → raw_bytes a ++ x ≡ raw_bytes b ++ y → (a ≡ b) × (x ≡ y) }
    ensures unique { (a b : List RawItem) → AllByRecursion IsRawItem a → AllByRecursion IsRawItem b
        → set_value a ≡ set_value b → a ≡ b }
    ensures ours { (key : List ℕ) (items : List Item) → AllByRecursion (λ item. IsRawItem (raw item)) items
        → IsSet (set_item key items) key (map raw items) }
{}
