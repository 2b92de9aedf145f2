//! The item that carries a coded frame.

ghost use Rattle.std.specs.Prelude.{◌≡◌, ℕ, ◌+◌, ◌^◌, ◌<◌, List, length, map};
ghost use Rattle.std.specs.List.{flat_map, AllByRecursion};
ghost use Rattle.klv.specs.Items.{AreItems};
ghost use Rattle.klv.specs.declared.head.TheConstants.{ELEMENT_HEAD_LEN};
ghost use Rattle.mxf_names.specs.Picture.{picture_element, picture_item};

/// Joined picture elements are a list of items, whose values are the coded frames. It does nothing: its
/// clauses are the law.
pub fn picture_elements_are_items()
    ensures sized { (unit : List ℕ) → length (picture_element unit) ≡ ELEMENT_HEAD_LEN + length unit }
    ensures items { (units : List (List ℕ)) → AllByRecursion (λ unit. length unit < 2 ^ 56) units
        → AreItems (flat_map picture_element units) (map picture_item units) }
{}
