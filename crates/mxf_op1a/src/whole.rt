//! What partitions and units are of a file.

ghost use Rattle.std.specs.Prelude.{◌≡◌, ◌↔◌, ℕ, ◌<◌, List, length, map};
ghost use Rattle.std.specs.List.{flat_map, AllByRecursion};
ghost use Rattle.std.specs.List.Sorted.{IsStrictlyIncreasing};
ghost use Rattle.klv.specs.Items.{Item};
ghost use Rattle.klv.specs.Outline.{Outline};
ghost use Rattle.mxf_op1a.specs.Broken.{item_at};
ghost use Rattle.mxf_op1a.specs.Contents.{Placed, placed_from};
ghost use Rattle.mxf_op1a.specs.Kept.{Keeps, offsets_in};
ghost use Rattle.mxf_op1a.specs.Op1a.{IsOp1a, units_in};
ghost use Rattle.mxf_op1a.specs.Partitions.{parts};
ghost use Rattle.mxf_op1a.specs.Whole.{ArePartitions, IsFileOf, StandsIn, bodies_of, values_in};

use klv::items_have_lengths;

/// Items stand at their places, which rise and are below the file's length, so that the first of items is the lowest. It
/// does nothing: its clauses are the law.
pub fn items_stand_at_their_places()
    ensures stand { (bytes : List ℕ) (outline : Outline bytes) → AllByRecursion (StandsIn bytes) (placed_from 0 outline.items) }
    ensures rise { (bytes : List ℕ) (outline : Outline bytes) → IsStrictlyIncreasing (map item_at (placed_from 0 outline.items)) }
    ensures inside { (bytes : List ℕ) (outline : Outline bytes)
        → AllByRecursion (λ p. p.at < length bytes) (placed_from 0 outline.items) }
{
    items_have_lengths();
}

/// Partitions are those of the packs, in order, and an OP1a file is items that keep the clauses, whose bodies hold the units,
/// one entry of the index tables for each. It does nothing: its clauses are the law.
pub fn files_are_items_in_partitions()
    ensures partitions { (len : ℕ) (items : List Placed) → ArePartitions len items (parts len items) }
    ensures file { (bytes : List ℕ) (units : List (List ℕ)) → IsOp1a bytes units ↔ IsFileOf bytes units }
    ensures units { (len : ℕ) (items : List Item) → Keeps len items → units_in items ≡ flat_map values_in (bodies_of len items) }
    ensures entries { (len : ℕ) (items : List Item) → Keeps len items
        → length (flat_map offsets_in (bodies_of len items)) ≡ length (units_in items) }
{}
