//! What is read of an item, by the relations that the writers serve.

ghost use Rattle.std.specs.Prelude.{◌≡◌, ◌<◌, ℕ, List, [], Some, length, slice_index};
ghost use Rattle.klv.specs.Items.{Item};
ghost use Rattle.local_sets.specs.Sets.{IsSet, RawItem};
ghost use Rattle.mxf_names.specs.Keys.{set_key};
ghost use Rattle.mxf_metadata_reader.specs.PlacedSets.{ReadSet, set_of};
ghost use Rattle.mxf_metadata_reader.specs.PrimerTags.{tags_of_primer};
ghost use Rattle.mxf_metadata_reader.specs.Relations.{IsPrimerOf};

/// An item that is read as a set or as a primer pack is spelled as one, and a set that is spelled is read. It does
/// nothing: its clauses are the law.
pub fn sets_are_items()
    ensures set { (item : Item) (set : ReadSet) → length item.key ≡ 16 → ((k : ℕ) → slice_index item.value k < 256)
        → set_of item ≡ Some set → set.rest ≡ [] → IsSet item (set_key set.kind) set.items }
    ensures spelled { (item : Item) (kind : ℕ) (items : List RawItem) → IsSet item (set_key kind) items
        → set_of item ≡ Some (record { kind = kind; items = items; rest = [] }) }
    ensures primer { (item : Item) (tags : List ℕ) → ((k : ℕ) → slice_index item.value k < 256)
        → tags_of_primer item ≡ Some tags → IsPrimerOf item tags }
{}
