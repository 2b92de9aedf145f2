//! What packs are that we write.

ghost use Rattle.std.specs.Prelude.{◌≡◌, ℕ, ◌+◌, ◌*◌, ◌^◌, ◌<◌, ◌≤◌, List, [], ◌∷◌, length};
ghost use Rattle.mxf_partitions.specs.Partitions.{IsPack, pack_item};
ghost use Rattle.mxf_partitions.specs.RandomIndex.{IsRandomIndex, random_index_item};
ghost use Rattle.mxf_partitions.specs.declared.partition.Partition.{Partition};
ghost use Rattle.mxf_partitions.specs.declared.random_index.PackEntry.{PackEntry};
ghost use Rattle.mxf_partitions.specs.declared.partition.TheConstants.{LABEL_LEN};
ghost use Rattle.mxf_partitions.specs.declared.random_index.TheConstants.{MAX_ENTRIES, PACK_ENTRY_LEN, PACK_END_LEN};

/// A partition pack that is written is the pack of its fields and its one label, a random index pack that of its entries
/// and its own length, and no pack of more than the most entries has a length of three bytes. It does nothing: its clauses
/// are the law.
pub fn packs_are_items()
    ensures pack { (p : Partition) → p.label_count ≡ 1 → length p.label ≡ LABEL_LEN → IsPack (pack_item p) p (p.label ∷ []) }
    ensures random_index { (entries : List PackEntry) → IsRandomIndex (random_index_item entries) entries }
    ensures fits { PACK_ENTRY_LEN * MAX_ENTRIES + PACK_END_LEN < 256 ^ 3 }
    ensures most { 256 ^ 3 ≤ PACK_ENTRY_LEN * (MAX_ENTRIES + 1) + PACK_END_LEN }
{}
