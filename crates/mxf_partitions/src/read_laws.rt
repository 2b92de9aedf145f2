//! What reading and writing packs have in common.

ghost use Rattle.std.specs.Prelude.{◌≡◌, ◌≢◌, ◌<◌, ◌≤◌, ◌^◌, ◌++◌, ℕ, List, Some, length};
ghost use Rattle.std.specs.List.{AllByRecursion};
ghost use Rattle.klv.specs.Items.{Item, IsItem, spelled};
ghost use Rattle.klv.specs.Reads.{IsItemAt};
ghost use Rattle.mxf_partitions.specs.Partitions.{IsPack, pack_item, partition_pack};
ghost use Rattle.mxf_partitions.specs.RandomIndex.{IsRandomIndex, random_index_item, random_index_pack};
ghost use Rattle.mxf_partitions.specs.Ranges.{AreBytes, IsInRange, IsEntryInRange};
ghost use Rattle.mxf_partitions.specs.Reads.{pack_of, entries_of};
ghost use Rattle.mxf_partitions.specs.Refusals.{IsReadPack, IsReadIndex, RefusesFront, RefusesIndex};
ghost use Rattle.mxf_partitions.specs.declared.fault.PackFault.{PackFault};
ghost use Rattle.mxf_partitions.specs.declared.partition.Partition.{Partition};
ghost use Rattle.mxf_partitions.specs.declared.random_index.PackEntry.{PackEntry};
ghost use Rattle.mxf_partitions.specs.declared.random_index.TheConstants.{MAX_ENTRIES};

use klv::items_are_unique;

/// What is written is read back as it was given, whatever follows it. It does nothing: its clauses are the law.
pub fn packs_read_back()
    ensures pack { (p : Partition) → IsInRange p → p.label_count ≡ 1 → pack_of (pack_item p) ≡ Some p }
    ensures pack_stands { (p : Partition) (rest : List ℕ) → IsInRange p → IsItemAt (partition_pack p ++ rest) 0 (pack_item p) }
    ensures index { (entries : List PackEntry) → AllByRecursion IsEntryInRange entries → length entries ≤ MAX_ENTRIES
        → entries_of (random_index_item entries) ≡ Some entries }
    ensures index_stands { (entries : List PackEntry) (rest : List ℕ) → length entries ≤ MAX_ENTRIES
        → IsItemAt (random_index_pack entries ++ rest) 0 (random_index_item entries) }
{}

/// An item of bytes says as a pack what it is the pack of, and nothing else. It does nothing: its clauses are the law.
pub fn packs_say_what_stands()
    ensures pack { (item : Item) (p : Partition) → IsItem item → AreBytes item.value → pack_of item ≡ Some p
        → (labels : List (List ℕ)) × IsPack item p labels }
    ensures pack_said { (item : Item) (p : Partition) (labels : List (List ℕ)) → IsInRange p → IsPack item p labels
        → pack_of item ≡ Some p }
    ensures index { (item : Item) (entries : List PackEntry) → AreBytes item.value → entries_of item ≡ Some entries
        → IsRandomIndex item entries }
    ensures index_said { (item : Item) (entries : List PackEntry) → AllByRecursion IsEntryInRange entries
        → length (spelled item) < 256 ^ 4 → IsRandomIndex item entries → entries_of item ≡ Some entries }
{}

/// At the front of bytes stands a pack or one refusal, and not both, want of memory aside. It does nothing: its clauses
/// are the law.
pub fn pack_refusals_are_exact()
    ensures pack_none { (bytes : List ℕ) (p : Partition) (fault : PackFault) → RefusesFront bytes fault → ¬ IsReadPack bytes p }
    ensures pack_one { (bytes : List ℕ) (a b : PackFault) → RefusesFront bytes a → RefusesFront bytes b → a ≡ b }
    ensures index_none { (bytes : List ℕ) (entries : List PackEntry) (fault : PackFault) → fault ≢ PackFault.Memory
        → RefusesIndex bytes fault → ¬ IsReadIndex bytes entries }
    ensures index_one { (bytes : List ℕ) (a b : PackFault) → a ≢ PackFault.Memory → b ≢ PackFault.Memory
        → RefusesIndex bytes a → RefusesIndex bytes b → a ≡ b }
{
    items_are_unique();
}
