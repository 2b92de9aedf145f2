//! What is true of every judgement.

ghost use Rattle.std.specs.Prelude.{◌≡◌, ◌⊎◌, ◌↔◌, ℕ, List, None};
ghost use Rattle.std.specs.List.{AllByRecursion};
ghost use Rattle.klv.specs.Items.{Item};
ghost use Rattle.klv.specs.Outline.{Outline};
ghost use Rattle.mxf_op1a.specs.Clauses.{broken_1, broken_2, broken_3, broken_4, broken_5, broken_6, broken_7, broken_8, broken_9, broken_10, stream_offsets};
ghost use Rattle.mxf_op1a.specs.Contents.{Placed};
ghost use Rattle.mxf_op1a.specs.Kept.{CountsLengths, CountsStream, EndsWithRandomIndex, HasMetadata, HoldsElements, IndexesElements, IsHeaderToFooter};
ghost use Rattle.mxf_op1a.specs.Kept.{Keeps, NamesPartitions, NamesPlaces, StatesDuration};
ghost use Rattle.mxf_op1a.specs.Op1a.{BreaksFirst, IsOp1a, first_broken, units_in};
ghost use Rattle.mxf_op1a.specs.Partitions.{File, Part};
ghost use Rattle.mxf_op1a.specs.declared.breaks.Break.{Break};

use klv::outlines_are_one;

/// Bytes are the file of one list of units at most. They break one clause first, at one place, or none, and they break
/// none exactly where they are a file. It does nothing: its clauses are the law.
pub fn files_are_judged_once()
    ensures units { (bytes : List ℕ) (a b : List (List ℕ)) → IsOp1a bytes a → IsOp1a bytes b → a ≡ b }
    ensures first { (bytes : List ℕ) (a b : Break) → BreaksFirst bytes a → BreaksFirst bytes b → a ≡ b }
    ensures apart { (bytes : List ℕ) (units : List (List ℕ)) (broken : Break) → IsOp1a bytes units → ¬ BreaksFirst bytes broken }
    ensures judged { (bytes : List ℕ) (outline : Outline bytes)
        → IsOp1a bytes (units_in outline.items) ⊎ ((broken : Break) × BreaksFirst bytes broken) }
{
    outlines_are_one();
}

/// The first four clauses are kept exactly where their relations hold. It does nothing: its clauses are the law.
pub fn partitions_are_relations()
    ensures ends { (len stop : ℕ) (items : List Placed) → broken_1 stop len items ≡ None ↔ EndsWithRandomIndex len stop items }
    ensures named { (items : List Placed) (all : List Part) → broken_2 items all ≡ None ↔ NamesPartitions items all }
    ensures places { (all : List Part) → broken_3 0 all ≡ None ↔ NamesPlaces all }
    ensures kinds { (len : ℕ) (all : List Part) → broken_4 len all ≡ None ↔ IsHeaderToFooter all }
{}

/// So are those on elements, durations, index tables and lengths, that on index tables where body offsets are kept. It does
/// nothing: its clauses are the law.
pub fn elements_are_relations()
    ensures stream { (bodies : List Part) → broken_5 0 bodies ≡ None ↔ CountsStream bodies }
    ensures held { (len : ℕ) (front : List Placed) (file : File) → broken_6 len front file ≡ None ↔ HoldsElements front file }
    ensures lasting { (count : ℕ) (file : File) → broken_8 count file ≡ None ↔ StatesDuration count file }
    ensures indexed { (len : ℕ) (bodies : List Part) (segments : List Placed) → CountsStream bodies
        → (broken_9 len 0 (stream_offsets 0 bodies) segments ≡ None ↔ IndexesElements bodies segments) }
    ensures lengths { (all : List Part) → broken_10 all ≡ None ↔ AllByRecursion CountsLengths all }
{}

/// So is the clause on metadata, and bytes break no clause exactly where all these relations hold. It does nothing: its
/// clauses are the law.
pub fn kept_clauses_are_relations()
    ensures metadata { (len : ℕ) (file : File) → broken_7 len file ≡ None ↔ HasMetadata file }
    ensures all { (len : ℕ) (items : List Item) → first_broken len items ≡ None ↔ Keeps len items }
{}
