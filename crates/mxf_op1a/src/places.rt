//! Where clauses are broken.

ghost use Rattle.std.specs.Prelude.{◌≡◌, ◌↔◌, ℕ, List, length, Some};
ghost use Rattle.klv.specs.Items.{Item};
ghost use Rattle.klv.specs.Outline.{Outline};
ghost use Rattle.mxf_op1a.specs.Broken.{BreaksDuration, BreaksElements, BreaksEnd, BreaksIndex, BreaksKinds, BreaksLengths, BreaksNames, BreaksPlaces};
ghost use Rattle.mxf_op1a.specs.Broken.{BreaksStream};
ghost use Rattle.mxf_op1a.specs.BrokenMetadata.{BreaksMetadata};
ghost use Rattle.mxf_op1a.specs.Clauses.{broken_1, broken_2, broken_3, broken_4, broken_5, broken_6, broken_7, broken_8, broken_9, broken_10, stream_offsets};
ghost use Rattle.mxf_op1a.specs.Contents.{Placed};
ghost use Rattle.mxf_op1a.specs.FirstBroken.{Breaks};
ghost use Rattle.mxf_op1a.specs.Kept.{CountsStream};
ghost use Rattle.mxf_op1a.specs.Op1a.{BreaksFirst, first_broken};
ghost use Rattle.mxf_op1a.specs.Partitions.{File, Part};
ghost use Rattle.mxf_op1a.specs.declared.breaks.Break.{Break};

use klv::outlines_are_one;

/// The clauses on lists of partitions and sets name the place of the first with which they are no longer kept. It does
/// nothing: its clauses are the law.
pub fn first_breaks_are_named()
    ensures places { (all : List Part) (at : ℕ) → broken_3 0 all ≡ Some at ↔ BreaksPlaces all at }
    ensures stream { (bodies : List Part) (at : ℕ) → broken_5 0 bodies ≡ Some at ↔ BreaksStream bodies at }
    ensures lasting { (count : ℕ) (file : File) (at : ℕ) → broken_8 count file ≡ Some at ↔ BreaksDuration count file at }
    ensures lengths { (all : List Part) (at : ℕ) → broken_10 all ≡ Some at ↔ BreaksLengths all at }
{}

/// Others name the place of an item or a partition that breaks them, or the file's length where one is missing. It does
/// nothing: its clauses are the law.
pub fn breaks_are_named()
    ensures ends { (len stop : ℕ) (items : List Placed) (at : ℕ) → broken_1 stop len items ≡ Some at ↔ BreaksEnd len stop items at }
    ensures named { (items : List Placed) (all : List Part) (at : ℕ) → broken_2 items all ≡ Some at ↔ BreaksNames items all at }
    ensures kinds { (len : ℕ) (all : List Part) (at : ℕ) → broken_4 len all ≡ Some at ↔ BreaksKinds len all at }
    ensures held { (len : ℕ) (front : List Placed) (file : File) (at : ℕ) → broken_6 len front file ≡ Some at ↔ BreaksElements len front file at }
    ensures indexed { (len : ℕ) (bodies : List Part) (segments : List Placed) (at : ℕ) → CountsStream bodies
        → (broken_9 len 0 (stream_offsets 0 bodies) segments ≡ Some at ↔ BreaksIndex len bodies segments at) }
{}

/// The clause on metadata names the least place where those of header or footer are wrong. Of all clauses, one
/// is broken first where those before it are kept, whichever outline of the bytes is given. It does nothing: its clauses are
/// the law.
pub fn first_broken_clause_is_named()
    ensures metadata { (len : ℕ) (file : File) (at : ℕ) → broken_7 len file ≡ Some at ↔ BreaksMetadata len file at }
    ensures first { (len : ℕ) (items : List Item) (broken : Break) → first_broken len items ≡ Some broken ↔ Breaks len items broken }
    ensures file { (bytes : List ℕ) (outline : Outline bytes) (broken : Break)
        → BreaksFirst bytes broken ↔ Breaks (length bytes) outline.items broken }
{
    outlines_are_one();
}
