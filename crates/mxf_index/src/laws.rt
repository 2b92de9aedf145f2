//! What segments are that we write, and what those say that are read.

ghost use Rattle.std.specs.Prelude.{◌≡◌, ◌≢◌, ℕ, ◌+◌, ◌*◌, ◌^◌, ◌<◌, ◌≤◌, List, ◌++◌, length, Some};
ghost use Rattle.klv.specs.Items as klv;
ghost use Rattle.klv.specs.Reads.{IsItemAt};
ghost use Rattle.rec_bytes.specs.Configuration.{Fields};
ghost use Rattle.rec_bytes.specs.laws.Bytes.{AreBytes};
ghost use Rattle.mxf_names.specs.declared.ids.Ids.{Ids};
ghost use Rattle.local_sets.specs.declared.value.TheConstants.{BATCH_HEAD_LEN};
ghost use Rattle.mxf_index.specs.Segments.{DeltaEntry, IndexEntry, IsSegment, Segment, delta_bytes, entry_bytes, segment_item};
ghost use Rattle.mxf_index.specs.Segments.{index_segment, segment_of};
ghost use Rattle.mxf_index.specs.Reads.{AreFrames, Frames, IsReadSegment, Refuses, frames_of, segment_saying};
ghost use Rattle.mxf_index.specs.declared.reading.Segment as read;
ghost use Rattle.mxf_index.specs.declared.fault.SegmentFault.{SegmentFault};
ghost use Rattle.mxf_index.specs.declared.fault.SegmentFault.TheVariants.{Memory};
ghost use Rattle.mxf_index.specs.declared.segment.TheConstants.{ITEMS_LEN, MAX_ENTRIES};
ghost use Rattle.mxf_index.specs.declared.tags.TheConstants.{DELTA_SIZE, ENTRY_SIZE};

use klv::items_are_unique;

/// A segment that is written is the segment of what it says, entries have the sizes that their arrays state, and no array
/// of more than the most entries has a length of two bytes. It does nothing: its clauses are the law.
pub fn segments_are_items()
    ensures segment { (s : Segment) → IsSegment (segment_item s) s }
    ensures delta { (delta : DeltaEntry) → length (delta_bytes delta) ≡ DELTA_SIZE }
    ensures entry { (entry : IndexEntry) → length (entry_bytes entry) ≡ ENTRY_SIZE }
    ensures fits { BATCH_HEAD_LEN + ENTRY_SIZE * MAX_ENTRIES < 2 ^ 16 }
    ensures most { 2 ^ 16 ≤ BATCH_HEAD_LEN + ENTRY_SIZE * (MAX_ENTRIES + 1) }
{}

/// An item says something of frames exactly where it is a segment of the kind that is written: of any identifier and
/// rate, and of frames that have room in it and whose offsets rise. It does nothing: its clauses are the law.
pub fn frames_are_of_segments()
    ensures back { (item : klv.Item) (id : List ℕ) (rate : ℕ × ℕ) (frames : Frames) → length id ≡ 16 → AreFrames frames
        → IsSegment item (segment_saying id rate frames) → frames_of item ≡ Some frames }
    ensures segment { (item : klv.Item) (frames : Frames) → AreBytes item.value → frames_of item ≡ Some frames
        → (id : List ℕ) × (rate : ℕ × ℕ) × (length id ≡ 16) × AreFrames frames × IsSegment item (segment_saying id rate frames) }
    // So a reader that holds no values needs no more than 65,647 bytes of one: a longer value says nothing.
    ensures sized { (item : klv.Item) (frames : Frames) → frames_of item ≡ Some frames
        → length item.value ≡ ITEMS_LEN + ENTRY_SIZE * length frames.streams }
    ensures longest { (item : klv.Item) (frames : Frames) → AreBytes item.value → frames_of item ≡ Some frames
        → length item.value ≤ ITEMS_LEN + ENTRY_SIZE * MAX_ENTRIES }
{}

/// What is written is read, whatever follows it. It does nothing: its clauses are the law.
pub fn segments_are_read_back()
    ensures stands { (cfg : Fields) (ids : Ids) (first : ℕ) (streams rest : List ℕ) → length ids.index ≡ 8 → length streams ≤ MAX_ENTRIES
        → IsItemAt (index_segment cfg ids first streams ++ rest) 0 (segment_item (segment_of cfg ids first streams)) }
    ensures says { (cfg : Fields) (ids : Ids) (first : ℕ) (streams : List ℕ) → length ids.index ≡ 8
        → AreFrames (record { first = first; streams = streams })
        → frames_of (segment_item (segment_of cfg ids first streams)) ≡ Some (record { first = first; streams = streams }) }
{}

/// Bytes begin with a segment that says one thing, or break one rule first, and not both. It does nothing: its clauses are
/// the law.
pub fn segment_refusals_are_exact()
    ensures none { (bytes : List ℕ) (segment : read.Segment) (fault : SegmentFault) → IsReadSegment bytes segment → Refuses bytes fault → fault ≡ Memory }
    ensures one { (bytes : List ℕ) (a b : SegmentFault) → Refuses bytes a → Refuses bytes b → a ≢ Memory → b ≢ Memory → a ≡ b }
    ensures segment { (bytes : List ℕ) (a b : read.Segment) → IsReadSegment bytes a → IsReadSegment bytes b
        → (a.first ≡ b.first) × (a.streams.items ≡ b.streams.items) }
{
    items_are_unique();
}
