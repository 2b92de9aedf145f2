//! What is true of every file of the layout.

ghost use Rattle.std.specs.Prelude.{◌≡◌, ◌≤◌, ◌<◌, ◌+◌, ◌-◌, ◌*◌, ◌%◌, ℕ, List, [], ◌∷◌, ◌++◌, Some, None, length, map, take, drop, slice_index};
ghost use Rattle.std.specs.List.{flat_map, range_with_len};
ghost use Rattle.mxf_names.specs.declared.streams.TheConstants.{ESSENCE_STREAM};
ghost use Rattle.klv.specs.Items.{klv_head, spelled};
ghost use Rattle.klv.specs.declared.head.TheConstants.{ELEMENT_HEAD_LEN};
ghost use Rattle.mxf_names.specs.Identifiers.{ids_of};
ghost use Rattle.mxf_names.specs.Picture.{picture_element};
ghost use Rattle.mxf_names.specs.declared.keys.TheConstants.{PICTURE_ELEMENT_KEY};
ghost use Rattle.mxf_partitions.specs.RandomIndex.{random_index_pack};
ghost use Rattle.mxf_partitions.specs.declared.partition.TheConstants.{PACK_LEN};
ghost use Rattle.mxf_metadata.specs.Metadata.{metadata};
ghost use Rattle.mxf_metadata.specs.declared.lengths.TheConstants.{METADATA};
ghost use Rattle.rec_bytes.specs.Configuration.{Fields};
ghost use Rattle.rec_bytes.specs.Ranges.{IsInRange};
ghost use Rattle.mxf_take_file.specs.Essence.{essence, stream_offsets};
ghost use Rattle.mxf_take_file.specs.Extents.{body_count, extents, file_len};
ghost use Rattle.mxf_take_file.specs.Items.{closed_items};
ghost use Rattle.mxf_take_file.specs.Layout.{closed, growing, head, lead, tail};
ghost use Rattle.mxf_take_file.specs.Packs.{body_pack, entry, footer_pack, header_pack, pack_entries};
ghost use Rattle.mxf_take_file.specs.Stands.{NamesIndex, SegmentStands};

/// Packs stand where they say, a body partition's behind the essence that it counts, and the growing file has the length
/// that they count. It does nothing: its clauses are the law.
pub fn packs_stand_where_they_say()
    ensures length { (cfg : Fields) (units : List (List ℕ)) → IsInRange cfg
        → length (growing cfg units) ≡ file_len cfg.part units }
    ensures body { (cfg : Fields) (units : List (List ℕ)) → IsInRange cfg
        → (body_pack cfg (extents cfg.part units)).this ≡ length (growing cfg units) }
    ensures offset { (cfg : Fields) (units : List (List ℕ))
        → (body_pack cfg (extents cfg.part units)).body_offset ≡ length (essence units) }
    ensures footer { (cfg : Fields) (units : List (List ℕ)) → IsInRange cfg
        → ((footer_pack cfg (extents cfg.part units)).this ≡ length (growing cfg units))
        × ((footer_pack cfg (extents cfg.part units)).footer ≡ length (growing cfg units)) }
{}

/// Each pack names the one before: the first body partition's and the footer's of no units the header's, which stands at
/// 0. It does nothing: its clauses are the law.
pub fn packs_name_the_one_before()
    ensures first { (cfg : Fields) → (body_pack cfg (extents cfg.part [])).previous ≡ 0 }
    ensures body { (cfg : Fields) (units : List (List ℕ)) → IsInRange cfg → cfg.part ≤ length units
        → (body_pack cfg (extents cfg.part units)).previous ≡ length (growing cfg (take (length units - cfg.part) units)) }
    ensures footer { (cfg : Fields) (units : List (List ℕ)) (first : ℕ) → IsInRange cfg
        → first % cfg.part ≡ 0 → first < length units → length units ≤ first + cfg.part
        → (footer_pack cfg (extents cfg.part units)).previous ≡ length (growing cfg (take first units)) }
    ensures empty { (cfg : Fields) → (footer_pack cfg (extents cfg.part [])).previous ≡ 0 }
{}

/// Packs count what stands behind them: header bytes the metadata, index bytes the index table segment. Behind both stands
/// in a body partition the next element, in the footer partition the random index pack. It does nothing: its clauses are
/// the law.
pub fn packs_count_what_stands()
    ensures header { (cfg : Fields) → IsInRange cfg
        → (header_pack.index_bytes ≡ 0) × (header_pack.header_bytes ≡ length (drop PACK_LEN (head cfg)))
        × (drop PACK_LEN (head cfg) ≡ metadata cfg (ids_of cfg) None) }
    ensures body { (cfg : Fields) (units : List (List ℕ)) (unit_len : ℕ) → length units % cfg.part ≡ 0
        → ((body_pack cfg (extents cfg.part units)).header_bytes ≡ 0)
        × (drop (PACK_LEN + (body_pack cfg (extents cfg.part units)).index_bytes) (lead cfg units unit_len)
        ≡ klv_head PICTURE_ELEMENT_KEY 7 unit_len) }
    ensures footer { (cfg : Fields) (units : List (List ℕ)) → IsInRange cfg
        → ((footer_pack cfg (extents cfg.part units)).header_bytes ≡ METADATA)
        × (take METADATA (drop PACK_LEN (tail cfg units)) ≡ metadata cfg (ids_of cfg) (Some (length units)))
        × (drop (PACK_LEN + METADATA + (footer_pack cfg (extents cfg.part units)).index_bytes) (tail cfg units)
        ≡ random_index_pack (pack_entries cfg (extents cfg.part units))) }
{}

/// Body partitions name the essence stream, 1, and no others; packs name the stream of index tables, 2, exactly where there
/// are some. It does nothing: its clauses are the law.
pub fn packs_name_their_streams()
    ensures body { (cfg : Fields) (units : List (List ℕ)) → (body_pack cfg (extents cfg.part units)).body_sid ≡ 1 }
    ensures others { (cfg : Fields) (units : List (List ℕ))
        → (header_pack.body_sid ≡ 0) × ((footer_pack cfg (extents cfg.part units)).body_sid ≡ 0) }
    ensures index { (cfg : Fields) (units : List (List ℕ)) → NamesIndex header_pack
        × NamesIndex (body_pack cfg (extents cfg.part units)) × NamesIndex (footer_pack cfg (extents cfg.part units)) }
{}

/// Packs say in bytes 13 and 14 of their keys which partitions they begin: an open and incomplete header, open and
/// incomplete bodies, a closed and complete footer. It does nothing: its clauses are the law.
pub fn packs_say_what_they_begin()
    ensures header { (cfg : Fields) → (slice_index (head cfg) 13 ≡ 2) × (slice_index (head cfg) 14 ≡ 1) }
    ensures body { (cfg : Fields) (units : List (List ℕ)) (unit_len : ℕ) → length units % cfg.part ≡ 0
        → (slice_index (lead cfg units unit_len) 13 ≡ 3) × (slice_index (lead cfg units unit_len) 14 ≡ 1) }
    ensures footer { (cfg : Fields) (units : List (List ℕ))
        → (slice_index (tail cfg units) 13 ≡ 4) × (slice_index (tail cfg units) 14 ≡ 4) }
{}

/// The random index pack names the header at 0, each body partition where the growing file of the units before it ends,
/// and the footer where the growing file ends. It does nothing: its clause is the law.
pub fn random_index_names_packs()
    ensures { (cfg : Fields) (units : List (List ℕ)) → IsInRange cfg
        → pack_entries cfg (extents cfg.part units)
        ≡ entry 0 0
        ∷ map (λ n. entry ESSENCE_STREAM (length (growing cfg (take (n * cfg.part) units))))
        (range_with_len 0 (body_count cfg.part (length units)))
        ++ entry 0 (length (growing cfg units)) ∷ [] }
{}

/// The index names the elements: at a unit's stream offset its element stands in the essence stream, and in the file
/// the element's key and length stand in the 24 bytes before the unit's place. It does nothing: its clauses are the law.
pub fn index_names_elements()
    ensures offset { (units : List (List ℕ)) (unit : List ℕ) (more : List (List ℕ))
        → slice_index (stream_offsets (units ++ unit ∷ more)) (length units) ≡ length (essence units) }
    ensures element { (units : List (List ℕ)) (unit : List ℕ) (more : List (List ℕ))
        → drop (length (essence units)) (essence (units ++ unit ∷ more)) ≡ picture_element unit ++ essence more }
    ensures key { (cfg : Fields) (units : List (List ℕ)) (unit_len : ℕ)
        → drop (length (growing cfg units ++ lead cfg units unit_len) - ELEMENT_HEAD_LEN) (growing cfg units ++ lead cfg units unit_len)
        ≡ klv_head PICTURE_ELEMENT_KEY 7 unit_len }
{}

/// The index table segments of a file join: where a body partition begins behind n units, n a multiple of `part` and not 0,
/// behind its pack stands the segment of the units from n - `part` on, and behind the footer's metadata that of the units
/// from the last such n below their number on, or from 0. It does nothing: its clauses are the law.
pub fn index_segments_join()
    ensures body { (cfg : Fields) (units : List (List ℕ)) (unit : List ℕ) → IsInRange cfg
        → 0 < length units → length units % cfg.part ≡ 0
        → SegmentStands (growing cfg (units ++ unit ∷ [])) (length (growing cfg units) + PACK_LEN)
        (length units - cfg.part) (drop (length units - cfg.part) (stream_offsets units)) }
    ensures footer { (cfg : Fields) (units : List (List ℕ)) (first : ℕ) → IsInRange cfg
        → first % cfg.part ≡ 0 → first < length units → length units ≤ first + cfg.part
        → SegmentStands (closed cfg units) (length (growing cfg units) + PACK_LEN + METADATA)
        first (drop first (stream_offsets units)) }
    ensures counted { (units : List (List ℕ)) → length (stream_offsets units) ≡ length units }
{}

/// A closed file is its items, one behind the other. It does nothing: its clause is the law.
pub fn closed_files_are_items()
    ensures { (cfg : Fields) (units : List (List ℕ)) → closed cfg units ≡ flat_map spelled (closed_items cfg units) }
{}
