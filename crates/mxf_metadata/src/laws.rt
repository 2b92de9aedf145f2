//! Laws of the metadata.

ghost use Rattle.std.specs.Prelude.{◌≡◌, ℕ, Option, length, map};
ghost use Rattle.std.specs.List.{flat_map};
ghost use Rattle.std.specs.Str.{bytes_eq};
ghost use Rattle.rec_bytes.specs.Configuration.{Fields};
ghost use Rattle.mxf_names.specs.Identifiers.{AreIds, ids_of};
ghost use Rattle.mxf_metadata.specs.Durations.{HaveDuration};
ghost use Rattle.mxf_metadata.specs.Links.{AreOwned, AreResolved, AreSequences, ShowsFile};
ghost use Rattle.mxf_metadata.specs.Listed.{AreListed};
ghost use Rattle.mxf_metadata.specs.Metadata.{raw_sets, metadata};
ghost use Rattle.mxf_metadata.specs.Nodes.{nodes};
ghost use Rattle.mxf_metadata.specs.Tags.{firsts, tags_of, AreIdentified};
ghost use Rattle.mxf_names.specs.declared.ids.Ids.{Ids};
ghost use Rattle.mxf_metadata.specs.declared.tags.Tag.{Tag};
ghost use Rattle.mxf_metadata.specs.declared.tags.TheConstants.{TAGS};
ghost use Rattle.mxf_metadata.specs.declared.lengths.TheConstants.{METADATA};

/// Shows what holds of all metadata. It does nothing when it runs.
pub fn metadata_holds()
    ensures identifiers { (cfg : Fields) → length cfg.take_id ≡ 16 → AreIds (ids_of cfg) }
    ensures sized { (cfg : Fields) (ids : Ids) (frames : Option ℕ) → AreIds ids
        → length (metadata cfg ids frames) ≡ METADATA }
    ensures listed { (cfg : Fields) (ids : Ids) (frames : Option ℕ) → AreIds ids
        → AreListed (raw_sets cfg ids frames) }
    // The primer has the sets' tags, each once, in the order of their first use.
    ensures ordered { (cfg : Fields) (ids : Ids) (frames : Option ℕ)
        → map (λ (tag : Tag). tag.tag) TAGS ≡ firsts (flat_map tags_of (raw_sets cfg ids frames)) }
    ensures lasting { (cfg : Fields) (ids : Ids) (frames : Option ℕ)
        → HaveDuration frames (raw_sets cfg ids frames) }
{}

/// Shows how the sets of all metadata name one another. It does nothing when it runs.
pub fn sets_are_linked()
    ensures identified { (cfg : Fields) (ids : Ids) (frames : Option ℕ) → AreIdentified (raw_sets cfg ids frames) }
    ensures owned { (cfg : Fields) (ids : Ids) (frames : Option ℕ) → AreOwned bytes_eq (nodes cfg ids frames) }
    ensures resolved { (cfg : Fields) (ids : Ids) (frames : Option ℕ) → AreResolved bytes_eq (nodes cfg ids frames) }
    ensures sequences { (cfg : Fields) (ids : Ids) (frames : Option ℕ) → AreSequences bytes_eq (nodes cfg ids frames) }
    ensures shown { (cfg : Fields) (ids : Ids) (frames : Option ℕ) → ShowsFile bytes_eq (nodes cfg ids frames) }
{}
