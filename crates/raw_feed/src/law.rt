ghost use Rattle.std.specs.Prelude.{◌≡◌, ◌<◌, ◌≤◌, length, slice_index, ◌++◌, ◌∷◌, [], ℕ, List, Option, Some};
ghost use Rattle.rec_bytes.specs.Configuration.{Fields};
ghost use Rattle.picture_plane.specs.Pictures.{Planes};
ghost use Rattle.raw_feed.specs.Pictures.{IsPictureFeed};
ghost use Rattle.raw_feed.specs.Told.{Told};
ghost use Rattle.raw_feed.specs.Items.{Ending, Clean, Full, Broken};
ghost use Rattle.raw_feed.specs.Feeds.{IsFeed, IsFeedOf};
ghost use Rattle.raw_feed.specs.Breaks.{IsBreak, judged_to};
ghost use Rattle.raw_feed.specs.Reading.{Reading, ReadsHead, GivesUnit, GivesMarker, EndsClean, RefusesItem, RefusesMarker};
ghost use Rattle.raw_feed.specs.declared.head.TheConstants.{FEED_HEAD_LEN};
ghost use Rattle.raw_feed.specs.Refusals.{IsHeadFault, IsMarkerFault, IsItemFault, IsFeedFault};
ghost use Rattle.raw_feed.specs.HasRead.{HasRead, EndsFeed, behind_units};
ghost use Rattle.raw_feed.specs.declared.kind.Kind.{Kind};
ghost use Rattle.raw_feed.specs.declared.fault.FeedFault.{FeedFault};
ghost use Rattle.raw_feed.specs.declared.stage.Stage.TheVariants.{Open};

/// Shows that bytes are a feed in one way, whatever they are: they have units before an end or a
/// first break, and one configuration, one list of units and one ending, whose bytes are there. It
/// does nothing when it runs.
pub fn feeds_are_one()
    ensures some { (kind : Kind) (bytes : List ℕ) → ((i : ℕ) → slice_index bytes i < 256)
        → (units : List (List ℕ)) × (ending : Ending) × IsFeed kind bytes units ending }
    ensures units { (kind : Kind) (bytes : List ℕ) (units others : List (List ℕ)) (ending other : Ending)
        → IsFeed kind bytes units ending → IsFeed kind bytes others other
        → (units ≡ others) × (ending ≡ other) }
    ensures configuration { (kind : Kind) (bytes : List ℕ) (one two : Fields)
        (units others : List (List ℕ)) (ending other : Ending)
        → IsFeedOf kind bytes one units ending → IsFeedOf kind bytes two others other → one ≡ two }
    ensures judged { (kind : Kind) (bytes : List ℕ) (units : List (List ℕ)) (ending : Ending)
        → IsFeed kind bytes units ending → judged_to (behind_units kind units) ending ≤ length bytes }
{}

/// Shows that a feed of pictures has one list of pictures and one ending. It does nothing when it
/// runs.
pub fn pictures_are_one()
    ensures { (bytes : List ℕ) (one two : Fields) (pictures others : List Planes) (ending other : Ending)
        → IsPictureFeed bytes one pictures ending → IsPictureFeed bytes two others other
        → (pictures ≡ others) × (ending ≡ other) }
{}

/// Shows what the calls of a reader add up to, over a source that tells its bytes: what was read
/// starts with the head, and grows by items and by the marker behind them. Where a reader stops
/// for no reason that stands in the bytes, those that were given are a feed by themselves. It does
/// nothing when it runs.
pub fn readings_grow()
    ensures starts { (kind : Kind) (new : Reading) (before : Told) (now : Option Told)
        → ReadsHead kind new (Some before) now → HasRead new [] before now }
    ensures grows { (old new : Reading) (units : List (List ℕ)) (unit : List ℕ) (before : Told) (mid now : Option Told)
        → HasRead old units before mid → old.count < old.config.max_frames
        → GivesUnit old.stage old new mid now unit → HasRead new (units ++ unit ∷ []) before now }
    ensures marked { (old new : Reading) (units : List (List ℕ)) (before : Told) (mid now : Option Told)
        → HasRead old units before mid → GivesMarker old.stage old new mid now → HasRead new units before now }
    ensures stopped { (reading : Reading) (units : List (List ℕ)) (before : Told) (now : Option Told) (fault : FeedFault)
        → HasRead reading units before now → reading.stage ≡ Open → (IsBreak fault → ⊥)
        → EndsFeed reading.kind reading.config units (Broken fault) before now }
{}

/// Shows what a reader's last call says of the feed, over a source that tells its bytes: those that
/// were given are a feed of the units that were read, and its ending judges them to the last one;
/// where they show the answer, all bytes of the source are a feed with this ending. It does nothing
/// when it runs.
pub fn readings_end()
    ensures clean { (old new : Reading) (units : List (List ℕ)) (before : Told) (mid now : Option Told)
        → HasRead old units before mid → EndsClean old.stage old new mid now
        → EndsFeed old.kind old.config units Clean before now }
    ensures full { (old new : Reading) (units : List (List ℕ)) (before : Told) (mid now : Option Told)
        → HasRead old units before mid → old.count ≡ old.config.max_frames
        → GivesMarker old.stage old new mid now → EndsFeed old.kind old.config units Full before now }
    ensures item { (old new : Reading) (units : List (List ℕ)) (before : Told) (mid now : Option Told) (fault : FeedFault)
        → HasRead old units before mid → old.count < old.config.max_frames
        → RefusesItem old.stage old new mid now fault → EndsFeed old.kind old.config units (Broken fault) before now }
    ensures marker { (old new : Reading) (units : List (List ℕ)) (before : Told) (mid now : Option Told) (fault : FeedFault)
        → HasRead old units before mid → RefusesMarker old.stage old new mid now fault
        → EndsFeed old.kind old.config units (Broken fault) before now }
{}

/// Shows where the faults of a feed stand that a reader answers, whatever its source tells: those
/// of its head, and those of an item and of a marker at a place behind a head. It does nothing when
/// it runs.
pub fn faults_are_placed()
    ensures head { (fault : FeedFault) → IsHeadFault fault → IsFeedFault fault }
    ensures item { (at : ℕ) (fault : FeedFault) → FEED_HEAD_LEN ≤ at → IsItemFault at fault → IsFeedFault fault }
    ensures marker { (at : ℕ) (fault : FeedFault) → FEED_HEAD_LEN ≤ at → IsMarkerFault at fault → IsFeedFault fault }
{}
