//! What follows of every layout: laws over all units, which the crates above cite. No function here does anything.

ghost use Rattle.std.specs.Prelude.{◌≡◌, ◌≤◌, ◌<◌, ◌+◌, ◌-◌, ◌*◌, ◌^◌, ℕ, List, [], ◌∷◌, ◌++◌, length, take, drop, Some, slice_get};
ghost use Rattle.rec_bytes.specs.Configuration.{Fields};
ghost use Rattle.rec_bytes.specs.Ranges.{IsInRange};
ghost use Rattle.take_layout.specs.Takes.{AreUnits, IsTake, place_behind};
ghost use Rattle.take_layout.specs.Walks.{FindsWhole, FindsPart, FindsUnit, AsksForMore, Stands};
ghost use Rattle.take_layout.specs.declared.place.Place.{Place};
ghost use Rattle.take_layout.specs.declared.walk.Walk.{Walk};
ghost use Rattle.take_layout.specs.declared.walk.Walk.TheVariants.{Lead};

use crate::layout::TakeLayout;

/// The growing file of more units begins with that of the first ones, and so do their places. What stands there behind the
/// first units is the next one's lead, the unit, and more; and where these stand behind units, the file is that of one more.
pub fn growing_begins<L: TakeLayout>()
    ensures begins { (cfg : Fields) (units more : List (List ℕ))
        → (rest : List ℕ) × (L.growing cfg (units ++ more) ≡ L.growing cfg units ++ rest) }
    ensures places { (cfg : Fields) (units more : List (List ℕ))
        → (rest : List Place) × (L.places_of cfg (units ++ more) ≡ L.places_of cfg units ++ rest) }
    ensures behind { (cfg : Fields) (units more : List (List ℕ)) (unit rest : List ℕ) → (later : List ℕ)
        × (L.growing cfg (units ++ unit ∷ more) ++ rest ≡ L.growing cfg units ++ (L.lead cfg units (length unit) ++ (unit ++ later))) }
    ensures next { (cfg : Fields) (units : List (List ℕ)) (unit rest : List ℕ)
        → L.growing cfg units ++ (L.lead cfg units (length unit) ++ (unit ++ rest)) ≡ L.growing cfg (units ++ unit ∷ []) ++ rest }
{}

/// There are as many places as units, and each unit lies in the file at its place, whatever stands behind the units.
pub fn units_lie<L: TakeLayout>()
    ensures counted { (cfg : Fields) (units : List (List ℕ)) → length (L.places_of cfg units) ≡ length units }
    ensures bytes { (cfg : Fields) (units more : List (List ℕ)) (unit rest : List ℕ)
        → take (length unit) (drop (length (L.growing cfg units ++ L.lead cfg units (length unit)))
        (L.growing cfg (units ++ unit ∷ more) ++ rest)) ≡ unit }
    ensures place { (cfg : Fields) (units more : List (List ℕ)) (unit : List ℕ)
        → (places : List Place) × (L.places_of cfg (units ++ unit ∷ more) ≡ L.places_of cfg units
        ++ place_behind (L.growing cfg units ++ L.lead cfg units (length unit)) (L.stream_of cfg units) unit ∷ places) }
    ensures numbered { (cfg : Fields) (units : List (List ℕ)) (unit rest : List ℕ) (place : Place) (i : ℕ)
        → slice_get (L.places_of cfg units) i ≡ Some place → slice_get units i ≡ Some unit
        → (place.at + place.len ≤ length (L.growing cfg units))
        × (take place.len (drop place.at (L.growing cfg units ++ rest)) ≡ unit) }
{}

/// The greatest lengths of a growing and of a closed file, by the number of units.
pub fn files_fit<L: TakeLayout>()
    ensures growing { (cfg : Fields) (units : List (List ℕ)) → IsInRange cfg → AreUnits (L.is_unit cfg) cfg.max_frames units
        → length (L.growing cfg units) ≤ 2 ^ 32 + length units * 2 ^ 33 }
    ensures closed { (cfg : Fields) (units : List (List ℕ)) → IsInRange cfg → AreUnits (L.is_unit cfg) cfg.max_frames units
        → length (L.closed cfg units) ≤ 2 ^ 33 + length units * 2 ^ 33 }
{}

/// The rooms of a layout are enough for what comes behind the units that lie at places.
pub fn rooms_suffice<L: TakeLayout>()
    ensures lead { (cfg : Fields) (places : List Place) (unit : List ℕ) (len : ℕ) → IsInRange cfg
        → IsTake (L.is_unit cfg) (L.places_of cfg) (cfg.max_frames - 1) places → L.is_unit cfg unit
        → ((units : List (List ℕ)) (unit_len : ℕ) → places ≡ L.places_of cfg units → len ≡ length (L.lead cfg units unit_len))
        → len ≤ L.lead_most cfg }
    ensures tail { (cfg : Fields) (places : List Place) (len : ℕ) → IsInRange cfg
        → IsTake (L.is_unit cfg) (L.places_of cfg) cfg.max_frames places
        → ((units : List (List ℕ)) → places ≡ L.places_of cfg units → len ≡ length (L.tail cfg units)) → len ≤ L.tail_most cfg }
{}

/// A file begins with the growing file of at most one list of so many units.
pub fn files_are_one<L: TakeLayout>()
    ensures one { (cfg : Fields) (units others : List (List ℕ)) (rest other_rest : List ℕ) → IsInRange cfg
        → AreUnits (L.is_unit cfg) cfg.max_frames units → AreUnits (L.is_unit cfg) cfg.max_frames others
        → length units ≡ length others → L.growing cfg units ++ rest ≡ L.growing cfg others ++ other_rest → units ≡ others }
{}

/// What a look at the front of bytes decides: where a lead is found there are units of its length, as `put_lead` wants one;
/// where what it wrote stands there, so does a unit, if the bytes are as long; and a unit that stands there is found by one
/// look at `lead_room` and 2^16 bytes, or at all where they are fewer.
pub fn looks_decide<L: TakeLayout>()
    ensures sized { (cfg : Fields) (bytes : List ℕ) (from at n : ℕ) → FindsUnit (L.is_unit cfg) bytes from (Lead at n)
        → (unit : List ℕ) × L.is_unit cfg unit × (n ≡ length unit) }
    ensures found { (cfg : Fields) (units : List (List ℕ)) (bytes : List ℕ) (have from n : ℕ)
        → FindsUnit (L.is_unit cfg) (take have bytes) from (Lead (from + length (L.lead cfg units n)) n)
        → take (length (L.lead cfg units n)) bytes ≡ L.lead cfg units n → length (L.lead cfg units n) + n ≤ length bytes
        → Stands (L.is_unit cfg) (L.lead cfg units) bytes n }
    ensures seen { (cfg : Fields) (units : List (List ℕ)) (unit rest : List ℕ) (have from : ℕ) (walk : Walk)
        → FindsWhole (L.is_unit cfg) (L.lead cfg) cfg.max_frames (take have (L.lead cfg units (length unit) ++ (unit ++ rest))) from walk
        → FindsPart (L.is_unit cfg) (L.lead cfg) cfg.max_frames (take have (L.lead cfg units (length unit) ++ (unit ++ rest))) from walk
        → AsksForMore (L.lead_most cfg) (take have (L.lead cfg units (length unit) ++ (unit ++ rest))) walk
        → AreUnits (L.is_unit cfg) cfg.max_frames (units ++ unit ∷ []) → L.lead_most cfg + 2 ^ 16 ≤ have
        → from + length (L.lead cfg units (length unit)) < 2 ^ 64
        → walk ≡ Lead (from + length (L.lead cfg units (length unit))) (length unit) }
{}
