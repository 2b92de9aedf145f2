//! The layout of a take's file.

ghost use Rattle.std.specs.Prelude.{◌≡◌, ◌≤◌, ◌<◌, ◌+◌, ◌-◌, ◌^◌, ℕ, List, [], ◌∷◌, ◌++◌, length};
ghost use Rattle.rec_bytes.specs.Configuration.{Fields};
ghost use Rattle.rec_bytes.specs.Ranges.{IsInRange};
ghost use Rattle.rec_bytes.specs.Views.{view};
ghost use Rattle.take_layout.specs.Takes.{AreUnits, IsTake, place_behind};
ghost use Rattle.take_layout.specs.Walks.{FindsWhole, FindsPart, FindsUnit, AsksForMore};
ghost use Rattle.take_layout.specs.declared.place.Place.{Place};

use crate::place::Place;
use crate::walk::Walk;
use rec_bytes::Config;

/// How a take's file is laid out. It has no value: a type that implements it names a layout.
///
/// What the functions that take places promise holds for each list of units that lie there. A buffer that is handed in
/// has exactly the length that the layout states for it.
pub trait TakeLayout {
    /// Whether bytes are a unit in takes of a configuration.
    ghost is_unit: { Fields → List ℕ → Type 0 };

    /// The bytes before all units.
    ghost head: { Fields → List ℕ };

    /// What stands before a unit of a length, behind other units.
    ghost lead: { Fields → List (List ℕ) → ℕ → List ℕ };

    /// What stands behind all units in a closed file.
    ghost tail: { Fields → List (List ℕ) → List ℕ };

    /// The file of units that may go on.
    ghost growing: { Fields → List (List ℕ) → List ℕ };

    /// The file of units that ends with them.
    ghost closed: { Fields → List (List ℕ) → List ℕ };

    /// Where the units lie in the growing file.
    ghost places_of: { Fields → List (List ℕ) → List Place };

    /// The stream offset of the index entry of a unit, by the units before it.
    ghost stream_of: { Fields → List (List ℕ) → ℕ };

    /// A bound on the length of a lead.
    ghost lead_most: { Fields → ℕ };

    /// A bound on the length of a tail.
    ghost tail_most: { Fields → ℕ };

    /// Bytes of a head.
    fn head_len(cfg: &Config) -> u64
        ensures { result ≡ length (head (view cfg.now)) };

    /// Bytes that any lead has at most.
    fn lead_room(cfg: &Config) -> u64
        ensures { result ≡ lead_most (view cfg.now) };

    /// Bytes that any tail has at most.
    fn tail_room(cfg: &Config) -> u64
        ensures { result ≡ tail_most (view cfg.now) };

    /// Writes the head.
    fn put_head(cfg: &Config, out: &mut [u8])
        requires { length out.old ≡ length (head (view cfg.now)) }
        ensures { out.new ≡ head (view cfg.now) };

    /// The stream offset of the index entry of the unit that follows those at the places.
    fn stream(cfg: &Config, places: &[Place]) -> u64
        requires lie { IsTake (is_unit (view cfg.now)) (places_of (view cfg.now)) (cfg.now.max_frames - 1) places.now }
        ensures { (units : List (List ℕ)) → places.now ≡ places_of (view cfg.now) units
            → result ≡ stream_of (view cfg.now) units };

    /// Bytes of the lead of a unit that follows those at the places.
    fn lead_len(cfg: &Config, places: &[Place]) -> u64
        requires lie { IsTake (is_unit (view cfg.now)) (places_of (view cfg.now)) (cfg.now.max_frames - 1) places.now }
        ensures { (units : List (List ℕ)) (unit_len : ℕ) → places.now ≡ places_of (view cfg.now) units
            → result ≡ length (lead (view cfg.now) units unit_len) };

    /// Writes the lead of a unit that follows those at the places.
    fn put_lead(cfg: &Config, places: &[Place], unit_len: u64, out: &mut [u8])
        requires lie { IsTake (is_unit (view cfg.now)) (places_of (view cfg.now)) (cfg.now.max_frames - 1) places.now }
        requires unit { (unit : List ℕ) × is_unit (view cfg.now) unit × (unit_len ≡ length unit) }
        requires room { (units : List (List ℕ)) → places.now ≡ places_of (view cfg.now) units
            → length out.old ≡ length (lead (view cfg.now) units unit_len) }
        ensures { (units : List (List ℕ)) → places.now ≡ places_of (view cfg.now) units
            → out.new ≡ lead (view cfg.now) units unit_len };

    /// Bytes of the tail behind the units at the places.
    fn tail_len(cfg: &Config, places: &[Place]) -> u64
        requires lie { IsTake (is_unit (view cfg.now)) (places_of (view cfg.now)) cfg.now.max_frames places.now }
        ensures { (units : List (List ℕ)) → places.now ≡ places_of (view cfg.now) units
            → result ≡ length (tail (view cfg.now) units) };

    /// Writes the tail behind the units at the places.
    fn put_tail(cfg: &Config, places: &[Place], out: &mut [u8])
        requires lie { IsTake (is_unit (view cfg.now)) (places_of (view cfg.now)) cfg.now.max_frames places.now }
        requires room { (units : List (List ℕ)) → places.now ≡ places_of (view cfg.now) units
            → length out.old ≡ length (tail (view cfg.now) units) }
        ensures { (units : List (List ℕ)) → places.now ≡ places_of (view cfg.now) units
            → out.new ≡ tail (view cfg.now) units };

    /// Looks at a file's bytes from a place on, to the end or as many as there are: the lead that stands there and the
    /// length of its unit. That the lead is the one of these very units is for the caller to compare.
    fn walk(cfg: &Config, bytes: &[u8], from: u64) -> Walk
        ensures whole { FindsWhole (is_unit (view cfg.now)) (lead (view cfg.now)) cfg.now.max_frames bytes.now from result }
        ensures part { FindsPart (is_unit (view cfg.now)) (lead (view cfg.now)) cfg.now.max_frames bytes.now from result }
        ensures unit { FindsUnit (is_unit (view cfg.now)) bytes.now from result }
        ensures more { AsksForMore (lead_most (view cfg.now)) bytes.now result };

    /// The growing file of no units is the head.
    ghost starts: { (cfg : Fields) → growing cfg [] ≡ head cfg };

    /// With one unit more it is longer by the lead and the unit.
    ghost grows: { (cfg : Fields) (units : List (List ℕ)) (unit : List ℕ)
        → growing cfg (units ++ unit ∷ []) ≡ growing cfg units ++ (lead cfg units (length unit) ++ unit) };

    /// The closed file is the growing one, and then the tail.
    ghost closes: { (cfg : Fields) (units : List (List ℕ)) → closed cfg units ≡ growing cfg units ++ tail cfg units };

    /// No units lie nowhere.
    ghost no_places: { (cfg : Fields) → places_of cfg [] ≡ [] };

    /// A unit lies behind its lead.
    ghost more_places: { (cfg : Fields) (units : List (List ℕ)) (unit : List ℕ)
        → places_of cfg (units ++ unit ∷ [])
        ≡ places_of cfg units ++ place_behind (growing cfg units ++ lead cfg units (length unit)) (stream_of cfg units) unit ∷ [] };

    /// A head has some bytes, and not too many.
    ghost head_fits: { (cfg : Fields) → IsInRange cfg → (1 ≤ length (head cfg)) × (length (head cfg) ≤ 2 ^ 32) };

    /// The bounds of leads and tails aren't too great.
    ghost rooms_fit: { (cfg : Fields) → IsInRange cfg → (lead_most cfg ≤ 2 ^ 32) × (tail_most cfg ≤ 2 ^ 32) };

    /// The bound of a lead.
    ghost lead_fits: { (cfg : Fields) (units : List (List ℕ)) (unit : List ℕ) → IsInRange cfg
        → AreUnits (is_unit cfg) cfg.max_frames (units ++ unit ∷ []) → length (lead cfg units (length unit)) ≤ lead_most cfg };

    /// The bound of a tail.
    ghost tail_fits: { (cfg : Fields) (units : List (List ℕ)) → IsInRange cfg
        → AreUnits (is_unit cfg) cfg.max_frames units → length (tail cfg units) ≤ tail_most cfg };

    /// The bound of a unit.
    ghost unit_fits: { (cfg : Fields) (unit : List ℕ) → is_unit cfg unit → length unit ≤ 2 ^ 32 };

    /// Behind the same units, bytes begin with the lead and the bytes of one unit at most. So a file begins with the
    /// growing file of at most one list of so many units.
    ghost one_next: { (cfg : Fields) (units : List (List ℕ)) (unit other rest other_rest : List ℕ) → IsInRange cfg
        → AreUnits (is_unit cfg) cfg.max_frames (units ++ unit ∷ []) → AreUnits (is_unit cfg) cfg.max_frames (units ++ other ∷ [])
        → lead cfg units (length unit) ++ (unit ++ rest) ≡ lead cfg units (length other) ++ (other ++ other_rest)
        → unit ≡ other };
}
