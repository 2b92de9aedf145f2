//! The growing file of a take, as far as memory has to know it.

ghost use Rattle.std.specs.Prelude.{◌≡◌, ◌≤◌, ◌<◌, ◌+◌, ◌-◌, ◌*◌, ◌^◌, ℕ, List, [], ◌∷◌, ◌++◌, length, OnOk, OnErr};
ghost use Rattle.rec_bytes.specs.Views.{view};
ghost use Rattle.take_layout.specs.Takes.{IsTake, place_behind};
ghost use Rattle.take_layout.specs.inner.Keeping.{EndsFile};

use crate::layout::TakeLayout;
use crate::place::Place;
use rec_bytes::{Config, Memory};
use std::alloc::Global;
use std::marker::{Model, PhantomData};

/// The growing file of a take, as far as memory has to know it: its configuration, where its units lie, and where it ends.
#[derive(Drop)]
pub struct GrowingFile<L: TakeLayout> {
    cfg: Config,
    places: Vec<Place>,
    at: u64,
    of: PhantomData<L>,
}

impl<L: TakeLayout> Model for GrowingFile<L> {
    ghost use Rattle.std.specs.Vec.{vec_capacity};
    ghost use Rattle.rec_bytes.specs.Views.{view as fields_in};
    ghost use Rattle.take_layout.specs.Growing.{Growing};
    ghost use Rattle.take_layout.specs.inner.Keeping.{KeepsFile};

    ghost Value = { Growing };

    ghost view = { λ s. record { config = fields_in s.cfg; places = s.places.items; room = vec_capacity s.places } };

    ghost invariant = { λ s. KeepsFile L.TakeLayout (fields_in s.cfg) s.places.items s.at };
}

impl<L: TakeLayout> GrowingFile<L> {
    /// A file of no units. It takes no memory.
    pub fn new(alloc: Global, cfg: &Config) -> Self
        ensures { result ≡ record { config = view cfg.now; places = []; room = 0 } }
    {
        cfg.ranges();
        GrowingFile {
            cfg: *cfg,
            places: Vec::new(alloc),
            at: L::head_len(cfg),
            of: PhantomData,
        }
    }

    /// The take's configuration.
    pub fn config(&self) -> &Config
        ensures { view result.now ≡ self.now.config }
    {
        &self.cfg
    }

    /// Where the units lie.
    pub fn places(&self) -> &[Place]
        ensures places { result.now ≡ self.now.places }
        ensures lie { IsTake (L.is_unit self.now.config) (L.places_of self.now.config) self.now.config.max_frames self.now.places }
        ensures few { length self.now.places < self.now.config.max_frames
            → IsTake (L.is_unit self.now.config) (L.places_of self.now.config) (self.now.config.max_frames - 1) self.now.places }
    {
        self.places.as_slice()
    }

    /// Bytes of the file.
    pub fn len(&self) -> u64
        ensures ends { (units : List (List ℕ)) → self.now.places ≡ L.places_of self.now.config units
            → result ≡ length (L.growing self.now.config units) }
        ensures small { result ≤ 2 ^ 32 + length self.now.places * 2 ^ 33 }
    {
        self.at
    }

    /// Takes memory for so many places more.
    pub fn reserve(&mut self, more: usize) -> Result<(), Memory>
        ensures config { self.new.config ≡ self.old.config }
        ensures places { self.new.places ≡ self.old.places }
        ensures room { OnOk result (length self.new.places + more ≤ self.new.room) }
    {
        self.places.reserve(more).map_err(|_| Memory)
    }

    /// The place of one unit more, of a length in bytes.
    pub fn next_place(&self, unit_len: u64) -> Place
        requires few { length self.now.places < self.now.config.max_frames }
        requires unit { (unit : List ℕ) × L.is_unit self.now.config unit × (unit_len ≡ length unit) }
        ensures { (units : List (List ℕ)) (unit : List ℕ) → self.now.places ≡ L.places_of self.now.config units → unit_len ≡ length unit
            → result ≡ place_behind (L.growing self.now.config units ++ L.lead self.now.config units (length unit))
            (L.stream_of self.now.config units) unit }
    {
        place_at::<L>(&self.cfg, self.places.as_slice(), self.at, unit_len)
    }

    /// Keeps the place of one unit more, of a length in bytes.
    pub fn add(&mut self, unit_len: u64) -> Result<(), Memory>
        requires few { length self.old.places < self.old.config.max_frames }
        requires unit { (unit : List ℕ) × L.is_unit self.old.config unit × (unit_len ≡ length unit) }
        ensures config { self.new.config ≡ self.old.config }
        ensures counted { OnOk result (length self.new.places ≡ length self.old.places + 1) }
        ensures placed { OnOk result ((units : List (List ℕ)) (unit : List ℕ) → self.old.places ≡ L.places_of self.old.config units
            → unit_len ≡ length unit → self.new.places ≡ L.places_of self.old.config (units ++ unit ∷ [])) }

        ensures unchanged { OnErr result (self.new.places ≡ self.old.places) }
    {
        self.reserve(1)?;
        self.add_reserved(unit_len);
        Ok(())
    }

    /// The same where memory for the place was taken before, so that it can't fail.
    pub fn add_reserved(&mut self, unit_len: u64)
        requires few { length self.old.places < self.old.config.max_frames }
        requires unit { (unit : List ℕ) × L.is_unit self.old.config unit × (unit_len ≡ length unit) }
        requires room { length self.old.places < self.old.room }
        ensures config { self.new.config ≡ self.old.config }
        ensures counted { length self.new.places ≡ length self.old.places + 1 }
        ensures placed { (units : List (List ℕ)) (unit : List ℕ) → self.old.places ≡ L.places_of self.old.config units
            → unit_len ≡ length unit → self.new.places ≡ L.places_of self.old.config (units ++ unit ∷ []) }
        ensures room { self.new.room ≡ self.old.room }
    {
        let place = place_at::<L>(&self.cfg, self.places.as_slice(), self.at, unit_len);
        self.places.push_reserved(place);
        self.at = place.at + place.len;
    }
}

/// The place of a unit that follows those at the places, in a file that ends at a place.
fn place_at<L: TakeLayout>(cfg: &Config, places: &[Place], at: u64, unit_len: u64) -> Place
    requires lie { IsTake (L.is_unit (view cfg.now)) (L.places_of (view cfg.now)) (cfg.now.max_frames - 1) places.now }
    requires unit { (unit : List ℕ) × L.is_unit (view cfg.now) unit × (unit_len ≡ length unit) }
    requires ends { EndsFile L.TakeLayout (view cfg.now) places.now at }
    requires small { at < 2 ^ 63 }
    ensures len { result.len ≡ unit_len }
    ensures near { result.at ≤ at + 2 ^ 32 }
    ensures placed { (units : List (List ℕ)) (unit : List ℕ) → places.now ≡ L.places_of (view cfg.now) units → unit_len ≡ length unit
        → result ≡ place_behind (L.growing (view cfg.now) units ++ L.lead (view cfg.now) units (length unit)) (L.stream_of (view cfg.now) units) unit }
{
    cfg.ranges();
    Place {
        at: at + L::lead_len(cfg, places),
        stream: L::stream(cfg, places),
        len: unit_len,
    }
}
