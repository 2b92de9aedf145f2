//! The file of a take on its way to a sink.

ghost use Rattle.std.specs.Prelude.{◌≡◌, ◌≤◌, ◌<◌, ◌+◌, ◌-◌, ◌^◌, ℕ, List, [], ◌∷◌, ◌++◌, length, IfOk, OnOk, OnErr};
ghost use Rattle.rec_bytes.specs.Views.{view};
ghost use Rattle.rec_bytes.specs.Faults.{HasCause};
ghost use Rattle.raw_feed.specs.Written.{Writes};
ghost use Rattle.take_layout.specs.Takes.{IsTake};
ghost use Rattle.run_parts.specs.Causes.{HasPutCause, Puts};

use crate::end::PutFault;
use raw_feed::{Sink, put_all};
use rec_bytes::{Config, Failed, Memory};
use std::alloc::Global;
use std::marker::Model;
use take_layout::{GrowingFile, Place, TakeLayout, rooms_suffice};

/// The file of a take that is being written. It keeps the places of its units, and a buffer for what stands between them.
#[derive(Drop)]
pub struct TakeFile<L: TakeLayout> {
    growing: GrowingFile<L>,
    buffer: Vec<u8>,
}

impl<L: TakeLayout> Model for TakeFile<L> {
    ghost use Rattle.std.specs.Prelude.{length};
    ghost use Rattle.run_parts.specs.Files.{Growing};
    ghost use Rattle.run_parts.specs.inner.Rooms.{HasRoom};

    ghost Value = { Growing };

    ghost view = { λ s. record { config = s.growing.config; places = s.growing.places } };

    ghost invariant = { λ s. HasRoom L.TakeLayout s.growing.config (length s.buffer.items) };
}

impl<L: TakeLayout> TakeFile<L> {
    /// A file of no units. Its buffer is taken here.
    pub fn new(alloc: Global, cfg: &Config) -> Result<Self, Memory>
        ensures { IfOk result (λ file. file ≡ record { config = view cfg.now; places = [] }) }
    {
        cfg.ranges();
        let mut buffer = Vec::new(alloc);
        if buffer.resize(room::<L>(cfg), 0).is_err() {
            return Err(Memory);
        }
        Ok(TakeFile {
            growing: GrowingFile::new(alloc, cfg),
            buffer,
        })
    }

    /// Writes what stands before all units, or a front of it where the sink fails.
    pub fn put_head<W: Sink>(&mut self, out: &mut W) -> Result<(), Failed>
        ensures unchanged { self.new ≡ self.old }
        ensures written { Writes (W.written out.old) (W.written out.new) result (L.head self.old.config) }
        ensures cause { HasCause (W.fault_count out.old) (W.fault_count out.new) result }
    {
        write_head::<L, W>(self.growing.config(), self.buffer.as_mut_slice(), out)
    }

    /// Writes a unit behind its lead, and keeps its place, or writes a front of them where the sink fails. Memory for the
    /// place is taken before anything is written.
    pub fn put_unit<W: Sink>(&mut self, unit: &[u8], out: &mut W) -> Result<(), PutFault>
        requires few { length self.old.places < self.old.config.max_frames }
        requires unit { L.is_unit self.old.config unit.now }
        ensures config { self.new.config ≡ self.old.config }
        ensures counted { OnOk result (length self.new.places ≡ length self.old.places + 1) }
        ensures placed { OnOk result ((units : List (List ℕ)) → self.old.places ≡ L.places_of self.old.config units
            → self.new.places ≡ L.places_of self.old.config (units ++ unit.now ∷ [])) }
        ensures written { (units : List (List ℕ)) → self.old.places ≡ L.places_of self.old.config units
            → Puts (W.written out.old) (W.written out.new) result (L.lead self.old.config units (length unit.now) ++ unit.now) }
        ensures cause { HasPutCause (W.fault_count out.old) (W.fault_count out.new) result }
    {
        if self.growing.reserve(1).is_err() {
            return Err(PutFault::Memory);
        }
        match write_unit::<L, W>(
            self.growing.config(),
            self.growing.places(),
            unit,
            self.buffer.as_mut_slice(),
            out,
        ) {
            Ok(()) => {
                self.growing.add_reserved(unit.len() as u64);
                Ok(())
            }
            Err(Failed) => Err(PutFault::Sink),
        }
    }

    /// Writes what stands behind all units in a closed file, or a front of it where the sink fails.
    pub fn put_tail<W: Sink>(&mut self, out: &mut W) -> Result<(), Failed>
        ensures written { (units : List (List ℕ)) → self.old.places ≡ L.places_of self.old.config units
            → Writes (W.written out.old) (W.written out.new) result (L.tail self.old.config units) }
        ensures cause { HasCause (W.fault_count out.old) (W.fault_count out.new) result }
    {
        write_tail::<L, W>(
            self.growing.config(),
            self.growing.places(),
            self.buffer.as_mut_slice(),
            out,
        )
    }
}

/// Bytes of a buffer that has room for a head, for any lead and for any tail.
fn room<L: TakeLayout>(cfg: &Config) -> usize
    ensures head { length (L.head (view cfg.now)) ≤ result }
    ensures lead { L.lead_most (view cfg.now) ≤ result }
    ensures tail { L.tail_most (view cfg.now) ≤ result }
{
    cfg.ranges();
    L::head_len(cfg)
        .max(L::lead_room(cfg))
        .max(L::tail_room(cfg)) as usize
}

/// Writes the head, by a buffer that has room for it.
fn write_head<L: TakeLayout, W: Sink>(
    cfg: &Config,
    buffer: &mut [u8],
    out: &mut W,
) -> Result<(), Failed>
    requires { length (L.head (view cfg.now)) ≤ length buffer.old }
    ensures written { Writes (W.written out.old) (W.written out.new) result (L.head (view cfg.now)) }
    ensures cause { HasCause (W.fault_count out.old) (W.fault_count out.new) result }
{
    let head = &mut buffer[..L::head_len(cfg) as usize];
    L::put_head(cfg, head);
    put_all(out, head)
}

/// Writes the lead of a unit that follows those at the places, by a buffer that has room for it.
fn write_lead<L: TakeLayout, W: Sink>(
    cfg: &Config,
    places: &[Place],
    unit_len: u64,
    buffer: &mut [u8],
    out: &mut W,
) -> Result<(), Failed>
    requires lie { IsTake (L.is_unit (view cfg.now)) (L.places_of (view cfg.now)) (cfg.now.max_frames - 1) places.now }
    requires unit { (unit : List ℕ) × L.is_unit (view cfg.now) unit × (unit_len ≡ length unit) }
    requires room { L.lead_most (view cfg.now) ≤ length buffer.old }
    ensures written { (units : List (List ℕ)) → places.now ≡ L.places_of (view cfg.now) units
        → Writes (W.written out.old) (W.written out.new) result (L.lead (view cfg.now) units unit_len) }
    ensures cause { HasCause (W.fault_count out.old) (W.fault_count out.new) result }
{
    cfg.ranges();
    rooms_suffice::<L>();
    let lead = &mut buffer[..L::lead_len(cfg, places) as usize];
    L::put_lead(cfg, places, unit_len, lead);
    put_all(out, lead)
}

/// Writes the lead of a unit that follows those at the places, and the unit.
fn write_unit<L: TakeLayout, W: Sink>(
    cfg: &Config,
    places: &[Place],
    unit: &[u8],
    buffer: &mut [u8],
    out: &mut W,
) -> Result<(), Failed>
    requires lie { IsTake (L.is_unit (view cfg.now)) (L.places_of (view cfg.now)) (cfg.now.max_frames - 1) places.now }
    requires unit { L.is_unit (view cfg.now) unit.now }
    requires room { L.lead_most (view cfg.now) ≤ length buffer.old }
    ensures written { (units : List (List ℕ)) → places.now ≡ L.places_of (view cfg.now) units
        → Writes (W.written out.old) (W.written out.new) result (L.lead (view cfg.now) units (length unit.now) ++ unit.now) }
    ensures cause { HasCause (W.fault_count out.old) (W.fault_count out.new) result }
{
    write_lead::<L, W>(cfg, places, unit.len() as u64, buffer, out)?;
    put_all(out, unit)
}

/// Writes the tail behind the units at the places, by a buffer that has room for it.
fn write_tail<L: TakeLayout, W: Sink>(
    cfg: &Config,
    places: &[Place],
    buffer: &mut [u8],
    out: &mut W,
) -> Result<(), Failed>
    requires lie { IsTake (L.is_unit (view cfg.now)) (L.places_of (view cfg.now)) cfg.now.max_frames places.now }
    requires room { L.tail_most (view cfg.now) ≤ length buffer.old }
    ensures written { (units : List (List ℕ)) → places.now ≡ L.places_of (view cfg.now) units
        → Writes (W.written out.old) (W.written out.new) result (L.tail (view cfg.now) units) }
    ensures cause { HasCause (W.fault_count out.old) (W.fault_count out.new) result }
{
    cfg.ranges();
    rooms_suffice::<L>();
    let tail = &mut buffer[..L::tail_len(cfg, places) as usize];
    L::put_tail(cfg, places, tail);
    put_all(out, tail)
}
