//! What a crash leaves of an area in memory.

ghost use Rattle.std.specs.Prelude.{◌≡◌, ◌<◌, ℕ, nat_lt, if◌then◌else◌, length, take, drop, get_or, IfOk, OnOk};
ghost use Rattle.rec_bytes.specs.Places.{with_bytes};
ghost use Rattle.take_disk.specs.Logs.{kept_at, kept_now};
ghost use Rattle.take_disk.specs.Picks.{IsPicked, IsTorn};
ghost use Rattle.take_disk.specs.Entered.{log_of};
ghost use Rattle.take_disk.specs.inner.Redone.{redone, redone_to, last_touch, touches};

use crate::entry::{Deed, Entry};
use crate::memory_area::MemoryArea;
use crate::pick::Pick;
use rec_bytes::{Memory, put_bytes};
use std::alloc::Global;

impl MemoryArea {
    // An image of the area.
    pub(crate) fn image(&self, alloc: Global, pick: Pick) -> Result<Vec<u8>, Memory>
        ensures picked { IfOk result (λ image. IsPicked pick (log_of self.now) image.items) }
    {
        match pick {
            Pick::Kept => Ok(self.bytes.to_vec(alloc)?),
            Pick::Lost => self.lost(alloc),
            Pick::Torn(byte) => self.torn(alloc, byte),
        }
    }

    // The area as it was at the moment up to which all is kept.
    fn lost(&self, alloc: Global) -> Result<Vec<u8>, Memory>
        ensures lost { IfOk result (λ image. image.items ≡ (kept_at self.now.synced (log_of self.now)).reads) }
    {
        let mut image = self.start.to_vec(alloc)?;
        redo_to(&mut image, &self.entries, &self.pieces, self.synced)?;
        Ok(image)
    }

    // The area with another byte in each place that is unsettled.
    fn torn(&self, alloc: Global, byte: u8) -> Result<Vec<u8>, Memory>
        ensures torn { IfOk result (λ image. IsTorn byte (kept_now (log_of self.now)) image.items) }
    {
        let mut image = self.bytes.to_vec(alloc)?;
        tear(&mut image, &self.entries, self.synced, byte);
        Ok(image)
    }
}

// Makes deeds again, up to a moment.
fn redo_to(image: &mut Vec<u8>, entries: &[Entry], pieces: &[u8], upto: u64) -> Result<(), Memory>
    ensures { OnOk result (image.new.items ≡ redone_to upto pieces.now entries.now image.old.items) }
{
    for k in 0..entries.len() {
        let entry = entries[k];
        if entry.moment > upto {
            return Ok(());
        }
        redo(image, pieces, entry.deed)?;
    }
    Ok(())
}

// Makes a deed again.
fn redo(image: &mut Vec<u8>, pieces: &[u8], deed: Deed) -> Result<(), Memory>
    ensures { OnOk result (image.new.items ≡ redone pieces.now deed image.old.items) }
{
    match deed {
        Deed::Write { at, from, len } => put_piece(image, at, part_of(pieces, from, len)),
        Deed::Cut { len, .. } => {
            image.truncate(len as usize);
            Ok(())
        }
        Deed::Fail { .. } | Deed::Settle { .. } => Ok(()),
    }
}

// So many bytes from a place on, as far as there are.
fn part_of(pieces: &[u8], from: u64, len: u64) -> &[u8]
    ensures { result.now ≡ take len (drop from pieces.now) }
{
    let from = (from as usize).min(pieces.len());
    let len = (len as usize).min(pieces.len() - from);
    &pieces[from..from + len]
}

// Puts a piece at a place, or at the end where the place is beyond it.
fn put_piece(image: &mut Vec<u8>, at: u64, piece: &[u8]) -> Result<(), Memory>
    ensures { OnOk result (image.new.items ≡ with_bytes image.old.items at piece.now) }
{
    let at = (at as usize).min(image.len());
    let inside = piece.len().min(image.len() - at);
    put_bytes(image.as_mut_slice(), at, &piece[..inside]);
    image.extend_from_slice(&piece[inside..])?;
    Ok(())
}

// Puts a byte in each place that was touched after a moment.
fn tear(image: &mut Vec<u8>, entries: &[Entry], synced: u64, byte: u8)
    ensures long { length image.new.items ≡ length image.old.items }
    ensures each { (place : ℕ) → place < length image.old.items
        → get_or image.new.items place 0 ≡ (if nat_lt synced (last_touch place 0 entries.now) then byte else get_or image.old.items place 0) }
{
    for k in 0..image.len() {
        if touched_last(entries, k as u64) > synced {
            image[k] = byte;
        }
    }
}

// The moment at which a place was last touched.
fn touched_last(entries: &[Entry], place: u64) -> u64
    ensures { result ≡ last_touch place 0 entries.now }
{
    let mut latest = 0;
    for k in 0..entries.len() {
        latest = touched_by(entries[k], place, latest);
    }
    latest
}

// The moment of an entry that touches a place, or else another.
fn touched_by(entry: Entry, place: u64, latest: u64) -> u64
    ensures { result ≡ (if touches entry.deed place then entry.moment else latest) }
{
    if is_touching(entry.deed, place) {
        entry.moment
    } else {
        latest
    }
}

// Whether a deed writes or cuts a place, or failed to.
fn is_touching(deed: Deed, place: u64) -> bool
    ensures { result ≡ touches deed place }
{
    match deed {
        Deed::Write { at, len, .. } => at <= place && place - at < len,
        Deed::Cut { len, end } => len <= place && place < end,
        Deed::Fail { from, to } => from <= place && place < to,
        Deed::Settle { .. } => false,
    }
}
