//! The record of an area in memory, one deed more.

ghost use Rattle.std.specs.Prelude.{◌≡◌, ◌≤◌, ◌<◌, ◌+◌, length, vec_len};
ghost use Rattle.std.specs.List.{list_any};
ghost use Rattle.take_disk.specs.declared.entry.Deed.TheVariants.{Cut, Fail};
ghost use Rattle.take_disk.specs.inner.Counts.{changes, latest, in_span};
ghost use Rattle.take_disk.specs.Entered.{log_of, entered, written, Settles};

use crate::append::{append, enter, paste};
use crate::entry::{Deed, Entry};
use crate::memory_area::MemoryArea;

impl MemoryArea {
    // Writes bytes at a moment.
    pub(crate) fn write(&mut self, moment: u64, at: u64, bytes: &[u8])
        requires later { self.old.synced < moment }
        requires last { latest self.old.entries.items < moment }
        requires inside { at ≤ length self.old.bytes.items }
        requires room { at + length bytes.now ≤ self.old.room }
        requires pieces { length self.old.pieces.items + length bytes.now ≤ self.old.room }
        requires call { changes self.old.entries.items < self.old.calls }
        ensures log { log_of self.new ≡ written moment at bytes.now (log_of self.old) }
        ensures limits { (self.new.room ≡ self.old.room) × (self.new.calls ≡ self.old.calls) }
    {
        let deed = Deed::Write {
            at,
            from: self.pieces.len() as u64,
            len: bytes.len() as u64,
        };
        enter(&mut self.entries, Entry { moment, deed });
        append(&mut self.pieces, bytes);
        paste(&mut self.bytes, at as usize, bytes);
    }

    // Cuts the area at a moment.
    pub(crate) fn cut(&mut self, moment: u64, len: u64)
        requires later { self.old.synced < moment }
        requires last { latest self.old.entries.items < moment }
        requires inside { len ≤ length self.old.bytes.items }
        requires call { changes self.old.entries.items < self.old.calls }
        ensures log { log_of self.new ≡ entered moment (Cut len (length self.old.bytes.items)) (log_of self.old) }
        ensures limits { (self.new.room ≡ self.old.room) × (self.new.calls ≡ self.old.calls) }
    {
        let end = self.bytes.len() as u64;
        let deed = Deed::Cut { len, end };
        enter(&mut self.entries, Entry { moment, deed });
        self.bytes.truncate(len as usize);
    }

    // Records that a write or cut between two places failed.
    pub(crate) fn fail(&mut self, moment: u64, from: u64, to: u64)
        requires later { self.old.synced < moment }
        requires last { latest self.old.entries.items < moment }
        requires call { changes self.old.entries.items < self.old.calls }
        ensures log { log_of self.new ≡ entered moment (Fail from to) (log_of self.old) }
        ensures limits { (self.new.room ≡ self.old.room) × (self.new.calls ≡ self.old.calls) }
    {
        let deed = Deed::Fail { from, to };
        enter(&mut self.entries, Entry { moment, deed });
    }

    // Settles all that was done up to a moment.
    pub(crate) fn settle(&mut self, moment: u64, upto: u64)
        requires last { latest self.old.entries.items < moment }
        ensures log { Settles moment upto (log_of self.old) (log_of self.new) }
        ensures limits { (self.new.room ≡ self.old.room) × (self.new.calls ≡ self.old.calls) }
    {
        if upto <= self.synced {
            return;
        }
        if !has_change(&self.entries, self.synced, upto) {
            self.synced = upto;
            return;
        }
        let deed = Deed::Settle { upto };
        enter(&mut self.entries, Entry { moment, deed });
        self.synced = upto;
    }
}

// Whether something was written or cut after one moment and up to another.
fn has_change(entries: &[Entry], after: u64, to: u64) -> bool
    ensures { result ≡ list_any (in_span after to) entries.now }
{
    entries.iter().any(|entry| is_change(entry, after, to))
}

// Whether an entry is a write or cut after one moment and up to another.
fn is_change(entry: &Entry, after: u64, to: u64) -> bool
    ensures { result ≡ in_span after to entry.now }
{
    let is_settling = matches!(entry.deed, Deed::Settle { .. });
    after < entry.moment && entry.moment <= to && !is_settling
}
