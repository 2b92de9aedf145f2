ghost use Rattle.std.specs.Prelude.{◌≡◌, ◌≤◌, ◌+◌, [], length, Ok, Err, IfErr, OnOk, vec_len};
ghost use Rattle.rec_bytes.specs.Configuration.{Fields};
ghost use Rattle.raw_feed.specs.Items.{item};
ghost use Rattle.raw_feed.specs.inner.Parts.{ItemRead};
ghost use Rattle.raw_feed.specs.Breaks.{HasFeedCause};
ghost use Rattle.raw_feed.specs.Refusals.{IsItemFault};

use crate::fault::FeedFault;
use crate::kind::{Kind, MARKER_LEN};
use crate::limits::{MAX_FEED, MAX_UNIT};
use crate::source::{Feed, Source};
use crate::unit::read_unit;
use std::alloc::Global;
use std::marker::Model;

/// The bytes of a unit, in memory that is kept for the next one: it grows where a unit is longer than all before it, as
/// its bytes come.
#[derive(Drop)]
pub struct UnitBuffer {
    bytes: Vec<u8>,
    len: usize,
}

impl Model for UnitBuffer {
    ghost use Rattle.std.specs.Prelude.{◌≤◌, ℕ, List, take, vec_len};

    ghost Value = { List ℕ };

    ghost view = { λ b. take b.len b.bytes.items };

    ghost invariant = { λ b. b.len ≤ vec_len b.bytes };
}

impl UnitBuffer {
    /// A buffer without a byte, for which no memory is taken yet.
    pub fn new(alloc: Global) -> Self
        ensures { result ≡ [] }
    {
        UnitBuffer {
            bytes: Vec::new(alloc),
            len: 0,
        }
    }

    /// The unit's bytes.
    pub fn as_slice(&self) -> &[u8]
        ensures { result.now ≡ self.now }
    {
        &self.bytes[..self.len]
    }

    /// The unit's bytes alone.
    pub fn into_vec(self) -> Vec<u8>
        ensures { result.items ≡ self }
    {
        let UnitBuffer { bytes, len } = self;
        let mut bytes = bytes;
        bytes.truncate(len);
        bytes
    }

    /// Reads the rest of the item at a place, behind its marker. Of a unit that isn't whole no byte is shown.
    pub(crate) fn read_item<N: Feed, S: Source<N>>(
        &mut self,
        source: &mut S,
        at: u64,
    ) -> Result<(), FeedFault>
        requires { at + MARKER_LEN ≤ MAX_FEED }
        ensures most { OnOk result (length self.new ≤ MAX_UNIT) }
        ensures within { OnOk result (at + length (item Kind.Units self.new) ≤ MAX_FEED) }
        ensures named { IfErr result (IsItemFault at) }
        ensures read { OnOk result ((config : Fields)
            → ItemRead Kind.Units config at (S.told source.old) (S.told source.new) (Ok self.new)) }
        ensures broken { IfErr result (λ fault. (config : Fields)
            → ItemRead Kind.Units config at (S.told source.old) (S.told source.new) (Err fault)) }
        ensures cause { HasFeedCause (S.fault_count source.old) (S.fault_count source.new) result }
    {
        self.len = 0;
        self.len = read_unit(source, at, &mut self.bytes)?;
        Ok(())
    }
}
