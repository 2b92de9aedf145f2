ghost use Rattle.std.specs.Prelude.{◌≡◌, ◌≤◌, ◌<◌, ◌+◌, None, Ok, Err, length, take, drop, max, IfOk, IfErr, vec_len};
ghost use Rattle.rec_bytes.specs.Configuration.{Fields};
ghost use Rattle.raw_feed.specs.Items.{marker};
ghost use Rattle.std.specs.Bool.{OnTrue, OnFalse};
ghost use Rattle.byteorder.specs.Endian.{big_bytes, big_number};
ghost use Rattle.raw_feed.specs.inner.Parts.{MarkerRead, LenRead, BytesRead, ItemRead};
ghost use Rattle.raw_feed.specs.inner.Parts.{IsPartFault, TakesPart};
ghost use Rattle.raw_feed.specs.Breaks.{HasFeedCause};
ghost use Rattle.raw_feed.specs.Refusals.{IsMarkerFault, IsItemFault};

use crate::fault::FeedFault;
use crate::kind::{Kind, MARKER_LEN, UNIT_HEAD_LEN, marker_of};
use crate::limits::{MAX_FEED, MAX_UNIT};
use crate::part::read_part;
use crate::source::{Feed, Source};
use byteorder::{BigEndian, ByteOrder};

/// Bytes of a unit that are wanted before the first of them is there.
const FIRST_PIECE: usize = 0x10_0000;

/// Reads the marker of the item at a place, and answers false where the feed ends there.
pub(crate) fn read_marker<N: Feed, S: Source<N>>(
    source: &mut S,
    kind: Kind,
    at: u64,
) -> Result<bool, FeedFault>
    requires { at ≤ MAX_FEED }
    ensures within { IfOk result (λ more. OnTrue more (at + MARKER_LEN ≤ MAX_FEED)) }
    ensures named { IfErr result (IsMarkerFault at) }
    ensures marked { MarkerRead kind at (S.told source.old) (S.told source.new) result }
    ensures cause { HasFeedCause (S.fault_count source.old) (S.fault_count source.new) result }
{
    let mut marker = [0u8; MARKER_LEN];
    let came = read_part(source, at, &mut marker)?;
    if came == 0 {
        return Ok(false);
    }
    if came < MARKER_LEN {
        return Err(FeedFault::FeedCut {
            at: at + came as u64,
        });
    }
    if !is_marker(kind, &marker) {
        return Err(FeedFault::Marker { at });
    }
    Ok(true)
}

/// Whether the bytes are the marker of an item.
fn is_marker(kind: Kind, bytes: &[u8; MARKER_LEN]) -> bool
    ensures right { OnTrue result (bytes.now ≡ marker kind) }
    ensures wrong { OnFalse result (bytes.now ≡ marker kind → ⊥) }
{
    *bytes == marker_of(kind)
}

/// Reads the length of the unit at a place, behind its marker.
fn read_unit_len<N: Feed, S: Source<N>>(source: &mut S, at: u64) -> Result<u32, FeedFault>
    requires { at + MARKER_LEN ≤ MAX_FEED }
    ensures most { IfOk result (λ len. len ≤ MAX_UNIT) }
    ensures within { IfOk result (λ len. at + UNIT_HEAD_LEN ≤ MAX_FEED) }
    ensures named { IfErr result (IsItemFault at) }
    ensures spelled { LenRead at (S.told source.old) (S.told source.new) result }
    ensures cause { HasFeedCause (S.fault_count source.old) (S.fault_count source.new) result }
{
    let mut bytes = [0u8; 4];
    let place = at + MARKER_LEN as u64;
    let came = read_part(source, place, &mut bytes)?;
    if came < 4 {
        return Err(FeedFault::FeedCut {
            at: place + came as u64,
        });
    }
    let len = len_of(&bytes);
    if len > MAX_UNIT {
        return Err(FeedFault::UnitLong { at: place });
    }
    Ok(len)
}

/// The length that four bytes spell.
fn len_of(bytes: &[u8; 4]) -> u32
    ensures value { result ≡ big_number 4 bytes.now }
    ensures spelled { big_bytes 4 result ≡ bytes.now }
{
    BigEndian::read_u32(bytes)
}

/// Reads the length and the bytes of the unit at a place, behind its marker, to the front of memory that grows where it
/// is too short, and answers how many bytes the unit has.
pub(crate) fn read_unit<N: Feed, S: Source<N>>(
    source: &mut S,
    at: u64,
    bytes: &mut Vec<u8>,
) -> Result<usize, FeedFault>
    requires { at + MARKER_LEN ≤ MAX_FEED }
    ensures most { IfOk result (λ n. (n ≤ MAX_UNIT) × (n ≤ vec_len bytes.new)) }
    ensures within { IfOk result (λ n. at + UNIT_HEAD_LEN + n ≤ MAX_FEED) }
    ensures named { IfErr result (IsItemFault at) }
    ensures read { IfOk result (λ n. (config : Fields)
        → ItemRead Kind.Units config at (S.told source.old) (S.told source.new) (Ok (take n bytes.new.items))) }
    ensures broken { IfErr result (λ fault. (config : Fields)
        → ItemRead Kind.Units config at (S.told source.old) (S.told source.new) (Err fault)) }
    ensures cause { HasFeedCause (S.fault_count source.old) (S.fault_count source.new) result }
{
    let len = read_unit_len(source, at)?;
    read_bytes(source, at, len, bytes)
}

/// Reads the bytes of the unit at a place, behind its marker and its length. Memory is taken as the
/// bytes come, so that a length that claims more than there is costs at most one piece, or as much
/// again as has come.
fn read_bytes<N: Feed, S: Source<N>>(
    source: &mut S,
    at: u64,
    len: u32,
    bytes: &mut Vec<u8>,
) -> Result<usize, FeedFault>
    requires most { len ≤ MAX_UNIT }
    requires within { at + UNIT_HEAD_LEN ≤ MAX_FEED }
    ensures long { IfOk result (λ n. (n ≡ len) × (n ≤ vec_len bytes.new)) }
    ensures within { IfOk result (λ n. at + UNIT_HEAD_LEN + n ≤ MAX_FEED) }
    ensures named { IfErr result (IsItemFault at) }
    ensures read { IfOk result (λ n.
        BytesRead at len (S.told source.old) (S.told source.new) (Ok (take n bytes.new.items))) }
    ensures broken { IfErr result (λ fault.
        BytesRead at len (S.told source.old) (S.told source.new) (Err fault)) }
    ensures cause { HasFeedCause (S.fault_count source.old) (S.fault_count source.new) result }
{
    let len = len as usize;
    let mut had = 0;
    while had < len {
        if !has_room(bytes, had, len) {
            return Err(FeedFault::Memory);
        }
        let more = bytes.len().min(len) - had;
        let place = at + UNIT_HEAD_LEN as u64 + had as u64;
        let came = read_more(source, place, bytes, had, more)?;
        if came < more {
            return Err(FeedFault::FeedCut {
                at: place + came as u64,
            });
        }
        had += more;
    }
    Ok(len)
}

/// Makes room behind the bytes of a unit that came, and answers false where there is no memory for it.
fn has_room(bytes: &mut Vec<u8>, had: usize, len: usize) -> bool
    requires fewer { had < len }
    requires most { len ≤ MAX_UNIT }
    requires there { had ≤ vec_len bytes.old }
    ensures room { OnTrue result (had < vec_len bytes.new) }
    ensures earned { vec_len bytes.new ≤ max (vec_len bytes.old) (had + max had FIRST_PIECE) }
    ensures kept { OnTrue result (take had bytes.new.items ≡ take had bytes.old.items) }
{
    if had < bytes.len() {
        return true;
    }
    let more = (len - had).min(had.max(FIRST_PIECE));
    bytes.resize(had + more, 0).is_ok()
}

/// Reads so many bytes of a unit, from a place of the feed on, behind those that came.
fn read_more<N: Feed, S: Source<N>>(
    source: &mut S,
    at: u64,
    bytes: &mut Vec<u8>,
    had: usize,
    more: usize,
) -> Result<usize, FeedFault>
    requires place { at ≤ MAX_FEED }
    requires room { had + more ≤ vec_len bytes.old }
    ensures most { IfOk result (λ n. n ≤ more) }
    ensures within { IfOk result (λ n. at + n ≤ MAX_FEED) }
    ensures named { IfErr result (IsPartFault at more) }
    ensures kept { (vec_len bytes.new ≡ vec_len bytes.old) × (take had bytes.new.items ≡ take had bytes.old.items) }
    ensures taken { TakesPart at (S.told source.old) (S.told source.new) result (take more (drop had bytes.new.items)) }
    ensures cause { HasFeedCause (S.fault_count source.old) (S.fault_count source.new) result }
{
    read_behind(source, at, bytes.as_mut_slice(), had, more)
}

/// Reads so many bytes of a feed from a place on into a buffer, behind those that it has.
fn read_behind<N: Feed, S: Source<N>>(
    source: &mut S,
    at: u64,
    out: &mut [u8],
    had: usize,
    more: usize,
) -> Result<usize, FeedFault>
    requires place { at ≤ MAX_FEED }
    requires room { had + more ≤ length out.old }
    ensures most { IfOk result (λ n. n ≤ more) }
    ensures within { IfOk result (λ n. at + n ≤ MAX_FEED) }
    ensures named { IfErr result (IsPartFault at more) }
    ensures kept { take had out.new ≡ take had out.old }
    ensures taken { TakesPart at (S.told source.old) (S.told source.new) result (take more (drop had out.new)) }
    ensures cause { HasFeedCause (S.fault_count source.old) (S.fault_count source.new) result }
{
    read_part(source, at, &mut out[had..had + more])
}

#[cfg(test)]
mod tests {
    use super::*;
    use rec_bytes::Failed;
    use std::marker::Brand;
    use std::test::Fail;

    /// A source of so many zeros that doesn't tell, and keeps the longest piece that was wanted.
    #[derive(Drop)]
    struct Zeros {
        left: usize,
        longest: usize,
    }

    impl Source<Brand> for Zeros {
        ghost told = { λ s. None };

        ghost fault_count = { λ s. 0 };

        ghost whole = { λ s. tt };

        fn read(&mut self, out: &mut [u8]) -> Result<usize, Failed> {
            self.longest = self.longest.max(out.len());
            let count = self.left.min(out.len());
            self.left -= count;
            Ok(count)
        }

        fn faults(&self) -> u64 {
            0
        }
    }

    // 2^20 bytes are wanted first, and then at most as many as came.
    #[test]
    fn memory_is_taken_as_the_bytes_come(rt: HostRuntime) -> Result<(), Fail> {
        let cases: [(usize, usize); 4] = [
            (3, 0x10_0000),
            (0x10_0000, 0x10_0000),
            (0x20_0000, 0x20_0000),
            (0x30_0000, 0x20_0000),
        ];
        for (left, longest) in cases {
            let mut source = Zeros { left, longest: 0 };
            let at = 72 + 8 + left as u64;
            let mut bytes = Vec::new(rt.alloc());
            let cut = read_bytes::<Brand, Zeros>(&mut source, 72, MAX_UNIT, &mut bytes);
            assert_eq!(rt; cut, Err(FeedFault::FeedCut { at }), "{left} bytes came");
            assert_eq!(rt; source.longest, longest, "{left} bytes came");
        }
        Ok(())
    }
}
