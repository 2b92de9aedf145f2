//! What one worker codes of a picture.

ghost use Rattle.std.specs.Prelude.{◌≡◌, ◌<◌, ◌≤◌, ◌+◌, ◌*◌, ℕ, true, length, take, drop, IfOk, IfSome, IfNone};
ghost use Rattle.rec_bytes.specs.Views.{view};
ghost use Rattle.picture_plane.specs.Sizes.{size_of};
ghost use Rattle.picture_plane.specs.Slices.{picture_count};
ghost use Rattle.frame_codec.specs.Sources.{IsNth, slice_room, slices_of};
ghost use Rattle.frame_codec.specs.declared.source.TheConstants.{SLICE_MOST};
ghost use Rattle.slice_workers.specs.inner.Hands.{HasPieces, config_of};

use frame_codec::{SLICE_MOST, SliceSource, SliceWriter, slices_are_short};
use picture_plane::Picture;
use rec_bytes::{Config, Memory, put_bytes};
use std::alloc::Global;
use std::sync::atomic::{AtomicU64, Ordering};

/// A slice that a worker has coded, and where its bytes stand in the worker's memory.
#[derive(Clone, Copy)]
pub struct Piece {
    /// The coded picture's number.
    pub number: u8,
    /// The slice's number in it.
    pub n: u32,
    /// The place of its first byte.
    pub at: usize,
    /// How many bytes it has.
    pub len: usize,
}

/// A worker: its tables and scratch, and memory for the slices that it codes.
#[derive(Drop)]
pub struct Hand {
    /// What coding a slice takes.
    pub writer: SliceWriter,
    /// The slices that it has coded, one behind the other.
    pub bytes: Vec<u8>,
    /// How many bytes these have.
    pub used: usize,
    /// Where they stand, in the order in which they were taken.
    pub pieces: Vec<Piece>,
    /// How many of them were handed over.
    pub given: usize,
}

/// Which slices there are of a picture.
#[derive(Clone, Copy)]
pub struct Slices {
    /// The coded pictures.
    pub pictures: u8,
    /// The slices of each.
    pub each: u32,
}

impl Hand {
    /// A worker with memory for so many bytes and so many slices.
    pub fn new(alloc: Global, cfg: &Config, bytes: usize, slices: usize) -> Result<Hand, Memory>
        ensures { IfOk result (λ hand. config_of hand ≡ view cfg.now) }
    {
        let bytes = vec![in alloc; 0u8; bytes]?;
        let pieces = Vec::with_capacity(alloc, slices)?;
        Ok(Hand {
            writer: SliceWriter::new(cfg),
            bytes,
            used: 0,
            pieces,
            given: 0,
        })
    }
}

/// Codes slices of a picture, each of which a counter names, until there are no more or the memory is full. What the worker
/// had before is given up.
pub fn work(
    counter: &AtomicU64,
    slices: Slices,
    config: &Config,
    picture: &Picture,
    hand: &mut Hand,
)
    requires config { config_of hand.old ≡ view config.now }
    requires size { picture.now.size ≡ size_of (view config.now) }
    requires pictures { slices.pictures ≡ picture_count (size_of (view config.now)) }
    requires each { slices.each ≡ slices_of (view config.now) }
    ensures { HasPieces (view config.now) picture.now hand.new }
{
    hand.pieces.clear();
    hand.used = 0;
    hand.given = 0;
    let total = u64::from(slices.pictures) * u64::from(slices.each);
    'taken: for _ in 0..total {
        if !has_room(hand) {
            return;
        }
        let index = counter.fetch_add(1, Ordering::SeqCst);
        if index >= total {
            return;
        }
        let (number, n) = place_of(slices, index);
        code_slice(config, picture, number, n, hand);
    }
}

/// Whether a worker has memory for any slice more.
fn has_room(hand: &Hand) -> bool
    requires { hand.now.used ≤ length hand.now.bytes.items }
    ensures bytes { result ≡ true → hand.now.used + SLICE_MOST ≤ length hand.now.bytes.items }
    ensures pieces { result ≡ true → length hand.now.pieces.items < hand.now.pieces.cap }
{
    hand.bytes.len() - hand.used >= SLICE_MOST && hand.pieces.len() < hand.pieces.capacity()
}

/// The slice of this number over all coded pictures, as its coded picture and its number in that.
fn place_of(slices: Slices, index: u64) -> (u8, u32)
    requires few { slices.pictures ≤ 2 }
    requires within { index < slices.pictures * slices.each }
    ensures number { result.0 < slices.pictures }
    ensures n { result.1 < slices.each }
{
    let each = u64::from(slices.each);
    if index < each {
        (0, index as u32)
    } else {
        (1, (index - each) as u32)
    }
}

/// Codes a slice behind those that a worker has.
fn code_slice(config: &Config, picture: &Picture, number: u8, n: u32, hand: &mut Hand)
    requires has { HasPieces (view config.now) picture.now hand.old }
    requires size { picture.now.size ≡ size_of (view config.now) }
    requires number { number < picture_count (size_of (view config.now)) }
    requires within { n < slices_of (view config.now) }
    requires bytes { hand.old.used + SLICE_MOST ≤ length hand.old.bytes.items }
    requires pieces { length hand.old.pieces.items < hand.old.pieces.cap }
    ensures { HasPieces (view config.now) picture.now hand.new }
{
    config.ranges();
    slices_are_short();
    let at = hand.used;
    let len = hand
        .writer
        .put_slice(picture, number, n, hand.bytes.as_mut_slice(), at);
    hand.used = at + len;
    hand.pieces.push_reserved(Piece { number, n, at, len });
}

/// Puts a slice at a place, if it is the next one that a worker has to hand over, and answers its bytes.
pub fn hand_over(
    config: &Config,
    picture: &Picture,
    number: u8,
    n: u32,
    hand: &mut Hand,
    out: &mut [u8],
    at: usize,
) -> Option<usize>
    requires has { HasPieces (view config.now) picture.now hand.old }
    requires room { at + slice_room (view config.now) n ≤ length out.old }
    ensures has { HasPieces (view config.now) picture.now hand.new }
    ensures coded { IfSome result (λ len. IsNth (view config.now) picture.now number n (take len (drop at out.new))) }
    ensures before { take at out.new ≡ take at out.old }
    ensures most { IfSome result (λ len. len ≤ slice_room (view config.now) n) }
    ensures none { IfNone result (out.new ≡ out.old) }
{
    if hand.given >= hand.pieces.len() {
        return None;
    }
    let piece = hand.pieces[hand.given];
    if piece.number != number || piece.n != n {
        return None;
    }
    hand.given += 1;
    put_bytes(out, at, &hand.bytes[piece.at..piece.at + piece.len]);
    Some(piece.len)
}
