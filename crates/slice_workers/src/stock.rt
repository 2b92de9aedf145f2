//! The slices that workers have coded, in the order of the file.

ghost use Rattle.std.specs.Prelude.{◌≡◌, ◌≤◌, ◌+◌, length, take, drop, IfSome, IfNone};
ghost use Rattle.rec_bytes.specs.Views.{view};
ghost use Rattle.frame_codec.specs.Sources.{IsNth, slice_room};
ghost use Rattle.slice_workers.specs.inner.Hands.{HavePieces};

use crate::hand::{Hand, hand_over};
use frame_codec::{SliceSource, SliceWriter};
use picture_plane::Picture;
use rec_bytes::Config;

/// Workers with what they have coded, and what the caller codes itself with.
#[derive(Drop)]
pub struct Stock {
    /// The caller's.
    pub own: SliceWriter,
    /// The workers.
    pub hands: Vec<Hand>,
}

impl SliceSource for Stock {
    ghost use Rattle.rec_bytes.specs.Views.{view as fields_in};
    ghost use Rattle.slice_workers.specs.inner.Hands.{HavePieces as Have};

    ghost config = { λ s. fields_in s.own.coder.coding.config };

    ghost holds = { λ s picture. Have (fields_in s.own.coder.coding.config) picture s.hands.items };

    fn put_slice(
        &mut self,
        picture: &Picture,
        number: u8,
        n: u32,
        out: &mut [u8],
        at: usize,
    ) -> usize {
        let config = self.own.coder.coding.config;
        match take_slice(
            &config,
            picture,
            number,
            n,
            self.hands.as_mut_slice(),
            out,
            at,
        ) {
            Some(len) => len,
            None => self.own.put_slice(picture, number, n, out, at),
        }
    }
}

/// Puts a slice at a place, if it is the next one that some worker has to hand over, and answers its bytes.
fn take_slice(
    config: &Config,
    picture: &Picture,
    number: u8,
    n: u32,
    hands: &mut [Hand],
    out: &mut [u8],
    at: usize,
) -> Option<usize>
    requires have { HavePieces (view config.now) picture.now hands.old }
    requires room { at + slice_room (view config.now) n ≤ length out.old }
    ensures have { HavePieces (view config.now) picture.now hands.new }
    ensures coded { IfSome result (λ len. IsNth (view config.now) picture.now number n (take len (drop at out.new))) }
    ensures before { take at out.new ≡ take at out.old }
    ensures most { IfSome result (λ len. len ≤ slice_room (view config.now) n) }
    ensures none { IfNone result (out.new ≡ out.old) }
{
    'hands: for k in 0..hands.len() {
        let taken = hand_over(config, picture, number, n, &mut hands[k], out, at);
        if taken.is_some() {
            return taken;
        }
    }
    None
}
