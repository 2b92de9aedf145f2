//! The frame of slices that are in.

ghost use Rattle.std.specs.Prelude.{◌≡◌, ◌≤◌, ◌<◌, ◌+◌, ◌*◌, length, take};
ghost use Rattle.rec_bytes.specs.Ranges.{IsInRange};
ghost use Rattle.rec_bytes.specs.Views.{view};
ghost use Rattle.picture_plane.specs.Sizes.{size_of};
ghost use Rattle.picture_plane.specs.Slices.{picture_count};
ghost use Rattle.frame_syntax.specs.Written.{frame_room_of};
ghost use Rattle.slice_desk.specs.Frames.{IsFrameFor};
ghost use Rattle.slice_desk.specs.Slices.{slices_of, slices_in_picture};
ghost use Rattle.slice_desk.specs.inner.Joins.{AreThere, AreSlicesPut, IsPicturePut, ArePicturesPut};
ghost use Rattle.slice_desk.specs.inner.Rooms.{room_of, slices_room};

use crate::names::DeskName;
use crate::shelf::Shelf;
use frame_syntax::{
    ENTRY_LEN, HEAD_AT, LEAST_PICTURE_HEAD, head_of, put_frame_front, put_picture_front,
};
use raw_feed::Feed;
use rec_bytes::Config;
use slice_codec::SliceSetup;

/// Writes the frame of slices that are in, and answers its bytes. `sizes` is room for the slice table of a coded picture.
pub(crate) fn put_frame<N: Feed, P: DeskName>(
    shelf: &Shelf<N, P>,
    config: &Config,
    frame: u64,
    sizes: &mut [u16],
    out: &mut [u8],
) -> usize
    requires named { view config.now ≡ P.config }
    requires there { AreThere shelf.now frame (slices_of P.config) }
    requires sized { length sizes.old ≡ slices_in_picture P.config }
    requires room { frame_room_of P.config ≤ length out.old }
    ensures coded { IsFrameFor N.bytes P.config frame (take result out.new) }
    ensures most { result ≤ frame_room_of P.config }
{
    config.ranges();
    let setup = SliceSetup::of(config);
    let head = head_of(config, &setup.luma, &setup.chroma);
    let first_at = HEAD_AT + usize::from(head.head_size);
    let end = put_pictures(shelf, config, frame, sizes, out, first_at);
    put_frame_front(&head, end as u32, out);
    end
}

/// Writes the coded pictures of the frame from a place on, and answers the place behind them.
fn put_pictures<N: Feed, P: DeskName>(
    shelf: &Shelf<N, P>,
    config: &Config,
    frame: u64,
    sizes: &mut [u16],
    out: &mut [u8],
    at: usize,
) -> usize
    requires named { view config.now ≡ P.config }
    requires there { AreThere shelf.now frame (slices_of P.config) }
    requires sized { length sizes.old ≡ slices_in_picture P.config }
    requires room { at + picture_count (size_of P.config) * room_of P.config ≤ length out.old }
    ensures put { ArePicturesPut N.bytes P.config frame at result out.old out.new }
    ensures most { result ≤ at + picture_count (size_of P.config) * room_of P.config }
{
    let second_at = put_picture(shelf, config, frame, 0, sizes, out, at);
    if config.interlace == 0 {
        return second_at;
    }
    put_picture(shelf, config, frame, 1, sizes, out, second_at)
}

/// Writes a coded picture of the frame at a place, and answers the place behind it.
fn put_picture<N: Feed, P: DeskName>(
    shelf: &Shelf<N, P>,
    config: &Config,
    frame: u64,
    number: u8,
    sizes: &mut [u16],
    out: &mut [u8],
    at: usize,
) -> usize
    requires named { view config.now ≡ P.config }
    requires there { AreThere shelf.now frame (slices_of P.config) }
    requires number { number < picture_count (size_of P.config) }
    requires sized { length sizes.old ≡ slices_in_picture P.config }
    requires room { at + room_of P.config ≤ length out.old }
    ensures put { IsPicturePut N.bytes P.config frame number at result out.old out.new }
    ensures most { result ≤ at + room_of P.config }
{
    config.ranges();
    let start = at + LEAST_PICTURE_HEAD + ENTRY_LEN * sizes.len();
    let end = put_slices(shelf, frame, number, sizes, out, start);
    put_picture_front(config.log2, sizes, out, at);
    end
}

/// Writes the slices of a coded picture of the frame from a place on, and answers the place behind them. `sizes` gets the bytes
/// of each.
fn put_slices<N: Feed, P: DeskName>(
    shelf: &Shelf<N, P>,
    frame: u64,
    number: u8,
    sizes: &mut [u16],
    out: &mut [u8],
    start: usize,
) -> usize
    requires ranges { IsInRange P.config }
    requires there { AreThere shelf.now frame (slices_of P.config) }
    requires number { number < picture_count (size_of P.config) }
    requires sized { length sizes.old ≡ slices_in_picture P.config }
    requires room { start + slices_room P.config (length sizes.old) ≤ length out.old }
    ensures put { AreSlicesPut N.bytes P.config frame (number * slices_in_picture P.config) (length sizes.old) start result sizes.new out.old out.new }
    ensures most { result ≤ start + slices_room P.config (length sizes.old) }
{
    let first = u32::from(number) * sizes.len() as u32;
    let mut at = start;
    'slices: for n in 0..sizes.len() {
        let index = first + n as u32;
        let len = shelf.put_slice(frame, index, out, at);
        sizes[n] = len as u16;
        at += len;
    }
    at
}
