//! The coded pictures of a frame, written.

ghost use Rattle.std.specs.Prelude.{◌≡◌, ◌<◌, ◌≤◌, ◌+◌, ◌*◌, length, take};
ghost use Rattle.rec_bytes.specs.Views.{view};
ghost use Rattle.picture_plane.specs.Sizes.{size_of};
ghost use Rattle.picture_plane.specs.Slices.{picture_count};
ghost use Rattle.frame_syntax.specs.Written.{frame_room_of};
ghost use Rattle.frame_codec.specs.Coded.{IsCodedFrame};
ghost use Rattle.frame_codec.specs.Sources.{slices_of};
ghost use Rattle.frame_codec.specs.inner.Writing.{room_of, slices_room, AreSlicesPut, IsPicturePut, ArePicturesPut};

use crate::source::SliceSource;
use frame_syntax::{
    ENTRY_LEN, HEAD_AT, LEAST_PICTURE_HEAD, head_of, put_frame_front, put_picture_front,
};
use picture_plane::Picture;
use rec_bytes::Config;
use slice_codec::SliceSetup;

/// Writes the frame of a picture of slices that a source writes, and answers its bytes. `sizes` is room for the slice table
/// of a coded picture. Bytes of `out` behind the frame may have changed.
pub fn put_frame<S: SliceSource>(
    source: &mut S,
    config: &Config,
    picture: &Picture,
    sizes: &mut [u16],
    out: &mut [u8],
) -> usize
    requires config { S.config source.old ≡ view config.now }
    requires size { picture.now.size ≡ size_of (view config.now) }
    requires held { S.holds source.old picture.now }
    requires sized { length sizes.old ≡ slices_of (view config.now) }
    requires room { frame_room_of (view config.now) ≤ length out.old }
    ensures coded { IsCodedFrame (view config.now) picture.now (take result out.new) }
    ensures most { result ≤ frame_room_of (view config.now) }
    ensures kept { S.config source.new ≡ view config.now }
    ensures held { S.holds source.new picture.now }
{
    config.ranges();
    let setup = SliceSetup::of(config);
    let head = head_of(config, &setup.luma, &setup.chroma);
    let first_at = HEAD_AT + usize::from(head.head_size);
    let end = put_pictures(source, config, picture, sizes, out, first_at);
    put_frame_front(&head, end as u32, out);
    end
}

/// Writes the coded pictures of a frame from a place on, and answers the place behind them.
fn put_pictures<S: SliceSource>(
    source: &mut S,
    config: &Config,
    picture: &Picture,
    sizes: &mut [u16],
    out: &mut [u8],
    at: usize,
) -> usize
    requires config { S.config source.old ≡ view config.now }
    requires size { picture.now.size ≡ size_of (view config.now) }
    requires held { S.holds source.old picture.now }
    requires sized { length sizes.old ≡ slices_of (view config.now) }
    requires room { at + picture_count (size_of (view config.now)) * room_of (view config.now) ≤ length out.old }
    ensures put { ArePicturesPut (view config.now) picture.now at result out.old out.new }
    ensures most { result ≤ at + picture_count (size_of (view config.now)) * room_of (view config.now) }
    ensures kept { S.config source.new ≡ view config.now }
    ensures held { S.holds source.new picture.now }
{
    let second_at = put_picture(source, config, picture, 0, sizes, out, at);
    if config.interlace == 0 {
        return second_at;
    }
    put_picture(source, config, picture, 1, sizes, out, second_at)
}

/// Writes a coded picture of a frame at a place, and answers the place behind it.
fn put_picture<S: SliceSource>(
    source: &mut S,
    config: &Config,
    picture: &Picture,
    number: u8,
    sizes: &mut [u16],
    out: &mut [u8],
    at: usize,
) -> usize
    requires config { S.config source.old ≡ view config.now }
    requires size { picture.now.size ≡ size_of (view config.now) }
    requires held { S.holds source.old picture.now }
    requires number { number < picture_count (size_of (view config.now)) }
    requires sized { length sizes.old ≡ slices_of (view config.now) }
    requires room { at + room_of (view config.now) ≤ length out.old }
    ensures put { IsPicturePut (view config.now) picture.now number at result out.old out.new }
    ensures most { result ≤ at + room_of (view config.now) }
    ensures kept { S.config source.new ≡ view config.now }
    ensures held { S.holds source.new picture.now }
{
    config.ranges();
    let start = at + LEAST_PICTURE_HEAD + ENTRY_LEN * sizes.len();
    let end = put_slices(source, config, picture, number, sizes, out, start);
    put_picture_front(config.log2, sizes, out, at);
    end
}

/// Writes the slices of a coded picture from a place on, and answers the place behind them. `sizes` gets the bytes of each.
fn put_slices<S: SliceSource>(
    source: &mut S,
    config: &Config,
    picture: &Picture,
    number: u8,
    sizes: &mut [u16],
    out: &mut [u8],
    start: usize,
) -> usize
    requires config { S.config source.old ≡ view config.now }
    requires size { picture.now.size ≡ size_of (view config.now) }
    requires held { S.holds source.old picture.now }
    requires number { number < picture_count (size_of (view config.now)) }
    requires sized { length sizes.old ≡ slices_of (view config.now) }
    requires room { start + slices_room (view config.now) (length sizes.old) ≤ length out.old }
    ensures put { AreSlicesPut (view config.now) picture.now number (length sizes.old) start result sizes.new out.old out.new }
    ensures most { result ≤ start + slices_room (view config.now) (length sizes.old) }
    ensures kept { S.config source.new ≡ view config.now }
    ensures held { S.holds source.new picture.now }
{
    config.ranges();
    let mut at = start;
    'slices: for n in 0..sizes.len() {
        let len = source.put_slice(picture, number, n as u32, out, at);
        sizes[n] = len as u16;
        at += len;
    }
    at
}
