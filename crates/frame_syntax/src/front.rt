//! What stands in a frame around its slices, written.

ghost use Rattle.std.specs.Prelude.{◌≡◌, ◌≤◌, ◌<◌, ◌+◌, ◌*◌, ◌^◌, ◌==◌, ℕ, List, [], ◌∷◌, ◌++◌, length, sum};
ghost use Rattle.rec_bytes.specs.Configuration.{Fields};
ghost use Rattle.rec_bytes.specs.Ranges.{IsInRange};
ghost use Rattle.picture_plane.specs.Slices.{picture_count};
ghost use Rattle.frame_syntax.specs.Headers.{size_of};
ghost use Rattle.frame_syntax.specs.declared.frame_head.FrameHead.{FrameHead};
ghost use Rattle.byteorder.specs.Endian.{big_bytes};
ghost use Rattle.rec_bytes.specs.Places.{with_bytes};
ghost use Rattle.rec_bytes.specs.Views.{view};
ghost use Rattle.frame_syntax.specs.Written.{head_of, IsWritable, AreSlices, Holds, IsMatrix, frame_bytes, frame_room_of, picture_room, IsPacked, frame_front, identity_bytes, format_bytes, matrix_bytes, picture_front, table_of, loaded_bytes, flag_of};
ghost use Rattle.frame_syntax.specs.declared.frame_head.TheConstants.{FRAME_NAME, HEAD_AT};
ghost use Rattle.frame_syntax.specs.declared.picture_head.TheConstants.{LEAST_PICTURE_HEAD, ENTRY_LEN};

use crate::frame_head::{
    CHROMA_422, FRAME_NAME, FrameHead, HEAD_AT, LEAST_HEAD, MATRIX_LEN, NAME_AT,
};
use crate::picture_head::{
    ENTRY_LEN, LEAST_PICTURE_HEAD, PICTURE_SIZE_AT, SLICE_COUNT_AT, SLICE_SIZE_AT,
    macroblocks_per_picture, slices_per_picture,
};
use rec_bytes::{Config, put_bytes, put_u16, put_u32};

/// Bytes that a slice may have beside those for its macroblocks.
pub const SLICE_ROOM: usize = 8;
/// Bytes that a slice may have for each of its macroblocks.
pub const MACROBLOCK_ROOM: usize = 4096;

/// What is written of slices is a frame of just these slices, and a configuration's header may be written. It does
/// nothing: its clauses are the law.
pub fn written_frames_are_frames()
    ensures frame { (head : FrameHead) (log2 : ℕ) (slices : List (List ℕ)) → IsWritable head → AreSlices head log2 slices
        → Holds (frame_bytes head log2 slices) head log2 slices }
    ensures header { (config : Fields) (luma chroma : List ℕ) → IsInRange config → IsMatrix (config.weights == 1) luma
        → IsMatrix (config.weights == 1) chroma → IsWritable (head_of config luma chroma) }
{}

/// The most bytes of a frame whose slices have at most `MACROBLOCK_ROOM` bytes for each of their macroblocks and
/// `SLICE_ROOM` more.
pub fn frame_room(cfg: &Config) -> usize
    ensures { result ≡ frame_room_of (view cfg.now) }
{
    cfg.ranges();
    let head = head_of(cfg, &[4; MATRIX_LEN], &[4; MATRIX_LEN]);
    HEAD_AT + head.head_size as usize + picture_count(&head) * picture_room(&head, cfg.log2)
}

fn picture_count(head: &FrameHead) -> usize
    ensures count { result ≡ picture_count (size_of head.now) }
    ensures few { result ≤ 2 }
{
    if head.interlace == 0 { 1 } else { 2 }
}

/// The most bytes of a coded picture of such slices.
fn picture_room(head: &FrameHead, log2: u8) -> usize
    requires { log2 ≤ 3 }
    ensures room { result ≡ picture_room (size_of head.now) log2 }
    ensures small { result ≤ 2 ^ 40 }
{
    let slices = slices_per_picture(head, log2) as usize;
    let macroblocks = macroblocks_per_picture(head) as usize;
    LEAST_PICTURE_HEAD + (ENTRY_LEN + SLICE_ROOM) * slices + MACROBLOCK_ROOM * macroblocks
}

/// The frame header of a configuration with these quantisation matrices (SMPTE RDD 36). They are written where the
/// configuration says that both are loaded.
pub fn head_of(cfg: &Config, luma: &[u8; MATRIX_LEN], chroma: &[u8; MATRIX_LEN]) -> FrameHead
    ensures { result ≡ head_of (view cfg.now) luma.now chroma.now }
{
    let loaded = cfg.weights == 1;
    FrameHead {
        head_size: if loaded {
            (LEAST_HEAD + 2 * MATRIX_LEN) as u16
        } else {
            LEAST_HEAD as u16
        },
        version: 0,
        encoder: cfg.encoder,
        width: cfg.width,
        height: cfg.height,
        chroma_format: CHROMA_422,
        interlace: cfg.interlace,
        aspect: cfg.aspect,
        rate: cfg.rate,
        primaries: cfg.primaries,
        transfer: cfg.transfer,
        matrix: cfg.matrix,
        alpha: 0,
        load_luma: loaded,
        load_chroma: loaded,
        luma: *luma,
        chroma: *chroma,
    }
}

/// Writes what stands in a frame of so many bytes before its coded pictures, at the front. Answers the place behind, where
/// the first coded picture begins.
pub fn put_frame_front(head: &FrameHead, frame_len: u32, out: &mut [u8]) -> usize
    requires packed { IsPacked head.now }
    requires room { length (frame_front head.now frame_len) ≤ length out.old }
    ensures behind { result ≡ length (frame_front head.now frame_len) }
    ensures written { out.new ≡ with_bytes out.old 0 (frame_front head.now frame_len) }
{
    put_u32(out, 0, frame_len);
    put_bytes(out, NAME_AT, &FRAME_NAME);
    let format_at = put_identity(head, out, HEAD_AT);
    let matrices_at = put_format(head, out, format_at);
    put_matrices(head, out, matrices_at)
}

/// Writes the size of a frame header, its version and its encoder, and answers the place behind.
fn put_identity(head: &FrameHead, out: &mut [u8], at: usize) -> usize
    requires { at + 8 ≤ length out.old }
    ensures behind { result ≡ at + 8 }
    ensures sized { length head.now.encoder ≡ 4 }
    ensures written { out.new ≡ with_bytes out.old at (identity_bytes head.now) }
{
    put_u16(out, at, head.head_size);
    put_bytes(out, at + 2, &[0, head.version]);
    put_bytes(out, at + 4, &head.encoder);
    at + 8
}

/// Writes the sizes of a frame and the packed fields of its header, and answers the place behind.
fn put_format(head: &FrameHead, out: &mut [u8], at: usize) -> usize
    requires packed { IsPacked head.now }
    requires room { at + 12 ≤ length out.old }
    ensures behind { result ≡ at + 12 }
    ensures written { out.new ≡ with_bytes out.old at (format_bytes head.now) }
{
    let packed = [
        64 * head.chroma_format + 4 * head.interlace,
        16 * head.aspect + head.rate,
        head.primaries,
        head.transfer,
        head.matrix,
        head.alpha,
        0,
        2 * flag_of(head.load_luma) + flag_of(head.load_chroma),
    ];
    put_u16(out, at, head.width);
    put_u16(out, at + 2, head.height);
    put_bytes(out, at + 4, &packed);
    at + 12
}

fn flag_of(flag: bool) -> u8
    ensures value { result ≡ flag_of flag }
    ensures bit { result ≤ 1 }
{
    if flag { 1 } else { 0 }
}

/// Writes the matrices that are loaded, and answers the place behind.
fn put_matrices(head: &FrameHead, out: &mut [u8], at: usize) -> usize
    requires { at + length (matrix_bytes head.now) ≤ length out.old }
    ensures behind { result ≡ at + length (matrix_bytes head.now) }
    ensures written { out.new ≡ with_bytes out.old at (matrix_bytes head.now) }
{
    let chroma_at = put_matrix(head.load_luma, &head.luma, out, at);
    put_matrix(head.load_chroma, &head.chroma, out, chroma_at)
}

/// Writes a matrix where it is loaded, and answers the place behind.
fn put_matrix(loaded: bool, matrix: &[u8; MATRIX_LEN], out: &mut [u8], at: usize) -> usize
    requires { at + length (loaded_bytes loaded matrix.now) ≤ length out.old }
    ensures behind { result ≡ at + length (loaded_bytes loaded matrix.now) }
    ensures written { out.new ≡ with_bytes out.old at (loaded_bytes loaded matrix.now) }
{
    if !loaded {
        return at;
    }
    put_bytes(out, at, matrix);
    at + MATRIX_LEN
}

/// Writes what stands in a coded picture before its slices, which have so many bytes each, at the place of the picture.
/// Answers the place behind, where its first slice begins.
pub fn put_picture_front(log2: u8, sizes: &[u16], out: &mut [u8], at: usize) -> usize
    requires log2 { log2 ≤ 3 }
    requires few { length sizes.now < 2 ^ 16 }
    requires sized { LEAST_PICTURE_HEAD + ENTRY_LEN * length sizes.now + sum sizes.now < 2 ^ 32 }
    requires room { at + LEAST_PICTURE_HEAD + ENTRY_LEN * length sizes.now ≤ length out.old }
    ensures behind { result ≡ at + LEAST_PICTURE_HEAD + ENTRY_LEN * length sizes.now }
    ensures written { out.new ≡ with_bytes out.old at (picture_front log2 sizes.now) }
{
    let size = LEAST_PICTURE_HEAD as u64 + ENTRY_LEN as u64 * sizes.len() as u64 + sum_of(sizes);
    put_bytes(out, at, &[8 * LEAST_PICTURE_HEAD as u8]);
    put_u32(out, at + PICTURE_SIZE_AT, size as u32);
    put_u16(out, at + SLICE_COUNT_AT, sizes.len() as u16);
    put_bytes(out, at + SLICE_SIZE_AT, &[16 * log2]);
    put_table(sizes, out, at + LEAST_PICTURE_HEAD)
}

/// The sum of numbers, of which there are few enough.
fn sum_of(sizes: &[u16]) -> u64
    requires { length sizes.now < 2 ^ 16 }
    ensures { result ≡ sum sizes.now }
{
    let mut total = 0u64;
    'sizes: for size in sizes {
        total += u64::from(*size);
    }
    total
}

/// Writes a slice table, and answers the place behind it.
fn put_table(sizes: &[u16], out: &mut [u8], at: usize) -> usize
    requires room { at + ENTRY_LEN * length sizes.now ≤ length out.old }
    ensures behind { result ≡ at + ENTRY_LEN * length sizes.now }
    ensures written { out.new ≡ with_bytes out.old at (table_of sizes.now) }
{
    let mut end = at;
    'entries: for k in 0..sizes.len() {
        put_u16(out, end, sizes[k]);
        end += ENTRY_LEN;
    }
    end
}
