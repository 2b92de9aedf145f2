//! The frame that stands for a picture.

ghost use Rattle.std.specs.Prelude.{◌≡◌, ◌≤◌, ◌^◌, [], length, IfOk};
ghost use Rattle.rec_bytes.specs.Views.{view};
ghost use Rattle.picture_plane.specs.Sizes.{size_of};
ghost use Rattle.frame_codec.specs.Coded.{IsCodedFrame};

use crate::source::SliceWriter;
use crate::writing::put_frame;
use frame_syntax::frame_room;
use picture_plane::{FrameSize, Picture, picture_slices};
use rec_bytes::{Config, Memory};
use std::alloc::Global;
use std::marker::Model;

/// Encodes pictures of a configuration. Its memory, room for the longest frame, is taken when it is made, and serves for
/// any number of frames.
#[derive(Drop)]
pub struct FrameEncoder {
    writer: SliceWriter,
    sizes: Vec<u16>,
    buffer: Vec<u8>,
    len: usize,
}

impl Model for FrameEncoder {
    ghost use Rattle.std.specs.Prelude.{take, length};
    ghost use Rattle.rec_bytes.specs.Views.{view as fields_in};
    ghost use Rattle.frame_codec.specs.Encodings.{Encoding};
    ghost use Rattle.frame_codec.specs.inner.Rooms.{HasRoom};

    ghost Value = { Encoding };

    ghost view = { λ e. record { config = fields_in e.writer.coder.coding.config; frame = take e.len e.buffer.items } };

    ghost invariant = { λ e. HasRoom (fields_in e.writer.coder.coding.config) (length e.sizes.items) (length e.buffer.items) e.len };
}

impl FrameEncoder {
    /// An encoder of pictures of this configuration, which has written no frame.
    pub fn new(alloc: Global, cfg: &Config) -> Result<FrameEncoder, Memory>
        ensures { IfOk result (λ encoder. encoder ≡ record { config = view cfg.now; frame = [] }) }
    {
        cfg.ranges();
        let count = picture_slices(FrameSize::of(cfg), cfg.log2);
        let sizes = vec![in alloc; 0u16; count as usize]?;
        let buffer = vec![in alloc; 0u8; frame_room(cfg)]?;
        Ok(FrameEncoder {
            writer: SliceWriter::new(cfg),
            sizes,
            buffer,
            len: 0,
        })
    }

    /// Writes the frame of a picture in the place of the one before.
    pub fn encode(&mut self, picture: &Picture)
        requires { picture.now.size ≡ size_of self.old.config }
        ensures config { self.new.config ≡ self.old.config }
        ensures coded { IsCodedFrame self.old.config picture.now self.new.frame }
        ensures most { length self.new.frame ≤ 2 ^ 28 }
    {
        let config = self.writer.coder.coding.config;
        self.len = put_frame(
            &mut self.writer,
            &config,
            picture,
            self.sizes.as_mut_slice(),
            self.buffer.as_mut_slice(),
        );
    }

    /// The frame that was written last; no bytes before the first.
    pub fn frame(&self) -> &[u8]
        ensures { result.now ≡ self.now.frame }
    {
        &self.buffer[..self.len]
    }

    /// The frame that was written last, alone.
    fn into_frame(self) -> Vec<u8>
        ensures { result.items ≡ self.frame }
    {
        let FrameEncoder { buffer, len, .. } = self;
        let mut buffer = buffer;
        buffer.truncate(len);
        buffer
    }
}

/// The frame of a picture of this configuration. For many pictures keep a `FrameEncoder`.
pub fn encode_frame(alloc: Global, cfg: &Config, picture: &Picture) -> Result<Vec<u8>, Memory>
    requires { picture.now.size ≡ size_of (view cfg.now) }
    ensures { IfOk result (λ frame. IsCodedFrame (view cfg.now) picture.now frame.items) }
{
    let mut encoder = FrameEncoder::new(alloc, cfg)?;
    encoder.encode(picture);
    Ok(encoder.into_frame())
}
