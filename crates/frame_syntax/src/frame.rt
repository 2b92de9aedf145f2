//! A frame, read.

ghost use Rattle.std.specs.Prelude.{◌≡◌, ◌≤◌, ◌+◌, true, length, List, ℕ, IfOk, IfErr, IfSome, Some};
ghost use Rattle.frame_syntax.specs.declared.frame_head.TheConstants.{HEAD_AT};
ghost use Rattle.picture_plane.specs.Sizes.{IsSize};
ghost use Rattle.frame_syntax.specs.Headers.{size_of};
ghost use Rattle.frame_syntax.specs.Frames.{IsFrame, Refuses, parts_behind, slices_of};
ghost use Rattle.frame_syntax.specs.declared.fault.FrameFault.{FrameFault};
ghost use Rattle.frame_syntax.specs.declared.frame.FrameParts.{FrameParts};
ghost use Rattle.frame_syntax.specs.Rules.{first_broken, frame_rules, picture_rules};
ghost use Rattle.frame_syntax.specs.inner.Rooms.{AreParts, IsRoomy};

use crate::fault::FrameFault;
use crate::frame_head::{FrameHead, HEAD_AT, head_fault, opening_fault, read_header};
use crate::picture_head::{PictureHead, read_picture, table_fault};

/// What stands in a frame: its header, and where its coded pictures and their slices lie.
#[derive(Clone, Copy, Debug, PartialEq, Eq)]
pub struct FrameParts {
    /// The frame header.
    pub head: FrameHead,
    /// The coded picture that comes first: the whole frame, or one field.
    pub first: PictureHead,
    /// The other field, where the frame is interlaced.
    pub second: Option<PictureHead>,
    /// How many slices there are in all. They are numbered over both coded pictures.
    pub slices: u32,
}

/// Reads a frame (SMPTE RDD 36). Nothing is said of what stands in its slices, nor of a frame that loads only one of
/// the two quantisation matrices, which is read.
#[tactic(auto, using(crate::specs::laws::FrameLaws::frame_sized))]
pub fn read_frame(bytes: &[u8]) -> Result<FrameParts, FrameFault>
    ensures read { IfOk result (IsFrame bytes.now) }
    ensures sized { IfOk result (λ parts. IsSize (size_of parts.head)) }

    ensures refused { IfErr result (Refuses bytes.now) }
{
    let parts = read_parts(bytes)?;
    if let Some(fault) = table_fault(bytes, &parts.first, 0) {
        return Err(fault);
    }
    if let Some(second) = parts.second
        && let Some(fault) = table_fault(bytes, &second, parts.first.slices)
    {
        return Err(fault);
    }
    Ok(parts)
}

/// Bytes are a frame of one list of parts or break one first rule, and not both; and a frame has as many slices as its
/// parts say. It does nothing: its clauses are the law.
pub fn refusals_are_exact()
    ensures none { (bytes : List ℕ) (parts : FrameParts) (fault : FrameFault) → IsFrame bytes parts → Refuses bytes fault → ⊥ }
    ensures one { (bytes : List ℕ) (a b : FrameFault) → Refuses bytes a → Refuses bytes b → a ≡ b }
    ensures frame { (bytes : List ℕ) (a b : FrameParts) → IsFrame bytes a → IsFrame bytes b → a ≡ b }
    ensures counted { (bytes : List ℕ) (parts : FrameParts) → IsFrame bytes parts → length (slices_of bytes parts) ≡ parts.slices }
{}

/// The parts of a frame that breaks no rule which is tried before the slice tables.
fn read_parts(bytes: &[u8]) -> Result<FrameParts, FrameFault>
    ensures read { IfOk result (AreParts bytes.now) }
    ensures refused { IfErr result (λ fault. first_broken (frame_rules bytes.now) ≡ Some fault) }
{
    if let Some(fault) = opening_fault(bytes) {
        return Err(fault);
    }
    let head = read_header(bytes);
    if let Some(fault) = head_fault(&head) {
        return Err(fault);
    }
    read_pictures(bytes, head)
}

/// The parts of a frame of which only the coded pictures and the slice tables may break a rule.
fn read_pictures(bytes: &[u8], head: FrameHead) -> Result<FrameParts, FrameFault>
    requires { HEAD_AT + head.head_size ≤ length bytes.now }
    ensures read { IfOk result (λ parts. parts ≡ parts_behind bytes.now head) }
    ensures kept { IfOk result (λ parts. first_broken (picture_rules bytes.now head) ≡ None) }
    ensures first { IfOk result (λ parts. IsRoomy (length bytes.now) parts.first) }
    ensures second { IfOk result (λ parts. IfSome parts.second (IsRoomy (length bytes.now))) }

    ensures refused { IfErr result (λ fault. first_broken (picture_rules bytes.now head) ≡ Some fault) }
{
    let first = read_picture(bytes, &head, HEAD_AT + head.head_size as usize, 0)?;
    if head.interlace == 0 {
        return Ok(FrameParts {
            head,
            first,
            second: None,
            slices: first.slices,
        });
    }
    let second = read_picture(bytes, &head, first.at + first.size as usize, 1)?;
    Ok(FrameParts {
        head,
        first,
        second: Some(second),
        slices: first.slices + second.slices,
    })
}
