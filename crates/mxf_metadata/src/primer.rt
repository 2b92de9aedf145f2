//! The primer pack.

ghost use Rattle.std.specs.Prelude.{◌≡◌, ◌+◌, ◌≤◌, length};
ghost use Rattle.std.specs.List.{flat_map};
ghost use Rattle.rec_bytes.specs.Places.{with_bytes};
ghost use Rattle.mxf_metadata.specs.Primer.{primer};
ghost use Rattle.mxf_metadata.specs.inner.Entries.{tag_bytes};

use crate::labels::TAG_LABEL_HEAD;
use crate::lengths::{PRIMER, PRIMER_ENTRY_LEN, PRIMER_VALUE_LEN};
use crate::tags::{TAG_COUNT, TAGS, Tag};
use klv::{Form, SET_HEAD_LEN, put_klv_head_at};
use local_sets::BATCH_HEAD_LEN;
use mxf_names::PRIMER_KEY;
use rec_bytes::{put_bytes, put_u16, put_u32};

/// Writes the primer pack at the front.
pub fn put_primer(out: &mut [u8])
    requires room { PRIMER ≤ length out.old }
    ensures { out.new ≡ with_bytes out.old 0 primer }
{
    put_klv_head_at(&PRIMER_KEY, PRIMER_VALUE_LEN as u64, Form::Three, out, 0);
    put_u32(out, SET_HEAD_LEN, TAG_COUNT as u32);
    put_u32(out, SET_HEAD_LEN + 4, PRIMER_ENTRY_LEN as u32);
    put_entries(&TAGS, out, SET_HEAD_LEN + BATCH_HEAD_LEN);
}

fn put_entries(tags: &[Tag], out: &mut [u8], at: usize)
    requires { at + length (flat_map tag_bytes tags.now) ≤ length out.old }
    ensures { out.new ≡ with_bytes out.old at (flat_map tag_bytes tags.now) }
{
    let mut end = at;
    'tags: for tag in tags {
        end = put_entry(tag, out, end);
    }
}

fn put_entry(tag: &Tag, out: &mut [u8], at: usize) -> usize
    requires { at + length (tag_bytes tag.now) ≤ length out.old }
    ensures end { result ≡ at + length (tag_bytes tag.now) }
    ensures written { out.new ≡ with_bytes out.old at (tag_bytes tag.now) }
{
    put_u16(out, at, tag.tag);
    put_bytes(out, at + 2, &TAG_LABEL_HEAD);
    put_u16(out, at + 16, tag.tag);
    at + PRIMER_ENTRY_LEN
}
