//! The lines of the commands: what a take's file holds, and how a take was found.

ghost use Rattle.std.specs.Prelude.{◌≡◌, ◌≤◌, ◌<◌, ◌+◌, ◌*◌, ◌++◌, codes, decimal, length};
ghost use Rattle.std.specs.Fmt.InlineText.{inline_text};
ghost use Rattle.uuid.specs.Text.{hyphenated_text, lower};
ghost use Rattle.take_commands.specs.Checks.{check_line as check_line_of};
ghost use Rattle.take_commands.specs.Recovers.{recover_line as recover_line_of};

use itoa::Buffer;
use mxf_reader::Catalogue;
use recovery::Recovered;
use std::fmt::InlineText;
use uuid::Uuid;

/// Bytes of room for a line: more than its texts, its identifier and its three numbers have.
pub(crate) const LINE_ROOM: usize = 512;

/// Most bytes of a text, of an identifier or of a number in a line.
const PART_ROOM: usize = 40;

/// The line that says what a file holds.
pub(crate) fn check_line(catalogue: &Catalogue) -> InlineText<LINE_ROOM>
    ensures { inline_text result ≡ check_line_of catalogue.now }
{
    let summary = catalogue.summary();
    let text = identified(&summary.take_id);
    let text = numbered(text, " frames ", summary.frames);
    let text = numbered(text, " bytes ", summary.bytes);
    let text = numbered(text, " partitions ", summary.partitions);
    ended(text)
}

/// The line that says how a take was found.
pub(crate) fn recover_line(done: Recovered) -> InlineText<LINE_ROOM>
    ensures { inline_text result ≡ recover_line_of done }
{
    match done {
        Recovered::Closed { count, len } => counted("closed ", count, len),
        Recovered::Already { count, len } => counted("already ", count, len),
    }
}

/// A line of a label, a number of frames and a number of bytes.
fn counted(label: &str, count: u64, len: u64) -> InlineText<LINE_ROOM>
    requires short { length label.now ≤ PART_ROOM }
    ensures { inline_text result ≡ label.now ++ decimal count ++ codes " bytes " ++ decimal len ++ codes "\n" }
{
    let text = numbered(InlineText::new(), label, count);
    let text = numbered(text, " bytes ", len);
    ended(text)
}

/// The text that names a take.
fn identified(take_id: &[u8; 16]) -> InlineText<LINE_ROOM>
    ensures text { inline_text result ≡ codes "take " ++ hyphenated_text lower take_id.now }
    ensures most { length (inline_text result) ≤ 2 * PART_ROOM }
{
    let mut buffer = Uuid::encode_buffer();
    let id = Uuid::from_bytes(*take_id);
    let text = joined(InlineText::new(), "take ");
    joined(text, id.hyphenated().encode_lower(&mut buffer))
}

/// The text with a label and a number behind it.
fn numbered(text: InlineText<LINE_ROOM>, label: &str, number: u64) -> InlineText<LINE_ROOM>
    requires room { length (inline_text text) + 3 * PART_ROOM ≤ LINE_ROOM }
    requires short { length label.now ≤ PART_ROOM }
    ensures text { inline_text result ≡ inline_text text ++ label.now ++ decimal number }
    ensures most { length (inline_text result) ≤ length (inline_text text) + 2 * PART_ROOM }
{
    let text = joined(text, label);
    joined(text, Buffer::new().format(number))
}

/// The text as a line.
fn ended(text: InlineText<LINE_ROOM>) -> InlineText<LINE_ROOM>
    requires room { length (inline_text text) + PART_ROOM < LINE_ROOM }
    ensures { inline_text result ≡ inline_text text ++ codes "\n" }
{
    joined(text, "\n")
}

/// The text with a part behind it.
fn joined(text: InlineText<LINE_ROOM>, part: &str) -> InlineText<LINE_ROOM>
    requires room { length (inline_text text) + PART_ROOM < LINE_ROOM }
    requires short { length part.now ≤ PART_ROOM }
    ensures text { inline_text result ≡ inline_text text ++ part.now }
    ensures most { length (inline_text result) ≤ length (inline_text text) + PART_ROOM }
{
    text.and_str(part, PART_ROOM)
}
