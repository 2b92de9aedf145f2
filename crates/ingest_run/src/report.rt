//! What a program says of its answer: the fault line, and how it is called.

ghost use Rattle.std.specs.Prelude.{◌≡◌, ◌≤◌, ◌<◌, ◌+◌, ◌*◌, ◌++◌, codes, decimal, length};
ghost use Rattle.std.specs.Fmt.InlineText.{inline_text};
ghost use Rattle.ingest_run.specs.Messages.{IsOneLine, Reports, SaysAnswer, taken, closing as closing_of, fault_line as fault_line_of};
ghost use Rattle.ingest_run.specs.inner.Answers.{run_answer};

use crate::ended::{RunFault, run_status};
use crate::help::USAGE;
use itoa::Buffer;
use raw_feed::{Sink, put_all};
use rec_bytes::{Failed, Status};
use std::fmt::InlineText;

/// Bytes of room for a fault line: more than its texts and its four numbers have.
const LINE_ROOM: usize = 512;

/// Bytes of room for a sentence: more than the longest has.
const SENTENCE_ROOM: usize = 256;

/// Most bytes of a text or of a number in a fault line.
const PART_ROOM: usize = 40;

/// Writes the messages of an answer, or a front of them where their sink fails: there is nowhere to say so.
pub(crate) fn report<M: Sink>(ended: Result<(), RunFault>, messages: &mut M)
    ensures { SaysAnswer (run_answer ended) (taken (M.written messages.old) (M.fault_count messages.old))
        (taken (M.written messages.new) (M.fault_count messages.new)) }
{
    let Err(fault) = ended else {
        return;
    };
    let status = run_status(ended);
    let sentence = InlineText::<SENTENCE_ROOM>::of(fault);
    let sentence = first_line(sentence.as_str().as_bytes());
    let opening = opening(status);
    say(
        opening.as_str().as_bytes(),
        sentence,
        closing(status).as_bytes(),
        messages,
    );
}

/// What stands behind the sentence.
fn closing(status: Status) -> &'static str
    ensures { result.now ≡ closing_of status }
{
    if status.code == 2 {
        return USAGE;
    }
    "\n"
}

/// The bytes before the first line feed, and all where there is none.
fn first_line(text: &[u8]) -> &[u8]
    ensures { IsOneLine result.now }
{
    for at in 0..text.len() {
        if text[at] == b'\n' {
            return &text[..at];
        }
    }
    text
}

/// Writes three pieces, or a front of them where the sink fails.
fn say<M: Sink>(first: &[u8], second: &[u8], third: &[u8], messages: &mut M)
    ensures { Reports (first.now ++ (second.now ++ third.now)) (taken (M.written messages.old) (M.fault_count messages.old))
        (taken (M.written messages.new) (M.fault_count messages.new)) }
{
    match put_all(messages, first) {
        Ok(()) => say_both(second, third, messages),
        Err(Failed) => {}
    }
}

/// Writes two pieces, or a front of them where the sink fails.
fn say_both<M: Sink>(first: &[u8], second: &[u8], messages: &mut M)
    ensures { Reports (first.now ++ second.now) (taken (M.written messages.old) (M.fault_count messages.old))
        (taken (M.written messages.new) (M.fault_count messages.new)) }
{
    match put_all(messages, first) {
        Ok(()) => {
            let _ = put_all(messages, second);
        }
        Err(Failed) => {}
    }
}

/// The line that says an answer, and what begins the next one.
fn opening(status: Status) -> InlineText<LINE_ROOM>
    ensures { inline_text result ≡ fault_line_of status ++ codes "ingest_server: " }
{
    joined(fault_line(status), "ingest_server: ")
}

/// The line that says an answer.
fn fault_line(status: Status) -> InlineText<LINE_ROOM>
    ensures text { inline_text result ≡ fault_line_of status }
    ensures most { length (inline_text result) ≤ 9 * PART_ROOM }
{
    let text = numbered(
        InlineText::new(),
        "ingest_server: status ",
        u64::from(status.code),
    );
    let text = numbered(text, " refusal ", u64::from(status.number));
    let text = numbered(text, " at ", status.at);
    let text = numbered(text, " other ", status.other);
    joined(text, "\n")
}

/// The text with a label and a number behind it.
fn numbered(text: InlineText<LINE_ROOM>, label: &str, number: u64) -> InlineText<LINE_ROOM>
    requires room { length (inline_text text) + 3 * PART_ROOM ≤ LINE_ROOM }
    requires short { length label.now ≤ PART_ROOM }
    ensures text { inline_text result ≡ inline_text text ++ label.now ++ decimal number }
    ensures most { length (inline_text result) ≤ length (inline_text text) + 2 * PART_ROOM }
{
    let text = joined(text, label);
    joined(text, Buffer::new().format(number))
}

/// The text with a part behind it.
fn joined(text: InlineText<LINE_ROOM>, part: &str) -> InlineText<LINE_ROOM>
    requires room { length (inline_text text) + PART_ROOM < LINE_ROOM }
    requires short { length part.now ≤ PART_ROOM }
    ensures text { inline_text result ≡ inline_text text ++ part.now }
    ensures most { length (inline_text result) ≤ length (inline_text text) + PART_ROOM }
{
    text.and_str(part, PART_ROOM)
}
