//! What stands behind open records.

ghost use Rattle.commit_sidecar.specs.Looks.{Sees};

use crate::note::{is_after, read_note};
use take_core::Mark;

/// What bytes behind open records begin with.
#[derive(Clone, Copy, Debug, PartialEq, Eq)]
pub enum Look {
    /// A gate that isn't 1.
    Shut,
    /// An open record of a mark that may stand there.
    Open(Mark),
    /// Nothing, or an open record of no such mark.
    Broken,
}

/// Looks at the bytes behind open records, of which the last has a mark. The first `RECORD_LEN` of them decide.
pub fn look_at(rest: &[u8], last: Option<Mark>) -> Look
    ensures { Sees last rest.now result }
{
    if rest.is_empty() {
        return Look::Broken;
    }
    if rest[0] != 1 {
        return Look::Shut;
    }
    match read_note(&rest[1..]) {
        Some(next) => {
            if is_after(last, next) {
                Look::Open(next)
            } else {
                Look::Broken
            }
        }
        None => Look::Broken,
    }
}
