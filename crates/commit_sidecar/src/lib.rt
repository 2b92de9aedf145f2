//! The commit file beside a take's essence: its head, the records of its commits, and what it says.
//!
//! The crates above rest on one relation, `Says` of `specs/Says.antt`: `last_open` answers the configuration and the mark of
//! a commit file exactly where it says them, `put_head` and `put_note` write such files (`commits_say`), and a file says one
//! thing or is refused in one way (`files_say_one_thing`). Over it stand `Recovers` and `IsSafe` of `specs/Recovers.antt`: the
//! units that a pair of areas is recovered to, which are one list in every layout (`recoveries_are_one`). Who can't hold a
//! whole commit file reads it by `read_head` and `look_at`, piece by piece (`HasRead` of `specs/Looks.antt`):
//! `records_are_read`, `reading_ends` and `first_bytes_decide` say what the pieces come to.
//!
//! Terms: a *mark* says how many frames are durable, and in how many bytes of the essence; a *note* is the 17 bytes of a mark;
//! a *gate* is the byte before a note, which counts where the gate is 1; the *open records* are those before the first gate
//! that isn't 1, and the last of them counts.
//!
//! Nothing here takes memory, and nothing says what a mark's frames are.
#![tactic(auto)]

mod file;
mod head;
mod laws;
mod looks;
mod note;
#[cfg(test)]
mod tests;

pub use file::{COMMITS_AREA, Said, SaidFault, gate_at, last_open};
pub use head::{FIRST_GATE, HEAD_LEN, MAGIC, MAGIC_LEN, put_head, read_head};
pub use laws::{
    commits_say, files_say_one_thing, first_bytes_decide, marks_follow, reading_ends,
    records_are_read, recoveries_are_one,
};
pub use looks::{Look, look_at};
pub use note::{NOTE_LEN, RECORD_LEN, put_note};
