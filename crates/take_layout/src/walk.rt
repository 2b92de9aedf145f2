/// What a look at a file from a place on shows.
#[derive(Clone, Copy, Debug, PartialEq, Eq)]
pub enum Walk {
    /// A unit's lead: the file's place behind it, and the unit's length in bytes.
    Lead { unit_at: u64, unit_len: u64 },
    /// Too few bytes to tell: so many from the place on are needed.
    More { need: u64 },
    /// No lead stands there. The place, near the byte that shows it, is for messages: no clause speaks of it.
    Broken { at: u64 },
}
