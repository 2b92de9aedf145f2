//! What a commit makes durable.

ghost use Rattle.std.specs.Prelude.{◌≡◌};
ghost use Rattle.take_core.specs.Marks.{core_mark};

/// How much of a take a commit makes durable.
#[derive(Clone, Copy, Debug, PartialEq, Eq)]
pub struct Mark {
    /// Frames.
    pub count: u64,
    /// Bytes of the essence file that hold them.
    pub length: u64,
    /// The file has its footer.
    pub closed: bool,
}

impl Mark {
    /// The mark as the events of a take see it.
    pub fn in_core(self) -> CoreMark
        ensures { result ≡ core_mark self }
    {
        CoreMark {
            count: self.count,
            closed: self.closed,
        }
    }
}

/// A mark as the events of a take see it: they know no file, and so no length.
#[derive(Clone, Copy, Debug, PartialEq, Eq)]
pub struct CoreMark {
    /// Frames.
    pub count: u64,
    /// The file has its footer.
    pub closed: bool,
}
