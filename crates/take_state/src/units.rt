//! Names for the units of a take.

ghost use Rattle.std.specs.Prelude.{ℕ, List, Option, None};
ghost use Rattle.rec_bytes.specs.Configuration.{Fields};

use std::marker::Brand;

/// A name for the units of a take, so that contracts speak of them. It has no value.
pub trait TakeUnits {
    /// The units of a take of a configuration, where they are named.
    ghost units: { Fields → Option (List (List ℕ)) };
}

impl TakeUnits for Brand {
    ghost units = { λ cfg. None };
}
