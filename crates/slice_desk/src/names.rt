//! The names of a desk.

use slot_pool::PoolName;
use std::marker::Brand;

/// Names the configuration of a desk and, as a `PoolName`, the block of its slots.
pub trait DeskName: PoolName {
    ghost use Rattle.rec_bytes.specs.Configuration.{Fields};

    ghost config: { Fields };
}

impl DeskName for Brand {
    ghost use Rattle.std.specs.Prelude.{[]};
    ghost use Rattle.rec_bytes.specs.Configuration.{fields_of};

    ghost config = { fields_of [] };
}
