ghost use Rattle.std.specs.Prelude.{◌≡◌};
ghost use Rattle.raw_feed.specs.Items.{marker};
ghost use Rattle.raw_feed.specs.Feeds.{magic};

/// What the items of a feed are.
#[derive(Clone, Copy, Debug, PartialEq, Eq)]
pub enum Kind {
    /// Finished frames.
    Units,
    /// Pictures of the size that the configuration gives.
    Pictures,
}

/// Bytes of a feed's magic.
pub const MAGIC_LEN: usize = 8;

/// Bytes of an item's marker.
pub const MARKER_LEN: usize = 4;

/// Bytes of a unit's item before the unit: its marker and its length.
pub const UNIT_HEAD_LEN: usize = MARKER_LEN + 4;

/// Bytes of a sample of a picture.
pub const SAMPLE_LEN: usize = 2;

/// The first bytes of a feed of units.
pub const UNITS_MAGIC: [u8; MAGIC_LEN] = *b"PRFEEDU1";

/// The first bytes of a feed of pictures.
pub const PICTURES_MAGIC: [u8; MAGIC_LEN] = *b"PRFEEDP1";

/// The first bytes of a unit's item.
pub const UNIT_MARKER: [u8; MARKER_LEN] = *b"UNIT";

/// The first bytes of a picture's item.
pub const PICTURE_MARKER: [u8; MARKER_LEN] = *b"PICT";

/// The first bytes of a feed of this kind.
pub(crate) fn magic_of(kind: Kind) -> [u8; MAGIC_LEN]
    ensures { result ≡ magic kind }
{
    match kind {
        Kind::Units => UNITS_MAGIC,
        Kind::Pictures => PICTURES_MAGIC,
    }
}

/// The first bytes of an item of this kind.
pub(crate) fn marker_of(kind: Kind) -> [u8; MARKER_LEN]
    ensures { result ≡ marker kind }
{
    match kind {
        Kind::Units => UNIT_MARKER,
        Kind::Pictures => PICTURE_MARKER,
    }
}
