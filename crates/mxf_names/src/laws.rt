//! What two names have in common.

ghost use Rattle.std.specs.Prelude.{◌≡◌, ◌<◌, take, drop};
ghost use Rattle.byteorder.specs.Endian.{big_number};
ghost use Rattle.mxf_names.specs.declared.keys.TheConstants.{PARTITION_KEY_START, PICTURE_ELEMENT_KEY, PICTURE_TRACK_NUMBER, PRIMER_KEY, RANDOM_INDEX_KEY};
ghost use Rattle.mxf_names.specs.declared.streams.TheConstants.{ESSENCE_STREAM, INDEX_STREAM};

/// A picture track has the number that its elements' keys end with, the primer pack and the random index pack are keyed
/// as partition packs of other kinds, and both streams are told from each other and from none, which is 0. It does
/// nothing: its clauses are the law.
pub fn names_agree()
    ensures track { big_number 4 (drop 12 PICTURE_ELEMENT_KEY) ≡ PICTURE_TRACK_NUMBER }
    ensures primer { take 13 PRIMER_KEY ≡ PARTITION_KEY_START }
    ensures random_index { take 13 RANDOM_INDEX_KEY ≡ PARTITION_KEY_START }
    ensures essence { 0 < ESSENCE_STREAM }
    ensures index { ESSENCE_STREAM < INDEX_STREAM }
{}
