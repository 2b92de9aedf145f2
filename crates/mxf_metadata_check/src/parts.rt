//! The values of items.

ghost use Rattle.std.specs.Prelude.{◌≡◌, ◌≤◌, ◌+◌, length, take, drop};

use klv::Klv;
use local_sets::ItemPlace;

/// The value of an item.
pub(crate) fn value_of<'a>(bytes: &'a [u8], klv: &Klv) -> &'a [u8]
    requires { klv.now.value_at + klv.now.value_len ≤ length bytes.now }
    ensures { result.now ≡ take klv.now.value_len (drop klv.now.value_at bytes.now) }
{
    &bytes[klv.value_at..klv.value_at + klv.value_len as usize]
}

/// The value of an item of a set.
pub(crate) fn value_at<'a>(value: &'a [u8], item: &ItemPlace) -> &'a [u8]
    requires { item.now.value_at + item.now.value_len ≤ length value.now }
    ensures { result.now ≡ take item.now.value_len (drop item.now.value_at value.now) }
{
    &value[item.value_at..item.value_at + item.value_len]
}
