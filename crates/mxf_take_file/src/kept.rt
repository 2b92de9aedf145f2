//! What the places that are kept of the units tell.

ghost use Rattle.std.specs.Prelude.{◌≡◌, ◌≤◌, ◌+◌, length, take};
ghost use Rattle.klv.specs.declared.head.TheConstants.{ELEMENT_HEAD_LEN};
ghost use Rattle.mxf_take_file.specs.inner.Kept.{AreSmall, IsSmall, end_behind, total_behind};
ghost use Rattle.mxf_take_file.specs.declared.lead.TheConstants.{HEADER_LEN};

use crate::lead::HEADER_LEN;
use klv::ELEMENT_HEAD_LEN;
use take_layout::Place;

/// Where the growing file of the first units ends.
pub fn end_of(places: &[Place], count: usize) -> u64
    requires within { count ≤ length places.now }
    requires small { AreSmall places.now }
    ensures { result ≡ end_behind HEADER_LEN (take count places.now) }
{
    if count == 0 {
        return HEADER_LEN;
    }
    place_end(&places[count - 1])
}

fn place_end(place: &Place) -> u64
    requires { IsSmall place.now }
    ensures { result ≡ place.now.at + place.now.len }
{
    place.at + place.len
}

/// The length of the essence stream of the units.
pub fn total_of(places: &[Place]) -> u64
    requires small { AreSmall places.now }
    ensures { result ≡ total_behind 0 places.now }
{
    if places.is_empty() {
        return 0;
    }
    stream_end(&places[places.len() - 1])
}

fn stream_end(place: &Place) -> u64
    requires { IsSmall place.now }
    ensures { result ≡ place.now.stream + (ELEMENT_HEAD_LEN + place.now.len) }
{
    place.stream + (ELEMENT_HEAD_LEN as u64 + place.len)
}
