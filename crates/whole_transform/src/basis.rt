//! The basis. docs/FORMATS.md, "Transform".

ghost use Rattle.std.specs.Prelude.{◌≡◌, ◌≤◌, ◌<◌};
ghost use Rattle.std.specs.Int.RustNames.{unsigned_abs};
ghost use Rattle.whole_transform.specs.Transform.{basis};

/// c[1], the greatest.
pub const C1: i32 = 8035;
/// c[2].
pub const C2: i32 = 7568;
/// c[3].
pub const C3: i32 = 6811;
/// c[4], which is also basis number 0 at each place.
pub const C4: i32 = 5793;
/// c[5].
pub const C5: i32 = 4551;
/// c[6].
pub const C6: i32 = 3135;
/// c[7].
pub const C7: i32 = 1598;

/// The eight numbers over the eight places, number by number.
static BASIS: [i64; 64] = [
    5793, 5793, 5793, 5793, 5793, 5793, 5793, 5793, 8035, 6811, 4551, 1598, -1598, -4551, -6811,
    -8035, 7568, 3135, -3135, -7568, -7568, -3135, 3135, 7568, 6811, -1598, -8035, -4551, 4551,
    8035, 1598, -6811, 5793, -5793, -5793, 5793, 5793, -5793, -5793, 5793, 4551, -8035, 1598, 6811,
    -6811, -1598, 8035, -4551, 3135, -7568, 7568, -3135, -3135, 7568, -7568, 3135, 1598, -4551,
    6811, -8035, 8035, -6811, 4551, -1598,
];

/// The basis number at a place.
#[inline(always)]
pub fn basis_number(number: usize, place: usize) -> i64
    requires { (number < 8) × (place < 8) }
    ensures value { result ≡ basis number place }
    ensures small { unsigned_abs result ≤ 8035 }
{
    BASIS[8 * number + place]
}
