//! The two orders in which a block's coefficients are coded.

ghost use Rattle.std.specs.Prelude.{◌≡◌, ◌<◌};
ghost use Rattle.prores_scan.specs.Scans.{place_of, IsPosition};

/// The order of a block's coefficients (RDD 36).
#[derive(Clone, Copy, Debug, PartialEq, Eq)]
pub enum Scan {
    /// Of progressive frames.
    Progressive,
    /// Of the pictures of both interlaced modes.
    Field,
}

static PROGRESSIVE: [u8; 64] = [
    0, 1, 8, 9, 2, 3, 10, 11, 16, 17, 24, 25, 18, 19, 26, 27, 4, 5, 12, 20, 13, 6, 7, 14, 21, 28,
    29, 22, 15, 23, 30, 31, 32, 33, 40, 48, 41, 34, 35, 42, 49, 56, 57, 50, 43, 36, 37, 44, 51, 58,
    59, 52, 45, 38, 39, 46, 53, 60, 61, 54, 47, 55, 62, 63,
];

static FIELD: [u8; 64] = [
    0, 8, 1, 9, 16, 24, 17, 25, 2, 10, 3, 11, 18, 26, 19, 27, 32, 40, 33, 34, 41, 48, 56, 49, 42,
    35, 43, 50, 57, 58, 51, 59, 4, 12, 5, 6, 13, 20, 28, 21, 14, 7, 15, 22, 29, 36, 44, 37, 30, 23,
    31, 38, 45, 52, 60, 53, 46, 39, 47, 54, 61, 62, 55, 63,
];

static PROGRESSIVE_POSITIONS: [u8; 64] = [
    0, 1, 4, 5, 16, 17, 21, 22, 2, 3, 6, 7, 18, 20, 23, 28, 8, 9, 12, 13, 19, 24, 27, 29, 10, 11,
    14, 15, 25, 26, 30, 31, 32, 33, 37, 38, 45, 46, 53, 54, 34, 36, 39, 44, 47, 52, 55, 60, 35, 40,
    43, 48, 51, 56, 59, 61, 41, 42, 49, 50, 57, 58, 62, 63,
];

static FIELD_POSITIONS: [u8; 64] = [
    0, 2, 8, 10, 32, 34, 35, 41, 1, 3, 9, 11, 33, 36, 40, 42, 4, 6, 12, 14, 37, 39, 43, 49, 5, 7,
    13, 15, 38, 44, 48, 50, 16, 18, 19, 25, 45, 47, 51, 57, 17, 20, 24, 26, 46, 52, 56, 58, 21, 23,
    27, 30, 53, 55, 59, 62, 22, 28, 29, 31, 54, 60, 61, 63,
];

/// The raster place, 8 times row plus column, of the `k`-th coefficient in scan order.
pub fn place(scan: Scan, k: u8) -> u8
    requires { k < 64 }
    ensures entry { result ≡ place_of scan k }
    ensures position { IsPosition scan result k }
{
    match scan {
        Scan::Progressive => PROGRESSIVE[k as usize],
        Scan::Field => FIELD[k as usize],
    }
}

/// Where in scan order the coefficient of the raster place `p` stands.
pub fn position(scan: Scan, p: u8) -> u8
    requires { p < 64 }
    ensures { IsPosition scan p result }
{
    match scan {
        Scan::Progressive => PROGRESSIVE_POSITIONS[p as usize],
        Scan::Field => FIELD_POSITIONS[p as usize],
    }
}

#[cfg(test)]
mod tests {
    use super::*;

    #[test]
    fn the_scans_begin_and_end_as_the_standard_lists_them(rt: HostRuntime) {
        // scan, position, raster place
        let rows = [
            (Scan::Progressive, 3, 9),
            (Scan::Progressive, 19, 20),
            (Scan::Progressive, 62, 62),
            (Scan::Field, 1, 8),
            (Scan::Field, 18, 33),
            (Scan::Field, 62, 55),
        ];
        for (scan, k, p) in rows {
            assert_eq!(rt; place(scan, k), p, "the place of {k}");
            assert_eq!(rt; position(scan, p), k, "the position of {p}");
        }
    }
}
