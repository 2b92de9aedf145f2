//! The slices of a frame by name.

/// Which rows of a frame a coded picture has.
#[derive(Clone, Copy, Debug, PartialEq, Eq)]
pub enum Field {
    /// All rows.
    Whole,
    /// Rows 0, 2, ..
    Top,
    /// Rows 1, 3, ..
    Bottom,
}

/// A slice of a frame: a run of macroblocks in a row of macroblocks of a coded picture.
#[derive(Clone, Copy, Debug, PartialEq, Eq)]
pub struct SliceName {
    /// The coded picture.
    pub field: Field,
    /// The row of macroblocks, from 0.
    pub row: u16,
    /// The first macroblock in its row, from 0.
    pub first: u16,
    /// Macroblocks: 1, 2, 4 or 8.
    pub count: u8,
}
