//! Tickets of what was done to an area.

use crate::area::Area;

/// An area and the moment at which the ticket was made. A barrier that has run for it keeps what was done before.
#[derive(Clone, Copy, Debug, PartialEq, Eq)]
pub struct Ticket {
    /// The area that is to be kept.
    pub area: Area,
    /// The moment at which it was made. The greatest number names none.
    pub moment: u64,
    /// The moment of the second device, where the disk is two.
    pub twin: Option<u64>,
}
