//! A place: a seat at a desk in use.

use fics_words::DeskNumber;

/// A seat that a member has at a desk in use.
#[derive(Clone, Copy)]
pub struct Place {
    pub desk: DeskNumber,
    /// The serial of the game at that desk.
    pub serial: u64,
    /// The seat, counted from 0: White's and then Black's.
    pub seat: u8,
}
