//! A desk in use.

use fics_words::DeskNumber;

/// A desk that is in use, and for which game.
#[derive(Clone, Copy)]
pub struct DeskInUse {
    pub desk: DeskNumber,
    /// The serial of the game at that desk.
    pub serial: u64,
}
