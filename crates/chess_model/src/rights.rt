//! Which castlings are still possible.

/// Which castlings are still possible later in the game (FIDE Laws, 3.8.2.1).
#[derive(Clone, Copy)]
pub struct Rights {
    pub white_short: bool,
    pub white_long: bool,
    pub black_short: bool,
    pub black_long: bool,
}
