//! Requests to resume a game.

/// A member asks to resume a stored game.
#[derive(Clone, Copy, PartialEq, Eq)]
pub struct Request {
    /// The member's session.
    pub by: u32,
    /// The number of the game.
    pub game: u64,
}
