//! What comes from a session's player, and what the session answers.

use line_reader::Incoming;

/// What comes from a session's player.
#[derive(Drop)]
pub enum Input {
    /// A line came.
    Line(Incoming),
    /// Nothing came for a while.
    Quiet,
}

/// What a session answers to an input.
#[derive(Drop)]
pub struct Wrote {
    /// The bytes for the player.
    pub bytes: Vec<u8>,
    /// Whether the session is gone: it was asked to quit, and has answered.
    pub quit: bool,
}
