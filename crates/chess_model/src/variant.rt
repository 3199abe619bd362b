//! The variants, and the terms of a game.
use crate::man::Colour;

/// The rules by which a game is played.
#[derive(Clone, Copy, Debug, PartialEq, Eq)]
pub enum Variant {
    Chess,
    /// Captured men change colour and may be dropped by the capturer.
    Crazyhouse,
    /// Two boards and two teams: captured men keep their colour and go to the capturer's partner.
    Bughouse,
    /// Chess from one of 960 arrays, by its number from 0 to 959, in which castling brings the king to file g or c and
    /// the rook to file f or d. Nothing reads a greater number, which would count as its remainder by 960.
    Fischer(u16),
}

/// What two players agree on before a game.
#[derive(Clone, Copy, Debug, PartialEq, Eq)]
pub struct Terms {
    /// The time at the start, in minutes.
    pub minutes: u16,
    /// What each charged half-move adds, in seconds.
    pub increment: u16,
    pub variant: Variant,
    /// The colour that the offering player asks for, if any.
    pub colour: Option<Colour>,
}
