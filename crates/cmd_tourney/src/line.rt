//! What a line of the command asks for.

use fics_words::Handle;
use tourney_desk::Score;

/// A line of the command.
#[derive(Clone, Copy)]
pub(crate) enum TourneyLine {
    /// The player joins.
    Join(Handle),
    /// The tourney starts.
    Start,
    /// The pairs of a round, 1 to 255.
    Round(u8),
    /// The result of a game, White's name first.
    Report(Handle, Handle, Score),
    /// The table.
    Table,
}
