//! What a line of the command asks for.

use chess_model::MoveWord;

/// A line of the command.
#[derive(Clone, Copy)]
pub(crate) enum ExamLine {
    /// So many half-moves on, 1 to 2,400.
    Forward(u16),
    /// So many half-moves back, 1 to 2,400.
    Back(u16),
    /// The stored half-moves again.
    Revert,
    /// The half-move that the word stands for.
    Play(MoveWord),
}
