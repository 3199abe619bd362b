//! Why a game ended.

/// Why a game ended.
#[derive(Clone, Copy, PartialEq, Eq)]
pub enum Why {
    /// Checkmate (FIDE Laws, 5.1.1).
    Mate,
    /// Stalemate (FIDE Laws, 5.2.1).
    Stalemate,
    /// A player resigned (FIDE Laws, 5.1.2).
    Resigned,
    /// A player called the flag of the opponent, whose clock had fallen (FIDE Laws, 6.9).
    Flag,
    /// The flag was called, but the caller's clock had fallen too, or in chess or Fischer random the caller had only a
    /// king.
    FlagDraw,
    /// The players agreed on a draw (FIDE Laws, 5.2.3).
    Agreed,
    /// A draw was claimed after 50 moves of each side without a capture and without a move of a pawn (FIDE Laws, 9.3).
    Fifty,
    /// A draw was claimed after a position had come three times (FIDE Laws, 9.2).
    Threefold,
    /// The players agreed on no result.
    Aborted,
    /// The players agreed to go on another day.
    Adjourned,
    /// A player left.
    Left,
}
