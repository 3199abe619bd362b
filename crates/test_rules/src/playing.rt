//! Games that the tests play. A board's calls are made here alone, by functions that ensure nothing, so that nothing
//! above them is proved over what a call does.

use crate::chess_words::word_of;
use chess_model::{Colour, Terms, Variant};
use clock_ledger::{Moment, STAMP_CYCLE};
use fics_words::{BoardNumber, Refusal};
use game_board::GameBoard;
use std::alloc::Global;
use std::process::Abort;
use std::test::Fail;

/// What stands for a word, a moment or a stamp that the tests got wrong. No board answers it.
pub const STRANGE: Refusal = Refusal::BadArguments;

/// The terms of a game with a colour for nobody.
pub fn terms(minutes: u16, increment: u16, variant: Variant) -> Terms {
    Terms {
        minutes,
        increment,
        variant,
        colour: None,
    }
}

/// A board of these terms, begun at moment 0.
pub fn new_board(alloc: Global, terms: Terms) -> Result<GameBoard, Fail> {
    Ok(GameBoard::start(alloc, BoardNumber::First, terms, Moment::new(0))?)
}

/// Plays a word of a colour at a moment.
pub fn play(
    board: &mut GameBoard,
    colour: Colour,
    moment: u64,
    text: &str,
    stamp: Option<u32>,
) -> Result<(), Refusal> {
    let Some(word) = word_of(text.as_bytes()) else {
        return Err(STRANGE);
    };
    if moment < board.begin().millis() || moment > 1 << 40 || stamp.unwrap_or(0) >= STAMP_CYCLE {
        return Err(STRANGE);
    }
    match board.play(colour, &word, Moment::new(moment), stamp) {
        Ok(_) => Ok(()),
        Err(cause) => Err(cause),
    }
}

/// Plays a word of the colour to move at a moment.
pub fn play_next(
    board: &mut GameBoard,
    moment: u64,
    text: &str,
    stamp: Option<u32>,
) -> Result<(), Refusal> {
    let colour = board.to_move();
    play(board, colour, moment, text, stamp)
}

/// A second after the last half-move.
fn a_second_on(board: &GameBoard) -> u64 {
    board.begin().millis().saturating_add(1_000)
}

/// The first of these words that isn't played, if one isn't. The colours play them in turn, the first at `begin` and
/// each a second after the one before.
pub fn first_unplayed<'a>(board: &mut GameBoard, words: &'a str) -> Option<&'a str> {
    for word in words.split_whitespace() {
        let moment = a_second_on(board);
        if play_next(board, moment, word, None).is_err() {
            return Some(word);
        }
    }
    None
}

/// Plays these words of the colours in turn, the first at `begin` and each a second after the one before.
pub fn play_on(rt: &impl Abort, board: &mut GameBoard, words: &str) {
    assert!(rt; first_unplayed(board, words).is_none(), "half-moves");
}

/// The board after these words from the start.
pub fn board_after(
    rt: &impl Abort,
    alloc: Global,
    terms: Terms,
    words: &str,
) -> Result<GameBoard, Fail> {
    let mut board = new_board(alloc, terms)?;
    play_on(rt, &mut board, words);
    Ok(board)
}

/// What a player's clock shows, in milliseconds.
pub fn remaining(board: &GameBoard, colour: Colour) -> i64 {
    board.ledger(colour).remaining()
}

/// What a caller of the flag is answered at a moment.
pub fn flag(board: &GameBoard, caller: Colour, moment: u64) -> Result<Option<Colour>, Refusal> {
    if moment < board.begin().millis() || moment > 1 << 40 {
        return Err(STRANGE);
    }
    board.flag(caller, Moment::new(moment))
}
