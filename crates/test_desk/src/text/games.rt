//! Games that the tests play, and what is shown of them.

use chess_model::{Face, Kind, Move, Shown, Square, Variant};
use fics_words::Handle;
use game_board::face;
use style12_writer::{BoardView, Draft, Viewer, line12};
use variant_rules::Position;

/// The position after some half-moves, how many there were, and how the last one is shown.
#[derive(Drop)]
pub struct Game {
    pub position: Position,
    pub half_moves: u16,
    pub last: Option<Shown>,
}

impl Game {
    /// What a board line shows of the game.
    pub fn face(&self) -> Face {
        face(&self.position, self.half_moves, self.last.as_ref())
    }
}

/// The game of these half-moves, if each is allowed: two squares with what a pawn becomes, as `e2e4` and `a7b8q`;
/// `O-O` and `O-O-O`; a drop, as `P@e4`.
pub fn played(variant: Variant, words: &str) -> Option<Game> {
    let mut position = Position::start(variant);
    let mut half_moves: u16 = 0;
    let mut last = None;
    for word in words.split_whitespace() {
        let m = move_of(word.as_bytes())?;
        let shown = m;
        let made = m;
        if !position.allowed(m) {
            return None;
        }
        last = Some(position.shown(shown));
        position.make(made);
        half_moves = half_moves.saturating_add(1);
    }
    Some(Game {
        position,
        half_moves,
        last,
    })
}

fn move_of(word: &[u8]) -> Option<Move> {
    match word {
        b"O-O" => Some(Move::Castle { long: false }),
        b"O-O-O" => Some(Move::Castle { long: true }),
        [kind, b'@', file, rank] => Some(Move::Drop {
            kind: kind_of(kind.to_ascii_lowercase())?,
            to: square(*file, *rank)?,
        }),
        [from_file, from_rank, to_file, to_rank] => Some(Move::Plain {
            from: square(*from_file, *from_rank)?,
            to: square(*to_file, *to_rank)?,
            promo: None,
        }),
        [from_file, from_rank, to_file, to_rank, kind] => Some(Move::Plain {
            from: square(*from_file, *from_rank)?,
            to: square(*to_file, *to_rank)?,
            promo: Some(kind_of(*kind)?),
        }),
        _ => None,
    }
}

fn kind_of(letter: u8) -> Option<Kind> {
    match letter {
        b'p' => Some(Kind::Pawn),
        b'n' => Some(Kind::Knight),
        b'b' => Some(Kind::Bishop),
        b'r' => Some(Kind::Rook),
        b'q' => Some(Kind::Queen),
        _ => None,
    }
}

/// The square of a file's letter and a rank's digit.
pub fn square(file: u8, rank: u8) -> Option<Square> {
    if !(b'a'..=b'h').contains(&file) || !(b'1'..=b'8').contains(&rank) {
        return None;
    }
    Square::of(8 * (rank - b'1') + (file - b'a'))
}

/// The line of a board, of which the tests know no more than what they read in it.
pub fn line_of(view: &BoardView, who: Viewer) -> Draft {
    line12(view, who)
}

/// A board of an untimed game 1 of these players.
pub fn untimed(face: Face, white: &str, black: &str) -> Option<BoardView> {
    Some(BoardView {
        face,
        game: 1,
        white: Handle::read(white.as_bytes())?,
        black: Handle::read(black.as_bytes())?,
        minutes: 0,
        increment: 0,
        remaining: [0, 0],
        taken: 0,
    })
}
