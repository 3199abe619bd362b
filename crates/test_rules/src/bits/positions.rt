//! Positions: the ends of games, the marks of moves, and the list of allowed half-moves beside the slow board's rule.

use chess_model::{Kind, Move, Shown, Square, State, Variant};
use memory::NoMemory;
use move_reader::read_word;
use rules_plain::PlainBoard;
use std::alloc::Global;
use std::test::Fail;
use variant_rules::Position;

/// The half-move that a word stands for.
fn move_of(position: &Position, text: &str) -> Option<Move> {
    let word = read_word(text.as_bytes())?;
    position.resolve(&word).ok()
}

/// The position and the slow board after the words; none where one isn't answered, or one of the two forbids it.
fn both_after(v: Variant, words: &str) -> Option<(Position, PlainBoard)> {
    let mut position = Position::start(v);
    let mut board = PlainBoard::start(v);
    for text in words.split_whitespace() {
        let m = move_of(&position, text)?;
        let known = m;
        let played = m;
        let made = m;
        if !position.allowed(m) {
            return None;
        }
        if !board.allowed(known) {
            return None;
        }
        board = board.after(played);
        position.make(made);
    }
    Some((position, board))
}

/// Games and what they come to. The last but one is mate in chess, and a man put between answers it elsewhere; no man
/// put anywhere answers the check of a knight.
const ENDS: &[(Variant, &str, State)] = &[
    (Variant::Chess, "", State::Safe),
    (Variant::Chess, "f3 e5 g4 Qh4", State::Mate),
    (Variant::Chess, "e4 e5 Bc4 Nc6 Qh5 Nf6 Qxf7", State::Mate),
    (Variant::Chess, "e4 f5 Qh5", State::Check),
    (Variant::Chess, STALE, State::Stalemate),
    (Variant::Chess, BLOCKED, State::Mate),
    (Variant::Crazyhouse, BLOCKED, State::Check),
    (Variant::Bughouse, BLOCKED, State::Check),
    (Variant::Chess, SMOTHERED, State::Mate),
    (Variant::Crazyhouse, SMOTHERED, State::Mate),
    (Variant::Bughouse, SMOTHERED, State::Mate),
];

const BLOCKED: &str = "Nc3 d5 Nxd5 e5 f3 a6 g4 Qh4";

const SMOTHERED: &str = "e4 e5 Ne2 Nc6 Nbc3 Nd4 g3 Nf3";

/// The shortest stalemate that is known, of ten moves (S. Loyd).
const STALE: &str = "e3 a5 Qh5 Ra6 Qxa5 h5 h4 Rah6 Qxc7 f6 Qxd7 Kf7 Qxb7 Qd3 Qxb8 Qh7 Qxc8 Kg6 Qe6";

/// What a game comes to, if each of its words is answered.
fn end_of(variant: Variant, words: &str) -> Option<State> {
    let (position, _) = both_after(variant, words)?;
    Some(position.state())
}

#[test]
fn games_end(rt: HostRuntime) -> Result<(), Fail> {
    for (variant, words, state) in ENDS {
        assert!(rt; end_of(*variant, words) == Some(*state), "{words}");
    }
    Ok(())
}

/// What is shown of the half-move that a word stands for after other words.
fn shown_after(words: &str, text: &str) -> Option<Shown> {
    let (position, _) = both_after(Variant::Chess, words)?;
    let m = move_of(&position, text)?;
    let played = m;
    if !position.allowed(m) {
        return None;
    }
    Some(position.shown(played))
}

/// Words, the half-move behind them, the kind of its man, whether it captures, whether the file and the rank of its
/// origin are named, and what the opponent is left in.
type Row = (&'static str, &'static str, Kind, bool, bool, bool, State);

const SHOWN: &[Row] = &[
    ("", "g1f3", Kind::Knight, false, false, false, State::Safe),
    (
        "d4 d5 Nf3 Nf6",
        "b1d2",
        Kind::Knight,
        false,
        true,
        false,
        State::Safe,
    ),
    (
        "h4 a5 a4 h5 Rh3 Ra6",
        "h3a3",
        Kind::Rook,
        false,
        true,
        false,
        State::Safe,
    ),
    (
        "h4 a5 a4 h5 Rh3 Ra6 Rha3 Rb6",
        "a1a2",
        Kind::Rook,
        false,
        false,
        true,
        State::Safe,
    ),
    ("e4 d5", "e4d5", Kind::Pawn, true, false, false, State::Safe),
    (
        "f3 e5 g4",
        "d8h4",
        Kind::Queen,
        false,
        false,
        false,
        State::Mate,
    ),
    (
        "Nf3 Nf6 g3 g6 Bg2 Bg7",
        "O-O",
        Kind::King,
        false,
        false,
        false,
        State::Safe,
    ),
];

/// Whether a row's half-move is shown as the row says.
fn is_shown(row: &Row) -> bool {
    let Some(shown) = shown_after(row.0, row.1) else {
        return false;
    };
    shown.kind == row.2
        && shown.takes == row.3
        && shown.by_file == row.4
        && shown.by_rank == row.5
        && shown.after == row.6
}

#[test]
fn texts_name_what_is_needed(rt: HostRuntime) -> Result<(), Fail> {
    for row in SHOWN {
        assert!(rt; is_shown(row), "{}", row.1);
    }
    Ok(())
}

/// Appends the half-moves that the slow board allows from a square to another.
fn add_between(
    board: &PlainBoard,
    a: Square,
    b: Square,
    out: &mut Vec<Move>,
) -> Result<(), NoMemory> {
    let promotions = [
        None,
        Some(Kind::Queen),
        Some(Kind::Rook),
        Some(Kind::Bishop),
        Some(Kind::Knight),
    ];
    for promo in promotions {
        let m = Move::Plain {
            from: a,
            to: b,
            promo,
        };
        let listed = m;
        if board.allowed(m) {
            out.push(listed)?;
        }
    }
    Ok(())
}

/// Appends the drops of a kind that the slow board allows.
fn add_drops(board: &PlainBoard, kind: Kind, out: &mut Vec<Move>) -> Result<(), NoMemory> {
    for n in 0..64 {
        if let Some(to) = Square::of(n) {
            let m = Move::Drop { kind, to };
            let listed = m;
            if board.allowed(m) {
                out.push(listed)?;
            }
        }
    }
    Ok(())
}

/// The half-moves that the slow board allows, in the order in which moves are listed.
fn slow_moves(alloc: Global, board: &PlainBoard) -> Result<Vec<Move>, NoMemory> {
    let mut out = Vec::new(alloc);
    for a in 0..64 {
        for b in 0..64 {
            if let (Some(from), Some(to)) = (Square::of(a), Square::of(b)) {
                add_between(board, from, to, &mut out)?;
            }
        }
    }
    for long in [false, true] {
        if board.allowed(Move::Castle { long }) {
            out.push(Move::Castle { long })?;
        }
    }
    for kind in [
        Kind::Pawn,
        Kind::Knight,
        Kind::Bishop,
        Kind::Rook,
        Kind::Queen,
    ] {
        add_drops(board, kind, &mut out)?;
    }
    Ok(out)
}

/// Twelve positions: checks, pins, castling, en passant, promoted men, and men in hand.
const LISTED: &[(Variant, &str)] = &[
    (Variant::Chess, ""),
    (Variant::Chess, "e4 e5 Nf3 Nc6 Bc4 Bc5"),
    (Variant::Chess, "e4 a6 e5 d5"),
    (Variant::Chess, "e4 e5 Nc3 Bb4 d3 a6"),
    (Variant::Chess, "e4 f5 Qh5"),
    (Variant::Chess, "d4 d5 Nc3 Nc6 Bf4 Bf5 Qd2 Qd7"),
    (Variant::Chess, "a4 b5 axb5 a6 bxa6 h6 a7 h5"),
    (Variant::Chess, "a4 b5 axb5 a6 bxa6 h6 a7 h5 axb8q Rxb8"),
    (Variant::Crazyhouse, "a4 b5 axb5 a6 bxa6 h6 a7 h5 axb8q"),
    (
        Variant::Crazyhouse,
        "a4 b5 axb5 a6 bxa6 h6 a7 h5 axb8q Rxb8",
    ),
    (Variant::Crazyhouse, "Nc3 d5 Nxd5 e5 f3 a6 g4 Qh4"),
    (Variant::Crazyhouse, "e4 d5 exd5 Qxd5 Nc3 Qe5"),
];

/// Whether the half-moves that are listed after some words are those that the slow board allows.
fn are_listed(alloc: Global, variant: Variant, words: &str) -> Result<bool, Fail> {
    let (position, board) = both_after(variant, words).ok_or("a word that isn't answered")?;
    let moves = position.moves(alloc)?;
    let slow = slow_moves(alloc, &board)?;
    Ok(moves.as_slice() == slow.as_slice())
}

#[test]
fn moves_are_those_that_the_slow_board_allows(rt: HostRuntime) -> Result<(), Fail> {
    for (variant, words) in LISTED {
        assert!(rt; are_listed(rt.alloc(), *variant, words)?, "{words}");
    }
    Ok(())
}
