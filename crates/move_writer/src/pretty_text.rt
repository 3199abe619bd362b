//! The short text of a move, as `Nf3`.
ghost use Rattle.std.specs.Prelude.{◌≡◌, ◌<◌, ◌≤◌, ◌++◌, length};
ghost use Rattle.move_writer.specs.Pretty.{origin_text, pretty_move, mark_text, pretty_of};
ghost use Rattle.move_writer.specs.Blanks.{HasNoBlank};

use crate::draft::MoveDraft;
use crate::letters::{file_of, letter, rank_of};
use chess_model::{Kind, Move, MoveText, Shown, Square, State};

/// The short text of a move (FIDE Laws, appendix C): `e4`, `exd5`, `e8=Q`, `O-O`, `O-O-O`, `P@e4`, and for the other
/// men the letter, the file and the rank of the origin where the move's marks say so, `x` at a capture, and the
/// target; `+` follows where the move gives check, `#` where it mates.
pub fn pretty(s: &Shown) -> MoveText
    ensures text { result ≡ pretty_of s.now }
    ensures unbroken { HasNoBlank result }
{
    let mut text = MoveDraft::new();
    push_move(&mut text, s);
    push_mark(&mut text, s.after);
    text.finish()
}

fn push_move(text: &mut MoveDraft, s: &Shown)
    requires { length text.old ≡ 0 }
    ensures text { text.new ≡ text.old ++ pretty_move s.now s.now.what }
    ensures some { 0 < length text.new }
    ensures most { length text.new ≤ 8 }
{
    match s.what {
        Move::Plain { from, to, promo } => {
            push_origin(text, s, from);
            text.push_if(s.takes, b'x');
            text.push_square(to);
            text.push_promotion(promo);
        }
        Move::Castle { long: false } => text.push_all(b"O-O"),
        Move::Castle { long: true } => text.push_all(b"O-O-O"),
        Move::Drop { kind, to } => {
            text.push(letter(kind));
            text.push(b'@');
            text.push_square(to);
        }
    }
}

/// Where the man comes from, as far as the text says so: three bytes at most.
fn push_origin(text: &mut MoveDraft, s: &Shown, from: Square)
    requires { length text.old ≡ 0 }
    ensures text { text.new ≡ text.old ++ origin_text s.now from s.now.kind }
    ensures most { length text.new ≤ 3 }
{
    if s.kind == Kind::Pawn {
        text.push_if(s.takes, file_of(from));
        return;
    }
    text.push(letter(s.kind));
    text.push_if(s.by_file, file_of(from));
    text.push_if(s.by_rank, rank_of(from));
}

fn push_mark(text: &mut MoveDraft, after: State)
    requires { length text.old < 12 }
    ensures { text.new ≡ text.old ++ mark_text after }
{
    match after {
        State::Check => text.push(b'+'),
        State::Mate => text.push(b'#'),
        State::Safe | State::Stalemate => {}
    }
}
