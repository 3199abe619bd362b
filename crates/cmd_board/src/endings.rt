//! How a game ends by itself, the line that tells it, and the line of a refusal.

ghost use Rattle.std.specs.Prelude.{◌≡◌, ◌++◌, ◌↔◌, OnOk, IsSome, IsTrue, codes, true};
ghost use Rattle.style12_writer.specs.EndLine.{is_decisive, end_text};
ghost use Rattle.cmd_board.specs.Endings.{end_lines, line_of_refusal};

use crate::game::END_OF_LINE;
use chess_model::{Colour, State, Why};
use fics_words::{Refusal, write_refusal};
use memory::NoMemory;
use style12_writer::{BoardView, end_line};

/// Appends the line of the end, where the game has ended: the player to move is the one who is mated.
pub fn put_end(
    view: &BoardView,
    to_move: Colour,
    state: State,
    out: &mut Vec<u8>,
) -> Result<(), NoMemory>
    ensures { OnOk result (out.new.items ≡ out.old.items ++ end_lines view.now to_move state) }
{
    match state {
        State::Safe => Ok(()),
        State::Check => Ok(()),
        State::Mate => put_line(view, Why::Mate, Some(to_move.opposite()), out),
        State::Stalemate => put_line(view, Why::Stalemate, None, out),
    }
}

/// Appends the line that tells how the game ended.
fn put_line(
    view: &BoardView,
    why: Why,
    winner: Option<Colour>,
    out: &mut Vec<u8>,
) -> Result<(), NoMemory>
    requires { IsSome winner ↔ IsTrue (is_decisive why) }
    ensures { OnOk result (out.new.items ≡ out.old.items ++ (end_text view.now why winner true ++ codes "\n\r")) }
{
    put_ended(end_line(view, why, winner, true).bytes(), out)
}

/// Appends a line and what ends it.
pub(crate) fn put_ended(line: &[u8], out: &mut Vec<u8>) -> Result<(), NoMemory>
    ensures { OnOk result (out.new.items ≡ out.old.items ++ (line.now ++ codes "\n\r")) }
{
    out.extend_from_slice(line)?;
    out.extend_from_slice(END_OF_LINE)?;
    Ok(())
}

/// Appends the line of a refusal.
pub(crate) fn put_refusal(cause: Refusal, out: &mut Vec<u8>) -> Result<(), NoMemory>
    ensures { OnOk result (out.new.items ≡ out.old.items ++ line_of_refusal cause) }
{
    write_refusal(out, cause)?;
    out.extend_from_slice(END_OF_LINE)?;
    Ok(())
}
