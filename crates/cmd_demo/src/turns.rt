//! The half-moves that a session could make at its present board.

ghost use Rattle.std.specs.Prelude.{◌≡◌, IfOk};
ghost use Rattle.one_server.specs.Server.{parts_in};
ghost use Rattle.cmd_demo.specs.Turns.{moves_at, moves_of_session, moves_on};

use chess_model::{Colour, Move};
use game_board::GameBoard;
use linked_desk::{Desk, board_of, colour_at};
use memory::NoMemory;
use one_server::OneServer;
use std::alloc::Global;

/// The half-moves that the session could make where it plays at present: all that are allowed, in the order of
/// `Position::moves`, where that game runs and the session is to move; else none.
pub(crate) fn moves_of(
    alloc: Global,
    session: u32,
    server: &OneServer,
) -> Result<Vec<Move>, NoMemory>
    ensures { IfOk result (λ moves. moves.items ≡ moves_of_session session (parts_in server.now)) }
{
    let Some(place) = server.lobby().places(session).present() else {
        return Ok(Vec::new(alloc));
    };
    moves_at(alloc, place.seat, server.desk(place.desk))
}

/// The half-moves that the player of this seat could make at the desk.
fn moves_at(alloc: Global, seat: u8, desk: &Desk) -> Result<Vec<Move>, NoMemory>
    ensures { IfOk result (λ moves. moves.items ≡ moves_at seat desk.now) }
{
    if desk.ended().is_some() {
        return Ok(Vec::new(alloc));
    }
    let Some(board) = desk.board(board_of(seat)) else {
        return Ok(Vec::new(alloc));
    };
    moves_on(alloc, colour_at(seat), board)
}

/// The half-moves that the colour could make on the board: none where it isn't to move.
fn moves_on(alloc: Global, colour: Colour, board: &GameBoard) -> Result<Vec<Move>, NoMemory>
    ensures { IfOk result (λ moves. moves.items ≡ moves_on colour board.now) }
{
    if !board.to_move().is_same(colour) {
        return Ok(Vec::new(alloc));
    }
    board.position().moves(alloc)
}
