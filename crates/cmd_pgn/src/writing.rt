//! The exports of stored games, written a game at a time.

ghost use Rattle.std.specs.Prelude.{◌≡◌, ◌≤◌, All, IfErr, IfOk};
ghost use Rattle.edge_traits.specs.Faults.{Rose};
ghost use Rattle.game_records.specs.Replays.{Replays};
ghost use Rattle.cmd_lines.specs.Ends.{OnWriteFault};
ghost use Rattle.cmd_lines.specs.Reading.{AfterSend};
ghost use Rattle.cmd_pgn.specs.Exports.{exports, game_export};

use cmd_lines::{End, send};
use edge_traits::Sink;
use lobby_shelf::{Shelved, StoredGame};
use memory::NoMemory;
use pgn_book::{export, of_stored};
use std::alloc::Global;

/// Writes the exports of those games that are chess, in their order: one write a game, of which the text alone is held
/// in memory. It ends at the first fault of writing, and where memory runs out; what was written then is a front of
/// all.
pub(crate) fn write_games<K: Sink>(
    alloc: Global,
    games: &[Shelved],
    sink: &mut K,
) -> Result<(), End>
    requires { All (λ row. Replays row.game) games.now }
    ensures sent { AfterSend (K.written sink.old) (K.written sink.new) (exports games.now) result }
    ensures cause { IfErr result (λ end. OnWriteFault end (Rose (K.faults sink.old) (K.faults sink.new))) }
    ensures counted { K.faults sink.old ≤ K.faults sink.new }
{
    for row in games {
        write_game(alloc, &row.game, sink)?;
    }
    Ok(())
}

/// Writes the export of a game, where it is chess.
fn write_game<K: Sink>(alloc: Global, game: &StoredGame, sink: &mut K) -> Result<(), End>
    requires { Replays game.now }
    ensures sent { AfterSend (K.written sink.old) (K.written sink.new) (game_export game.now) result }
    ensures cause { IfErr result (λ end. OnWriteFault end (Rose (K.faults sink.old) (K.faults sink.new))) }
    ensures counted { K.faults sink.old ≤ K.faults sink.new }
{
    let Ok(text) = text_of(alloc, game) else {
        return Err(End::Memory);
    };
    send(text.as_slice(), sink)
}

/// The export of a game that replays; no bytes where it isn't chess.
fn text_of(alloc: Global, game: &StoredGame) -> Result<Vec<u8>, NoMemory>
    requires { Replays game.now }
    ensures { IfOk result (λ text. text.items ≡ game_export game.now) }
{
    match of_stored(alloc, game)? {
        Some(made) => export(alloc, &made),
        None => Ok(Vec::new(alloc)),
    }
}
