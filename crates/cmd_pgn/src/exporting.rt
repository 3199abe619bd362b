//! The command `pgn`.

ghost use Rattle.std.specs.Prelude.{◌≤◌};
ghost use Rattle.edge_traits.specs.Faults.{Rose};
ghost use Rattle.edge_traits.specs.Keeper.{Stays};
ghost use Rattle.lobby_state.specs.WellFormed.{IsWellFormed};
ghost use Rattle.lobby_load.specs.Calling.{LoadsOnce};
ghost use Rattle.cmd_store.specs.Outcomes.{EndsAt, OnKeeperFault, OnWriteFault};
ghost use Rattle.cmd_pgn.specs.PgnEnds.{PgnEnds, WritesText};
ghost use Rattle.cmd_pgn.specs.Exports.{exports};

use crate::writing::write_games;
use cmd_lines::End;
use cmd_store::{Outcome, outcome_of};
use edge_traits::{Keeper, Sink};
use lobby_load::open_store;
use lobby_state::{Lobby, lobbies_are_well_formed};
use std::alloc::Global;

/// Loads the store, and writes the exports of its chess games in ascending order of their numbers: one write a game, of
/// which the text alone is held in memory. Games of other variants are passed over. It reads nothing, and calls the
/// keeper for its load alone.
pub fn pgn<K: Sink, P: Keeper>(alloc: Global, sink: &mut K, keeper: &mut P) -> Outcome
    ensures ends { PgnEnds (P.table keeper.old) (K.written sink.old) (K.written sink.new) result }
    ensures unchanged { Stays (P.table keeper.old) (P.table keeper.new) }
    ensures called { LoadsOnce (P.calls keeper.old) (P.calls keeper.new) (EndsAt result) }
    ensures keeper_cause { OnKeeperFault result (Rose (P.faults keeper.old) (P.faults keeper.new)) }
    ensures keeper_counted { P.faults keeper.old ≤ P.faults keeper.new }
    ensures write_cause { OnWriteFault result (Rose (K.faults sink.old) (K.faults sink.new)) }
    ensures write_counted { K.faults sink.old ≤ K.faults sink.new }
{
    match open_store(alloc, keeper, sink) {
        Ok(lobby) => write_shelf(alloc, &lobby, sink),
        Err(fault) => outcome_of(fault),
    }
}

/// Writes the exports of the chess games on the lobby's shelf.
fn write_shelf<K: Sink>(alloc: Global, lobby: &Lobby, sink: &mut K) -> Outcome
    ensures well_formed { IsWellFormed lobby.now }
    ensures calm { OnKeeperFault result ⊥ }
    ensures writes { WritesText (K.written sink.old) (K.written sink.new) (exports lobby.now.shelf.games) result }
    ensures write_cause { OnWriteFault result (Rose (K.faults sink.old) (K.faults sink.new)) }
    ensures write_counted { K.faults sink.old ≤ K.faults sink.new }
{
    lobbies_are_well_formed(lobby);
    match write_games(alloc, lobby.shelf(), sink) {
        Ok(()) => Outcome::Read(End::Done),
        Err(end) => Outcome::Read(end),
    }
}
