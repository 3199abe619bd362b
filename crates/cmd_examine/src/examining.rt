//! The command `examine`: a store is opened, and one of its games examined.

ghost use Rattle.std.specs.Prelude.{◌≡◌, ◌≤◌, IfOk, option_map};
ghost use Rattle.edge_traits.specs.Faults.{Rose};
ghost use Rattle.edge_traits.specs.Keeper.{Stays};
ghost use Rattle.game_records.specs.Replays.{Replays};
ghost use Rattle.lobby_shelf.specs.Numbers.{stored_game};
ghost use Rattle.lobby_state.specs.WellFormed.{IsWellFormed};
ghost use Rattle.lobby_load.specs.Calling.{LoadsOnce};
ghost use Rattle.cmd_store.specs.Outcomes.{EndsAt, OnKeeperFault, OnReadFault, OnWriteFault};
ghost use Rattle.examine_board.specs.Exam.{exam_opened};
ghost use Rattle.cmd_examine.specs.ExamineEnds.{EndsBeforeInput, ExamineEnds, ExaminesOpened, TellsNone};

use crate::answering::answer_exam;
use cmd_lines::{End, send};
use cmd_store::{Outcome, outcome_of};
use edge_traits::{Keeper, Sink, Source};
use examine_board::Exam;
use game_records::StoredGame;
use lobby_load::open_store;
use lobby_state::{Lobby, lobbies_are_well_formed};
use memory::NoMemory;
use std::alloc::Global;

/// What is written where the store has no game of the number.
const NO_SUCH_GAME: &[u8] = b"no such game\n";

/// Loads the store, and examines its game of that number: writes the lines that show it before its first half-move,
/// then reads the source to its end and writes what its lines give, one write a read. It calls the keeper for its load
/// alone.
pub fn examine<S: Source, K: Sink, P: Keeper>(
    alloc: Global,
    game: u64,
    source: &mut S,
    sink: &mut K,
    keeper: &mut P,
) -> Outcome
    ensures ends { ExamineEnds (P.table keeper.old) game (S.left source.old) (S.left source.new) (K.written sink.old)
        (K.written sink.new) result }
    ensures unread { EndsBeforeInput result → source.new ≡ source.old }
    ensures unchanged { Stays (P.table keeper.old) (P.table keeper.new) }
    ensures called { LoadsOnce (P.calls keeper.old) (P.calls keeper.new) (EndsAt result) }
    ensures read_cause { OnReadFault result (Rose (S.faults source.old) (S.faults source.new)) }
    ensures write_cause { OnWriteFault result (Rose (K.faults sink.old) (K.faults sink.new)) }
    ensures keeper_cause { OnKeeperFault result (Rose (P.faults keeper.old) (P.faults keeper.new)) }
    ensures keeper_counted { P.faults keeper.old ≤ P.faults keeper.new }
{
    match open_store(alloc, keeper, sink) {
        Ok(lobby) => {
            let opened = open_game(alloc, &lobby, game);
            // All the other games needn't be in memory while the source is read.
            drop(lobby);
            examine_opened(alloc, opened, source, sink)
        }
        Err(fault) => outcome_of(fault),
    }
}

/// Opens the game of that number of a lobby that was loaded, if there is one.
fn open_game(alloc: Global, lobby: &Lobby, number: u64) -> Result<Option<Exam>, NoMemory>
    ensures formed { IsWellFormed lobby.now }
    ensures opened { IfOk result (λ found. found ≡ option_map exam_opened (stored_game lobby.now.shelf.games number)) }
{
    lobbies_are_well_formed(lobby);
    match lobby.stored(number) {
        Some(game) => Ok(Some(open_exam(alloc, game)?)),
        None => Ok(None),
    }
}

/// The exam of a stored game, which replays.
fn open_exam(alloc: Global, game: &StoredGame) -> Result<Exam, NoMemory>
    requires { Replays game.now }
    ensures { IfOk result (λ exam. exam ≡ exam_opened game.now) }
{
    let Some(exam) = Exam::open(alloc, game)? else {
        unreachable!()
    };
    Ok(exam)
}

/// Examines the game that was opened, or tells that there is none. Where memory ran out nothing is read or written.
fn examine_opened<S: Source, K: Sink>(
    alloc: Global,
    opened: Result<Option<Exam>, NoMemory>,
    source: &mut S,
    sink: &mut K,
) -> Outcome
    ensures calm { OnKeeperFault result ⊥ }
    ensures ends { ExaminesOpened opened (S.left source.old) (S.left source.new) (K.written sink.old)
        (K.written sink.new) result }
    ensures unread { EndsBeforeInput result → source.new ≡ source.old }
    ensures read_cause { OnReadFault result (Rose (S.faults source.old) (S.faults source.new)) }
    ensures write_cause { OnWriteFault result (Rose (K.faults sink.old) (K.faults sink.new)) }
{
    match opened {
        Ok(Some(exam)) => Outcome::Read(answer_exam(alloc, exam, source, sink)),
        Ok(None) => tell_none(sink),
        Err(NoMemory) => Outcome::Read(End::Memory),
    }
}

/// Tells that there is no such game.
fn tell_none<K: Sink>(sink: &mut K) -> Outcome
    ensures calm { OnKeeperFault result ⊥ }
    ensures ends { TellsNone (K.written sink.old) (K.written sink.new) result }
    ensures write_cause { OnWriteFault result (Rose (K.faults sink.old) (K.faults sink.new)) }
{
    match send(NO_SUCH_GAME, sink) {
        Ok(()) => Outcome::NoGame,
        Err(end) => Outcome::Read(end),
    }
}
