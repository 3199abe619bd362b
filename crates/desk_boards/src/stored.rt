//! Stored games that replay.
ghost use Rattle.std.specs.Prelude.{◌≡◌, ◌≤◌, ◌↔◌, map, bytes_eq, IfOk, IfSome, IsSome, IsTrue, Some};
ghost use Rattle.std.specs.List.{IsDistinct, list_any};
ghost use Rattle.fics_words.specs.Handle.{key_of};
ghost use Rattle.game_records.specs.Replays.{AreFour, Replays};
ghost use Rattle.desk_boards.specs.Replaying.{replayed};

use crate::boards::Boards;
use chess_model::Variant;
use clock_ledger::Moment;
use fics_words::Handle;
use game_records::{StoredGame, is_game};
use memory::NoMemory;
use std::alloc::Global;

/// Whether a stored game could have been played as it is written, so that it can be resumed.
pub fn replays(alloc: Global, game: &StoredGame) -> Result<bool, NoMemory>
    ensures { IfOk result (λ so. IsTrue so ↔ Replays game.now) }
{
    let boards = Boards::of_stored(alloc, game, Moment::new(0))?;
    Ok(boards.is_some())
}

impl Boards {
    /// The boards on which a stored game is resumed at `moment`, in milliseconds, since which its players to move are
    /// thinking. None where the game doesn't replay.
    pub fn of_stored(
        alloc: Global,
        game: &StoredGame,
        moment: Moment,
    ) -> Result<Option<Boards>, NoMemory>
        ensures replays { IfOk result (λ boards. IsSome boards ↔ Replays game.now) }
        ensures boards { IfOk result (λ found. IfSome found (λ boards.
            replayed game.now.terms game.now.halves moment ≡ Some boards)) }
    {
        if !is_game(game) {
            return Ok(None);
        }
        if !are_four(game.terms.variant, game.names.as_slice()) {
            return Ok(None);
        }
        Boards::replay(alloc, game.terms, game.halves.as_slice(), moment)
    }
}

/// Whether the players of a pair are four.
fn are_four(variant: Variant, names: &[Handle]) -> bool
    ensures { IsTrue result ↔ AreFour variant names.now }
{
    match variant {
        Variant::Chess => true,
        Variant::Crazyhouse => true,
        Variant::Fischer(_) => true,
        Variant::Bughouse => are_distinct(names),
    }
}

/// Whether no two of the names are the same, but for upper and lower case.
fn are_distinct(names: &[Handle]) -> bool
    ensures { IsTrue result ↔ IsDistinct bytes_eq (map key_of names.now) }
{
    let mut rest = names;
    while let Some((name, others)) = rest.split_first() {
        if has_name(name, others) {
            return false;
        }
        rest = others;
    }
    true
}

/// Whether one of the names is this one, but for upper and lower case.
fn has_name(name: &Handle, names: &[Handle]) -> bool
    ensures { result ≡ list_any (λ other. bytes_eq (key_of name.now) (key_of other)) names.now }
{
    let key = name.key();
    names.iter().any(|other| other.key() == key)
}
