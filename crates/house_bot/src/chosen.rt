//! The search for the best half-move ahead.
ghost use Rattle.std.specs.Prelude.{◌≡◌, ◌≢◌, ◌⊎◌, ◌↔◌, [], IfOk, None};
ghost use Rattle.chess_model.specs.AllMoves.{allowed_moves};
ghost use Rattle.house_bot.specs.Value.{value, best_move};
ghost use Rattle.house_bot.specs.Searching.{better};

use crate::search::deeper;
use crate::worth::settled;
use chess_model::{Move, Variant};
use memory::NoMemory;
use std::alloc::Global;
use variant_rules::Position;

/// More than any value.
const TOP: i32 = 200_000;

/// The best move so far, and what it is worth.
#[derive(Clone, Copy)]
struct Choice {
    worth: i32,
    what: Option<Move>,
}

/// The choice, or the move where it is worth more.
fn better(old: Choice, m: &Move, worth: i32) -> Choice
    ensures { result ≡ better old m.now worth }
{
    if old.worth < worth {
        Choice {
            worth,
            what: Some(*m),
        }
    } else {
        old
    }
}

/// The value of a position `depth` half-moves ahead for the player to move, and the first move in the order of `moves`
/// that reaches it; no move where `depth` is 0 or none is allowed. The position is afterwards as it was before, also
/// where memory runs out.
///
/// The value counts in pawns, from the side of the player to move: a mate is -(100,000 + the half-moves left), a
/// stalemate 0, and else it is what the own men are worth at the end less what the other's are.
pub fn best(alloc: Global, p: &mut Position, depth: u8) -> Result<(i32, Option<Move>), NoMemory>
    requires { p.old.variant ≢ Variant.Bughouse }
    ensures same { p.new ≡ p.old }
    ensures value { IfOk result (λ found. found.0 ≡ value depth p.old) }
    ensures first { IfOk result (λ found. found.1 ≡ best_move depth p.old) }
    ensures none { IfOk result (λ found. (found.1 ≡ None) ↔ ((depth ≡ 0) ⊎ (allowed_moves p.old ≡ []))) }
{
    if let Some(worth) = settled(p, depth) {
        return Ok((worth, None));
    }
    p.has_two_sets();
    let moves = p.moves(alloc)?;
    let mut choice = Choice {
        worth: -TOP,
        what: None,
    };
    for m in &moves {
        let worth = deeper(alloc, p, m, depth - 1, choice.worth, TOP)?;
        choice = better(choice, m, worth);
    }
    Ok((choice.worth, choice.what))
}
