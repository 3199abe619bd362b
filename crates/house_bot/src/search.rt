//! The value of a position between two bounds: what lies outside them isn't looked for.
ghost use Rattle.std.specs.Prelude.{◌≡◌, ◌<◌, IfOk, is_some};
ghost use Rattle.std.specs.Int.{int_min};
ghost use Rattle.chess_model.specs.Allowed.{Allowed};
ghost use Rattle.chess_model.specs.AllMoves.{allowed_moves};
ghost use Rattle.house_bot.specs.Value.{value, move_value};
ghost use Rattle.house_bot.specs.Searching.{cut, IsWindow, is_tried, raised, raised_by};

use crate::worth::settled;
use chess_model::Move;
use memory::NoMemory;
use std::alloc::Global;
use variant_rules::Position;

/// The value of the position, cut to the window from `low` to `high`.
#[cycle(look_ahead)]
fn search(alloc: Global, p: &mut Position, depth: u8, low: i32, high: i32) -> Result<i32, NoMemory>
    requires { IsWindow low high }
    ensures same { p.new ≡ p.old }
    ensures value { IfOk result (λ worth. worth ≡ cut low high (value depth p.old)) }
{
    if let Some(worth) = settled(p, depth) {
        return Ok(worth.clamp(low, high));
    }
    let moves = p.moves(alloc)?;
    // in bughouse a player without a move may wait
    if moves.is_empty() {
        return Ok(0_i32.clamp(low, high));
    }
    let raised = raised_by(alloc, p, &moves, true, depth - 1, low, high)?;
    if high <= raised {
        return Ok(high);
    }
    let whole = raised_by(alloc, p, &moves, false, depth - 1, raised, high)?;
    Ok(whole)
}

/// The greatest of `low` and what those moves are worth that are tried, no more than `high`. Tried are those that take
/// a man, or those that don't: what takes a man goes first, since it more often ends the search early.
#[cycle(look_ahead)]
fn raised_by(
    alloc: Global,
    p: &mut Position,
    moves: &[Move],
    takes: bool,
    depth: u8,
    low: i32,
    high: i32,
) -> Result<i32, NoMemory>
    requires window { IsWindow low high }
    requires moves { moves.now ≡ allowed_moves p.old }
    ensures same { p.new ≡ p.old }
    ensures value { IfOk result (λ worth. worth
        ≡ int_min high (raised_by (move_value depth p.old) (is_tried takes p.old.men) low moves.now)) }
{
    let mut best = low;
    for m in moves {
        best = raised(alloc, p, m, takes, depth, best, high)?;
        if high <= best {
            return Ok(high);
        }
    }
    Ok(best)
}

/// The greater of `low` and what the move is worth, if it is tried, no more than `high`.
#[cycle(look_ahead)]
fn raised(
    alloc: Global,
    p: &mut Position,
    m: &Move,
    takes: bool,
    depth: u8,
    low: i32,
    high: i32,
) -> Result<i32, NoMemory>
    requires allowed { Allowed p.old m.now }
    requires window { IsWindow low high }
    ensures same { p.new ≡ p.old }
    ensures value { IfOk result (λ worth. worth
        ≡ int_min high (raised (move_value depth p.old) (is_tried takes p.old.men) low m.now)) }
{
    if !is_tried(p, m, takes) {
        return Ok(low);
    }
    let worth = deeper(alloc, p, m, depth, low, high)?;
    Ok(worth)
}

/// Whether a pass tries the move.
fn is_tried(p: &Position, m: &Move, takes: bool) -> bool
    ensures { result ≡ is_tried takes p.now.men m.now }
{
    p.taken(m).is_some() == takes
}

/// What an allowed move is worth to the player who makes it, cut to the window from `low` to `high`.
#[cycle(look_ahead)]
pub(crate) fn deeper(
    alloc: Global,
    p: &mut Position,
    m: &Move,
    depth: u8,
    low: i32,
    high: i32,
) -> Result<i32, NoMemory>
    requires allowed { Allowed p.old m.now }
    requires window { IsWindow low high }
    ensures same { p.new ≡ p.old }
    ensures value { IfOk result (λ worth. worth ≡ cut low high (move_value depth p.old m.now)) }
{
    let undo = p.make(*m);
    let worth = search(alloc, p, depth, -high, -low);
    p.unmake(undo);
    Ok(-worth?)
}
