//! Who meets whom in which round, and with which colours.

ghost use Rattle.std.specs.Prelude.{◌≡◌, ◌<◌, ◌≤◌, ◌++◌, false, true, All, OnOk, IfOk, IfSome, IfNone, ℕ};
ghost use Rattle.tourney_desk.specs.Fairness.{IsRoundFair};
ghost use Rattle.tourney_desk.specs.Pairing.{IsOfPlayers, as_pair, first_is_white, is_paired, meet, pairs_in, pairs_of, rounds_of};

use memory::NoMemory;
use std::alloc::Global;

/// The number of rounds for so many players: one less where they are even, else as many.
pub(crate) fn rounds_of(players: u8) -> u8
    requires { 0 < players }
    ensures value { result ≡ rounds_of players }
    ensures some { 0 < result }
    ensures most { result ≤ players }
{
    if players % 2 == 1 {
        return players;
    }
    players - 1
}

/// The pairs of a round, White before Black, in ascending order of the lesser number.
pub(crate) fn pairs_in(alloc: Global, players: u8, round: u8) -> Result<Vec<(u8, u8)>, NoMemory>
    requires few { players ≤ 64 }
    requires some { 0 < round }
    requires within { round ≤ rounds_of players }
    ensures pairs { IfOk result (λ pairs. pairs.items ≡ pairs_in players round) }
    ensures fair { OnOk result (IsRoundFair players round) }
    ensures joined { IfOk result (λ pairs. All (IsOfPlayers players) pairs.items) }
{
    let mut pairs = Vec::new(alloc);
    for player in 0..players {
        push_pair(&mut pairs, players, round, player)?;
    }
    Ok(pairs)
}

/// Appends the player's pair with one who has a greater number, if there is one in the round.
fn push_pair(pairs: &mut Vec<(u8, u8)>, players: u8, round: u8, player: u8) -> Result<(), NoMemory>
    requires few { players ≤ 64 }
    requires some { 0 < round }
    requires within { round ≤ rounds_of players }
    requires joined { player < players }
    ensures { OnOk result (pairs.new.items ≡ pairs.old.items ++ pairs_of players round player) }
{
    let Some(opponent) = opponent_above(players, round, player) else {
        return Ok(());
    };
    pairs.push(as_pair(players, player, opponent))?;
    Ok(())
}

/// The player with a greater number whom this one meets in the round, if there is one.
fn opponent_above(players: u8, round: u8, player: u8) -> Option<u8>
    requires few { players ≤ 64 }
    requires some { 0 < round }
    requires within { round ≤ rounds_of players }
    requires joined { player < players }
    ensures above { IfSome result (λ opponent. player < opponent) }
    ensures below { IfSome result (λ opponent. opponent < players) }
    ensures met { IfSome result (λ opponent. meet players round (player, opponent) ≡ true) }
    ensures alone { IfSome result (λ opponent. (other : ℕ) → player < other → other < players
        → meet players round (player, other) ≡ true → other ≡ opponent) }
    ensures none { IfNone result ((other : ℕ) → player < other → other < players
        → meet players round (player, other) ≡ false) }
{
    let rounds = rounds_of(players);
    if player >= rounds {
        return None;
    }
    // The place across from the player's, in a circle that has turned by one place since the round before.
    let across = (round - 1 + rounds - player) % rounds;
    if across == player {
        return if rounds < players { Some(rounds) } else { None };
    }
    if player < across { Some(across) } else { None }
}

/// The two as a pair, White before Black: the lesser number comes first in the call.
fn as_pair(players: u8, lesser: u8, greater: u8) -> (u8, u8)
    requires some { 0 < players }
    requires order { lesser < greater }
    ensures { result ≡ as_pair players (lesser, greater) }
{
    if first_is_white(players, lesser, greater) {
        return (lesser, greater);
    }
    (greater, lesser)
}

/// Whether the one with the lesser number, which comes first in the call, has White.
fn first_is_white(players: u8, lesser: u8, greater: u8) -> bool
    requires some { 0 < players }
    requires order { lesser < greater }
    ensures { result ≡ first_is_white players (lesser, greater) }
{
    if greater == rounds_of(players) {
        return lesser % 2 != 1;
    }
    (greater - lesser) % 2 == 1
}

/// Whether these two meet in some round with these colours.
pub(crate) fn is_paired(players: u8, white: u8, black: u8) -> bool
    requires { 0 < players }
    ensures { result ≡ is_paired players white black }
{
    if white >= players {
        return false;
    }
    if black >= players {
        return false;
    }
    if white < black {
        return as_pair(players, white, black).0 == white;
    }
    if black < white {
        return as_pair(players, black, white).0 == white;
    }
    false
}
