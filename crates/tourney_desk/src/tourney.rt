//! The tourney: its players, its start, its rounds and its results.

use crate::pairing::{is_paired, pairs_in, rounds_of};
use crate::score::{Report, Score, ScoreRow};
use crate::table::table_of;
use collections::{Listed, Reserved};
use fics_words::{Fail, Handle, HandleKey, Refusal};
use std::alloc::Global;
use std::marker::Model;

/// The most players.
const MOST: usize = 64;

/// Room for a result of each two numbers below 64, in either order: more results than that never stand.
const ALL_RESULTS: usize = 4_096;

/// A round robin of at most 64 players, who are numbered from 0 in the order of joining. Contracts see their handles,
/// whether it has started, and the results that were accepted.
#[derive(Drop)]
pub struct Tourney {
    alloc: Global,
    players: Listed<Handle>,
    started: bool,
    results: Reserved<Report>,
}

impl Model for Tourney {
    ghost use Rattle.tourney_desk.specs.Tourney.{IsTourney, TourneyState};

    ghost Value = { TourneyState };

    ghost view = { λ t. record { players = t.players; started = t.started; results = t.results.items } };

    ghost invariant = { λ t. IsTourney (record { players = t.players; started = t.started; results = t.results.items })
        t.results.room };
}

impl Tourney {
    ghost use Rattle.std.specs.Prelude.{◌≡◌, ◌<◌, ◌≤◌, Some, OnOk, All, IfOk, IfSome, length, slice_get};
    ghost use Rattle.std.specs.List.{list_any, position};
    ghost use Rattle.fics_words.specs.Effect.{Takes, answer_of, state_of};
    ghost use Rattle.tourney_desk.specs.Answers.{GivesList};
    ghost use Rattle.tourney_desk.specs.Fairness.{IsFair, IsRoundFair};
    ghost use Rattle.tourney_desk.specs.Pairing.{IsOfPlayers};
    ghost use Rattle.tourney_desk.specs.Table.{IsTable};
    ghost use Rattle.tourney_desk.specs.Tourney.{is_of_key, is_of_game, joining_tourney, no_tourney, player_number, pairs_told, reporting, starting_tourney, table_told};

    /// Nobody has joined; takes no memory.
    pub fn new(alloc: Global) -> Tourney
        ensures { result ≡ no_tourney }
    {
        Tourney {
            alloc,
            players: Listed::new(alloc),
            started: false,
            results: Reserved::new(alloc),
        }
    }

    /// The player joins, and has the next number. Refuses with `TourneyStarted` after the start, else with
    /// `HandleTaken` where the handle has joined, in whatever capitals, and else with `TourneyFull` where 64 have.
    pub fn join(&mut self, name: Handle) -> Result<(), Fail>
        ensures { Takes (joining_tourney self.old name) self.old self.new result }
    {
        if self.started {
            return Err(Fail::Refused(Refusal::TourneyStarted));
        }
        if self.has_joined(name.key()) {
            return Err(Fail::Refused(Refusal::HandleTaken));
        }
        if self.players.len() >= MOST {
            return Err(Fail::Refused(Refusal::TourneyFull));
        }
        self.players.push(name)?;
        Ok(())
    }

    /// Starts the tourney and gives the number of rounds: over all of them every two players meet exactly once, and the
    /// numbers of a player's White and Black games differ by at most 1. Takes the memory for all results. Refuses with
    /// `TourneyStarted` where it has started, and else with `TooFewPlayers` where fewer than two have joined.
    #[tactic(auto, using(crate::proofs::Balance::is_fair))]
    pub fn start(&mut self) -> Result<u8, Fail>
        ensures effect { Takes (starting_tourney self.old) self.old self.new result }
        ensures fair { OnOk result (IsFair (length self.new.players)) }
    {
        if self.started {
            return Err(Fail::Refused(Refusal::TourneyStarted));
        }
        if self.players.len() < 2 {
            return Err(Fail::Refused(Refusal::TooFewPlayers));
        }
        self.results.reserve(ALL_RESULTS)?;
        self.started = true;
        Ok(rounds_of(self.players.len() as u8))
    }

    /// The pairs of a round, counted from 1, each White before Black, in ascending order of the lesser number; nobody
    /// stands in two of them. Refuses with `TourneyNotStarted` before the start, and else with `NoSuchRound` where the
    /// round is 0 or above the number of rounds.
    pub fn pairs(&self, round: u8) -> Result<Vec<(u8, u8)>, Fail>
        ensures told { GivesList (pairs_told self.now round) result }
        ensures fair { OnOk result (IsRoundFair (length self.now.players) round) }
        ensures joined { IfOk result (λ pairs. All (IsOfPlayers (length self.now.players)) pairs.items) }
    {
        if !self.started {
            return Err(Fail::Refused(Refusal::TourneyNotStarted));
        }
        let players = self.players.len() as u8;
        if round == 0 {
            return Err(Fail::Refused(Refusal::NoSuchRound));
        }
        if round > rounds_of(players) {
            return Err(Fail::Refused(Refusal::NoSuchRound));
        }
        Ok(pairs_in(self.alloc, players, round)?)
    }

    /// The result of a game is accepted; takes no memory. Refuses with `TourneyNotStarted` before the start, else with
    /// `NotPaired` where no round has these two with these colours, and else with `AlreadyReported` where their result
    /// stands.
    pub fn report(
        &mut self,
        white: HandleKey,
        black: HandleKey,
        score: Score,
    ) -> Result<(), Refusal>
        ensures answer { result ≡ answer_of (reporting self.old white black score) }
        ensures after { self.new ≡ state_of self.old (reporting self.old white black score) }
    {
        if !self.started {
            return Err(Refusal::TourneyNotStarted);
        }
        let white = self.number_of(white);
        let black = self.number_of(black);
        if !is_paired(self.players.len() as u8, white, black) {
            return Err(Refusal::NotPaired);
        }
        if self.has_result(white, black) {
            return Err(Refusal::AlreadyReported);
        }
        self.results.push(Report {
            white,
            black,
            score,
        });
        Ok(())
    }

    /// The table: a row for each player, with the results that stand for that player and the half-points from them, in
    /// descending order of half-points and then by the players' keys. Refuses with `TourneyNotStarted` before the
    /// start.
    pub fn table(&self) -> Result<Vec<ScoreRow>, Fail>
        ensures told { GivesList (table_told self.now) result }
        ensures sums { IfOk result (λ rows. IsTable self.now.players self.now.results rows.items) }
        ensures joined { IfOk result (λ rows. All (λ row. row.player < length self.now.players) rows.items) }
    {
        if !self.started {
            return Err(Fail::Refused(Refusal::TourneyNotStarted));
        }
        let names = self.players.as_slice();
        Ok(table_of(self.alloc, names, self.results.as_slice())?)
    }

    /// The handle of the player of this number.
    pub fn name(&self, player: u8) -> Handle
        requires { player < length self.now.players }
        ensures { slice_get self.now.players player ≡ Some result }
    {
        self.players.as_slice()[player as usize]
    }

    /// Whether the handle of this key has joined.
    fn has_joined(&self, key: HandleKey) -> bool
        ensures { result ≡ list_any (is_of_key key) self.now.players }
    {
        self.players.as_slice().iter().any(|name| name.key() == key)
    }

    /// The number of the player of this key; where no player has it, the number of players.
    fn number_of(&self, key: HandleKey) -> u8
        ensures { result ≡ player_number self.now key }
    {
        match self.place_of(key) {
            Some(number) => number as u8,
            None => self.players.len() as u8,
        }
    }

    /// Where the player of this key stands among the players.
    fn place_of(&self, key: HandleKey) -> Option<usize>
        ensures place { result ≡ position (is_of_key key) self.now.players }
        ensures within { IfSome result (λ place. place < length self.now.players) }
        ensures few { length self.now.players ≤ 64 }
    {
        let names = self.players.as_slice();
        names.iter().position(|name| name.key() == key)
    }

    /// Whether the result of this game stands.
    fn has_result(&self, white: u8, black: u8) -> bool
        ensures { result ≡ list_any (is_of_game white black) self.now.results }
    {
        self.results
            .as_slice()
            .iter()
            .any(|report| report.white == white && report.black == black)
    }
}
