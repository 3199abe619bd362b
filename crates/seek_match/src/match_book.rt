//! The challenges that stand.
ghost use Rattle.std.specs.Prelude.{◌≡◌, OnErr, OnOk, false};
ghost use Rattle.seek_match.specs.Opponents.{Lists, SaysTheSame, Unlists, is_opponent};

use crate::challenge::{ByPlayer, Challenge, ChallengeKey, FailsFrom, FailsTo, Nobodys, ToPlayer};
use crate::opponents::{Opponents, list, opponents_of, unlist};
use collections::{Predicate, find};
use memory::NoMemory;
use std::alloc::Global;
use std::marker::Model;
use tables::Table;

/// The challenges that stand, in the order of making, and beside them with whom each player has some, so that those of
/// a player are found by it. Contracts see the list of the challenges. Nobody has two challenges to one player.
#[derive(Drop)]
pub struct MatchBook {
    alloc: Global,
    rows: Table<ChallengeKey, Challenge>,
    /// Whom each player challenges.
    challenged: Table<u32, Opponents>,
    /// Who challenges each player.
    challengers: Table<u32, Opponents>,
}

impl Model for MatchBook {
    ghost use Rattle.std.specs.Prelude.{List};
    ghost use Rattle.seek_match.specs.declared.challenge.Challenge.{Challenge};
    ghost use Rattle.seek_match.specs.Matches.{AreChallenges};
    ghost use Rattle.seek_match.specs.Opponents.{AreOpponents};

    ghost Value = { List Challenge };

    ghost view = { λ book. book.rows };

    ghost invariant = { λ book. record {
      pairs : AreChallenges book.rows;
      opponents : AreOpponents book.challenged book.challengers book.rows;
    } };
}

impl MatchBook {
    ghost use Rattle.std.specs.Prelude.{◌≡◌, ◌<◌, IfNone, IfSome, OnErr, OnOk, [], false, length, true};
    ghost use Rattle.std.specs.List.{filter, list_any};
    ghost use Rattle.seek_match.specs.Matches.{AreChallenges, challenge_by, challenge_to, has_challenge, is_between, stays, whose, with_challenge, without_between, without_challenges_of};

    /// No challenges; takes no memory.
    pub fn new(alloc: Global) -> MatchBook
        ensures { result ≡ [] }
    {
        MatchBook {
            alloc,
            rows: Table::new(alloc),
            challenged: Table::new(alloc),
            challengers: Table::new(alloc),
        }
    }

    /// Puts the challenge behind the others, in place of an older one by the same player to the same player. Running
    /// out of memory leaves everything as it was.
    pub fn put(&mut self, challenge: Challenge) -> Result<(), NoMemory>
        ensures put { OnOk result (self.new ≡ with_challenge challenge self.old) }
        ensures unchanged { OnErr result (self.new ≡ self.old) }
    {
        let (from, to) = (challenge.from, challenge.to);
        if self.rows.has(ChallengeKey { from, to }) {
            self.rows.put_last(challenge)?;
            return Ok(());
        }
        list_both(
            self.alloc,
            &mut self.challenged,
            &mut self.challengers,
            from,
            to,
        )?;
        if let Err(NoMemory) = self.rows.put_last(challenge) {
            unlist_both(&mut self.challenged, &mut self.challengers, from, to);
            return Err(NoMemory);
        }
        Ok(())
    }

    /// The challenge by the first player to the second, and without a first player the oldest one to the second, if
    /// there is one.
    pub fn find(&self, from: Option<u32>, to: u32) -> Option<Challenge>
        ensures { result ≡ challenge_to self.now from to }
    {
        match from {
            Some(from) => self.rows.get(ChallengeKey { from, to }).copied(),
            None => find(self.rows.as_slice(), &ToPlayer(to)).copied(),
        }
    }

    /// The oldest challenge by this player, if there is one.
    pub fn find_by(&self, from: u32) -> Option<Challenge>
        ensures { result ≡ challenge_by self.now from }
    {
        find(self.rows.as_slice(), &ByPlayer(from)).copied()
    }

    /// Takes away the challenge by the first player to the second, and tells whether there was one.
    pub fn remove(&mut self, from: u32, to: u32) -> bool
        ensures found { result ≡ list_any (is_between from to) self.old }
        ensures after { self.new ≡ without_between from to self.old }
    {
        let removed = self.rows.remove(ChallengeKey { from, to });
        self.rows.shrink();
        unlist_both(&mut self.challenged, &mut self.challengers, from, to);
        removed.is_some()
    }

    /// Takes away every challenge by this player and to it. It takes no memory and is never refused.
    pub fn forget(&mut self, who: u32)
        ensures { self.new ≡ without_challenges_of who self.old }
    {
        self.keep_of(who, &Nobodys);
    }

    /// Takes away the challenges by this player and to it whose keys don't pass `test`. It looks at no others, takes no
    /// memory and is never refused.
    pub fn keep_of<P: Predicate<ChallengeKey>>(&mut self, who: u32, test: &P)
        ensures { self.new ≡ filter (λ challenge. stays (P.passes test.now) who (whose challenge)) self.old }
    {
        while self.take_failing(who, test) {}
    }

    /// Takes away a challenge by this player or to it whose key doesn't pass `test`, and tells whether there was one.
    fn take_failing<P: Predicate<ChallengeKey>>(&mut self, who: u32, test: &P) -> bool
        ensures passing { filter (λ challenge. stays (P.passes test.now) who (whose challenge)) self.new
            ≡ filter (λ challenge. stays (P.passes test.now) who (whose challenge)) self.old }
        ensures fewer { result ≡ true → length self.new < length self.old }
        ensures none { result ≡ false
            → filter (λ challenge. stays (P.passes test.now) who (whose challenge)) self.new ≡ self.new }
    {
        let Some(gone) = self.first_failing(who, test) else {
            return false;
        };
        self.remove(gone.from, gone.to);
        true
    }

    /// The key of a challenge by this player or to it, if there is one, that doesn't pass `test`.
    fn first_failing<P: Predicate<ChallengeKey>>(&self, who: u32, test: &P) -> Option<ChallengeKey>
        ensures there { IfSome result (λ key. has_challenge self.now key.from key.to ≡ true) }
        ensures fails { IfSome result (λ key. stays (P.passes test.now) who key ≡ false) }
        ensures none { IfNone result
            (filter (λ challenge. stays (P.passes test.now) who (whose challenge)) self.now ≡ self.now) }
    {
        let fails = FailsTo { from: who, test };
        if let Some(to) = find(opponents_of(&self.challenged, who), &fails) {
            return Some(ChallengeKey { from: who, to: *to });
        }
        let fails = FailsFrom { to: who, test };
        if let Some(from) = find(opponents_of(&self.challengers, who), &fails) {
            return Some(ChallengeKey {
                from: *from,
                to: who,
            });
        }
        None
    }

    /// The challenges, in the order of making.
    pub fn rows(&self) -> &[Challenge]
        ensures rows { result.now ≡ self.now }
        ensures pairs { AreChallenges self.now }
    {
        self.rows.as_slice()
    }
}

/// The first player challenges the second. Running out of memory changes nothing of what the rows say.
fn list_both(
    alloc: Global,
    challenged: &mut Table<u32, Opponents>,
    challengers: &mut Table<u32, Opponents>,
    from: u32,
    to: u32,
) -> Result<(), NoMemory>
    requires { is_opponent challenged.old from to ≡ false }
    ensures challenged { OnOk result (Lists from to challenged.old challenged.new) }
    ensures challengers { OnOk result (Lists to from challengers.old challengers.new) }
    ensures challenged_err { OnErr result (SaysTheSame challenged.old challenged.new) }
    ensures challengers_err { OnErr result (SaysTheSame challengers.old challengers.new) }
{
    list(alloc, challenged, from, to)?;
    if let Err(NoMemory) = list(alloc, challengers, to, from) {
        unlist(challenged, from, to);
        return Err(NoMemory);
    }
    Ok(())
}

/// The first player doesn't challenge the second any more. It takes no memory.
fn unlist_both(
    challenged: &mut Table<u32, Opponents>,
    challengers: &mut Table<u32, Opponents>,
    from: u32,
    to: u32,
)
    ensures challenged { Unlists from to challenged.old challenged.new }
    ensures challengers { Unlists to from challengers.old challengers.new }
{
    unlist(challenged, from, to);
    unlist(challengers, to, from);
}
