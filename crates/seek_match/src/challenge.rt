//! A challenge, and between whom it is.
ghost use Rattle.std.specs.Prelude.{◌≡◌, ◌==◌, false, not};

use chess_model::Terms;
use collections::Predicate;
use tables::Keyed;

/// A game that a player offers to one other: by which session, to which, and on which terms.
#[derive(Clone, Copy)]
pub struct Challenge {
    pub from: u32,
    pub to: u32,
    pub terms: Terms,
}

/// Who challenges whom.
#[derive(Clone, Copy, PartialEq, Eq, Hash)]
pub struct ChallengeKey {
    pub from: u32,
    pub to: u32,
}

/// A challenge is found by whose it is.
impl Keyed<ChallengeKey> for Challenge {
    ghost key_of = { λ challenge. record { from = challenge.from; to = challenge.to } };

    fn key(&self) -> ChallengeKey {
        ChallengeKey {
            from: self.from,
            to: self.to,
        }
    }
}

/// A challenge to this player.
#[derive(Clone, Copy)]
pub(crate) struct ToPlayer(pub(crate) u32);

impl Predicate<Challenge> for ToPlayer {
    ghost passes = { λ test challenge. challenge.to == test.0 };

    fn passes(&self, challenge: &Challenge) -> bool {
        challenge.to == self.0
    }
}

/// A challenge by this player.
#[derive(Clone, Copy)]
pub(crate) struct ByPlayer(pub(crate) u32);

impl Predicate<Challenge> for ByPlayer {
    ghost passes = { λ test challenge. challenge.from == test.0 };

    fn passes(&self, challenge: &Challenge) -> bool {
        challenge.from == self.0
    }
}

/// No challenge, whosever it is.
#[derive(Clone, Copy)]
pub(crate) struct Nobodys;

impl Predicate<ChallengeKey> for Nobodys {
    ghost passes = { λ _ _. false };

    fn passes(&self, _key: &ChallengeKey) -> bool {
        false
    }
}

/// A player to whom the challenge of this one doesn't pass `test`.
#[derive(Clone, Copy)]
pub(crate) struct FailsTo<'a, P> {
    pub(crate) from: u32,
    pub(crate) test: &'a P,
}

impl<'a, P: Predicate<ChallengeKey>> Predicate<u32> for FailsTo<'a, P> {
    ghost passes = { λ fails to. not (P.passes fails.test.now (record { from = fails.from; to = to })) };

    fn passes(&self, to: &u32) -> bool {
        !self.test.passes(&ChallengeKey {
            from: self.from,
            to: *to,
        })
    }
}

/// A player whose challenge to this one doesn't pass `test`.
#[derive(Clone, Copy)]
pub(crate) struct FailsFrom<'a, P> {
    pub(crate) to: u32,
    pub(crate) test: &'a P,
}

impl<'a, P: Predicate<ChallengeKey>> Predicate<u32> for FailsFrom<'a, P> {
    ghost passes = { λ fails from. not (P.passes fails.test.now (record { from = from; to = fails.to })) };

    fn passes(&self, from: &u32) -> bool {
        !self.test.passes(&ChallengeKey {
            from: *from,
            to: self.to,
        })
    }
}
