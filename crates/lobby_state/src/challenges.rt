//! Which challenges stay as a game starts.
ghost use Rattle.std.specs.Prelude.{◌≡◌, ◌&&◌, ◌||◌, not};
ghost use Rattle.lobby_state.specs.Start.{is_bound, is_giver, is_seated};

use crate::members::Members;
use collections::Predicate;
use fics_words::Seats;
use seek_match::ChallengeKey;

/// A challenge that stays as the game of these seats starts.
#[derive(Clone, Copy)]
pub(crate) struct Stays<'a> {
    pub(crate) members: &'a Members,
    pub(crate) seats: Seats,
}

impl<'a> Predicate<ChallengeKey> for Stays<'a> {
    ghost passes = { λ test key. not ((is_seated test.seats key.from && is_seated test.seats key.to)
        || (is_bound test.members.now test.seats key.from || is_bound test.members.now test.seats key.to)) };

    fn passes(&self, key: &ChallengeKey) -> bool {
        !(are_seated(&self.seats, key) || concerns_bound(self.members, &self.seats, key))
    }
}

/// Whether the two are players of the game.
fn are_seated(seats: &Seats, key: &ChallengeKey) -> bool
    ensures { result ≡ (is_seated seats.now key.now.from && is_seated seats.now key.now.to) }
{
    seats.number(key.from).is_some() && seats.number(key.to).is_some()
}

/// Whether one of the two is a player of the game that gives no simul.
fn concerns_bound(members: &Members, seats: &Seats, key: &ChallengeKey) -> bool
    ensures { result ≡ (is_bound members.now seats.now key.now.from || is_bound members.now seats.now key.now.to) }
{
    is_bound(members, seats, key.from) || is_bound(members, seats, key.to)
}

/// Whether the session is a player of the game that gives no simul.
fn is_bound(members: &Members, seats: &Seats, session: u32) -> bool
    ensures { result ≡ is_bound members.now seats.now session }
{
    seats.number(session).is_some() && !is_giver(members, session)
}

/// Whether the session is one of these members, and gives a simul.
fn is_giver(members: &Members, session: u32) -> bool
    ensures { result ≡ is_giver members.now session }
{
    match members.get(session) {
        None => false,
        Some(member) => member.gives(),
    }
}
