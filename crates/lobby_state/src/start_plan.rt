//! The plan of a game between a member that offers one and a member that accepts.
ghost use Rattle.std.specs.Prelude.{◌≡◌, option_map};
ghost use Rattle.fics_words.specs.Effect.{answer_of};
ghost use Rattle.lobby_state.specs.Lobby.{gives};
ghost use Rattle.lobby_state.specs.Pairing.{beside, paired};
ghost use Rattle.lobby_state.specs.StartPlan.{has_white, offers_white, opponents_of, player_of, seats_of, second_pair, start_planned};

use crate::acts::Plan;
use crate::member::Member;
use crate::roster::Roster;
use chess_model::{Colour, Terms, Variant};
use fics_words::{DeskNumber, Opponents, Player, Refusal, Seats};
use login_handles::Accounts;

/// The most games that are ever started, which keeps serials below 2^64.
pub(crate) const MOST_GAMES: u64 = 1 << 62;

impl Roster {
    /// The plan of a game of the two on these terms. The causes of a refusal, in order: one of those who would be
    /// seated has a place and gives no simul; one of them has 32 places; all desks are in use, or 2^62 games were
    /// started; stored games and desks in use are 10,000 together.
    pub(crate) fn start_plan(
        &self,
        accepting: &Member,
        offering: &Member,
        terms: Terms,
    ) -> Result<Plan, Refusal>
        ensures { result ≡ answer_of (start_planned self.now (paired offering.now accepting.now terms)) }
    {
        if self.are_playing(offering, accepting, terms) {
            return Err(Refusal::Playing);
        }
        if self.are_crowded(offering, accepting, terms) {
            return Err(Refusal::SimulFull);
        }
        let Some(slot) = self.free_slot() else {
            return Err(Refusal::NoDesk);
        };
        if self.started >= MOST_GAMES {
            return Err(Refusal::NoDesk);
        }
        if self.is_shelf_full() {
            return Err(Refusal::ShelfFull);
        }
        let serial = self.started + 1;
        Ok(Plan::Start {
            desk: DeskNumber::new(slot as u8 + 1),
            serial,
            terms,
            seats: self.seats(serial, offering, accepting, terms),
        })
    }

    /// Who sits where: the two at the first board, and in bughouse their partners at the second, each with the colour
    /// that its partner doesn't have.
    fn seats(&self, serial: u64, offering: &Member, accepting: &Member, terms: Terms) -> Seats
        ensures { result ≡ seats_of self.now serial (paired offering.now accepting.now terms) }
    {
        let white = has_white(offering, accepting, terms.colour, serial);
        Seats {
            first: opponents_of(&self.accounts, white, offering, accepting),
            second: self.second_board(white, terms.variant, accepting, offering),
        }
    }

    /// Those who sit beside these two: at the second board, where both are there.
    fn second_board(
        &self,
        white: bool,
        variant: Variant,
        one: &Member,
        another: &Member,
    ) -> Option<Opponents>
        ensures { result ≡ second_pair self.now.accounts white (beside self.now variant one.now)
            (beside self.now variant another.now) }
    {
        let one = self.player_beside(variant, one);
        Opponents::beside(white, one, self.player_beside(variant, another))
    }

    /// Who sits beside the member, as a player.
    fn player_beside(&self, variant: Variant, member: &Member) -> Option<Player>
        ensures { result ≡ option_map (player_of self.now.accounts) (beside self.now variant member.now) }
    {
        match self.beside(variant, member) {
            Some(other) => Some(player_of(&self.accounts, other)),
            None => None,
        }
    }
}

/// Two at their board: the first of them has White, or the second.
fn opponents_of(accounts: &Accounts, white: bool, one: &Member, another: &Member) -> Opponents
    ensures { result ≡ opponents_of accounts.now white one.now another.now }
{
    Opponents::facing(
        white,
        player_of(accounts, one),
        player_of(accounts, another),
    )
}

/// Whether the offering player has White: where exactly one of the two gives a simul the giver has it, and else it is
/// as the offer says.
fn has_white(offering: &Member, accepting: &Member, colour: Option<Colour>, serial: u64) -> bool
    ensures { result ≡ has_white (gives offering.now) (gives accepting.now) colour serial }
{
    match (offering.gives(), accepting.gives()) {
        (true, false) => true,
        (false, true) => false,
        (true, true) => offers_white(colour, serial),
        (false, false) => offers_white(colour, serial),
    }
}

/// Whether the offering player has White by its offer: where it asked for White, and where it asked for no colour and
/// the serial is odd.
fn offers_white(colour: Option<Colour>, serial: u64) -> bool
    ensures { result ≡ offers_white colour serial }
{
    match colour {
        Some(Colour::White) => true,
        Some(Colour::Black) => false,
        None => serial % 2 == 1,
    }
}

/// A member as a player, which is registered where its handle has an account.
fn player_of(accounts: &Accounts, member: &Member) -> Player
    ensures { result ≡ player_of accounts.now member.now }
{
    Player {
        session: member.session,
        name: member.name,
        registered: accounts.get(member.name.key()).is_some(),
    }
}
