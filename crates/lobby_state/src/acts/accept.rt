//! Accept: a challenge is accepted, and the plan of its game is told.
ghost use Rattle.std.specs.Prelude.{◌≡◌};
ghost use Rattle.fics_words.specs.Effect.{answer_of};
ghost use Rattle.lobby_state.specs.Accept.{accept_effect, offer_of};

use crate::acts::Plan;
use crate::pairing::is_simul_of_four;
use crate::roster::Roster;
use fics_words::{HandleKey, Refusal};
use seek_match::Challenge;

impl Roster {
    /// What an acceptance is to do. The causes of a refusal, in order: the session isn't a member; there is no such
    /// challenge; in bughouse the two are partners by now, one of them gives a simul, or one has no partner; one of
    /// those who would be seated has a place and gives no simul; one of them has 32 places; all desks are in use, or
    /// 2^62 games were started; stored games and desks in use are 10,000 together.
    pub(crate) fn accept_plan(&self, session: u32, name: Option<HandleKey>) -> Result<Plan, Refusal>
        ensures { result ≡ answer_of (accept_effect self.now session name) }
    {
        let Some(accepting) = self.member(session) else {
            return Err(Refusal::NotIn);
        };
        let Some(offer) = self.offer(session, name) else {
            return Err(Refusal::NoChallenge);
        };
        let Some(offering) = self.member(offer.from) else {
            return Err(Refusal::NoChallenge);
        };
        if self.are_partners(offering, accepting, offer.terms) {
            return Err(Refusal::BadOpponent);
        }
        if is_simul_of_four(offering, accepting, offer.terms) {
            return Err(Refusal::NotInVariant);
        }
        if self.lack_partner(offering, accepting, offer.terms) {
            return Err(Refusal::NoPartner);
        }
        self.start_plan(accepting, offering, offer.terms)
    }

    /// The challenge that an acceptance means: the named player's, and without a name the oldest to the session.
    pub(crate) fn offer(&self, session: u32, name: Option<HandleKey>) -> Option<Challenge>
        ensures { result ≡ offer_of self.now session name }
    {
        let Some(key) = name else {
            return self.challenges.find(None, session);
        };
        let Some(other) = self.named(key) else {
            return None;
        };
        self.challenges.find(Some(other.session), session)
    }
}
