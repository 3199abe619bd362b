//! Who would play a game that two agree on: the two, and in bughouse their partners too.
ghost use Rattle.std.specs.Prelude.{◌≡◌, option_copied};
ghost use Rattle.lobby_state.specs.Holds.{holds};
ghost use Rattle.lobby_state.specs.Lobby.{is_busy};
ghost use Rattle.lobby_state.specs.Pairing.{are_crowded, are_partners, are_playing, beside, is_crowded, is_simul_of_four};
ghost use Rattle.lobby_state.specs.Pairing.{lack_partner, paired};

use crate::member::Member;
use crate::roster::Roster;
use chess_model::{Terms, Variant};

impl Roster {
    /// Who sits beside the member at the other board of a game of this variant: in bughouse its partner, if it has one,
    /// and else nobody.
    pub(crate) fn beside(&self, variant: Variant, member: &Member) -> Option<&Member>
        ensures { option_copied result ≡ beside self.now variant member.now }
    {
        if !matches!(variant, Variant::Bughouse) {
            return None;
        }
        let Some(partner) = self.partner_of(member.session) else {
            return None;
        };
        self.member(partner)
    }

    /// Whether the two are partners, who don't play one another, in a game on these terms.
    pub(crate) fn are_partners(&self, offering: &Member, accepting: &Member, terms: Terms) -> bool
        ensures { result ≡ are_partners self.now (paired offering.now accepting.now terms) }
    {
        match self.beside(terms.variant, offering) {
            Some(partner) => partner.session == accepting.session,
            None => false,
        }
    }

    /// Whether a game on these terms is played by partners, and one of the two has none.
    pub(crate) fn lack_partner(&self, offering: &Member, accepting: &Member, terms: Terms) -> bool
        ensures { result ≡ lack_partner self.now (paired offering.now accepting.now terms) }
    {
        if !matches!(terms.variant, Variant::Bughouse) {
            return false;
        }
        self.beside(terms.variant, offering).is_none()
            || self.beside(terms.variant, accepting).is_none()
    }

    /// Whether one of those who would be seated for a game of the two on these terms has a place and gives no simul.
    pub(crate) fn are_playing(&self, offering: &Member, accepting: &Member, terms: Terms) -> bool
        ensures { result ≡ are_playing self.now (paired offering.now accepting.now terms) }
    {
        if offering.is_busy() || accepting.is_busy() {
            return true;
        }
        self.is_busy_beside(terms.variant, offering)
            || self.is_busy_beside(terms.variant, accepting)
    }

    /// Whether somebody who has a place and gives no simul would sit beside the member.
    fn is_busy_beside(&self, variant: Variant, member: &Member) -> bool
        ensures { result ≡ holds is_busy (beside self.now variant member.now) }
    {
        match self.beside(variant, member) {
            Some(other) => other.is_busy(),
            None => false,
        }
    }

    /// Whether one of those who would be seated for a game of the two on these terms has 32 places.
    pub(crate) fn are_crowded(&self, offering: &Member, accepting: &Member, terms: Terms) -> bool
        ensures { result ≡ are_crowded self.now (paired offering.now accepting.now terms) }
    {
        if offering.is_crowded() || accepting.is_crowded() {
            return true;
        }
        self.is_crowded_beside(terms.variant, offering)
            || self.is_crowded_beside(terms.variant, accepting)
    }

    /// Whether somebody who has 32 places would sit beside the member.
    fn is_crowded_beside(&self, variant: Variant, member: &Member) -> bool
        ensures { result ≡ holds is_crowded (beside self.now variant member.now) }
    {
        match self.beside(variant, member) {
            Some(other) => other.is_crowded(),
            None => false,
        }
    }
}

/// Whether a game on these terms is one of four, and one of the two gives a simul.
pub(crate) fn is_simul_of_four(offering: &Member, accepting: &Member, terms: Terms) -> bool
    ensures { result ≡ is_simul_of_four (paired offering.now accepting.now terms) }
{
    if !matches!(terms.variant, Variant::Bughouse) {
        return false;
    }
    offering.gives() || accepting.gives()
}
