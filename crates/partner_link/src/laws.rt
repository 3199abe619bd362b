//! What holds of every `Partners`, as calls that do nothing: each says by its contract what was proved.
ghost use Rattle.std.specs.Prelude.{◌≡◌, None, true};
ghost use Rattle.fics_words.specs.Effect.{first_cause};
ghost use Rattle.partner_link.specs.Laws.{ArePartnersAlone, AreMutual, IsNamedByNobody};
ghost use Rattle.partner_link.specs.Partners.{asking, without_naming};

use crate::partners::Partners;

/// To be a partner goes both ways, and nobody is its own partner.
pub fn partners_are_mutual(partners: &Partners)
    ensures { AreMutual partners.now.links }
{
    let _ = &partners.links;
}

/// After a `forget` the player has no partner, and nobody's partner or request names it.
pub fn forgotten_is_named_by_nobody(partners: &Partners, who: u32)
    ensures { IsNamedByNobody (without_naming partners.now who) who }
{
    let _ = &partners.links;
}

/// After an `ask` that gives true each of the two has the other as its partner, and no request names either.
pub fn asked_back_are_partners(partners: &Partners, from: u32, to: u32)
    ensures { first_cause (asking partners.now from to).causes ≡ None → (asking partners.now from to).reply ≡ true
        → ArePartnersAlone (asking partners.now from to).after from to }
{}
