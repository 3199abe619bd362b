//! Who asks whom to be its partner, and who are partners.
ghost use Rattle.std.specs.Prelude.{◌≡◌, option_copied};
ghost use Rattle.std.specs.List.{filter, find};
ghost use Rattle.partner_link.specs.Partners.{is_of, partner_of, request_stands};

use crate::pairs::{LinkOfOthers, PartnerLink, PartnerRequest, RequestOfNeither, RequestOfOthers};
use collections::{Listed, Predicate};
use fics_words::{Fail, Refusal};
use std::alloc::Global;
use std::marker::Model;
use tables::Table;

/// The requests that stand, in the order of asking, and the links of partners, in the order in which they were made.
/// Players are known by the numbers of their sessions. Contracts see the two lists.
///
/// Each player has one partner at most, and nobody is its own partner.
#[derive(Drop)]
pub struct Partners {
    requests: Table<PartnerRequest, PartnerRequest>,
    pub(crate) links: Listed<PartnerLink>,
}

impl Model for Partners {
    ghost use Rattle.partner_link.specs.Partners.{AreLinks, PartnerLists};

    ghost Value = { PartnerLists };

    ghost view = { λ partners. record { requests = partners.requests; links = partners.links } };

    ghost invariant = { λ partners. AreLinks partners.links };
}

impl Partners {
    ghost use Rattle.std.specs.Prelude.{◌≡◌, ok_or, OnErr, OnOk, []};
    ghost use Rattle.fics_words.specs.Effect.{Takes};
    ghost use Rattle.fics_words.specs.declared.refusal.Refusal.TheVariants.{NoPartner};
    ghost use Rattle.partner_link.specs.Partners.{asking, has_asked, parted, partner_of, without_naming};

    /// No requests and no links; takes no memory.
    pub fn new(alloc: Global) -> Partners
        ensures { result ≡ record { requests = []; links = [] } }
    {
        Partners {
            requests: Table::new(alloc),
            links: Listed::new(alloc),
        }
    }

    /// The partner of this player, if it has one.
    pub fn of(&self, who: u32) -> Option<u32>
        ensures { result ≡ partner_of self.now.links who }
    {
        partner_of(self.links.as_slice(), who)
    }

    /// Asks a player to be this one's partner. Refuses with `HasPartner` where one of the two has a partner.
    ///
    /// Where the other has a request to this player standing, the two are partners from then on, every request that
    /// names one of them goes, and the answer is true. Else the request stands, and the answer is false: a new request
    /// stands behind the others, and one that stands already keeps its place. A player who asks itself has no other to
    /// answer, so that request stands and links nobody.
    pub fn ask(&mut self, from: u32, to: u32) -> Result<bool, Fail>
        ensures { Takes (asking self.old from to) self.old self.new result }
    {
        if self.of(from).is_some() || self.of(to).is_some() {
            return Err(Fail::Refused(Refusal::HasPartner));
        }
        if from != to && stands(&self.requests, to, from) {
            self.links.push(PartnerLink {
                first: to,
                second: from,
            })?;
            keep_requests(&mut self.requests, &RequestOfNeither(from, to));
            return Ok(true);
        }
        if !stands(&self.requests, from, to) {
            self.requests.push(PartnerRequest { from, to })?;
        }
        Ok(false)
    }

    /// Whether the other has a request to this player standing, so that an ask links the two.
    pub fn has_asked(&self, other: u32, who: u32) -> bool
        ensures { result ≡ has_asked self.now.requests other who }
    {
        who != other && stands(&self.requests, other, who)
    }

    /// Takes away the link of this player, and gives who its partner was. Refuses with `NoPartner` where it has none.
    pub fn part(&mut self, who: u32) -> Result<u32, Refusal>
        ensures partner { result ≡ ok_or (partner_of self.old.links who) NoPartner }
        ensures parted { OnOk result (self.new ≡ parted self.old who) }
        ensures unchanged { OnErr result (self.new ≡ self.old) }
    {
        let Some(partner) = self.of(who) else {
            return Err(Refusal::NoPartner);
        };
        keep_links(&mut self.links, &LinkOfOthers(who));
        Ok(partner)
    }

    /// Takes away every request and every link that names this player. It takes no memory.
    pub fn forget(&mut self, who: u32)
        ensures { self.new ≡ without_naming self.old who }
    {
        keep_requests(&mut self.requests, &RequestOfOthers(who));
        keep_links(&mut self.links, &LinkOfOthers(who));
    }
}

/// The partner of this player in these links, if it has one.
fn partner_of(links: &[PartnerLink], who: u32) -> Option<u32>
    ensures { result ≡ partner_of links.now who }
{
    match find_link(links, who) {
        Some(link) => Some(link.other(who)),
        None => None,
    }
}

/// The first of these links that this player is in.
fn find_link<'a>(links: &'a [PartnerLink], who: u32) -> Option<&'a PartnerLink>
    ensures { option_copied result ≡ find (is_of who) links.now }
{
    links.iter().find(|link| link.is_of(who))
}

/// Whether a request by this player to that one is among these.
fn stands(requests: &Table<PartnerRequest, PartnerRequest>, from: u32, to: u32) -> bool
    ensures { result ≡ request_stands requests.now from to }
{
    requests.has(PartnerRequest { from, to })
}

/// Keeps the requests that pass the test. A table that is left empty gives its memory back.
fn keep_requests<P: Predicate<PartnerRequest>>(
    requests: &mut Table<PartnerRequest, PartnerRequest>,
    test: &P,
)
    ensures { requests.new ≡ filter (P.passes test.now) requests.old }
{
    requests.retain(test);
    requests.shrink();
}

/// Keeps the links that pass the test. A list that is left empty gives its block back.
fn keep_links<P: Predicate<PartnerLink>>(links: &mut Listed<PartnerLink>, test: &P)
    ensures { links.new ≡ filter (P.passes test.now) links.old }
{
    links.retain(test);
    if links.is_empty() {
        links.take();
    }
}
