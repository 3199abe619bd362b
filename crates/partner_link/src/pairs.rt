//! Requests and links: two players each.
ghost use Rattle.std.specs.Prelude.{◌≡◌, Ok, not, ◌||◌};
ghost use Rattle.partner_link.specs.Partners.{is_of, names, other_of};

use collections::Predicate;
use tables::Keyed;

/// A request that stands: which player has asked which to be its partner.
#[derive(Clone, Copy, PartialEq, Eq, Hash)]
pub struct PartnerRequest {
    pub from: u32,
    pub to: u32,
}

impl PartnerRequest {
    /// Whether the request is by this player or to it.
    pub(crate) fn names(&self, who: u32) -> bool
        ensures { result ≡ names who self.now }
    {
        self.from == who || self.to == who
    }
}

/// A request is found by itself.
impl Keyed<PartnerRequest> for PartnerRequest {
    ghost key_of = { λ request. request };

    fn key(&self) -> PartnerRequest {
        *self
    }
}

/// Two players who are partners: the one who asked first, and the one who asked back.
#[derive(Clone, Copy)]
pub struct PartnerLink {
    pub first: u32,
    pub second: u32,
}

impl PartnerLink {
    /// Whether this player is one of the two.
    pub(crate) fn is_of(&self, who: u32) -> bool
        ensures { result ≡ is_of who self.now }
    {
        self.first == who || self.second == who
    }

    /// The other one of the two.
    pub(crate) fn other(&self, who: u32) -> u32
        ensures { result ≡ other_of who self.now }
    {
        if self.first == who {
            self.second
        } else {
            self.first
        }
    }
}

/// A request that doesn't name this player.
#[derive(Clone, Copy)]
pub(crate) struct RequestOfOthers(pub(crate) u32);

impl Predicate<PartnerRequest> for RequestOfOthers {
    ghost passes = { λ test request. not (names test.0 request) };

    fn passes(&self, request: &PartnerRequest) -> bool {
        !request.names(self.0)
    }
}

/// A request that names neither of the two players.
#[derive(Clone, Copy)]
pub(crate) struct RequestOfNeither(pub(crate) u32, pub(crate) u32);

impl Predicate<PartnerRequest> for RequestOfNeither {
    ghost passes = { λ test request. not (names test.0 request || names test.1 request) };

    fn passes(&self, request: &PartnerRequest) -> bool {
        !(request.names(self.0) || request.names(self.1))
    }
}

/// A link that this player isn't in.
#[derive(Clone, Copy)]
pub(crate) struct LinkOfOthers(pub(crate) u32);

impl Predicate<PartnerLink> for LinkOfOthers {
    ghost passes = { λ test link. not (is_of test.0 link) };

    fn passes(&self, link: &PartnerLink) -> bool {
        !link.is_of(self.0)
    }
}
