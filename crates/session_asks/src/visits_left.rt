//! The games to which a session has still to go.
ghost use Rattle.std.specs.Prelude.{◌≡◌, ◌≤◌, ◌∷◌, [], MatchOption, length};
ghost use Rattle.session_asks.specs.Visits.{all_visits};

use crate::places_left::PlacesLeft;
use crate::visit::{Visit, looking, playing};
use lobby_state::Places;
use std::marker::Model;
use std::mem::size_of;

/// Games that come next: those that the session plays, and then those at which it looks on. Contracts see their list.
#[derive(Drop)]
pub struct VisitsLeft {
    places: PlacesLeft,
    observed: PlacesLeft,
}

const _: () = prove!(size_of::<VisitsLeft>() <= 704);

impl Model for VisitsLeft {
    ghost use Rattle.std.specs.Prelude.{List};
    ghost use Rattle.session_asks.specs.declared.visit.Visit.{Visit};
    ghost use Rattle.session_asks.specs.Visits.{all_visits};

    ghost Value = { List Visit };

    ghost view = { λ left. all_visits left.places left.observed };
}

impl VisitsLeft {
    /// The games of all of these places, and all at which the session looks on.
    pub fn all(places: &Places, observed: &Places) -> VisitsLeft
        ensures visits { result ≡ all_visits places.now.rows observed.now.rows }
        ensures most { length (all_visits places.now.rows observed.now.rows) ≤ 64 }
    {
        VisitsLeft {
            places: PlacesLeft::all(places),
            observed: PlacesLeft::all(observed),
        }
    }

    /// Takes the first game; none where there is no game left.
    pub fn pop(&mut self) -> Option<Visit>
        ensures first { MatchOption result (self.old ≡ []) (λ visit. self.old ≡ visit ∷ self.new) }
    {
        if let Some(place) = self.places.pop() {
            return Some(playing(&place));
        }
        match self.observed.pop() {
            Some(place) => Some(looking(&place)),
            None => None,
        }
    }
}
