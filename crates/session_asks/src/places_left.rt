//! Places, from the first to the last.
ghost use Rattle.std.specs.Prelude.{◌≡◌, ◌≤◌, ◌∷◌, [], IsNone, MatchOption, length};

use lobby_state::{Place, Places};
use std::marker::Model;

/// Places that are still to come. Contracts see their list.
#[derive(Drop)]
pub(crate) struct PlacesLeft {
    places: Places,
    /// How many of the places were taken.
    taken: usize,
}

impl Model for PlacesLeft {
    ghost use Rattle.std.specs.Prelude.{◌≤◌, List, drop, length};
    ghost use Rattle.simul_control.specs.declared.place.Place.{Place};

    ghost Value = { List Place };

    ghost view = { λ left. drop left.taken left.places.rows };

    ghost invariant = { λ left. left.taken ≤ length left.places.rows };
}

impl PlacesLeft {
    /// All of these places.
    pub(crate) fn all(places: &Places) -> PlacesLeft
        ensures places { result ≡ places.now.rows }
        ensures most { length places.now.rows ≤ 32 }
    {
        let _count = places.len();
        PlacesLeft {
            places: *places,
            taken: 0,
        }
    }

    /// Takes the first place; none where there is no place left.
    pub(crate) fn pop(&mut self) -> Option<Place>
        ensures first { MatchOption result (self.old ≡ []) (λ place. self.old ≡ place ∷ self.new) }
        ensures same { IsNone result → self.new ≡ self.old }
    {
        if self.taken >= self.places.len() {
            return None;
        }
        let place = self.places.place(self.taken);
        self.taken += 1;
        Some(place)
    }
}
