//! The games that a handle plays in, one after another.
ghost use Rattle.std.specs.Prelude.{◌≡◌, ◌≤◌, All, IfSome, length};
ghost use Rattle.std.specs.List.{filter};
ghost use Rattle.std.specs.Map.Iter.{TakesFirst};
ghost use Rattle.lobby_shelf.specs.Players.{is_of_both};

use crate::marks::Marked;
use crate::rack::Rack;
use crate::shelved::Shelved;
use fics_words::HandleKey;
use std::marker::Model;

/// The games that two handles both play in, or one handle where they are the same, in the order of their numbers.
/// Contracts see those that are left.
#[derive(Drop)]
pub struct GamesOf<'a> {
    rack: &'a Rack,
    place: usize,
    one: Marked,
    other: Marked,
}

impl<'a> Model for GamesOf<'a> {
    ghost use Rattle.std.specs.Prelude.{◌≤◌, List, All, drop, length};
    ghost use Rattle.std.specs.List.{filter};
    ghost use Rattle.lobby_shelf.specs.declared.shelved.Shelved.{Shelved};
    ghost use Rattle.lobby_shelf.specs.Players.{is_of_both};

    ghost Value = { List Shelved };

    ghost view = { λ rest. filter (is_of_both rest.one rest.other) (drop rest.place rest.rack.now) };

    ghost invariant = { λ rest. All (λ row. length row.game.names ≤ 4) rest.rack.now };
}

impl<'a> GamesOf<'a> {
    /// All of them, of games that have at most four players each.
    pub(crate) fn all(rack: &'a Rack, one: HandleKey, other: HandleKey) -> GamesOf<'a>
        requires { All (λ row. length row.game.names ≤ 4) rack.now }
        ensures { result ≡ filter (is_of_both one other) rack.now }
    {
        GamesOf {
            rack,
            place: 0,
            one: Marked::of(one),
            other: Marked::of(other),
        }
    }

    /// The next of them, or `None` where none is left.
    pub fn next(&mut self) -> Option<&'a Shelved>
        ensures steps { TakesFirst (λ row. row.now) self.old result self.new }
        ensures few { IfSome result (λ row. length row.now.game.names ≤ 4) }
    {
        let rows = self.rack.rows();
        let place = self.rack.next_of(self.place, &self.one, &self.other)?;
        self.place = place + 1;
        Some(&rows[place])
    }
}
