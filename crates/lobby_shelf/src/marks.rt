//! Marks of players: small numbers by which a game that a handle doesn't play in is told without a look at its players.
//! They lie in a row of their own, so that a walk over the shelf reads 8 bytes a game.
ghost use Rattle.std.specs.Prelude.{◌≡◌, ◌+◌, ◌*◌, ◌%◌, slice_get};
ghost use Rattle.lobby_shelf.specs.Marks.{has_mark, mark, mark_in, marks_of};

use fics_words::{Handle, HandleKey};
use std::marker::Model;

/// The marks of the players of a game, in the order of their seats, and 0 where there is no such seat.
#[derive(Clone, Copy)]
pub(crate) struct PlayerMarks {
    first: u16,
    second: u16,
    third: u16,
    fourth: u16,
}

impl PlayerMarks {
    /// The marks of the players of these names.
    pub(crate) fn of(names: &[Handle]) -> PlayerMarks
        ensures { result ≡ marks_of names.now }
    {
        PlayerMarks {
            first: mark_at(names, 0),
            second: mark_at(names, 1),
            third: mark_at(names, 2),
            fourth: mark_at(names, 3),
        }
    }

    /// Whether one of the players has this mark.
    fn has(&self, mark: u16) -> bool
        ensures { result ≡ has_mark mark self.now }
    {
        self.first == mark || self.second == mark || self.third == mark || self.fourth == mark
    }
}

/// The key of a handle, with its mark. Contracts see the key.
#[derive(Drop)]
pub(crate) struct Marked {
    key: HandleKey,
    number: u16,
}

impl Model for Marked {
    ghost use Rattle.std.specs.Prelude.{◌≡◌, List, ℕ};
    ghost use Rattle.lobby_shelf.specs.Marks.{mark};

    ghost Value = { List ℕ };

    ghost view = { λ marked. marked.key };

    ghost invariant = { λ marked. marked.number ≡ mark marked.key };
}

impl Marked {
    /// The key, with its mark.
    pub(crate) fn of(key: HandleKey) -> Marked
        ensures { result ≡ key }
    {
        Marked {
            key,
            number: mark(key),
        }
    }

    /// The key.
    pub(crate) fn key(&self) -> HandleKey
        ensures { result ≡ self.now }
    {
        self.key
    }

    /// Whether one of the players of these marks has the handle's.
    pub(crate) fn is_among(&self, marks: &PlayerMarks) -> bool
        ensures { result ≡ has_mark (mark self.now) marks.now }
    {
        marks.has(self.number)
    }
}

/// The mark of the handle with this key: handles of different marks differ.
fn mark(key: HandleKey) -> u16
    ensures { result ≡ mark key }
{
    let mut sum = 0;
    for letter in key.letters() {
        sum = behind(sum, *letter);
    }
    sum
}

/// The mark of letters, once one more stands behind those of this mark.
fn behind(sum: u16, letter: u8) -> u16
    ensures { result ≡ (sum * 31 + letter) % 65536 }
{
    ((u32::from(sum) * 31 + u32::from(letter)) % 65_536) as u16
}

/// The mark of the player of this seat, and 0 where there is none.
fn mark_at(names: &[Handle], seat: usize) -> u16
    ensures { result ≡ mark_in (slice_get names.now seat) }
{
    match names.get(seat) {
        None => 0,
        Some(name) => mark(name.key()),
    }
}
