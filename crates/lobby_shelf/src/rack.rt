//! The places of the shelf.
ghost use Rattle.std.specs.Prelude.{◌≡◌, ◌+◌, ◌≤◌, ◌<◌, false, All, Some, bytes_eq, filter, length, option_copied, slice_get, vec_capacity};
ghost use Rattle.std.specs.List.{find};
ghost use Rattle.fics_words.specs.Handle.{key_of};
ghost use Rattle.lobby_shelf.specs.Numbers.{AreInOrder, has_number, is_below, is_used, next_number, with_game, without_game};
ghost use Rattle.lobby_shelf.specs.Players.{IsNext, has_player, is_of_both};
ghost use Rattle.lobby_shelf.specs.Shelf.{most_stored};
ghost use Rattle.lobby_shelf.specs.declared.shelved.Shelved.{Shelved};

use crate::marks::{Marked, PlayerMarks};
use crate::shelved::Shelved;
use fics_words::{Handle, HandleKey};
use game_records::StoredGame;
use memory::NoMemory;
use std::alloc::Global;
use std::marker::Model;

/// The most games that are stored.
pub const MOST_STORED: usize = 10_000;

/// The stored games in the order of their numbers, which contracts see as that list. The room for 10,000 is taken when
/// it is made, and kept.
#[derive(Drop)]
pub(crate) struct Rack {
    games: Vec<Shelved>,
    /// The marks of the players of each.
    marks: Vec<PlayerMarks>,
}

impl Model for Rack {
    ghost use Rattle.std.specs.Prelude.{◌≡◌, ◌≤◌, List, map, vec_capacity};
    ghost use Rattle.std.specs.Vec.{vec_len};
    ghost use Rattle.lobby_shelf.specs.declared.shelved.Shelved.{Shelved};
    ghost use Rattle.lobby_shelf.specs.Marks.{marks_row};
    ghost use Rattle.lobby_shelf.specs.Numbers.{AreInOrder};
    ghost use Rattle.lobby_shelf.specs.Shelf.{most_stored};

    ghost Value = { List Shelved };

    ghost view = { λ rack. rack.games.items };

    ghost invariant = { λ rack. record {
      within : vec_len rack.games ≤ most_stored;
      room : most_stored ≤ vec_capacity rack.games;
      order : AreInOrder rack.games.items;
      marks : rack.marks.items ≡ map marks_row rack.games.items;
      marks_within : vec_len rack.marks ≤ most_stored;
      marks_room : most_stored ≤ vec_capacity rack.marks;
    } };
}

impl Rack {
    ghost use Rattle.std.specs.Prelude.{◌≡◌, [], IfOk};

    /// No games, and the room for them. It fails only when out of memory.
    pub(crate) fn new(alloc: Global) -> Result<Rack, NoMemory>
        ensures { IfOk result (λ rack. rack ≡ []) }
    {
        Ok(Rack {
            games: Vec::with_capacity(alloc, MOST_STORED)?,
            marks: Vec::with_capacity(alloc, MOST_STORED)?,
        })
    }

    /// The games, in the order of their numbers.
    pub(crate) fn rows(&self) -> &[Shelved]
        ensures rows { result.now ≡ self.now }
        ensures within { length self.now ≤ most_stored }
        ensures order { AreInOrder self.now }
    {
        self.games.as_slice()
    }

    /// How many games have a lesser number.
    fn place(&self, number: u64) -> usize
        ensures place { result ≡ length (filter (is_below number) self.now) }
        ensures within { result ≤ length self.now }
    {
        self.games.partition_point(|row| row.number < number)
    }

    /// The game of that number, if there is one.
    pub(crate) fn get(&self, number: u64) -> Option<&Shelved>
        ensures { option_copied result ≡ find (has_number number) self.now }
    {
        let row = self.games.get(self.place(number))?;
        if row.number == number {
            Some(row)
        } else {
            None
        }
    }

    /// Puts a game at its place, and takes no memory.
    pub(crate) fn insert(&mut self, number: u64, game: StoredGame)
        requires positive { 1 ≤ number }
        requires unused { is_used self.old number ≡ false }
        requires room { length self.old < most_stored }
        ensures { self.new ≡ with_game (record { number = number; game = game }) self.old }
    {
        let place = self.place(number);
        let marks = PlayerMarks::of(game.names.as_slice());
        let _room = self.games.insert(place, Shelved { number, game });
        let _room = self.marks.insert(place, marks);
    }

    /// Takes the game of that number off, if there is one.
    pub(crate) fn remove(&mut self, number: u64)
        ensures { self.new ≡ without_game number self.old }
    {
        if self.get(number).is_none() {
            return;
        }
        let place = self.place(number);
        drop(self.games.remove(place));
        self.marks.remove(place);
    }

    /// The least positive number that no game has.
    pub(crate) fn next_number(&self) -> u64
        ensures number { result ≡ next_number self.now }
        ensures positive { 1 ≤ result }
        ensures within { result ≤ length self.now + 1 }
    {
        let mut low = 0;
        let mut high = self.games.len();
        while low < high {
            let middle = low + (high - low) / 2;
            let row = &self.games[middle];
            if row.number == middle as u64 + 1 {
                low = middle + 1;
            } else {
                high = middle;
            }
        }
        low as u64 + 1
    }

    /// The place of the first game from a place on that both handles play in, if there is one. The marks tell of nearly
    /// all others that they aren't it, and these aren't looked at.
    pub(crate) fn next_of(&self, from: usize, one: &Marked, other: &Marked) -> Option<usize>
        requires few { All (λ row. length row.game.names ≤ 4) self.now }
        ensures { IsNext (is_of_both one.now other.now) from self.now result }
    {
        for place in from..self.games.len() {
            if self.is_of_both(place, one, other) {
                return Some(place);
            }
        }
        None
    }

    /// Whether both handles are among the players of the game at this place.
    fn is_of_both(&self, place: usize, one: &Marked, other: &Marked) -> bool
        requires place { place < length self.now }
        requires few { All (λ row. length row.game.names ≤ 4) self.now }
        ensures { (row : Shelved) → slice_get self.now place ≡ Some row → result ≡ is_of_both one.now other.now row }
    {
        let marks = &self.marks[place];
        if !one.is_among(marks) {
            return false;
        }
        if !other.is_among(marks) {
            return false;
        }
        let game = &self.games[place].game;
        has_player(game, one.key()) && has_player(game, other.key())
    }
}

/// Whether the handle with this key is among the players of the game.
fn has_player(game: &StoredGame, key: HandleKey) -> bool
    ensures { result ≡ has_player key game.now }
{
    game.names.iter().any(|name| has_key(name, &key))
}

/// Whether the handle has this key. The letters are compared as they stand: a walk over many games makes no keys.
fn has_key(name: &Handle, key: &HandleKey) -> bool
    ensures { result ≡ bytes_eq (key_of name.now) key.now }
{
    name.letters().eq_ignore_ascii_case(key.letters())
}
