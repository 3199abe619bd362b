//! The places of a player, in columns of fixed room.
ghost use Rattle.std.specs.Prelude.{◌≡◌, ◌-◌, ◌<◌, ◌≤◌, ◌==◌, count_by, filter, get_or, length, slice_get, take, true};
ghost use Rattle.std.specs.List.{list_any};
ghost use Rattle.simul_control.specs.Places.{is_at, is_elsewhere, is_other, most_at_switch, turned_from};

use crate::direction::Direction;
use crate::place::Place;
use fics_words::{DeskNumber, Refusal};
use std::marker::Model;
use std::mem::size_of;

/// The most places that a player has.
const MOST: usize = 32;

/// The places of a player in the order in which they came, which of them is the present one, and whether the player
/// gives a simul. Contracts see whether it gives, the present place's number, and the list of the places. The desks,
/// the seats and the serials stand in columns, which takes less than half the room of rows; behind the places they
/// have 0.
#[derive(Clone, Copy, PartialEq, Eq)]
pub struct Places {
    giving: bool,
    at: usize,
    count: usize,
    desks: [u8; 32],
    seats: [u8; 32],
    serials: [u64; 32],
}

const _: () = prove!(size_of::<Places>() == 344);

impl Model for Places {
    ghost use Rattle.simul_control.specs.Places.{PlaceList};

    ghost Value = { PlaceList };

    ghost use Rattle.simul_control.specs.PlaceFields.{places_in, HoldsPlaces, fields_of, fields_of-places_in};

    ghost view = { places_in };

    ghost invariant = { HoldsPlaces };

    ghost inverse = { fields_of };

    ghost inverse_ok = { fields_of-places_in };
}

impl Places {
    ghost use Rattle.std.specs.List.{list_any};
    ghost use Rattle.simul_control.specs.Places.{Makes, adding_place, gives_nowhere, is_at, are_places_full, no_places, present_at};
    ghost use Rattle.simul_control.specs.Places.{switching, turning_place, with_place, without_desk};

    /// No places, of a player that gives no simul.
    pub fn none() -> Places
        ensures { result ≡ no_places }
    {
        Places {
            giving: false,
            at: 0,
            count: 0,
            desks: [0; 32],
            seats: [0; 32],
            serials: [0; 32],
        }
    }

    /// How many places there are, at most 32.
    pub fn len(&self) -> usize
        ensures count { result ≡ length self.now.rows }
        ensures most { length self.now.rows ≤ MOST }
        ensures present { self.now.at ≤ length self.now.rows - 1 }
    {
        self.count
    }

    /// The place of this number, from 0, in the order in which they came.
    pub fn place(&self, at: usize) -> Place
        requires { at < length self.now.rows }
        ensures { (other : Place) → result ≡ get_or self.now.rows at other }
    {
        Place {
            desk: DeskNumber::new(self.desks[at]),
            serial: self.serials[at],
            seat: self.seats[at],
        }
    }

    /// The same, if there is a place of this number.
    pub fn get(&self, at: usize) -> Option<Place>
        ensures { result ≡ slice_get self.now.rows at }
    {
        if at >= self.count {
            return None;
        }
        Some(self.place(at))
    }

    /// The number of the present place among the places, from 0; 0 too where there is none.
    pub fn at(&self) -> usize
        ensures { result ≡ self.now.at }
    {
        self.at
    }

    /// The present place, if there is any place.
    pub fn present(&self) -> Option<Place>
        ensures { result ≡ slice_get self.now.rows self.now.at }
    {
        self.get(self.at)
    }

    /// Whether the player gives a simul.
    pub fn giving(&self) -> bool
        ensures { result ≡ self.now.giving }
    {
        self.giving
    }

    /// Whether there are 32 places, so that none can be added.
    pub fn is_full(&self) -> bool
        ensures { result ≡ are_places_full self.now }
    {
        self.count >= MOST
    }

    /// Whether there is no board of a simul to turn to: the player gives none, or has no place.
    pub fn gives_nowhere(&self) -> bool
        ensures { result ≡ gives_nowhere self.now }
    {
        !self.giving || self.count == 0
    }

    /// Puts a place behind the others; the present one stays. Refuses with `SimulFull` where there are 32.
    pub fn add(&mut self, place: Place) -> Result<(), Refusal>
        ensures makes { Makes (adding_place place self.old) self.old self.new result }
        ensures after { self.new ≡ with_place place self.old }
    {
        if self.count >= MOST {
            return Err(Refusal::SimulFull);
        }
        self.desks[self.count] = place.desk.get();
        self.seats[self.count] = place.seat;
        self.serials[self.count] = place.serial;
        self.count += 1;
        Ok(())
    }

    /// Leaves the places at this desk. The present one stays, or becomes the first where it would be behind the last.
    pub fn leave(&mut self, desk: DeskNumber)
        ensures { self.new ≡ without_desk desk self.old }
    {
        if !self.is_at(desk) {
            return;
        }
        *self = self.without(desk);
    }

    /// Whether one of the places is at this desk.
    fn is_at(&self, desk: DeskNumber) -> bool
        ensures { result ≡ list_any (is_at desk) self.now.rows }
    {
        has_desk(&self.desks[..self.count], desk)
    }

    /// The places without those at this desk, where one is.
    fn without(&self, desk: DeskNumber) -> Places
        requires { list_any (is_at desk) self.now.rows ≡ true }
        ensures { result ≡ without_desk desk self.now }
    {
        let mut kept = elsewhere(self, desk);
        let before = count_elsewhere(self, self.at, desk);
        if before < kept.count {
            kept.at = before;
        }
        kept
    }

    /// Makes the place of this number, from 0, the present one.
    pub fn go(&mut self, at: usize)
        requires { at < length self.old.rows }
        ensures { self.new ≡ present_at at self.old }
    {
        self.at = at;
    }

    /// Turns to the next or the previous place, in a circle. Refuses with `NotGiving` where the player gives no simul,
    /// or has no place.
    pub fn turn(&mut self, way: Direction) -> Result<(), Refusal>
        ensures { Makes (turning_place way self.old) self.old self.new result }
    {
        if self.gives_nowhere() {
            return Err(Refusal::NotGiving);
        }
        self.at = turned_from(way, self.count, self.at);
        Ok(())
    }

    /// Begins to give a simul, or ends it. Refuses with `Playing` where there is a place as it would begin, or where
    /// there are two or more as it would end.
    pub fn switch(&mut self) -> Result<(), Refusal>
        ensures { Makes (switching self.old) self.old self.new result }
    {
        if self.count > most_at_switch(self.giving) {
            return Err(Refusal::Playing);
        }
        self.giving = !self.giving;
        Ok(())
    }
}

/// The places that aren't at the desk, of a player that gives as before; the first of them is the present one.
fn elsewhere(places: &Places, desk: DeskNumber) -> Places
    ensures { result ≡ record
        { giving = places.now.giving; at = 0; rows = filter (is_elsewhere desk) places.now.rows } }
{
    let number = desk.get();
    let mut kept = Places::none();
    kept.giving = places.giving;
    for at in 0..places.len() {
        let place = places.place(at);
        if place.desk.get() != number {
            // no more than there were, so that there is room
            let _room = kept.add(place);
        }
    }
    kept
}

/// How many of the first so many places aren't at the desk.
fn count_elsewhere(places: &Places, first: usize, desk: DeskNumber) -> usize
    requires { first ≤ length places.now.rows }
    ensures { result ≡ count_by (is_elsewhere desk) (take first places.now.rows) }
{
    count_others(&places.desks[..first], desk)
}

/// Whether the desk is one of these.
fn has_desk(desks: &[u8], desk: DeskNumber) -> bool
    ensures { result ≡ list_any (λ other. other == desk) desks.now }
{
    let number = desk.get();
    desks.iter().any(|other| *other == number)
}

/// How many of these desks are other ones.
fn count_others(desks: &[u8], desk: DeskNumber) -> usize
    ensures { result ≡ count_by (is_other desk) desks.now }
{
    let number = desk.get();
    desks.iter().filter(|other| **other != number).count()
}

/// How many places a player may have as it begins a simul, and as it ends one.
fn most_at_switch(giving: bool) -> usize
    ensures { result ≡ most_at_switch giving }
{
    if giving {
        return 1;
    }
    0
}

/// The number of the next or the previous place in a circle of so many.
fn turned_from(way: Direction, count: usize, at: usize) -> usize
    requires { at < count }
    ensures turned { result ≡ turned_from way count at }
    ensures within { result < count }
{
    match way {
        Direction::Next => {
            if at + 1 < count {
                return at + 1;
            }
            0
        }
        Direction::Previous => {
            if at == 0 {
                return count - 1;
            }
            at - 1
        }
    }
}
