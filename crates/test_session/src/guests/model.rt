//! A plain model of the lobby, written from the rules of docs/RULES.md: lists of records that are gone through from end
//! to end. It knows no game, since nobody accepts a challenge or takes a seek.

use crate::guests::orders::{GUESTS, Names, Wish};
use memory::NoMemory;
use std::alloc::Global;
use std::mem;

/// The most that the rules let stand: channels of a guest and seeks of a guest.
pub const MOST_CHANNELS: usize = 20;

pub const MOST_SEEKS: usize = 3;

/// The most lines that wait.
const MOST_LINES: usize = 512;

/// A challenge that stands, by the places of the two guests.
#[derive(Clone, Copy)]
pub struct Challenge {
    pub from: usize,
    pub to: usize,
    pub terms: usize,
}

/// A seek that stands.
#[derive(Clone, Copy)]
pub struct Seek {
    pub number: u64,
    pub by: usize,
    pub terms: usize,
}

/// A name on a list.
#[derive(Clone, Copy)]
pub struct Listing {
    pub owner: usize,
    pub names: Names,
    pub name: usize,
}

/// The lobby: what each guest doesn't want, who is where, what stands between guests, and which lines wait for each.
#[derive(Drop)]
pub struct Model {
    pub alloc: Global,
    pub refused: Vec<(usize, Wish)>,
    pub listings: Vec<Listing>,
    pub challenges: Vec<Challenge>,
    pub seeks: Vec<Seek>,
    pub channels: Vec<(usize, u64)>,
    pub asks: Vec<(usize, usize)>,
    pub pairs: Vec<(usize, usize)>,
    pub waiting: Vec<Vec<String>>,
}

impl Model {
    pub fn new(alloc: Global) -> Result<Model, NoMemory> {
        let mut waiting = Vec::new(alloc);
        for _guest in 0..GUESTS {
            waiting.push(Vec::new(alloc))?;
        }
        Ok(Model {
            alloc,
            refused: Vec::new(alloc),
            listings: Vec::new(alloc),
            challenges: Vec::new(alloc),
            seeks: Vec::new(alloc),
            channels: Vec::new(alloc),
            asks: Vec::new(alloc),
            pairs: Vec::new(alloc),
            waiting,
        })
    }

    /// Whether the guest has the variable on.
    pub fn wants(&self, guest: usize, wish: Wish) -> bool {
        for row in &self.refused {
            if row.0 == guest && row.1 == wish {
                return false;
            }
        }
        true
    }

    /// Whether the owner has the name on that list.
    pub fn lists(&self, owner: usize, names: Names, name: usize) -> bool {
        for row in &self.listings {
            if row.owner == owner && row.names == names && row.name == name {
                return true;
            }
        }
        false
    }

    pub fn is_in(&self, guest: usize, channel: u64) -> bool {
        for row in &self.channels {
            if row.0 == guest && row.1 == channel {
                return true;
            }
        }
        false
    }

    pub fn count_channels(&self, guest: usize) -> usize {
        self.channels.iter().filter(|row| row.0 == guest).count()
    }

    pub fn count_seeks(&self, guest: usize) -> usize {
        self.seeks.iter().filter(|seek| seek.by == guest).count()
    }

    /// The least number from 1 on that no seek has.
    pub fn free_number(&self) -> u64 {
        for number in 1..1_000u64 {
            if !self.has_number(number) {
                return number;
            }
        }
        1_000
    }

    fn has_number(&self, number: u64) -> bool {
        for seek in &self.seeks {
            if seek.number == number {
                return true;
            }
        }
        false
    }

    pub fn partner_of(&self, guest: usize) -> Option<usize> {
        for pair in &self.pairs {
            if pair.0 == guest {
                return Some(pair.1);
            }
            if pair.1 == guest {
                return Some(pair.0);
            }
        }
        None
    }

    pub fn has_asked(&self, from: usize, to: usize) -> bool {
        for ask in &self.asks {
            if ask.0 == from && ask.1 == to {
                return true;
            }
        }
        false
    }

    /// Whether no more lines can wait for the guest.
    pub fn is_full(&self, guest: usize) -> bool {
        match self.waiting.get(guest) {
            Some(lines) => lines.len() >= MOST_LINES,
            None => true,
        }
    }

    /// A line waits for the guest, where there is room.
    pub fn send(&mut self, guest: usize, line: String) -> Result<(), NoMemory> {
        if self.is_full(guest) || guest >= self.waiting.len() {
            return Ok(());
        }
        self.waiting[guest].push(line)?;
        Ok(())
    }

    /// Takes the lines that wait for the guest.
    pub fn take_waiting(&mut self, guest: usize) -> Vec<String> {
        if guest >= self.waiting.len() {
            return Vec::new(self.alloc);
        }
        mem::replace(&mut self.waiting[guest], Vec::new(self.alloc))
    }

    /// The oldest challenge to the guest, or the one from that other.
    pub fn offer_to(&self, guest: usize, other: Option<usize>) -> Option<Challenge> {
        for challenge in &self.challenges {
            if challenge.to == guest && is_or_any(other, challenge.from) {
                return Some(*challenge);
            }
        }
        None
    }

    /// The oldest challenge by the guest, or the one to that other.
    pub fn offer_by(&self, guest: usize, other: Option<usize>) -> Option<Challenge> {
        for challenge in &self.challenges {
            if challenge.from == guest && is_or_any(other, challenge.to) {
                return Some(*challenge);
            }
        }
        None
    }

    /// The challenge by the one to the other goes.
    pub fn drop_challenge(&mut self, from: usize, to: usize) -> Result<(), NoMemory> {
        let mut kept = Vec::new(self.alloc);
        for challenge in &self.challenges {
            if challenge.from != from || challenge.to != to {
                kept.push(*challenge)?;
            }
        }
        self.challenges = kept;
        Ok(())
    }

    /// Each request that names the guest goes.
    pub fn drop_asks(&mut self, guest: usize) -> Result<(), NoMemory> {
        let mut kept = Vec::new(self.alloc);
        for ask in &self.asks {
            if ask.0 != guest && ask.1 != guest {
                kept.push(*ask)?;
            }
        }
        self.asks = kept;
        Ok(())
    }

    /// The pair of the guest goes.
    pub fn drop_pair(&mut self, guest: usize) -> Result<(), NoMemory> {
        let mut kept = Vec::new(self.alloc);
        for pair in &self.pairs {
            if pair.0 != guest && pair.1 != guest {
                kept.push(*pair)?;
            }
        }
        self.pairs = kept;
        Ok(())
    }

    /// The guest's seek of that number goes, or all of them; the answer says whether there was one.
    pub fn drop_seeks(&mut self, guest: usize, number: Option<u64>) -> Result<bool, NoMemory> {
        let mut kept = Vec::new(self.alloc);
        for seek in &self.seeks {
            let meant = match number {
                Some(number) => seek.number == number,
                None => true,
            };
            if seek.by != guest || !meant {
                kept.push(*seek)?;
            }
        }
        let dropped = kept.len() < self.seeks.len();
        self.seeks = kept;
        Ok(dropped)
    }

    /// The guest leaves the channel.
    pub fn drop_channel(&mut self, guest: usize, channel: u64) -> Result<(), NoMemory> {
        let mut kept = Vec::new(self.alloc);
        for row in &self.channels {
            if row.0 != guest || row.1 != channel {
                kept.push(*row)?;
            }
        }
        self.channels = kept;
        Ok(())
    }

    /// The name goes off the list.
    pub fn drop_name(&mut self, owner: usize, names: Names, name: usize) -> Result<(), NoMemory> {
        let mut kept = Vec::new(self.alloc);
        for row in &self.listings {
            if row.owner != owner || row.names != names || row.name != name {
                kept.push(*row)?;
            }
        }
        self.listings = kept;
        Ok(())
    }

    /// The variable of the guest is on or off.
    pub fn set(&mut self, guest: usize, wish: Wish, on: bool) -> Result<(), NoMemory> {
        let mut kept = Vec::new(self.alloc);
        for row in &self.refused {
            if row.0 != guest || row.1 != wish {
                kept.push(*row)?;
            }
        }
        if !on {
            kept.push((guest, wish))?;
        }
        self.refused = kept;
        Ok(())
    }
}

/// Whether nobody is named, or this guest.
fn is_or_any(named: Option<usize>, guest: usize) -> bool {
    match named {
        Some(named) => named == guest,
        None => true,
    }
}
