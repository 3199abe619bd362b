//! The seeks that stand.
ghost use Rattle.std.specs.Prelude.{◌≡◌, ◌+◌, ◌<◌, ◌≤◌, length};
ghost use Rattle.std.specs.List.{count_by, filter};
ghost use Rattle.seek_match.specs.Seeks.{is_by, next_number};

use crate::seek::{NotBy, Seek};
use chess_model::Terms;
use collections::Predicate;
use fics_words::{Fail, Refusal};
use std::alloc::Global;
use std::marker::Model;
use tables::Table;

/// The most seeks of a player.
const MOST: usize = 3;

/// The seeks that stand, in the order of their numbers. Contracts see the list of them.
#[derive(Drop)]
pub struct SeekBook {
    pub(crate) rows: Table<u16, Seek>,
}

impl Model for SeekBook {
    ghost use Rattle.std.specs.Prelude.{List};
    ghost use Rattle.seek_match.specs.declared.seek.Seek.{Seek};
    ghost use Rattle.seek_match.specs.Seeks.{AreSeeks};

    ghost Value = { List Seek };

    ghost view = { λ book. book.rows };

    ghost invariant = { λ book. AreSeeks book.rows };
}

impl SeekBook {
    ghost use Rattle.std.specs.Prelude.{◌≡◌, ◌<◌, [], length};
    ghost use Rattle.std.specs.List.{filter};
    ghost use Rattle.fics_words.specs.Effect.{Takes, answer_of, state_of};
    ghost use Rattle.seek_match.specs.Seeks.{AreSeeks, posting, withdrawing, seek_of, without_number, without_seeks_of};

    /// No seeks; takes no memory.
    pub fn new(alloc: Global) -> SeekBook
        ensures { result ≡ [] }
    {
        SeekBook {
            rows: Table::new(alloc),
        }
    }

    /// Makes a seek of this player on these terms, under the least positive number that isn't in use, and gives the
    /// number. Refuses with `SeekFull` where the player has 3 seeks.
    pub fn post(&mut self, by: u32, terms: Terms) -> Result<u16, Fail>
        requires { length self.old < 65535 }
        ensures { Takes (posting self.old by terms) self.old self.new result }
    {
        if count_by(self.rows.as_slice(), by, None) >= MOST {
            return Err(Fail::Refused(Refusal::SeekFull));
        }
        let number = next_number(self.rows.as_slice());
        self.rows
            .insert(number as usize - 1, Seek { number, by, terms })?;
        Ok(number)
    }

    /// Takes back the seek that was made last, under this number.
    pub fn take_back(&mut self, number: u16)
        ensures { self.new ≡ without_number number self.old }
    {
        self.rows.remove(number);
        self.rows.shrink();
    }

    /// The seek of that number, if there is one.
    pub fn get(&self, number: u16) -> Option<Seek>
        ensures { result ≡ seek_of self.now number }
    {
        self.rows.get(number).copied()
    }

    /// Takes away this player's seek of that number, or without a number all seeks of this player, and gives how many
    /// it took away. Refuses with `NoSuchSeek` where there is none.
    pub fn remove(&mut self, by: u32, number: Option<u16>) -> Result<u16, Refusal>
        ensures answer { result ≡ answer_of (withdrawing self.old by number) }
        ensures after { self.new ≡ state_of self.old (withdrawing self.old by number) }
    {
        let count = count_by(self.rows.as_slice(), by, number);
        if count == 0 {
            return Err(Refusal::NoSuchSeek);
        }
        keep_seeks(&mut self.rows, &NotBy { by, number });
        Ok(count as u16)
    }

    /// Takes away all seeks of this player. It takes no memory and is never refused.
    pub fn forget(&mut self, who: u32)
        ensures { self.new ≡ without_seeks_of who self.old }
    {
        self.keep(&NotBy {
            by: who,
            number: None,
        });
    }

    /// Keeps the seeks that pass `test`, in their order. It takes no memory and is never refused.
    pub fn keep<P: Predicate<Seek>>(&mut self, test: &P)
        ensures { self.new ≡ filter (P.passes test.now) self.old }
    {
        keep_seeks(&mut self.rows, test);
    }

    /// The seeks, in the order of their numbers.
    pub fn rows(&self) -> &[Seek]
        ensures rows { result.now ≡ self.now }
        ensures order { AreSeeks self.now }
    {
        self.rows.as_slice()
    }
}

/// How many of these are by this player, and have the number, if one is given.
fn count_by(seeks: &[Seek], by: u32, number: Option<u16>) -> usize
    ensures { result ≡ count_by (is_by by number) seeks.now }
{
    seeks.iter().filter(|seek| seek.is_by(by, number)).count()
}

/// The least positive number that none of these seeks, in the order of their numbers, has.
fn next_number(seeks: &[Seek]) -> u16
    requires { length seeks.now < 65535 }
    ensures number { result ≡ next_number seeks.now }
    ensures positive { 0 < result }
    ensures within { result ≤ length seeks.now + 1 }
{
    let mut number = 1;
    for seek in seeks {
        if seek.number != number {
            return number;
        }
        number += 1;
    }
    number
}

/// Keeps the seeks that pass `test`. A table that is left empty gives its memory back.
fn keep_seeks<P: Predicate<Seek>>(seeks: &mut Table<u16, Seek>, test: &P)
    ensures { seeks.new ≡ filter (P.passes test.now) seeks.old }
{
    seeks.retain(test);
    seeks.shrink();
}
