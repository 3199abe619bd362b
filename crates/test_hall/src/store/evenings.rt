//! Evenings: one or more sittings of four players, each at a new server that opens with what the last one saved.

use crate::store::halls::in_a_hall;
use crate::store::one_thread::at_one_server;
use crate::store::talks::{Player, Row};
use fics_words::Fail;
use memory_edges::MemKeeper;
use session_core::Session;
use std::alloc::Global;
use std::sync::Wait;
use steward_core::StewardEnd;
use test_steps::first_wrong;

/// A sitting at one server. Its rows are answered as they say; behind them the steward makes a turn at this moment in
/// milliseconds, which carries out so many save orders; and the keeper holds so many pairs then.
pub struct Sitting {
    pub rows: &'static [Row],
    pub turn: u32,
    pub saved: u32,
    pub held: usize,
}

/// Which server the sittings are at.
#[derive(Clone, Copy)]
pub enum House {
    OneThread,
    Hall,
}

/// Where a sitting first goes otherwise.
#[derive(Clone, Copy, Debug, PartialEq)]
pub enum Place {
    Loading,
    Row(usize),
    Turn,
    Held,
}

/// A server at whose seats the players and the steward make their acts.
pub trait Seats {
    /// Whether the player's session writes at its seat what the row says.
    fn answers(&mut self, alloc: Global, session: &mut Session, row: &Row) -> Result<bool, Fail>;

    /// How the steward's turn at this moment ends.
    fn turn(&mut self, alloc: Global, keeper: &mut MemKeeper, moment: u32) -> StewardEnd;
}

/// The sessions of the four.
#[derive(Drop)]
struct Players {
    ann: Session,
    ben: Session,
    cat: Session,
    dan: Session,
}

/// The number of the first sitting that goes otherwise, and where, if one does.
pub fn first_failing<R: Wait>(
    rt: &R,
    alloc: Global,
    house: House,
    evening: &[Sitting],
) -> Result<Option<(usize, Place)>, Fail> {
    let mut keeper = MemKeeper::new(alloc, Vec::new(alloc));
    for (number, sitting) in evening.iter().enumerate() {
        let wrong = match house {
            House::OneThread => at_one_server(alloc, &mut keeper, sitting)?,
            House::Hall => in_a_hall(rt, alloc, &mut keeper, sitting)?,
        };
        if let Some(place) = wrong {
            return Ok(Some((number, place)));
        }
    }
    Ok(None)
}

/// Where the sitting goes otherwise at these seats, if anywhere.
pub fn wrong_at<S: Seats>(
    alloc: Global,
    seats: &mut S,
    keeper: &mut MemKeeper,
    sitting: &Sitting,
) -> Result<Option<Place>, Fail> {
    if let Some(row) = first_wrong_row(alloc, seats, sitting.rows)? {
        return Ok(Some(Place::Row(row)));
    }
    Ok(wrong_turn(alloc, seats, keeper, sitting))
}

/// Where the steward's turn goes otherwise, if anywhere.
fn wrong_turn<S: Seats>(
    alloc: Global,
    seats: &mut S,
    keeper: &mut MemKeeper,
    sitting: &Sitting,
) -> Option<Place> {
    let StewardEnd::Done(saved) = seats.turn(alloc, keeper, sitting.turn) else {
        return Some(Place::Turn);
    };
    if saved != sitting.saved {
        return Some(Place::Turn);
    }
    if keeper.pairs().len() != sitting.held {
        return Some(Place::Held);
    }
    None
}

/// The number of the first row that is answered otherwise, if one is.
fn first_wrong_row<S: Seats>(
    alloc: Global,
    seats: &mut S,
    rows: &[Row],
) -> Result<Option<usize>, Fail> {
    let mut players = Players {
        ann: Session::new(alloc),
        ben: Session::new(alloc),
        cat: Session::new(alloc),
        dan: Session::new(alloc),
    };
    first_wrong_of(alloc, seats, &mut players, rows)
}

fn first_wrong_of<S: Seats>(
    alloc: Global,
    seats: &mut S,
    players: &mut Players,
    rows: &[Row],
) -> Result<Option<usize>, Fail> {
    Ok(first_wrong!(rows, |row| is_answered(alloc, seats, players, row)?))
}

/// Whether the player of a row is answered as the row says.
fn is_answered<S: Seats>(
    alloc: Global,
    seats: &mut S,
    players: &mut Players,
    row: &Row,
) -> Result<bool, Fail> {
    match row.0 {
        Player::Ann => seats.answers(alloc, &mut players.ann, row),
        Player::Ben => seats.answers(alloc, &mut players.ben, row),
        Player::Cat => seats.answers(alloc, &mut players.cat, row),
        Player::Dan => seats.answers(alloc, &mut players.dan, row),
    }
}
