//! What two players do at their table.

ghost use Rattle.linked_desk.specs.Acts.{FitsDeskAct};

use crate::job::What;
use crate::table::Table;
use chess_model::{Colour, MoveWord, Square, Terms, Variant};
use clock_ledger::Moment;
use fics_words::{DeskNumber, Fail, Handle, Refusal};
use linked_desk::DeskAct;
use lobby_state::{LobbyAct, PairAct};
use one_server::Act;
use std::alloc::Global;

/// The desk of a table, by the table's number from 0. The game there has the desk's number for its serial.
pub fn desk_of(table: u8) -> DeskNumber {
    DeskNumber::new(table % 128 + 1)
}

/// The two players enter and start a game, at the least free desk.
pub fn sit_down<T: Table>(alloc: Global, table: &mut T, number: u8) -> Result<(), Fail> {
    let white = name_of(b'W', number)?;
    let black = name_of(b'B', number)?;
    enter(alloc, table, Colour::White, white)?;
    enter(alloc, table, Colour::Black, black)?;
    let terms = Terms {
        minutes: 600,
        increment: 0,
        variant: Variant::Chess,
        colour: Some(Colour::White),
    };
    let to = black.key();
    let act = Act::Lobby(LobbyAct::Match { to, terms });
    let _done = table.run(alloc, Colour::White, Moment::new(0), act)?;
    let act = Act::Pair(PairAct::Accept(None));
    let _started = table.run(alloc, Colour::Black, Moment::new(0), act)?;
    Ok(())
}

fn enter<T: Table>(alloc: Global, table: &mut T, colour: Colour, name: Handle) -> Result<(), Fail> {
    let act = Act::Lobby(LobbyAct::Enter {
        name: Some(name),
        digest: None,
    });
    let _entered = table.run(alloc, colour, Moment::new(0), act)?;
    Ok(())
}

/// A name of three letters, by a number.
fn name_of(first: u8, number: u8) -> Result<Handle, Fail> {
    let letters = [first, b'a' + number / 26, b'a' + number % 26];
    match Handle::read(&letters) {
        Some(handle) => Ok(handle),
        None => Err(Fail::Refused(Refusal::BadHandle)),
    }
}

/// The round of this number at a table, at this desk.
pub fn round<T: Table>(
    alloc: Global,
    table: &mut T,
    what: What,
    desk: DeskNumber,
    number: u32,
) -> Result<(), Fail> {
    match what {
        What::Looks => {
            look(alloc, table, Colour::White, desk, number)?;
            look(alloc, table, Colour::Black, desk, number)
        }
        What::Moves => {
            play(alloc, table, Colour::White, desk, number)?;
            play(alloc, table, Colour::Black, desk, number)
        }
    }
}

/// How many acts a round has.
pub fn acts_of(what: What) -> u64 {
    match what {
        What::Looks => 4,
        What::Moves => 2,
    }
}

fn look<T: Table>(
    alloc: Global,
    table: &mut T,
    colour: Colour,
    desk: DeskNumber,
    number: u32,
) -> Result<(), Fail> {
    at_desk(alloc, table, colour, desk, number, DeskAct::Flag)?;
    at_desk(alloc, table, colour, desk, number, DeskAct::Fetch)
}

fn play<T: Table>(
    alloc: Global,
    table: &mut T,
    colour: Colour,
    desk: DeskNumber,
    number: u32,
) -> Result<(), Fail> {
    let (home, out) = match colour {
        Colour::White => (6, 21),
        Colour::Black => (62, 45),
    };
    let word = if number % 2 == 0 {
        word(home, out)?
    } else {
        word(out, home)?
    };
    at_desk(
        alloc,
        table,
        colour,
        desk,
        number,
        DeskAct::Move { word, stamp: None },
    )
}

fn at_desk<T: Table>(
    alloc: Global,
    table: &mut T,
    colour: Colour,
    desk: DeskNumber,
    number: u32,
    act: DeskAct,
) -> Result<(), Fail>
    requires { FitsDeskAct act }
{
    let act = Act::Desk {
        desk,
        serial: u64::from(desk.get()),
        act,
    };
    let _reply = table.run(alloc, colour, Moment::new(u64::from(number)), act)?;
    Ok(())
}

fn word(from: u8, to: u8) -> Result<MoveWord, Fail> {
    Ok(MoveWord::Coordinate {
        from: square(from)?,
        to: square(to)?,
        promo: None,
    })
}

fn square(number: u8) -> Result<Square, Fail> {
    match Square::of(number) {
        Some(square) => Ok(square),
        None => Err(Fail::Refused(Refusal::BadArguments)),
    }
}
