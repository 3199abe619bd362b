//! Sittings in the hall.

ghost use Rattle.std.specs.Prelude.{◌≡◌};
ghost use Rattle.one_server.specs.Whole.{IsOpening};

use crate::store::evenings::{Place, Seats, Sitting, wrong_at};
use crate::store::talks::{Player, Row, answers};
use clock_ledger::Moment;
use fics_words::Fail;
use hall_core::{Hall, HallPass, HallSeat};
use lobby_load::load;
use lobby_state::Lobby;
use memory_edges::MemKeeper;
use session_core::Session;
use std::alloc::Global;
use std::sync::Wait;
use steward_core::{StewardEnd, steward_turn};
use turn_chain::OpenGate;

/// The seats of the steward and of four players at a hall.
#[derive(Drop)]
struct HallSeats<'a, R: Wait> {
    steward: HallSeat<'a, OpenGate, R>,
    ann: HallSeat<'a, OpenGate, R>,
    ben: HallSeat<'a, OpenGate, R>,
    cat: HallSeat<'a, OpenGate, R>,
    dan: HallSeat<'a, OpenGate, R>,
}

impl<R: Wait> Seats for HallSeats<'_, R> {
    fn answers(&mut self, alloc: Global, session: &mut Session, row: &Row) -> Result<bool, Fail> {
        match row.0 {
            Player::Ann => answers(alloc, &mut self.ann, session, row),
            Player::Ben => answers(alloc, &mut self.ben, session, row),
            Player::Cat => answers(alloc, &mut self.cat, session, row),
            Player::Dan => answers(alloc, &mut self.dan, session, row),
        }
    }

    fn turn(&mut self, alloc: Global, keeper: &mut MemKeeper, moment: u32) -> StewardEnd {
        steward_turn(
            alloc,
            &mut self.steward,
            keeper,
            Moment::new(u64::from(moment)),
        )
    }
}

/// Where the sitting goes otherwise in a hall that opens with what the keeper holds, if anywhere.
pub fn in_a_hall<R: Wait>(
    rt: &R,
    alloc: Global,
    keeper: &mut MemKeeper,
    sitting: &Sitting,
) -> Result<Option<Place>, Fail> {
    match load(alloc, keeper) {
        Ok(lobby) => opened_with(rt, alloc, lobby, keeper, sitting),
        Err(_) => Ok(Some(Place::Loading)),
    }
}

/// Where it goes otherwise in a hall that opens with this lobby, if anywhere.
fn opened_with<R: Wait>(
    rt: &R,
    alloc: Global,
    lobby: Lobby,
    keeper: &mut MemKeeper,
    sitting: &Sitting,
) -> Result<Option<Place>, Fail>
    requires { IsOpening lobby }
{
    let (hall, first) = Hall::open(alloc, lobby)?;
    let gate = OpenGate::new();
    let mut seats = seats(rt, &hall, first, &gate);
    wrong_at(alloc, &mut seats, keeper, sitting)
}

/// The seats at a hall. The steward has the first pass.
fn seats<'a, R: Wait>(
    rt: &'a R,
    hall: &'a Hall,
    mut first: HallPass,
    gate: &'a OpenGate,
) -> HallSeats<'a, R>
    requires here { first.home ≡ hall.now }
    requires first { first.number ≡ 0 }
    requires whole { first.splits ≡ 0 }
{
    let ann = hall.split(&mut first);
    let ben = hall.split(&mut first);
    let cat = hall.split(&mut first);
    let dan = hall.split(&mut first);
    HallSeats {
        steward: hall.seat(first, gate, rt),
        ann: hall.seat(ann, gate, rt),
        ben: hall.seat(ben, gate, rt),
        cat: hall.seat(cat, gate, rt),
        dan: hall.seat(dan, gate, rt),
    }
}
