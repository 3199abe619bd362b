//! Sittings at the server of one thread.

ghost use Rattle.one_server.specs.Whole.{IsOpening};

use crate::store::evenings::{Place, Seats, Sitting, wrong_at};
use crate::store::talks::{Row, answers};
use clock_ledger::Moment;
use fics_words::Fail;
use lobby_load::load;
use lobby_state::Lobby;
use memory_edges::MemKeeper;
use one_server::OneServer;
use session_core::Session;
use std::alloc::Global;
use steward_core::{StewardEnd, steward_turn};

impl Seats for OneServer {
    fn answers(&mut self, alloc: Global, session: &mut Session, row: &Row) -> Result<bool, Fail> {
        answers(alloc, &mut self.seat(row.0.number()), session, row)
    }

    fn turn(&mut self, alloc: Global, keeper: &mut MemKeeper, moment: u32) -> StewardEnd {
        steward_turn(
            alloc,
            &mut self.seat(0),
            keeper,
            Moment::new(u64::from(moment)),
        )
    }
}

/// Where the sitting goes otherwise at a server that opens with what the keeper holds, if anywhere.
pub fn at_one_server(
    alloc: Global,
    keeper: &mut MemKeeper,
    sitting: &Sitting,
) -> Result<Option<Place>, Fail> {
    match load(alloc, keeper) {
        Ok(lobby) => opened_with(alloc, lobby, keeper, sitting),
        Err(_) => Ok(Some(Place::Loading)),
    }
}

/// Where it goes otherwise at a server that opens with this lobby, if anywhere.
fn opened_with(
    alloc: Global,
    lobby: Lobby,
    keeper: &mut MemKeeper,
    sitting: &Sitting,
) -> Result<Option<Place>, Fail>
    requires { IsOpening lobby }
{
    let mut server = OneServer::new(alloc, lobby)?;
    wrong_at(alloc, &mut server, keeper, sitting)
}
