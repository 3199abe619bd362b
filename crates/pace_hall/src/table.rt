//! Tables: two players who make their acts somewhere.

use chess_model::Colour;
use clock_ledger::Moment;
use hall_core::HallSeat;
use memory::NoMemory;
use one_server::{Act, OneServer, Reply, answered};
use std::alloc::Global;
use std::sync::Wait;
use turn_chain::OpenGate;

/// Two players who make their acts somewhere.
pub trait Table {
    ghost use Rattle.one_server.specs.Acts.{FitsAct};

    /// Makes an act of the player with this colour.
    fn run(
        &mut self,
        alloc: Global,
        colour: Colour,
        moment: Moment,
        act: Act,
    ) -> Result<Reply, NoMemory>
        requires { FitsAct act };
}

/// Two players at the server of one thread.
#[derive(Drop)]
pub struct ServerTable<'a> {
    pub server: &'a mut OneServer,
    /// White's session.
    pub white: u32,
    /// Black's session.
    pub black: u32,
}

impl Table for ServerTable<'_> {
    fn run(
        &mut self,
        _alloc: Global,
        colour: Colour,
        moment: Moment,
        act: Act,
    ) -> Result<Reply, NoMemory> {
        let session = match colour {
            Colour::White => self.white,
            Colour::Black => self.black,
        };
        self.server.run(session, moment.millis(), act)
    }
}

/// Two players at a hall.
#[derive(Drop)]
pub struct HallTable<'a, R: Wait> {
    pub white: HallSeat<'a, OpenGate, R>,
    pub black: HallSeat<'a, OpenGate, R>,
}

impl<R: Wait> Table for HallTable<'_, R> {
    fn run(
        &mut self,
        alloc: Global,
        colour: Colour,
        moment: Moment,
        act: Act,
    ) -> Result<Reply, NoMemory> {
        match colour {
            Colour::White => answered(&mut self.white, alloc, moment, act),
            Colour::Black => answered(&mut self.black, alloc, moment, act),
        }
    }
}
