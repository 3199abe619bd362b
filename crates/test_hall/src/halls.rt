//! Halls that open with an empty lobby, and the seats of two players there.

ghost use Rattle.std.specs.Prelude.{IfOk, ◌≡◌};
ghost use Rattle.hall_core.specs.Passes.{first_pass};
ghost use Rattle.lobby_state.specs.Lobby.{opening};
ghost use Rattle.one_server.specs.Whole.{opened_server};

use hall_core::{Hall, HallPass, HallSeat};
use lobby_state::Lobby;
use memory::NoMemory;
use std::alloc::Global;
use std::sync::Wait;
use turn_chain::OpenGate;

/// A hall with an empty lobby, and its first pass.
#[tactic(auto, using(one_server::proofs::Opens::opening_is))]
pub fn hall(alloc: Global) -> Result<(Hall, HallPass), NoMemory>
    ensures { IfOk result (λ t. t.1 ≡ first_pass t.0 (opened_server opening)) }
{
    Hall::open(alloc, Lobby::new(alloc)?)
}

/// The seats of two players at a hall.
pub fn two_seats<'a, R: Wait>(
    rt: &'a R,
    hall: &'a Hall,
    mut first: HallPass,
    gate: &'a OpenGate,
) -> (HallSeat<'a, OpenGate, R>, HallSeat<'a, OpenGate, R>)
    requires here { first.home ≡ hall.now }
    requires first { first.number ≡ 0 }
    requires whole { first.splits ≡ 0 }
{
    let one = hall.split(&mut first);
    let two = hall.split(&mut first);
    (hall.seat(one, gate, rt), hall.seat(two, gate, rt))
}

/// The passes of four players at a hall.
pub fn four_passes(hall: &Hall, mut first: HallPass) -> (HallPass, HallPass, HallPass, HallPass)
    requires here { first.home ≡ hall.now }
    requires first { first.number ≡ 0 }
    requires whole { first.splits ≡ 0 }
    ensures one { result.0.home ≡ hall.now }
    ensures two { result.1.home ≡ hall.now }
    ensures three { result.2.home ≡ hall.now }
    ensures four { result.3.home ≡ hall.now }
{
    let one = hall.split(&mut first);
    let two = hall.split(&mut first);
    let three = hall.split(&mut first);
    let four = hall.split(&mut first);
    (one, two, three, four)
}
