//! A turn of the steward, with the hall's first pass, and the last one.

ghost use Rattle.std.specs.Prelude.{◌≡◌, ◌≤◌};
ghost use Rattle.edge_traits.specs.Calls.{store_of};
ghost use Rattle.edge_traits.specs.Faults.{Rose};
ghost use Rattle.serve_turn.specs.Turns.{MadeTurn, TurnsLast, supply_in};

use crate::shared::Shared;
use crate::supply::Supply;
use edge_traits::{Clock, Gate, Keeper};
use hall_core::HallPass;
use one_server::moment_of;
use std::sync::Wait;
use std::thread::Threads;
use steward_core::{ClearingEnd, StewardEnd, end_of_turn, turn_by_halves};

/// Makes a turn of the steward with the pass over the keeper, at the present moment. It says how the turn ended, and
/// whether memory ran out in it.
pub fn turn<T: Threads + Wait, C: Clock, G: Gate, P: Keeper>(
    shared: &Shared<'_, T, C, G>,
    pass: HallPass,
    keeper: &mut P,
) -> (HallPass, StewardEnd, Supply)
    requires here { pass.home ≡ shared.now.hall.now }
    ensures turn { MadeTurn result.1 result.2 (store_of P.table P.faults P.calls keeper.old)
        (store_of P.table P.faults P.calls keeper.new) pass result.0 }
    ensures fault { result.1 ≡ StewardEnd.KeeperFault → Rose (P.faults keeper.old) (P.faults keeper.new) }
    ensures counted { P.faults keeper.old ≤ P.faults keeper.new }
{
    let moment = moment_of(shared.clock.now());
    let mut seat = shared.hall.seat(pass, shared.gate, shared.rt);
    let (cleared, saved) = turn_by_halves(shared.alloc, &mut seat, keeper, moment);
    let end = end_of_turn(cleared, saved);
    (seat.into_pass(), end, supply_in(cleared, end))
}

/// The last turn of the steward, and whether memory ran out in it. The pass looks at the whole history before it and
/// behind it.
pub fn last_turn<T: Threads + Wait, C: Clock, G: Gate, P: Keeper>(
    shared: &Shared<'_, T, C, G>,
    pass: HallPass,
    keeper: &mut P,
) -> (HallPass, StewardEnd, Supply)
    requires here { pass.home ≡ shared.now.hall.now }
    ensures turn { TurnsLast result.1 result.2 (store_of P.table P.faults P.calls keeper.old)
        (store_of P.table P.faults P.calls keeper.new) pass result.0 }
    ensures fault { result.1 ≡ StewardEnd.KeeperFault → Rose (P.faults keeper.old) (P.faults keeper.new) }
    ensures counted { P.faults keeper.old ≤ P.faults keeper.new }
{
    let mut pass = pass;
    shared.hall.look(&mut pass);
    let (mut pass, end, made) = turn(shared, pass, keeper);
    shared.hall.look(&mut pass);
    (pass, end, made)
}

/// Whether memory ran out in a turn whose first half ended like this, and the whole of it like that.
fn supply_in(cleared: ClearingEnd, end: StewardEnd) -> Supply
    ensures { result ≡ supply_in cleared end }
{
    match (cleared, end) {
        (ClearingEnd::Memory, _) => Supply::Short,
        (ClearingEnd::Done, StewardEnd::Memory) => Supply::Short,
        (ClearingEnd::Done, _) => Supply::Enough,
    }
}
