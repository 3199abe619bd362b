//! Serving, from the opening of the hall to the last turn of the steward.

ghost use Rattle.std.specs.Prelude.{◌≡◌, ◌≤◌, IfSome, IfNone, List};
ghost use Rattle.std.specs.Io.KnownBytes.{Keeps};
ghost use Rattle.edge_traits.specs.Calls.{store_of};
ghost use Rattle.edge_traits.specs.Door.{KeepsLinks};
ghost use Rattle.edge_traits.specs.WhereTold.{WhereTold};
ghost use Rattle.edge_traits.specs.Faults.{Rose};
ghost use Rattle.edge_traits.specs.Sink.{OnWriteFailed, UnlessWriteFailed, Wrote};
ghost use Rattle.one_server.specs.declared.part.Part.{Part};
ghost use Rattle.one_server.specs.Whole.{IsOpening, IsWhole, opened_server};
ghost use Rattle.hall_core.specs.Passes.{first_pass, pass_noted};
ghost use Rattle.serve_core.specs.Ends.{EndsServing};
ghost use Rattle.serve_core.specs.Outside.{sheet_of};
ghost use Rattle.serve_core.specs.Serving.{HasServedAll, IsUnused};
ghost use Rattle.serve_core.specs.Text.{closed_text, ready_text};
ghost use Rattle.serve_turn.specs.Stopping.{is_short};
ghost use Rattle.serve_turn.specs.declared.end.ServeEnd.{ServeEnd};

use crate::hosting::host_links;
use edge_traits::{Clock, Doorway, Gate, Keeper, Sent, Sink};
use hall_core::{Hall, HallPass};
use lobby_state::{Lobby, lobbies_are_well_formed};
use one_server::every_state_agrees;
use serve_turn::{DoorEnd, ServeEnd, Shared, Supply, end_of, is_short, last_turn};
use std::alloc::Global;
use std::sync::Wait;
use std::thread::Threads;

/// What is written once the hall is open.
const READY: &[u8] = b"ready\n";

/// What is written once all is served.
const CLOSED: &[u8] = b"closed\n";

/// Serves connections: opens a hall with this lobby, writes `ready`, takes links from the door and serves each with a
/// session of its own, and makes a turn of the steward over the keeper at each Quiet of the door; once the door is
/// closed or has failed or 2^31 links came, it waits for all, makes a last turn of the steward and writes `closed`. It
/// gives back the hall with the pass into which all others were joined; none only where memory didn't suffice to open
/// it.
pub fn serve_lobby<T, D, C, P, K, G>(
    rt: &T,
    alloc: Global,
    lobby: Lobby,
    door: &mut D,
    clock: &C,
    keeper: &mut P,
    sink: &mut K,
    gate: &G,
) -> (ServeEnd, Option<(Hall, HallPass)>)
where
    T: Threads + Wait + Sync,
    D: Doorway,
    C: Clock + Sync,
    P: Keeper,
    K: Sink,
    G: Gate + Sync,
    requires opening { IsOpening lobby }
    requires door { IfSome (D.tale door.old) IsUnused }
    ensures hall { IfSome result.1 (λ h. h.1.home ≡ h.0) }
    ensures served { IfSome result.1 (λ h. HasServedAll (C.shows clock.now) (opened_server lobby) result.0
        (D.tale door.new)
        (sheet_of K.written K.faults sink.old) (sheet_of K.written K.faults sink.new)
        (store_of P.table P.faults P.calls keeper.old)
        (store_of P.table P.faults P.calls keeper.new) h.1) }
    ensures links { WhereTold (D.tale door.old) (D.tale door.new) KeepsLinks }
    ensures no_hall { IfNone result.1 ((result.0 ≡ ServeEnd.Memory) × Keeps (K.written sink.old) (K.written sink.new)) }
    ensures untouched { IfNone result.1 (D.tale door.new ≡ D.tale door.old) }
    ensures keeper_stays { IfNone result.1 (keeper.new ≡ keeper.old) }
    ensures ends { EndsServing result.0 (D.faults door.old) (D.faults door.new)
        (sheet_of K.written K.faults sink.old) (sheet_of K.written K.faults sink.new)
        (store_of P.table P.faults P.calls keeper.old)
        (store_of P.table P.faults P.calls keeper.new) }
    ensures keeper_counted { P.faults keeper.old ≤ P.faults keeper.new }
{
    lobbies_are_well_formed(&lobby);
    every_state_agrees();
    let Ok((hall, pass)) = Hall::open(alloc, lobby) else {
        return (ServeEnd::Memory, None);
    };
    let shared = Shared {
        rt,
        alloc,
        hall: &hall,
        clock,
        gate,
    };
    let (pass, end) = serve_hall(&shared, pass, door, keeper, sink);
    (end, Some((hall, pass)))
}

/// Serves at a hall that was opened just now, and looks at the history at the end.
fn serve_hall<T, D, C, P, K, G>(
    shared: &Shared<'_, T, C, G>,
    pass: HallPass,
    door: &mut D,
    keeper: &mut P,
    sink: &mut K,
) -> (HallPass, ServeEnd)
where
    T: Threads + Wait + Sync,
    D: Doorway,
    C: Clock + Sync,
    P: Keeper,
    K: Sink,
    G: Gate + Sync,
    requires first { (opening : List Part) × (pass ≡ first_pass shared.now.hall.now opening) }
    requires whole { IsWhole pass.opening }
    requires door { IfSome (D.tale door.old) IsUnused }
    ensures hall { result.0.home ≡ shared.now.hall.now }
    ensures served { HasServedAll (C.shows shared.now.clock.now) pass.opening result.1 (D.tale door.new)
        (sheet_of K.written K.faults sink.old) (sheet_of K.written K.faults sink.new)
        (store_of P.table P.faults P.calls keeper.old)
        (store_of P.table P.faults P.calls keeper.new) result.0 }
    ensures links { WhereTold (D.tale door.old) (D.tale door.new) KeepsLinks }
    ensures ends { EndsServing result.1 (D.faults door.old) (D.faults door.new)
        (sheet_of K.written K.faults sink.old) (sheet_of K.written K.faults sink.new)
        (store_of P.table P.faults P.calls keeper.old)
        (store_of P.table P.faults P.calls keeper.new) }
    ensures keeper_counted { P.faults keeper.old ≤ P.faults keeper.new }
{
    match say_ready(sink) {
        Sent::All => {
            let hosted = host_links(shared, pass, door, keeper);
            let (pass, last, made) = last_turn(shared, hosted.pass, keeper);
            let sent = say_closed(sink);
            let supply = made.then(hosted.supply);
            let end = end_of(hosted.end, sent, last, supply);
            (noted(pass, supply, sent), end)
        }
        Sent::Failed => {
            let (pass, _last, made) = last_turn(shared, pass, keeper);
            (noted(pass, made, Sent::Failed), ServeEnd::WriteFault)
        }
        Sent::Memory => {
            let (pass, last, made) = last_turn(shared, pass, keeper);
            let end = end_of(DoorEnd::Closed, Sent::Memory, last, made);
            (noted(pass, made, Sent::Memory), end)
        }
    }
}

/// The pass, on which it is noted whether memory ran out: before the last write, or at it, which the sink answered so.
fn noted(pass: HallPass, supply: Supply, sent: Sent) -> HallPass
    ensures { result ≡ pass_noted (is_short supply sent) pass }
{
    let mut pass = pass;
    pass.note_short(is_short(supply, sent));
    pass
}

/// Writes that the hall is open.
fn say_ready<K: Sink>(sink: &mut K) -> Sent
    ensures wrote { Wrote (K.written sink.old) (K.written sink.new) ready_text result }
    ensures cause { OnWriteFailed result (Rose (K.faults sink.old) (K.faults sink.new)) }
    ensures calm { UnlessWriteFailed result (K.faults sink.new ≡ K.faults sink.old) }
    ensures counted { K.faults sink.old ≤ K.faults sink.new }
{
    sink.write(READY)
}

/// Writes that all is served.
fn say_closed<K: Sink>(sink: &mut K) -> Sent
    ensures wrote { Wrote (K.written sink.old) (K.written sink.new) closed_text result }
    ensures cause { OnWriteFailed result (Rose (K.faults sink.old) (K.faults sink.new)) }
    ensures calm { UnlessWriteFailed result (K.faults sink.new ≡ K.faults sink.old) }
    ensures counted { K.faults sink.old ≤ K.faults sink.new }
{
    sink.write(CLOSED)
}
