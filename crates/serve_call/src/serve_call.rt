//! The top call that serves players who connect.

ghost use Rattle.std.specs.Prelude.{◌≡◌, ◌≤◌, ◌⊎◌, ◌∷◌, [], ℕ, List, IfSome, IfNone, IfErr, OnOk, Contains};
ghost use Rattle.std.specs.Io.KnownBytes.{Appends};
ghost use Rattle.edge_traits.specs.Calls.{store_of};
ghost use Rattle.edge_traits.specs.Door.{KeepsLinks};
ghost use Rattle.edge_traits.specs.WhereTold.{WhereTold};
ghost use Rattle.edge_traits.specs.Faults.{Rose};
ghost use Rattle.edge_traits.specs.Sink.{AppendsFront};
ghost use Rattle.histories.specs.History.{state};
ghost use Rattle.cmd_job.specs.Jobs.{AsksToServe, OnUsage};
ghost use Rattle.cmd_job.specs.Usage.{usage_line};
ghost use Rattle.lobby_load.specs.BadRows.{IsGoodStore};
ghost use Rattle.lobby_load.specs.Telling.{IsFirstBad, bad_record_line};
ghost use Rattle.one_server.specs.House.{house};
ghost use Rattle.serve_call.specs.ServeEnds.{EndsCall};
ghost use Rattle.serve_call.specs.Opening.{HasServedFrom, IsUnopened};
ghost use Rattle.serve_core.specs.Outside.{sheet_of};
ghost use Rattle.serve_core.specs.Serving.{IsUnused, TellsAgreed};
ghost use Rattle.serve_core.specs.Text.{whole_text};

use cmd_job::{Job, JobFail, read_job, tell_usage};
use cmd_lines::{End, status};
use edge_traits::{Clock, Doorway, Gate, Keeper, Sink};
use hall_core::{Hall, HallPass};
use lobby_load::open_store;
use serve_core::serve_lobby;
use std::alloc::Global;
use std::sync::Wait;
use std::thread::Threads;

/// Serves players who connect, where the words ask for it, and gives the status with which the program ends, and the
/// hall with the pass into which all others were joined. It loads the keeper's store first, and opens the hall with
/// what it loaded; while it serves it has the keeper carry out what the lobby orders to be saved.
///
/// The status is 0 where the door was closed and all was served, 1 where the words don't ask for it, 3 at a fault of
/// writing, 4 at a fault of the keeper at the load or in the last turn of the steward, 5 at a bad record, whose key is
/// written, 6 for want of memory, 8 at a fault of the door, and 9 after 2^31 connections. Of several that hold once a
/// hall was opened the first of 8, 3, 4, 6 and 9 is told. Where the words ask for it, a hall is missing only where the
/// store wasn't loaded or memory didn't suffice to open one. The door is one through which nothing came yet. Where the
/// words don't ask for it the keeper isn't called.
pub fn serve<T, D, C, P, K, G>(
    rt: &T,
    alloc: Global,
    words: &[String],
    door: &mut D,
    clock: &C,
    keeper: &mut P,
    sink: &mut K,
    gate: &G,
) -> (u8, Option<(Hall, HallPass)>)
where
    T: Threads + Wait + Sync,
    D: Doorway,
    C: Clock + Sync,
    P: Keeper,
    K: Sink,
    G: Gate + Sync,
    requires door { IfSome (D.tale door.old) IsUnused }
    ensures hall { IfSome result.1 (λ h. h.1.home ≡ h.0) }
    ensures served { IfSome result.1 (λ h. AsksToServe words.now
        × HasServedFrom (C.shows clock.now) result.0 (D.tale door.new)
        (sheet_of K.written K.faults sink.old) (sheet_of K.written K.faults sink.new)
        (store_of P.table P.faults P.calls keeper.old)
        (store_of P.table P.faults P.calls keeper.new) h.1) }
    ensures table { IfSome result.1 (λ h. IfSome (P.table keeper.old)
        (λ _. TellsAgreed (P.table keeper.new) (state house h.1.opening h.1.seen))) }
    ensures links { WhereTold (D.tale door.old) (D.tale door.new) KeepsLinks }
    ensures untouched { IfNone result.1 (D.tale door.new ≡ D.tale door.old) }
    ensures no_hall { IfNone result.1 (AsksToServe words.now → IsUnopened result.0
        (store_of P.table P.faults P.calls keeper.old)
        (store_of P.table P.faults P.calls keeper.new)
        (sheet_of K.written K.faults sink.old) (sheet_of K.written K.faults sink.new)) }
    ensures usage { result.0 ≡ 1 → ¬ (AsksToServe words.now)
        × Appends (K.written sink.old) (K.written sink.new) usage_line }
    ensures not_asked { ¬ (AsksToServe words.now) → (result.0 ≡ 1) ⊎ ((result.0 ≡ 3) ⊎ (result.0 ≡ 6)) }
    ensures write_fault { result.0 ≡ 3 → Rose (K.faults sink.old) (K.faults sink.new) }
    ensures write_told { (K.faults sink.new ≡ K.faults sink.old) ⊎ ((result.0 ≡ 3) ⊎ (result.0 ≡ 8)) }
    ensures door_fault { result.0 ≡ 8 → Rose (D.faults door.old) (D.faults door.new) }
    ensures keeper_fault { result.0 ≡ 4 → Rose (P.faults keeper.old) (P.faults keeper.new) }
    ensures bad_record { result.0 ≡ 5 → AsksToServe words.now × (key : List ℕ) × IsFirstBad (P.table keeper.old) key
        × Appends (K.written sink.old) (K.written sink.new) (bad_record_line key) }
    ensures good_store { result.0 ≡ 5 → IfSome (P.table keeper.old) (λ table. ¬ (IsGoodStore table)) }
    ensures text { (result.0 ≡ 0) ⊎ (result.0 ≡ 9) → Appends (K.written sink.old) (K.written sink.new) whole_text }
    ensures text_part { IfSome result.1 (λ h. AppendsFront (K.written sink.old) (K.written sink.new) whole_text) }
    ensures usage_part { ¬ (AsksToServe words.now)
        → AppendsFront (K.written sink.old) (K.written sink.new) usage_line }
    ensures complete { AsksToServe words.now → ¬ (Rose (D.faults door.old) (D.faults door.new))
        → ¬ (Rose (K.faults sink.old) (K.faults sink.new)) → ¬ (Rose (P.faults keeper.old) (P.faults keeper.new))
        → Contains (0 ∷ 5 ∷ 6 ∷ 9 ∷ []) result.0 }
    ensures statuses { Contains (0 ∷ 1 ∷ 3 ∷ 4 ∷ 5 ∷ 6 ∷ 8 ∷ 9 ∷ []) result.0 }
    ensures keeper_counted { P.faults keeper.old ≤ P.faults keeper.new }
    ensures keeper_stays { ¬ (AsksToServe words.now) → keeper.new ≡ keeper.old }
{
    match asks_to_serve(alloc, words) {
        Ok(()) => serve_players(rt, alloc, door, clock, keeper, sink, gate),
        Err(JobFail::Usage) => (tell_usage(sink), None),
        Err(JobFail::Memory) => (status(End::Memory), None),
    }
}

/// Whether the words ask to serve; `Usage` where they don't.
fn asks_to_serve(alloc: Global, words: &[String]) -> Result<(), JobFail>
    ensures asks { OnOk result (AsksToServe words.now) }
    ensures usage { IfErr result (λ fail. OnUsage fail (¬ (AsksToServe words.now))) }
{
    match read_job(alloc, words) {
        Ok(Job::Serve { .. }) => Ok(()),
        Ok(_) => Err(JobFail::Usage),
        Err(fail) => Err(fail),
    }
}

/// Serves players who connect, at a hall that opens with what the keeper's store holds.
fn serve_players<T, D, C, P, K, G>(
    rt: &T,
    alloc: Global,
    door: &mut D,
    clock: &C,
    keeper: &mut P,
    sink: &mut K,
    gate: &G,
) -> (u8, Option<(Hall, HallPass)>)
where
    T: Threads + Wait + Sync,
    D: Doorway,
    C: Clock + Sync,
    P: Keeper,
    K: Sink,
    G: Gate + Sync,
    requires door { IfSome (D.tale door.old) IsUnused }
    ensures hall { IfSome result.1 (λ h. h.1.home ≡ h.0) }
    ensures served { IfSome result.1 (λ h. HasServedFrom (C.shows clock.now) result.0 (D.tale door.new)
        (sheet_of K.written K.faults sink.old) (sheet_of K.written K.faults sink.new)
        (store_of P.table P.faults P.calls keeper.old)
        (store_of P.table P.faults P.calls keeper.new) h.1) }
    ensures table { IfSome result.1 (λ h. IfSome (P.table keeper.old)
        (λ _. TellsAgreed (P.table keeper.new) (state house h.1.opening h.1.seen))) }
    ensures links { WhereTold (D.tale door.old) (D.tale door.new) KeepsLinks }
    ensures untouched { IfNone result.1 (D.tale door.new ≡ D.tale door.old) }
    ensures no_hall { IfNone result.1 (IsUnopened result.0
        (store_of P.table P.faults P.calls keeper.old)
        (store_of P.table P.faults P.calls keeper.new)
        (sheet_of K.written K.faults sink.old) (sheet_of K.written K.faults sink.new)) }
    ensures ends { EndsCall result.0 (D.faults door.old) (D.faults door.new)
        (sheet_of K.written K.faults sink.old) (sheet_of K.written K.faults sink.new)
        (store_of P.table P.faults P.calls keeper.old)
        (store_of P.table P.faults P.calls keeper.new) }
    ensures text_part { IfSome result.1 (λ h. AppendsFront (K.written sink.old) (K.written sink.new) whole_text) }
    ensures keeper_counted { P.faults keeper.old ≤ P.faults keeper.new }
{
    match open_store(alloc, keeper, sink) {
        Ok(lobby) => {
            let (end, hall) = serve_lobby(rt, alloc, lobby, door, clock, keeper, sink, gate);
            (end.status(), hall)
        }
        Err(fault) => (fault.status(), None),
    }
}
