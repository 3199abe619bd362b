//! The parts of the server of one thread, and the step of an act on them: each act is lent its own parts alone, as a
//! hall lends them.
ghost use Rattle.std.specs.Prelude.{◌≡◌, ◌∷◌, OnOk, OnErr, Some, IfOk, length, map, slice_get};
ghost use Rattle.histories.specs.Core.{reply as reply_of, after};
ghost use Rattle.lobby_state.specs.Desks.{desks as desk_count};
ghost use Rattle.one_server.specs.declared.part.Part.TheVariants.{Desk as ADesk};
ghost use Rattle.one_server.specs.Acts.{FitsAct, IsEvent, first_part};
ghost use Rattle.one_server.specs.House.{house};
ghost use Rattle.one_server.specs.Whole.{IsWhole, vacant_from};

use crate::act::{Act, Timed};
use crate::lent::{alone, first_part, second_part, together};
use crate::part::Part;
use crate::reply::Reply;
use collections::Listed;
use fics_words::DeskNumber;
use linked_desk::Desk;
use lobby_state::DESKS;
use memory::NoMemory;
use std::alloc::Global;

/// The desks 1 to 128, all of them vacant.
#[tactic(auto, using(crate::proofs::Serving::vacant_push))]
pub(crate) fn vacant_desks(alloc: Global) -> Result<Listed<Part>, NoMemory>
    ensures { IfOk result (λ desks. desks ≡ map ADesk (vacant_from 1 desk_count)) }
{
    let mut desks = Listed::new(alloc);
    for slot in 0..DESKS {
        desks.push(Part::Desk(Desk::vacant(DeskNumber::new(slot as u8 + 1))))?;
    }
    Ok(desks)
}

/// The part that an act needs first.
pub(crate) fn first_of<'a>(lobby: &'a Part, desks: &'a Listed<Part>, act: &Act) -> &'a Part
    requires fits { FitsAct act.now }
    requires count { length desks.now ≡ desk_count }
    ensures { slice_get (lobby.now ∷ desks.now) (first_part act.now) ≡ Some result.now }
{
    match act {
        Act::Desk { desk, .. } => &desks.as_slice()[desk.get() as usize - 1],
        _ => lobby,
    }
}

/// Makes an act on the parts that it needs, and writes its reply. Running out of memory changes nothing but what stands
/// in place of the reply.
pub(crate) fn step(
    alloc: Global,
    lobby: &mut Part,
    desks: &mut Listed<Part>,
    session: u32,
    timed: &Timed,
    reply: &mut Reply,
) -> Result<(), NoMemory>
    requires event { IsEvent timed.now }
    requires whole { IsWhole (lobby.old ∷ desks.old) }
    ensures reply { OnOk result (reply_of house (lobby.old ∷ desks.old) session timed.now ≡ Some reply.new) }
    ensures after { OnOk result (after house (lobby.old ∷ desks.old) session timed.now ≡ lobby.new ∷ desks.new) }
    ensures err_lobby { OnErr result (lobby.new ≡ lobby.old) }
    ensures err_desks { OnErr result (desks.new ≡ desks.old) }
{
    let first = first_part(&timed.act);
    if first != 0 {
        let desk = desks.item_mut(DeskNumber::new(first).place());
        return alone(desk, session, timed, reply);
    }
    match second_part(lobby, session, &timed.act) {
        None => alone(lobby, session, timed, reply),
        Some(number) => {
            let desk = desks.item_mut(DeskNumber::new(number).place());
            together(alloc, lobby, desk, session, timed, reply)
        }
    }
}
