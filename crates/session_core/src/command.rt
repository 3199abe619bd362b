//! How a session begins to carry out a command, by the way that it goes.
ghost use Rattle.std.specs.Prelude.{◌≡◌, IfOk, false, true};
ghost use Rattle.session_core.specs.Memory.{has_entered};
ghost use Rattle.session_core.specs.Remembering.{ToldNothing};
ghost use Rattle.session_core.specs.Session.{way_course};
ghost use Rattle.session_core.specs.Stages.{FitsStamp, FitsWay, IsPrepared, Settles, first_course, way_asks_places};

use crate::first::First;
use crate::next::Next;
use crate::own_commands::carry_out;
use crate::session_memory::SessionMemory;
use crate::stage::{Stage, ask_round, ask_where};
use crate::watching::{observe, remark, unobserve};
use crate::way::Way;
use memory::NoMemory;

/// Begins to carry out a command, and writes what stands before its first act; a move carries the stamp of its line.
pub(crate) fn begin_command(
    memory: &mut SessionMemory,
    way: Way,
    stamp: Option<u32>,
    out: &mut Vec<u8>,
) -> Result<First, NoMemory>
    requires stamp { FitsStamp stamp }
    requires fits { FitsWay way }
    requires asks { way_asks_places way ≡ false }
    requires inside { has_entered memory.old ≡ true }
    ensures settles { IfOk result (λ first. Settles (way_course way stamp memory.old)
        (first_course first memory.new) out.old.items out.new.items) }
    ensures ready { IfOk result (IsPrepared memory.new) }
    ensures told_nothing { ToldNothing memory.old memory.new }
{
    let next = match way {
        Way::Round => ask_round(),
        Way::Server(act) => Next::Ask(act, Stage::Answering),
        Way::Desk(act) => ask_where(Stage::Placing(act)),
        Way::Move(word) => ask_where(Stage::Moving { word, stamp }),
        Way::React(reaction) => ask_where(Stage::Reacting(reaction)),
        Way::Remark(text) => return remark(memory, &text, out),
        Way::Observe(act) => return observe(memory, act, out),
        Way::Unobserve(number) => return unobserve(memory, number, out),
        Way::Own(own) => {
            carry_out(memory, own, out)?;
            ask_round()
        }
        Way::Leave => return Ok(First::Leaving),
    };
    Ok(First::Going(next))
}
