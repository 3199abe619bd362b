//! What a session does for an input.
ghost use Rattle.std.specs.Prelude.{◌≡◌, OnOk};
ghost use Rattle.session_core.specs.Going.{Answered, Broke};
ghost use Rattle.session_core.specs.Inputs.{FitsInput, input_course};

use crate::begin::begin;
use crate::first::First;
use crate::follow::follow;
use crate::input::Input;
use crate::leaving::leave;
use crate::session_memory::SessionMemory;
use clock_ledger::Moment;
use memory::NoMemory;
use one_server::Runner;
use std::alloc::Global;

/// Makes the acts of the session's course for this input, and appends what that writes.
pub(crate) fn take<R: Runner>(
    alloc: Global,
    r: &mut R,
    moment: Moment,
    memory: &mut SessionMemory,
    input: Input,
    out: &mut Vec<u8>,
) -> Result<(), NoMemory>
    requires fits { FitsInput input }
    ensures home { R.home r.new ≡ R.home r.old }
    ensures answered { OnOk result (Answered (input_course input memory.old) (λ text. text) moment
        (R.state r.old) out.old.items (R.state r.new) out.new.items memory.new) }
    ensures so_far { Broke (input_course input memory.old) moment (R.state r.old) memory.old
        (R.state r.new) memory.new }
{
    // What is known of every runner is known from here on.
    let _session = r.session();
    let first = begin(alloc, memory, input, out)?;
    match first {
        First::Leaving => leave(alloc, r, moment, memory),
        First::Going(next) => follow(alloc, r, moment, memory, next, out),
    }
}
