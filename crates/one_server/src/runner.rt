//! What runs the acts of a session: a server of one thread, or a hall of many.

ghost use Rattle.std.specs.Prelude.{◌≡◌, true, IsOk};
ghost use Rattle.one_server.specs.Acts.{FitsAct, NeedsNoMemory};
ghost use Rattle.one_server.specs.Running.{Runs};

use crate::act::Act;
use crate::reply::Reply;
use clock_ledger::Moment;
use memory::NoMemory;
use std::alloc::Global;

/// Runs the acts of one session. Its meanings are its home, which is the server that it was lent and stays the same,
/// and its state: what is known of the session, of what it has seen and of what it made.
pub trait Runner {
    ghost use Rattle.std.specs.Prelude.{◌≡◌, true, IsOk};
    ghost use Rattle.one_server.specs.Acts.{FitsAct, NeedsNoMemory};
    ghost use Rattle.one_server.specs.Running.{IsKnown, RunnerState, Runs, in_its_place};

    ghost Home: { Type 0 };

    ghost home: { Self → Home };

    ghost state: { Self → RunnerState };

    /// The session's number.
    fn session(&self) -> u32
        ensures number { result ≡ (state self.now).number }
        ensures known { IsKnown (state self.now) };

    /// Makes an act at `moment`, in milliseconds, and writes its reply, which is the server's, over what stands in its
    /// place. Running out of memory gives no reply, and the act isn't made. Where the mark is true, an act that needs
    /// no memory of its own never runs out of it.
    fn run(
        &mut self,
        alloc: Global,
        moment: Moment,
        act: Act,
        reply: &mut Reply,
    ) -> Result<(), NoMemory>
        requires { FitsAct act }
        ensures home { home self.new ≡ home self.old }
        ensures ran { Runs (state self.old) (record { moment = moment; act = act }) (in_its_place result reply.new)
            (state self.new) }
        ensures marked { (state self.old).mark ≡ true → NeedsNoMemory act → IsOk result };
}

/// Makes an act as `Runner::run` does, and gives its reply.
pub fn answered<R: Runner>(
    r: &mut R,
    alloc: Global,
    moment: Moment,
    act: Act,
) -> Result<Reply, NoMemory>
    requires { FitsAct act }
    ensures home { R.home r.new ≡ R.home r.old }
    ensures ran { Runs (R.state r.old) (record { moment = moment; act = act }) result (R.state r.new) }
    ensures marked { (R.state r.old).mark ≡ true → NeedsNoMemory act → IsOk result }
{
    let mut reply = Reply::blank();
    match r.run(alloc, moment, act, &mut reply) {
        Ok(()) => Ok(reply),
        Err(NoMemory) => Err(NoMemory),
    }
}
