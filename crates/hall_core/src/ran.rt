//! What an act that waits for nobody came to.

ghost use Rattle.std.specs.Prelude.{◌≡◌};
ghost use Rattle.hall_core.specs.Acts.{ran_of};

use one_server::{Act, Reply, Timed};
use turn_chain::Tried;

/// What an act that waits for nobody came to.
#[derive(Drop)]
pub enum Ran {
    /// The act was made, and got this reply.
    Done(Reply),
    /// Another session had this part of the act, 0 for the lobby and else the desk's number. The act wasn't made, and
    /// comes back.
    Busy(u8, Act),
}

/// What the chain of an act came to, with the reply where the act was made, and without the moment of an act that comes
/// back.
pub fn ran_of(tried: Tried<Timed>, reply: Reply) -> Ran
    ensures { result ≡ ran_of tried reply }
{
    match tried {
        Tried::Done => Ran::Done(reply),
        Tried::Busy { part, act } => Ran::Busy(part, act.act),
    }
}
