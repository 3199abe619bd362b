//! How a pass passes the time between two tries of a turn that another pass has. A turn is mostly had for some
//! microseconds, so the wait begins with looks at its word; whoever has the turn may also have lost the processor, so
//! then the processor is given up, and a pass that still waits sleeps, each time for longer. No contract speaks of
//! time.

ghost use Rattle.std.specs.Prelude.{◌<◌};

use crate::law::Stand;
use histories::Served;
use std::hint;
use std::time::Duration;

/// How often the word is looked at in one wait. Each look takes some tens of nanoseconds.
const LOOKS: u32 = 64;

/// How many tries go by before the first sleep.
const WAKEFUL: u32 = 8;

/// The first sleep, in microseconds.
const SHORTEST: u64 = 50;

/// How many times a sleep is twice as long as the one before it: the longest takes 1.6 ms.
const DOUBLINGS: u32 = 5;

/// Looks at the turn's word until it shows that the turn is free, for so many looks at most.
pub fn watch<S: Served>(table: &Stand<S>, part: usize)
    requires there { part < table.now.table_id.words }
{
    for _look in 0..LOOKS {
        if table.peek(part) == 0 {
            return;
        }
        hint::spin_loop();
    }
}

/// How long the sleep behind so many tries in vain is; none where it is too early for one.
pub fn sleep_after(tries: u32) -> Option<Duration> {
    let sleeps = tries.checked_sub(WAKEFUL)?;
    Some(Duration::from_micros(SHORTEST << sleeps.min(DOUBLINGS)))
}
