//! What the server needs from outside, as traits.
//!
//! The contract: a call answers `Failed` only where the object's count of faults rose in that call, and what an object
//! tells of itself changes by nothing but what the call answers; where a keeper failed, the change may be made all the
//! same. Code that is generic in these traits can't raise a count by itself. A keeper tells each call that it had.
#![tactic(auto)]

mod call_log;
mod clock;
mod doorway;
mod gate;
mod keeper;
mod link;
mod sink;
mod source;

pub use call_log::{CallLog, Note, Request};
pub use clock::{Clock, StillClock};
pub use doorway::{Answered, Came, Doorway};
pub use gate::{Gate, OpenGate};
pub use keeper::{Keeper, KeeperFail, Kept, Pair};
pub use link::{Heard, Link};
pub use sink::{Sent, Sink};
pub use source::{Got, MOST_READS, Source};
