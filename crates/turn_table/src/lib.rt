//! Parts behind turns: many threads, one history.
//!
//! A table has the parts of a server (`histories::Served`), each in a slot behind a turn. A caller steps with a `Pass`:
//! it begins an act, takes the act's parts, commits, and gives the parts back. What a pass knows is its `View`.
//!
//! The contract: there is one legal history of all acts, whatever the threads do. A commit makes its last entry, with
//! the reply and the parts of the step; a part that is taken is the part of the history's state until it is given back;
//! what a pass sees begins with all that it has seen; and `close` gives the parts of the state of the whole history.
//! The rule that the words, the slots and the views keep stands in `specs/Rule.antt`. No call but `Turns::new` takes
//! memory.
#![tactic(auto)]

mod edges;
mod law;
mod pass;
mod patience;
mod steps;
mod turns;
mod view;

pub use law::Law;
pub use pass::Pass;
pub use turns::Turns;
pub use view::{Joined, View};
