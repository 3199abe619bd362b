//! One act of a server of parts, made over a table of turns: the chain of its steps, said once for every such server.
//!
//! A server that can make its acts on the parts that it is lent implements `Steps`. `run` then makes one act: it
//! begins, takes the act's first part, takes the second one where the first part's value names one, makes the act on
//! these parts, commits, and gives the parts back. `try_run` does the same and waits for nobody.
//!
//! The contract, in the words of `histories`: an act that was made is the last entry of what the pass then sees, with
//! the reply of the step; an act that wasn't, when out of memory or since a part was busy, has no entry, and its parts
//! are put back as they were. In each case what is seen begins with what was seen before, and is legal.
#![tactic(auto)]

mod chain;
mod gate;
mod last;
mod steps;
mod tried;

pub use chain::{run, try_run};
pub use edge_traits::{Gate, OpenGate};
pub use steps::Steps;
pub use tried::Tried;
