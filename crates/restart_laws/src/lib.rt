//! Laws over two evenings: what a server that has served leaves to the next one over the same store.
//!
//! The contract (`specs/Restart.antt`): where serving ended well, the next server opens with the accounts and the
//! adjourned games of the last state, and each of these resumes as it was left; where it ended otherwise, with what
//! becomes these once the save orders that stood are carried out.
#![tactic(auto)]

mod laws;

pub use laws::{a_good_store_is_left, restart_restores};
