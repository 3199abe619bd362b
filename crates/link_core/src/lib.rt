//! One link, served by a session over any runner.
//!
//! The contract of `serve_link`: what came over the link was cut into inputs, each was answered by the session in turn,
//! before the link was read again, and the session left and the link was closed, however it ended. Two records
//! say it, each in its file of `specs/`, of a link that was served whole (`ServedWhole`) and of one that was served in
//! part (`ServedInPart`), by the link's tale, its count of faults and the session's entries in the history.
#![tactic(auto)]

mod answer;
mod converse;
mod laws;
mod link_end;
mod serving;

pub use laws::{each_line_is_answered, served_links_are_their_own};
pub use link_end::LinkEnd;
pub use serving::serve_link;
