//! The lines of a telnet link, whatever the pieces in which its bytes come.
//!
//! A reader is fed pieces of bytes and gives the lines that they make: it skips telnet commands, drops CR and NUL, cuts
//! at LF, and reads each line as plain or stamped. It keeps no more than a line, and what was fed and not yet read.
//!
//! The contract: contracts see a reader as what it gives for all that may follow. `feed` puts bytes behind those that
//! are there, `next` takes off the first line, and so the lines are those of the whole text.
#![tactic(auto)]

mod cutter;
mod incoming;
mod laws;
mod open_line;
mod reader;
mod telnet;

pub use incoming::Incoming;
pub use laws::one_list_of_lines;
pub use reader::LineReader;
