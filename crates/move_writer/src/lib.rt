//! The texts of a move.
//!
//! The contract: `verbose`, `pretty` and `spelling` write exactly the text that `specs/Verbose.antt`,
//! `specs/Pretty.antt` and `specs/Spelling.antt` define of a move, at most 12 bytes and none of them a blank. No call
//! takes memory.
#![tactic(auto)]

mod draft;
mod letters;
mod pretty_text;
mod spelling_text;
mod verbose_text;

pub use letters::letter;
pub use pretty_text::pretty;
pub use spelling_text::spelling;
pub use verbose_text::verbose;
