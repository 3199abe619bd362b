//! The command `tidy`: the games of PGN text, written in the export form.
//!
//! The contract of `tidy`: the source is read to its end, and where the grammar of PGN text reads games in its bytes,
//! however they were cut, exactly the exports of these games are written; else the exports of the games before the
//! place at which the text leaves the grammar, and then the number of that line. Each game is written as soon as it is
//! whole, of which the contract says nothing.
#![tactic(auto)]

mod putting;
mod tidying;

pub use tidying::tidy;
