//! The program's top call over the standard streams: `run`.
//!
//! The contract: what is written is what the words' command says of the lines of the bytes read. For `board` it is the
//! answer that each line makes of a game; for `replay` it is the transcript of the one evening that has these lines,
//! whose acts are one legal history; for `tourney` it is the answer that each line makes of a round robin; for `tidy`
//! it is the exports of the games that the grammar of PGN text reads in these bytes; for `bot` it is the best move of
//! the position that the lines make, and its value; for `demo`, which reads nothing, it is the six counts of the
//! history that its number makes; for `check`, which reads the keeper's store alone, it is the numbers of the store's
//! accounts and games; for `pgn`, which does so too, it is the exports of the store's chess games; for `examine` it is
//! the lines that show a stored game, and then the answers of the lines read. Each status comes where it is stated to
//! come, and a fault of reading, writing or the keeper is told only where the object outside counted one. The keeper
//! stays as it is but for commands over a store, and its table at all times.
#![tactic(auto)]

mod command;
mod running;

pub use command::RunCommand;
pub use running::run;
