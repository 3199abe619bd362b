//! Tests of the program's commands over the fakes, those over a store too: `run` as a whole, with faults of what it reads
//! and writes, and by themselves PGN text and stored games that are gone through. Whole evenings of `replay` stand in
//! `test_evenings`.
#![tactic(auto)]

#[cfg(test)]
mod as_soon;
#[cfg(test)]
mod board_ends;
#[cfg(test)]
mod boards;
#[cfg(test)]
mod bots;
#[cfg(test)]
mod demos;
#[cfg(test)]
mod examine;
#[cfg(test)]
mod known_games;
#[cfg(test)]
mod pgn;
#[cfg(test)]
mod replay_ends;
#[cfg(test)]
mod replays;
#[cfg(test)]
mod running;
#[cfg(test)]
mod stores;
#[cfg(test)]
mod tidies;
#[cfg(test)]
mod tourneys;
