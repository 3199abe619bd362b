//! Tests of the crates of the rules, one file a subject: games and clocks, and in folders of their own positions as sets
//! of squares and the house's player. There is nothing else here: what is tested stands in the crates below, and a crate
//! with tests is proved twice.
#![tactic(auto)]

#[cfg(test)]
mod arrays;
#[cfg(test)]
mod bits;
#[cfg(test)]
mod boards;
#[cfg(test)]
mod bot;
#[cfg(test)]
mod chess_words;
#[cfg(test)]
mod claims;
#[cfg(test)]
mod clocks;
#[cfg(test)]
mod counted;
#[cfg(test)]
mod laid;
#[cfg(test)]
mod played;
#[cfg(test)]
mod playing;
#[cfg(test)]
mod puts;
#[cfg(test)]
mod resumed;
#[cfg(test)]
mod stamped;
#[cfg(test)]
mod takebacks;
