//! Tests of the edges: tables of good and bad handles, lines and numbers, the fakes in memory, and the keepers over a
//! file of SQLite, over files in the folder of temporary files.
#![tactic(auto)]

#[cfg(test)]
mod calls;
#[cfg(test)]
mod fakes;
#[cfg(test)]
mod files;
#[cfg(test)]
mod words;
