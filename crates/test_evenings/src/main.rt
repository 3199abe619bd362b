//! Replays the evenings in some files, and says where one is written otherwise. The program's words name the files.
//!
//! A row `= NAME` begins an evening. Its other rows are the lines of a script, and set in by two blanks under each of
//! them stands what is written for it; last of all `status N`, set in, where the run ends with a status that isn't 0. A
//! row `in NAMES` is for people who come in under these names, as the sessions from 1 on; `#` begins a row for readers.
//! At the end of a row `_` stands for a blank, and ` %` for the prompt that comes on a line of its own behind it.
//!
//! Each evening is replayed twice: read as a whole, and in pieces and without its last line feed. For each that is
//! written otherwise its name is printed, with the first such line in brackets; then how many evenings the file has.
#![tactic(auto)]

mod evening;
mod replayed;

use crate::evening::Evening;
use crate::replayed::{first_otherwise, in_pieces, whole};
use std::{env, fs, io};

fn main(rt: HostRuntime) -> io::Result<()> {
    for name in env::args(&rt)?.skip(1) {
        let text = fs::read_to_string(&rt, name.as_str())?;
        let count = replay_all(&rt, text.as_str())?;
        println!(rt; "{count} {name}")?;
    }
    Ok(())
}

/// Replays the evenings of a file, and counts them.
fn replay_all(rt: &HostRuntime, text: &str) -> io::Result<usize> {
    let mut count: usize = 0;
    for part in text.split("\n= ").skip(1) {
        let name = part.lines().next().unwrap_or("");
        let evening = Evening::of(rt.alloc(), part)?;
        replay_one(rt, name, &evening)?;
        count = count.saturating_add(1);
    }
    Ok(count)
}

/// Replays an evening twice, and prints what is written otherwise.
fn replay_one(rt: &HostRuntime, name: &str, evening: &Evening) -> io::Result<()> {
    let written = whole(rt.alloc(), evening.script.as_str())?;
    if let Some(line) = first_otherwise(&written, evening.due.as_str()) {
        println!(rt; "{name}: [{line}]")?;
    }
    let written = in_pieces(rt.alloc(), evening.script.as_str())?;
    if let Some(line) = first_otherwise(&written, evening.due.as_str()) {
        println!(rt; "{name}, in pieces: [{line}]")?;
    }
    Ok(())
}
