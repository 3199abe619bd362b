//! Makes many acts at tables of two players. It makes them over the server of one thread or over a hall with as many
//! threads as are asked for, and prints how many it made. `bench/hall` measures how long that takes.
//!
//! The words are PLACE WHAT THREADS TABLES ROUNDS: `server`, `apart` or `same`; `looks` or `moves`; the threads, the
//! tables of each, and the rounds at each table. Or they are `shelf WHAT GAMES ROUNDS`, or `full DEED ROUNDS`: what a
//! member does in a full hall, over the lobby alone.
#![tactic(auto)]

mod deeds;
mod full_hall;
mod job;
mod pace;
mod round;
mod shelf;
mod table;

use crate::deeds::make_in_full_hall;
use crate::job::{full_job_of, job_of};
use crate::pace::make;
use crate::shelf::{make_shelf, shelf_job_of};
use std::alloc::AllocError;
use std::{env, io};

fn main(rt: HostRuntime) -> io::Result<()> {
    let Ok(words) = words_of(&rt) else {
        return println!(rt; "out of memory");
    };
    if let Some(job) = shelf_job_of(words.as_slice()) {
        return match make_shelf(rt.alloc(), job) {
            Ok(acts) => println!(rt; "{acts} acts"),
            Err(_) => println!(rt; "an act was refused, or memory ran out"),
        };
    }
    if let Some((deed, rounds)) = full_job_of(words.as_slice()) {
        return match make_in_full_hall(rt.alloc(), deed, rounds) {
            Ok(()) => println!(rt; "{rounds} rounds"),
            Err(fail) => println!(rt; "{fail}"),
        };
    }
    let Some(job) = job_of(words.as_slice()) else {
        return println!(rt; "the words are PLACE WHAT THREADS TABLES ROUNDS, or full DEED ROUNDS");
    };
    match make(&rt, rt.alloc(), job) {
        Ok(acts) => println!(rt; "{acts} acts"),
        Err(_) => println!(rt; "out of memory"),
    }
}

/// The words behind the program's name.
fn words_of(rt: &HostRuntime) -> Result<Vec<String>, AllocError> {
    match env::args(rt) {
        Ok(args) => args.skip(1).collect(rt.alloc()),
        Err(_) => Err(AllocError),
    }
}
