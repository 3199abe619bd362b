//! The jobs, over the server of one thread and over a hall.

ghost use Rattle.std.specs.Prelude.{◌≡◌};

use crate::job::{Job, Place, What};
use crate::round::{acts_of, desk_of, round, sit_down};
use crate::table::{HallTable, ServerTable};
use fics_words::Fail;
use hall_core::{Hall, HallPass};
use lobby_state::Lobby;
use memory::NoMemory;
use one_server::OneServer;
use std::alloc::Global;
use std::sync::Wait;
use std::thread::{Threads, map_vec};
use turn_chain::OpenGate;

/// Does the job, and gives the number of its acts.
pub fn make<R: Threads + Wait + Sync>(rt: &R, alloc: Global, job: Job) -> Result<u64, Fail> {
    match job.place {
        Place::Server => over_server(alloc, job)?,
        Place::Apart => over_hall(rt, alloc, job)?,
        Place::Same => over_hall(rt, alloc, job)?,
    }
    let rounds = u64::from(job.total()).wrapping_mul(u64::from(job.rounds));
    Ok(rounds.wrapping_mul(acts_of(job.what)))
}

/// A server with an empty lobby.
#[tactic(auto, using(one_server::proofs::Opens::opening_is))]
fn server(alloc: Global) -> Result<OneServer, NoMemory> {
    OneServer::new(alloc, Lobby::new(alloc)?)
}

fn over_server(alloc: Global, job: Job) -> Result<(), Fail> {
    let mut server = server(alloc)?;
    for number in 0..job.total() {
        sit_down(alloc, &mut at(&mut server, number), number)?;
    }
    for turn in 0..job.rounds {
        for number in 0..job.total() {
            let desk = desk_of(number);
            round(alloc, &mut at(&mut server, number), job.what, desk, turn)?;
        }
    }
    Ok(())
}

/// The table of this number at the server.
fn at(server: &mut OneServer, number: u8) -> ServerTable<'_> {
    let white = u32::from(number) * 2 + 1;
    ServerTable {
        server,
        white,
        black: white + 1,
    }
}

/// The tables of one thread, each with the number of the one whose desk it acts at.
#[derive(Drop)]
struct Share<'a, R: Wait> {
    tables: Vec<(u8, HallTable<'a, R>)>,
}

#[tactic(auto, using(one_server::proofs::Opens::opening_is))]
fn over_hall<R: Threads + Wait + Sync>(rt: &R, alloc: Global, job: Job) -> Result<(), Fail> {
    let (hall, mut first) = Hall::open(alloc, Lobby::new(alloc)?)?;
    let gate = OpenGate::new();
    let shares = seated(rt, alloc, &hall, &mut first, &gate, job)?;
    in_threads(rt, alloc, shares, job)
}

/// The tables of all threads, at which everybody has sat down.
fn seated<'a, R: Wait>(
    rt: &'a R,
    alloc: Global,
    hall: &'a Hall,
    first: &mut HallPass,
    gate: &'a OpenGate,
    job: Job,
) -> Result<Vec<Share<'a, R>>, Fail>
    requires here { first.old.home ≡ hall.now }
    requires number { first.old.number ≡ 0 }
    requires unsplit { first.old.splits ≡ 0 }
{
    let mut shares = no_tables(alloc, job.threads)?;
    for number in 0..job.total() {
        let white = hall.seat(hall.split(first), gate, rt);
        let black = hall.seat(hall.split(first), gate, rt);
        seat_at(alloc, &mut shares, job, number, HallTable { white, black })?;
    }
    Ok(shares)
}

/// Makes the rounds at the tables of each thread in a thread of its own.
fn in_threads<R: Threads + Wait + Sync>(
    rt: &R,
    alloc: Global,
    shares: Vec<Share<'_, R>>,
    job: Job,
) -> Result<(), Fail> {
    let ended = map_vec(
        rt,
        shares,
        &|share| { rounds(alloc, share, job.what, job.rounds) },
    )?;
    all_ended(ended)
}

/// Two players sit down at the table of this number, which is one of the threads'.
fn seat_at<'a, R: Wait>(
    alloc: Global,
    shares: &mut Vec<Share<'a, R>>,
    job: Job,
    number: u8,
    table: HallTable<'a, R>,
) -> Result<(), Fail> {
    let mut table = table;
    sit_down(alloc, &mut table, number)?;
    let desk = match job.place {
        Place::Same => 0,
        _ => number,
    };
    let Some(thread) = number.checked_rem(job.threads) else {
        return Ok(());
    };
    if let Some(share) = shares.get_mut(usize::from(thread)) {
        share.tables.push((desk, table))?;
    }
    Ok(())
}

/// The first want of memory, if there was any.
fn all_ended(ended: Vec<Result<(), Fail>>) -> Result<(), Fail> {
    for end in ended {
        end?;
    }
    Ok(())
}

/// So many threads without a table.
fn no_tables<'a, R: Wait>(alloc: Global, threads: u8) -> Result<Vec<Share<'a, R>>, NoMemory> {
    let mut shares = Vec::new(alloc);
    for _ in 0..threads {
        shares.push(Share {
            tables: Vec::new(alloc),
        })?;
    }
    Ok(shares)
}

/// Makes the rounds at the tables of one thread.
fn rounds<R: Wait>(alloc: Global, share: Share<'_, R>, what: What, count: u32) -> Result<(), Fail> {
    let mut tables = share.tables;
    for number in 0..count {
        for (desk, table) in tables.iter_mut() {
            round(alloc, table, what, desk_of(*desk), number)?;
        }
    }
    Ok(())
}
