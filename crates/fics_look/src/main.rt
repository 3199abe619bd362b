//! `ficsd` for a first look: what one tries before anything is proved, `serve` without a store, `board`, `replay` and
//! `bot`. It has no part of the store, of PGN and of round robins, so that it is read and compiled in a third of the
//! time of the whole program, whose parts it is made of.
#![tactic(auto)]

use cmd_board::board;
use cmd_bot::bot;
use cmd_job::{Job, JobFail, read_job, tell_usage};
use cmd_lines::{End, status};
use cmd_replay::replay;
use edge_traits::{Keeper, OpenGate, Sink, Source};
use real_edges::{NoStore, StdSink, StdSource, TcpDoor, WallClock};
use serve_call::serve;
use std::alloc::{AllocError, Global};
use std::io::ErrorKind;
use std::net::{Net, TcpListener, TcpStream};
use std::process::ExitCode;
use std::sync::Wait;
use std::thread::Threads;
use std::time::Clock;
use std::{env, io};

fn main(rt: HostRuntime) -> ExitCode {
    let Ok(words) = words_of(&rt) else {
        return ExitCode::from(status(End::Memory));
    };
    let words = words.as_slice();
    match read_job(rt.alloc(), words) {
        Ok(
            Job::Serve {
                port,
                bind,
                store,
                count,
            },
        ) => {
            let door = TcpDoor::new(&rt, bind.as_str(), port, count);
            ExitCode::from(serve_with(&rt, rt, words, door, store))
        }
        Ok(job) => run_over(&rt, job),
        Err(JobFail::Memory) => ExitCode::from(status(End::Memory)),
        Err(JobFail::Usage) => ExitCode::from(tell_usage(&mut StdSink::new(io::writer(&rt)))),
    }
}

/// Runs a command over the standard streams; one that needs a store is answered with the usage.
fn run_over(rt: &HostRuntime, job: Job) -> ExitCode {
    let mut source = StdSource::new(rt.reader());
    let mut sink = StdSink::new(io::writer(rt));
    let status = match job {
        Job::Board => status(board(rt.alloc(), &mut source, &mut sink)),
        Job::Replay => status(replay(rt.alloc(), &mut source, &mut sink)),
        Job::Bot { depth } => search(rt.alloc(), depth, &mut source, &mut sink),
        _ => tell_usage(&mut sink),
    };
    ExitCode::from(status)
}

/// Answers the position that the lines give with its best move.
fn search<S: Source, K: Sink>(alloc: Global, depth: u8, source: &mut S, sink: &mut K) -> u8 {
    if depth > 4 {
        return tell_usage(sink);
    }
    status(bot(alloc, depth, source, sink))
}

/// Serves at a door on TCP, and keeps nothing; where a store is asked for it answers with the usage. Threads are
/// started by `rt` alone, which is `host` as `main` has it.
fn serve_with<T>(
    rt: &T,
    host: HostRuntime,
    words: &[String],
    door: TcpDoor<'_, T>,
    store: Option<String>,
) -> u8
where
    T: Net<Listener = TcpListener, Stream = TcpStream> + Clock + Threads + Wait + Sync,
{
    let mut sink = StdSink::new(io::writer(&host));
    if store.is_some() {
        return tell_usage(&mut sink);
    }
    let mut keeper = NoStore::new(host.alloc());
    serve_at(rt, host.alloc(), words, door, &mut keeper, &mut sink)
}

/// Serves at a door on TCP, by the system's clock, and closes the hall once all is served.
fn serve_at<T, P, W>(
    rt: &T,
    alloc: Global,
    words: &[String],
    mut door: TcpDoor<'_, T>,
    keeper: &mut P,
    sink: &mut StdSink<W>,
) -> u8
where
    T: Net<Listener = TcpListener, Stream = TcpStream> + Clock + Threads + Wait + Sync,
    P: Keeper,
    W: io::Write,
{
    let clock = WallClock::new(rt);
    let gate = OpenGate::new();
    let (status, served) = serve(rt, alloc, words, &mut door, &clock, keeper, sink, &gate);
    if let Some((hall, pass)) = served {
        let _parts = hall.close(pass);
    }
    status
}

/// The words behind the program's name; none where one of them is no text.
fn words_of(rt: &HostRuntime) -> Result<Vec<String>, AllocError> {
    match env::args(rt) {
        Ok(args) => args.skip(1).collect(rt.alloc()),
        Err(error) if error.kind() == ErrorKind::OutOfMemory => Err(AllocError),
        Err(_) => Ok(Vec::new(rt.alloc())),
    }
}
