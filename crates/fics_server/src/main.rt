//! `ficsd`: the program. It reads its words, and calls `serve` over TCP where they ask for it, and else `run` over the
//! standard streams; it ends with their status.
#![tactic(auto)]

use cmd_job::{Job, JobFail, read_job};
use cmd_lines::{End, status};
use cmd_run::run;
use edge_traits::OpenGate;
use file_keeper::{AnyKeeper, SqliteKeeper, StoreReader};
use real_edges::{NoStore, StdSink, StdSource, TcpDoor, WallClock};
use serve_call::serve;
use std::alloc::AllocError;
use std::io::ErrorKind;
use std::net::{Net, TcpListener, TcpStream};
use std::process::ExitCode;
use std::sync::Wait;
use std::thread::Threads;
use std::time::Clock;
use std::{env, io};

fn main(rt: HostRuntime) -> ExitCode {
    let Ok(words) = words_of(&rt) else {
        return ExitCode::from(status(End::Memory));
    };
    let words = words.as_slice();
    match read_job(rt.alloc(), words) {
        Ok(
            Job::Serve {
                port,
                bind,
                store,
                count,
            },
        ) => {
            let door = TcpDoor::new(&rt, bind.as_str(), port, count);
            ExitCode::from(serve_with(&rt, rt, words, door, store))
        }
        Ok(Job::Check { store } | Job::Pgn { store } | Job::Examine { store, .. }) => {
            run_over(&rt, words, AnyKeeper::Read(StoreReader::new(rt, store)))
        }
        Err(JobFail::Memory) => ExitCode::from(status(End::Memory)),
        Ok(_) | Err(JobFail::Usage) => {
            run_over(&rt, words, AnyKeeper::Nothing(NoStore::new(rt.alloc())))
        }
    }
}

/// The keeper of a server over the store at the path; without a path nothing is kept.
fn keeper_of(host: HostRuntime, store: Option<String>) -> AnyKeeper {
    match store {
        Some(path) => AnyKeeper::Held(SqliteKeeper::new(host, path)),
        None => AnyKeeper::Nothing(NoStore::new(host.alloc())),
    }
}

/// Runs a command over the standard streams.
fn run_over(rt: &HostRuntime, words: &[String], mut keeper: AnyKeeper) -> ExitCode {
    let mut source = StdSource::new(rt.reader());
    let mut sink = StdSink::new(io::writer(rt));
    ExitCode::from(run(rt.alloc(), words, &mut source, &mut sink, &mut keeper))
}

/// Serves at a door on TCP over the store at the path, which is let go once all is served. Threads are started by `rt`
/// alone, which is `host` as `main` has it.
fn serve_with<T>(
    rt: &T,
    host: HostRuntime,
    words: &[String],
    door: TcpDoor<'_, T>,
    store: Option<String>,
) -> u8
where
    T: Net<Listener = TcpListener, Stream = TcpStream> + Clock + Threads + Wait + Sync,
{
    let mut keeper = keeper_of(host, store);
    let status = serve_at(rt, host, words, door, &mut keeper);
    // Where this fails, the file and the log beside it hold the records together, and the next server reads both.
    let _closed = keeper.close();
    status
}

/// Serves at a door on TCP, by the system's clock, and closes the hall once all is served.
fn serve_at<T>(
    rt: &T,
    host: HostRuntime,
    words: &[String],
    mut door: TcpDoor<'_, T>,
    keeper: &mut AnyKeeper,
) -> u8
where
    T: Net<Listener = TcpListener, Stream = TcpStream> + Clock + Threads + Wait + Sync,
{
    let clock = WallClock::new(rt);
    let gate = OpenGate::new();
    let mut sink = StdSink::new(io::writer(&host));
    let (status, served) = serve(
        rt,
        host.alloc(),
        words,
        &mut door,
        &clock,
        keeper,
        &mut sink,
        &gate,
    );
    if let Some((hall, pass)) = served {
        let _parts = hall.close(pass);
    }
    status
}

/// The words behind the program's name; none where one of them is no text.
fn words_of(rt: &HostRuntime) -> Result<Vec<String>, AllocError> {
    match env::args(rt) {
        Ok(args) => args.skip(1).collect(rt.alloc()),
        Err(error) if error.kind() == ErrorKind::OutOfMemory => Err(AllocError),
        Err(_) => Ok(Vec::new(rt.alloc())),
    }
}
