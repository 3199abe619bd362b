//! `ficsd` for `board` alone, the command that one tries first: it has nothing below it that this command doesn't use,
//! so that it is proved and built in a fraction of the time of the whole program. Other words get the usage.
#![tactic(auto)]

use cmd_board::board;
use cmd_job::{Job, JobFail, read_job, tell_usage};
use cmd_lines::{End, status};
use real_edges::{StdSink, StdSource};
use std::alloc::AllocError;
use std::io::ErrorKind;
use std::process::ExitCode;
use std::{env, io};

fn main(rt: HostRuntime) -> ExitCode {
    let Ok(words) = words_of(&rt) else {
        return ExitCode::from(status(End::Memory));
    };
    let mut sink = StdSink::new(io::writer(&rt));
    match read_job(rt.alloc(), words.as_slice()) {
        Ok(Job::Board) => {
            let mut source = StdSource::new(rt.reader());
            ExitCode::from(status(board(rt.alloc(), &mut source, &mut sink)))
        }
        Err(JobFail::Memory) => ExitCode::from(status(End::Memory)),
        Ok(_) | Err(JobFail::Usage) => ExitCode::from(tell_usage(&mut sink)),
    }
}

/// The words behind the program's name; none where one of them is no text.
fn words_of(rt: &HostRuntime) -> Result<Vec<String>, AllocError> {
    match env::args(rt) {
        Ok(args) => args.skip(1).collect(rt.alloc()),
        Err(error) if error.kind() == ErrorKind::OutOfMemory => Err(AllocError),
        Err(_) => Ok(Vec::new(rt.alloc())),
    }
}
