//! The summary of a history, line by line.

ghost use Rattle.std.specs.Prelude.{◌≡◌, ◌++◌, OnOk};
ghost use Rattle.cmd_demo.specs.Summary.{count_line, summary_of};

use crate::counts::{games, half_moves, refusals};
use crate::steps::SESSIONS;
use fics_words::write_number;
use histories::Entry;
use memory::NoMemory;
use one_server::{Reply, Timed};

/// Appends the summary: six counts, a line each.
pub(crate) fn put_summary(log: &[Entry<Timed, Reply>], out: &mut Vec<u8>) -> Result<(), NoMemory>
    ensures { OnOk result (out.new.items ≡ out.old.items ++ summary_of log.now) }
{
    put_count(b"sessions ", SESSIONS as usize, out)?;
    put_count(b"entries ", log.len(), out)?;
    put_count(b"games ", games(log), out)?;
    put_count(b"moves ", half_moves(log), out)?;
    put_count(b"refused ", refusals(log), out)?;
    put_count(b"stored ", 0, out)
}

/// Appends a line: what is counted, and how many there are.
fn put_count(what: &[u8], count: usize, out: &mut Vec<u8>) -> Result<(), NoMemory>
    ensures { OnOk result (out.new.items ≡ out.old.items ++ count_line what.now count) }
{
    out.extend_from_slice(what)?;
    write_number(out, count as u64)?;
    out.extend_from_slice(b"\n")?;
    Ok(())
}
