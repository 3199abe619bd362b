//! Scripts line by line: which lines may come, and who is left at the end.

ghost use Rattle.std.specs.Prelude.{◌≤◌};
ghost use Rattle.replay_core.specs.Script.{IsScriptLine};

use fics_words::Line;
use memory::NoMemory;
use replay_core::{Attendance, ScriptLine, read_script};
use std::alloc::Global;
use std::test::Fail;
use test_steps::least_wrong;

/// Each line comes, or may not; or it is a `quit` that is answered.
const UNSEATED: &str = "\
may not: 5 1 ?
may not: 5 1 > hello
may not: 5 1 -
comes: 5 1 +
may not: 5 1 +
may not: 4 2 +
may not: 0 1 ?
comes: 5 64 +
comes: 5 1 > Ann
comes: 9 1 * 17 who
may not: 8 1 ?
comes: 9 1 ! 17
comes: 10 1 ?
may not: 10 2 ?
comes: 10 1 -
may not: 10 1 -
may not: 10 1 ?
may not: 11 1 +
may not: 11 1 > hello
quits: 281474976710656 64 > quit
may not: 281474976710656 64 ?
may not: 281474976710656 64 -
may not: 281474976710656 64 +
comes: 281474976710656 3 +
may not: 281474976710655 3 ?";

const SEATED: &str = "\
may not: 0 1 +
may not: 0 2 +
may not: 0 3 > hello
comes: 0 2 > e4
comes: 0 3 +
comes: 7 1 -
may not: 7 1 +
comes: 7 2 > e4
comes: 7 3 > observe 1";

/// Whether the line may come as the table says. Where it may, it comes.
fn goes_so(progress: &mut Attendance, fate: &str, line: &ScriptLine) -> bool
    requires { IsScriptLine line.now }
{
    let may_come = fate != "may not";
    if progress.may_come(line) != may_come {
        return false;
    }
    if may_come {
        progress.note(line, fate == "quits");
    }
    true
}

fn is_read_so(
    alloc: Global,
    progress: &mut Attendance,
    fate: &str,
    line: &Line,
) -> Result<bool, NoMemory> {
    match read_script(alloc, line)? {
        Some(line) => Ok(goes_so(progress, fate, &line)),
        None => Ok(false),
    }
}

/// Whether a row, a fate and a line, goes as it says.
fn is_row_so(alloc: Global, progress: &mut Attendance, row: &str) -> Result<bool, Fail> {
    let (fate, text) = row.split_once(": ").ok_or("a fate and a line")?;
    let line = Line::read(alloc, text.as_bytes())?.ok_or("a line")?;
    Ok(is_read_so(alloc, progress, fate, &line)?)
}

/// The place of the first row that goes otherwise, if one does.
fn first_otherwise(
    alloc: Global,
    progress: &mut Attendance,
    rows: &str,
) -> Result<Option<usize>, Fail> {
    for (place, row) in rows.lines().enumerate() {
        if !is_row_so(alloc, progress, row)? {
            return Ok(Some(place));
        }
    }
    Ok(None)
}

/// The first session that is here where none of these is, or isn't where one of them is.
fn first_misplaced(progress: &Attendance, here: &[u32]) -> Option<u32> {
    least_wrong!(
        1..=64,
        |session| progress.is_here(session) == here.contains(&session)
    )
}

/// Whether the rows go as they say, and these sessions are here at the end.
fn are_followed(alloc: Global, seats: u32, rows: &str, here: &[u32]) -> Result<bool, Fail>
    requires { seats ≤ 64 }
{
    let mut progress = Attendance::new(seats);
    if first_otherwise(alloc, &mut progress, rows)?.is_some() {
        return Ok(false);
    }
    Ok(first_misplaced(&progress, here).is_none())
}

#[test]
fn follows_unseated_sessions(rt: HostRuntime) -> Result<(), Fail> {
    assert!(rt; are_followed(rt.alloc(), 0, UNSEATED, &[3])?);
    Ok(())
}

#[test]
fn follows_seated_sessions(rt: HostRuntime) -> Result<(), Fail> {
    assert!(rt; are_followed(rt.alloc(), 2, SEATED, &[2, 3])?);
    Ok(())
}

/// The first session that isn't here where all are seated.
fn first_away() -> Option<u32> {
    let progress = Attendance::new(64);
    least_wrong!(1..=64, |session| progress.is_here(session))
}

#[test]
fn seats_all(rt: HostRuntime) {
    assert_eq!(rt; first_away(), None);
}
