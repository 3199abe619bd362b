//! Lines of sessions, good and bad, with what each reads as.

use fics_words::Line;
use memory::NoMemory;
use replay_core::{ScriptEvent, ScriptLine, read_script};
use std::alloc::Global;
use std::test::Fail;
use test_steps::assert_rows;

/// A line, and what it reads as: moment, session, kind of event, stamp and text.
const GOOD: &str = "\
0 1 +|0|1|connect||
7 10 +|7|10|connect||
281474976710656 64 +|281474976710656|64|connect||
281474976710655 63 -|281474976710655|63|cut||
1 2 -|1|2|cut||
9000 1 ?|9000|1|quiet||
0 64 ?|0|64|quiet||
5000 1 > e4|5000|1|plain||e4
5000 1 > |5000|1|plain||
5000 1 >  |5000|1|plain|| 
5000 1 >  two  blanks |5000|1|plain|| two  blanks 
1 2 > 3 4 +|1|2|plain||3 4 +
1 2 > > * ! ? - +|1|2|plain||> * ! ? - +
1 2 > seat Ann Ben 5 0 chess|1|2|plain||seat Ann Ben 5 0 chess
1 2 > ~!{}|1|2|plain||~!{}
1000 20 * 0 hello|1000|20|stamped|0|hello
1000 20 * 9999999 seek 5 0|1000|20|stamped|9999999|seek 5 0
1000 20 * 17 18 19|1000|20|stamped|17|18 19
1000 20 * 17  x|1000|20|stamped|17| x
1000 20 * 17 |1000|20|stamped|17|
3 5 ! 0|3|5|ack|0|
3 5 ! 10|3|5|ack|10|
3 5 ! 1000000|3|5|ack|1000000|
3 5 ! 9999999|3|5|ack|9999999|";

/// Each between brackets, so that blanks at the ends show.
const BAD: &str = "\
[]
[ ]
[+]
[0]
[0 1]
[0 1 ]
[0 +]
[1 +]
[ 0 1 +]
[0  1 +]
[0 1  +]
[0 1 + ]
[0 1+]
[01 +]
[0 1 ?  ]
[0 1 >]
[0 1 >e4]
[0 1  > e4]
[0  1 > e4]
[0 1 *5 x]
[0 1 *  5 x]
[0 1 !5]
[0 1 !  5]
[0 1 ! 5 ]
[00 1 +]
[01 1 +]
[0 01 +]
[0 1 * 05 x]
[0 1 * 00 x]
[0 1 ! 05]
[+1 1 +]
[-1 1 +]
[1.0 1 +]
[0x1 1 +]
[1e3 1 +]
[1,000 1 +]
[a 1 +]
[0 b +]
[281474976710657 1 +]
[999999999999999 1 ?]
[18446744073709551615 1 +]
[18446744073709551616 1 +]
[99999999999999999999999 1 +]
[0 0 +]
[0 0 > quit]
[0 65 +]
[0 100 ?]
[0 4294967297 +]
[0 18446744073709551617 +]
[0 1 * 10000000 x]
[0 1 * 4294967296 x]
[0 1 ! 10000000]
[0 1 ! 4294967296]
[0 1 + x]
[0 1 ++]
[0 1 - x]
[0 1 -5]
[0 1 ? x]
[0 1 ?x]
[0 1 *]
[0 1 * ]
[0 1 * 5]
[0 1 * x]
[0 1 ! ]
[0 1 ! x]
[0 1 @ x]";

/// What is read of a line. It ensures nothing, so that nothing above it is proved over what a line reads as.
fn read(alloc: Global, line: &Line) -> Result<Option<ScriptLine>, NoMemory> {
    read_script(alloc, line)
}

/// What reading the bytes as a line of a session gives.
fn read_bytes(alloc: Global, bytes: &[u8]) -> Result<Option<ScriptLine>, Fail> {
    let line = Line::read(alloc, bytes)?.ok_or("a line")?;
    Ok(read(alloc, &line)?)
}

/// What a line reads as: moment, session, kind of event, stamp, and text.
#[derive(Clone, Copy)]
struct Expected<'a> {
    moment: u64,
    session: u32,
    kind: &'a str,
    stamp: &'a str,
    text: &'a str,
}

fn expected_of<'a>(row: &'a str) -> Result<Expected<'a>, Fail> {
    let mut fields = row.split('|');
    let moment = fields.next().ok_or("a moment")?.parse()?;
    let session = fields.next().ok_or("a session")?.parse()?;
    let kind = fields.next().ok_or("a kind")?;
    let stamp = fields.next().ok_or("a stamp")?;
    let text = fields.next().ok_or("a text")?;
    Ok(Expected {
        moment,
        session,
        kind,
        stamp,
        text,
    })
}

fn is_expected(read: &Option<ScriptLine>, expected: &Expected<'_>) -> bool {
    match read {
        Some(line) => {
            line.moment == expected.moment
                && line.session == expected.session
                && is_event(&line.event, expected)
        }
        None => false,
    }
}

/// Whether an event is of the kind, with the stamp and the text; one that has none of them is so in its row.
fn is_event(event: &ScriptEvent, expected: &Expected<'_>) -> bool {
    match event {
        ScriptEvent::Connect => is_kind(expected, "connect", None, b""),
        ScriptEvent::Cut => is_kind(expected, "cut", None, b""),
        ScriptEvent::Quiet => is_kind(expected, "quiet", None, b""),
        ScriptEvent::Plain(text) => is_kind(expected, "plain", None, text.bytes()),
        ScriptEvent::Stamped(stamp, text) => {
            is_kind(expected, "stamped", Some(*stamp), text.bytes())
        }
        ScriptEvent::Ack(stamp) => is_kind(expected, "ack", Some(*stamp), b""),
    }
}

fn is_kind(expected: &Expected<'_>, kind: &str, stamp: Option<u32>, text: &[u8]) -> bool {
    expected.kind == kind && is_stamp(expected.stamp, stamp) && expected.text.as_bytes() == text
}

fn is_stamp(text: &str, stamp: Option<u32>) -> bool {
    match stamp {
        Some(stamp) => text.parse().ok() == Some(stamp),
        None => text.is_empty(),
    }
}

fn is_row_read(alloc: Global, row: &str) -> Result<bool, Fail> {
    let (text, expected) = row.split_once('|').ok_or("a line and its reading")?;
    let expected = expected_of(expected)?;
    let read = read_bytes(alloc, text.as_bytes())?;
    Ok(is_expected(&read, &expected))
}

#[test]
fn reads_good_lines(rt: HostRuntime) -> Result<(), Fail> {
    for row in GOOD.lines() {
        assert!(rt; is_row_read(rt.alloc(), row)?, "{row}");
    }
    Ok(())
}

/// What stands between brackets.
fn between_brackets(row: &str) -> Option<&str> {
    row.strip_prefix('[')?.strip_suffix(']')
}

fn is_refused(alloc: Global, row: &str) -> Result<bool, Fail> {
    let text = between_brackets(row).ok_or("brackets")?;
    let read = read_bytes(alloc, text.as_bytes())?;
    Ok(read.is_none())
}

#[test]
fn refuses_bad_lines(rt: HostRuntime) -> Result<(), Fail> {
    for row in BAD.lines() {
        assert!(rt; is_refused(rt.alloc(), row)?, "{row}");
    }
    Ok(())
}

fn put_letters(bytes: &mut Vec<u8>, count: usize) -> Result<(), NoMemory> {
    bytes.extend_from_slice(b"0 1 > ")?;
    for _letter in 0..count {
        bytes.push(b'x')?;
    }
    Ok(())
}

/// Whether a line reads as these bytes, of session 1 at the moment 0.
fn is_plain(read: &Option<ScriptLine>, bytes: &[u8]) -> bool {
    match read {
        Some(line) => line.moment == 0 && line.session == 1 && is_plain_event(&line.event, bytes),
        None => false,
    }
}

fn is_plain_event(event: &ScriptEvent, bytes: &[u8]) -> bool {
    match event {
        ScriptEvent::Plain(text) => text.bytes() == bytes,
        _ => false,
    }
}

/// Whether a text of so many letters is read whole.
fn is_long_read(alloc: Global, count: usize) -> Result<bool, Fail> {
    let mut bytes = Vec::new(alloc);
    put_letters(&mut bytes, count)?;
    are_read(alloc, &bytes)
}

fn are_read(alloc: Global, bytes: &[u8]) -> Result<bool, Fail> {
    let read = read_bytes(alloc, bytes)?;
    Ok(bytes.len() >= 6 && is_plain(&read, &bytes[6..]))
}

const COUNTS: &[usize] = &[1_000, 1_017];

#[test]
fn reads_long_texts(rt: HostRuntime) -> Result<(), Fail> {
    assert_rows!(rt; COUNTS, |count| is_long_read(rt.alloc(), *count)?);
    Ok(())
}
