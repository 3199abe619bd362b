//! How a link is read, and each input answered before the next read.
ghost use Rattle.std.specs.Prelude.{◌≡◌, ◌+◌, ◌++◌, [], ℕ, List, true, false, map, option_to_list, Err, OnOk};
ghost use Rattle.edge_traits.specs.Link.{LinkIsOpen, Sign};
ghost use Rattle.line_reader.specs.Reader.{rest_to_come};
ghost use Rattle.link_core.specs.Steps.{AfterStep, AfterWrite, Halfway, IsDrained, LeavesLink, Progress, Stand, Stops};
ghost use Rattle.link_core.specs.Steps.{stand_of};
ghost use Rattle.session_core.specs.Memory.{is_gone, newcomer};
ghost use Rattle.session_core.specs.Texts.{opening_text};
ghost use Rattle.session_core.specs.declared.input.Input.TheVariants.{Line};

use crate::answer::{answer, write};
use crate::link_end::LinkEnd;
use edge_traits::{Clock, Heard, Link, MOST_READS};
use line_reader::LineReader;
use memory::NoMemory;
use one_server::Runner;
use session_core::{Input, Session};
use std::alloc::Global;

/// The most bytes that are read at once.
const PIECE: usize = 1_024;

/// Opens the connection, and answers what comes until the reading ends.
pub(crate) fn converse<R: Runner, L: Link, C: Clock>(
    alloc: Global,
    r: &mut R,
    link: &mut L,
    clock: &C,
    session: &mut Session,
) -> LinkEnd
    requires new { session.old ≡ newcomer }
    requires unclosed { LinkIsOpen (L.tale link.old) }
    ensures home { R.home r.new ≡ R.home r.old }
    ensures stops { Stops (C.shows clock.now) result
        (stand_of (R.state r.old) session.old (L.tale link.old))
        (stand_of (R.state r.new) session.new (L.tale link.new)) }
    ensures link { LeavesLink (Err result) (L.tale link.new) (L.faults link.old) (L.faults link.new) }
{
    // What is known of every runner is known from here on.
    let _session = r.session();
    let Ok(mut reader) = LineReader::new(alloc) else {
        return LinkEnd::Memory;
    };
    match greet(session, link) {
        Ok(()) => {}
        Err(end) => return end,
    }
    let mut buf = [0; PIECE];
    for _read in 0..MOST_READS {
        match take_read(r, link, clock, session, &mut reader, &mut buf) {
            Ok(()) => {}
            Err(end) => return end,
        }
    }
    LinkEnd::Spent
}

/// Writes what the connection opens with.
fn greet<L: Link>(session: &Session, link: &mut L) -> Result<(), LinkEnd>
    requires unclosed { LinkIsOpen (L.tale link.old) }
    ensures wrote { AfterWrite opening_text (L.tale link.old) (L.tale link.new) result }
    ensures link { LeavesLink result (L.tale link.new) (L.faults link.old) (L.faults link.new) }
{
    let Ok(opening) = session.open() else {
        return Err(LinkEnd::Memory);
    };
    write(link, opening.as_slice())
}

/// Reads once, into `buf`, and answers what came.
fn take_read<R: Runner, L: Link, C: Clock>(
    r: &mut R,
    link: &mut L,
    clock: &C,
    session: &mut Session,
    reader: &mut LineReader,
    buf: &mut [u8; PIECE],
) -> Result<(), LinkEnd>
    requires drained { IsDrained reader.old }
    requires here { is_gone session.old ≡ false }
    requires unclosed { LinkIsOpen (L.tale link.old) }
    ensures home { R.home r.new ≡ R.home r.old }
    ensures steps { (start : Stand) (turns : ℕ) → Progress (C.shows clock.now) start
        (stand_of (R.state r.old) session.old (L.tale link.old)) reader.old turns
        → AfterStep (C.shows clock.now) start
        (stand_of (R.state r.new) session.new (L.tale link.new)) reader.new (turns + 1) result }
    ensures drained { OnOk result (IsDrained reader.new) }
    ensures here { OnOk result (is_gone session.new ≡ false) }
    ensures link { LeavesLink result (L.tale link.new) (L.faults link.old) (L.faults link.new) }
{
    match link.read(buf) {
        Heard::Bytes(n) => take_piece(r, link, clock, session, reader, &buf[..n]),
        Heard::Quiet => answer(r, link, clock, session, Input::Quiet),
        Heard::End => Err(take_rest(r, link, clock, session, reader)),
        Heard::Failed => Err(LinkEnd::ReadFault),
    }
}

/// Answers the lines that a piece ends.
fn take_piece<R: Runner, L: Link, C: Clock>(
    r: &mut R,
    link: &mut L,
    clock: &C,
    session: &mut Session,
    reader: &mut LineReader,
    piece: &[u8],
) -> Result<(), LinkEnd>
    requires here { is_gone session.old ≡ false }
    requires unclosed { LinkIsOpen (L.tale link.old) }
    ensures home { R.home r.new ≡ R.home r.old }
    ensures steps { (start : Stand) (turns : ℕ) → Progress (C.shows clock.now) start
        (stand_of (R.state r.old) session.old (L.tale link.old))
        (record reader.old { fed = reader.old.fed ++ piece.now }) turns
        → AfterStep (C.shows clock.now) start
        (stand_of (R.state r.new) session.new (L.tale link.new)) reader.new turns result }
    ensures drained { OnOk result (IsDrained reader.new) }
    ensures here { OnOk result (is_gone session.new ≡ false) }
    ensures link { LeavesLink result (L.tale link.new) (L.faults link.old) (L.faults link.new) }
{
    if reader.feed(piece).is_err() {
        return Err(LinkEnd::Memory);
    }
    take_lines(r, link, clock, session, reader)
}

/// Answers the lines that the reader has.
fn take_lines<R: Runner, L: Link, C: Clock>(
    r: &mut R,
    link: &mut L,
    clock: &C,
    session: &mut Session,
    reader: &mut LineReader,
) -> Result<(), LinkEnd>
    requires here { is_gone session.old ≡ false }
    requires unclosed { LinkIsOpen (L.tale link.old) }
    ensures home { R.home r.new ≡ R.home r.old }
    ensures steps { (start : Stand) (turns : ℕ) → Progress (C.shows clock.now) start
        (stand_of (R.state r.old) session.old (L.tale link.old)) reader.old turns
        → AfterStep (C.shows clock.now) start
        (stand_of (R.state r.new) session.new (L.tale link.new)) reader.new turns result }
    ensures drained { OnOk result (IsDrained reader.new) }
    ensures here { OnOk result (is_gone session.new ≡ false) }
    ensures link { LeavesLink result (L.tale link.new) (L.faults link.old) (L.faults link.new) }
{
    loop {
        match reader.next() {
            Ok(Some(line)) => match answer(r, link, clock, session, Input::Line(line)) {
                Ok(()) => {}
                Err(end) => return Err(end),
            },
            Ok(None) => return Ok(()),
            Err(NoMemory) => return Err(LinkEnd::Memory),
        }
    }
}

/// Answers what is left of a line at the end.
fn take_rest<R: Runner, L: Link, C: Clock>(
    r: &mut R,
    link: &mut L,
    clock: &C,
    session: &mut Session,
    reader: &LineReader,
) -> LinkEnd
    requires here { is_gone session.old ≡ false }
    requires unclosed { LinkIsOpen (L.tale link.old) }
    ensures home { R.home r.new ≡ R.home r.old }
    ensures stops { (start : Stand) (taken : List Sign) → Halfway (C.shows clock.now) start
        (stand_of (R.state r.old) session.old (L.tale link.old)) taken true
        (map Line (option_to_list (rest_to_come reader.now [])))
        → Stops (C.shows clock.now) result start
        (stand_of (R.state r.new) session.new (L.tale link.new)) }
    ensures link { LeavesLink (Err result) (L.tale link.new) (L.faults link.old) (L.faults link.new) }
{
    match reader.rest() {
        Ok(Some(line)) => match answer(r, link, clock, session, Input::Line(line)) {
            Ok(()) => LinkEnd::End,
            Err(end) => end,
        },
        Ok(None) => LinkEnd::End,
        Err(NoMemory) => LinkEnd::Memory,
    }
}
