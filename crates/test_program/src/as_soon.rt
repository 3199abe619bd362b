//! What is read is answered before anything more is read: a source notes how much stands in the sink at each read. No
//! contract of `run` says so, since contracts compare what stood before a call with what stands behind it.

use crate::stores::E4;
use cmd_run::run;
use edge_traits::{Got, Keeper, Kept, Sent, Sink, Source};
use memory_edges::{MemKeeper, MemSink};
use std::alloc::Global;
use std::cell::Cell;
use std::process::Abort;
use std::test::Fail;
use test_steps::assert_rows;

/// What one read gives, and the text that is to stand behind all earlier ones at the next read, or at the end.
struct Said(&'static str, &'static str);

/// The words, what stands before the first read, and the pieces.
struct Row(&'static [&'static str], &'static str, &'static [Said]);

const START: &str =
    "<12> rnbqkbnr pppppppp -------- -------- -------- -------- PPPPPPPP RNBQKBNR W -1 1 1 1 1 0 1 Ann Ben 2 0 0 39 39 0 0 1 none (0:00) none 0\n";

const PAWN: &str =
    "<12> rnbqkbnr pppppppp -------- -------- ----P--- -------- PPPP-PPP RNBQKBNR B 4 1 1 1 1 0 1 Ann Ben 2 0 0 39 39 0 0 1 P/e2-e4 (0:00) e4 0\n";

const ROWS: &[Row] = &[
    Row(
        &["board"],
        "",
        &[
            Said(
                "e2e4\n",
                "<12> rnbqkbnr pppppppp -------- -------- ----P--- -------- PPPP-PPP RNBQKBNR B 4 1 1 1 1 0 1 White Black 0 0 0 39 39 0 0 1 P/e2-e4 (0:00) e4 0\n\r",
            ),
            Said("P@e4\n", "refused 4 NoDrops\n\r"),
            // a line is answered once it is whole
            Said("e7", ""),
            Said(
                "e5\n",
                "<12> rnbqkbnr pppp-ppp -------- ----p--- ----P--- -------- PPPP-PPP RNBQKBNR W 4 1 1 1 1 0 1 White Black 0 0 0 39 39 0 0 2 P/e7-e5 (0:00) e5 0\n\r",
            ),
        ],
    ),
    Row(
        &["replay"],
        "",
        &[
            Said("seat Ann Ben 2 12 chess\n", ""),
            Said(
                "3000 1 > e2e4\n",
                "1|{Game 1 (Ann vs. Ben) Creating 2 12 chess match.}
1|<12> rnbqkbnr pppppppp -------- -------- -------- -------- PPPPPPPP RNBQKBNR W -1 1 1 1 1 0 1 Ann Ben 1 2 12 39 39 120 120 1 none (0:00) none 0
1|<12> rnbqkbnr pppppppp -------- -------- ----P--- -------- PPPP-PPP RNBQKBNR B 4 1 1 1 1 0 1 Ann Ben -1 2 12 39 39 120 120 1 P/e2-e4 (0:00) e4 0
1|fics%\x20
",
            ),
        ],
    ),
    Row(
        &["examine", "--store", "x", "--game", "1"],
        START,
        &[Said("forward\n", PAWN), Said("back\n", START)],
    ),
    Row(
        &["tourney"],
        "",
        &[
            Said("join Ann\n", "Ok.\n"),
            Said("join ann\n", "refused 24 HandleTaken\n"),
            Said("join Ben\n", "Ok.\n"),
            Said("start\n", "rounds 1\n"),
            Said("round 1\n", "Ann - Ben\n"),
        ],
    ),
    // the position is known at the end alone
    Row(
        &["bot", "1"],
        "",
        &[
            Said("chess\n", ""),
            Said("f3\n", ""),
            Said("e5\n", ""),
            Said("g4\n", ""),
            Said("", "d8h4 100000\n"),
        ],
    ),
    Row(
        &["tidy"],
        "",
        &[
            Said("1. e4 ", ""),
            Said(
                "*\n",
                "[Event \"?\"]\n[Site \"?\"]\n[Date \"????.??.??\"]\n[Round \"?\"]\n[White \"?\"]\n[Black \"?\"]\n[Result \"*\"]\n\n1. e4 *\n\n",
            ),
            Said(
                "1. d4 *\n",
                "[Event \"?\"]\n[Site \"?\"]\n[Date \"????.??.??\"]\n[Round \"?\"]\n[White \"?\"]\n[Black \"?\"]\n[Result \"*\"]\n\n1. d4 *\n\n",
            ),
        ],
    ),
];

/// Gives one piece in each read, and notes the first one before which another number of bytes stood than was due.
#[derive(Drop)]
struct Pieces<'a> {
    pieces: &'a [Said],
    at: usize,
    due: usize,
    stands: &'a Cell<usize>,
    wrong: Option<usize>,
}

impl Source for Pieces<'_> {
    ghost use Rattle.std.specs.Prelude.{None};

    ghost left = { λ _. None };

    ghost faults = { λ _. 0 };

    fn read(&mut self, buf: &mut [u8]) -> Got {
        if self.stands.get() != self.due && self.wrong.is_none() {
            self.wrong = Some(self.at);
        }
        let Some(Said(piece, due)) = self.pieces.get(self.at) else {
            return Got::End;
        };
        let n = piece.len().min(buf.len());
        if n < 1 {
            return Got::End;
        }
        buf[..n].copy_from_slice(&piece.as_bytes()[..n]);
        self.at += 1;
        self.due = self.due.saturating_add(due.len());
        Got::Bytes(n)
    }
}

/// Keeps what it is written, and tells the source how many bytes that is.
#[derive(Drop)]
struct Seen<'a> {
    text: MemSink,
    stands: &'a Cell<usize>,
}

impl Sink for Seen<'_> {
    ghost use Rattle.std.specs.Prelude.{None};

    ghost written = { λ _. None };

    ghost faults = { λ sink. sink.text.plan.faults };

    fn write(&mut self, bytes: &[u8]) -> Sent {
        let sent = self.text.write(bytes);
        self.stands.set(self.text.written().len());
        sent
    }
}

/// Whether the run ends well, each answer stood before more was read, and all of them are the text that was written.
fn is_answered_at_once(alloc: Global, row: &Row) -> Result<bool, Fail> {
    let mut words = Vec::new(alloc);
    for word in row.0 {
        words.push(String::from_str(alloc, word)?)?;
    }
    let mut keeper = MemKeeper::new(alloc, Vec::new(alloc));
    if keeper.put(E4.0, E4.1) != Kept::Done {
        return Ok(false);
    }
    let stands = Cell::new(0);
    let mut source = Pieces {
        pieces: row.2,
        at: 0,
        due: row.1.len(),
        stands: &stands,
        wrong: None,
    };
    let mut sink = Seen {
        text: MemSink::new(alloc, Vec::new(alloc)),
        stands: &stands,
    };
    let status = run(alloc, words.as_slice(), &mut source, &mut sink, &mut keeper);
    Ok(status == 0 && source.wrong.is_none() && has_all(sink.text.written(), row))
}

/// Whether these bytes are the texts of the row, one after the other.
fn has_all(bytes: &[u8], row: &Row) -> bool {
    let Some(mut rest) = bytes.strip_prefix(row.1.as_bytes()) else {
        return false;
    };
    for Said(_, due) in row.2 {
        match rest.strip_prefix(due.as_bytes()) {
            Some(more) => rest = more,
            None => return false,
        }
    }
    rest.is_empty()
}

#[test]
fn what_is_read_is_answered_before_more_is_read(rt: HostRuntime) -> Result<(), Fail> {
    assert_rows!(rt; ROWS, |row| is_answered_at_once(rt.alloc(), row)?);
    Ok(())
}
