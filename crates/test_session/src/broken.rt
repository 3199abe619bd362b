//! Sessions that end while their player's game runs, each in its way: what they still do at the server, how the game
//! ends, what the opponent is told, and that others go on.

use crate::evenings::{Asked, enter, first_differing, takes};
use crate::links::{Gives, link_of};
use crate::short::ShortSeat;
use chess_model::{Colour, Why};
use edge_traits::StillClock;
use fics_words::{BoardNumber, DeskNumber, Fail as Failure};
use link_core::{LinkEnd, serve_link};
use linked_desk::Ended;
use memory::NoMemory;
use one_server::OneServer;
use session_core::Session;
use std::alloc::Global;
use std::test::Fail;
use test_server_steps::talk::{Comes, input_of, taken_at};
use test_server_steps::{handle, made, server};
use test_steps::assert_rows;

/// Ann, whose session ends.
const ANN: u32 = 1;

/// Ben, her opponent.
const BEN: u32 = 2;

/// Who comes in under her name.
const NEXT: u32 = 3;

/// The moment of all that Ann does, in milliseconds.
const MOMENT: u32 = 5_000;

/// More acts than Ann makes.
const NEVER: u32 = 1_000;

/// Ann makes an account, takes Ben's seek, and moves.
const MOVES: &[Gives] = &[
    Gives::Piece(b"Ann\n"),
    Gives::Piece(b"register abc\n"),
    Gives::Piece(b"play 1\n"),
    Gives::Piece(b"e4\n"),
];

/// And quits.
const QUITS: &[Gives] = &[
    Gives::Piece(b"Ann\n"),
    Gives::Piece(b"register abc\n"),
    Gives::Piece(b"play 1\n"),
    Gives::Piece(b"e4\n"),
    Gives::Piece(b"quit\n"),
];

/// Or pauses.
const PAUSES: &[Gives] = &[
    Gives::Piece(b"Ann\n"),
    Gives::Piece(b"register abc\n"),
    Gives::Piece(b"play 1\n"),
    Gives::Piece(b"e4\n"),
    Gives::Pause,
];

/// What Ben says before Ann comes, and how the game ends that she leaves.
struct Game(&'static [&'static [u8]], Option<Ended>);

/// Where Ben has no account, White has lost the game by leaving it.
const LOST: Game = Game(
    &[b"seek 2 12 black"],
    Some(Ended {
        why: Why::Left,
        board: BoardNumber::First,
        winner: Some(Colour::Black),
    }),
);

/// Where both have accounts, nobody has won.
const ADJOURNED: Game = Game(
    &[b"register abc", b"seek 2 12 black"],
    Some(Ended {
        why: Why::Adjourned,
        board: BoardNumber::First,
        winner: None,
    }),
);

/// What the link gives; the call of it that fails, if one does; and how many acts are made before one that runs out of
/// memory.
struct Course(&'static [Gives], &'static [u64], u32);

/// How the link ends, and how many acts Ann's session made before those of leaving.
struct Outcome(LinkEnd, usize);

/// What comes from Ben then; what his session writes for that by itself, and for what he is told.
struct Next(Comes, &'static [u8], &'static [u8]);

/// The acts of Ann's session while she plays. She enters; and she registers, takes the seek, moves and pauses, where
/// each act is followed by the round.
const PLAYING: &[Asked] = &[
    Asked::Other,
    Asked::Other,
    Asked::Lines,
    Asked::Other,
    Asked::Lines,
    Asked::News,
    Asked::Where,
    Asked::Move,
    Asked::Lines,
    Asked::News,
    Asked::Lines,
    Asked::News,
];

/// And when it leaves.
const LEAVING: &[Asked] = &[Asked::Going, Asked::Leave, Asked::Clear, Asked::Bye];

/// What Ben is told of the game, where Ann has moved.
const MOVED: &[u8] = b"{Game 1 (Ann vs. Ben) Creating 2 12 chess match.}\n\r\
      <12> rnbqkbnr pppppppp -------- -------- -------- -------- PPPPPPPP RNBQKBNR W -1 1 1 1 1 0 1 \
      Ann Ben -1 2 12 39 39 120 120 1 none (0:00) none 1\n\r\
      <12> rnbqkbnr pppppppp -------- -------- ----P--- -------- PPPP-PPP RNBQKBNR B 4 1 1 1 1 0 1 \
      Ann Ben 1 2 12 39 39 120 120 1 P/e2-e4 (0:00) e4 1\n\r\
      {Game 1 (Ann vs. Ben) Ann forfeits by disconnection} 0-1\n\r\
      fics% ";

/// And where she hasn't.
const UNMOVED: &[u8] = b"{Game 1 (Ann vs. Ben) Creating 2 12 chess match.}\n\r\
      <12> rnbqkbnr pppppppp -------- -------- -------- -------- PPPPPPPP RNBQKBNR W -1 1 1 1 1 0 1 \
      Ann Ben -1 2 12 39 39 120 120 1 none (0:00) none 1\n\r\
      {Game 1 (Ann vs. Ben) Ann forfeits by disconnection} 0-1\n\r\
      fics% ";

/// And where she has, and the game waits for her.
const WAITS: &[u8] = b"{Game 1 (Ann vs. Ben) Creating 2 12 chess match.}\n\r\
      <12> rnbqkbnr pppppppp -------- -------- -------- -------- PPPPPPPP RNBQKBNR W -1 1 1 1 1 0 1 \
      Ann Ben -1 2 12 39 39 120 120 1 none (0:00) none 1\n\r\
      <12> rnbqkbnr pppppppp -------- -------- ----P--- -------- PPPP-PPP RNBQKBNR B 4 1 1 1 1 0 1 \
      Ann Ben 1 2 12 39 39 120 120 1 P/e2-e4 (0:00) e4 1\n\r\
      {Game 1 (Ann vs. Ben) adjourned} *\n\r\
      fics% ";

/// A game, how it is broken off, and what comes then.
struct Row(Game, Course, Outcome, Next);

/// The opening is call 0 of the link, the answer to Ann's fourth line, which is the move, is call 8.
const ROWS: &[Row] = &[
    Row(
        LOST,
        Course(MOVES, &[9], NEVER),
        Outcome(LinkEnd::ReadFault, 10),
        Next(Comes::Quiet, b"\n\r", MOVED),
    ),
    Row(
        LOST,
        Course(MOVES, &[8], NEVER),
        Outcome(LinkEnd::WriteFault, 10),
        Next(Comes::Line(b""), b"", MOVED),
    ),
    Row(
        LOST,
        Course(MOVES, &[], NEVER),
        Outcome(LinkEnd::End, 10),
        Next(Comes::Line(b"who"), b"Ben\n\r", MOVED),
    ),
    Row(
        LOST,
        Course(QUITS, &[], NEVER),
        Outcome(LinkEnd::Quit, 10),
        Next(
            Comes::Line(b"tell ann hi"),
            b"refused 32 NoSuchPlayer\n\r",
            MOVED,
        ),
    ),
    Row(
        LOST,
        Course(MOVES, &[], 4),
        Outcome(LinkEnd::Memory, 4),
        Next(Comes::Line(b"e5"), b"refused 10 GameOver\n\r", UNMOVED),
    ),
    Row(
        LOST,
        Course(MOVES, &[], 5),
        Outcome(LinkEnd::Memory, 5),
        Next(Comes::Quiet, b"\n\r", UNMOVED),
    ),
    Row(
        LOST,
        Course(MOVES, &[], 6),
        Outcome(LinkEnd::Memory, 6),
        Next(Comes::Line(b"e5"), b"refused 10 GameOver\n\r", UNMOVED),
    ),
    Row(
        LOST,
        Course(MOVES, &[], 7),
        Outcome(LinkEnd::Memory, 7),
        Next(Comes::Quiet, b"\n\r", UNMOVED),
    ),
    Row(
        LOST,
        Course(MOVES, &[], 8),
        Outcome(LinkEnd::Memory, 8),
        Next(Comes::Line(b"e5"), b"refused 10 GameOver\n\r", MOVED),
    ),
    Row(
        LOST,
        Course(MOVES, &[], 9),
        Outcome(LinkEnd::Memory, 9),
        Next(Comes::Quiet, b"\n\r", MOVED),
    ),
    Row(
        LOST,
        Course(PAUSES, &[], 10),
        Outcome(LinkEnd::Memory, 10),
        Next(Comes::Quiet, b"\n\r", MOVED),
    ),
    Row(
        LOST,
        Course(PAUSES, &[], 11),
        Outcome(LinkEnd::Memory, 11),
        Next(Comes::Quiet, b"\n\r", MOVED),
    ),
    Row(
        ADJOURNED,
        Course(MOVES, &[9], NEVER),
        Outcome(LinkEnd::ReadFault, 10),
        Next(Comes::Quiet, b"\n\r", WAITS),
    ),
    Row(
        ADJOURNED,
        Course(MOVES, &[8], NEVER),
        Outcome(LinkEnd::WriteFault, 10),
        Next(Comes::Line(b"e5"), b"refused 10 GameOver\n\r", WAITS),
    ),
    Row(
        ADJOURNED,
        Course(MOVES, &[], NEVER),
        Outcome(LinkEnd::End, 10),
        Next(Comes::Quiet, b"\n\r", WAITS),
    ),
    Row(
        ADJOURNED,
        Course(QUITS, &[], NEVER),
        Outcome(LinkEnd::Quit, 10),
        Next(Comes::Quiet, b"\n\r", WAITS),
    ),
    Row(
        ADJOURNED,
        Course(MOVES, &[], 9),
        Outcome(LinkEnd::Memory, 9),
        Next(Comes::Quiet, b"\n\r", WAITS),
    ),
];

/// How Ann's link ends.
fn serves(alloc: Global, server: &mut OneServer, course: &Course) -> Result<LinkEnd, NoMemory> {
    let mut link = link_of(alloc, course.0, course.1)?;
    let clock = StillClock::new(u64::from(MOMENT));
    let mut seat = ShortSeat::new(server, ANN, course.2);
    Ok(serve_link(alloc, &mut seat, &mut link, &clock))
}

/// So many of Ann's acts, and then those of leaving.
fn acts_of(alloc: Global, playing: usize) -> Result<Vec<Asked>, NoMemory> {
    let mut acts = Vec::new(alloc);
    for asked in PLAYING.iter().take(playing) {
        acts.push(*asked)?;
    }
    acts.extend_from_slice(LEAVING)?;
    Ok(acts)
}

/// Whether Ann's session ends so, by these acts.
fn is_broken(
    alloc: Global,
    server: &mut OneServer,
    course: &Course,
    outcome: &Outcome,
) -> Result<bool, Failure> {
    let acts = acts_of(alloc, outcome.1)?;
    let start = made(server);
    let end = serves(alloc, server, course)?;
    let differing = first_differing(server, start, ANN, MOMENT, acts.as_slice());
    Ok(end == outcome.0 && differing.is_none())
}

/// Whether the game has ended so.
fn has_ended(server: &OneServer, game: &Game) -> bool {
    server.desk(DeskNumber::new(1)).ended() == game.1
}

/// Whether Ben's session writes this.
fn tells_ben(alloc: Global, server: &mut OneServer, next: &Next) -> Result<bool, Failure> {
    let text = takes(alloc, server, BEN, MOMENT, next.0)?;
    let length = next.1.len().wrapping_add(next.2.len());
    Ok(text.len() == length && text.starts_with(next.1) && text.ends_with(next.2))
}

/// Whether another session comes in under Ann's name, and hears what Ben tells it.
fn goes_on(alloc: Global, server: &mut OneServer) -> Result<bool, Failure> {
    let mut session = Session::new(alloc);
    comes_in(alloc, server, &mut session)
}

fn comes_in(alloc: Global, server: &mut OneServer, session: &mut Session) -> Result<bool, Failure> {
    let asked = answer(alloc, server, session, b"Ann")?;
    let entered = answer(alloc, server, session, b"abc")?;
    let told = takes(alloc, server, BEN, MOMENT, Comes::Line(b"tell ann hi"))?;
    let heard = answer(alloc, server, session, b"")?;
    Ok(
        asked.as_slice() == b"password: ".as_slice()
            && entered.as_slice() == b"Entered as Ann.\n\rfics% ".as_slice()
            && told.as_slice() == b"(told 1)\n\rfics% ".as_slice()
            && heard.as_slice() == b"Ben tells you: hi\n\rfics% ".as_slice(),
    )
}

fn answer(
    alloc: Global,
    server: &mut OneServer,
    session: &mut Session,
    text: &'static [u8],
) -> Result<Vec<u8>, Failure> {
    let input = input_of(alloc, Comes::Line(text))?;
    taken_at(server, NEXT, session, MOMENT, input)
}

/// Ben comes in and says what he says before Ann comes.
fn comes_first(alloc: Global, server: &mut OneServer, game: &Game) -> Result<(), Failure> {
    enter(server, BEN, handle(b"Ben")?)?;
    for line in game.0 {
        let _text = takes(alloc, server, BEN, 0, Comes::Line(line))?;
    }
    Ok(())
}

fn holds(alloc: Global, server: &mut OneServer, row: &Row) -> Result<bool, Failure> {
    comes_first(alloc, server, &row.0)?;
    Ok(
        is_broken(alloc, server, &row.1, &row.2)?
            && has_ended(server, &row.0)
            && tells_ben(alloc, server, &row.3)?
            && goes_on(alloc, server)?,
    )
}

fn holds_anew(alloc: Global, row: &Row) -> Result<bool, Failure> {
    let mut server = server(alloc)?;
    holds(alloc, &mut server, row)
}

#[test]
fn a_session_that_ends_in_a_game_leaves_it(rt: HostRuntime) -> Result<(), Fail> {
    assert_rows!(rt; ROWS, |row| holds_anew(rt.alloc(), row)?);
    Ok(())
}
