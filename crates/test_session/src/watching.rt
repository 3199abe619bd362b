//! A session looks on at 32 games, and at no more.

use crate::evenings::{enter, start};
use fics_words::{Fail, Line, Refusal, write_number};
use line_reader::Incoming;
use one_server::OneServer;
use session_core::{Input, Session};
use std::alloc::Global;
use std::test::Fail as TestFail;
use test_server_steps::talk::taken_at;
use test_server_steps::{handle, made, server};

/// The session that looks on.
const CAT: u32 = 100;

const FULL: &[u8] = b"refused 40 ListFull\n\rfics% ";

/// Lines that are refused to who looks on at 32 games.
const ONE_MORE: &[&[u8]] = &[b"observe 65", b"observe xcn", b"observe Nobody"];

const NO_NEWS: &[u8] = b"fics% ";

/// The name of a session.
fn name_of(session: u32) -> [u8; 3] {
    [b'x', letter(session / 26), letter(session % 26)]
}

fn letter(number: u32) -> u8 {
    b'a' + (number % 26) as u8
}

/// A session and the next one play against one another.
fn pair_plays(server: &mut OneServer, one: u32) -> Result<(), Fail> {
    let other = one.wrapping_add(1);
    let opponent = handle(&name_of(other))?;
    enter(server, one, handle(&name_of(one))?)?;
    enter(server, other, opponent)?;
    start(server, one, other, opponent)
}

/// Sessions 0 to 65 play in 33 pairs, and Cat enters.
fn all_play(server: &mut OneServer) -> Result<(), Fail> {
    for pair in 0..33u32 {
        pair_plays(server, 2 * pair)?;
    }
    enter(server, CAT, handle(b"Cat")?)
}

/// What Cat's session writes for a word and a number.
fn writes(
    alloc: Global,
    server: &mut OneServer,
    cat: &mut Session,
    word: &[u8],
    number: u64,
) -> Result<Vec<u8>, Fail> {
    let mut text = Vec::from_slice(alloc, word)?;
    write_number(&mut text, number)?;
    says(alloc, server, cat, text.as_slice())
}

/// What Cat's session writes for a line.
fn says(
    alloc: Global,
    server: &mut OneServer,
    cat: &mut Session,
    text: &[u8],
) -> Result<Vec<u8>, Fail> {
    match Line::read(alloc, text)? {
        Some(line) => taken_at(server, CAT, cat, 0, Input::Line(Incoming::Plain(line))),
        None => Err(Fail::Refused(Refusal::BadByte)),
    }
}

/// Whether Cat is shown the game of this number.
fn sees(alloc: Global, server: &mut OneServer, cat: &mut Session, game: u64) -> Result<bool, Fail> {
    Ok(writes(alloc, server, cat, b"observe ", game)?.starts_with(b"<12> "))
}

/// Whether Cat is shown the first boards of 32 desks, one after the other.
fn sees_32(alloc: Global, server: &mut OneServer, cat: &mut Session) -> Result<bool, Fail> {
    for desk in 0..32u64 {
        if !sees(alloc, server, cat, 2 * desk + 1)? {
            return Ok(false);
        }
    }
    Ok(true)
}

/// Whether this line is refused by Cat's session itself: its acts are the round of 32 games.
fn is_full(
    alloc: Global,
    server: &mut OneServer,
    cat: &mut Session,
    text: &[u8],
) -> Result<bool, Fail> {
    let before = made(server);
    let written = says(alloc, server, cat, text)?;
    Ok(written.as_slice() == FULL && made(server).wrapping_sub(before) == 33)
}

/// Whether Cat looks on at 32 games and at no more, whether it names a game, a player or nobody; and then at another
/// one in the place of one of them.
fn looks_on_at_32(alloc: Global, server: &mut OneServer) -> Result<bool, Fail> {
    all_play(server)?;
    let mut cat = Session::seated(alloc, handle(b"Cat")?);
    looks_on(alloc, server, &mut cat)
}

fn looks_on(alloc: Global, server: &mut OneServer, cat: &mut Session) -> Result<bool, Fail> {
    if !sees_32(alloc, server, cat)? {
        return Ok(false);
    }
    for text in ONE_MORE {
        if !is_full(alloc, server, cat, *text)? {
            return Ok(false);
        }
    }
    if writes(alloc, server, cat, b"unobserve ", 4)?.as_slice() != NO_NEWS {
        return Ok(false);
    }
    sees(alloc, server, cat, 65)
}

fn looks_on_at_32_anew(alloc: Global) -> Result<bool, Fail> {
    let mut server = server(alloc)?;
    looks_on_at_32(alloc, &mut server)
}

#[test]
fn a_session_looks_on_at_32_games(rt: HostRuntime) -> Result<(), TestFail> {
    assert!(rt; looks_on_at_32_anew(rt.alloc())?);
    Ok(())
}
