//! What comes from a session that is drawn.

ghost use Rattle.std.specs.Prelude.{◌≡◌, ◌<◌, ◌≤◌, ◌++◌, ℕ, IfOk, decimal};
ghost use Rattle.fics_words.specs.Line.{IsLine};
ghost use Rattle.one_server.specs.Server.{parts_in};
ghost use Rattle.cmd_demo.specs.Said.{AreWords, IsSaid, letters_of, moving, naming_one, numbered, said_by, says};
ghost use Rattle.cmd_demo.specs.Turns.{moves_of_session};

use crate::names::name_in;
use crate::steps::SESSIONS;
use crate::turns::moves_of;
use crate::wish::Wish;
use chess_model::Move;
use fics_words::{Handle, Line, write_number};
use memory::NoMemory;
use move_writer::spelling;
use one_server::OneServer;
use replay_core::{Draws, ScriptEvent};
use std::alloc::Global;

/// What comes from the session by its wish. Draws only what its line needs.
pub(crate) fn said_by(
    alloc: Global,
    wish: Wish,
    session: u32,
    server: &OneServer,
    draws: &mut Draws,
) -> Result<ScriptEvent, NoMemory>
    ensures { IfOk result (IsSaid (said_by wish session draws.old server.now) draws.new) }
{
    match wish {
        Wish::SeekChess => plain(alloc, b"seek 5 0"),
        Wish::SeekCrazyhouse => plain(alloc, b"seek 3 2 crazyhouse"),
        Wish::Play => numbered(alloc, b"play ", 8, draws),
        Wish::Tell => plain(alloc, b"tell 1 hello"),
        Wish::Join => plain(alloc, b"+channel 1"),
        Wish::Observe => numbered(alloc, b"observe ", 16, draws),
        Wish::Partner => naming(alloc, b"partner ", b"", server, draws),
        Wish::MatchPairs => naming(alloc, b"match ", b" 2 0 bughouse", server, draws),
        Wish::Accept => plain(alloc, b"accept"),
        Wish::Draw => plain(alloc, b"draw"),
        Wish::TakeBack => plain(alloc, b"takeback 1"),
        Wish::Flag => plain(alloc, b"flag"),
        Wish::Kibitz => plain(alloc, b"kibitz good"),
        Wish::Move => moving(alloc, session, server, draws),
    }
}

/// A line of these words.
pub(crate) fn plain(alloc: Global, words: &[u8]) -> Result<ScriptEvent, NoMemory>
    requires { AreWords words.now }
    ensures { IfOk result (λ event. (number : ℕ) → IsSaid (says words.now number) number event) }
{
    let bytes = Vec::from_slice(alloc, words)?;
    Ok(ScriptEvent::Plain(Line::from_bytes(bytes)))
}

/// A line of these words and a number that is drawn, from 1 to `most`.
fn numbered(
    alloc: Global,
    front: &[u8],
    most: u64,
    draws: &mut Draws,
) -> Result<ScriptEvent, NoMemory>
    requires words { AreWords front.now }
    requires some { 0 < most }
    requires few { most ≤ 16 }
    ensures { IfOk result (IsSaid (numbered front.now most draws.old) draws.new) }
{
    let number = 1 + draws.draw(most);
    let bytes = number_text(alloc, front, number)?;
    Ok(ScriptEvent::Plain(Line::from_bytes(bytes)))
}

/// The words and the number behind them.
fn number_text(alloc: Global, front: &[u8], number: u64) -> Result<Vec<u8>, NoMemory>
    ensures { IfOk result (λ text. text.items ≡ front.now ++ decimal number) }
{
    let mut text = Vec::from_slice(alloc, front)?;
    write_number(&mut text, number)?;
    Ok(text)
}

/// A line with the name of a session that is drawn, between these words.
fn naming(
    alloc: Global,
    front: &[u8],
    back: &[u8],
    server: &OneServer,
    draws: &mut Draws,
) -> Result<ScriptEvent, NoMemory>
    requires front { AreWords front.now }
    requires back { AreWords back.now }
    ensures { IfOk result (IsSaid (naming_one front.now back.now draws.old server.now.log) draws.new) }
{
    let session = 1 + draws.draw(u64::from(SESSIONS)) as u32;
    let name = name_in(session, server.history());
    let bytes = name_text(alloc, front, name, back)?;
    Ok(ScriptEvent::Plain(Line::from_bytes(bytes)))
}

/// The name between the words.
fn name_text(
    alloc: Global,
    front: &[u8],
    name: Option<Handle>,
    back: &[u8],
) -> Result<Vec<u8>, NoMemory>
    requires front { AreWords front.now }
    requires back { AreWords back.now }
    ensures text { IfOk result (λ text. text.items ≡ front.now ++ letters_of name ++ back.now) }
    ensures line { IfOk result (λ text. IsLine text.items) }
{
    match name {
        None => joined(alloc, front, b"", back),
        Some(name) => joined(alloc, front, name.letters(), back),
    }
}

/// Three pieces of a text, one behind another.
fn joined(alloc: Global, one: &[u8], two: &[u8], three: &[u8]) -> Result<Vec<u8>, NoMemory>
    ensures { IfOk result (λ text. text.items ≡ one.now ++ two.now ++ three.now) }
{
    let mut text = Vec::from_slice(alloc, one)?;
    text.extend_from_slice(two)?;
    text.extend_from_slice(three)?;
    Ok(text)
}

/// One of the half-moves that the session could make, which is drawn; nothing where it could make none.
fn moving(
    alloc: Global,
    session: u32,
    server: &OneServer,
    draws: &mut Draws,
) -> Result<ScriptEvent, NoMemory>
    ensures { IfOk result (IsSaid (moving (moves_of_session session (parts_in server.now)) draws.old) draws.new) }
{
    let moves = moves_of(alloc, session, server)?;
    chosen(alloc, moves.as_slice(), draws)
}

/// One of the half-moves, which is drawn; nothing where there are none.
fn chosen(alloc: Global, moves: &[Move], draws: &mut Draws) -> Result<ScriptEvent, NoMemory>
    ensures { IfOk result (IsSaid (moving moves.now draws.old) draws.new) }
{
    if moves.is_empty() {
        return Ok(ScriptEvent::Quiet);
    }
    let place = draws.draw(moves.len() as u64) as usize;
    let text = spelling(&moves[place]);
    plain(alloc, text.bytes())
}
