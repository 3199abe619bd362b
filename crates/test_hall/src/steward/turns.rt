//! Turns over a keeper in memory, each with its end, and with what the keeper has afterwards.

ghost use Rattle.lobby_state.specs.Acts.{FitsLobby};

use clock_ledger::Moment;
use fics_words::Handle;
use lobby_state::{Lobby, LobbyAct};
use memory::NoMemory;
use memory_edges::MemKeeper;
use one_server::{Act, OneServer};
use std::alloc::Global;
use steward_core::{StewardEnd, steward_turn};
use test_steps::assert_rows;

/// How a turn ends.
#[derive(Clone, Copy)]
enum Ends {
    Done(u32),
    KeeperFault,
}

/// A turn: how it ends, and how many pairs the keeper has then.
#[derive(Clone, Copy)]
struct Turn(Ends, usize);

/// So many members register; of the keeper's calls those of these numbers, from 0, fail; the turns; and how often the
/// steward has asked for orders in all of them.
struct Row {
    members: u16,
    fails: &'static [u64],
    turns: &'static [Turn],
    asked: usize,
}

const ROWS: &[Row] = &[
    Row {
        members: 0,
        fails: &[],
        turns: &[Turn(Ends::Done(0), 0)],
        asked: 1,
    },
    Row {
        members: 1,
        fails: &[],
        turns: &[Turn(Ends::Done(1), 1), Turn(Ends::Done(0), 1)],
        asked: 2,
    },
    Row {
        members: 2,
        fails: &[1],
        turns: &[Turn(Ends::KeeperFault, 1), Turn(Ends::Done(1), 2)],
        asked: 2,
    },
    Row {
        members: 16,
        fails: &[],
        turns: &[Turn(Ends::Done(16), 16)],
        asked: 2,
    },
    Row {
        members: 40,
        fails: &[],
        turns: &[Turn(Ends::Done(40), 40)],
        asked: 3,
    },
    Row {
        members: 40,
        fails: &[20, 21],
        turns: &[
            Turn(Ends::KeeperFault, 20),
            Turn(Ends::KeeperFault, 20),
            Turn(Ends::Done(20), 40),
        ],
        asked: 5,
    },
];

/// The pair of the account `aax` with a digest of sevens: its key, and its record but for the digest.
const KEY: &[u8] = b"aaax";

const HEAD: &[u8] = b"\x01\x41\x03aax";

const DIGEST: [u8; 32] = [7; 32];

#[test]
fn turns_save_what_stands(rt: HostRuntime) -> Result<(), NoMemory> {
    assert_rows!(rt; ROWS, |row| goes(rt.alloc(), row)?);
    Ok(())
}

#[test]
fn the_pair_is_the_account(rt: HostRuntime) -> Result<(), NoMemory> {
    assert!(rt; saves_the_account(rt.alloc())?);
    Ok(())
}

/// Whether the row goes as it says.
fn goes(alloc: Global, row: &Row) -> Result<bool, NoMemory> {
    let fails = Vec::from_slice(alloc, row.fails)?;
    let keeper = MemKeeper::new(alloc, fails);
    let server = served(alloc, row.members)?;
    Ok(turns_go(alloc, server, keeper, row))
}

/// Whether the turns end as they should.
fn turns_go(alloc: Global, mut server: OneServer, mut keeper: MemKeeper, row: &Row) -> bool {
    for turn in row.turns {
        let end = steward_turn(alloc, &mut server.seat(0), &mut keeper, Moment::new(0));
        if !is_end(end, turn.0) || keeper.pairs().len() != turn.1 {
            return false;
        }
    }
    asked(&server) == row.asked
}

/// How often orders were asked for.
fn asked(server: &OneServer) -> usize {
    server
        .history()
        .iter()
        .filter(|entry| matches!(&entry.act.act, Act::Lobby(LobbyAct::Orders)))
        .count()
}

/// Whether the turn ended so.
fn is_end(end: StewardEnd, wanted: Ends) -> bool {
    match (end, wanted) {
        (StewardEnd::Done(one), Ends::Done(other)) => one == other,
        (StewardEnd::KeeperFault, Ends::KeeperFault) => true,
        _ => false,
    }
}

/// Whether the account's pair is the one that the format has for it.
fn saves_the_account(alloc: Global) -> Result<bool, NoMemory> {
    let mut server = served(alloc, 1)?;
    let mut keeper = MemKeeper::new(alloc, Vec::new(alloc));
    let _end = steward_turn(alloc, &mut server.seat(0), &mut keeper, Moment::new(0));
    Ok(match keeper.pairs().first() {
        Some(pair) => pair.key.as_slice() == KEY && is_record(pair.bytes.as_slice()),
        None => false,
    })
}

/// Whether the bytes are the account's record.
fn is_record(bytes: &[u8]) -> bool {
    match bytes.split_at_checked(HEAD.len()) {
        Some((head, digest)) => head == HEAD && digest == DIGEST.as_slice(),
        None => false,
    }
}

/// A server where so many members have come in and have registered.
#[tactic(auto, using(one_server::proofs::Opens::opening_is))]
fn served(alloc: Global, members: u16) -> Result<OneServer, NoMemory> {
    let mut server = OneServer::new(alloc, Lobby::new(alloc)?)?;
    for number in 0..members {
        comes(&mut server, number)?;
    }
    Ok(server)
}

/// A member comes in and registers.
fn comes(server: &mut OneServer, number: u16) -> Result<(), NoMemory> {
    let name = Handle::read(&[letter(number / 26), letter(number), b'x']);
    let session = u32::from(number) + 1;
    runs(server, session, LobbyAct::Enter { name, digest: None })?;
    runs(server, session, LobbyAct::Register { digest: DIGEST })
}

/// The small letter of that number, counted from 0 and round again behind the last one.
fn letter(number: u16) -> u8 {
    b'a' + (number % 26) as u8
}

/// Makes a lobby act.
fn runs(server: &mut OneServer, session: u32, act: LobbyAct) -> Result<(), NoMemory>
    requires { FitsLobby act }
{
    let _reply = server.run(session, 0, Act::Lobby(act))?;
    Ok(())
}
