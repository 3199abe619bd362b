//! Stores that are opened, each with what comes of it and with what is written of it.

use edge_traits::{Keeper, Kept};
use lobby_load::{StoreFault, open_store};
use lobby_state::Lobby;
use memory::NoMemory;
use memory_edges::{MemKeeper, MemSink};
use std::alloc::Global;
use test_steps::assert_rows;

/// A key and its record.
type Row = (&'static [u8], &'static [u8]);

/// What comes of opening a store.
#[derive(Clone, Copy)]
enum Outcome {
    /// A lobby with so many accounts and so many stored games.
    Lobby(u32, u32),
    /// The line that tells of a bad record.
    Bad(&'static [u8]),
    KeeperFault,
    WriteFault,
}

/// The rows that were put; of the keeper's calls behind them, and of the sink's, those of these numbers fail; and what
/// comes of opening.
struct Case(&'static [Row], &'static [u64], &'static [u64], Outcome);

/// The keys and records of two accounts, and of their untimed game of chess after e2e4.
const ANN_KEY: &[u8] = b"aann";

const ANN: &[u8] = b"\x01\x41\x03Annaaaaaaaaaaaaaaaaaaaaaaaaaaaaaaaa";

const BEN_KEY: &[u8] = b"aben";

const BEN: &[u8] = b"\x01\x41\x03Benbbbbbbbbbbbbbbbbbbbbbbbbbbbbbbbb";

const GAME_KEY: &[u8] = b"g\x00\x00\x00\x00\x00\x00\x00\x07";

const GAME: &[u8] = b"\x01\x47\x00\x00\x00\x00\x00\x03Ann\x03Ben\x00\x01\x18\xe0\x00";

/// The three, not in the order of their keys.
const THE_THREE: &[Row] = &[(GAME_KEY, GAME), (BEN_KEY, BEN), (ANN_KEY, ANN)];

const CASES: &[Case] = &[
    Case(&[], &[], &[], Outcome::Lobby(0, 0)),
    Case(THE_THREE, &[], &[], Outcome::Lobby(2, 1)),
    Case(&[], &[0], &[], Outcome::KeeperFault),
    Case(&[(ANN_KEY, ANN)], &[1], &[], Outcome::KeeperFault),
    // No record has one byte.
    Case(
        &[(b"a", b"\x00")],
        &[],
        &[],
        Outcome::Bad(b"bad record 61\n"),
    ),
    Case(&[(b"a", b"\x00")], &[], &[0], Outcome::WriteFault),
    // The key of no bytes is written as nothing, behind the blank.
    Case(
        &[(ANN_KEY, ANN), (b"", b"")],
        &[],
        &[],
        Outcome::Bad(b"bad record \n"),
    ),
    // The first of two, in the order of their keys and not as they were put.
    Case(
        &[(b"\xff\x0a", b"\x00"), (ANN_KEY, ANN), (b"aC", b"\x00")],
        &[],
        &[],
        Outcome::Bad(b"bad record 6143\n"),
    ),
    // An account under the name of another, or under its own in capitals.
    Case(
        &[(ANN_KEY, ANN), (b"abeo", BEN)],
        &[],
        &[],
        Outcome::Bad(b"bad record 6162656f\n"),
    ),
    Case(
        &[(b"aAnn", ANN)],
        &[],
        &[],
        Outcome::Bad(b"bad record 61416e6e\n"),
    ),
    // An account under the key of a game, and a game under that of an account.
    Case(
        &[(GAME_KEY, ANN)],
        &[],
        &[],
        Outcome::Bad(b"bad record 670000000000000007\n"),
    ),
    Case(
        &[(ANN_KEY, GAME)],
        &[],
        &[],
        Outcome::Bad(b"bad record 61616e6e\n"),
    ),
    // Numbers of games begin with 1.
    Case(
        &[(b"g\x00\x00\x00\x00\x00\x00\x00\x00", GAME)],
        &[],
        &[],
        Outcome::Bad(b"bad record 670000000000000000\n"),
    ),
    // The greatest number, and two games that have the same half-moves.
    Case(
        &[
            (GAME_KEY, GAME),
            (b"g\xff\xff\xff\xff\xff\xff\xff\xff", GAME),
        ],
        &[],
        &[],
        Outcome::Lobby(0, 2),
    ),
    // A pawn goes from e2 to e5.
    Case(
        &[(
            GAME_KEY,
            b"\x01\x47\x00\x00\x00\x00\x00\x03Ann\x03Ben\x00\x01\x19\x20\x00",
        )],
        &[],
        &[],
        Outcome::Bad(b"bad record 670000000000000007\n"),
    ),
    // What stands behind a record that is whole.
    Case(
        &[(
            GAME_KEY,
            b"\x01\x47\x00\x00\x00\x00\x00\x03Ann\x03Ben\x00\x01\x18\xe0\x00\x00",
        )],
        &[],
        &[],
        Outcome::Bad(b"bad record 670000000000000007\n"),
    ),
    // Whoever plays needs no account, and two of one name have a game that nobody can resume.
    Case(
        &[(
            GAME_KEY,
            b"\x01\x47\x00\x00\x00\x00\x00\x03Ann\x03Ann\x00\x00",
        )],
        &[],
        &[],
        Outcome::Lobby(0, 1),
    ),
];

#[test]
fn stores_are_opened(rt: HostRuntime) -> Result<(), NoMemory> {
    assert_rows!(rt; CASES, |case| goes(rt.alloc(), case)?);
    Ok(())
}

#[test]
fn what_was_put_is_loaded(rt: HostRuntime) -> Result<(), NoMemory> {
    assert!(rt; loads_the_three(rt.alloc())?);
    Ok(())
}

/// Whether the case goes as it says.
fn goes(alloc: Global, case: &Case) -> Result<bool, NoMemory> {
    let mut keeper = MemKeeper::new(alloc, Vec::from_slice(alloc, case.1)?);
    let mut sink = MemSink::new(alloc, Vec::from_slice(alloc, case.2)?);
    let held = put_all(&mut keeper, case.0) && comes(alloc, &mut keeper, &mut sink, case.3);
    Ok(held)
}

/// Whether all of the rows were put.
fn put_all(keeper: &mut MemKeeper, rows: &[Row]) -> bool {
    rows.iter()
        .all(|(key, record)| keeper.put(key, record) == Kept::Done)
}

/// Whether this comes of opening the store.
fn comes(alloc: Global, keeper: &mut MemKeeper, sink: &mut MemSink, wanted: Outcome) -> bool {
    let answer = opened(alloc, keeper, sink);
    let text = sink.written();
    match (answer, wanted) {
        (Ok(sizes), Outcome::Lobby(accounts, games)) => {
            sizes == (accounts, games) && text.is_empty()
        }
        (Err(StoreFault::BadRecord), Outcome::Bad(line)) => text == line,
        (Err(StoreFault::KeeperFault), Outcome::KeeperFault) => text.is_empty(),
        (Err(StoreFault::WriteFault), Outcome::WriteFault) => true,
        _ => false,
    }
}

/// Opens the store: how many accounts and stored games the lobby has. It ensures nothing, so that nothing above it is
/// proved over what opening does.
fn opened(
    alloc: Global,
    keeper: &mut MemKeeper,
    sink: &mut MemSink,
) -> Result<(u32, u32), StoreFault> {
    let lobby = open_store(alloc, keeper, sink)?;
    Ok(lobby.sizes())
}

/// Whether Ann, Ben and their game are loaded as they were put.
fn loads_the_three(alloc: Global) -> Result<bool, NoMemory> {
    let mut keeper = MemKeeper::new(alloc, Vec::new(alloc));
    let mut sink = MemSink::new(alloc, Vec::new(alloc));
    if !put_all(&mut keeper, THE_THREE) {
        return Ok(false);
    }
    Ok(match open_store(alloc, &mut keeper, &mut sink) {
        Ok(lobby) => are_the_three(&lobby),
        Err(_) => false,
    })
}

/// Whether the lobby has Ann and Ben and their game under its number, and nothing else.
fn are_the_three(lobby: &Lobby) -> bool {
    let [ann, ben] = lobby.accounts() else {
        return false;
    };
    let [row] = lobby.shelf() else {
        return false;
    };
    ann.name.letters() == b"Ann".as_slice()
        && ann.digest == [b'a'; 32]
        && ben.name.letters() == b"Ben".as_slice()
        && ben.digest == [b'b'; 32]
        && row.number == 7
        && row.game.halves.len() == 1
}
