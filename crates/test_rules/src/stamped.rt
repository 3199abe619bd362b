//! Charges with the stamps of clients, with figures by hand.

use crate::playing::{STRANGE, new_board, play_next, remaining, terms};
use chess_model::{Colour, Variant};
use clock_ledger::{Charge, STAMP_CYCLE};
use game_board::GameBoard;
use std::alloc::Global;
use std::process::Abort;
use std::test::Fail;
use test_steps::first_wrong;

/// What comes to a board.
#[derive(Clone, Copy)]
enum Comes {
    /// A word of the colour to move at a moment, which is played, with the client's stamp if it has one.
    Plays(u32, &'static str, Option<u32>),
    /// A word that is refused.
    Tries(u32, &'static str, Option<u32>),
    /// The client of a colour acknowledges the board.
    Acks(Colour, u32),
}

use Comes::{Acks, Plays, Tries};

/// The client of a colour acknowledges the board, with a stamp that is one.
fn acks(board: &mut GameBoard, colour: Colour, stamp: u32) -> bool {
    if stamp >= STAMP_CYCLE {
        return false;
    }
    board.acked(colour, stamp);
    true
}

/// Whether a word is played at a moment, or refused by the board.
fn plays(board: &mut GameBoard, moment: u32, text: &str, stamp: Option<u32>) -> bool {
    play_next(board, u64::from(moment), text, stamp).is_ok()
}

fn is_refused(board: &mut GameBoard, moment: u32, text: &str, stamp: Option<u32>) -> bool {
    match play_next(board, u64::from(moment), text, stamp) {
        Ok(()) => false,
        Err(cause) => cause != STRANGE,
    }
}

/// Whether it comes as it has to.
fn holds(board: &mut GameBoard, what: Comes) -> bool {
    match what {
        Plays(moment, text, stamp) => plays(board, moment, text, stamp),
        Tries(moment, text, stamp) => is_refused(board, moment, text, stamp),
        Acks(colour, stamp) => acks(board, colour, stamp),
    }
}

/// A game of two minutes after all this.
fn board_after(alloc: Global, all: &[Comes]) -> Result<GameBoard, Fail> {
    let mut board = new_board(alloc, terms(2, 0, Variant::Chess))?;
    for what in all {
        if !holds(&mut board, *what) {
            return Err("it has to come otherwise".into());
        }
    }
    Ok(board)
}

const W: Colour = Colour::White;

const B: Colour = Colour::Black;

/// The first half-move of each colour, which is free.
const E4: Comes = Plays(3_000, "e2e4", None);

const E5: Comes = Plays(5_000, "e7e5", None);

/// What comes, the two stamps that the last charge keeps, and what it amounts to.
type Row = (&'static [Comes], Option<(u32, u32)>, u64);

/// Whether the last charge, from `begin` to `end`, is as the row has it.
fn is_charged(alloc: Global, row: &Row, begin: u64, end: u64) -> Result<bool, Fail> {
    let (all, client, amount) = row;
    let board = board_after(alloc, all)?;
    let charge = Charge {
        begin,
        end,
        client: *client,
    };
    Ok(last_charge(&board) == Some(Some(charge)) && board.last_taken() == *amount)
}

/// The charge of the last half-move, if there is one.
fn last_charge(board: &GameBoard) -> Option<Option<Charge>> {
    match board.list().last() {
        Some(half) => Some(half.charge),
        None => None,
    }
}

/// White plays `g1f3` at 9,000.
const TO_MOVE: &[Row] = &[
    (&[E4, E5, Plays(9_000, "g1f3", None)], None, 4_000),
    // both stamps are there: 5,000 is more than 4,000, and 200 is less
    (
        &[E4, E5, Acks(W, 1_000), Plays(9_000, "g1f3", Some(6_000))],
        Some((1_000, 6_000)),
        4_000,
    ),
    (
        &[E4, E5, Acks(W, 1_000), Plays(9_000, "g1f3", Some(1_200))],
        Some((1_000, 1_200)),
        200,
    ),
    // the last number before the cycle begins anew is 9,999,999
    (
        &[E4, E5, Acks(W, 9_999_900), Plays(9_000, "g1f3", Some(100))],
        Some((9_999_900, 100)),
        200,
    ),
    // a later acknowledgement replaces the earlier one
    (
        &[
            E4,
            E5,
            Acks(W, 1_000),
            Acks(W, 1_100),
            Plays(9_000, "g1f3", Some(1_200)),
        ],
        Some((1_100, 1_200)),
        100,
    ),
    // one stamp alone isn't kept
    (
        &[E4, E5, Acks(W, 1_000), Plays(9_000, "g1f3", None)],
        None,
        4_000,
    ),
    (&[E4, E5, Plays(9_000, "g1f3", Some(1_200))], None, 4_000),
    // nor one of the player who isn't to move
    (
        &[E4, E5, Acks(B, 1_000), Plays(9_000, "g1f3", Some(1_200))],
        None,
        4_000,
    ),
    (
        &[
            E4,
            E5,
            Acks(W, 1_000),
            Acks(B, 1_100),
            Plays(9_000, "g1f3", Some(1_200)),
        ],
        Some((1_000, 1_200)),
        200,
    ),
    // a word that is refused leaves what was kept
    (
        &[
            E4,
            E5,
            Acks(W, 1_000),
            Tries(6_000, "e4e6", Some(1_100)),
            Plays(9_000, "g1f3", Some(1_200)),
        ],
        Some((1_000, 1_200)),
        200,
    ),
];

/// Black plays `b8c6` at 9,500.
const CLEARED: &[Row] = &[
    (
        &[
            E4,
            E5,
            Acks(W, 1_000),
            Plays(9_000, "g1f3", Some(1_200)),
            Plays(9_500, "b8c6", Some(1_300)),
        ],
        None,
        500,
    ),
    (
        &[
            E4,
            E5,
            Acks(W, 1_000),
            Plays(9_000, "g1f3", None),
            Plays(9_500, "b8c6", Some(1_300)),
        ],
        None,
        500,
    ),
    (
        &[
            E4,
            E5,
            Plays(9_000, "g1f3", None),
            Acks(B, 2_000),
            Plays(9_500, "b8c6", Some(2_300)),
        ],
        Some((2_000, 2_300)),
        300,
    ),
    (
        &[
            E4,
            Acks(B, 2_000),
            E5,
            Plays(9_000, "g1f3", None),
            Plays(9_500, "b8c6", Some(2_300)),
        ],
        None,
        500,
    ),
];

/// Rows whose last charge is from `begin` to `end`.
struct Case {
    name: &'static str,
    begin: u64,
    end: u64,
    rows: &'static [Row],
}

const CASES: &[Case] = &[
    Case {
        name: "stamps_of_the_player_to_move",
        begin: 5_000,
        end: 9_000,
        rows: TO_MOVE,
    },
    // White's half-move has cleared what was kept
    Case {
        name: "a_half_move_clears_the_stamp",
        begin: 9_000,
        end: 9_500,
        rows: CLEARED,
    },
];

/// Looks at each case, whether it goes as it has to.
fn each_case(rt: &impl Abort, alloc: Global) -> Result<(), Fail> {
    for case in CASES {
        assert_eq!(rt;
            first_wrong!(
                case.rows,
                |row| is_charged(alloc, row, case.begin, case.end)?
            ),
            None,
            "{}",
            case.name
        );
    }
    Ok(())
}

#[test]
fn last_charges(rt: HostRuntime) -> Result<(), Fail> {
    each_case(&rt, rt.alloc())
}

const FREE: &[Comes] = &[Acks(W, 1_000), Plays(3_000, "e2e4", Some(1_200))];

/// The first half-move of a colour is free, whatever its client says.
#[test]
fn the_first_half_move_is_free(rt: HostRuntime) -> Result<(), Fail> {
    let (charge, clock) = charge_and_clock(rt.alloc(), FREE)?;
    assert!(rt; charge == Some(None));
    assert!(rt; clock == 120_000);
    Ok(())
}

/// The charge of the last half-move after all this, if there is one, and what White's clock shows.
fn charge_and_clock(alloc: Global, all: &[Comes]) -> Result<(Option<Option<Charge>>, i64), Fail> {
    let board = board_after(alloc, all)?;
    Ok((last_charge(&board), remaining(&board, W)))
}
