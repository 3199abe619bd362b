//! Stored games that nobody adjourned, as they may lie in a store: one that its last half-move has ended is over at
//! once, and one that doesn't replay is no game.
ghost use Rattle.std.specs.Prelude.{◌≡◌, None};
ghost use Rattle.linked_desk.specs.Seating.{AllDiffer, HasPairsFor, names_of, sessions_seated};

use crate::kept::{names_in, restores};
use crate::stages::{Stage, first_wrong_at};
use crate::table::Given::Refused;
use crate::table::{ANN, BEN, Does, Opening, Sitting, Step, who_sits};
use chess_model::Colour;
use fics_words::{BoardNumber, DeskNumber, Refusal};
use game_records::StoredGame;
use linked_desk::{Desk, Ended, Why};
use memory::NoMemory;
use std::alloc::Global;
use std::process::Abort;
use std::test::Fail;
use test_steps::games::{Halves, halves_of};
use test_steps::limits::MINUTES;

/// What comes of a stored game.
#[derive(Clone, Copy)]
enum Comes {
    /// It doesn't replay.
    Nothing,
    /// It is at the desk, as these stages say.
    Game(&'static [Stage]),
}

/// A name, the players and their terms, the half-moves, and what comes of them.
struct Case {
    name: &'static str,
    opening: Opening,
    made: Halves,
    comes: Comes,
}

/// The shortest mate, known as the fool's.
const FOOLS_MATE: Halves = &["1f2f3", "1e7e5", "1g2g4", "1d8h4"];

/// And a half-move behind it.
const AFTER_MATE: Halves = &["1f2f3", "1e7e5", "1g2g4", "1d8h4", "1a2a3"];

/// A mate at the first board of a pair by a queen beside the king.
const MATE_OF_A_PAIR: Halves = &[
    "1e2e4", "1e7e5", "2e2e4", "1d1h5", "1b8c6", "1f1c4", "1g8f6", "1h5f7",
];

/// And a half-move at the second one behind it.
const AFTER_MATE_OF_A_PAIR: Halves = &[
    "1e2e4", "1e7e5", "2e2e4", "1d1h5", "1b8c6", "1f1c4", "1g8f6", "1h5f7", "2e7e5",
];

/// Sam Loyd's stalemate of ten moves.
const STALEMATE: Halves = &[
    "1e2e3", "1a7a5", "1d1h5", "1a8a6", "1h5a5", "1h7h5", "1h2h4", "1a6h6", "1a5c7", "1f7f6",
    "1c7d7", "1e8f7", "1d7b7", "1d8d3", "1b7b8", "1d3h7", "1b8c8", "1f7g6", "1c8e6",
];

const NOT_ALLOWED: Halves = &["1e2e4", "1e7e4"];

const CHARGED: Halves = &["1e2e4", "1e7e5", "1g1f3+"];

const UNCHARGED: Halves = &["1e2e4", "1e7e5", "1g1f3"];

/// The first half-move of Black is never charged.
const CHARGED_TOO_EARLY: Halves = &["1e2e4", "1e7e5+"];

const SECOND_BOARD: Halves = &["2e2e4"];

const OVER: &[Step] = &[
    Step(9, ANN, Does::Move("a2a3"), Refused(Refusal::GameOver)),
    Step(9, BEN, Does::Resign, Refused(Refusal::GameOver)),
];

const LOST: Option<Ended> = Some(Ended {
    why: Why::Mate,
    board: BoardNumber::First,
    winner: Some(Colour::Black),
});

const WON: Option<Ended> = Some(Ended {
    why: Why::Mate,
    board: BoardNumber::First,
    winner: Some(Colour::White),
});

const DRAWN: Option<Ended> = Some(Ended {
    why: Why::Stalemate,
    board: BoardNumber::First,
    winner: None,
});

const CASES: &[Case] = &[
    Case {
        name: "mate",
        opening: Opening::Members(0, 0),
        made: FOOLS_MATE,
        comes: Comes::Game(&[
            Stage::Outcome(LOST, 2),
            Stage::Tells(
                ANN,
                &[
                    "{Game 1 (Ann vs. Ben) Continuing 0 0 chess match.}",
                    "board 1",
                    "{Game 1 (Ann vs. Ben) Ann checkmated} 0-1",
                ],
            ),
            Stage::Makes(OVER),
        ]),
    },
    Case {
        name: "stalemate",
        opening: Opening::Members(0, 0),
        made: STALEMATE,
        comes: Comes::Game(&[
            Stage::Outcome(DRAWN, 2),
            Stage::ShowsEnd(BEN, "{Game 1 (Ann vs. Ben) drawn by stalemate} 1/2-1/2"),
            Stage::Makes(OVER),
        ]),
    },
    Case {
        name: "mate_of_a_pair",
        opening: Opening::PairOfMembers,
        made: MATE_OF_A_PAIR,
        comes: Comes::Game(&[
            Stage::Outcome(WON, 4),
            Stage::Tells(
                BEN,
                &[
                    "talk",
                    "talk",
                    "board 1",
                    "<b1> game 1 white [] black []",
                    "board 2",
                    "<b1> game 2 white [] black [P]",
                    "{Game 1 (Ann vs. Ben) Ben checkmated} 1-0",
                    "{Game 2 (Cat vs. Dan) partner's game ended} 0-1",
                ],
            ),
            Stage::Makes(OVER),
        ]),
    },
    Case {
        name: "a_charge",
        opening: Opening::Members(2, 12),
        made: CHARGED,
        comes: Comes::Game(&[Stage::Outcome(None, 2), Stage::Clocks([131_000, 120_000])]),
    },
    Case {
        name: "a_half_move_that_is_not_allowed",
        opening: Opening::Members(0, 0),
        made: NOT_ALLOWED,
        comes: Comes::Nothing,
    },
    Case {
        name: "a_half_move_after_mate",
        opening: Opening::Members(0, 0),
        made: AFTER_MATE,
        comes: Comes::Nothing,
    },
    Case {
        name: "a_half_move_after_the_mate_of_the_other_board",
        opening: Opening::PairOfMembers,
        made: AFTER_MATE_OF_A_PAIR,
        comes: Comes::Nothing,
    },
    Case {
        name: "a_charge_where_no_clock_runs",
        opening: Opening::Members(0, 0),
        made: CHARGED,
        comes: Comes::Nothing,
    },
    Case {
        name: "no_charge_where_clocks_run",
        opening: Opening::Members(2, 12),
        made: UNCHARGED,
        comes: Comes::Nothing,
    },
    Case {
        name: "a_charge_of_a_first_half_move",
        opening: Opening::Members(2, 12),
        made: CHARGED_TOO_EARLY,
        comes: Comes::Nothing,
    },
    Case {
        name: "a_second_board_where_there_is_one",
        opening: Opening::Members(0, 0),
        made: SECOND_BOARD,
        comes: Comes::Nothing,
    },
    Case {
        name: "terms_that_no_game_has",
        opening: Opening::Members(MINUTES + 1, 0),
        made: &[],
        comes: Comes::Nothing,
    },
];

/// Whether that comes of a stored game at a desk.
fn comes_so(
    alloc: Global,
    desk: &mut Desk,
    sitting: &Sitting,
    case: &Case,
) -> Result<bool, NoMemory>
    requires vacant { desk.old.game ≡ None }
    requires pairs { HasPairsFor sitting.now.terms sitting.now.seats }
    requires sessions { AllDiffer (sessions_seated sitting.now.seats) }
    requires names { AllDiffer (names_of sitting.now.seats) }
{
    let game = StoredGame {
        terms: sitting.terms,
        names: names_in(alloc, &sitting.seats)?,
        halves: halves_of(alloc, case.made, 1)?,
    };
    let replays = restores(alloc, desk, &game, &sitting.seats, 9)?;
    Ok(is_so(desk, case.comes, replays))
}

fn is_so(desk: &mut Desk, comes: Comes, replays: bool) -> bool {
    match comes {
        Comes::Nothing => !replays && desk.serial().is_none(),
        Comes::Game(stages) => replays && first_wrong_at(desk, stages).is_none(),
    }
}

/// The same of a case at a desk of its own.
fn holds(rt: &impl Abort, alloc: Global, case: &Case) -> Result<bool, NoMemory> {
    let sitting = who_sits(rt, case.opening);
    let mut desk = Desk::vacant(DeskNumber::new(1));
    comes_so(alloc, &mut desk, &sitting, case)
}

/// Looks at each case, whether it goes as it has to.
fn each_case(rt: &impl Abort, alloc: Global) -> Result<(), Fail> {
    for case in CASES {
        assert!(rt; holds(rt, alloc, case)?, "{}", case.name);
    }
    Ok(())
}

#[test]
fn games_of_a_store(rt: HostRuntime) -> Result<(), Fail> {
    each_case(&rt, rt.alloc())
}
