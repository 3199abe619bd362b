//! A desk with four players at two boards.
ghost use Rattle.std.specs.Prelude.{◌≡◌, ◌≢◌, length};
ghost use Rattle.fics_words.specs.Handle.{key_of};
ghost use Rattle.fics_words.specs.Seats.{seat_list};
ghost use Rattle.linked_desk.specs.Seating.{AllDiffer, HasPairsFor, names_of, sessions_seated};

use crate::table::{ANN, Accounts, BEN, Sitting, player};
use chess_model::{Terms, Variant};
use fics_words::{Opponents, Player, Seats};
use std::process::Abort;

/// The session that plays White of the second board, Ben's partner.
pub const CAT: u32 = 3;

/// The session that plays Black of the second board, Ann's partner.
pub const DAN: u32 = 4;

/// Ann and Ben have White and Black of the first board, Cat and Dan those of the second, in an untimed game.
pub fn four(rt: &impl Abort, accounts: Accounts) -> Sitting
    ensures pairs { HasPairsFor result.terms result.seats }
    ensures sessions { AllDiffer (sessions_seated result.seats) }
    ensures names { AllDiffer (names_of result.seats) }
{
    Sitting {
        terms: Terms {
            minutes: 0,
            increment: 0,
            variant: Variant::Bughouse,
            colour: None,
        },
        seats: four_seats(rt, accounts),
    }
}

fn four_seats(rt: &impl Abort, accounts: Accounts) -> Seats
    ensures sessions { AllDiffer (sessions_seated result) }
    ensures names { AllDiffer (names_of result) }
    ensures four { length (seat_list result) ≡ 4 }
{
    let ann = player(rt, accounts, ANN, "Ann");
    let ben = player(rt, accounts, BEN, "Ben");
    let cat = player(rt, accounts, CAT, "Cat");
    let dan = player(rt, accounts, DAN, "Dan");
    differ(rt, &ann, &ben);
    differ(rt, &ann, &cat);
    differ(rt, &ann, &dan);
    differ(rt, &ben, &cat);
    differ(rt, &ben, &dan);
    differ(rt, &cat, &dan);
    Seats {
        first: Opponents {
            white: ann,
            black: ben,
        },
        second: Some(Opponents {
            white: cat,
            black: dan,
        }),
    }
}

/// The two players have two sessions and two names.
fn differ(rt: &impl Abort, one: &Player, another: &Player)
    ensures session { one.now.session ≢ another.now.session }
    ensures name { key_of one.now.name ≢ key_of another.now.name }
{
    assert!(rt; one.session != another.session, "two sessions");
    assert!(rt; one.name.key() != another.name.key(), "two names");
}
