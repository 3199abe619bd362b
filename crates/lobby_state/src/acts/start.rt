//! Start: the plan of a game is carried out.
ghost use Rattle.std.specs.Prelude.{◌≡◌, filter, map, not};
ghost use Rattle.fics_words.specs.Seats.{seat_list, seat_number};
ghost use Rattle.lobby_state.specs.Planned.{ArePlayersApart};
ghost use Rattle.lobby_state.specs.Start.{in_seat, is_seek_of_seated, is_settled, lobby_seated};

use crate::challenges::Stays;
use crate::game::ListedGame;
use crate::member::Member;
use crate::members::{Members, change_players};
use crate::roster::Roster;
use crate::seeks::ByUnseated;
use chess_model::Terms;
use collections::Change;
use fics_words::{DeskNumber, Seats};
use seek_match::{MatchBook, SeekBook};
use simul_control::Place;
use std::marker::Model;

/// The start of a game at a desk of the hall: its players have their places.
#[derive(Drop)]
struct Sit {
    desk: DeskNumber,
    serial: u64,
    seats: Seats,
}

impl Model for Sit {
    ghost use Rattle.lobby_state.specs.Start.{Sitting};

    ghost Value = { Sitting };

    ghost view = { λ sit. record { desk = sit.desk; serial = sit.serial; seats = sit.seats } };
}

impl Change<Member> for Sit {
    ghost changed = { λ sit member.
        in_seat sit.desk sit.serial (seat_number member.session (seat_list sit.seats)) member };

    fn change(&self, member: &mut Member) {
        if let Some(seat) = self.seats.number(member.session) {
            // a plan seats nobody who has 32 places
            let _room = member.places.add(Place {
                desk: self.desk,
                serial: self.serial,
                seat,
            });
        }
    }
}

impl Roster {
    /// The game starts: the desk is in use, the players have their places, and their challenges go, but for a giver's
    /// with others, and their seeks and requests to resume. It takes no memory.
    pub(crate) fn start(&mut self, desk: DeskNumber, serial: u64, terms: Terms, seats: &Seats)
        requires { ArePlayersApart seats.now }
        ensures { self.new ≡ lobby_seated self.old desk serial terms seats.now }
    {
        drop_challenges(&mut self.challenges, &self.members, seats);
        sit_down(&mut self.members, desk, serial, seats);
        drop_seeks(&mut self.seeks, seats);
        self.shelf.forget_seated(seats);
        let game = ListedGame {
            serial,
            terms,
            seats: *seats,
        };
        let slot = self.games.item_mut(desk.get() as usize - 1);
        *slot = Some(game);
        self.started = serial;
    }
}

/// The players have their places.
fn sit_down(members: &mut Members, desk: DeskNumber, serial: u64, seats: &Seats)
    requires { ArePlayersApart seats.now }
    ensures { members.new
        ≡ map (λ member. in_seat desk serial (seat_number member.session (seat_list seats.now)) member) members.old }
{
    // The slice is what says that no two sessions are equal.
    let _rows = members.as_slice();
    let sit = Sit {
        desk,
        serial,
        seats: *seats,
    };
    change_players(members, seats, &sit);
}

/// The challenges of the players go, but for a giver's with others.
fn drop_challenges(challenges: &mut MatchBook, members: &Members, seats: &Seats)
    ensures { challenges.new
        ≡ filter (λ challenge. not (is_settled members.now seats.now challenge)) challenges.old }
{
    let stays = Stays {
        members,
        seats: *seats,
    };
    challenges.keep_of(seats.first.white.session, &stays);
    challenges.keep_of(seats.first.black.session, &stays);
    let Some(second) = &seats.second else {
        return;
    };
    challenges.keep_of(second.white.session, &stays);
    challenges.keep_of(second.black.session, &stays);
}

/// The seeks of the players go.
fn drop_seeks(seeks: &mut SeekBook, seats: &Seats)
    ensures { seeks.new ≡ filter (λ seek. not (is_seek_of_seated seats.now seek)) seeks.old }
{
    let unseated = ByUnseated(*seats);
    seeks.keep(&unseated);
}
