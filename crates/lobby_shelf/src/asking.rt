//! Who asks to resume which game.
ghost use Rattle.std.specs.Prelude.{◌≡◌, true, not, ◌==◌, IfOk};
ghost use Rattle.lobby_shelf.specs.Numbers.{is_used};
ghost use Rattle.lobby_shelf.specs.Shelf.{asked, asks, is_request, is_by_seated, without_requests, without_seated};
ghost use Rattle.lobby_shelf.specs.Facts.{HasRoom};

use crate::cells::Cells;
use crate::game_shelf::GameShelf;
use crate::request::Request;
use collections::Predicate;
use fics_words::Seats;
use memory::NoMemory;
use std::marker::Model;

/// The request that an act makes, in a cell of its own. Contracts see the request.
#[derive(Drop)]
pub struct Asking {
    pub(crate) cell: Cells<Request>,
}

impl Model for Asking {
    ghost use Rattle.std.specs.Prelude.{◌≡◌, length};
    ghost use Rattle.lobby_shelf.specs.declared.request.Request.{Request};
    ghost use Rattle.lobby_shelf.specs.Held.{held_request};

    ghost Value = { Request };

    ghost view = { λ asking. held_request asking.cell };

    ghost invariant = { λ asking. length asking.cell ≡ 1 };
}

/// The request of this session for this game.
#[derive(Clone, Copy)]
struct Of(Request);

impl Predicate<Request> for Of {
    ghost passes = { λ test request. is_request test.0.by test.0.game request };

    fn passes(&self, request: &Request) -> bool {
        request.by == self.0.by && request.game == self.0.game
    }
}

/// A request that isn't by this session.
#[derive(Clone, Copy)]
struct NotBy(u32);

impl Predicate<Request> for NotBy {
    ghost passes = { λ test request. not (request.by == test.0) };

    fn passes(&self, request: &Request) -> bool {
        request.by != self.0
    }
}

/// A request that isn't for this game.
#[derive(Clone, Copy)]
pub(crate) struct NotFor(pub(crate) u64);

impl Predicate<Request> for NotFor {
    ghost passes = { λ test request. not (request.game == test.0) };

    fn passes(&self, request: &Request) -> bool {
        request.game != self.0
    }
}

/// A request that isn't by a player of the game that starts.
#[derive(Clone, Copy)]
struct ByUnseated(Seats);

impl Predicate<Request> for ByUnseated {
    ghost passes = { λ test request. not (is_by_seated test.0 request) };

    fn passes(&self, request: &Request) -> bool {
        self.0.number(request.by).is_none()
    }
}

impl GameShelf {
    /// Whether the session's request for the game of that number stands.
    pub fn asks(&self, by: u32, game: u64) -> bool
        ensures { result ≡ asks self.now by game }
    {
        self.requests.any(&Of(Request { by, game }))
    }

    /// The session's request for the game of that number, which is to be put. It fails only when out of memory.
    pub fn asking(&self, by: u32, game: u64) -> Result<Asking, NoMemory>
        ensures request { IfOk result (λ asking. asking ≡ record { by = by; game = game }) }
        ensures room { IfOk result (λ asking. HasRoom self.now.requests) }
    {
        Ok(Asking {
            cell: self.requests.cell(Request { by, game })?,
        })
    }

    /// Puts a request for a game that lies on the shelf; one that stands already isn't put twice. It takes no memory.
    pub fn ask(&mut self, by: u32, game: u64, asking: Asking)
        requires stored { is_used self.old.games game ≡ true }
        requires request { asking ≡ record { by = by; game = game } }
        requires room { HasRoom self.old.requests }
        ensures { self.new ≡ asked self.old by game }
    {
        if self.asks(by, game) {
            return;
        }
        let Asking { cell } = asking;
        self.requests.append(cell);
    }

    /// Takes the requests of this session away.
    pub fn forget(&mut self, session: u32)
        ensures { self.new ≡ without_requests session self.old }
    {
        self.requests.retain(&NotBy(session));
    }

    /// Takes the requests of those who are seated away.
    pub fn forget_seated(&mut self, seats: &Seats)
        ensures { self.new ≡ without_seated seats.now self.old }
    {
        self.requests.retain(&ByUnseated(*seats));
    }
}
