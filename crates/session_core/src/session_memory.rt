//! What a session remembers from one input to the next.
ghost use Rattle.std.specs.Prelude.{◌≡◌, ◌≤◌, length, slice_get};
ghost use Rattle.command_words.specs.Aliases.{setting, unsetting};
ghost use Rattle.fics_words.specs.Effect.{Takes, answer_of, state_of};
ghost use Rattle.session_core.specs.Memory.{departed, looks_on_at_most, is_giving, is_gone, newcomer, observed_at};
ghost use Rattle.session_core.specs.Memory.{past_first, present_in};
ghost use Rattle.session_core.specs.Memory.{reader_in, remark_place, seated_memory, stands_at, memory_told, with_observed, without_observed};
ghost use Rattle.session_core.specs.Visits.{visits_in};

use crate::reader::Reader;
use command_words::{Aliases, Style};
use fics_words::{DeskNumber, Fail, Handle, Refusal};
use lobby_state::{LobbyReply, Place, Places};
use one_server::Reply;
use session_asks::{LinkMark, Standing, VisitsLeft};
use std::alloc::Global;
use std::marker::Model;

/// The most games at which a session looks on.
const MOST_OBSERVED: usize = 32;

/// What a session remembers: where it stands, what its link is, its aliases, how boards are printed, its places as the
/// lobby told them last, and where it looks on, in the order in which it began to.
#[derive(Drop)]
pub(crate) struct SessionMemory {
    standing: Standing,
    link: LinkMark,
    aliases: Aliases,
    style: Style,
    places: Places,
    observed: Places,
}

impl Model for SessionMemory {
    ghost use Rattle.session_core.specs.Memory.{MemoryState};

    ghost Value = { MemoryState };

    ghost view = { λ memory. record {
      standing = memory.standing;
      link = memory.link;
      aliases = memory.aliases;
      style = memory.style;
      places = memory.places;
      observed = memory.observed;
    } };
}

impl SessionMemory {
    /// The memory of a session before its first input.
    pub(crate) fn new(alloc: Global) -> SessionMemory
        ensures { result ≡ newcomer }
    {
        SessionMemory {
            standing: Standing::Login,
            link: LinkMark::Fresh,
            aliases: Aliases::new(alloc),
            style: Style::Twelve,
            places: Places::none(),
            observed: Places::none(),
        }
    }

    /// The memory of a session that has entered under a name, before its first input.
    pub(crate) fn seated(alloc: Global, name: Handle) -> SessionMemory
        ensures { result ≡ seated_memory name }
    {
        SessionMemory {
            standing: Standing::In(name),
            link: LinkMark::Fresh,
            aliases: Aliases::new(alloc),
            style: Style::Twelve,
            places: Places::none(),
            observed: Places::none(),
        }
    }

    /// Where the session stands.
    pub(crate) fn standing(&self) -> Standing
        ensures { result ≡ self.now.standing }
    {
        self.standing
    }

    /// Stands there from now on.
    pub(crate) fn stand(&mut self, standing: Standing)
        ensures { self.new ≡ stands_at standing self.old }
    {
        self.standing = standing;
    }

    /// Whether the session has left.
    pub(crate) fn is_gone(&self) -> bool
        ensures { result ≡ is_gone self.now }
    {
        match self.standing {
            Standing::Gone => true,
            _ => false,
        }
    }

    /// What is known of the link.
    pub(crate) fn link(&self) -> LinkMark
        ensures { result ≡ self.now.link }
    {
        self.link
    }

    /// The link is of this kind.
    pub(crate) fn mark(&mut self, link: LinkMark)
        ensures { self.new ≡ record self.old { link = link } }
    {
        self.link = link;
    }

    /// A line has come that is no greeting.
    pub(crate) fn pass_first(&mut self)
        ensures { self.new ≡ record self.old { link = past_first self.old.link } }
    {
        match self.link {
            LinkMark::Fresh => self.link = LinkMark::Plain,
            _ => {}
        }
    }

    /// The player's aliases.
    pub(crate) fn aliases(&self) -> &Aliases
        ensures { result.now ≡ self.now.aliases }
    {
        &self.aliases
    }

    /// Makes a name stand for a text.
    pub(crate) fn set_alias(&mut self, name: &[u8], text: &[u8]) -> Result<(), Fail>
        ensures aliases { Takes (setting self.old.aliases name.now text.now) self.old.aliases self.new.aliases result }
        ensures rest { self.new ≡ record self.old { aliases = self.new.aliases } }
    {
        self.aliases.set(name, text)
    }

    /// Makes a name stand for nothing any more.
    pub(crate) fn unset_alias(&mut self, name: &[u8]) -> Result<(), Refusal>
        ensures answer { result ≡ answer_of (unsetting self.old.aliases name.now) }
        ensures after { self.new ≡ record self.old
            { aliases = state_of self.old.aliases (unsetting self.old.aliases name.now) } }
    {
        self.aliases.unset(name)
    }

    /// Remembers what a reply tells.
    pub(crate) fn note(&mut self, reply: &Reply)
        ensures told { self.new ≡ memory_told self.old reply.now }
        ensures stands { self.new.standing ≡ self.old.standing }
    {
        match reply {
            Reply::Lobby(LobbyReply::Places(places)) => self.places = *places,
            Reply::Lobby(LobbyReply::Waiting { places, .. }) => self.places = *places,
            _ => {}
        }
    }

    /// The session has left.
    pub(crate) fn depart(&mut self)
        ensures { self.new ≡ departed self.old }
    {
        self.standing = Standing::Gone;
        self.places = Places::none();
        self.observed = Places::none();
    }

    /// The present place, if there is any place.
    pub(crate) fn present(&self) -> Option<Place>
        ensures { result ≡ present_in self.now }
    {
        self.places.present()
    }

    /// Whether the session gives a simul, as the lobby told it last.
    pub(crate) fn is_giving(&self) -> bool
        ensures { result ≡ is_giving self.now }
    {
        self.places.giving()
    }

    /// The games that the session plays and at which it looks on, all of which are still to be visited.
    pub(crate) fn visits(&self) -> VisitsLeft
        ensures visits { result ≡ visits_in self.now }
        ensures most { length (visits_in self.now) ≤ 64 }
    {
        VisitsLeft::all(&self.places, &self.observed)
    }

    /// For whom the items of a game are written that the session plays at this seat, or at which it looks on.
    pub(crate) fn reader(&self, seat: Option<u8>) -> Reader
        ensures { result ≡ reader_in self.now seat }
    {
        Reader {
            link: self.link,
            style: self.style,
            seat,
        }
    }

    /// Boards are printed so from now on.
    pub(crate) fn print_in(&mut self, style: Style)
        ensures { self.new ≡ record self.old { style = style } }
    {
        self.style = style;
    }

    /// Whether the session looks on at 32 games.
    pub(crate) fn is_full(&self) -> bool
        ensures { result ≡ looks_on_at_most self.now }
    {
        self.observed.len() >= MOST_OBSERVED
    }

    /// Looks on at the game of this place too.
    pub(crate) fn observe(&mut self, place: Place)
        ensures { self.new ≡ with_observed place self.old }
    {
        // the course asks first whether there is room
        let _room = self.observed.add(place);
    }

    /// Looks on no longer at the game of this desk.
    pub(crate) fn unobserve(&mut self, desk: DeskNumber)
        ensures { self.new ≡ without_observed desk self.old }
    {
        self.observed.leave(desk);
    }

    /// Where the session looks on at the game of this desk, if it does.
    pub(crate) fn observed_at(&self, desk: u32) -> Option<Place>
        ensures { result ≡ observed_at desk self.now }
    {
        for at in 0..self.observed.len() {
            let place = self.observed.place(at);
            if u32::from(place.desk.get()) == desk {
                return Some(place);
            }
        }
        None
    }

    /// The first game at which the session looks on, if there is one.
    fn first_observed(&self) -> Option<Place>
        ensures { result ≡ slice_get self.now.observed.rows 0 }
    {
        self.observed.get(0)
    }

    /// Where the session can say something about a game: at its present place, or else at the first game at which it
    /// looks on.
    pub(crate) fn remark_place(&self) -> Option<Place>
        ensures { result ≡ remark_place self.now }
    {
        match self.present() {
            Some(place) => Some(place),
            None => self.first_observed(),
        }
    }
}
