//! The acts of the lobby, what they are answered, and what pair acts are to do.
ghost use Rattle.std.specs.Prelude.{◌≡◌};
ghost use Rattle.lobby_state.specs.Told.{lists_told, plain_part};
ghost use Rattle.lobby_state.specs.Plans.{NamesDesk, desk_of};

pub(crate) mod accept;
pub(crate) mod bye;
pub(crate) mod channel;
pub(crate) mod clear;
pub(crate) mod decline;
pub(crate) mod enter;
pub(crate) mod fetch;
pub(crate) mod find;
pub(crate) mod find_game;
pub(crate) mod games;
pub(crate) mod go_board;
pub(crate) mod going;
pub(crate) mod in_channel;
pub(crate) mod in_use;
pub(crate) mod matching;
pub(crate) mod name_list;
pub(crate) mod orders;
pub(crate) mod partner;
pub(crate) mod pending;
pub(crate) mod play;
pub(crate) mod post;
pub(crate) mod ptell;
pub(crate) mod registration;
pub(crate) mod resume;
pub(crate) mod resumed;
pub(crate) mod saved;
pub(crate) mod shout;
pub(crate) mod sim_next;
pub(crate) mod sim_open;
pub(crate) mod sim_prev;
pub(crate) mod sought;
pub(crate) mod start;
pub(crate) mod stored;
pub(crate) mod tell;
pub(crate) mod tell_channel;
pub(crate) mod unpost;
pub(crate) mod var;
pub(crate) mod where_is;
pub(crate) mod who;
pub(crate) mod withdraw;

use crate::acts::name_list::WhichList;
use crate::desk_in_use::DeskInUse;
use crate::told::ReplyLists;
use chess_model::Terms;
use collections::Listed;
use fics_words::{DeskNumber, Digest, Handle, HandleKey, Line, Lines, Seats, Variable};
use lobby_shelf::Order;
use simul_control::{Place, Places};
use std::mem::size_of;

/// An act that needs the lobby alone.
#[derive(Drop)]
pub enum LobbyAct {
    /// The session comes in, under this handle or else as a guest. Where the handle has an account, the digest of its
    /// password is asked for; where it has none, a digest that is given means nothing.
    Enter {
        name: Option<Handle>,
        digest: Option<Digest>,
    },
    /// The member makes an account of its handle, with this digest of its password.
    Register {
        digest: Digest,
    },
    /// The member challenges another to a game.
    Match {
        to: HandleKey,
        terms: Terms,
    },
    /// The member offers a game to whoever takes it.
    Post {
        terms: Terms,
    },
    /// The member takes back its seek of that number, or without a number all its seeks.
    Unpost {
        number: Option<u16>,
    },
    /// Asks which seeks stand.
    Sought,
    /// Asks who is in the hall.
    Who,
    /// Asks which challenges to the member and by it stand.
    Pending,
    /// Asks which games there are.
    Games,
    /// The member's variable is on or off from now on.
    Var {
        which: Variable,
        on: bool,
    },
    /// The member puts the name on that list of its own, or takes it off where `on` is false.
    List {
        which: WhichList,
        name: HandleKey,
        on: bool,
    },
    /// The member says the text, of at most 800 bytes, to the player with this handle.
    Tell {
        to: HandleKey,
        text: Line,
    },
    /// The member says the text, of at most 800 bytes, to all others who want to hear it.
    Shout {
        text: Line,
    },
    /// The member joins the channel, or leaves it where `on` is false.
    Channel {
        channel: u8,
        on: bool,
    },
    /// The member says the text, of at most 800 bytes, to all others in the channel.
    TellChannel {
        channel: u8,
        text: Line,
    },
    /// Asks who is in the channel.
    InChannel {
        channel: u8,
    },
    /// The member turns down the challenge of the player with this handle, or without one the oldest challenge.
    Decline {
        name: Option<HandleKey>,
    },
    /// The member takes back its challenge to the player with this handle, or without one its oldest challenge.
    Withdraw {
        name: Option<HandleKey>,
    },
    /// The member asks the player with this handle to be its partner, or without one parts with its own.
    Partner {
        name: Option<HandleKey>,
    },
    /// The member says the text, of at most 800 bytes, to its partner.
    Ptell {
        text: Line,
    },
    /// The member begins to give a simul, or ends it.
    SimOpen,
    /// The giver goes to the next of its places, and from the last one to the first.
    SimNext,
    /// The giver goes to the previous of its places, and from the first one to the last.
    SimPrev,
    /// The giver goes to its place against the player with this handle.
    GoBoard {
        name: HandleKey,
    },
    /// Asks where the player with this handle plays.
    Find {
        name: HandleKey,
    },
    /// Asks where the game of that number is played.
    FindGame {
        number: u16,
    },
    /// Asks for the member's places.
    Where,
    /// Takes the lines that wait for the member, and asks for its places.
    Fetch,
    /// The member begins to leave: its challenges, its seeks, its requests and its partner go, and it can't be named
    /// from then on.
    Going,
    /// The member is gone.
    Bye,
    /// Asks which desks are in use, and under which serials.
    InUse,
    /// Asks which adjourned games of the member wait to be resumed.
    Stored,
    /// Asks for the first save orders.
    Orders,
    /// A store has carried out the save orders up to that number.
    Saved {
        upto: u64,
    },
}

/// What a lobby act is answered.
#[derive(Drop)]
pub enum LobbyReply {
    Done,
    /// The session is in, under this handle.
    Entered(Handle),
    /// The handle has an account, whose password wasn't given: nothing was done.
    NeedPassword,
    /// The seek has this number.
    Number(u16),
    /// These lines, for whoever asked.
    Lines(Lines),
    /// So many members were told.
    Told(u16),
    /// The other is asked, and hasn't asked before.
    Asked,
    /// The present place of a player, or the first seat of a game.
    Found(Place),
    Places(Places),
    Waiting { lines: Listed<Line>, places: Places },
    /// The desks in use, in ascending order.
    Desks(Listed<DeskInUse>),
    /// The first 16 save orders, in the order in which they were made.
    Orders(Listed<Order>),
}

// A reply is copied on its way from the lobby to the line's end.
const _: () = prove!(size_of::<LobbyReply>() <= 384);

impl LobbyReply {
    /// A reply equal to this one, made of copies of the lists that it tells.
    pub fn twin(&self, lists: ReplyLists) -> LobbyReply
        requires { lists ≡ lists_told self.now }
        ensures { result ≡ self.now }
    {
        match self {
            LobbyReply::Lines(_) => LobbyReply::Lines(lists.lines),
            LobbyReply::Waiting { places, .. } => LobbyReply::Waiting {
                lines: lists.waiting,
                places: *places,
            },
            LobbyReply::Desks(_) => LobbyReply::Desks(lists.desks),
            LobbyReply::Orders(_) => LobbyReply::Orders(lists.orders),
            _ => self.plain_twin(),
        }
    }

    /// A reply equal to this one, where it tells no list; else nothing of note.
    fn plain_twin(&self) -> LobbyReply
        ensures { result ≡ plain_part self.now }
    {
        match self {
            LobbyReply::Entered(name) => LobbyReply::Entered(*name),
            LobbyReply::NeedPassword => LobbyReply::NeedPassword,
            LobbyReply::Number(number) => LobbyReply::Number(*number),
            LobbyReply::Told(count) => LobbyReply::Told(*count),
            LobbyReply::Asked => LobbyReply::Asked,
            LobbyReply::Found(place) => LobbyReply::Found(*place),
            LobbyReply::Places(places) => LobbyReply::Places(*places),
            _ => LobbyReply::Done,
        }
    }
}

/// An act that needs the lobby and a desk.
#[derive(Drop)]
pub enum PairAct {
    /// Accepts the challenge of the player with this handle, or without one the oldest challenge.
    Accept(Option<HandleKey>),
    /// Takes the seek of that number.
    Play(u16),
    /// Asks to resume the adjourned game of least number that the player with this handle and the member both play in.
    Resume(HandleKey),
    /// Gives up the place at a desk whose game has ended, and frees the desk where nobody looks on any more.
    Clear { desk: DeskNumber, serial: u64 },
}

impl PairAct {
    /// Does nothing: a desk that the act names is one of the hall's, as its number says.
    pub fn names_desk(&self)
        ensures { NamesDesk self.now }
    {
        if let PairAct::Clear { desk, .. } = self {
            let _number = desk.get();
        }
    }
}

/// What a pair act is to do, as the lobby alone decides it.
#[derive(Clone, Copy)]
pub enum Plan {
    /// A game starts.
    Start {
        desk: DeskNumber,
        serial: u64,
        terms: Terms,
        seats: Seats,
    },
    /// The session gives up its place.
    Clear {
        by: u32,
        desk: DeskNumber,
        serial: u64,
    },
    /// The adjourned game of that number starts again.
    Resume {
        desk: DeskNumber,
        serial: u64,
        number: u64,
        terms: Terms,
        seats: Seats,
    },
    /// A session asks another to resume the adjourned game of that number.
    Ask {
        from: u32,
        to: u32,
        number: u64,
    },
}

impl Plan {
    /// The desk that the plan needs beside the lobby, if it needs one.
    pub fn desk(&self) -> Option<DeskNumber>
        ensures { result ≡ desk_of self.now }
    {
        match self {
            Plan::Start { desk, .. } => Some(*desk),
            Plan::Clear { desk, .. } => Some(*desk),
            Plan::Resume { desk, .. } => Some(*desk),
            Plan::Ask { .. } => None,
        }
    }
}
