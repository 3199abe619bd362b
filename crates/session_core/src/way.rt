//! The ways in which a session carries out commands, and which one each command goes.
ghost use Rattle.std.specs.Prelude.{◌≡◌};
ghost use Rattle.session_core.specs.Ways.{way_of};

use crate::own_commands::OwnCommand;
use crate::reaction::Reaction;
use chess_model::MoveWord;
use command_words::{Bare, ByName, ByNumber, Command, MaybeByName, OnChannel, WithText};
use fics_words::{Handle, HandleKey, Line};
use linked_desk::{DeskAct, Offer};
use lobby_state::{LobbyAct, PairAct, WhichList};
use login_handles::digest_of;
use one_server::Act;
use std::mem::size_of;

/// What a session does for a command. Public for the laws of the crates above, which go over all ways.
#[derive(Drop)]
pub enum Way {
    /// It makes the round alone.
    Round,
    /// It makes this act, and prints the reply.
    Server(Act),
    /// It makes this act at the present place.
    Desk(DeskAct),
    /// It plays this word at the present place.
    Move(MoveWord),
    /// It answers the earliest offer at the present place, or else the oldest one in the lobby.
    React(Reaction),
    /// It says this text at the present place, or else where it looks on first.
    Remark(Line),
    /// It looks on at the game that the lobby finds by this act.
    Observe(LobbyAct),
    /// It looks on no longer at the game of this number.
    Unobserve(u16),
    /// It does this by itself, with no act.
    Own(OwnCommand),
    /// It leaves.
    Leave,
}

const _: () = prove!(size_of::<Way>() <= size_of::<Act>() + 8);

/// The way that a command goes.
pub(crate) fn way_of(command: Command) -> Way
    ensures { result ≡ way_of command }
{
    match command {
        Command::Nothing => Way::Round,
        Command::Move(word) => Way::Move(word),
        Command::Bare(which) => bare(which),
        Command::ByName(which, name) => by_name(which, name),
        Command::MaybeByName(which, name) => maybe_by_name(which, name),
        Command::WithText(which, text) => with_text(which, text),
        Command::ByNumber(which, number) => by_number(which, number),
        Command::OnChannel(which, channel) => on_channel(which, channel),
        Command::Alias { name, text } => Way::Own(OwnCommand::Alias { name, text }),
        Command::Match(name, terms) => lobby(LobbyAct::Match {
            to: name.key(),
            terms,
        }),
        Command::ObserveGame(number) => Way::Observe(LobbyAct::FindGame { number }),
        Command::ObservePlayer(name) => Way::Observe(LobbyAct::Find { name: name.key() }),
        Command::Seek(terms) => lobby(LobbyAct::Post { terms }),
        Command::Set(which, on) => lobby(LobbyAct::Var { which, on }),
        Command::Style(style) => Way::Own(OwnCommand::Style(style)),
        Command::Takeback(number) => offering(Offer::Takeback(number)),
        Command::Tell(to, text) => lobby(LobbyAct::Tell { to: to.key(), text }),
        Command::TellChannel(channel, text) => lobby(LobbyAct::TellChannel { channel, text }),
        Command::Unalias(name) => Way::Own(OwnCommand::Unalias(name)),
        Command::Unseek(number) => lobby(LobbyAct::Unpost { number }),
    }
}

/// The way of a command that takes nothing.
fn bare(which: Bare) -> Way
    ensures { result ≡ way_of (Command.Bare which) }
{
    match which {
        Bare::Abort => offering(Offer::Abort),
        Bare::Adjourn => offering(Offer::Adjourn),
        Bare::Draw => offering(Offer::Draw),
        Bare::Flag => Way::Desk(DeskAct::Flag),
        Bare::Games => lobby(LobbyAct::Games),
        Bare::Pending => lobby(LobbyAct::Pending),
        Bare::Quit => Way::Leave,
        Bare::Refresh => Way::Desk(DeskAct::Show),
        Bare::Resign => Way::Desk(DeskAct::Resign),
        Bare::SimNext => lobby(LobbyAct::SimNext),
        Bare::SimOpen => lobby(LobbyAct::SimOpen),
        Bare::SimPrev => lobby(LobbyAct::SimPrev),
        Bare::Sought => lobby(LobbyAct::Sought),
        Bare::Stored => lobby(LobbyAct::Stored),
        Bare::Who => lobby(LobbyAct::Who),
    }
}

/// The way of a command that takes a handle.
fn by_name(which: ByName, name: Handle) -> Way
    ensures { result ≡ way_of (Command.ByName which name) }
{
    let name = name.key();
    match which {
        ByName::AddCensor => list(WhichList::Censor, name, true),
        ByName::AddNoplay => list(WhichList::Noplay, name, true),
        ByName::DropCensor => list(WhichList::Censor, name, false),
        ByName::DropNoplay => list(WhichList::Noplay, name, false),
        ByName::GoBoard => lobby(LobbyAct::GoBoard { name }),
        ByName::Resume => Way::Server(Act::Pair(PairAct::Resume(name))),
    }
}

/// The way of a command that takes a handle or nothing.
fn maybe_by_name(which: MaybeByName, name: Option<Handle>) -> Way
    ensures { result ≡ way_of (Command.MaybeByName which name) }
{
    match which {
        MaybeByName::Accept => accepting(name),
        MaybeByName::Decline => declining(name),
        MaybeByName::Partner => lobby(LobbyAct::Partner {
            name: name.map(|name| name.key()),
        }),
        MaybeByName::Withdraw => lobby(LobbyAct::Withdraw {
            name: name.map(|name| name.key()),
        }),
    }
}

/// The way of who accepts an offer.
fn accepting(name: Option<Handle>) -> Way
    ensures { result ≡ way_of (Command.MaybeByName MaybeByName.Accept name) }
{
    match name {
        None => Way::React(Reaction::Accepting),
        Some(name) => Way::Server(Act::Pair(PairAct::Accept(Some(name.key())))),
    }
}

/// The way of who declines an offer.
fn declining(name: Option<Handle>) -> Way
    ensures { result ≡ way_of (Command.MaybeByName MaybeByName.Decline name) }
{
    match name {
        None => Way::React(Reaction::Declining),
        Some(name) => {
            let name = Some(name.key());
            lobby(LobbyAct::Decline { name })
        }
    }
}

/// The way of a command that takes a text.
fn with_text(which: WithText, text: Line) -> Way
    ensures { result ≡ way_of (Command.WithText which text) }
{
    match which {
        WithText::Kibitz => Way::Remark(text),
        WithText::Ptell => lobby(LobbyAct::Ptell { text }),
        WithText::Register => lobby(LobbyAct::Register {
            digest: digest_of(text.bytes()),
        }),
        WithText::Shout => lobby(LobbyAct::Shout { text }),
    }
}

/// The way of a command that takes a number.
fn by_number(which: ByNumber, number: u16) -> Way
    ensures { result ≡ way_of (Command.ByNumber which number) }
{
    match which {
        ByNumber::Play => Way::Server(Act::Pair(PairAct::Play(number))),
        ByNumber::Unobserve => Way::Unobserve(number),
    }
}

/// The way of a command that takes a channel.
fn on_channel(which: OnChannel, channel: u8) -> Way
    ensures { result ≡ way_of (Command.OnChannel which channel) }
{
    match which {
        OnChannel::Ask => lobby(LobbyAct::InChannel { channel }),
        OnChannel::Join => lobby(LobbyAct::Channel { channel, on: true }),
        OnChannel::Leave => lobby(LobbyAct::Channel { channel, on: false }),
    }
}

/// The change of a list.
fn list(which: WhichList, name: HandleKey, on: bool) -> Way
    ensures { result ≡ Way.Server (Act.Lobby (LobbyAct.List which name on)) }
{
    lobby(LobbyAct::List { which, name, on })
}

/// An offer at the present place.
fn offering(offer: Offer) -> Way
    ensures { result ≡ Way.Desk (DeskAct.Make offer) }
{
    Way::Desk(DeskAct::Make { offer })
}

/// An act of the lobby.
fn lobby(act: LobbyAct) -> Way
    ensures { result ≡ Way.Server (Act.Lobby act) }
{
    Way::Server(Act::Lobby(act))
}
