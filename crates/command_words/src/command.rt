//! What a line asks for.

use crate::rows::{Bare, ByName, ByNumber, MaybeByName, OnChannel, WithText};
use crate::style::Style;
use chess_model::{MoveWord, Terms};
use fics_words::{Handle, Line, Variable};

/// What a line asks for, once it is read: which command, with what stood behind its word.
#[derive(Drop)]
pub enum Command {
    /// Nothing but the news: the line is empty, before or after its alias.
    Nothing,
    /// To play this word at the present place.
    Move(MoveWord),
    /// A command that takes nothing.
    Bare(Bare),
    /// A command and the handle that it takes.
    ByName(ByName, Handle),
    /// A command and the handle that it takes, if one stood there.
    MaybeByName(MaybeByName, Option<Handle>),
    /// A command and the text that it takes, of 1 to 800 bytes.
    WithText(WithText, Line),
    /// A command and the number that it takes.
    ByNumber(ByNumber, u16),
    /// A command and the channel that it takes.
    OnChannel(OnChannel, u8),
    /// To make a name, 1 to 15 lower-case letters, stand for a text.
    Alias { name: Line, text: Line },
    /// To challenge a player to a game of these terms.
    Match(Handle, Terms),
    /// To look on at the game of this number.
    ObserveGame(u16),
    /// To look on at the game that this player plays.
    ObservePlayer(Handle),
    /// To offer a game of these terms to whoever takes it.
    Seek(Terms),
    /// To turn a variable on, or off.
    Set(Variable, bool),
    /// To have boards printed so.
    Style(Style),
    /// To offer at the present place that so many half-moves are taken back, 1 to 1,200.
    Takeback(u16),
    /// To say this text to a player.
    Tell(Handle, Line),
    /// To say this text to all others in the channel.
    TellChannel(u8, Line),
    /// To make this name stand for nothing any more.
    Unalias(Line),
    /// To take back the seek of this number, or all of them.
    Unseek(Option<u16>),
}
