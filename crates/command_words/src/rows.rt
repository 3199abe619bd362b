//! The table of commands, a row each, and what they take. What each does is said above its row, from where
//! `tools/print/commands` prints the table of docs/CLIENTS.md.

/// The commands that take nothing.
#[derive(Clone, Copy)]
pub enum Bare {
    Abort,
    Adjourn,
    Draw,
    Flag,
    Games,
    Pending,
    Quit,
    Refresh,
    Resign,
    SimNext,
    SimOpen,
    SimPrev,
    Sought,
    Stored,
    Who,
}

/// The commands that take a handle.
#[derive(Clone, Copy)]
pub enum ByName {
    AddCensor,
    AddNoplay,
    DropCensor,
    DropNoplay,
    GoBoard,
    Resume,
}

/// The commands that take a handle or nothing.
#[derive(Clone, Copy)]
pub enum MaybeByName {
    Accept,
    Decline,
    Partner,
    Withdraw,
}

/// The commands that take a text.
#[derive(Clone, Copy)]
pub enum WithText {
    Kibitz,
    Ptell,
    Register,
    Shout,
}

/// The commands that take a number.
#[derive(Clone, Copy)]
pub enum ByNumber {
    Play,
    Unobserve,
}

/// The commands that take a channel.
#[derive(Clone, Copy)]
pub enum OnChannel {
    Ask,
    Join,
    Leave,
}

/// Which command it is, by what it takes behind its word; the last ones have a form of their own each.
#[derive(Clone, Copy)]
pub enum Takes {
    /// Nothing.
    Nothing(Bare),
    /// A handle.
    Name(ByName),
    /// A handle, or nothing.
    MaybeName(MaybeByName),
    /// A text: 1 to 800 bytes from 0x20 to 0x7E.
    Text(WithText),
    /// A decimal up to 65,535.
    Number(ByNumber),
    /// A channel.
    Channel(OnChannel),
    /// A name, 1 to 15 lower-case letters, and then a text.
    Alias,
    /// A handle; and then the terms, usually 2 minutes and 12 seconds.
    Challenge,
    /// A decimal up to 65,535, or a handle.
    Look,
    /// The terms, usually 5 minutes and 0 seconds.
    Seek,
    /// The name of a variable, and then a value that it takes.
    Setting,
    /// 1 or 12.
    Style,
    /// A decimal from 1 to 1,200, or nothing, which is 1.
    Takeback,
    /// A handle or a channel, and then a text.
    Telling,
    /// A name, 1 to 15 lower-case letters.
    Unalias,
    /// A decimal up to 65,535, or nothing.
    Unseek,
}

/// A command: its name, with blanks behind it; its short form, or a blank where it has none; and what it takes.
#[derive(Clone, Copy)]
pub struct CommandRow(pub [u8; 9], pub u8, pub Takes);

/// The commands by their letters, of which signs are none. The comment above a row is what docs/CLIENTS.md says of it.
pub const ROWS: &[CommandRow] = &[
    // `abort`: offers to end the game without a result.
    CommandRow(*b"abort    ", b' ', Takes::Nothing(Bare::Abort)),
    // `accept [H]`: accepts H's challenge; without H the earliest offer at the own board, and where there is none
    // the oldest challenge.
    CommandRow(*b"accept   ", b'a', Takes::MaybeName(MaybeByName::Accept)),
    // `adjourn`: offers to go on another day, where all players have accounts.
    CommandRow(*b"adjourn  ", b' ', Takes::Nothing(Bare::Adjourn)),
    // `alias NAME TEXT`: lets NAME, 1 to 15 lower-case letters, stand for TEXT at the beginning of a line; at most
    // 32.
    CommandRow(*b"alias    ", b' ', Takes::Alias),
    // `+censor H`: puts H on the list of those who can't tell one anything, challenge one or take one's seek, at most
    // 100; [below](#keeping-others-away).
    CommandRow(*b"+censor  ", b' ', Takes::Name(ByName::AddCensor)),
    // `-censor H`: takes H off that list.
    CommandRow(*b"-censor  ", b' ', Takes::Name(ByName::DropCensor)),
    // `+channel N`: joins channel N, 0 to 255; at most 20.
    CommandRow(*b"+channel ", b' ', Takes::Channel(OnChannel::Join)),
    // `-channel N`: leaves channel N.
    CommandRow(*b"-channel ", b' ', Takes::Channel(OnChannel::Leave)),
    // `decline [H]`: turns H's challenge down; without H the earliest offer at the own board, and where there is
    // none the oldest challenge.
    CommandRow(*b"decline  ", b' ', Takes::MaybeName(MaybeByName::Decline)),
    // `draw`: offers a draw, or claims one where the rules grant it (50 moves, a third time).
    CommandRow(*b"draw     ", b' ', Takes::Nothing(Bare::Draw)),
    // `flag`: calls the flag on the opponent.
    CommandRow(*b"flag     ", b' ', Takes::Nothing(Bare::Flag)),
    // `games`: the games.
    CommandRow(*b"games    ", b' ', Takes::Nothing(Bare::Games)),
    // `goboard H`: goes to the first of one's games in which H is the opponent at one's own board; 20 for a
    // partner, and for a partner's opponent.
    CommandRow(*b"goboard  ", b' ', Takes::Name(ByName::GoBoard)),
    // `inchannel N`: who is in channel N.
    CommandRow(*b"inchannel", b' ', Takes::Channel(OnChannel::Ask)),
    // `kibitz TEXT`: tells all players and observers of the game: the present one, or else the first at which one
    // looks on.
    CommandRow(*b"kibitz   ", b'k', Takes::Text(WithText::Kibitz)),
    // `match H [M I] [unrated] [VARIANT] [COLOUR]`: challenges H; 2 12 and chess where nothing is said. For
    // bughouse both must have a partner: where H accepts, the partners sit down at a second board, each with the
    // colour that its partner doesn't have.
    CommandRow(*b"match    ", b'm', Takes::Challenge),
    // `+noplay H`: puts H on the list of those who can't challenge one or take one's seek, at most 100.
    CommandRow(*b"+noplay  ", b' ', Takes::Name(ByName::AddNoplay)),
    // `-noplay H`: takes H off that list.
    CommandRow(*b"-noplay  ", b' ', Takes::Name(ByName::DropNoplay)),
    // `observe N`, `observe H`: looks on at the game of that number, or at the one that H plays: prints its boards,
    // without the men in hand, and what comes from then on is news; at most 32 games.
    CommandRow(*b"observe  ", b'o', Takes::Look),
    // `partner [H]`: asks H to be one's partner; without H parts with the one that one has.
    CommandRow(*b"partner  ", b' ', Takes::MaybeName(MaybeByName::Partner)),
    // `pending`: the challenges to one, and then those by one.
    CommandRow(*b"pending  ", b' ', Takes::Nothing(Bare::Pending)),
    // `play N`: takes the seek of that number, and its game starts.
    CommandRow(*b"play     ", b' ', Takes::Number(ByNumber::Play)),
    // `ptell TEXT`: tells the partner.
    CommandRow(*b"ptell    ", b' ', Takes::Text(WithText::Ptell)),
    // `quit`: leaves: `Goodbye.`, and the server closes.
    CommandRow(*b"quit     ", b' ', Takes::Nothing(Bare::Quit)),
    // `refresh`: prints the board at the present place again, in bughouse both, and the men in hand where the
    // variant has them.
    CommandRow(*b"refresh  ", b' ', Takes::Nothing(Bare::Refresh)),
    // `register TEXT`: makes an account of this session's handle, with TEXT as its password; it lives as long as
    // the server, or as its store where it has one.
    CommandRow(*b"register ", b' ', Takes::Text(WithText::Register)),
    // `resign`: gives up.
    CommandRow(*b"resign   ", b' ', Takes::Nothing(Bare::Resign)),
    // `resume H`: goes on with the adjourned game of least number that one has with H, once each of its players has
    // asked for it; [below](#adjourned-games).
    CommandRow(*b"resume   ", b' ', Takes::Name(ByName::Resume)),
    // `seek [M I] [unrated] [VARIANT] [COLOUR]`: offers a game to whoever takes it; 5 0 and chess where nothing is
    // said; no bughouse, at most 3 at a time.
    CommandRow(*b"seek     ", b' ', Takes::Seek),
    // `set open 0`, `set shout 0`, `set seek 0`: can't be challenged (36 Refuses); doesn't hear shouts; doesn't
    // hear of seeks. With 1 the other way round; all are 1 at the login.
    CommandRow(*b"set      ", b' ', Takes::Setting),
    // `shout TEXT`: tells all others who have `shout` on.
    CommandRow(*b"shout    ", b' ', Takes::Text(WithText::Shout)),
    // `simnext`: goes to the next of one's games, in a circle.
    CommandRow(*b"simnext  ", b' ', Takes::Nothing(Bare::SimNext)),
    // `simopen`: gives a simul from now on, or gives none any more; [below](#simuls).
    CommandRow(*b"simopen  ", b' ', Takes::Nothing(Bare::SimOpen)),
    // `simprev`: goes to the previous of one's games, in a circle.
    CommandRow(*b"simprev  ", b' ', Takes::Nothing(Bare::SimPrev)),
    // `sought`: the seeks.
    CommandRow(*b"sought   ", b' ', Takes::Nothing(Bare::Sought)),
    // `stored`: one's own adjourned games.
    CommandRow(*b"stored   ", b' ', Takes::Nothing(Bare::Stored)),
    // `style 1`, `style 12`: boards are printed in text, or as board lines, as at the login.
    CommandRow(*b"style    ", b' ', Takes::Style),
    // `takeback [N]`: offers to take N half-moves back, 1 to 1,200, 1 without N; not in bughouse.
    CommandRow(*b"takeback ", b' ', Takes::Takeback),
    // `tell H TEXT`, `tell N TEXT`: tells H, or all others in channel N.
    CommandRow(*b"tell     ", b't', Takes::Telling),
    // `unalias NAME`: lets NAME stand for nothing any more.
    CommandRow(*b"unalias  ", b' ', Takes::Unalias),
    // `unobserve N`: looks on there no longer.
    CommandRow(*b"unobserve", b' ', Takes::Number(ByNumber::Unobserve)),
    // `unseek [N]`: takes back the seek of that number, or all of one's seeks.
    CommandRow(*b"unseek   ", b' ', Takes::Unseek),
    // `who`: the handles of those who are in.
    CommandRow(*b"who      ", b' ', Takes::Nothing(Bare::Who)),
    // `withdraw [H]`: takes back the challenge to H, or the oldest.
    CommandRow(*b"withdraw ", b' ', Takes::MaybeName(MaybeByName::Withdraw)),
];
