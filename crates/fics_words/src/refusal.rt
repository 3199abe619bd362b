//! Why a command was refused: each cause has a number and a name that a player is shown.

ghost use Rattle.std.specs.Prelude.{◌≡◌, ◌++◌, OnOk};
ghost use Rattle.fics_words.specs.Refusal.{refusal_words};

use crate::number::write_number;
use memory::NoMemory;

/// The cause of a refusal, numbered from 1 on in this order; shown to a player as `refused N Name`.
#[derive(Clone, Copy, Debug, PartialEq, Eq)]
pub enum Refusal {
    /// Two or more allowed moves match the word.
    Ambiguous = 1,
    /// The own king would be attacked after the move.
    LeavesKing,
    /// That castling isn't allowed.
    CastleForbidden,
    /// A drop in chess.
    NoDrops,
    /// The hand has no man of the kind.
    NotInHand,
    /// The square of the drop isn't empty.
    Occupied,
    /// A pawn isn't dropped on the first or eighth rank.
    EndRank,
    /// No own man of the word's kind stands on its square, file or rank.
    NoPiece,
    /// None of the men that the word may mean reaches the square.
    CannotReach,
    /// The game has ended.
    GameOver,
    /// The other colour is to move.
    NotYourTurn,
    /// The board has all the half-moves that it can hold.
    TooManyMoves,
    /// The position gives no claim of a draw.
    NothingToClaim,
    /// The opponent's clock hasn't fallen.
    NotFallen,
    /// There aren't that many half-moves to take back.
    TooFewMoves,
    /// No such offer stands.
    NoSuchOffer,
    /// This very offer stands already.
    AlreadyOffered,
    /// The session isn't a viewer of the game.
    NotWatching,
    /// The desk has all the remarks that it can hold.
    FeedFull,
    /// The session has no seat in that game.
    NotPlaying,
    /// The variant of the game doesn't have this.
    NotInVariant,
    /// The line is no handle.
    BadHandle,
    /// The password isn't the account's.
    WrongPassword,
    /// Somebody here has this handle, or this session has entered.
    HandleTaken,
    /// The hall has all the members that it can hold.
    HallFull,
    /// The first word is no command.
    Unknown,
    /// The first word is short for several commands.
    AmbiguousWord,
    /// The arguments aren't those of the command.
    BadArguments,
    /// The line is too long.
    TooLong,
    /// No seek has the number.
    NoSuchSeek,
    /// The member has all the seeks that it may have.
    SeekFull,
    /// Nobody here has the handle.
    NoSuchPlayer,
    /// A player concerned is in a game.
    Playing,
    /// There is no such challenge.
    NoChallenge,
    /// No desk is free.
    NoDesk,
    /// The other doesn't want this.
    Refuses,
    /// A player concerned has no partner.
    NoPartner,
    /// One of the two has a partner.
    HasPartner,
    /// The member isn't in the channel.
    NotInChannel,
    /// The list has all the rows that it can hold.
    ListFull,
    /// There is no such channel.
    BadChannel,
    /// The member isn't giving a simul.
    NotGiving,
    /// A player concerned has all the places that it can hold.
    SimulFull,
    /// The two have no stored game.
    NoStored,
    /// The shelf has all the games that it can hold.
    ShelfFull,
    /// There is no such game.
    NoSuchGame,
    /// There are all the accounts that there can be.
    AccountsFull,
    /// The handle has an account.
    AlreadyRegistered,
    /// All the lines that can wait for the other do.
    QueueFull,
    /// One can't play against oneself, or against one's partner.
    BadOpponent,
    /// It is on the list already.
    OnList,
    /// It isn't on the list.
    NotOnList,
    /// A player concerned has no account.
    NotRegistered,
    /// The session hasn't entered.
    NotIn,
    /// The session is a viewer already.
    AlreadyWatching,
    /// The line has bytes that aren't allowed.
    BadByte,
    /// Fewer half-moves than that follow in the stored game.
    NoMoreMoves,
    /// Fewer half-moves than that were played so far in the stored game.
    NoEarlierMoves,
    /// The tourney has started: nobody joins it any more, and it doesn't start again.
    TourneyStarted,
    /// The tourney has all the players that it can hold.
    TourneyFull,
    /// A tourney needs two players to start.
    TooFewPlayers,
    /// The tourney hasn't started: it has no rounds, results and table yet.
    TourneyNotStarted,
    /// The tourney has no round of that number.
    NoSuchRound,
    /// In no round of the tourney do these two meet with these colours.
    NotPaired,
    /// The result of these two stands already.
    AlreadyReported,
}

impl Refusal {
    ghost use Rattle.fics_words.specs.Refusal.{number_of, name_of};

    /// The refusal's number, from 1 on.
    pub fn number(self) -> u8
        ensures { result ≡ number_of self }
    {
        self as u8
    }

    /// The refusal's name, as it is printed behind the number.
    pub fn name(self) -> &'static str
        ensures { result.now ≡ name_of self }
    {
        match self {
            Refusal::Ambiguous => "Ambiguous",
            Refusal::LeavesKing => "LeavesKing",
            Refusal::CastleForbidden => "CastleForbidden",
            Refusal::NoDrops => "NoDrops",
            Refusal::NotInHand => "NotInHand",
            Refusal::Occupied => "Occupied",
            Refusal::EndRank => "EndRank",
            Refusal::NoPiece => "NoPiece",
            Refusal::CannotReach => "CannotReach",
            Refusal::GameOver => "GameOver",
            Refusal::NotYourTurn => "NotYourTurn",
            Refusal::TooManyMoves => "TooManyMoves",
            Refusal::NothingToClaim => "NothingToClaim",
            Refusal::NotFallen => "NotFallen",
            Refusal::TooFewMoves => "TooFewMoves",
            Refusal::NoSuchOffer => "NoSuchOffer",
            Refusal::AlreadyOffered => "AlreadyOffered",
            Refusal::NotWatching => "NotWatching",
            Refusal::FeedFull => "FeedFull",
            Refusal::NotPlaying => "NotPlaying",
            Refusal::NotInVariant => "NotInVariant",
            Refusal::BadHandle => "BadHandle",
            Refusal::WrongPassword => "WrongPassword",
            Refusal::HandleTaken => "HandleTaken",
            Refusal::HallFull => "HallFull",
            Refusal::Unknown => "Unknown",
            Refusal::AmbiguousWord => "AmbiguousWord",
            Refusal::BadArguments => "BadArguments",
            Refusal::TooLong => "TooLong",
            Refusal::NoSuchSeek => "NoSuchSeek",
            Refusal::SeekFull => "SeekFull",
            Refusal::NoSuchPlayer => "NoSuchPlayer",
            Refusal::Playing => "Playing",
            Refusal::NoChallenge => "NoChallenge",
            Refusal::NoDesk => "NoDesk",
            Refusal::Refuses => "Refuses",
            Refusal::NoPartner => "NoPartner",
            Refusal::HasPartner => "HasPartner",
            Refusal::NotInChannel => "NotInChannel",
            Refusal::ListFull => "ListFull",
            Refusal::BadChannel => "BadChannel",
            Refusal::NotGiving => "NotGiving",
            Refusal::SimulFull => "SimulFull",
            Refusal::NoStored => "NoStored",
            Refusal::ShelfFull => "ShelfFull",
            Refusal::NoSuchGame => "NoSuchGame",
            Refusal::AccountsFull => "AccountsFull",
            Refusal::AlreadyRegistered => "AlreadyRegistered",
            Refusal::QueueFull => "QueueFull",
            Refusal::BadOpponent => "BadOpponent",
            Refusal::OnList => "OnList",
            Refusal::NotOnList => "NotOnList",
            Refusal::NotRegistered => "NotRegistered",
            Refusal::NotIn => "NotIn",
            Refusal::AlreadyWatching => "AlreadyWatching",
            Refusal::BadByte => "BadByte",
            Refusal::NoMoreMoves => "NoMoreMoves",
            Refusal::NoEarlierMoves => "NoEarlierMoves",
            Refusal::TourneyStarted => "TourneyStarted",
            Refusal::TourneyFull => "TourneyFull",
            Refusal::TooFewPlayers => "TooFewPlayers",
            Refusal::TourneyNotStarted => "TourneyNotStarted",
            Refusal::NoSuchRound => "NoSuchRound",
            Refusal::NotPaired => "NotPaired",
            Refusal::AlreadyReported => "AlreadyReported",
        }
    }
}

/// Appends the words by which a refusal is told, its number and its name; what ends their line is for the caller.
pub fn write_refusal(out: &mut Vec<u8>, cause: Refusal) -> Result<(), NoMemory>
    ensures { OnOk result (out.new.items ≡ out.old.items ++ refusal_words cause) }
{
    out.extend_from_slice(b"refused ")?;
    write_number(out, u64::from(cause.number()))?;
    out.extend_from_slice(b" ")?;
    out.extend_from_slice(cause.name().as_bytes())?;
    Ok(())
}
