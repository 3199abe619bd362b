//! What a session may want to do.

ghost use Rattle.std.specs.Prelude.{◌≡◌};
ghost use Rattle.cmd_demo.specs.Said.{wish_of};

/// What a session wants to do; each has its line, but for the last of them, which has one where there is a half-move to
/// make.
#[derive(Clone, Copy)]
pub enum Wish {
    /// To post a seek of chess.
    SeekChess,
    /// To post a seek of crazyhouse.
    SeekCrazyhouse,
    /// To take the seek of a number.
    Play,
    /// To say something in a channel.
    Tell,
    /// To join that channel.
    Join,
    /// To look on at a game.
    Observe,
    /// To have another as a partner.
    Partner,
    /// To play another at bughouse.
    MatchPairs,
    /// To accept what is offered.
    Accept,
    /// To draw.
    Draw,
    /// To take a half-move back.
    TakeBack,
    /// To call the opponent's flag.
    Flag,
    /// To say something to all at a game.
    Kibitz,
    /// To make a half-move.
    Move,
}

/// The wish of this number: one each from 0 to 12, and from 13 on a half-move.
pub(crate) fn wish_of(number: u64) -> Wish
    ensures { result ≡ wish_of number }
{
    match number {
        0 => Wish::SeekChess,
        1 => Wish::SeekCrazyhouse,
        2 => Wish::Play,
        3 => Wish::Tell,
        4 => Wish::Join,
        5 => Wish::Observe,
        6 => Wish::Partner,
        7 => Wish::MatchPairs,
        8 => Wish::Accept,
        9 => Wish::Draw,
        10 => Wish::TakeBack,
        11 => Wish::Flag,
        12 => Wish::Kibitz,
        _ => Wish::Move,
    }
}
