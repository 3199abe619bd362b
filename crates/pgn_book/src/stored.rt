//! Stored games of chess, as PGN text tells them.
ghost use Rattle.std.specs.Prelude.{◌≡◌, ◌↔◌, IfOk, IfSome, IfNone, IsTrue, map};
ghost use Rattle.chess_model.specs.declared.variant.Variant.TheVariants.{Chess};
ghost use Rattle.fics_words.specs.Handle.{IsHandle};
ghost use Rattle.pgn_book.specs.Export.{IsExportable};
ghost use Rattle.pgn_book.specs.Stored.{IsStoredChess, names_row, stored_text};

use crate::game::{PgnGame, PgnResult, TagRow};
use crate::tag_texts::copied;
use chess_model::{Move, Variant};
use collections::Listed;
use desk_boards::replays;
use fics_words::Handle;
use game_records::{PackedHalf, StoredGame};
use memory::NoMemory;
use std::alloc::Global;

/// The game as PGN text tells it: its two names and its half-moves, without an end. `None` exactly where it isn't chess
/// or doesn't replay.
pub fn of_stored(alloc: Global, g: &StoredGame) -> Result<Option<PgnGame>, NoMemory>
    ensures found { IfOk result (λ made. IfSome made (λ game. (game ≡ stored_text g.now) × IsStoredChess g.now)) }
    ensures exportable { IfOk result (λ made. IfSome made IsExportable) }
    ensures none { IfOk result (λ made. IfNone made (IsStoredChess g.now → ⊥)) }
{
    if !is_chess(g.terms.variant) {
        return Ok(None);
    }
    if !replays(alloc, g)? {
        return Ok(None);
    }
    Ok(Some(told(alloc, g)?))
}

/// A game of chess that replays, as PGN text tells it: it has two players.
fn told(alloc: Global, g: &StoredGame) -> Result<PgnGame, NoMemory>
    requires { IsStoredChess g.now }
    ensures told { IfOk result (λ game. game ≡ stored_text g.now) }
    ensures exportable { IfOk result IsExportable }
{
    let [white, black] = g.names.as_slice() else {
        unreachable!()
    };
    let tags = names_row(alloc, white, black)?;
    let moves = moves_of(alloc, g.halves.as_slice())?;
    Ok(PgnGame {
        tags,
        moves,
        result: PgnResult::Open,
    })
}

/// The texts of a game of which only the players are known.
fn names_row(alloc: Global, white: &Handle, black: &Handle) -> Result<TagRow, NoMemory>
    ensures texts { IfOk result (λ tags. tags ≡ names_row white.now black.now) }
    ensures white { IsHandle white.now }
    ensures black { IsHandle black.now }
{
    let (white, black) = (white.letters(), black.letters());
    let white = copied(alloc, white)?;
    let black = copied(alloc, black)?;
    let event = copied(alloc, b"?")?;
    let site = copied(alloc, b"?")?;
    let date = copied(alloc, b"????.??.??")?;
    let round = copied(alloc, b"?")?;
    Ok(TagRow {
        event,
        site,
        date,
        round,
        white,
        black,
    })
}

/// The half-moves without their charges.
fn moves_of(alloc: Global, halves: &[PackedHalf]) -> Result<Listed<Move>, NoMemory>
    ensures { IfOk result (λ moves. moves ≡ map (λ h. h.what) halves.now) }
{
    let mut moves = Listed::new(alloc);
    for half in halves {
        moves.push(half.what())?;
    }
    Ok(moves)
}

/// Whether a variant is chess.
fn is_chess(variant: Variant) -> bool
    ensures { IsTrue result ↔ (variant ≡ Chess) }
{
    match variant {
        Variant::Chess => true,
        Variant::Crazyhouse => false,
        Variant::Bughouse => false,
        Variant::Fischer(_) => false,
    }
}
