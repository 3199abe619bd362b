//! The export form of a game.
ghost use Rattle.std.specs.Prelude.{◌≡◌, ℕ, ◌≤◌, [], ◌∷◌, ◌++◌, List, length, codes, IfOk, OnOk};
ghost use Rattle.chess_model.specs.Limits.{most_halves};
ghost use Rattle.chess_model.specs.MoveList.{HalfMove};
ghost use Rattle.chess_model.specs.Position.{Stands};
ghost use Rattle.chess_model.specs.Allowed.{Allowed};
ghost use Rattle.rules_reading.specs.ReadsBack.{pretty_in};
ghost use Rattle.pgn_book.specs.Lexing.{escaped, escaped_byte};
ghost use Rattle.pgn_book.specs.Games.{result_text};
ghost use Rattle.pgn_book.specs.Export.{tag_line, tag_lines, number_at, move_tokens, export_text, IsExportable};
ghost use Rattle.pgn_book.specs.Pages.{Lays};

use crate::game::{PgnGame, PgnResult};
use crate::page::Page;
use chess_model::{Move, Variant};
use memory::NoMemory;
use move_writer::pretty;
use std::alloc::Global;
use variant_rules::Position;

/// The export form of a game: a line for each of the seven tags, an empty line, the movetext in lines of at most 79
/// bytes, an empty line. A move is its pretty text.
pub fn export(alloc: Global, g: &PgnGame) -> Result<Vec<u8>, NoMemory>
    requires { IsExportable g.now }
    ensures { IfOk result (λ text. text.items ≡ export_text g.now) }
{
    let mut text = Vec::new(alloc);
    put_tags(&mut text, g)?;
    let mut page = Page::behind(text);
    put_moves(alloc, &mut page, g)?;
    page.put(result_word(g.result))?;
    let mut text = page.finish();
    put_end(&mut text)?;
    Ok(text)
}

/// The end of the last line, and the empty line behind it.
fn put_end(text: &mut Vec<u8>) -> Result<(), NoMemory>
    ensures { OnOk result (text.new.items ≡ text.old.items ++ codes "\n\n") }
{
    text.extend_from_slice(b"\n\n")?;
    Ok(())
}

/// The word of a result.
pub(crate) fn result_word(ending: PgnResult) -> &'static [u8]
    ensures text { result.now ≡ result_text ending }
    ensures short { length result.now ≤ 79 }
{
    match ending {
        PgnResult::White => b"1-0",
        PgnResult::Black => b"0-1",
        PgnResult::Draw => b"1/2-1/2",
        PgnResult::Open => b"*",
    }
}

/// The lines of the tags, and the empty line behind them.
fn put_tags(text: &mut Vec<u8>, g: &PgnGame) -> Result<(), NoMemory>
    ensures { OnOk result (text.new.items ≡ text.old.items ++ (tag_lines g.now ++ codes "\n")) }
{
    put_tag(text, b"Event", g.tags.event.as_slice())?;
    put_tag(text, b"Site", g.tags.site.as_slice())?;
    put_tag(text, b"Date", g.tags.date.as_slice())?;
    put_tag(text, b"Round", g.tags.round.as_slice())?;
    put_tag(text, b"White", g.tags.white.as_slice())?;
    put_tag(text, b"Black", g.tags.black.as_slice())?;
    put_tag(text, b"Result", result_word(g.result))?;
    text.push(b'\n')?;
    Ok(())
}

fn put_tag(out: &mut Vec<u8>, name: &[u8], text: &[u8]) -> Result<(), NoMemory>
    ensures { OnOk result (out.new.items ≡ out.old.items ++ tag_line name.now text.now) }
{
    out.push(b'[')?;
    out.extend_from_slice(name)?;
    out.extend_from_slice(b" \"")?;
    put_escaped(out, text)?;
    out.extend_from_slice(b"\"]\n")?;
    Ok(())
}

/// A text with a stroke before each quote and stroke.
fn put_escaped(out: &mut Vec<u8>, text: &[u8]) -> Result<(), NoMemory>
    ensures { OnOk result (out.new.items ≡ out.old.items ++ escaped text.now) }
{
    for byte in text {
        put_byte(out, *byte)?;
    }
    Ok(())
}

/// A byte of a text in quotes.
fn put_byte(out: &mut Vec<u8>, byte: u8) -> Result<(), NoMemory>
    ensures { OnOk result (out.new.items ≡ out.old.items ++ escaped_byte byte) }
{
    if byte == b'"' || byte == b'\\' {
        out.push(b'\\')?;
        out.push(byte)?;
        return Ok(());
    }
    out.push(byte)?;
    Ok(())
}

/// The moves with their numbers.
fn put_moves(alloc: Global, page: &mut Page, g: &PgnGame) -> Result<(), NoMemory>
    requires { IsExportable g.now }
    ensures { OnOk result (Lays page.old page.new (move_tokens [] g.now.moves)) }
{
    let moves = g.moves.as_slice();
    let mut position = Position::start(Variant::Chess);
    for place in 0..moves.len() {
        put_next(alloc, page, &mut position, place, &moves[place])?;
    }
    Ok(())
}

/// A move, which is then made.
fn put_next(
    alloc: Global,
    page: &mut Page,
    position: &mut Position,
    place: usize,
    m: &Move,
) -> Result<(), NoMemory>
    requires place { place ≤ most_halves }
    requires allowed { Allowed position.old m.now }
    ensures lays { OnOk result (Lays page.old page.new (number_at place ++ pretty_in position.old m.now ∷ [])) }
    ensures variant { position.new.variant ≡ position.old.variant }
    ensures stands { OnOk result ((T : List HalfMove) (b : ℕ) → Stands position.old T b
        → Stands position.new (T ++ record { board = b; what = m.now } ∷ []) b) }
{
    put_shown(alloc, page, position, place, m)?;
    let made = *m;
    position.make(made);
    Ok(())
}

fn put_shown(
    alloc: Global,
    page: &mut Page,
    position: &Position,
    place: usize,
    m: &Move,
) -> Result<(), NoMemory>
    requires place { place ≤ most_halves }
    requires allowed { Allowed position.now m.now }
    ensures { OnOk result (Lays page.old page.new (number_at place ++ pretty_in position.now m.now ∷ [])) }
{
    let shown = *m;
    let text = pretty(&position.shown(shown));
    page.put_move(alloc, place, &text)
}
