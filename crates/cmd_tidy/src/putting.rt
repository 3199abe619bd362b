//! The exports of games, as a reader gives these.

ghost use Rattle.std.specs.Prelude.{◌≡◌, ◌<◌, ◌++◌, ℕ, List, false, true, IfOk, OnOk};
ghost use Rattle.pgn_book.specs.declared.game.PgnGame.{PgnGame};
ghost use Rattle.pgn_book.specs.Export.{IsExportable, export_text};
ghost use Rattle.pgn_book.specs.Reader.{MayBeExported, most_left};
ghost use Rattle.pgn_book.specs.Runs.{EndsSo, HasGiven};
ghost use Rattle.cmd_lines.specs.Feeding.{AfterFeeding};
ghost use Rattle.cmd_tidy.specs.Putting.{AfterLast, AfterPut, PutsStep};
ghost use Rattle.cmd_tidy.specs.Tidying.{exports, tidying};

use cmd_lines::{Stop, refuse_line};
use memory::NoMemory;
use pgn_book::{PgnGame, PgnReader, PgnStep, export};
use std::alloc::Global;

/// The end of each line.
const LINE_END: &[u8] = b"\n";

/// Puts the exports of the games that are whole in what was fed.
pub(crate) fn put_games(
    alloc: Global,
    reader: &mut PgnReader,
    out: &mut Vec<u8>,
) -> Result<(), Stop>
    ensures { (taken base : List ℕ) (games : List PgnGame) → HasGiven taken games reader.old
        → base ++ out.old.items ≡ exports games
        → AfterFeeding tidying false taken reader.new (base ++ out.new.items) result }
{
    while put_next(alloc, reader, out)? {}
    Ok(())
}

/// Puts the exports of the games that are left at the end of the text.
pub(crate) fn put_last_games(
    alloc: Global,
    reader: &mut PgnReader,
    out: &mut Vec<u8>,
) -> Result<(), Stop>
    ensures { (taken base : List ℕ) (games : List PgnGame) → EndsSo taken games reader.old
        → base ++ out.old.items ≡ exports games
        → AfterFeeding tidying true taken reader.new (base ++ out.new.items) result }
{
    while put_last(alloc, reader, out)? {}
    Ok(())
}

/// Puts the export of the next whole game; false where there is none yet.
fn put_next(alloc: Global, reader: &mut PgnReader, out: &mut Vec<u8>) -> Result<bool, Stop>
    ensures put { (taken base : List ℕ) (games : List PgnGame) → HasGiven taken games reader.old
        → base ++ out.old.items ≡ exports games → AfterPut taken (base ++ out.new.items) reader.new result }
    ensures fewer { IfOk result (λ more. more ≡ true → most_left reader.new < most_left reader.old) }
{
    let step = reader.next()?;
    put_step(alloc, &step, out)
}

/// Puts the export of the next game at the end of the text; false where nothing is left.
fn put_last(alloc: Global, reader: &mut PgnReader, out: &mut Vec<u8>) -> Result<bool, Stop>
    ensures put { (taken base : List ℕ) (games : List PgnGame) → EndsSo taken games reader.old
        → base ++ out.old.items ≡ exports games → AfterLast taken (base ++ out.new.items) reader.new result }
    ensures fewer { IfOk result (λ more. more ≡ true → most_left reader.new < most_left reader.old) }
{
    let step = reader.finish()?;
    put_step(alloc, &step, out)
}

/// Puts the export of a game, or the number of a line that is outside the grammar; false where there is no game.
fn put_step(alloc: Global, step: &PgnStep, out: &mut Vec<u8>) -> Result<bool, Stop>
    requires { MayBeExported step.now }
    ensures { PutsStep step.now out.old.items out.new.items result }
{
    match step {
        PgnStep::Game(game) => {
            put_game(alloc, game, out)?;
            Ok(true)
        }
        PgnStep::More => Ok(false),
        PgnStep::Bad(line) => Err(refuse_line(*line, LINE_END, out)),
    }
}

/// Puts the export of a game.
fn put_game(alloc: Global, game: &PgnGame, out: &mut Vec<u8>) -> Result<(), NoMemory>
    requires { IsExportable game.now }
    ensures { OnOk result (out.new.items ≡ out.old.items ++ export_text game.now) }
{
    let text = export(alloc, game)?;
    out.extend_from_slice(text.as_slice())?;
    Ok(())
}
