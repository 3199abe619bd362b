//! What a reader gives, told as text: of each game its event, its result as `+`, `-`, `=` or `*`, its moves and a line
//! feed; and `!` with a line where the text is bad. A call for which memory is wanting is made once more.

use chess_model::Move;
use fics_words::write_number;
use memory::NoMemory;
use move_writer::spelling;
use pgn_book::{PgnGame, PgnReader, PgnResult, PgnStep};
use std::alloc::Global;

/// The most games of a text.
const MOST_GAMES: usize = 4;

/// The most bytes that are told of a text.
const MOST_TOLD: usize = 256;

/// What is read in a text that is fed in two pieces.
pub fn told(alloc: Global, text: &[u8], cut: usize) -> Result<Vec<u8>, NoMemory> {
    let mut told = room(alloc)?;
    let mut reader = PgnReader::new(alloc)?;
    tell_all(&mut reader, text, cut, &mut told)?;
    Ok(told)
}

/// Room for all that is told, which is asked for once more where it is refused.
fn room(alloc: Global) -> Result<Vec<u8>, NoMemory> {
    match Vec::with_capacity(alloc, MOST_TOLD) {
        Ok(told) => Ok(told),
        Err(_) => Ok(Vec::with_capacity(alloc, MOST_TOLD)?),
    }
}

fn tell_all(
    reader: &mut PgnReader,
    text: &[u8],
    cut: usize,
    told: &mut Vec<u8>,
) -> Result<(), NoMemory> {
    let (front, back) = text.split_at(cut.min(text.len()));
    feed(reader, front)?;
    tell_fed(reader, told)?;
    feed(reader, back)?;
    tell_last(reader, told)
}

fn feed(reader: &mut PgnReader, piece: &[u8]) -> Result<(), NoMemory> {
    match reader.feed(piece) {
        Ok(()) => Ok(()),
        Err(_) => reader.feed(piece),
    }
}

fn next(reader: &mut PgnReader) -> Result<PgnStep, NoMemory> {
    match reader.next() {
        Ok(step) => Ok(step),
        Err(_) => reader.next(),
    }
}

fn finish(reader: &mut PgnReader) -> Result<PgnStep, NoMemory> {
    match reader.finish() {
        Ok(step) => Ok(step),
        Err(_) => reader.finish(),
    }
}

/// Tells the whole games of what was fed.
fn tell_fed(reader: &mut PgnReader, told: &mut Vec<u8>) -> Result<(), NoMemory> {
    for _ in 0..MOST_GAMES {
        let step = next(reader)?;
        if !tell_game(&step, told)? {
            return Ok(());
        }
    }
    Ok(())
}

/// Tells what is left at the end, and the line of a bad text.
fn tell_last(reader: &mut PgnReader, told: &mut Vec<u8>) -> Result<(), NoMemory> {
    for _ in 0..MOST_GAMES {
        let step = finish(reader)?;
        if !tell_game(&step, told)? {
            return tell_end(&step, told);
        }
    }
    Ok(())
}

fn tell_end(step: &PgnStep, told: &mut Vec<u8>) -> Result<(), NoMemory> {
    if let PgnStep::Bad(line) = step {
        told.push(b'!')?;
        return write_number(told, *line);
    }
    Ok(())
}

/// Tells a game, and whether there is one.
fn tell_game(step: &PgnStep, told: &mut Vec<u8>) -> Result<bool, NoMemory> {
    match step {
        PgnStep::Game(game) => {
            tell(game, told)?;
            Ok(true)
        },
        _ => Ok(false),
    }
}

fn tell(game: &PgnGame, told: &mut Vec<u8>) -> Result<(), NoMemory> {
    told.extend_from_slice(game.tags.event.as_slice())?;
    told.push(letter_of(game.result))?;
    for m in game.moves.as_slice() {
        tell_move(m, told)?;
    }
    told.push(b'\n')?;
    Ok(())
}

fn tell_move(m: &Move, told: &mut Vec<u8>) -> Result<(), NoMemory> {
    told.extend_from_slice(spelling(m).bytes())?;
    Ok(())
}

fn letter_of(ending: PgnResult) -> u8 {
    match ending {
        PgnResult::White => b'+',
        PgnResult::Black => b'-',
        PgnResult::Draw => b'=',
        PgnResult::Open => b'*',
    }
}
