//! The reading of a line.

ghost use Rattle.std.specs.Prelude.{◌≡◌};
ghost use Rattle.fics_words.specs.HandleTest.{handle_of};
ghost use Rattle.cmd_tourney.specs.Lines.{tourney_line, result_of, round_of, score_of, worded};

use crate::line::TourneyLine;
use cmd_lines::cut;
use fics_words::{Handle, read_number};
use tourney_desk::Score;

/// The highest number of a round that a line may ask for.
const MOST_ROUND: u64 = 255;

/// Reads a line; `None` where it is outside the grammar.
pub(crate) fn read_line(line: &[u8]) -> Option<TourneyLine>
    ensures { result ≡ tourney_line line.now }
{
    if line == b"start".as_slice() {
        return Some(TourneyLine::Start);
    }
    if line == b"table".as_slice() {
        return Some(TourneyLine::Table);
    }
    let (word, rest) = cut(line);
    read_worded(word, rest)
}

/// Reads a line by its first word, and what stands behind the blank.
fn read_worded(word: &[u8], rest: &[u8]) -> Option<TourneyLine>
    ensures { result ≡ worded word.now rest.now }
{
    if word == b"join".as_slice() {
        return Some(TourneyLine::Join(read_handle(rest)?));
    }
    if word == b"round".as_slice() {
        return Some(TourneyLine::Round(read_round(rest)?));
    }
    if word == b"result".as_slice() {
        return read_result(rest);
    }
    None
}

/// Reads what stands behind `result`: the names of White and Black, and the score.
fn read_result(rest: &[u8]) -> Option<TourneyLine>
    ensures { result ≡ result_of rest.now }
{
    let (white, rest) = cut(rest);
    let (black, score) = cut(rest);
    let white = read_handle(white)?;
    let black = read_handle(black)?;
    let score = read_score(score)?;
    Some(TourneyLine::Report(white, black, score))
}

/// The handle that the bytes spell.
#[tactic(auto, using(fics_words::proofs::HandleTests::handle_is))]
fn read_handle(bytes: &[u8]) -> Option<Handle>
    ensures { result ≡ handle_of bytes.now }
{
    Handle::read(bytes)
}

/// The number of a round, 1 to 255, of which the bytes are the decimal.
fn read_round(bytes: &[u8]) -> Option<u8>
    ensures { result ≡ round_of bytes.now }
{
    let Some(number) = read_number(bytes, MOST_ROUND) else {
        return None;
    };
    if number == 0 {
        return None;
    }
    Some(number as u8)
}

/// The score that the bytes spell.
fn read_score(bytes: &[u8]) -> Option<Score>
    ensures { result ≡ score_of bytes.now }
{
    if bytes == b"1-0".as_slice() {
        return Some(Score::White);
    }
    if bytes == b"0-1".as_slice() {
        return Some(Score::Black);
    }
    if bytes == b"1/2-1/2".as_slice() {
        return Some(Score::Draw);
    }
    None
}
