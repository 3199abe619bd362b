//! The reading of a line.

ghost use Rattle.std.specs.Prelude.{◌≡◌};
ghost use Rattle.cmd_examine.specs.Lines.{count_of, exam_line_of, worded};

use crate::line::ExamLine;
use cmd_lines::cut;
use fics_words::read_number;
use move_reader::read_word;

/// The most half-moves of a step: as many as a pair can have.
const MOST_STEPS: u64 = 2_400;

/// Reads a line; `None` where it is outside the grammar.
pub(crate) fn read_line(line: &[u8]) -> Option<ExamLine>
    ensures { result ≡ exam_line_of line.now }
{
    if line == b"forward".as_slice() {
        return Some(ExamLine::Forward(1));
    }
    if line == b"back".as_slice() {
        return Some(ExamLine::Back(1));
    }
    if line == b"revert".as_slice() {
        return Some(ExamLine::Revert);
    }
    let (word, rest) = cut(line);
    read_worded(word, rest, line)
}

/// Reads a line by its first word, and what stands behind the blank.
fn read_worded(word: &[u8], rest: &[u8], line: &[u8]) -> Option<ExamLine>
    ensures { result ≡ worded word.now rest.now line.now }
{
    if word == b"forward".as_slice() {
        return Some(ExamLine::Forward(read_count(rest)?));
    }
    if word == b"back".as_slice() {
        return Some(ExamLine::Back(read_count(rest)?));
    }
    Some(ExamLine::Play(read_word(line)?))
}

/// The number of half-moves, 1 to 2,400, of which the bytes are the decimal.
fn read_count(bytes: &[u8]) -> Option<u16>
    ensures { result ≡ count_of bytes.now }
{
    let Some(number) = read_number(bytes, MOST_STEPS) else {
        return None;
    };
    if number == 0 {
        return None;
    }
    Some(number as u16)
}
