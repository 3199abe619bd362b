//! The texts of answers, each line ended by a line feed.

ghost use Rattle.std.specs.Prelude.{◌≡◌, ◌++◌, OnOk, codes};
ghost use Rattle.cmd_examine.specs.Texts.{lines_text, shown_text};

use examine_board::Exam;
use fics_words::Line;
use memory::NoMemory;

/// The end of each line.
pub(crate) const LINE_END: &[u8] = b"\n";

/// Appends the lines that show where an exam is.
pub(crate) fn put_exam(exam: &Exam, out: &mut Vec<u8>) -> Result<(), NoMemory>
    ensures { OnOk result (out.new.items ≡ out.old.items ++ shown_text exam.now) }
{
    let lines = exam.lines(*out.allocator())?;
    put_lines(lines.as_slice(), out)
}

/// Appends lines.
fn put_lines(lines: &[Line], out: &mut Vec<u8>) -> Result<(), NoMemory>
    ensures { OnOk result (out.new.items ≡ out.old.items ++ lines_text lines.now) }
{
    for line in lines {
        put_line(line, out)?;
    }
    Ok(())
}

/// Appends a line.
fn put_line(line: &Line, out: &mut Vec<u8>) -> Result<(), NoMemory>
    ensures { OnOk result (out.new.items ≡ out.old.items ++ (line.now ++ codes "\n")) }
{
    out.extend_from_slice(line.bytes())?;
    out.extend_from_slice(LINE_END)?;
    Ok(())
}
