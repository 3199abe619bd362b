//! An exam answers the lines of the input.

ghost use Rattle.std.specs.Prelude.{◌≡◌, ◌≤◌, ◌++◌, IfErr, IfOk, OnOk};
ghost use Rattle.edge_traits.specs.Faults.{Rose};
ghost use Rattle.cmd_lines.specs.Ends.{OnReadFault, OnWriteFault};
ghost use Rattle.cmd_lines.specs.LineCommand.{IsLineAnswer};
ghost use Rattle.cmd_lines.specs.Reading.{AfterSend};
ghost use Rattle.cmd_examine.specs.ExamineEnds.{AnswersFrom};
ghost use Rattle.cmd_examine.specs.Texts.{answer_line, exam_done, shown_text, exam_told};

use crate::line::ExamLine;
use crate::reading::read_line;
use crate::texts::{LINE_END, put_exam};
use cmd_lines::{End, LineAnswerer, answer_from, put_refusal, send};
use edge_traits::{Sink, Source};
use examine_board::Exam;
use fics_words::Refusal;
use memory::NoMemory;
use std::alloc::Global;
use std::marker::Model;

/// The exam of the lines that came, which contracts see as that exam.
#[derive(Drop)]
struct Examiner {
    exam: Exam,
}

impl Model for Examiner {
    ghost use Rattle.examine_board.specs.Exam.{ExamState};

    ghost Value = { ExamState };

    ghost view = { λ examiner. examiner.exam };
}

impl LineAnswerer for Examiner {
    ghost use Rattle.cmd_examine.specs.Texts.{examine_lines, no_exam};

    ghost command = { examine_lines no_exam };

    fn answer_line(&mut self, line: &[u8], out: &mut Vec<u8>) -> Result<bool, NoMemory> {
        answer_line(&mut self.exam, line, out)
    }

    fn ending(&self) -> &'static [u8] {
        LINE_END
    }
}

/// Writes the lines that show where the exam is; then reads the source to its end, and writes what its lines give: one
/// write a read.
pub(crate) fn answer_exam<S: Source, K: Sink>(
    alloc: Global,
    exam: Exam,
    source: &mut S,
    sink: &mut K,
) -> End
    ensures ends { AnswersFrom exam (S.left source.old) (S.left source.new) (K.written sink.old) (K.written sink.new)
        result }
    ensures read_cause { OnReadFault result (Rose (S.faults source.old) (S.faults source.new)) }
    ensures write_cause { OnWriteFault result (Rose (K.faults sink.old) (K.faults sink.new)) }
{
    if let Err(end) = show(alloc, &exam, sink) {
        return end;
    }
    answer_from(alloc, Examiner { exam }, source, sink)
}

/// Writes the lines that show where an exam is.
fn show<K: Sink>(alloc: Global, exam: &Exam, sink: &mut K) -> Result<(), End>
    ensures sent { AfterSend (K.written sink.old) (K.written sink.new) (shown_text exam.now) result }
    ensures cause { IfErr result (λ end. OnWriteFault end (Rose (K.faults sink.old) (K.faults sink.new))) }
    ensures counted { K.faults sink.old ≤ K.faults sink.new }
{
    let mut out = Vec::new(alloc);
    let Ok(()) = put_exam(exam, &mut out) else {
        return Err(End::Memory);
    };
    send(out.as_slice(), sink)
}

/// Makes the answer of a line, and appends what is written for it; false where the line is outside the grammar. After
/// running out of memory nothing is known of the exam and of what was appended.
fn answer_line(exam: &mut Exam, line: &[u8], out: &mut Vec<u8>) -> Result<bool, NoMemory>
    ensures { IfOk result (λ good. IsLineAnswer (answer_line exam.old line.now) out.old.items exam.new out.new.items
        good) }
{
    let Some(line) = read_line(line) else {
        return Ok(false);
    };
    do_line(exam, line, out)?;
    Ok(true)
}

/// Does what a line asks for, and appends the text of the answer.
fn do_line(exam: &mut Exam, line: ExamLine, out: &mut Vec<u8>) -> Result<(), NoMemory>
    ensures after { OnOk result (exam.new ≡ (exam_done exam.old line).0) }
    ensures text { OnOk result (out.new.items ≡ out.old.items ++ (exam_done exam.old line).1) }
{
    let answer = match line {
        ExamLine::Forward(n) => exam.forward(n),
        ExamLine::Back(n) => exam.back(n),
        ExamLine::Revert => {
            exam.revert();
            Ok(())
        }
        ExamLine::Play(word) => exam.play(&word),
    };
    put_answer(exam, answer, out)
}

/// Appends the text of an answer: the lines that show where the exam is, or the refusal.
fn put_answer(exam: &Exam, answer: Result<(), Refusal>, out: &mut Vec<u8>) -> Result<(), NoMemory>
    ensures { OnOk result (out.new.items ≡ out.old.items ++ exam_told exam.now answer) }
{
    match answer {
        Ok(()) => put_exam(exam, out),
        Err(cause) => put_refusal(cause, out),
    }
}
