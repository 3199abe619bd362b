//! The command `tourney`: a tourney answers the lines of the input.

ghost use Rattle.std.specs.Prelude.{◌≡◌, ◌++◌, IfOk, OnOk};
ghost use Rattle.std.specs.List.{flat_map};
ghost use Rattle.edge_traits.specs.Faults.{Rose};
ghost use Rattle.fics_words.specs.Effect.{answer_of, state_of};
ghost use Rattle.fics_words.specs.Handle.{key_of};
ghost use Rattle.cmd_lines.specs.Ends.{OnReadFault, OnWriteFault};
ghost use Rattle.cmd_lines.specs.LineCommand.{IsLineAnswer};
ghost use Rattle.tourney_desk.specs.Tourney.{joining_tourney, pairs_told, reporting, starting_tourney, table_told};
ghost use Rattle.cmd_tourney.specs.Texts.{answer_line, told_text, line_done, done_text, pair_text, rounds_text, rows_text};
ghost use Rattle.cmd_tourney.specs.TourneyEnds.{TourneyEnds};

use crate::line::TourneyLine;
use crate::reading::read_line;
use crate::texts::{LINE_END, put_done, put_pairs, put_rounds, put_rows};
use cmd_lines::{End, LineAnswerer, answer_each, put_refusal};
use edge_traits::{Sink, Source};
use fics_words::{Fail, Handle};
use memory::NoMemory;
use std::alloc::Global;
use std::marker::Model;
use tourney_desk::{Score, Tourney};

/// The tourney of the lines that came, which contracts see as that tourney.
#[derive(Drop)]
struct TourneyEvening {
    tourney: Tourney,
}

impl Model for TourneyEvening {
    ghost use Rattle.tourney_desk.specs.Tourney.{TourneyState};

    ghost Value = { TourneyState };

    ghost view = { λ evening. evening.tourney };
}

impl LineAnswerer for TourneyEvening {
    ghost use Rattle.cmd_tourney.specs.Texts.{tourney_lines};

    ghost command = { tourney_lines };

    fn answer_line(&mut self, line: &[u8], out: &mut Vec<u8>) -> Result<bool, NoMemory> {
        answer_line(&mut self.tourney, line, out)
    }

    fn ending(&self) -> &'static [u8] {
        LINE_END
    }
}

/// Reads the source to its end, and writes what its lines give: one write a read.
pub fn tourney<S: Source, K: Sink>(alloc: Global, source: &mut S, sink: &mut K) -> End
    ensures ends { TourneyEnds (S.left source.old) (S.left source.new)
        (K.written sink.old) (K.written sink.new) result }
    ensures read_cause { OnReadFault result (Rose (S.faults source.old) (S.faults source.new)) }
    ensures write_cause { OnWriteFault result (Rose (K.faults sink.old) (K.faults sink.new)) }
{
    let evening = TourneyEvening {
        tourney: Tourney::new(alloc),
    };
    answer_each(alloc, evening, source, sink)
}

/// Makes the answer of a line, and appends what is written for it; false where the line is outside the grammar. After
/// running out of memory nothing is known of the tourney and of what was appended.
fn answer_line(tourney: &mut Tourney, line: &[u8], out: &mut Vec<u8>) -> Result<bool, NoMemory>
    ensures { IfOk result (λ good. IsLineAnswer (answer_line tourney.old line.now) out.old.items tourney.new
        out.new.items good) }
{
    let Some(line) = read_line(line) else {
        return Ok(false);
    };
    do_line(tourney, line, out)?;
    Ok(true)
}

/// Does what a line asks for, and appends the text of the answer.
fn do_line(tourney: &mut Tourney, line: TourneyLine, out: &mut Vec<u8>) -> Result<(), NoMemory>
    ensures after { OnOk result (tourney.new ≡ (line_done tourney.old line).0) }
    ensures text { OnOk result (out.new.items ≡ out.old.items ++ (line_done tourney.old line).1) }
{
    match line {
        TourneyLine::Join(name) => do_join(tourney, name, out),
        TourneyLine::Start => do_start(tourney, out),
        TourneyLine::Round(round) => tell_pairs(tourney, round, out),
        TourneyLine::Report(white, black, score) => do_report(tourney, white, black, score, out),
        TourneyLine::Table => tell_table(tourney, out),
    }
}

/// A player joins.
fn do_join(tourney: &mut Tourney, name: Handle, out: &mut Vec<u8>) -> Result<(), NoMemory>
    ensures after { OnOk result (tourney.new ≡ state_of tourney.old (joining_tourney tourney.old name)) }
    ensures text { OnOk result (out.new.items ≡ out.old.items
        ++ told_text done_text (answer_of (joining_tourney tourney.old name))) }
{
    match tourney.join(name) {
        Ok(()) => put_done(out),
        Err(Fail::Refused(cause)) => put_refusal(cause, out),
        Err(Fail::Memory) => Err(NoMemory),
    }
}

/// The tourney starts.
fn do_start(tourney: &mut Tourney, out: &mut Vec<u8>) -> Result<(), NoMemory>
    ensures after { OnOk result (tourney.new ≡ state_of tourney.old (starting_tourney tourney.old)) }
    ensures text { OnOk result (out.new.items ≡ out.old.items
        ++ told_text rounds_text (answer_of (starting_tourney tourney.old))) }
{
    match tourney.start() {
        Ok(rounds) => put_rounds(rounds, out),
        Err(Fail::Refused(cause)) => put_refusal(cause, out),
        Err(Fail::Memory) => Err(NoMemory),
    }
}

/// A result is reported.
fn do_report(
    tourney: &mut Tourney,
    white: Handle,
    black: Handle,
    score: Score,
    out: &mut Vec<u8>,
) -> Result<(), NoMemory>
    ensures after { OnOk result (tourney.new
        ≡ state_of tourney.old (reporting tourney.old (key_of white) (key_of black) score)) }
    ensures text { OnOk result (out.new.items ≡ out.old.items
        ++ told_text done_text (answer_of (reporting tourney.old (key_of white) (key_of black) score))) }
{
    match tourney.report(white.key(), black.key(), score) {
        Ok(()) => put_done(out),
        Err(cause) => put_refusal(cause, out),
    }
}

/// Tells the pairs of a round.
fn tell_pairs(tourney: &Tourney, round: u8, out: &mut Vec<u8>) -> Result<(), NoMemory>
    ensures { OnOk result (out.new.items ≡ out.old.items
        ++ told_text (flat_map (pair_text tourney.now.players)) (pairs_told tourney.now round)) }
{
    match tourney.pairs(round) {
        Ok(pairs) => put_pairs(tourney, pairs.as_slice(), out),
        Err(Fail::Refused(cause)) => put_refusal(cause, out),
        Err(Fail::Memory) => Err(NoMemory),
    }
}

/// Tells the table.
fn tell_table(tourney: &Tourney, out: &mut Vec<u8>) -> Result<(), NoMemory>
    ensures { OnOk result (out.new.items ≡ out.old.items
        ++ told_text (rows_text tourney.now.players 1) (table_told tourney.now)) }
{
    match tourney.table() {
        Ok(rows) => put_rows(tourney, rows.as_slice(), out),
        Err(Fail::Refused(cause)) => put_refusal(cause, out),
        Err(Fail::Memory) => Err(NoMemory),
    }
}
