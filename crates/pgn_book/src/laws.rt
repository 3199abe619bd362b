//! Laws of the grammar and of the export form.
ghost use Rattle.pgn_book.specs.Examples.{ExportExamples, TextExamples};
ghost use Rattle.pgn_book.specs.Games.{OneReading};
ghost use Rattle.pgn_book.specs.BadLines.{OneLine};
ghost use Rattle.pgn_book.specs.Runs.{RunsReadTheText, WholeGamesAreTold};
ghost use Rattle.pgn_book.specs.Laws.{ExportsReadBack, LinesFit, ReaderReads, ReadsExportable, ReadsInPieces};

/// The grammar reads at most one list of games in a text.
pub fn texts_have_one_reading()
    ensures { OneReading }
{}

/// The grammar reads in the export of a game exactly that game.
#[tactic(auto, using(crate::proofs::ExportRead::exports_read_back))]
pub fn exports_read_back()
    ensures { ExportsReadBack }
{}

/// No line of the movetext of an export is longer than 79 bytes.
#[tactic(auto, using(crate::proofs::LinesFit::lines_fit))]
pub fn exported_lines_fit()
    ensures { LinesFit }
{}

/// Reading from left to right, a byte at a time, finds whole games exactly in the texts that the grammar reads.
#[tactic(auto, using(crate::proofs::GamesFound::reader_reads))]
pub fn texts_are_read_from_left_to_right()
    ensures { ReaderReads }
{}

/// A text is read alike however it is cut, and what begins with bytes behind which no reading goes on isn't read.
#[tactic(auto, using(crate::proofs::Cuts::reads_in_pieces))]
pub fn texts_are_read_in_pieces()
    ensures { ReadsInPieces }
{}

/// However a text is cut and games are asked for, a reader gives exactly the games that the grammar reads in it, or the
/// line on which it leaves the grammar.
#[tactic(auto, using(crate::proofs::WholeRuns::runs_read, crate::proofs::LinesLeft::one_line))]
pub fn runs_read_the_text()
    ensures runs { RunsReadTheText }
    ensures one_line { OneLine }
{}

/// The games that are told of a text, read or not, are those that are whole in it.
#[tactic(auto, using(crate::proofs::WholeGames::whole_told))]
pub fn whole_games_are_told()
    ensures { WholeGamesAreTold }
{}

/// Each game that the grammar reads may be exported.
pub fn games_that_are_read_can_be_exported()
    ensures { ReadsExportable }
{}

/// What is read in small texts.
pub fn worked_texts()
    ensures { TextExamples }
{}

/// What is written of small games.
pub fn worked_exports()
    ensures { ExportExamples }
{}
