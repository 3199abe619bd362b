//! Laws of lines, in the subject's own words.

ghost use Rattle.std.specs.Prelude.{◌≡◌, List, ℕ};
ghost use Rattle.fics_words.specs.Pieces.{pieces};
ghost use Rattle.cmd_lines.specs.Lines.{AreParts};

/// The pieces of a text are its parts between line feeds, and no other list is.
pub fn lines()
    ensures parts { (text : List ℕ) → AreParts text (pieces text) }
    ensures only { (text : List ℕ) (parts : List (List ℕ)) → AreParts text parts → parts ≡ pieces text }
{}
