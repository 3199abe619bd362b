//! What the definitions mean for a client's author.
ghost use Rattle.std.specs.Prelude.{◌≡◌, ℕ, List, Option};
ghost use Rattle.line_reader.specs.declared.incoming.Incoming.{Incoming};
ghost use Rattle.line_reader.specs.Grammar.{AreLines};
ghost use Rattle.line_reader.specs.Reader.{fresh, lines_to_come, rest_to_come};

/// Each text has exactly one list of lines and one rest by the grammar of its units, and a fresh reader gives them.
pub fn one_list_of_lines()
    ensures given { (text : List ℕ) → AreLines text (lines_to_come fresh text) (rest_to_come fresh text) }
    ensures only { (text : List ℕ) (lines : List Incoming) (rest : Option Incoming) → AreLines text lines rest
        → (lines ≡ lines_to_come fresh text) × (rest ≡ rest_to_come fresh text) }
{}
