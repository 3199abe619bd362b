//! Laws of evenings, in words that a reader needs no proof for.

ghost use Rattle.std.specs.Prelude.{◌≡◌, ℕ, List, map};
ghost use Rattle.cmd_replay.specs.Examples.{EveningExamples};
ghost use Rattle.cmd_lines.specs.Handling.{AreLinesOfRun};
ghost use Rattle.cmd_replay.specs.Evening.{LeaveInOrder, Reached, Row, IsEvening, line_of, history_of, opening_parts, parts_after, remembered};
ghost use Rattle.histories.specs.History.{Legal};
ghost use Rattle.one_server.specs.House.{house};
ghost use Rattle.one_server.specs.Running.{Log};

/// The lines of an evening fix all that it makes and writes, and what is made when it closes; its history is legal.
pub fn one_evening()
    ensures same { (rows other : List Row) → IsEvening rows → IsEvening other → map line_of rows ≡ map line_of other
        → rows ≡ other }
    ensures leaving { (rows : List Row) (moment : ℕ) (sessions : List ℕ) (made other : Log)
        → LeaveInOrder (remembered rows) moment sessions made → LeaveInOrder (remembered rows) moment sessions other
        → Legal house (parts_after rows) made → Legal house (parts_after rows) other → made ≡ other }
    ensures legal { (rows : List Row) → IsEvening rows → Legal house opening_parts (history_of rows) }
{}

/// The lines of an evening: an empty line changes nothing, and a prefix of an evening is an evening.
#[tactic(auto, using(crate::specs::EveningLinesProof::reached_lines))]
pub fn lines_of_evenings()
    ensures { AreLinesOfRun Reached }
{}

/// What the definitions of an evening give in a few cases.
pub fn evening_examples()
    ensures { EveningExamples }
{}
