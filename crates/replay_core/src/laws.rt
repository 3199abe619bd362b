//! What holds of the grammar as a whole.

ghost use Rattle.std.specs.Prelude.{◌≡◌, ◌≢◌, ◌↔◌, ◌++◌, ◌∷◌, [], ℕ, List};
ghost use Rattle.replay_core.specs.Order.{Arrival, IsInOrder, KeepOrder, LineMayCome};
ghost use Rattle.replay_core.specs.Script.{IsScriptLine, script_text};
ghost use Rattle.replay_core.specs.SeatLine.{IsSeatLine, seat_text};
ghost use Rattle.replay_core.specs.declared.script.ScriptLine.{ScriptLine};
ghost use Rattle.replay_core.specs.declared.seat_line.SeatLine.{SeatLine};

/// No line has two readings: two values that are written alike are one value, and no seat line is written like a line
/// of a session.
pub fn one_reading()
    ensures sessions { (one other : ScriptLine) → IsScriptLine one → IsScriptLine other → script_text one
        ≡ script_text other → one ≡ other }
    ensures seats { (one other : SeatLine) → IsSeatLine one → IsSeatLine other → seat_text one ≡ seat_text other → one
        ≡ other }
    ensures apart { (seat : SeatLine) (line : ScriptLine) → IsSeatLine seat → IsScriptLine line
        → seat_text seat ≢ script_text line }
{}

/// What the order of a script's lines says of any two of them, the later one with all that comes before it: moments
/// don't fall, and nothing comes from a session that has left, nor does it connect again.
#[tactic(auto, using(crate::proofs::Orders::order_of_two))]
pub fn order_of_two()
    ensures { (seats : ℕ) (before between after : List Arrival) (one other : Arrival) →
        IsInOrder seats (before ++ one ∷ (between ++ other ∷ after)) → KeepOrder one other }
{}

/// A script's lines stand in order where each of them may come after those before it.
#[tactic(auto, using(crate::proofs::Orders::order_by_steps))]
pub fn order_by_steps()
    ensures { (seats : ℕ) (lines : List Arrival) (next : Arrival) →
        IsInOrder seats (lines ++ next ∷ []) ↔ (IsInOrder seats lines × LineMayCome seats lines next.line) }
{}
