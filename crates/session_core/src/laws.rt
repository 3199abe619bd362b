//! What a course says, as laws: calls that do nothing. They tell what the definition means, and tie nothing to the
//! program; that the program follows it is what `take` and `leave` ensure.
ghost use Rattle.std.specs.Prelude.{◌≡◌, true, false, ◌++◌, ◌∷◌, ℕ, List, None, Some};
ghost use Rattle.histories.specs.declared.entry.Entry.{Entry};
ghost use Rattle.one_server.specs.declared.act.Timed.{Timed};
ghost use Rattle.one_server.specs.declared.reply.Reply.{Reply};
ghost use Rattle.one_server.specs.Running.{Log};
ghost use Rattle.session_core.specs.Course.{Course, Follows, memory_by, next_act, replies_of, text_by};
ghost use Rattle.session_core.specs.declared.input.Input.{Input};
ghost use Rattle.session_core.specs.Inputs.{asks_to_quit, input_course};
ghost use Rattle.session_core.specs.Laws.{EndsWithRound, IsOfLogin, TurnsBehind, is_silent};
ghost use Rattle.session_core.specs.Memory.{MemoryState, has_entered, is_gone};

/// Who follows a course makes, after each reply, the act that the replies so far name, at the course's moment and under
/// its own number, until they name none; the text is the one that the replies say, and so is what is remembered.
pub fn courses()
    ensures acts { (course : Course) (session moment : ℕ) (before : Log) (e : Entry Timed Reply) (later : Log)
        (text : List ℕ) (memory : MemoryState)
        → Follows course session moment (before ++ e ∷ later) text memory
        → (e.session ≡ session) × (e.act.moment ≡ moment) × (next_act course (replies_of before) ≡ Some e.act.act) }
    ensures end { (course : Course) (session moment : ℕ) (made : Log) (text : List ℕ) (memory : MemoryState)
        → Follows course session moment made text memory → next_act course (replies_of made) ≡ None }
    ensures text { (course : Course) (session moment : ℕ) (made : Log) (text : List ℕ) (memory : MemoryState)
        → Follows course session moment made text memory → text ≡ text_by course (replies_of made) }
    ensures memory { (course : Course) (session moment : ℕ) (made : Log) (text : List ℕ) (memory : MemoryState)
        → Follows course session moment made text memory → memory_by course (replies_of made) ≡ Some memory }
{}

/// A session that has entered, or comes in, leaves by an input only where that asks to quit.
#[tactic(auto, using(crate::proofs::Quitting::only_quit))]
pub fn only_quit_leaves()
    ensures { (input : Input) (before after : MemoryState) (session moment : ℕ) (made : Log) (text : List ℕ)
        → Follows (input_course input before) session moment made text after → is_gone before ≡ false
        → is_gone after ≡ true → asks_to_quit input before ≡ true }
{}

/// Every input of a session that has entered, but one to which nothing is answered and one that asks to quit, ends with
/// the round.
#[tactic(auto, using(crate::proofs::Endings::input_ends))]
pub fn inputs_end_with_the_round()
    ensures { (input : Input) (before after : MemoryState) (session moment : ℕ) (made : Log) (text : List ℕ)
        → Follows (input_course input before) session moment made text after → has_entered before ≡ true
        → is_silent input before ≡ false → asks_to_quit input before ≡ false → EndsWithRound before made }
{}

/// A line of the login makes at most one act, and that asks to come in.
#[tactic(auto, using(crate::proofs::Turning::input_of_login))]
pub fn the_login_makes_one_act()
    ensures { (input : Input) (before after : MemoryState) (session moment : ℕ) (made : Log) (text : List ℕ)
        → Follows (input_course input before) session moment made text after → has_entered before ≡ false
        → IsOfLogin made }
{}

/// Behind each half-move that is accepted of who gives a simul stands that to its next place.
#[tactic(auto, using(crate::proofs::Turning::input_turns))]
pub fn givers_turn_behind_half_moves()
    ensures { (input : Input) (before after : MemoryState) (session moment : ℕ) (made : Log) (text : List ℕ)
        → Follows (input_course input before) session moment made text after → TurnsBehind before made }
{}
