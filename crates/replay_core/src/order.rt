//! The order of a script's lines.

ghost use Rattle.std.specs.Prelude.{◌≡◌, ◌↔◌, ◌<◌, ◌≤◌, ◌++◌, ◌∷◌, [], ℕ, List, IsTrue, nat_lt, slice_index_or, if◌then◌else◌};
ghost use Rattle.replay_core.specs.declared.order.Presence.{Presence};
ghost use Rattle.replay_core.specs.Order.{is_connect};

use crate::script::{MOST_SESSIONS, ScriptEvent, ScriptLine};

/// Where a session stands.
#[derive(Clone, Copy)]
enum Presence {
    /// It hasn't connected.
    Away,
    /// It has connected, or was seated, and hasn't left.
    Here,
    /// Its link has ended, or its `quit` was answered.
    Gone,
}

/// How far a script has come: what its lines so far say of those that may still come.
#[derive(Clone, Copy)]
pub struct Attendance {
    moment: u64,
    presences: [Presence; MOST_SESSIONS],
}

impl Attendance {
    ghost use Rattle.replay_core.specs.Order.{Arrival, LineMayCome, is_here};
    ghost use Rattle.replay_core.specs.Attendance.{IsAfter};
    ghost use Rattle.replay_core.specs.Script.{IsScriptLine};

    /// No line has come yet; the sessions from 1 to `seats` are seated.
    pub fn new(seats: u32) -> Attendance
        requires { seats ≤ 64 }
        ensures { IsAfter result seats [] }
    {
        Attendance {
            moment: 0,
            presences: presences_at_start(seats as usize),
        }
    }

    /// Whether the line may come next.
    pub fn may_come(&self, line: &ScriptLine) -> bool
        requires { IsScriptLine line.now }
        ensures { (seats : ℕ) (lines : List Arrival) → IsAfter self.now seats lines
            → (IsTrue result ↔ LineMayCome seats lines line.now) }
    {
        if line.moment < self.moment {
            return false;
        }
        match self.presences[line.session as usize - 1] {
            Presence::Away => connects(&line.event),
            Presence::Here => !connects(&line.event),
            Presence::Gone => false,
        }
    }

    /// Notes that the line came, which may. `quit` says that it was a `quit` that was answered.
    pub fn note(&mut self, line: &ScriptLine, quit: bool)
        requires { IsScriptLine line.now }
        ensures { (seats : ℕ) (lines : List Arrival) → IsAfter self.old seats lines → LineMayCome seats lines line.now
            → IsAfter self.new seats (lines ++ record { line = line.now; quit = quit } ∷ []) }
    {
        let leaves = quit || matches!(line.event, ScriptEvent::Cut);
        self.moment = line.moment;
        self.presences[line.session as usize - 1] = if leaves {
            Presence::Gone
        } else {
            Presence::Here
        };
    }

    /// Whether the session has connected and hasn't left. Those that are here at the script's end leave then, in the
    /// order of their numbers.
    pub fn is_here(&self, session: u32) -> bool
        requires first { 1 ≤ session }
        requires last { session ≤ 64 }
        ensures { (seats : ℕ) (lines : List Arrival) → IsAfter self.now seats lines → result
            ≡ is_here seats lines session }
    {
        matches!(self.presences[session as usize - 1], Presence::Here)
    }
}

/// Where the sessions stand before the first line.
fn presences_at_start(seats: usize) -> [Presence; MOST_SESSIONS]
    requires { seats ≤ 64 }
    ensures { (place : ℕ) (d : Presence) → place < 64 → slice_index_or result place d
        ≡ (if nat_lt place seats then Presence.Here else Presence.Away) }
{
    let mut presences = [Presence::Away; MOST_SESSIONS];
    for place in 0..seats {
        presences[place] = Presence::Here;
    }
    presences
}

/// Whether a session connects by the event.
fn connects(event: &ScriptEvent) -> bool
    ensures { result ≡ is_connect event.now }
{
    matches!(event, ScriptEvent::Connect)
}
