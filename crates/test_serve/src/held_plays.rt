//! What is said while a worker is held with desk 1 in its hands, by whom, and what each is written last.

/// When the line that comes next is said.
#[derive(Clone, Copy, PartialEq, Eq)]
pub enum Then {
    /// Once this one is answered.
    Answered,
    /// Once the worker that answers this one is held.
    Held,
    /// Once this one is read.
    Read,
}

/// A line: the session that says it, what it says, and when the next one is said.
#[derive(Clone, Copy)]
pub struct Cue(pub u32, pub &'static [u8], pub Then);

/// The lines of an evening. One of them is held, and one that is read after it waits for the same desk; all others are
/// answered one after the other.
pub struct Play {
    /// The number of players, whose sessions are counted from 1.
    pub players: u32,
    pub cues: &'static [Cue],
    /// The number of the line whose worker is held.
    pub held: u64,
    /// What each player is written last.
    pub last: &'static [&'static [u8]],
}

impl Play {
    /// The number of its lines.
    pub fn lines(&self) -> u64 {
        self.cues.len() as u64
    }
}

/// The board as somebody sees it who looks on, and behind it the line of the seek, which waited.
const FAYS_LAST: &[u8] =
    b" Dan 0 2 12 39 39 120 120 1 P/d2-d4 (0:00) d4 0\n\rEve seeking 5 0 chess (\"play 1\" to respond)\n\rfics% ";

/// Two games begin, White moves in the first one and is held, Black has that board shown, or gives that game up or leaves
/// it, and White moves in the second one; then somebody seeks, and somebody looks on at the second game, which has the
/// number 3.
pub const PLAYS: &[Play] = &[
    // Black at desk 1 has the board shown behind White's move.
    Play {
        players: 4,
        cues: &[
            Cue(1, b"Ann\n", Then::Answered),
            Cue(2, b"Ben\n", Then::Answered),
            Cue(3, b"Cat\n", Then::Answered),
            Cue(4, b"Dan\n", Then::Answered),
            Cue(1, b"match Ben 2 12 white\n", Then::Answered),
            Cue(2, b"accept\n", Then::Answered),
            Cue(3, b"match Dan 2 12 white\n", Then::Answered),
            Cue(4, b"accept\n", Then::Answered),
            Cue(1, b"e2e4\n", Then::Held),
            Cue(2, b"refresh\n", Then::Read),
            Cue(3, b"d2d4\n", Then::Answered),
        ],
        held: 8,
        last: &[
            b" 1 P/e2-e4 (0:00) e4 0\n\rfics% ",
            b" 1 P/e2-e4 (0:00) e4 1\n\rfics% ",
            b" 1 P/d2-d4 (0:00) d4 0\n\rfics% ",
            b" 1 none (0:00) none 1\n\rfics% ",
        ],
    },
    // Black at desk 1 sees White's move before the end. White there sees the end too, or leaves before it; the players
    // at desk 2 see the move and the start.
    Play {
        players: 4,
        cues: &[
            Cue(1, b"Ann\n", Then::Answered),
            Cue(2, b"Ben\n", Then::Answered),
            Cue(3, b"Cat\n", Then::Answered),
            Cue(4, b"Dan\n", Then::Answered),
            Cue(1, b"match Ben 2 12 white\n", Then::Answered),
            Cue(2, b"accept\n", Then::Answered),
            Cue(3, b"match Dan 2 12 white\n", Then::Answered),
            Cue(4, b"accept\n", Then::Answered),
            Cue(1, b"e2e4\n", Then::Held),
            Cue(2, b"resign\n", Then::Read),
            Cue(3, b"d2d4\n", Then::Answered),
        ],
        held: 8,
        last: &[
            b"fics% ",
            b" 1 P/e2-e4 (0:00) e4 1\n\r{Game 1 (Ann vs. Ben) Ben resigns} 1-0\n\rfics% ",
            b" 1 P/d2-d4 (0:00) d4 0\n\rfics% ",
            b" 1 none (0:00) none 1\n\rfics% ",
        ],
    },
    // Ben's goodbye comes once he could leave the desk.
    Play {
        players: 6,
        cues: &[
            Cue(1, b"Ann\n", Then::Answered),
            Cue(2, b"Ben\n", Then::Answered),
            Cue(3, b"Cat\n", Then::Answered),
            Cue(4, b"Dan\n", Then::Answered),
            Cue(5, b"Eve\n", Then::Answered),
            Cue(6, b"Fay\n", Then::Answered),
            Cue(1, b"match Ben 2 12 white\n", Then::Answered),
            Cue(2, b"accept\n", Then::Answered),
            Cue(3, b"match Dan 2 12 white\n", Then::Answered),
            Cue(4, b"accept\n", Then::Answered),
            Cue(1, b"e2e4\n", Then::Held),
            Cue(2, b"quit\n", Then::Read),
            Cue(3, b"d2d4\n", Then::Answered),
            Cue(5, b"seek\n", Then::Answered),
            Cue(6, b"observe 3\n", Then::Answered),
        ],
        held: 10,
        last: &[
            b"fics% ",
            b"fics% Goodbye.\n\r",
            b" 1 P/d2-d4 (0:00) d4 0\n\rfics% ",
            b" 1 none (0:00) none 1\n\rfics% ",
            b"fics% Your seek is 1.\n\rfics% ",
            FAYS_LAST,
        ],
    },
];
