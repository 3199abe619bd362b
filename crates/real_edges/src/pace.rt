//! How long a connection's reads wait for bytes.

/// How soon a player wants to hear of what others do.
#[derive(Clone, Copy, PartialEq, Eq)]
enum Haste {
    /// They have typed just now, so they may await another's answer, as after a move.
    Awaiting,
    /// They were told of something just now, so it may be for them to act.
    Told,
    /// Neither for a while.
    Idle,
}

impl Haste {
    ghost use Rattle.std.specs.Prelude.{◌≤◌};

    /// How long a read waits, in milliseconds.
    fn millis(self) -> u64
        ensures { (10 ≤ result) × (result ≤ 100) }
    {
        match self {
            Haste::Awaiting => 10,
            Haste::Told => 50,
            Haste::Idle => 100,
        }
    }
}

/// How many pauses it takes until a player counts as idle: of those who await something, some ten seconds.
const PAUSES_TO_IDLE: u16 = 1_000;

/// The pause of a connection: 10 ms behind bytes that came, 50 ms behind bytes that were written in a pause, and
/// 100 ms, the longest, from the thousandth pause on.
#[derive(Clone, Copy)]
pub(crate) struct Pace {
    haste: Haste,
    /// How many pauses came behind the last bytes, up to `PAUSES_TO_IDLE`.
    pauses: u16,
}

impl Pace {
    ghost use Rattle.std.specs.Prelude.{◌≤◌};

    /// The pace of a connection over which nothing came.
    pub(crate) fn new() -> Pace {
        Pace {
            haste: Haste::Idle,
            pauses: PAUSES_TO_IDLE,
        }
    }

    /// How long a read waits, in milliseconds: 10 to 100.
    pub(crate) fn millis(self) -> u64
        ensures { (10 ≤ result) × (result ≤ 100) }
    {
        self.haste.millis()
    }

    /// The pace behind bytes that came.
    pub(crate) fn heard(self) -> Pace {
        Pace {
            haste: Haste::Awaiting,
            pauses: 0,
        }
    }

    /// The pace behind a pause in which nothing came.
    pub(crate) fn paused(self) -> Pace {
        let pauses = self.pauses.saturating_add(1);
        if pauses < PAUSES_TO_IDLE {
            return Pace {
                haste: self.haste,
                pauses,
            };
        }
        Pace::new()
    }

    /// The pace behind bytes that were written: where nothing was heard since the last pause, they tell of others.
    pub(crate) fn told(self) -> Pace {
        if self.pauses == 0 {
            return self;
        }
        Pace {
            haste: Haste::Told,
            pauses: 1,
        }
    }
}
