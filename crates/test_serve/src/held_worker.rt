//! A worker that is held with a desk in its hands: who needs that desk waits, and who doesn't is answered.

ghost use Rattle.std.specs.Prelude.{None};

use crate::held_plays::{PLAYS, Play};
use crate::held_stage::{Player, Seen, Stage};
use crate::words::words_of;
use edge_traits::{Came, Doorway, StillClock};
use memory_edges::{MemKeeper, MemSink};
use serve_call::serve;
use std::alloc::{AllocError, Global};
use std::sync::Wait;
use std::test::Fail;
use std::thread::Threads;
use test_steps::assert_rows;

/// A door that gives a link for each player of the play, watches what they say, and is then closed. It gives no Quiet,
/// so the steward makes no act before it is closed.
#[derive(Drop)]
struct Watching<'a> {
    alloc: Global,
    stage: &'a Stage,
    came: u32,
    seen: Option<Seen>,
    /// What each of them was written, once it came back.
    heard: [Option<Vec<u8>>; 6],
}

impl<'a> Doorway for Watching<'a> {
    ghost use Rattle.std.specs.Prelude.{None};

    type Link = Player<'a>;

    ghost tale = { λ _. None };

    ghost faults = { λ _. 0 };

    fn next(&mut self) -> Came<Player<'a>> {
        if self.came < self.stage.play.players {
            self.came += 1;
            return Came::Link(Player::new(self.stage, self.came, self.alloc));
        }
        self.seen = Some(self.stage.watch());
        Came::Closed
    }

    fn back(&mut self, number: u64, link: Player<'a>) {
        let Player { heard, .. } = link;
        for (place, kept) in self.heard.iter_mut().enumerate() {
            if number == place as u64 + 1 {
                *kept = Some(heard);
                return;
            }
        }
    }
}

/// Serves the players of this stage. Gives the status, and the door.
fn held<'a, T: Threads + Wait + Sync>(
    rt: &T,
    alloc: Global,
    stage: &'a Stage,
) -> Result<(u8, Watching<'a>), AllocError> {
    let mut door = Watching {
        alloc,
        stage,
        came: 0,
        seen: None,
        heard: [None, None, None, None, None, None],
    };
    let words = words_of(alloc, &["serve", "--port", "5000"])?;
    let clock = StillClock::new(0);
    let mut keeper = MemKeeper::new(alloc, Vec::new(alloc));
    let mut sink = MemSink::new(alloc, Vec::new(alloc));
    let (status, _hall) = serve(
        rt,
        alloc,
        words.as_slice(),
        &mut door,
        &clock,
        &mut keeper,
        &mut sink,
        stage,
    );
    Ok((status, door))
}

/// What has to be seen of a play: all but two of its lines, which need the held desk, are answered while the worker is
/// held, and those are answered afterwards.
fn expected(play: &Play) -> Seen {
    Seen {
        moved: true,
        held: play.lines().saturating_sub(2),
        whole: play.lines(),
        steward: 0,
    }
}

/// Whether each of the players was written this last.
fn are_heard(heard: &[Option<Vec<u8>>; 6], play: &Play) -> bool {
    for (bytes, end) in heard.iter().zip(play.last) {
        let Some(bytes) = bytes else {
            return false;
        };
        if !bytes.as_slice().ends_with(end) {
            return false;
        }
    }
    play.last.len() == play.players as usize
}

/// Whether a play is served as it has to be.
fn is_served<T: Threads + Wait + Sync>(
    rt: &T,
    alloc: Global,
    play: &'static Play,
) -> Result<bool, AllocError> {
    let stage = Stage::new(play);
    let (status, door) = held(rt, alloc, &stage)?;
    Ok(status == 0 && door.seen == Some(expected(play)) && are_heard(&door.heard, play))
}

/// While a worker is held in White's move at desk 1, the move at desk 2, a seek and somebody who looks on there are
/// answered, and neither White's move nor what Black does at desk 1 is: to have the board shown, to give up or to leave;
/// once the gate is open, both are.
#[test]
fn a_desk_is_waited_for_by_itself(rt: HostRuntime) -> Result<(), Fail> {
    assert_rows!(rt; PLAYS, |play| is_served(&rt, rt.alloc(), play)?);
    Ok(())
}
