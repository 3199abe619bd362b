//! A demo, step by step.

ghost use Rattle.std.specs.Prelude.{◌≡◌, IfOk, replicate};
ghost use Rattle.clock_ledger.specs.Charges.{last_moment};
ghost use Rattle.session_core.specs.Memory.{newcomer};
ghost use Rattle.cmd_demo.specs.Demo.{start};

use crate::said::{plain, said_by};
use crate::wish::wish_of;
use cmd_replay::do_event;
use collections::Listed;
use lobby_state::Lobby;
use memory::NoMemory;
use one_server::OneServer;
use replay_core::{Draws, ScriptEvent, ScriptLine};
use session_core::Session;
use std::alloc::Global;
use std::marker::Model;

/// The sessions of a demo.
pub(crate) const SESSIONS: u32 = 40;

/// How often a session is drawn.
const TURNS: u64 = 4_000;

/// A turn comes less than so many milliseconds after the one before.
const WAIT: u64 = 2_000;

/// The numbers of wishes are below this.
const WISHES: u64 = 32;

/// One server, its sessions, the draws, and the moment in milliseconds. Contracts see the server, what the sessions
/// remember, the number at which the draws stand, and the moment.
#[derive(Drop)]
pub struct Demo {
    alloc: Global,
    server: OneServer,
    /// The sessions from 1 on.
    sessions: Listed<Session>,
    draws: Draws,
    moment: u64,
}

impl Model for Demo {
    ghost use Rattle.std.specs.Prelude.{◌≡◌, length};
    ghost use Rattle.cmd_demo.specs.Demo.{DemoState};

    ghost Value = { DemoState };

    ghost view = { λ demo. record {
      server = demo.server;
      memories = demo.sessions;
      number = demo.draws;
      moment = demo.moment;
    } };

    ghost invariant = { λ demo. length demo.sessions ≡ 40 };
}

impl Demo {
    ghost use Rattle.std.specs.Prelude.{◌≡◌, ◌+◌, ◌≤◌, ◌∷◌, [], IfOk, OnOk};
    ghost use Rattle.replay_core.specs.Script.{IsScriptEvent};
    ghost use Rattle.replay_core.specs.declared.script.ScriptEvent.TheVariants.{Plain};
    ghost use Rattle.cmd_demo.specs.Demo.{Comes, Connects, Enters, Go, StepGoes, Turns};
    ghost use Rattle.cmd_demo.specs.Demo.{demo_steps, all_entering, quitting, start, turns_of};
    ghost use Rattle.cmd_demo.specs.Said.{AreWords};

    /// A demo of the number, before its first step.
    #[tactic(auto, using(one_server::proofs::Opens::opening_is))]
    pub(crate) fn new(alloc: Global, number: u64) -> Result<Demo, NoMemory>
        ensures { IfOk result (λ demo. demo ≡ start number) }
    {
        Ok(Demo {
            alloc,
            sessions: new_sessions(alloc)?,
            server: OneServer::new(alloc, Lobby::new(alloc)?)?,
            draws: Draws::new(number),
            moment: 0,
        })
    }

    /// The server.
    pub(crate) fn server(&self) -> &OneServer
        ensures { result.now ≡ self.now.server }
    {
        &self.server
    }

    /// Goes through all steps.
    pub(crate) fn go(&mut self) -> Result<(), NoMemory>
        requires { self.old.moment ≡ 0 }
        ensures { OnOk result (Go demo_steps self.old self.new) }
    {
        self.all_enter()?;
        self.all_turns()?;
        self.all_quit()
    }

    /// All sessions connect and enter.
    fn all_enter(&mut self) -> Result<(), NoMemory>
        requires { self.old.moment ≡ 0 }
        ensures gone { OnOk result (Go (all_entering 40) self.old self.new) }
        ensures moment { OnOk result (self.new.moment ≡ 0) }
    {
        for place in 0..SESSIONS {
            self.enter(place + 1)?;
        }
        Ok(())
    }

    /// A session connects and enters as a guest.
    fn enter(&mut self, session: u32) -> Result<(), NoMemory>
        requires first { 1 ≤ session }
        requires last { session ≤ 40 }
        requires moment { self.old.moment ≤ last_moment }
        ensures gone { OnOk result (Go (Connects session ∷ Enters session ∷ []) self.old self.new) }
        ensures moment { OnOk result (self.new.moment ≡ self.old.moment) }
    {
        self.take(session, ScriptEvent::Connect)?;
        self.say(session, b"guest")
    }

    /// All turns come.
    fn all_turns(&mut self) -> Result<(), NoMemory>
        requires { self.old.moment ≡ 0 }
        ensures gone { OnOk result (Go (turns_of 4000) self.old self.new) }
        ensures moment { OnOk result (self.new.moment ≤ 8000000) }
    {
        for _turn in 0..TURNS {
            self.turn()?;
        }
        Ok(())
    }

    /// A session is drawn, and what comes from it.
    fn turn(&mut self) -> Result<(), NoMemory>
        requires { self.old.moment ≤ 8000000 }
        ensures gone { OnOk result (StepGoes Turns self.old self.new) }
        ensures moment { OnOk result (self.new.moment ≤ self.old.moment + 2000) }
    {
        self.moment += self.draws.draw(WAIT);
        let session = 1 + self.draws.draw(u64::from(SESSIONS)) as u32;
        let wish = wish_of(self.draws.draw(WISHES));
        let event = said_by(self.alloc, wish, session, &self.server, &mut self.draws)?;
        self.take(session, event)
    }

    /// All sessions quit.
    fn all_quit(&mut self) -> Result<(), NoMemory>
        requires { self.old.moment ≤ 8000000 }
        ensures { OnOk result (Go (quitting 40) self.old self.new) }
    {
        for place in 0..SESSIONS {
            self.say(place + 1, b"quit")?;
        }
        Ok(())
    }

    /// A session says these words.
    fn say(&mut self, session: u32, words: &[u8]) -> Result<(), NoMemory>
        requires words { AreWords words.now }
        requires first { 1 ≤ session }
        requires last { session ≤ 40 }
        requires moment { self.old.moment ≤ last_moment }
        ensures { OnOk result (Comes session (Plain words.now) self.old self.new) }
    {
        let event = plain(self.alloc, words)?;
        self.take(session, event)
    }

    /// Lets a session take an event, now.
    fn take(&mut self, session: u32, event: ScriptEvent) -> Result<(), NoMemory>
        requires first { 1 ≤ session }
        requires last { session ≤ 40 }
        requires moment { self.old.moment ≤ last_moment }
        requires fits { IsScriptEvent event }
        ensures { OnOk result (Comes session event self.old self.new) }
    {
        let line = ScriptLine {
            moment: self.moment,
            session,
            event,
        };
        let own = self.sessions.item_mut(session as usize - 1);
        let _wrote = do_event(self.alloc, &mut self.server, &line, own)?;
        let _history = self.server.history();
        Ok(())
    }
}

/// The sessions from 1 on, all of them new.
fn new_sessions(alloc: Global) -> Result<Listed<Session>, NoMemory>
    ensures { IfOk result (λ sessions. sessions ≡ replicate 40 newcomer) }
{
    let mut sessions = Listed::new(alloc);
    for _place in 0..SESSIONS {
        sessions.push(Session::new(alloc))?;
    }
    Ok(sessions)
}
