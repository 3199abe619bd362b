//! A session from its opening to its end.
ghost use Rattle.std.specs.Prelude.{◌≡◌};

use crate::framing::{framed, framing_of};
use crate::input::{Input, Wrote};
use crate::leaving::leave;
use crate::session_memory::SessionMemory;
use crate::taking::take;
use clock_ledger::Moment;
use fics_words::Handle;
use memory::NoMemory;
use one_server::Runner;
use session_asks::Standing;
use std::alloc::Global;
use std::marker::Model;

/// What a connection opens with.
const OPENING: &[u8] = b"Free Internet Chess Server profile\n\rlogin: ";

/// A session: one connection, from its opening to its end. Contracts see what it remembers.
#[derive(Drop)]
pub struct Session {
    alloc: Global,
    memory: SessionMemory,
}

impl Model for Session {
    ghost use Rattle.session_core.specs.Memory.{MemoryState};

    ghost Value = { MemoryState };

    ghost view = { λ session. session.memory };
}

impl Session {
    ghost use Rattle.std.specs.Prelude.{◌≡◌, [], false, IfOk, OnOk, OnErr};
    ghost use Rattle.session_core.specs.Going.{Answered, Broke, Left, LeftInPart, departing};
    ghost use Rattle.session_core.specs.Inputs.{FitsInput, text_for_input, input_course};
    ghost use Rattle.session_core.specs.Memory.{has_entered, is_gone, newcomer, seated_memory};
    ghost use Rattle.session_core.specs.Texts.{opening_text};

    /// A session before its opening. Takes no memory.
    pub fn new(alloc: Global) -> Session
        ensures { result ≡ newcomer }
    {
        Session {
            alloc,
            memory: SessionMemory::new(alloc),
        }
    }

    /// A session that has entered under this name, and was told nothing yet. Takes no memory.
    pub fn seated(alloc: Global, name: Handle) -> Session
        ensures { result ≡ seated_memory name }
    {
        Session {
            alloc,
            memory: SessionMemory::seated(alloc, name),
        }
    }

    /// What the connection opens with: the name of the server, and the prompt for a name.
    pub fn open(&self) -> Result<Vec<u8>, NoMemory>
        ensures { IfOk result (λ bytes. bytes.items ≡ opening_text) }
    {
        let bytes = Vec::from_slice(self.alloc, OPENING)?;
        Ok(bytes)
    }

    /// Makes the acts of the session's course for this input, all at `moment`, in milliseconds and at most 2^48, and
    /// gives what it writes: to a line the answer and the prompt of where the session then stands; to a Quiet what is
    /// new, if anything is. A line that asks to quit makes the acts of leaving. After running out of memory the acts
    /// that were answered stay made, and the session can only leave: they are the first ones of the course, and the
    /// session remembers what they have told; or they are those of leaving but for some that ran out of memory.
    pub fn take<R: Runner>(
        &mut self,
        r: &mut R,
        moment: Moment,
        input: Input,
    ) -> Result<Wrote, NoMemory>
        requires fits { FitsInput input }
        ensures home { R.home r.new ≡ R.home r.old }
        ensures answered { IfOk result (λ wrote. Answered (input_course input self.old)
            (text_for_input input self.old self.new) moment (R.state r.old) []
            (R.state r.new) wrote.bytes.items self.new) }
        ensures quit { IfOk result (λ wrote. wrote.quit ≡ is_gone self.new) }
        ensures broke { OnErr result (Broke (input_course input self.old) moment (R.state r.old) self.old
            (R.state r.new) self.new) }
    {
        let mut bytes = Vec::new(self.alloc);
        let framing = framing_of(&input, &self.memory);
        take(self.alloc, r, moment, &mut self.memory, input, &mut bytes)?;
        let bytes = framed(self.alloc, framing, self.memory.standing(), bytes)?;
        Ok(Wrote {
            bytes,
            quit: self.memory.is_gone(),
        })
    }

    /// Makes the acts of leaving, where the session has entered and hasn't left: the member goes, leaves each of its
    /// games, and those at which it looks on, and gives it up, and is gone. All are made at `moment`, in milliseconds
    /// and at most 2^48. An act that runs out of memory is passed over, the others are made, and then the answer is
    /// running out of memory. Where Going is passed over, the places are those that the session remembers. Where the
    /// runner's mark is true, nothing but the giving up of a place can be passed over.
    pub fn leave<R: Runner>(&mut self, r: &mut R, moment: Moment) -> Result<(), NoMemory>
        ensures home { R.home r.new ≡ R.home r.old }
        ensures left { OnOk result
            (Left (departing self.old) moment (R.state r.old) (R.state r.new) self.new) }
        ensures part { OnErr result (LeftInPart (departing self.old) moment (R.state r.old) (R.state r.new)) }
        ensures outside { has_entered self.new ≡ false }
    {
        match self.memory.standing() {
            Standing::In(_) => leave(self.alloc, r, moment, &mut self.memory),
            _ => {
                let _session = r.session();
                Ok(())
            }
        }
    }
}
