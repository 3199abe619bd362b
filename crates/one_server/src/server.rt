//! The server of one thread.
ghost use Rattle.std.specs.Prelude.{◌≡◌, ◌++◌, ◌∷◌, [], Some, IfOk, OnErr, slice_get};

use crate::act::{Act, Timed};
use crate::copies::Copies;
use crate::part::Part;
use crate::parts::{first_of, step, vacant_desks};
use crate::reply::Reply;
use collections::Listed;
use fics_words::DeskNumber;
use histories::Entry;
use linked_desk::Desk;
use lobby_state::{Lobby, lobbies_are_well_formed};
use memory::NoMemory;
use std::alloc::Global;
use std::marker::Model;
use std::snapshot::Snapshot;

/// One lobby and 128 desks, with the whole history of the acts that were made. Contracts see the opening state and that
/// history; the parts at present are its state.
#[derive(Drop)]
pub struct OneServer {
    alloc: Global,
    opening: Snapshot<Lobby>,
    lobby: Part,
    desks: Listed<Part>,
    log: Vec<Entry<Timed, Reply>>,
}

impl Model for OneServer {
    ghost use Rattle.std.specs.Prelude.{◌∷◌};
    ghost use Rattle.one_server.specs.Server.{ServerState, IsServed};
    ghost use Rattle.one_server.specs.Whole.{opened_server};

    ghost Value = { ServerState };

    ghost view = { λ s. record { opening = opened_server s.opening.value; log = s.log.items } };

    ghost invariant = { λ s. IsServed (opened_server s.opening.value) s.log.items (s.lobby ∷ s.desks) };
}

impl OneServer {
    ghost use Rattle.histories.specs.History.{entry, Legal};
    ghost use Rattle.one_server.specs.declared.part.Part.TheVariants.{Lobby as TheLobby, Desk as ADesk};
    ghost use Rattle.one_server.specs.Acts.{IsEvent};
    ghost use Rattle.one_server.specs.House.{house};
    ghost use Rattle.one_server.specs.Replies.{IsReply};
    ghost use Rattle.one_server.specs.Server.{parts_in};
    ghost use Rattle.one_server.specs.Whole.{IsOpening, IsWhole, opened_server};

    /// A server that opens with this lobby, which has no member and no desk in use, and with vacant desks. It isn't
    /// made only when out of memory.
    pub fn new(alloc: Global, lobby: Lobby) -> Result<OneServer, NoMemory>
        requires { IsOpening lobby }
        ensures { IfOk result (λ server. server ≡ record { opening = opened_server lobby; log = [] }) }
    {
        lobbies_are_well_formed(&lobby);
        match vacant_desks(alloc) {
            Ok(desks) => Ok(OneServer {
                alloc,
                opening: Snapshot::of(&lobby),
                lobby: Part::Lobby(lobby),
                desks,
                log: Vec::new(alloc),
            }),
            Err(want) => Err(want),
        }
    }

    /// Makes an act of a session at `moment`, in milliseconds. What it is answered is the reply of the step in the
    /// state of the history before it, and the history grows by exactly this entry. Running out of memory gives no
    /// reply and changes nothing. A reply tells places at desks 1 to 128 alone, and of each end the winner exactly
    /// where somebody won.
    pub fn run(&mut self, session: u32, moment: u64, act: Act) -> Result<Reply, NoMemory>
        requires { IsEvent (record { moment = moment; act = act }) }
        ensures ok { IfOk result (λ reply. self.new ≡ record self.old {
          log = self.old.log ++ entry session (record { moment = moment; act = act }) reply ∷ [];
        }) }
        ensures legal { Legal house self.new.opening self.new.log }
        ensures fits { IfOk result IsReply }
        ensures err { OnErr result (self.new ≡ self.old) }
    {
        self.log.reserve(1)?;
        let alloc = self.alloc;
        let one = first_of(&self.lobby, &self.desks, &act);
        let copies = Copies::ahead(alloc, one, session, &act)?;
        let timed = Timed { moment, act };
        let mut reply = Reply::blank();
        step(
            alloc,
            &mut self.lobby,
            &mut self.desks,
            session,
            &timed,
            &mut reply,
        )?;
        let twin = copies.twin(&reply);
        self.log.push_reserved(Entry {
            session,
            act: timed,
            reply: twin,
        });
        Ok(reply)
    }

    /// The lobby at present.
    pub fn lobby(&self) -> &Lobby
        ensures { slice_get (parts_in self.now) 0 ≡ Some (TheLobby result.now) }
    {
        match &self.lobby {
            Part::Lobby(lobby) => lobby,
            Part::Desk(_) => unreachable!(),
        }
    }

    /// The desk of that number at present.
    pub fn desk(&self, number: DeskNumber) -> &Desk
        ensures { slice_get (parts_in self.now) number ≡ Some (ADesk result.now) }
    {
        match &self.desks.as_slice()[number.get() as usize - 1] {
            Part::Desk(desk) => desk,
            Part::Lobby(_) => unreachable!(),
        }
    }

    /// The whole history, the oldest entry first.
    pub fn history(&self) -> &[Entry<Timed, Reply>]
        ensures history { result.now ≡ self.now.log }
        ensures legal { Legal house self.now.opening self.now.log }
        ensures opening { IsWhole self.now.opening }
    {
        self.log.as_slice()
    }
}
