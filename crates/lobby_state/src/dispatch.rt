//! Which act is carried out by which function.
ghost use Rattle.std.specs.Prelude.{◌≡◌, ◌+◌, ◌<◌, ◌^◌, IfOk, IsOk, length};
ghost use Rattle.fics_words.specs.Effect.{Takes};
ghost use Rattle.lobby_state.specs.Acts.{FitsLobby, LobbyNeedsNoMemory, lobby_effect};
ghost use Rattle.lobby_state.specs.Told.{lists_told};
ghost use Rattle.lobby_state.specs.Planned.{IsPlanned};
ghost use Rattle.lobby_state.specs.Plans.{committed, plan_of};
ghost use Rattle.lobby_state.specs.Reserve.{IsReady, shelved_in};
ghost use Rattle.lobby_state.specs.WellFormed.{IsWellFormed};

use crate::acts::{LobbyAct, LobbyReply, PairAct, Plan};
use crate::desk_in_use::DeskInUse;
use crate::reserve::Ready;
use crate::roster::Roster;
use crate::told::ReplyLists;
use collections::Listed;
use fics_words::{Fail, Line, Lines, Refusal};
use lobby_shelf::Order;
use memory::NoMemory;

impl Roster {
    /// Carries out an act that needs the lobby alone.
    pub(crate) fn act(&mut self, session: u32, act: &LobbyAct) -> Result<LobbyReply, Fail>
        requires fits { FitsLobby act.now }
        requires numbers { length self.old.seeks < 65535 }
        requires count { self.old.shelf.made + 1 < 2 ^ 64 }
        ensures { Takes (lobby_effect self.old session act.now) self.old self.new result }
    {
        match act {
            LobbyAct::Enter { name, digest } => self.enter(session, *name, *digest),
            LobbyAct::Register { digest } => self.register(session, *digest),
            LobbyAct::Match { to, terms } => self.challenge(session, *to, *terms),
            LobbyAct::Post { terms } => self.post(session, *terms),
            LobbyAct::Unpost { number } => self.unpost(session, *number),
            LobbyAct::Sought => self.sought(session),
            LobbyAct::Who => self.who(session),
            LobbyAct::Pending => self.pending(session),
            LobbyAct::Games => self.games(session),
            LobbyAct::Var { which, on } => self.set_var(session, *which, *on),
            LobbyAct::List { which, name, on } => self.list(session, *which, *name, *on),
            LobbyAct::Tell { to, text } => self.tell(session, *to, text),
            LobbyAct::Shout { text } => self.shout(session, text),
            LobbyAct::Channel { channel, on } => self.channel(session, *channel, *on),
            LobbyAct::TellChannel { channel, text } => self.tell_channel(session, *channel, text),
            LobbyAct::InChannel { channel } => self.in_channel(session, *channel),
            LobbyAct::Decline { name } => self.decline(session, *name),
            LobbyAct::Withdraw { name } => self.withdraw(session, *name),
            LobbyAct::Partner { name } => self.partner(session, *name),
            LobbyAct::Ptell { text } => self.ptell(session, text),
            LobbyAct::SimOpen => self.sim_open(session),
            LobbyAct::SimNext => self.sim_next(session),
            LobbyAct::SimPrev => self.sim_prev(session),
            LobbyAct::GoBoard { name } => self.go_board(session, *name),
            LobbyAct::Find { name } => self.find(session, *name),
            LobbyAct::FindGame { number } => self.find_game(session, *number),
            LobbyAct::Where => Ok(self.where_is(session)),
            LobbyAct::Fetch => Ok(self.fetch(session)),
            LobbyAct::Going => Ok(self.going(session)),
            LobbyAct::Bye => Ok(self.bye(session)),
            LobbyAct::InUse => self.in_use(),
            LobbyAct::Stored => self.stored(session),
            LobbyAct::Orders => self.orders(),
            LobbyAct::Saved { upto } => Ok(self.saved(*upto)),
        }
    }

    /// A copy of the lists that an act will answer, made before the act.
    pub(crate) fn lists_ahead(&self, session: u32, act: &LobbyAct) -> Result<ReplyLists, NoMemory>
        ensures lists { IfOk result (λ lists. lists ≡ lists_told (lobby_effect self.now session act.now).reply) }
        ensures sure { LobbyNeedsNoMemory act.now → IsOk result }
    {
        let lines = self.lines_ahead(session, act)?;
        let waiting = self.waiting_ahead(session, act)?;
        let desks = self.desks_ahead(session, act)?;
        let orders = self.orders_ahead(session, act)?;
        Ok(ReplyLists {
            lines,
            waiting,
            desks,
            orders,
        })
    }

    /// A copy of the lines that an act will answer.
    fn lines_ahead(&self, session: u32, act: &LobbyAct) -> Result<Lines, NoMemory>
        ensures lines { IfOk result (λ lines.
            lines ≡ (lists_told (lobby_effect self.now session act.now).reply).lines) }
        ensures sure { LobbyNeedsNoMemory act.now → IsOk result }
    {
        match act {
            LobbyAct::Sought => self.sought_lines(),
            LobbyAct::Who => self.who_lines(),
            LobbyAct::Pending => self.pending_lines(session),
            LobbyAct::Games => self.games_lines(),
            LobbyAct::InChannel { channel } => self.in_channel_lines(*channel),
            LobbyAct::Stored => self.stored_lines(session),
            _ => Ok(Lines::new(self.alloc)),
        }
    }

    /// A copy of the lines that waited, which an act will answer.
    fn waiting_ahead(&self, session: u32, act: &LobbyAct) -> Result<Listed<Line>, NoMemory>
        ensures lines { IfOk result (λ lines.
            lines ≡ (lists_told (lobby_effect self.now session act.now).reply).waiting) }
        ensures sure { LobbyNeedsNoMemory act.now → IsOk result }
    {
        match act {
            LobbyAct::Fetch => self.waiting_copy(session),
            _ => Ok(Listed::new(self.alloc)),
        }
    }

    /// A copy of the desks that an act will answer.
    fn desks_ahead(&self, session: u32, act: &LobbyAct) -> Result<Listed<DeskInUse>, NoMemory>
        ensures desks { IfOk result (λ desks.
            desks ≡ (lists_told (lobby_effect self.now session act.now).reply).desks) }
        ensures sure { LobbyNeedsNoMemory act.now → IsOk result }
    {
        match act {
            LobbyAct::InUse => self.desks_in_use(),
            _ => Ok(Listed::new(self.alloc)),
        }
    }

    /// A copy of the save orders that an act will answer.
    fn orders_ahead(&self, session: u32, act: &LobbyAct) -> Result<Listed<Order>, NoMemory>
        ensures orders { IfOk result (λ orders.
            orders ≡ (lists_told (lobby_effect self.now session act.now).reply).orders) }
        ensures sure { LobbyNeedsNoMemory act.now → IsOk result }
    {
        match act {
            LobbyAct::Orders => self.orders_copy(),
            _ => Ok(Listed::new(self.alloc)),
        }
    }

    /// What an act that needs the lobby and a desk is to do, by the lobby alone.
    pub(crate) fn plan(&self, session: u32, act: &PairAct) -> Result<Plan, Refusal>
        ensures { result ≡ plan_of self.now session act.now }
    {
        match act {
            PairAct::Accept(name) => self.accept_plan(session, *name),
            PairAct::Play(number) => self.play_plan(session, *number),
            PairAct::Resume(name) => self.resume_plan(session, *name),
            PairAct::Clear { desk, serial } => Ok(Plan::Clear {
                by: session,
                desk: *desk,
                serial: *serial,
            }),
        }
    }

    /// Carries out the lobby's share of a plan. `cleared` says of a Clear whether the desk is vacant from now on.
    pub(crate) fn commit(&mut self, plan: &Plan, ready: Ready, cleared: bool)
        requires formed { IsWellFormed self.old }
        requires planned { IsPlanned self.old plan.now }
        requires ready { IsReady self.old plan.now ready }
        ensures { self.new ≡ committed self.old plan.now (shelved_in ready) cleared }
    {
        match plan {
            Plan::Start {
                desk,
                serial,
                terms,
                seats,
            } => self.start(*desk, *serial, *terms, seats),
            Plan::Clear { by, desk, .. } => {
                if cleared {
                    self.put_away(*desk, ready);
                } else {
                    self.free(*by, *desk);
                }
            }
            Plan::Resume {
                desk,
                serial,
                number,
                terms,
                seats,
            } => {
                self.take_off(*number, ready);
                self.start(*desk, *serial, *terms, seats);
            }
            Plan::Ask { from, to, number } => self.ask(*from, *to, *number, ready),
        }
    }
}
