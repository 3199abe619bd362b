//! Steps of logins and accounts, each with its expected answer.

use crate::steps::{DONE, acted, hall, number_if_done};
use fics_words::{Account, Digest, Fail, Handle};
use lobby_state::{Lobby, LobbyAct, LobbyReply};
use memory::NoMemory;
use std::alloc::Global;
use test_steps::first_wrong;

/// The number that stands when out of memory, or for an answer of another kind than the step has.
const STRANGE: u8 = 255;

/// How one who asks to come in is met: under this handle, by the question for a password, or by a refusal.
#[derive(Clone, Copy)]
pub enum Met {
    As(&'static [u8]),
    Asked,
    Refused(u8),
}

/// A step: the session that makes it, what it does, and what it has to answer. A password is a number, and a number of
/// a refusal is 0 where there is none.
#[derive(Clone, Copy)]
pub enum Login {
    Guest(u32, Met),
    Name(u32, &'static [u8], Met),
    Password(u32, &'static [u8], u8, Met),
    Register(u32, u8, u8),
    /// An account is loaded.
    Load(&'static [u8], u8, u8),
    Bye(u32),
    /// There are so many accounts.
    Accounts(usize),
}

/// The place of the first step that answers otherwise, if one does.
pub fn first_failing_login(lobby: &mut Lobby, steps: &[Login]) -> Option<usize> {
    first_wrong!(steps, |step| is_as_expected(lobby, step))
}

/// The same at a new lobby.
pub fn first_failing_login_anew(alloc: Global, steps: &[Login]) -> Result<Option<usize>, NoMemory> {
    let mut lobby = hall(alloc)?;
    Ok(first_failing_login(&mut lobby, steps))
}

fn is_as_expected(lobby: &mut Lobby, step: &Login) -> bool {
    match step {
        Login::Guest(session, met) => is_met(lobby, *session, None, None, *met),
        Login::Name(session, letters, met) => is_met(lobby, *session, Some(letters), None, *met),
        Login::Password(session, letters, password, met) => {
            is_met(lobby, *session, Some(letters), Some([*password; 32]), *met)
        }
        Login::Register(session, password, number) => {
            registering(lobby, *session, *password) == *number
        }
        Login::Load(letters, password, number) => loading(lobby, letters, *password) == *number,
        Login::Bye(session) => acted(lobby, *session, &LobbyAct::Bye).is_ok(),
        Login::Accounts(count) => accounts(lobby) == *count,
    }
}

fn accounts(lobby: &Lobby) -> usize {
    lobby.accounts().len()
}

fn is_met(
    lobby: &mut Lobby,
    session: u32,
    letters: Option<&[u8]>,
    digest: Option<Digest>,
    met: Met,
) -> bool {
    let name = match letters {
        Some(letters) => Handle::read(letters),
        None => None,
    };
    is_met_so(
        &acted(lobby, session, &LobbyAct::Enter { name, digest }),
        met,
    )
}

fn is_met_so(answer: &Result<LobbyReply, Fail>, met: Met) -> bool {
    match (answer, met) {
        (Ok(reply), _) => is_welcome(reply, met),
        (Err(Fail::Refused(cause)), Met::Refused(number)) => number == cause.number(),
        _ => false,
    }
}

fn is_welcome(reply: &LobbyReply, met: Met) -> bool {
    match (reply, met) {
        (LobbyReply::Entered(name), Met::As(letters)) => name.letters() == letters,
        (LobbyReply::NeedPassword, Met::Asked) => true,
        _ => false,
    }
}

/// Makes an account, and says the number of the refusal.
pub fn registering(lobby: &mut Lobby, session: u32, password: u8) -> u8 {
    let digest = [password; 32];
    number_if_done(&acted(lobby, session, &LobbyAct::Register { digest }))
}

/// Loads an account, and says the number of the refusal.
fn loading(lobby: &mut Lobby, letters: &[u8], password: u8) -> u8 {
    let Some(name) = Handle::read(letters) else {
        return STRANGE;
    };
    let digest = [password; 32];
    match loaded(lobby, Account { name, digest }) {
        Ok(()) => DONE,
        Err(Fail::Refused(cause)) => cause.number(),
        Err(Fail::Memory) => STRANGE,
    }
}

/// Loads an account. It ensures nothing.
fn loaded(lobby: &mut Lobby, account: Account) -> Result<(), Fail> {
    lobby.add_account(account)
}
