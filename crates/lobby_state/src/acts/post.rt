//! Post: a member offers a game to whoever takes it.
ghost use Rattle.std.specs.Prelude.{◌≡◌, ◌<◌, IfOk, OnErr, OnOk, length};
ghost use Rattle.fics_words.specs.Effect.{Takes};
ghost use Rattle.lobby_state.specs.Broadcast.{broadcast};
ghost use Rattle.lobby_state.specs.Post.{hears_seeks, post_effect, seek_words, seeking_effect};
ghost use Rattle.seek_match.specs.Seeks.{next_number, posting};

use crate::acts::LobbyReply;
use crate::broadcast::broadcast;
use crate::member::Member;
use crate::members::Members;
use crate::roster::Roster;
use crate::said::{joined, put_numbered};
use crate::terms::words_of_terms;
use chess_model::{Terms, Variant};
use collections::Predicate;
use fics_words::{Fail, Handle, Line, Refusal};
use memory::NoMemory;
use seek_match::SeekBook;
use std::alloc::Global;

/// A member of another session who wants to hear of seeks.
#[derive(Clone, Copy)]
struct HearsSeeks(u32);

impl Predicate<Member> for HearsSeeks {
    ghost passes = { λ test member. hears_seeks test.0 member };

    fn passes(&self, member: &Member) -> bool {
        member.session != self.0 && member.wants.seeks
    }
}

impl Roster {
    /// The session offers a game on these terms, and all others who want to hear of seeks are told. The causes of a
    /// refusal, in order: the session isn't a member; the game is bughouse; the member has a place, or gives a simul;
    /// it has three seeks.
    pub(crate) fn post(&mut self, session: u32, terms: Terms) -> Result<LobbyReply, Fail>
        requires { length self.old.seeks < 65535 }
        ensures { Takes (post_effect self.old session terms) self.old self.new result }
    {
        let Some(caller) = self.member(session) else {
            return Err(Fail::Refused(Refusal::NotIn));
        };
        if matches!(terms.variant, Variant::Bughouse) {
            return Err(Fail::Refused(Refusal::NotInVariant));
        }
        if caller.has_place() || caller.gives() {
            return Err(Fail::Refused(Refusal::Playing));
        }
        let name = caller.name;
        self.post_seek(session, name, terms)
    }

    /// A seek of the session, which goes by that name, stands, and others are told. Refused where it has three seeks.
    fn post_seek(&mut self, session: u32, name: Handle, terms: Terms) -> Result<LobbyReply, Fail>
        requires { length self.old.seeks < 65535 }
        ensures { Takes (seeking_effect self.old session name terms) self.old self.new result }
    {
        let seeks = &mut self.seeks;
        let number = post_and_tell(self.alloc, seeks, &mut self.members, session, name, terms)?;
        Ok(LobbyReply::Number(number))
    }
}

/// A seek of the session, which goes by that name, stands, and others are told. Where they can't be, it is taken back.
fn post_and_tell(
    alloc: Global,
    seeks: &mut SeekBook,
    members: &mut Members,
    session: u32,
    name: Handle,
    terms: Terms,
) -> Result<u16, Fail>
    requires { length seeks.old < 65535 }
    ensures posted { Takes (posting seeks.old session terms) seeks.old seeks.new result }
    ensures told { OnOk result (members.new
        ≡ broadcast (hears_seeks session) (seek_words name (next_number seeks.old) terms) members.old) }
    ensures untold { OnErr result (members.new ≡ members.old) }
{
    // The seeks are what says that no two have one number.
    let _seeks = seeks.rows();
    let number = seeks.post(session, terms)?;
    if let Err(NoMemory) = tell_of_seek(alloc, members, session, name, number, terms) {
        seeks.take_back(number);
        return Err(Fail::Memory);
    }
    Ok(number)
}

/// Tells of a seek by the session, which goes by that name, to the others who want to hear of seeks.
fn tell_of_seek(
    alloc: Global,
    members: &mut Members,
    session: u32,
    name: Handle,
    number: u16,
    terms: Terms,
) -> Result<u16, NoMemory>
    ensures ok { OnOk result
        (members.new ≡ broadcast (hears_seeks session) (seek_words name number terms) members.old) }
    ensures err { OnErr result (members.new ≡ members.old) }
{
    let line = seek_line(alloc, name, number, terms)?;
    broadcast(members, &HearsSeeks(session), &line)
}

/// The line that a seek sends, `H seeking M I V C ("play N" to respond)`: whose it is, on which terms, and its number.
fn seek_line(alloc: Global, name: Handle, number: u16, terms: Terms) -> Result<Line, NoMemory>
    ensures { IfOk result (λ line. line ≡ seek_words name number terms) }
{
    let text = seek_text(alloc, name.letters(), number, terms)?;
    Ok(Line::from_bytes(text))
}

/// The bytes of that line, for a player with these letters.
fn seek_text(alloc: Global, letters: &[u8], number: u16, terms: Terms) -> Result<Vec<u8>, NoMemory>
    ensures { IfOk result (λ text. text.items ≡ seek_words letters.now number terms) }
{
    let words = words_of_terms(alloc, terms)?;
    let mut text = joined(alloc, letters, b" seeking ", words.as_slice())?;
    put_numbered(
        &mut text,
        b" (\"play ",
        u64::from(number),
        b"\" to respond)",
    )?;
    Ok(text)
}
