//! Who: a member asks who is in the hall.
ghost use Rattle.std.specs.Prelude.{◌≡◌, ◌∷◌, ◌++◌, [], IfOk, OnOk, map};
ghost use Rattle.fics_words.specs.Effect.{Takes};
ghost use Rattle.lobby_state.specs.Who.{who_effect, who_lines};

use crate::acts::LobbyReply;
use crate::name_row::NameRow;
use crate::roster::Roster;
use fics_words::{Fail, Handle, Lines, MOST_HANDLE_LETTERS, Refusal};
use memory::NoMemory;
use std::alloc::Global;

impl Roster {
    /// The handles of the members, in the order of their keys. It is refused where the session isn't a member.
    pub(crate) fn who(&self, session: u32) -> Result<LobbyReply, Fail>
        ensures { Takes (who_effect self.now session) self.now self.now result }
    {
        if self.member(session).is_none() {
            return Err(Fail::Refused(Refusal::NotIn));
        }
        let lines = self.who_lines()?;
        Ok(LobbyReply::Lines(lines))
    }

    /// The list of these handles as lines.
    pub(crate) fn who_lines(&self) -> Result<Lines, NoMemory>
        ensures { IfOk result (λ lines. lines ≡ who_lines self.now) }
    {
        lines_of(self.alloc, self.members.names())
    }
}

/// The names as lines, whose room is taken once.
fn lines_of(alloc: Global, names: &[NameRow]) -> Result<Lines, NoMemory>
    ensures { IfOk result (λ lines. lines ≡ map (λ row. row.name) names.now) }
{
    let mut lines = Lines::new(alloc);
    lines.reserve(names.len(), names.len().saturating_mul(MOST_HANDLE_LETTERS))?;
    for row in names {
        push_name(&mut lines, row.name)?;
    }
    Ok(lines)
}

/// Puts a handle behind the lines.
pub(crate) fn push_name(lines: &mut Lines, name: Handle) -> Result<(), NoMemory>
    ensures { OnOk result (lines.new ≡ lines.old ++ name ∷ []) }
{
    lines.push(name.letters())
}
