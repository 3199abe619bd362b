//! Commands that a session carries out by itself, with no act.
ghost use Rattle.std.specs.Prelude.{◌≡◌, ◌++◌, OnOk};
ghost use Rattle.session_core.specs.OwnCommands.{own_answer, own_line};

use crate::session_memory::SessionMemory;
use crate::texts::{put_done, put_refusal};
use command_words::Style;
use fics_words::{Fail, Line, Refusal};
use memory::NoMemory;

/// What a session does by itself.
#[derive(Drop)]
pub enum OwnCommand {
    /// It prints boards so.
    Style(Style),
    /// It lets a name stand for a text.
    Alias { name: Line, text: Line },
    /// It lets this name stand for nothing any more.
    Unalias(Line),
}

/// Does what a session does by itself, and tells whether that was done.
pub(crate) fn carry_out(
    memory: &mut SessionMemory,
    own: OwnCommand,
    out: &mut Vec<u8>,
) -> Result<(), NoMemory>
    ensures memory { OnOk result (memory.new ≡ (own_answer own memory.old).memory) }
    ensures line { OnOk result (out.new.items ≡ out.old.items ++ (own_answer own memory.old).line) }
    ensures stands { memory.new.standing ≡ memory.old.standing }
    ensures places { memory.new.places ≡ memory.old.places }
    ensures looks { memory.new.observed ≡ memory.old.observed }
{
    match own {
        OwnCommand::Style(style) => {
            memory.print_in(style);
            put_done(out)
        }
        OwnCommand::Alias { name, text } => set_alias(memory, &name, &text, out),
        OwnCommand::Unalias(name) => put_own(memory.unset_alias(name.bytes()), out),
    }
}

/// Makes a name stand for a text, and tells whether that was done.
fn set_alias(
    memory: &mut SessionMemory,
    name: &Line,
    text: &Line,
    out: &mut Vec<u8>,
) -> Result<(), NoMemory>
    ensures memory { OnOk result
        (memory.new ≡ (own_answer (OwnCommand.Alias name.now text.now) memory.old).memory) }
    ensures line { OnOk result (out.new.items ≡ out.old.items
        ++ (own_answer (OwnCommand.Alias name.now text.now) memory.old).line) }
    ensures stands { memory.new.standing ≡ memory.old.standing }
    ensures places { memory.new.places ≡ memory.old.places }
    ensures looks { memory.new.observed ≡ memory.old.observed }
{
    match memory.set_alias(name.bytes(), text.bytes()) {
        Ok(()) => put_done(out)?,
        Err(Fail::Refused(cause)) => put_refusal(cause, out)?,
        Err(Fail::Memory) => return Err(NoMemory),
    }
    Ok(())
}

/// Appends the line of what was done, or refused.
fn put_own(answer: Result<(), Refusal>, out: &mut Vec<u8>) -> Result<(), NoMemory>
    ensures { OnOk result (out.new.items ≡ out.old.items ++ own_line answer) }
{
    match answer {
        Ok(()) => put_done(out),
        Err(cause) => put_refusal(cause, out),
    }
}
