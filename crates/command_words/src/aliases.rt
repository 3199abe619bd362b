//! Aliases: short names for texts that a player types often.

ghost use Rattle.std.specs.Prelude.{◌≡◌, ◌<◌, IfOk, IfSome, OnOk, OnErr, length, position, option_copied, true};
ghost use Rattle.command_words.specs.Aliases.{has_name, is_alias_name, alias_of, with_alias};
ghost use Rattle.command_words.specs.Texts.{is_message_text};

use crate::arguments::{are_within, is_text};
use collections::Listed;
use fics_words::{Fail, Line, Refusal};
use memory::{Duplicate, NoMemory};
use std::alloc::Global;
use std::marker::Model;

/// The most aliases of a player.
const MOST: usize = 32;

/// The most letters of an alias's name.
const MOST_LETTERS: usize = 15;

/// A name, 1 to 15 lower-case letters, and the text, 1 to 800 bytes, for which it stands.
#[derive(Drop)]
pub struct Alias {
    pub name: Line,
    pub text: Line,
}

impl Duplicate for Alias {
    fn duplicate(&self) -> Result<Alias, NoMemory> {
        Ok(Alias {
            name: self.name.duplicate()?,
            text: self.text.duplicate()?,
        })
    }
}

/// The aliases of a player, in the order in which their names came. Contracts see the list of them.
#[derive(Drop)]
pub struct Aliases {
    rows: Listed<Alias>,
    alloc: Global,
}

impl Model for Aliases {
    ghost use Rattle.std.specs.Prelude.{List};
    ghost use Rattle.command_words.specs.declared.aliases.Alias.{Alias};

    ghost Value = { List Alias };

    ghost view = { λ aliases. aliases.rows };
}

impl Aliases {
    ghost use Rattle.std.specs.Prelude.{◌≡◌, [], option_copied};
    ghost use Rattle.fics_words.specs.Effect.{Takes, answer_of, state_of};
    ghost use Rattle.command_words.specs.Aliases.{alias_of, setting, unsetting};

    /// No aliases; takes no memory.
    pub fn new(alloc: Global) -> Aliases
        ensures { result ≡ [] }
    {
        Aliases {
            rows: Listed::new(alloc),
            alloc,
        }
    }

    /// The alias of that name, compared exactly, if there is one.
    pub fn get(&self, name: &[u8]) -> Option<&Alias>
        ensures { option_copied result ≡ alias_of self.now name.now }
    {
        find_alias(self.rows.as_slice(), name)
    }

    /// Makes the name stand for the text, in place of what it stood for. Refuses with `BadArguments` where one of them
    /// has another form, and with `ListFull` where the name is new and there are 32.
    pub fn set(&mut self, name: &[u8], text: &[u8]) -> Result<(), Fail>
        ensures { Takes (setting self.old name.now text.now) self.old self.new result }
    {
        if !(is_alias_name(name) && is_text(text)) {
            return Err(Fail::Refused(Refusal::BadArguments));
        }
        let place = place_of(self.rows.as_slice(), name);
        if place.is_none() && self.rows.len() >= MOST {
            return Err(Fail::Refused(Refusal::ListFull));
        }
        let alias = new_alias(self.alloc, name, text)?;
        put(&mut self.rows, place, alias)?;
        Ok(())
    }

    /// Takes away the alias of that name. Refuses with `NotOnList` where there is none.
    pub fn unset(&mut self, name: &[u8]) -> Result<(), Refusal>
        ensures answer { result ≡ answer_of (unsetting self.old name.now) }
        ensures after { self.new ≡ state_of self.old (unsetting self.old name.now) }
    {
        let Some(place) = place_of(self.rows.as_slice(), name) else {
            return Err(Refusal::NotOnList);
        };
        self.rows.remove(place);
        Ok(())
    }
}

/// Puts an alias in that place, or behind the others where there is none. Running out of memory changes nothing.
fn put(rows: &mut Listed<Alias>, place: Option<usize>, alias: Alias) -> Result<(), NoMemory>
    requires { IfSome place (λ place. place < length rows.old) }
    ensures put { OnOk result (rows.new ≡ with_alias rows.old alias place) }
    ensures unchanged { OnErr result (rows.new ≡ rows.old) }
{
    match place {
        Some(place) => {
            *rows.item_mut(place) = alias;
            Ok(())
        }
        None => rows.push(alias),
    }
}

/// The alias of that name among these.
fn find_alias<'a>(rows: &'a [Alias], name: &[u8]) -> Option<&'a Alias>
    ensures { option_copied result ≡ alias_of rows.now name.now }
{
    rows.iter().find(|row| row.name.bytes() == name)
}

/// The place of the alias of that name among these, from 0.
fn place_of(rows: &[Alias], name: &[u8]) -> Option<usize>
    ensures place { result ≡ position (has_name name.now) rows.now }
    ensures within { IfSome result (λ place. place < length rows.now) }
{
    rows.iter().position(|row| row.name.bytes() == name)
}

/// The alias of a name and a text of the right forms.
fn new_alias(alloc: Global, name: &[u8], text: &[u8]) -> Result<Alias, NoMemory>
    requires name { is_alias_name name.now ≡ true }
    requires text { is_message_text text.now ≡ true }
    ensures { IfOk result (λ alias. alias ≡ record { name = name.now; text = text.now }) }
{
    Ok(Alias {
        name: Line::from_bytes(Vec::from_slice(alloc, name)?),
        text: Line::from_bytes(Vec::from_slice(alloc, text)?),
    })
}

/// Whether the bytes are an alias's name: 1 to 15 lower-case letters.
pub(crate) fn is_alias_name(name: &[u8]) -> bool
    ensures { result ≡ is_alias_name name.now }
{
    if name.is_empty() {
        return false;
    }
    if name.len() > MOST_LETTERS {
        return false;
    }
    are_within(name, b'a', b'z')
}
