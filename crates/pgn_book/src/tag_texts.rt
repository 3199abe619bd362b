//! The texts of a game's tags while they are read. Each has a place of fixed size, so that noting one asks for no
//! memory.
ghost use Rattle.std.specs.Prelude.{◌≡◌, ◌++◌, IfOk, OnOk, Option, unwrap_or};
ghost use Rattle.pgn_book.specs.Reading.{empty_row, tag_noted, noted_as, tags_of};

use crate::game::TagRow;
use crate::text::Text;
use collections::Listed;
use memory::NoMemory;
use std::alloc::Global;

/// The first text of each name, if one was told.
#[derive(Drop)]
pub(crate) struct TagTexts {
    event: Option<Text>,
    site: Option<Text>,
    date: Option<Text>,
    round: Option<Text>,
    white: Option<Text>,
    black: Option<Text>,
}

impl TagTexts {
    /// No text.
    pub(crate) fn new() -> TagTexts
        ensures { result ≡ empty_row }
    {
        TagTexts {
            event: None,
            site: None,
            date: None,
            round: None,
            white: None,
            black: None,
        }
    }

    /// The same texts once more.
    pub(crate) fn copy(&self) -> TagTexts
        ensures { result ≡ self.now }
    {
        TagTexts {
            event: same(&self.event),
            site: same(&self.site),
            date: same(&self.date),
            round: same(&self.round),
            white: same(&self.white),
            black: same(&self.black),
        }
    }

    /// Notes the text of a tag, where its name is one of the six and none of that name was told.
    pub(crate) fn note(&mut self, name: &[u8], text: &Text)
        ensures { self.new ≡ tag_noted name.now text.now self.old }
    {
        note_as(&mut self.event, b"Event", name, text);
        note_as(&mut self.site, b"Site", name, text);
        note_as(&mut self.date, b"Date", name, text);
        note_as(&mut self.round, b"Round", name, text);
        note_as(&mut self.white, b"White", name, text);
        note_as(&mut self.black, b"Black", name, text);
    }

    /// The texts of a game, those that weren't told as `?`.
    pub(crate) fn tags(&self, alloc: Global) -> Result<TagRow, NoMemory>
        ensures { IfOk result (λ tags. tags ≡ tags_of self.now) }
    {
        let event = text_or(&self.event, alloc, b"?")?;
        let site = text_or(&self.site, alloc, b"?")?;
        let date = text_or(&self.date, alloc, b"????.??.??")?;
        let round = text_or(&self.round, alloc, b"?")?;
        let white = text_or(&self.white, alloc, b"?")?;
        let black = text_or(&self.black, alloc, b"?")?;
        Ok(TagRow {
            event,
            site,
            date,
            round,
            white,
            black,
        })
    }
}

/// The same text once more, if there is one.
fn same(slot: &Option<Text>) -> Option<Text>
    ensures { result ≡ slot.now }
{
    match slot {
        Some(text) => Some(text.copy()),
        None => None,
    }
}

/// Notes a text of that name as the one of `key`, if it is the first.
fn note_as(slot: &mut Option<Text>, key: &[u8], name: &[u8], text: &Text)
    ensures { slot.new ≡ noted_as key.now name.now text.now slot.old }
{
    if slot.is_none() && name == key {
        drop(slot.replace(text.copy()));
    }
}

/// A text, or the absent one where none was told.
fn text_or(slot: &Option<Text>, alloc: Global, absent: &[u8]) -> Result<Listed<u8>, NoMemory>
    ensures { IfOk result (λ text. text ≡ unwrap_or slot.now absent.now) }
{
    match slot {
        Some(text) => copied(alloc, text.bytes()),
        None => copied(alloc, absent),
    }
}

/// A list of these items.
pub(crate) fn copied<T: Copy + Drop>(alloc: Global, items: &[T]) -> Result<Listed<T>, NoMemory>
    ensures { IfOk result (λ list. list ≡ items.now) }
{
    let mut list = Listed::new(alloc);
    put_all(&mut list, items)?;
    Ok(list)
}

/// Puts these items behind the others.
fn put_all<T: Copy + Drop>(list: &mut Listed<T>, items: &[T]) -> Result<(), NoMemory>
    ensures { OnOk result (list.new ≡ list.old ++ items.now) }
{
    for item in items {
        list.push(*item)?;
    }
    Ok(())
}
