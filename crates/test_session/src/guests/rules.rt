//! What each order does in the model and what it is answered: the lines before those that wait.

use crate::guests::model::{Challenge, Listing, MOST_CHANNELS, MOST_SEEKS, Model, Seek};
use crate::guests::names::name_of;
use crate::guests::orders::{GUESTS, Names, Order, Wish, terms_of};
use memory::NoMemory;
use std::alloc::{AllocError, Global};
use std::mem;

/// The lines of an answer.
pub type Lines = Vec<String>;

/// What a guest is answered.
#[derive(Clone, Copy)]
enum Answer {
    Nothing,
    /// This line.
    Says(&'static str),
    /// That so many were told.
    Told(usize),
    /// The number of the guest's seek.
    SeekIs(u64),
    /// The seeks that stand.
    Seeks,
    /// The names of all guests, in the order of the alphabet.
    Names,
    /// The names of those in a channel.
    Channel(u64),
    /// The guest's challenges.
    Challenges,
}

use Answer::Says;

/// What another is sent of a guest.
#[derive(Clone, Copy)]
enum News {
    /// A seek of this number and these terms.
    Seeks(u64, usize),
    Tells(u64),
    /// A text in a channel.
    TellsChannel(u64, u64),
    Shouts(u64),
    Challenges(usize),
    Declines,
    IsPartner,
    OffersPartner,
    Parts,
    TellsPartner(u64),
}

/// Carries out what the guest typed.
pub fn answered(model: &mut Model, guest: usize, order: Order) -> Result<Lines, NoMemory> {
    let answer = answer_to(model, guest, order)?;
    lines_of(model, guest, answer)
}

fn answer_to(model: &mut Model, guest: usize, order: Order) -> Result<Answer, NoMemory> {
    match order {
        Order::Nothing => Ok(Answer::Nothing),
        Order::Seek(terms) => seek(model, guest, terms),
        Order::Unseek(number) => unseek(model, guest, number),
        Order::Sought => Ok(Answer::Seeks),
        Order::Who => Ok(Answer::Names),
        Order::Games => Ok(Says("none")),
        Order::Tell(other, text) => tell(model, guest, other, text),
        Order::TellChannel(channel, text) => tell_channel(model, guest, channel, text),
        Order::Shout(text) => shout(model, guest, text),
        Order::Join(channel) => join(model, guest, channel),
        Order::Leave(channel) => leave(model, guest, channel),
        Order::InChannel(channel) => Ok(Answer::Channel(channel)),
        Order::Match(other, terms) => challenge(model, guest, other, terms),
        Order::Decline(other) => decline(model, guest, other),
        Order::Withdraw(other) => withdraw(model, guest, other),
        Order::Pending => Ok(Answer::Challenges),
        Order::Set(wish, on) => set(model, guest, wish, on),
        Order::Put(names, name) => put(model, guest, names, name),
        Order::Take(names, name) => take(model, guest, names, name),
        Order::Partner(Some(other)) => ask(model, guest, other),
        Order::Partner(None) => part(model, guest),
        Order::Ptell(text) => ptell(model, guest, text),
    }
}

/// The lines of an answer, or that there are none where it is a list.
fn lines_of(model: &Model, guest: usize, answer: Answer) -> Result<Lines, NoMemory> {
    let mut lines = Vec::new(model.alloc);
    put_answer(model, guest, answer, &mut lines)?;
    Ok(lines)
}

fn put_answer(
    model: &Model,
    guest: usize,
    answer: Answer,
    lines: &mut Lines,
) -> Result<(), NoMemory> {
    let alloc = model.alloc;
    match answer {
        Answer::Nothing => return Ok(()),
        Says(line) => put_line(lines, String::from_str(alloc, line))?,
        Answer::Told(count) => put_line(lines, format!(in alloc; "(told {count})"))?,
        Answer::SeekIs(number) => put_line(lines, format!(in alloc; "Your seek is {number}."))?,
        Answer::Seeks => put_seeks(model, lines)?,
        Answer::Names => put_names(alloc, lines)?,
        Answer::Channel(channel) => put_channel(model, channel, lines)?,
        Answer::Challenges => put_challenges(model, guest, lines)?,
    }
    if lines.is_empty() {
        put_line(lines, String::from_str(alloc, "none"))?;
    }
    Ok(())
}

/// Puts a line behind others, where there was memory for it.
fn put_line(lines: &mut Lines, line: Result<String, AllocError>) -> Result<(), NoMemory> {
    lines.push(line?)?;
    Ok(())
}

fn put_seeks(model: &Model, lines: &mut Lines) -> Result<(), NoMemory> {
    for seek in &model.seeks {
        let name = name_of(model.alloc, seek.by)?;
        put_seek(model.alloc, name.as_str(), seek, lines)?;
    }
    Ok(())
}

fn put_seek(alloc: Global, name: &str, seek: &Seek, lines: &mut Lines) -> Result<(), NoMemory> {
    let number = seek.number;
    let terms = terms_of(seek.terms);
    put_line(lines, format!(in alloc; "{number} {name} {terms}"))
}

fn put_name(alloc: Global, guest: usize, lines: &mut Lines) -> Result<(), NoMemory> {
    let name = name_of(alloc, guest)?;
    lines.push(name)?;
    Ok(())
}

fn put_names(alloc: Global, lines: &mut Lines) -> Result<(), NoMemory> {
    for guest in 0..GUESTS {
        put_name(alloc, guest, lines)?;
    }
    Ok(())
}

fn put_channel(model: &Model, channel: u64, lines: &mut Lines) -> Result<(), NoMemory> {
    for guest in 0..GUESTS {
        if model.is_in(guest, channel) {
            put_name(model.alloc, guest, lines)?;
        }
    }
    Ok(())
}

/// Puts the challenges to the guest, and then those by the guest.
fn put_challenges(model: &Model, guest: usize, lines: &mut Lines) -> Result<(), NoMemory> {
    for challenge in &model.challenges {
        if challenge.to == guest {
            put_challenge(model.alloc, "from", challenge.from, challenge.terms, lines)?;
        }
    }
    for challenge in &model.challenges {
        if challenge.from == guest {
            put_challenge(model.alloc, "to", challenge.to, challenge.terms, lines)?;
        }
    }
    Ok(())
}

fn put_challenge(
    alloc: Global,
    word: &str,
    other: usize,
    terms: usize,
    lines: &mut Lines,
) -> Result<(), NoMemory> {
    let name = name_of(alloc, other)?;
    let terms = terms_of(terms);
    put_line(lines, format!(in alloc; "{word} {name} {terms}"))
}

/// The other is sent a line about the guest.
fn send(model: &mut Model, other: usize, guest: usize, news: News) -> Result<(), NoMemory> {
    let line = line_of(model.alloc, guest, news)?;
    model.send(other, line)
}

fn line_of(alloc: Global, guest: usize, news: News) -> Result<String, NoMemory> {
    let name = name_of(alloc, guest)?;
    match told(alloc, name.as_str(), news) {
        Ok(line) => Ok(line),
        Err(AllocError) => Err(NoMemory),
    }
}

fn told(alloc: Global, name: &str, news: News) -> Result<String, AllocError> {
    match news {
        News::Seeks(number, terms) => seeking(alloc, name, number, terms),
        News::Tells(text) => format!(in alloc; "{name} tells you: text {text}"),
        News::TellsChannel(channel, text) => format!(in alloc; "{name}({channel}): text {text}"),
        News::Shouts(text) => format!(in alloc; "{name} shouts: text {text}"),
        News::Challenges(terms) => challenging(alloc, name, terms),
        News::Declines => format!(in alloc; "{name} declines your challenge."),
        News::IsPartner => format!(in alloc; "You are now the partner of {name}."),
        News::OffersPartner => format!(in alloc; "{name} offers to be your partner."),
        News::Parts => format!(in alloc; "{name} is no longer your partner."),
        News::TellsPartner(text) => {
            format!(in alloc; "{name} (your partner) tells you: text {text}")
        }
    }
}

fn seeking(alloc: Global, name: &str, number: u64, terms: usize) -> Result<String, AllocError> {
    let terms = terms_of(terms);
    format!(in alloc; "{name} seeking {terms} (\"play {number}\" to respond)")
}

fn challenging(alloc: Global, name: &str, terms: usize) -> Result<String, AllocError> {
    let terms = terms_of(terms);
    format!(in alloc; "Challenge: {name} {terms}")
}

/// Copies seeks, and puts a new one in the order of the numbers.
fn put_in_order(seeks: &mut Vec<Seek>, others: &[Seek], new: Seek) -> Result<(), NoMemory> {
    for seek in others {
        if seek.number < new.number {
            seeks.push(*seek)?;
        }
    }
    seeks.push(new)?;
    for seek in others {
        if seek.number > new.number {
            seeks.push(*seek)?;
        }
    }
    Ok(())
}

fn add_seek(model: &mut Model, new: Seek) -> Result<(), NoMemory> {
    let mut seeks = Vec::new(model.alloc);
    put_in_order(&mut seeks, &model.seeks, new)?;
    drop(mem::replace(&mut model.seeks, seeks));
    Ok(())
}

fn seek(model: &mut Model, guest: usize, terms: usize) -> Result<Answer, NoMemory> {
    if model.count_seeks(guest) >= MOST_SEEKS {
        return Ok(Says("refused 31 SeekFull"));
    }
    let number = model.free_number();
    let new = Seek {
        number,
        by: guest,
        terms,
    };
    add_seek(model, new)?;
    for other in 0..GUESTS {
        if other != guest && model.wants(other, Wish::Seek) {
            send(model, other, guest, News::Seeks(number, terms))?;
        }
    }
    Ok(Answer::SeekIs(number))
}

fn unseek(model: &mut Model, guest: usize, number: Option<u64>) -> Result<Answer, NoMemory> {
    if model.drop_seeks(guest, number)? {
        return Ok(Says("Ok."));
    }
    Ok(Says("refused 30 NoSuchSeek"))
}

fn tell(model: &mut Model, guest: usize, other: usize, text: u64) -> Result<Answer, NoMemory> {
    if other >= GUESTS {
        return Ok(Says("refused 32 NoSuchPlayer"));
    }
    if model.lists(other, Names::Censor, guest) {
        return Ok(Says("refused 36 Refuses"));
    }
    if model.is_full(other) {
        return Ok(Says("refused 49 QueueFull"));
    }
    send(model, other, guest, News::Tells(text))?;
    Ok(Says("(told 1)"))
}

fn tell_channel(
    model: &mut Model,
    guest: usize,
    channel: u64,
    text: u64,
) -> Result<Answer, NoMemory> {
    if !model.is_in(guest, channel) {
        return Ok(Says("refused 39 NotInChannel"));
    }
    let mut heard = 0usize;
    for other in 0..GUESTS {
        if other != guest && model.is_in(other, channel) && !model.is_full(other) {
            send(model, other, guest, News::TellsChannel(channel, text))?;
            heard = heard.saturating_add(1);
        }
    }
    Ok(Answer::Told(heard))
}

fn shout(model: &mut Model, guest: usize, text: u64) -> Result<Answer, NoMemory> {
    let mut heard = 0usize;
    for other in 0..GUESTS {
        if other != guest && model.wants(other, Wish::Shout) && !model.is_full(other) {
            send(model, other, guest, News::Shouts(text))?;
            heard = heard.saturating_add(1);
        }
    }
    Ok(Answer::Told(heard))
}

fn join(model: &mut Model, guest: usize, channel: u64) -> Result<Answer, NoMemory> {
    if model.is_in(guest, channel) {
        return Ok(Says("refused 51 OnList"));
    }
    if model.count_channels(guest) >= MOST_CHANNELS {
        return Ok(Says("refused 40 ListFull"));
    }
    model.channels.push((guest, channel))?;
    Ok(Says("Ok."))
}

fn leave(model: &mut Model, guest: usize, channel: u64) -> Result<Answer, NoMemory> {
    if !model.is_in(guest, channel) {
        return Ok(Says("refused 39 NotInChannel"));
    }
    model.drop_channel(guest, channel)?;
    Ok(Says("Ok."))
}

/// Whether the other keeps the guest out of its games.
fn avoids(model: &Model, other: usize, guest: usize) -> bool {
    model.lists(other, Names::Noplay, guest) || model.lists(other, Names::Censor, guest)
}

fn challenge(
    model: &mut Model,
    guest: usize,
    other: usize,
    terms: usize,
) -> Result<Answer, NoMemory> {
    if other >= GUESTS {
        return Ok(Says("refused 32 NoSuchPlayer"));
    }
    if other == guest {
        return Ok(Says("refused 50 BadOpponent"));
    }
    if !model.wants(other, Wish::Open) || avoids(model, other, guest) {
        return Ok(Says("refused 36 Refuses"));
    }
    if model.is_full(other) {
        return Ok(Says("refused 49 QueueFull"));
    }
    model.drop_challenge(guest, other)?;
    model.challenges.push(Challenge {
        from: guest,
        to: other,
        terms,
    })?;
    send(model, other, guest, News::Challenges(terms))?;
    Ok(Says("Ok."))
}

fn decline(model: &mut Model, guest: usize, other: Option<usize>) -> Result<Answer, NoMemory> {
    let Some(offer) = model.offer_to(guest, other) else {
        return Ok(Says("refused 34 NoChallenge"));
    };
    model.drop_challenge(offer.from, guest)?;
    send(model, offer.from, guest, News::Declines)?;
    Ok(Says("Ok."))
}

fn withdraw(model: &mut Model, guest: usize, other: Option<usize>) -> Result<Answer, NoMemory> {
    let Some(offer) = model.offer_by(guest, other) else {
        return Ok(Says("refused 34 NoChallenge"));
    };
    model.drop_challenge(guest, offer.to)?;
    Ok(Says("Ok."))
}

fn set(model: &mut Model, guest: usize, wish: Wish, on: bool) -> Result<Answer, NoMemory> {
    model.set(guest, wish, on)?;
    Ok(Says("Ok."))
}

fn put(model: &mut Model, guest: usize, names: Names, name: usize) -> Result<Answer, NoMemory> {
    if model.lists(guest, names, name) {
        return Ok(Says("refused 51 OnList"));
    }
    model.listings.push(Listing {
        owner: guest,
        names,
        name,
    })?;
    Ok(Says("Ok."))
}

fn take(model: &mut Model, guest: usize, names: Names, name: usize) -> Result<Answer, NoMemory> {
    if !model.lists(guest, names, name) {
        return Ok(Says("refused 52 NotOnList"));
    }
    model.drop_name(guest, names, name)?;
    Ok(Says("Ok."))
}

fn ask(model: &mut Model, guest: usize, other: usize) -> Result<Answer, NoMemory> {
    if other >= GUESTS {
        return Ok(Says("refused 32 NoSuchPlayer"));
    }
    if other == guest {
        return Ok(Says("refused 50 BadOpponent"));
    }
    if model.partner_of(guest).is_some() || model.partner_of(other).is_some() {
        return Ok(Says("refused 38 HasPartner"));
    }
    if model.is_full(other) {
        return Ok(Says("refused 49 QueueFull"));
    }
    if model.has_asked(other, guest) {
        return join_pair(model, guest, other);
    }
    if !model.has_asked(guest, other) {
        model.asks.push((guest, other))?;
    }
    send(model, other, guest, News::OffersPartner)?;
    Ok(Says("Asked."))
}

/// The two who have asked one another are partners.
fn join_pair(model: &mut Model, guest: usize, other: usize) -> Result<Answer, NoMemory> {
    model.drop_asks(guest)?;
    model.drop_asks(other)?;
    model.pairs.push((other, guest))?;
    send(model, other, guest, News::IsPartner)?;
    Ok(Says("Ok."))
}

fn part(model: &mut Model, guest: usize) -> Result<Answer, NoMemory> {
    let Some(partner) = model.partner_of(guest) else {
        return Ok(Says("refused 37 NoPartner"));
    };
    model.drop_pair(guest)?;
    send(model, partner, guest, News::Parts)?;
    Ok(Says("Ok."))
}

fn ptell(model: &mut Model, guest: usize, text: u64) -> Result<Answer, NoMemory> {
    let Some(partner) = model.partner_of(guest) else {
        return Ok(Says("refused 37 NoPartner"));
    };
    if model.is_full(partner) {
        return Ok(Says("refused 49 QueueFull"));
    }
    send(model, partner, guest, News::TellsPartner(text))?;
    Ok(Says("(told 1)"))
}
