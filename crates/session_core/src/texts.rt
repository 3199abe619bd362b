//! What a session writes.
ghost use Rattle.std.specs.Prelude.{◌≡◌, ◌<◌, ◌++◌, [], All, OnOk, codes, decimal, length, slice_index_or};
ghost use Rattle.linked_desk.specs.Sound.{NamesWinner};
ghost use Rattle.one_server.specs.Replies.{IsReply};
ghost use Rattle.session_core.specs.Texts.{asked_line, asks_back, board_text, done_line, entered_line, is_to_move};
ghost use Rattle.session_core.specs.Texts.{item_text, items_text, line_end, lines_text, list_text, news_text, number_line};
ghost use Rattle.session_core.specs.Texts.{prompt_of, refusal_line, reply_text, shown_text, told_line, waiting_text};

use crate::reader::Reader;
use command_words::Style;
use fics_words::{Handle, Line, Lines, Refusal, write_number, write_refusal};
use linked_desk::{DeskReply, viewer_of};
use lobby_state::LobbyReply;
use memory::NoMemory;
use one_server::{PairReply, Reply};
use session_asks::{LinkMark, Standing};
use style12_writer::{BoardView, Item, board1, end_line, line_b1, line12};

/// The end of a line.
pub(crate) const LINE_END: &[u8] = b"\n\r";

/// Appends the line of a refusal.
pub(crate) fn put_refusal(cause: Refusal, out: &mut Vec<u8>) -> Result<(), NoMemory>
    ensures { OnOk result (out.new.items ≡ out.old.items ++ refusal_line cause) }
{
    write_refusal(out, cause)?;
    out.extend_from_slice(LINE_END)?;
    Ok(())
}

/// What stands at the end of an answer: a prompt, or a farewell.
pub(crate) fn prompt_of(standing: Standing) -> &'static [u8]
    ensures { result.now ≡ prompt_of standing }
{
    match standing {
        Standing::Login => b"login: ",
        Standing::Password(_) => b"password: ",
        Standing::In(_) => b"fics% ",
        Standing::Gone => b"Goodbye.\n\r",
    }
}

/// Appends what a reply prints.
pub(crate) fn put_reply(reply: &Reply, out: &mut Vec<u8>) -> Result<(), NoMemory>
    ensures { OnOk result (out.new.items ≡ out.old.items ++ reply_text reply.now) }
{
    match reply {
        Reply::Refused(cause) => put_refusal(*cause, out),
        Reply::Lobby(LobbyReply::Done) => put_done(out),
        Reply::Lobby(LobbyReply::Asked) => put_asked(out),
        Reply::Pair(PairReply::Asked) => put_asked(out),
        Reply::Lobby(LobbyReply::Entered(name)) => put_entered(*name, out),
        Reply::Lobby(LobbyReply::Number(number)) => put_number(*number, out),
        Reply::Lobby(LobbyReply::Lines(lines)) => put_list(lines, out),
        Reply::Lobby(LobbyReply::Told(count)) => put_told(*count, out),
        _ => Ok(()),
    }
}

/// Appends the line of what was done.
pub(crate) fn put_done(out: &mut Vec<u8>) -> Result<(), NoMemory>
    ensures { OnOk result (out.new.items ≡ out.old.items ++ done_line) }
{
    put_ended(b"Ok.", out)
}

/// Appends the line of what another was asked.
fn put_asked(out: &mut Vec<u8>) -> Result<(), NoMemory>
    ensures { OnOk result (out.new.items ≡ out.old.items ++ asked_line) }
{
    put_ended(b"Asked.", out)
}

/// Appends the line of a session that comes in.
fn put_entered(name: Handle, out: &mut Vec<u8>) -> Result<(), NoMemory>
    ensures { OnOk result (out.new.items ≡ out.old.items ++ entered_line name) }
{
    put_between(b"Entered as ", name.letters(), b".\n\r", out)
}

/// Appends the line that tells the number of a new seek.
fn put_number(number: u16, out: &mut Vec<u8>) -> Result<(), NoMemory>
    ensures { OnOk result (out.new.items ≡ out.old.items ++ number_line number) }
{
    put_count(b"Your seek is ", u64::from(number), b".\n\r", out)
}

/// Appends the lines of a list, or that there are none. The room for them is taken once.
fn put_list(lines: &Lines, out: &mut Vec<u8>) -> Result<(), NoMemory>
    ensures { OnOk result (out.new.items ≡ out.old.items ++ list_text lines.now) }
{
    if lines.len() == 0 {
        return put_none(out);
    }
    let ends = lines.len().saturating_mul(LINE_END.len());
    out.reserve(lines.count_bytes().saturating_add(ends))?;
    put_each(lines, out)
}

/// Appends the lines of a list, each with its end.
fn put_each(lines: &Lines, out: &mut Vec<u8>) -> Result<(), NoMemory>
    ensures { OnOk result (out.new.items ≡ out.old.items ++ lines_text lines.now) }
{
    for place in 0..lines.len() {
        put_at(lines, place, out)?;
    }
    Ok(())
}

/// Appends the line at `place` and its end.
fn put_at(lines: &Lines, place: usize, out: &mut Vec<u8>) -> Result<(), NoMemory>
    requires { place < length lines.now }
    ensures { OnOk result (out.new.items ≡ out.old.items ++ slice_index_or lines.now place [] ++ line_end) }
{
    match lines.get(place) {
        Some(line) => put_ended(line, out),
        None => Ok(()),
    }
}

/// Appends the line of a list without lines.
fn put_none(out: &mut Vec<u8>) -> Result<(), NoMemory>
    ensures { OnOk result (out.new.items ≡ out.old.items ++ codes "none" ++ line_end) }
{
    put_ended(b"none", out)
}

/// Appends the line of how many were told.
fn put_told(count: u16, out: &mut Vec<u8>) -> Result<(), NoMemory>
    ensures { OnOk result (out.new.items ≡ out.old.items ++ told_line count) }
{
    put_count(b"(told ", u64::from(count), b")\n\r", out)
}

/// Appends the lines that waited in the lobby.
pub(crate) fn put_waiting(reply: &Reply, out: &mut Vec<u8>) -> Result<(), NoMemory>
    ensures { OnOk result (out.new.items ≡ out.old.items ++ waiting_text reply.now) }
{
    match reply {
        Reply::Lobby(LobbyReply::Waiting { lines, .. }) => put_lines(lines.as_slice(), out),
        _ => Ok(()),
    }
}

/// Appends the news of a game.
pub(crate) fn put_news(reader: &Reader, reply: &Reply, out: &mut Vec<u8>) -> Result<(), NoMemory>
    requires { IsReply reply.now }
    ensures { OnOk result (out.new.items ≡ out.old.items ++ news_text reader.now reply.now) }
{
    match reply {
        Reply::Desk(DeskReply::Items { items, .. }) => put_items(reader, items.as_slice(), out),
        _ => Ok(()),
    }
}

/// Appends what a reply of a desk prints.
pub(crate) fn put_shown(reader: &Reader, reply: &Reply, out: &mut Vec<u8>) -> Result<(), NoMemory>
    requires { IsReply reply.now }
    ensures { OnOk result (out.new.items ≡ out.old.items ++ shown_text reader.now reply.now) }
{
    match reply {
        Reply::Desk(DeskReply::Items { items, .. }) => put_items(reader, items.as_slice(), out),
        _ => put_reply(reply, out),
    }
}

/// Appends lines, each with its end.
fn put_lines(lines: &[Line], out: &mut Vec<u8>) -> Result<(), NoMemory>
    ensures { OnOk result (out.new.items ≡ out.old.items ++ lines_text lines.now) }
{
    for line in lines {
        put_line(line, out)?;
    }
    Ok(())
}

/// Appends the lines of items.
fn put_items(reader: &Reader, items: &[Item], out: &mut Vec<u8>) -> Result<(), NoMemory>
    requires { All NamesWinner items.now }
    ensures { OnOk result (out.new.items ≡ out.old.items ++ items_text reader.now items.now) }
{
    for item in items {
        put_item(reader.style, reader.seat, item, out)?;
        ask_back(reader.link, reader.seat, item, out)?;
    }
    Ok(())
}

/// Appends the lines of an item for the player of a seat, or for who looks on.
fn put_item(style: Style, seat: Option<u8>, item: &Item, out: &mut Vec<u8>) -> Result<(), NoMemory>
    requires { NamesWinner item.now }
    ensures { OnOk result (out.new.items ≡ out.old.items ++ item_text style seat item.now) }
{
    match item {
        Item::Board(view) => put_board(style, seat, view, out),
        Item::Hold {
            game,
            white,
            black,
            came,
        } => put_ended(line_b1(*game, white, black, *came).bytes(), out),
        Item::Talk(line) => put_line(line, out),
        Item::End {
            view,
            why,
            winner,
            own: on_own,
        } => put_ended(end_line(view, *why, *winner, *on_own).bytes(), out),
    }
}

/// Appends a board in its style.
fn put_board(
    style: Style,
    seat: Option<u8>,
    view: &BoardView,
    out: &mut Vec<u8>,
) -> Result<(), NoMemory>
    ensures { OnOk result (out.new.items ≡ out.old.items ++ board_text style seat view.now) }
{
    match style {
        Style::One => {
            let lines = board1(*out.allocator(), view)?;
            put_lines(lines.as_slice(), out)
        }
        Style::Twelve => put_ended(line12(view, viewer_of(seat, view)).bytes(), out),
    }
}

/// Appends what asks a client that stamps its lines to acknowledge a board on which it is to move.
fn ask_back(
    link: LinkMark,
    seat: Option<u8>,
    item: &Item,
    out: &mut Vec<u8>,
) -> Result<(), NoMemory>
    ensures { OnOk result (out.new.items ≡ out.old.items ++ asks_back link seat item.now) }
{
    let LinkMark::Stamped = link else {
        return Ok(());
    };
    let Item::Board(view) = item else {
        return Ok(());
    };
    if is_to_move(viewer_of(seat, view).relation) {
        out.extend_from_slice(b"[G]\0")?;
    }
    Ok(())
}

/// Whether a board shows that the viewer plays and is to move.
fn is_to_move(relation: i8) -> bool
    ensures { result ≡ is_to_move relation }
{
    match relation {
        1 => true,
        _ => false,
    }
}

/// Appends a line and its end.
fn put_line(line: &Line, out: &mut Vec<u8>) -> Result<(), NoMemory>
    ensures { OnOk result (out.new.items ≡ out.old.items ++ line.now ++ line_end) }
{
    put_ended(line.bytes(), out)
}

/// Appends the bytes of a line and its end.
fn put_ended(bytes: &[u8], out: &mut Vec<u8>) -> Result<(), NoMemory>
    ensures { OnOk result (out.new.items ≡ out.old.items ++ bytes.now ++ line_end) }
{
    out.extend_from_slice(bytes)?;
    out.extend_from_slice(LINE_END)?;
    Ok(())
}

/// Appends bytes between two others.
pub(crate) fn put_between(
    front: &[u8],
    middle: &[u8],
    end: &[u8],
    out: &mut Vec<u8>,
) -> Result<(), NoMemory>
    ensures { OnOk result (out.new.items ≡ out.old.items ++ front.now ++ middle.now ++ end.now) }
{
    out.extend_from_slice(front)?;
    out.extend_from_slice(middle)?;
    out.extend_from_slice(end)?;
    Ok(())
}

/// Appends a decimal between two texts.
fn put_count(front: &[u8], count: u64, end: &[u8], out: &mut Vec<u8>) -> Result<(), NoMemory>
    ensures { OnOk result (out.new.items ≡ out.old.items ++ front.now ++ decimal count ++ end.now) }
{
    out.extend_from_slice(front)?;
    write_number(out, count)?;
    out.extend_from_slice(end)?;
    Ok(())
}
