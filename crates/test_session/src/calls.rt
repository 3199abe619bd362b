//! The calls of a player's link on one evening. A link is greeted first, and then each input is read, and is answered
//! before the link is read again: its calls write and read in turns.

use link_core::LinkEnd;
use memory::NoMemory;
use std::alloc::Global;

/// A call of a link: one that reads, or one that writes this.
#[derive(Clone, Copy)]
enum Call {
    Reads,
    Writes(&'static [u8]),
}

/// The calls of Alice's link, where none fails. She seeks a game, which Bob takes; she moves; she tells Bob something
/// once he has moved; he resigns, which she reads in a pause; and she quits.
const CALLS: &[Call] = &[
    Call::Writes(b"Free Internet Chess Server profile\n\rlogin: "),
    Call::Reads,
    Call::Writes(b"Entered as Alice.\n\rfics% "),
    Call::Reads,
    Call::Writes(b"Your seek is 1.\n\rfics% "),
    Call::Reads,
    Call::Writes(
        b"{Game 1 (Alice vs. Bob) Creating 5 0 chess match.}\n\r\
          <12> rnbqkbnr pppppppp -------- -------- -------- -------- PPPPPPPP RNBQKBNR W -1 1 1 1 1 0 1 \
          Alice Bob 1 5 0 39 39 300 300 1 none (0:00) none 0\n\r\
          <12> rnbqkbnr pppppppp -------- -------- ----P--- -------- PPPP-PPP RNBQKBNR B 4 1 1 1 1 0 1 \
          Alice Bob -1 5 0 39 39 300 300 1 P/e2-e4 (0:00) e4 0\n\r\
          fics% ",
    ),
    Call::Reads,
    Call::Writes(
        b"(told 1)\n\r\
          <12> rnbqkbnr pppp-ppp -------- ----p--- ----P--- -------- PPPP-PPP RNBQKBNR W 4 1 1 1 1 0 1 \
          Alice Bob 1 5 0 39 39 300 300 2 P/e7-e5 (0:00) e5 0\n\r\
          fics% ",
    ),
    Call::Reads,
    Call::Writes(b"\n\r{Game 1 (Alice vs. Bob) Bob resigns} 1-0\n\rfics% "),
    Call::Reads,
    Call::Writes(b"Goodbye.\n\r"),
];

/// How the link ends whose call of this number fails: by its kind, or where it makes no such call by quitting.
pub fn end_at(call: usize) -> LinkEnd {
    match CALLS.get(call) {
        Some(Call::Reads) => LinkEnd::ReadFault,
        Some(Call::Writes(_)) => LinkEnd::WriteFault,
        None => LinkEnd::Quit,
    }
}

/// What is written before the call of this number.
pub fn written_before(alloc: Global, call: usize) -> Result<Vec<u8>, NoMemory> {
    let mut text = Vec::new(alloc);
    for made in CALLS.iter().take(call) {
        match made {
            Call::Reads => {}
            Call::Writes(bytes) => text.extend_from_slice(bytes)?,
        }
    }
    Ok(text)
}
