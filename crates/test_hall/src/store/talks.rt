//! What comes from a player, and what the player's session has to write.

use fics_words::Fail;
use one_server::Runner;
use session_core::Session;
use std::alloc::Global;
use test_server_steps::talk::{Comes, answered};

/// Who plays; the sessions of the four are 1 to 4.
#[derive(Clone, Copy)]
pub enum Player {
    Ann,
    Ben,
    Cat,
    Dan,
}

impl Player {
    /// The number of the player's session.
    pub fn number(self) -> u32 {
        match self {
            Player::Ann => 1,
            Player::Ben => 2,
            Player::Cat => 3,
            Player::Dan => 4,
        }
    }
}

/// A row: the player, the moment in milliseconds, what comes, and what the session has to write, in pieces.
#[derive(Clone, Copy)]
pub struct Row(pub Player, pub u32, pub Comes, pub &'static [&'static [u8]]);

/// What stands behind the answer to a line.
pub const PROMPT: &[u8] = b"fics% ";

/// What asks for the password of an account.
pub const PASSWORD: &[u8] = b"password: ";

/// The answer to a command that has nothing else to say.
pub const DONE: &[u8] = b"Ok.\n\r";

/// The answer to somebody whose wish waits for somebody else's.
pub const ASKED: &[u8] = b"Asked.\n\r";

/// Whether the session writes at its seat what the row says.
pub fn answers<R: Runner>(
    alloc: Global,
    seat: &mut R,
    session: &mut Session,
    row: &Row,
) -> Result<bool, Fail> {
    let wrote = answered(alloc, seat, session, row.1, row.2)?;
    Ok(is_written(wrote.as_slice(), row.3))
}

/// Whether the bytes are these pieces, one behind the other.
fn is_written(bytes: &[u8], pieces: &[&[u8]]) -> bool {
    let mut left = bytes;
    for piece in pieces {
        let Some(behind) = left.strip_prefix(piece) else {
            return false;
        };
        left = behind;
    }
    left.is_empty()
}
