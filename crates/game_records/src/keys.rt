//! The keys of the store.
ghost use Rattle.std.specs.Prelude.{◌≡◌, ◌≢◌, ◌∷◌, ◌≤◌, ◌<◌, ◌^◌, ℕ, IfOk, IfSome, IfNone};
ghost use Rattle.game_records.specs.Keys.{account_key, game_key};

use crate::bytes::Bytes;
use crate::numbers::{behind, byte_at, eight_in};
use fics_words::HandleKey;
use memory::NoMemory;
use std::alloc::Global;

/// What the key of an account begins with.
const ACCOUNT: u8 = b'a';

/// What the key of a game begins with.
const GAME: u8 = b'g';

/// The length of a game's key.
const GAME_KEY: usize = 9;

/// The key of the account of the handle with this key.
pub fn account_key(alloc: Global, name: HandleKey) -> Result<Bytes, NoMemory>
    ensures { IfOk result (λ key. key ≡ account_key name) }
{
    key_with(alloc, ACCOUNT, name.letters())
}

/// The key of the stored game of this number, which is from 1 on.
#[tactic(auto, unfolding(crate::specs::Numbers::eight_bytes))]
pub fn game_key(alloc: Global, number: u64) -> Result<Bytes, NoMemory>
    requires { 1 ≤ number }
    ensures { IfOk result (λ key. key ≡ game_key number) }
{
    key_with(alloc, GAME, &number.to_be_bytes())
}

/// The key that begins with this byte and goes on so.
fn key_with(alloc: Global, first: u8, rest: &[u8]) -> Result<Bytes, NoMemory>
    ensures { IfOk result (λ key. key ≡ first ∷ rest.now) }
{
    let mut out = Vec::new(alloc);
    out.push(first)?;
    out.extend_from_slice(rest)?;
    Ok(Bytes::of(out))
}

/// The number of the game whose key this is; `None` exactly where it is the key of no game.
pub fn game_number(key: &[u8]) -> Option<u64>
    ensures number { IfSome result (λ number. 1 ≤ number) }
    ensures value { IfSome result (λ number. key.now ≡ game_key number) }
    ensures none { IfNone result ((number : ℕ) → 1 ≤ number → number < 2 ^ 64 → key.now ≢ game_key number) }
{
    if key.len() != GAME_KEY {
        return None;
    }
    let first = byte_at(key, 0);
    if first != GAME {
        return None;
    }
    let number = eight_in(behind(key, 1));
    if number == 0 {
        return None;
    }
    Some(number)
}
