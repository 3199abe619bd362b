//! Handles: the names of players, and the keys by which they are compared.

ghost use Rattle.std.specs.Prelude.{◌≡◌, ◌≤◌, Some, SomeIff, bytes_eq, length, refl};
ghost use Rattle.std.specs.Cmp.{partial_equiv_from_equiv};
ghost use Rattle.std.proofs.Common.{ap};
ghost use Rattle.std.specs.Hash as fed;
ghost use Rattle.std.specs.Cmp.Lexicographic.{bytes_decides, slice_cmp, nat_list_eq_equiv, nat_list_cmp_total, texts_po, texts_ties};
ghost use Rattle.std.specs.Ordering.{nat_cmp};
ghost use Rattle.fics_words.specs.Handle.{IsHandle, key_of, most_handle_letters, padded};

use memory::{Duplicate, NoMemory};
use std::cmp::Ordering;
use std::hash::{Hash, Hasher};
use std::marker::Model;

/// The fewest letters of a handle.
const FEWEST: usize = 3;

/// The most letters of a handle.
pub const MOST_HANDLE_LETTERS: usize = 17;

/// A player's name, 3 to 17 ASCII letters, in the spelling that the player chose. Contracts see the list of
/// its letters. Two handles name one player where their keys are equal; `==` compares the spelling.
#[derive(Clone, Copy, Debug)]
pub struct Handle {
    bytes: [u8; MOST_HANDLE_LETTERS],
    len: usize,
}

impl Model for Handle {
    ghost use Rattle.std.specs.Prelude.{List, ℕ, take, length};
    ghost use Rattle.fics_words.specs.Handle.{HoldsHandle, padded};

    ghost Value = { List ℕ };

    ghost view = { λ handle. take handle.len handle.bytes };

    ghost invariant = { λ handle. HoldsHandle handle.bytes handle.len };

    ghost inverse = { λ letters. record { bytes = padded letters; len = length letters } };
}

/// The letters of a handle in lower case, by which handles are compared.
#[derive(Clone, Copy, Debug)]
pub struct HandleKey {
    letters: Handle,
}

impl Model for HandleKey {
    ghost use Rattle.std.specs.Prelude.{List, ℕ, ◌≡◌};
    ghost use Rattle.fics_words.specs.Handle.{key_of};

    ghost Value = { List ℕ };

    ghost view = { λ key. key.letters };

    ghost invariant = { λ key. key_of key.letters ≡ key.letters };

    ghost inverse = { λ letters. record { letters = letters } };
}

impl Handle {
    /// Reads a handle: the handle of these letters, exactly where they are 3 to 17 ASCII letters.
    pub fn read(bytes: &[u8]) -> Option<Handle>
        ensures { SomeIff result (IsHandle bytes.now) bytes.now }
    {
        if bytes.len() < FEWEST
            || bytes.len() > MOST_HANDLE_LETTERS
            || !bytes.iter().all(|byte| byte.is_ascii_alphabetic())
        {
            return None;
        }
        Some(Handle {
            bytes: field_of(bytes),
            len: bytes.len(),
        })
    }

    /// The letters, as the player spells them.
    pub fn letters(&self) -> &[u8]
        ensures letters { result.now ≡ self.now }
        ensures handle { IsHandle self.now }
    {
        &self.bytes[..self.len]
    }

    /// The key by which this handle is compared with others.
    pub fn key(&self) -> HandleKey
        ensures { result ≡ key_of self.now }
    {
        let mut bytes = self.bytes;
        bytes.make_ascii_lowercase();
        HandleKey {
            letters: Handle {
                bytes,
                len: self.len,
            },
        }
    }
}

impl HandleKey {
    /// The letters, all in lower case.
    pub fn letters(&self) -> &[u8]
        ensures letters { result.now ≡ self.now }
        ensures handle { IsHandle self.now }
        ensures lower { key_of self.now ≡ self.now }
    {
        self.letters.letters()
    }
}

impl PartialEq for Handle {
    ghost eq = { bytes_eq };

    ghost laws = { partial_equiv_from_equiv nat_list_eq_equiv };

    fn eq(&self, other: &Handle) -> bool {
        self.letters() == other.letters()
    }
}

impl Eq for Handle {
    ghost laws = { nat_list_eq_equiv };
}

impl PartialEq for HandleKey {
    ghost eq = { bytes_eq };

    ghost laws = { partial_equiv_from_equiv nat_list_eq_equiv };

    fn eq(&self, other: &HandleKey) -> bool {
        self.letters() == other.letters()
    }
}

impl Eq for HandleKey {
    ghost laws = { nat_list_eq_equiv };
}

impl PartialOrd for HandleKey {
    ghost partial_cmp = { λ a b. Some (slice_cmp nat_cmp a b) };

    ghost laws = { texts_po };

    fn partial_cmp(&self, other: &HandleKey) -> Option<Ordering> {
        Some(self.cmp(other))
    }
}

impl Ord for HandleKey {
    ghost cmp = { slice_cmp nat_cmp };

    ghost total = { nat_list_cmp_total };

    ghost matches_partial_cmp = { λ a b. refl };

    ghost matches_eq = { texts_ties };

    fn cmp(&self, other: &HandleKey) -> Ordering {
        self.letters().cmp(other.letters())
    }
}

impl Hash for HandleKey {
    ghost hash_input = { fed.slice fed.u8 };

    ghost respects_eq = { λ x y same. ap (fed.slice fed.u8) ((bytes_decides x y).0 same) };

    fn hash<H: Hasher>(&self, state: &mut H) {
        self.letters().hash(state);
    }
}

impl Duplicate for Handle {
    /// Takes no memory.
    fn duplicate(&self) -> Result<Handle, NoMemory>
        ensures { result ≡ Ok self.now }
    {
        Ok(*self)
    }
}

impl Duplicate for HandleKey {
    /// Takes no memory.
    fn duplicate(&self) -> Result<HandleKey, NoMemory>
        ensures { result ≡ Ok self.now }
    {
        Ok(*self)
    }
}

/// The letters in a field of 17 bytes, and zeros behind them.
fn field_of(letters: &[u8]) -> [u8; MOST_HANDLE_LETTERS]
    requires { length letters.now ≤ most_handle_letters }
    ensures { result ≡ padded letters.now }
{
    let mut field = [0; MOST_HANDLE_LETTERS];
    field[..letters.len()].copy_from_slice(letters);
    field
}
