//! The names of guests.

ghost use Rattle.std.specs.Prelude.{◌≡◌, ℕ, ◌+◌, ◌<◌, List, length};
ghost use Rattle.login_handles.specs.Guests.{GuestsAreLeast, GuestsInOrder, IsLeastFree, guest_among, guest_of, is_taken};

use fics_words::{Handle, HandleKey};

/// Names that are in use, each found by its key.
pub trait NamesInUse {
    /// The keys of these names.
    ghost keys: { Self → List (List ℕ) };

    /// Whether one of the names has this key.
    fn has(&self, key: HandleKey) -> bool
        ensures { result ≡ is_taken (keys self.now) key };
}

/// The name of the guest that enters next: the least of the guest names, `GuestAAAA`, `GuestAAAB` and so on to
/// `GuestZZZZ` in alphabetical order, that isn't in use.
pub fn guest_name<N: NamesInUse>(names: &N) -> Handle
    requires { length (N.keys names.now) < 456976 }
    ensures least { IsLeastFree (N.keys names.now) result }
    ensures among { result ≡ guest_among (N.keys names.now) }
{
    let mut number = 0;
    let mut name = numbered_guest(0);
    while names.has(name.key()) {
        number += 1;
        name = numbered_guest(number);
    }
    name
}

/// The names of guests stand in alphabetical order, and the one that enters next has the least that is free.
#[tactic(auto, using(crate::proofs::GuestNames::guests_are_least))]
pub fn guests_in_order()
    ensures order { GuestsInOrder }
    ensures least { GuestsAreLeast }
{}

/// The name of the guest of that number, from 0.
fn numbered_guest(number: u32) -> Handle
    requires { number < 456976 }
    ensures { result ≡ guest_of number }
{
    let letters = [
        b'G',
        b'u',
        b'e',
        b's',
        b't',
        letter(number / 26 / 26 / 26),
        letter(number / 26 / 26 % 26),
        letter(number / 26 % 26),
        letter(number % 26),
    ];
    Handle::read(&letters).unwrap()
}

/// The capital letter of that number, `A` for 0.
fn letter(number: u32) -> u8
    requires { number < 26 }
    ensures { result ≡ 65 + number }
{
    b'A' + number as u8
}
