//! Accounts, passwords and guests.

use fics_words::{Digest, Fail as Refused, Handle, HandleKey, Refusal};
use login_handles::{Accounts, Check, NamesInUse, digest_of, guest_name};
use std::alloc::Global;
use std::test::Fail;
use test_steps::{assert_rows, first_wrong};

/// The two hexadecimal digits of a byte as they are written.
fn digits(byte: u8) -> [u8; 2] {
    let hexadecimal = b"0123456789abcdef";
    [
        hexadecimal[(byte / 16) as usize],
        hexadecimal[(byte % 16) as usize],
    ]
}

/// Whether the digest is written so, in hexadecimal digits.
fn is_written(digest: &Digest, text: &[u8]) -> bool {
    for (byte, pair) in digest.iter().zip(text.chunks(2)) {
        if pair != digits(*byte).as_slice() {
            return false;
        }
    }
    true
}

/// The digest of a password.
fn digest(password: &[u8]) -> Digest {
    digest_of(password)
}

const ABC: &[u8] = b"ba7816bf8f01cfea414140de5dae2223b00361a396177a9cb410ff61f20015ad";

/// Passwords, texts, and whether the password's digest is written so.
const DIGESTS: &[(&[u8], &[u8], bool)] = &[
    (b"abc", ABC, true),
    (
        b"",
        b"e3b0c44298fc1c149afbf4c8996fb92427ae41e4649b934ca495991b7852b855",
        true,
    ),
    (b"abd", ABC, false),
];

#[test]
fn digests_are_those_of_the_standard(rt: HostRuntime) {
    assert_rows!(rt; DIGESTS, |(password, text, same)| {
        is_written(&digest(password), text) == *same
    });
}

/// Calls of accounts. They ensure nothing, so that nothing above them is proved over what accounts do.
fn check(accounts: &Accounts, name: HandleKey, digest: Option<Digest>) -> Check {
    accounts.check(name, digest)
}

fn add(accounts: &mut Accounts, name: Handle, digest: Digest) -> Result<(), Refused> {
    accounts.add(name, digest)
}

/// A call of accounts, and what it has to come to.
enum Step {
    /// A login under a name with a password, if there is one, and what it is met by.
    Login(&'static [u8], Option<&'static [u8]>, Check),
    /// An account is made of a name and a password, or refused.
    Add(&'static [u8], &'static [u8], Option<Refusal>),
    /// There is one account, of this name.
    Alone(&'static [u8]),
}

const STEPS: &[Step] = &[
    Step::Login(b"ann", None, Check::Free),
    Step::Login(b"ann", Some(b"abc"), Check::Free),
    Step::Add(b"Ann", b"abc", None),
    Step::Login(b"ANN", None, Check::NeedPassword),
    Step::Login(b"ann", Some(b"abd"), Check::Wrong),
    Step::Login(b"aNn", Some(b"abc"), Check::Right),
    Step::Login(b"anna", None, Check::Free),
    Step::Add(b"aNN", b"x y ", Some(Refusal::AlreadyRegistered)),
    Step::Alone(b"Ann"),
];

fn maybe_digest(password: Option<&[u8]>) -> Option<Digest> {
    match password {
        Some(password) => Some(digest(password)),
        None => None,
    }
}

fn is_met(accounts: &Accounts, name: &[u8], password: Option<&[u8]>, wanted: Check) -> bool {
    match Handle::read(name) {
        Some(name) => check(accounts, name.key(), maybe_digest(password)) == wanted,
        None => false,
    }
}

fn adds(accounts: &mut Accounts, name: &[u8], password: &[u8], wanted: Option<Refusal>) -> bool {
    let Some(name) = Handle::read(name) else {
        return false;
    };
    match add(accounts, name, digest(password)) {
        Ok(()) => wanted.is_none(),
        Err(Refused::Refused(cause)) => wanted == Some(cause),
        Err(Refused::Memory) => false,
    }
}

fn is_alone(accounts: &Accounts, name: &[u8]) -> bool {
    match accounts.rows() {
        [account] => account.name.letters() == name,
        _ => false,
    }
}

fn is_as_said(accounts: &mut Accounts, step: &Step) -> bool {
    match step {
        Step::Login(name, password, wanted) => is_met(accounts, name, *password, *wanted),
        Step::Add(name, password, wanted) => adds(accounts, name, password, *wanted),
        Step::Alone(name) => is_alone(accounts, name),
    }
}

/// The place of the first step that comes to something else, if one does.
fn first_failing(accounts: &mut Accounts) -> Option<usize> {
    first_wrong!(STEPS, |step| is_as_said(accounts, step))
}

fn first_failing_anew(alloc: Global) -> Option<usize> {
    let mut accounts = Accounts::new(alloc);
    first_failing(&mut accounts)
}

#[test]
fn an_account_guards_its_handle(rt: HostRuntime) {
    assert_eq!(rt; first_failing_anew(rt.alloc()), None);
}

/// Names in use, by their keys.
#[derive(Drop)]
struct Keys(Vec<HandleKey>);

impl NamesInUse for Keys {
    ghost keys = { λ keys. keys.0.items };

    fn has(&self, key: HandleKey) -> bool {
        self.0.contains(&key)
    }
}

/// Names that are taken, and the name of the next guest. In the fourth row the first guest has left, and its name is
/// free again.
const GUESTS: &[(&[&[u8]], &[u8])] = &[
    (&[], b"GuestAAAA"),
    (&[b"Ann", b"GuestAAAA"], b"GuestAAAB"),
    (&[b"guestaaab", b"GuestAAAA"], b"GuestAAAC"),
    (&[b"guestaaab", b"GUESTAAAC"], b"GuestAAAA"),
    (&[b"GUESTAAAC", b"GuestAAAA"], b"GuestAAAB"),
];

fn put_keys(keys: &mut Vec<HandleKey>, names: &[&[u8]]) -> Result<(), Fail> {
    for letters in names {
        let name = Handle::read(letters).ok_or("a handle")?;
        keys.push(name.key())?;
    }
    Ok(())
}

/// Whether the next guest gets this name.
fn is_next(alloc: Global, taken: &[&[u8]], name: &[u8]) -> Result<bool, Fail> {
    let mut keys = Vec::new(alloc);
    put_keys(&mut keys, taken)?;
    Ok(is_guest(&Keys(keys), name))
}

fn is_guest(keys: &Keys, name: &[u8]) -> bool {
    keys.0.len() <= 2 && guest_name(keys).letters() == name
}

#[test]
fn a_guest_has_the_least_free_name(rt: HostRuntime) -> Result<(), Fail> {
    assert_rows!(rt; GUESTS, |(taken, name)| is_next(rt.alloc(), taken, name)?);
    Ok(())
}
