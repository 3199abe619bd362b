//! The accounts of a server that has as many as it holds.

use fics_words::{Digest, Fail as Refused, Handle, Refusal};
use login_handles::Accounts;
use std::alloc::Global;
use test_steps::{first_wrong, least_wrong};

/// As many accounts as a server holds.
const MOST: u64 = 4_096;

const DIGEST: Digest = [7; 32];

/// A name of four letters for each number up to 17,575.
fn name_of(number: u64) -> Option<Handle> {
    let name = [
        b'x',
        letter(number / 676),
        letter(number / 26),
        letter(number),
    ];
    Handle::read(&name)
}

/// The letter of that number, counted from 0 and round again behind the last one.
fn letter(number: u64) -> u8 {
    b'a' + (number % 26) as u8
}

/// Makes the account of that number, and tells why none was made. It ensures nothing, so that nothing above it is
/// proved over what making does.
fn refusal(accounts: &mut Accounts, number: u64) -> Option<Refusal> {
    match accounts.add(name_of(number)?, DIGEST) {
        Err(Refused::Refused(refusal)) => Some(refusal),
        _ => None,
    }
}

/// The first of the accounts up to that number that is refused, if one is.
fn first_refused(accounts: &mut Accounts, count: u64) -> Option<u64> {
    least_wrong!(0..count, |number| refusal(accounts, number).is_none())
}

/// The calls behind those that make as many accounts as there may be: the number of each, and why it is refused.
const BEHIND: &[(u64, Refusal)] = &[
    (MOST, Refusal::AccountsFull),
    (0, Refusal::AlreadyRegistered),
];

fn first_wrong_behind(accounts: &mut Accounts) -> Option<usize> {
    first_wrong!(
        BEHIND,
        |(number, cause)| refusal(accounts, *number) == Some(*cause)
    )
}

/// Whether as many accounts are made, and none behind them.
fn is_filled(accounts: &mut Accounts) -> bool {
    first_refused(accounts, MOST).is_none()
        && first_wrong_behind(accounts).is_none()
        && accounts.rows().len() as u64 == MOST
}

fn is_filled_anew(alloc: Global) -> bool {
    let mut accounts = Accounts::new(alloc);
    is_filled(&mut accounts)
}

#[test]
fn the_account_behind_4096_is_refused(rt: HostRuntime) {
    assert!(rt; is_filled_anew(rt.alloc()));
}
