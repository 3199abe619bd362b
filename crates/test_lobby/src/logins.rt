//! Accounts as a store loads them, and who comes in under one.

use crate::login_steps::{Login, Met, first_failing_login_anew};
use crate::steps::DONE;
use std::test::Fail;

const LOADED_ACCOUNTS: &[Login] = &[
    Login::Load(b"Ann", 1, DONE),
    Login::Load(b"aNN", 2, 48),
    Login::Load(b"guestaaab", 3, DONE),
    Login::Name(1, b"ann", Met::Asked),
    Login::Password(1, b"ann", 2, Met::Refused(23)),
    Login::Password(1, b"anN", 1, Met::As(b"Ann")),
    Login::Name(2, b"ANN", Met::Refused(24)),
    Login::Password(2, b"ANN", 2, Met::Refused(24)),
    Login::Password(1, b"Ben", 2, Met::Refused(24)),
    Login::Guest(2, Met::As(b"GuestAAAA")),
    Login::Guest(2, Met::Refused(24)),
    Login::Guest(3, Met::As(b"GuestAAAC")),
    Login::Bye(1),
    Login::Register(1, 1, 54),
    Login::Accounts(2),
];

#[test]
fn loaded_accounts(rt: HostRuntime) -> Result<(), Fail> {
    assert_eq!(rt;
        first_failing_login_anew(rt.alloc(), LOADED_ACCOUNTS)?,
        None
    );
    Ok(())
}
