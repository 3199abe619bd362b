//! Who may enter under which name: accounts with the digests of their passwords, and the names of guests.
//!
//! The contract: accounts are a list in which each handle has at most one, found by the handle's key; a password is
//! kept as its SHA-256 digest alone; a guest gets the least name of all guest names, in alphabetical order, that nobody
//! has.
#![tactic(auto)]

mod accounts;
mod check;
mod guests;
mod passwords;

pub use accounts::Accounts;
pub use check::Check;
pub use guests::{NamesInUse, guest_name};
pub use passwords::digest_of;
