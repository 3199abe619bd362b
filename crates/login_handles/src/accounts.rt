//! Accounts: the registered handles and their passwords' digests.

ghost use Rattle.fics_words.specs.Handle.{key_of};

use crate::check::Check;
use fics_words::{Account, Digest, Fail, Handle, HandleKey, Refusal};
use std::alloc::Global;
use std::marker::Model;
use tables::{Keyed, Table};

/// The most accounts.
const MOST: usize = 4_096;

/// What an account is found by: the key of its handle.
#[derive(Clone, Copy, PartialEq, Eq, Hash)]
struct AccountKey {
    name: HandleKey,
}

impl Keyed<AccountKey> for Account {
    ghost key_of = { λ account. record { name = key_of account.name } };

    fn key(&self) -> AccountKey {
        AccountKey {
            name: self.name.key(),
        }
    }
}

/// The accounts of a server, in the order in which they were made. Contracts see the list of them.
#[derive(Drop)]
pub struct Accounts {
    rows: Table<AccountKey, Account>,
}

impl Model for Accounts {
    ghost use Rattle.std.specs.Prelude.{List};
    ghost use Rattle.fics_words.specs.declared.account.Account.{Account};
    ghost use Rattle.login_handles.specs.Accounts.{AreAccounts};

    ghost Value = { List Account };

    ghost view = { λ accounts. accounts.rows };

    ghost invariant = { λ accounts. AreAccounts accounts.rows };
}

impl Accounts {
    ghost use Rattle.std.specs.Prelude.{◌≡◌, []};
    ghost use Rattle.fics_words.specs.Effect.{Takes};
    ghost use Rattle.login_handles.specs.Accounts.{AreAccounts, account_of, check_of, registering};

    /// No accounts; takes no memory.
    pub fn new(alloc: Global) -> Accounts
        ensures { result ≡ [] }
    {
        Accounts {
            rows: Table::new(alloc),
        }
    }

    /// What a login under this name finds with this digest, or with none.
    pub fn check(&self, name: HandleKey, digest: Option<Digest>) -> Check
        ensures { result ≡ check_of (account_of self.now name) digest }
    {
        let Some(account) = self.get(name) else {
            return Check::Free;
        };
        let Some(digest) = digest else {
            return Check::NeedPassword;
        };
        if digest == account.digest {
            Check::Right
        } else {
            Check::Wrong
        }
    }

    /// The account of the handle that has this key, if there is one.
    pub fn get(&self, name: HandleKey) -> Option<Account>
        ensures { result ≡ account_of self.now name }
    {
        self.rows.get(AccountKey { name }).copied()
    }

    /// Makes an account of the handle, behind the others. Refuses with `AlreadyRegistered` where the handle has one,
    /// and else with `AccountsFull` where there are 4,096.
    pub fn add(&mut self, name: Handle, digest: Digest) -> Result<(), Fail>
        ensures { Takes (registering self.old name digest) self.old self.new result }
    {
        if self.get(name.key()).is_some() {
            return Err(Fail::Refused(Refusal::AlreadyRegistered));
        }
        if self.rows.len() >= MOST {
            return Err(Fail::Refused(Refusal::AccountsFull));
        }
        self.rows.push(Account { name, digest })?;
        Ok(())
    }

    /// The accounts, in the order in which they were made.
    pub fn rows(&self) -> &[Account]
        ensures rows { result.now ≡ self.now }
        ensures accounts { AreAccounts self.now }
    {
        self.rows.as_slice()
    }
}
