//! Accounts in records.
ghost use Rattle.std.specs.Prelude.{◌≡◌, ◌++◌, IfSome, IfNone, OnOk, length, take};
ghost use Rattle.fics_words.specs.Handle.{IsHandle};
ghost use Rattle.game_records.specs.Reading.{account_in};
ghost use Rattle.game_records.specs.Spelling.{account_text};

use crate::bytes::write_bytes;
use crate::names::{behind_name, name_in, write_name};
use crate::numbers::behind;
use fics_words::{Account, Digest};
use memory::NoMemory;

/// What an account's record begins with.
const HEAD: &[u8; 2] = b"\x01\x41";

/// Appends the account.
pub(crate) fn write_account(out: &mut Vec<u8>, account: &Account) -> Result<(), NoMemory>
    ensures { OnOk result (out.new.items ≡ out.old.items ++ account_text account.now) }
{
    write_bytes(out, HEAD)?;
    write_name(out, &account.name)?;
    write_bytes(out, &account.digest)
}

/// The account that the bytes may be the record of, where the name is a handle and the digest is whole.
pub(crate) fn account_in(bytes: &[u8]) -> Option<Account>
    ensures value { IfSome result (λ account. account ≡ account_in bytes.now) }
    ensures handle { IfSome result (λ account. IsHandle account.name) }
    ensures whole { IfSome result (λ account. length account.digest ≡ 32) }
    ensures none { IfNone result (IsHandle (account_in bytes.now).name → length (account_in bytes.now).digest ≡ 32
        → ⊥) }
{
    let text = behind(bytes, HEAD.len());
    let name = name_in(text)?;
    let digest = digest_in(behind_name(text))?;
    Some(Account { name, digest })
}

/// The digest of the first 32 bytes, where there are so many.
fn digest_in(bytes: &[u8]) -> Option<Digest>
    ensures value { IfSome result (λ digest. digest ≡ take 32 bytes.now) }
    ensures none { IfNone result (length (take 32 bytes.now) ≡ 32 → ⊥) }
{
    if bytes.len() < 32 {
        return None;
    }
    let mut digest = [0; 32];
    digest.copy_from_slice(&bytes[..32]);
    Some(digest)
}
