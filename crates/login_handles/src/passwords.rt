//! Digests of passwords.

ghost use Rattle.std.specs.Prelude.{◌≡◌};
ghost use Rattle.sha2.specs.Sha256.{sha256};

use fics_words::Digest;
use sha2::{Digest as Hasher, Sha256};

/// The SHA-256 digest (FIPS 180-4) of a password's bytes, which is all that is kept of it.
pub fn digest_of(password: &[u8]) -> Digest
    ensures { result ≡ sha256 password.now }
{
    let mut hasher = Sha256::new();
    hasher.update(password);
    hasher.finalize()
}
