//! What a login finds.

/// What the accounts say of a name and a password's digest.
#[derive(Clone, Copy, PartialEq, Eq)]
pub enum Check {
    /// The handle has no account: whoever asks enters unregistered.
    Free,
    /// The handle has an account, and no digest was given.
    NeedPassword,
    /// The digest is that of the account.
    Right,
    /// The digest is another than that of the account.
    Wrong,
}
