//! Where a session stands, and what its link is.

use fics_words::Handle;

/// Where a session stands between its opening and its end.
#[derive(Clone, Copy)]
pub enum Standing {
    /// It is asked for a name.
    Login,
    /// It is asked for the password of this handle.
    Password(Handle),
    /// It has entered under this handle.
    In(Handle),
    /// It has left.
    Gone,
}

/// What is known of a session's link.
#[derive(Clone, Copy)]
pub enum LinkMark {
    /// No line has come yet.
    Fresh,
    /// The first line was no greeting.
    Plain,
    /// The first line was the greeting: the client stamps its lines.
    Stamped,
}
