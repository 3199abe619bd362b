//! What a session does first for an input.

use crate::next::Next;

/// What comes first: the session leaves, since it was asked to quit; or it goes on.
#[derive(Drop)]
pub(crate) enum First {
    Leaving,
    Going(Next),
}
