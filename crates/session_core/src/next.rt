//! What a session does next.

use crate::stage::Stage;
use one_server::Act;
use std::mem::size_of;

/// What comes next: an act, and the stage at which its reply is awaited; the visits of all games, behind which nothing
/// comes; or nothing more.
#[derive(Drop)]
pub(crate) enum Next {
    Ask(Act, Stage),
    Visits,
    End,
}

const _: () = prove!(size_of::<Next>() <= 192);
