//! For whom the items of a game are written.

use command_words::Style;
use session_asks::LinkMark;

/// For whom the items of a game are written.
#[derive(Clone, Copy)]
pub(crate) struct Reader {
    /// What is known of the session's link.
    pub(crate) link: LinkMark,
    /// How boards are printed.
    pub(crate) style: Style,
    /// The session's seat; None where it looks on.
    pub(crate) seat: Option<u8>,
}
