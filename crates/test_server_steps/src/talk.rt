//! What comes from players, as sessions take it, and what the sessions write: what the tests of sessions, of the hall
//! and of the store share.
//!
//! It promises nothing of what is written, which a test shows by running; an input that it makes fits a session.

mod comes;
mod rows;
mod stamped;

pub use self::comes::{Comes, answered, input_of, taken};
pub use self::rows::{Row, answers, first_failing, taken_at};
pub use self::stamped::STAMPED_GAME;
