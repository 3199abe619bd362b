//! Stamped lines: what a client says, with the moment on its own clock, in a spelling that only clients write.
//!
//! A line says a text or an acknowledgement and a stamp. It is spelled by pads, swaps and a key, after the lines of the
//! openseal client for FICS; no agreement with a published client is claimed.
//!
//! The contract: `unseal` gives a message exactly where the bytes are the spelling of one, and `seal` writes that
//! spelling. Each message has one spelling, and each spelling one message.
#![tactic(auto)]

mod cipher;
mod groups;
mod laws;
mod plain;
mod reading;
mod sealed;
mod writing;

pub use clock_ledger::{STAMP_CYCLE, span};
pub use laws::{one_message, whole_groups};
pub use reading::unseal;
pub use sealed::Sealed;
pub use writing::seal;
