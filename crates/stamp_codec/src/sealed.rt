//! What a stamped line says.

/// The message of a stamped line. Stamps are milliseconds on the client's clock, below 10,000,000.
#[derive(Clone, Copy)]
pub enum Sealed<'a> {
    /// A text of at most 1,023 bytes, each from 0x20 to 0x7E.
    Text { text: &'a [u8], stamp: u32 },
    /// The client has received what the server sent last.
    Ack { stamp: u32 },
}
