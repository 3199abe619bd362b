//! Connections.

use crate::sink::Sent;

/// What a read of a link gave.
#[derive(Clone, Copy, PartialEq, Eq)]
pub enum Heard {
    /// So many bytes, at least 1, which the buffer now begins with.
    Bytes(usize),
    /// Nothing came within the link's own pause. It is an input, and no fault.
    Quiet,
    /// The end: nothing is left.
    End,
    /// A fault, which the object counted.
    Failed,
}

/// A connection to a client. One that tells its `tale` says what it has left, what was taken from it and written to it,
/// and how far it had come when its last read began; a real one tells nothing. One that tells is neither read nor
/// written once it is closed, so what was written to it was written before that. Its count of `faults` never falls.
pub trait Link {
    ghost use Rattle.std.specs.Prelude.{◌≡◌, ℕ, ◌<◌, ◌≤◌, length};
    ghost use Rattle.std.specs.declared.option.Option.{Option};
    ghost use Rattle.edge_traits.specs.Faults.{Rose};
    ghost use Rattle.edge_traits.specs.Sink.{OnWriteFailed};
    ghost use Rattle.edge_traits.specs.WhereTold.{WhereTold};
    ghost use Rattle.edge_traits.specs.Link.{Tale, LinkIsOpen, Reads, Writes, Closes, IfHeard, OnHearFailed};

    ghost tale: { Self → Option Tale };

    ghost faults: { Self → ℕ };

    /// Reads into the beginning of `buf`, which isn't empty, from a link that isn't closed; fails only where the count
    /// of faults rose.
    fn read(&mut self, buf: &mut [u8]) -> Heard
        requires room { 0 < length buf.old }
        requires open { LinkIsOpen (tale self.old) }
        ensures count { IfHeard result (λ n. (0 < n) × (n ≤ length buf.new)) }
        ensures read { WhereTold (tale self.old) (tale self.new) (Reads result buf.new) }
        ensures cause { OnHearFailed result (Rose (faults self.old) (faults self.new)) }
        ensures counted { faults self.old ≤ faults self.new };

    /// Writes the bytes to a link that isn't closed; fails only where the count of faults rose.
    fn write(&mut self, bytes: &[u8]) -> Sent
        requires open { LinkIsOpen (tale self.old) }
        ensures wrote { WhereTold (tale self.old) (tale self.new) (Writes result bytes.now) }
        ensures cause { OnWriteFailed result (Rose (faults self.old) (faults self.new)) }
        ensures counted { faults self.old ≤ faults self.new };

    /// Closes the connection, behind which nothing is read and nothing is written.
    fn close(&mut self)
        ensures closed { WhereTold (tale self.old) (tale self.new) Closes }
        ensures faults { faults self.new ≡ faults self.old };
}
