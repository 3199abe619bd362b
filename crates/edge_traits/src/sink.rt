//! Where bytes go.

/// What became of a write.
#[derive(Clone, Copy, Debug, PartialEq, Eq)]
pub enum Sent {
    /// All the bytes were written.
    All,
    /// A fault, which the object counted; a prefix of the bytes was written.
    Failed,
    /// Running out of memory; a prefix of the bytes was written.
    Memory,
}

/// A stream of bytes to write. An object that tells what was `written` to it gains the bytes at the end; its
/// count of `faults` rises where a write fails, and nowhere else.
pub trait Sink {
    ghost use Rattle.std.specs.Prelude.{◌≡◌, ℕ, ◌≤◌, List};
    ghost use Rattle.std.specs.declared.option.Option.{Option};
    ghost use Rattle.edge_traits.specs.Faults.{Rose};
    ghost use Rattle.edge_traits.specs.Sink.{Wrote, OnWriteFailed, UnlessWriteFailed};

    ghost written: { Self → Option (List ℕ) };

    ghost faults: { Self → ℕ };

    /// Writes the bytes; fails exactly where the count of faults rose, but that a count at the end of its 64 bits
    /// stays.
    fn write(&mut self, bytes: &[u8]) -> Sent
        ensures wrote { Wrote (written self.old) (written self.new) bytes.now result }
        ensures cause { OnWriteFailed result (Rose (faults self.old) (faults self.new)) }
        ensures calm { UnlessWriteFailed result (faults self.new ≡ faults self.old) }
        ensures counted { faults self.old ≤ faults self.new };
}
